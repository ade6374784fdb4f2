//! The work of `probe`: what an analyser saw of a bus.
ghost use Rattle.std.specs.Prelude.{◌≡◌, IfErr};
ghost use Rattle.vme_program.specs.Done.{IsDone};
ghost use Rattle.vme_program.specs.Names.{IsFaultOf, probe_answer_named};

use crate::faults::ProgramFault;
use crate::files::open;
use std::io::Write;
use vme_command_line::{Job, Work};
use vme_probe::{ProbeFault, probe};
use vme_reading::Status;

/// The answer of `probe`, given the name of the scenario.
fn answer_of_probe<'a>(
    name: &'a str,
    answer: Result<Status, ProbeFault>,
) -> Result<Status, ProgramFault<'a>>
    ensures { result ≡ probe_answer_named name.entry answer }
{
    match answer {
        Ok(status) => Ok(status),
        Err(ProbeFault::Engine(fault)) => Err(ProgramFault::of_engine(name, fault)),
        Err(fault) => Err(ProgramFault::Probing(fault)),
    }
}

/// Judges what an analyser saw.
#[inline(never)]
pub(crate) fn run_probe<'a, W: Write>(
    rt: &HostRuntime,
    scenario: &'a str,
    text: &[u8],
    capture: &'a str,
    skew: Option<u64>,
    out: &mut W,
) -> Result<Status, ProgramFault<'a>>
    ensures fault { IfErr result
        (IsFaultOf (Job.OnScenario scenario.entry (Work.Probe capture.entry skew))) }
    ensures done { IsDone (Job.OnScenario scenario.entry (Work.Probe capture.entry skew))
        (W.contents out.old) (W.contents out.new) result }
{
    let mut input = open(rt, capture)?;
    answer_of_probe(scenario, probe(rt.alloc(), text, skew, &mut input, out))
}
