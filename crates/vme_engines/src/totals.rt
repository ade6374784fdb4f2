//! Adding up what several traces come to, each from power-up on.
ghost use Rattle.std.specs.Prelude.{◌≡◌, None, IfOk, IfErr, OnOk, OnErr};
ghost use Rattle.std.specs.Io.KnownBytes.{Appends, Keeps};
ghost use Rattle.vme_trace.specs.Writing.{AppendsFront};
ghost use Rattle.vme_summary.specs.Summed.{OfSums};
ghost use Rattle.vme_summary.specs.Sums.{sums_text, total};
ghost use Rattle.vme_summary.specs.Tally.{refused};
ghost use Rattle.vme_engines.specs.Outcomes.{Lent, LentAsking, status_with};
ghost use Rattle.vme_engines.specs.Streams.{streams, ReadNothing};
ghost use Rattle.vme_engines.specs.Summed.{IsSumOf, Tallies};
ghost use Rattle.vme_engines.specs.Totals.{AddsInput, PrintsSums};

use crate::plans::plan_of;
use crate::readings::{Judge, read};
use crate::replays::status_of;
use crate::summaries::Summing;
use crate::{EngineFault, Status};
use std::alloc::Global;
use std::io::{Read, Sink, Write, sink};
use std::mem::replace;
use vme_bus::Bus;
use vme_model::Edge;
use vme_slots::Plan;
use vme_summary::{Sums, Tally, write_sums};
use vme_trace::{Fault, flush};

/// A trace on the way to its end, where it gives its tally away.
#[derive(Drop)]
pub(crate) struct Tallying {
    pub(crate) summing: Summing,
}

impl Judge for Tallying {
    type Task = ();

    type Answer = Tally;

    ghost can = { λ _. Unit {0} };

    ghost count = { λ now. now.summing.following.judged };

    ghost stands = { λ _ p v es old new now. IsSumOf p v es now.summing };

    ghost leaves = { λ _ p trace s answer. Tallies p trace s answer };

    fn begin(task: &(), bus: Bus) -> Tallying {
        Tallying {
            summing: Summing::begin(task, bus),
        }
    }

    fn unbegun(_task: &()) {}

    /// Takes in the edges, and gives what all came to at the end of the trace.
    fn take<W: Write>(
        &mut self,
        edges: &[Edge],
        more: Result<bool, Fault>,
        _paused: bool,
        _out: &mut W,
    ) -> Result<Option<Tally>, Fault> {
        self.summing.take_edges(edges);
        match more {
            Ok(true) => Ok(None),
            Ok(false) => Ok(Some(replace(&mut self.summing.tally, Tally::new()))),
            Err(fault) => Err(fault),
        }
    }
}

/// Adds what a trace comes to, on the plan of a scenario, to the sums of those before it.
///
/// The trace begins at power-up, whatever was added before. The status says whether some edge of it
/// was refused. It makes at most 16,777,216 reads.
///
/// # Errors
/// F2, the faults of the scenario and F3, before anything is read; those of the trace. Nothing is
/// added then.
pub fn add_trace<R: Read>(
    alloc: Global,
    scenario: &[u8],
    trace: &mut R,
    sums: &mut Sums,
) -> Result<Status, EngineFault>
    ensures adds { let s = streams (R.remaining trace.old) (R.remaining trace.new) None None in
        LentAsking scenario.now (ReadNothing s) (AddsInput s sums.old sums.new) result }
    ensures kept { IfErr result (λ _. sums.new ≡ sums.old) }
{
    let tally = read::<Tallying, R, Sink>(alloc, scenario, &(), trace, &mut sink())?;
    sums.add(&tally);
    Ok(status_of(tally.refused()))
}

/// Writes what traces came to together, on a plan, and has the writer hand on what it holds back.
#[inline(never)]
fn print_totals<W: Write>(plan: &Plan, sums: &Sums, out: &mut W) -> Result<Status, Fault>
    ensures status { IfOk result (λ status. OfSums sums.now (λ ts.
        status ≡ status_with (total refused ts))) }
    ensures ok { OnOk result (OfSums sums.now (λ ts.
        Appends (W.contents out.old) (W.contents out.new) (sums_text plan.now ts))) }
    ensures front { OnErr result (OfSums sums.now (λ ts.
        AppendsFront (W.contents out.old) (W.contents out.new) (sums_text plan.now ts))) }
    ensures fault { IfErr result (λ fault. fault ≡ Fault.Write) }
{
    write_sums(plan, sums, out)?;
    flush(out)?;
    Ok(status_of(sums.refused()))
}

/// Writes what traces came to together, on the plan of their scenario: the lines of a summary, with
/// the sums of their numbers and their greatest waits and holds. The status says whether some edge
/// was refused in some trace.
///
/// # Errors
/// F2 and the faults of the scenario, before anything is written; X8 if the output cannot be
/// written.
pub fn print_sums<W: Write>(
    alloc: Global,
    scenario: &[u8],
    sums: &Sums,
    out: &mut W,
) -> Result<Status, EngineFault>
    ensures { Lent scenario.now (Keeps (W.contents out.old) (W.contents out.new))
        (PrintsSums sums.now (W.contents out.old) (W.contents out.new)) result }
{
    let plan = plan_of(alloc, scenario)?;
    match print_totals(&plan, sums, out) {
        Ok(status) => Ok(status),
        Err(fault) => Err(EngineFault::Trace(fault)),
    }
}
