//! Checks of several traces, one after another.
ghost use Rattle.std.specs.Prelude.{◌≡◌, [], Ok, Err, IfErr, OnErr, OnOk, if◌then◌else◌};
ghost use Rattle.std.specs.Io.KnownBytes.{Appends};
ghost use Rattle.vme_trace.specs.Writing.{AppendsFront};
ghost use Rattle.vme_command_line.specs.Asked.{texts_of};
ghost use Rattle.vme_program.specs.CheckedFiles.{IsChecked, file_line};
ghost use Rattle.vme_program.specs.CheckingFiles.{ChecksAll, ChecksFile, OnPlan, seen_of, seen_with};

use crate::escapes::write_escaped;
use crate::faults::{ProgramFault, print_fault};
use crate::files::open;
use crate::jobs::answer_of_trace;
use std::io::Write;
use vme_check::{Finding, finding_of, write_finding};
use vme_reading::Status;
use vme_trace::{Fault, put};

/// What the checks so far came to.
#[derive(Clone, Copy)]
pub(crate) struct Seen {
    /// Some file has a fault.
    faulty: bool,
    /// In some file an edge is refused.
    illegal: bool,
}

impl Seen {
    /// Before the first file.
    fn new() -> Seen
        ensures { result ≡ seen_of [] }
    {
        Seen {
            faulty: false,
            illegal: false,
        }
    }

    /// Takes in what was found in one more file, or its fault.
    fn note(&mut self, found: &Result<Finding, ProgramFault>)
        ensures { self.new ≡ seen_with self.old found.now }
    {
        match found {
            Ok(Finding::Legal { .. }) => {}
            Ok(Finding::Illegal { .. }) => self.illegal = true,
            Err(_) => self.faulty = true,
        }
    }

    /// The status of the checks.
    ///
    /// # Errors
    /// Some file has a fault.
    pub(crate) fn status(self) -> Result<Status, ProgramFault<'static>>
        ensures { result ≡ (if self.faulty then Err ProgramFault.SomeTraces
            else Ok (if self.illegal then Status.SomeRefused else Status.Done)) }
    {
        if self.faulty {
            return Err(ProgramFault::SomeTraces);
        }
        if self.illegal {
            Ok(Status::SomeRefused)
        } else {
            Ok(Status::Done)
        }
    }
}

/// What is found in the trace of that name, one of several on the scenario.
fn find_in_file<'a>(
    rt: &HostRuntime,
    text: &[u8],
    scenario: &'a str,
    trace: &'a str,
) -> Result<Finding, ProgramFault<'a>>
    ensures { OnPlan text.now (λ p. IsChecked p trace.entry.now result) }
{
    let mut input = open(rt, trace)?;
    answer_of_trace(scenario, trace, finding_of(rt.alloc(), text, &mut input))
}

/// Writes what was found in a file, after its name, and makes the writer pass on what it has
/// buffered.
fn write_found<W: Write>(name: &str, finding: Finding, out: &mut W) -> Result<(), Fault>
    ensures ok { OnOk result
        (Appends (W.contents out.old) (W.contents out.new) (file_line name.now (Ok finding))) }
    ensures front { OnErr result
        (AppendsFront (W.contents out.old) (W.contents out.new)
        (file_line name.now (Ok finding))) }
    ensures fault { IfErr result (λ fault. fault ≡ Fault.Write) }
{
    write_escaped(name, out)?;
    put(out, b": ")?;
    write_finding(finding, out)
}

/// Checks the trace of that name, one of several on the scenario. It writes what is found, and
/// prints a fault.
///
/// # Errors
/// X8 if the output cannot be written.
fn check_file<'a, W: Write>(
    rt: &HostRuntime,
    text: &[u8],
    scenario: &'a str,
    trace: &'a str,
    seen: &mut Seen,
    out: &mut W,
) -> Result<(), Fault>
    ensures { OnPlan text.now (ChecksFile trace.entry.now seen.old seen.new
        (W.contents out.old) (W.contents out.new) result) }
{
    let found = find_in_file(rt, text, scenario, trace);
    seen.note(&found);
    match found {
        Ok(finding) => write_found(trace, finding, out),
        Err(fault) => {
            print_fault(rt, fault);
            Ok(())
        }
    }
}

/// Checks the traces of those names on the scenario, whose text has a plan.
///
/// # Errors
/// X8 if the output cannot be written.
pub(crate) fn check_files<'a, W: Write>(
    rt: &HostRuntime,
    text: &[u8],
    scenario: &'a str,
    traces: &[&'a str],
    out: &mut W,
) -> Result<Seen, Fault>
    ensures { OnPlan text.now (ChecksAll (texts_of traces.now)
        (W.contents out.old) (W.contents out.new) result) }
{
    let mut seen = Seen::new();
    for trace in traces {
        check_file(rt, text, scenario, *trace, &mut seen, out)?;
    }
    Ok(seen)
}
