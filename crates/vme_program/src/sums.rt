//! Sums over several traces, which are read one after another.
ghost use Rattle.std.specs.Prelude.{◌≡◌, ◌≤◌, ◌++◌, [], Ok, Err, IfErr, OnErr, OnOk, false, if◌then◌else◌, length};
ghost use Rattle.std.specs.Io.KnownBytes.{Appends};
ghost use Rattle.vme_scenario.specs.Format.{scenario as read};
ghost use Rattle.vme_trace.specs.Writing.{AppendsFront};
ghost use Rattle.vme_summary.specs.Sums.{total};
ghost use Rattle.vme_summary.specs.Summed.{AreSumsOf, OfSums};
ghost use Rattle.vme_summary.specs.Tally.{refused};
ghost use Rattle.vme_reading.specs.Outcomes.{scenario_limit, status_with};
ghost use Rattle.vme_command_line.specs.Asked.{texts_of};
ghost use Rattle.vme_program.specs.Adding.{AddsFile, OfAdded, SumsAll, TakesAll, TakesFile};
ghost use Rattle.vme_program.specs.CheckingFiles.{OnPlan};
ghost use Rattle.vme_program.specs.Together.{illegal_line, refused_line, totals_text, traces_line};

use crate::escapes::write_escaped;
use crate::faults::{ProgramFault, print_fault};
use crate::files::open;
use crate::jobs::answer_of_trace;
use arrayvec::ArrayVec;
use std::io::Write;
use vme_reading::Status;
use vme_slots::Plan;
use vme_summary::{Sums, add_trace, write_sums};
use vme_text::{push, push_number};
use vme_trace::{Fault, flush, put};

/// What the traces so far came to.
#[derive(Drop)]
pub(crate) struct Added {
    /// The sums over those without fault.
    sums: Sums,
    /// How many these are; it stays at 2^64 - 1.
    traces: u64,
    /// Some file has a fault.
    faulty: bool,
}

impl Added {
    /// Before the first trace.
    fn new() -> Added
        ensures sums { AreSumsOf [] result.sums }
        ensures traces { result.traces ≡ 0 }
        ensures faulty { result.faulty ≡ false }
    {
        Added {
            sums: Sums::new(),
            traces: 0,
            faulty: false,
        }
    }

    /// The status of the sums.
    ///
    /// # Errors
    /// Some file has a fault.
    pub(crate) fn status(&self) -> Result<Status, ProgramFault<'static>>
        ensures status { OfSums self.now.sums (λ ts. result ≡ (if self.now.faulty
            then Err ProgramFault.SomeTraces else Ok (status_with (total refused ts)))) }
        ensures fault { IfErr result (λ fault. fault ≡ ProgramFault.SomeTraces) }
    {
        if self.faulty {
            return Err(ProgramFault::SomeTraces);
        }
        if self.sums.refused() == 0 {
            Ok(Status::Done)
        } else {
            Ok(Status::SomeRefused)
        }
    }
}

/// Adds to the sums what the trace of that name exercised. It is one of several on the scenario.
fn sum_file<'a>(
    rt: &HostRuntime,
    text: &[u8],
    scenario: &'a str,
    trace: &'a str,
    sums: &mut Sums,
) -> Result<Status, ProgramFault<'a>>
    ensures { OnPlan text.now (AddsFile trace.entry.now sums.old sums.new result) }
{
    let mut input = open(rt, trace)?;
    answer_of_trace(
        scenario,
        trace,
        add_trace(rt.alloc(), text, &mut input, sums),
    )
}

/// Writes the name of a trace of which an edge was refused.
fn write_illegal<W: Write>(name: &str, out: &mut W) -> Result<(), Fault>
    ensures ok { OnOk result
        (Appends (W.contents out.old) (W.contents out.new) (illegal_line name.now)) }
    ensures front { OnErr result
        (AppendsFront (W.contents out.old) (W.contents out.new) (illegal_line name.now)) }
    ensures fault { IfErr result (λ fault. fault ≡ Fault.Write) }
{
    write_escaped(name, out)?;
    put(out, b": illegal\n")
}

/// Writes the name of a trace if an edge of it was refused.
fn write_refused<W: Write>(name: &str, status: Status, out: &mut W) -> Result<(), Fault>
    ensures ok { OnOk result
        (Appends (W.contents out.old) (W.contents out.new) (refused_line name.now status)) }
    ensures front { OnErr result
        (AppendsFront (W.contents out.old) (W.contents out.new) (refused_line name.now status)) }
    ensures fault { IfErr result (λ fault. fault ≡ Fault.Write) }
{
    match status {
        Status::SomeRefused => write_illegal(name, out),
        Status::Done | Status::Limit => Ok(()),
    }
}

/// Adds up one more trace, one of several on the scenario. It writes its name if an edge of it was
/// refused, and prints its fault.
///
/// # Errors
/// X8 if the output cannot be written.
fn add_file<'a, W: Write>(
    rt: &HostRuntime,
    text: &[u8],
    scenario: &'a str,
    trace: &'a str,
    added: &mut Added,
    out: &mut W,
) -> Result<(), Fault>
    ensures { OnPlan text.now (TakesFile trace.entry.now added.old added.new
        (W.contents out.old) (W.contents out.new) result) }
{
    match sum_file(rt, text, scenario, trace, &mut added.sums) {
        Ok(status) => {
            added.traces = added.traces.saturating_add(1);
            write_refused(trace, status, out)
        }
        Err(fault) => {
            added.faulty = true;
            print_fault(rt, fault);
            Ok(())
        }
    }
}

/// Adds up the traces of those names on the scenario, whose text has a plan.
///
/// # Errors
/// X8 if the output cannot be written.
fn add_files<'a, W: Write>(
    rt: &HostRuntime,
    text: &[u8],
    scenario: &'a str,
    traces: &[&'a str],
    out: &mut W,
) -> Result<Added, Fault>
    ensures { OnPlan text.now (TakesAll (texts_of traces.now)
        (W.contents out.old) (W.contents out.new) result) }
{
    let mut added = Added::new();
    for trace in traces {
        add_file(rt, text, scenario, *trace, &mut added, out)?;
    }
    Ok(added)
}

/// Writes how many traces were added up.
fn write_traces<W: Write>(traces: u64, out: &mut W) -> Result<(), Fault>
    ensures ok { OnOk result
        (Appends (W.contents out.old) (W.contents out.new) (traces_line traces)) }
    ensures front { OnErr result
        (AppendsFront (W.contents out.old) (W.contents out.new) (traces_line traces)) }
    ensures fault { IfErr result (λ fault. fault ≡ Fault.Write) }
{
    let mut line: ArrayVec<u8, 40> = ArrayVec::new();
    push(&mut line, b"traces ");
    push_number(&mut line, traces);
    push(&mut line, b"\n");
    put(out, line.as_slice())
}

/// Writes how many traces were added up, and their sums; nothing if every file has a fault.
///
/// # Errors
/// X8 if the output cannot be written.
fn write_totals<W: Write>(plan: &Plan, added: &Added, out: &mut W) -> Result<(), Fault>
    ensures ok { OnOk result (OfAdded added.now (λ ts.
        Appends (W.contents out.old) (W.contents out.new) (totals_text plan.now ts))) }
    ensures front { OnErr result (OfAdded added.now (λ ts.
        AppendsFront (W.contents out.old) (W.contents out.new) (totals_text plan.now ts))) }
    ensures fault { IfErr result (λ fault. fault ≡ Fault.Write) }
{
    if added.traces == 0 {
        return Ok(());
    }
    write_traces(added.traces, out)?;
    write_sums(plan, &added.sums, out)
}

/// Adds up the traces of those names on the scenario of this text and plan, prints how many had no
/// fault and the sums over these, if there are any, and makes the writer pass on what it has
/// buffered.
///
/// # Errors
/// X8 if the output cannot be written.
pub(crate) fn sum_files<'a, W: Write>(
    rt: &HostRuntime,
    text: &[u8],
    plan: &Plan,
    scenario: &'a str,
    traces: &[&'a str],
    out: &mut W,
) -> Result<Added, Fault>
    requires { (length text.now ≤ scenario_limit) × (read text.now ≡ Ok plan.now) }
    ensures { SumsAll (texts_of traces.now) (W.contents out.old) (W.contents out.new) result
        plan.now }
{
    let added = add_files(rt, text, scenario, traces, out)?;
    write_totals(plan, &added, out)?;
    flush(out)?;
    Ok(added)
}
