//! The engine of each job, on the files that the words name.
ghost use Rattle.std.specs.Prelude.{◌≡◌, ◌≤◌, Ok, length, IfErr, IfOk, OnErr, OnOk};
ghost use Rattle.std.specs.Io.KnownBytes.{Appends};
ghost use Rattle.std.specs.Process.{exit_status};
ghost use Rattle.vme_model.specs.Plan.{Plan as PlanValue};
ghost use Rattle.vme_model.specs.Report.{trace_limit};
ghost use Rattle.vme_scenario.specs.Format.{scenario as read};
ghost use Rattle.vme_command_line.specs.Limits.{IsWithin, IsWithinWork, most_turns};
ghost use Rattle.vme_trace.specs.Writing.{AppendsFront};
ghost use Rattle.vme_program.specs.Done.{IsDone, rules_text};
ghost use Rattle.vme_reading.specs.Outcomes.{scenario_limit};
ghost use Rattle.vme_reading.specs.Steps.{IsNoPlan};
ghost use Rattle.vme_reading.specs.declared.EngineFault.{EngineFault as EngineFaultValue};
ghost use Rattle.vme_program.specs.Names.{IsFaultOf, form_of, answer_named, fault_named, order_answer_named, other_answer_named, run_answer_named, trace_answer_named};
ghost use Rattle.vme_program.specs.Statuses.{exit_code};

use crate::checks::check_files;
use crate::comparisons::report_comparison;
use crate::drives::run_drive;
use crate::faults::ProgramFault;
use crate::files::{buffered, open, read_scenario};
use crate::probes::run_probe;
use crate::reporters::Reporter;
use crate::sums::sum_files;
use crate::tasks::run_on_trace;
use std::io::Write;
use std::process::ExitCode;
use std::sync::Wait;
use std::thread::Threads;
use vme_command_line::{Job, VERSION, Work};
use vme_model::Version;
use vme_moments::Slacks;
use vme_order::{Form, OrderingFault, order};
use vme_races::{OtherOrder, other_order};
use vme_reading::{EngineFault, Status, plan_of};
use vme_replay::joined;
use vme_rulebook::{Entry, all_rules};
use vme_run::{RunFault, run as run_scenario};
use vme_same::compare;
use vme_slots::Plan;
use vme_text::Text;
use vme_trace::{Fault, flush, put};

/// An engine's answer, given the name of the scenario.
pub(crate) fn answer_of<'a>(
    name: &'a str,
    answer: Result<Status, EngineFault>,
) -> Result<Status, ProgramFault<'a>>
    ensures { result ≡ answer_named name.entry answer }
{
    match answer {
        Ok(status) => Ok(status),
        Err(fault) => Err(ProgramFault::of_engine(name, fault)),
    }
}

/// An engine's answer, given the name of the scenario and that of the trace, which is one of
/// several.
pub(crate) fn answer_of_trace<'a, A>(
    scenario: &'a str,
    trace: &'a str,
    answer: Result<A, EngineFault>,
) -> Result<A, ProgramFault<'a>>
    ensures { result ≡ trace_answer_named scenario.entry trace.entry answer }
{
    match answer {
        Ok(answer) => Ok(answer),
        Err(fault) => Err(ProgramFault::of_trace(scenario, trace, fault)),
    }
}

/// The answer of `run`, given the name of the scenario.
fn answer_of_run<'a>(
    name: &'a str,
    answer: Result<Status, RunFault>,
) -> Result<Status, ProgramFault<'a>>
    ensures { result ≡ run_answer_named name.entry answer }
{
    match answer {
        Ok(status) => Ok(status),
        Err(RunFault::Engine(fault)) => Err(ProgramFault::of_engine(name, fault)),
        Err(fault) => Err(ProgramFault::Boards(fault)),
    }
}

/// The answer of `order`, given the name of the scenario.
fn answer_of_order<'a>(
    name: &'a str,
    answer: Result<Status, OrderingFault>,
) -> Result<Status, ProgramFault<'a>>
    ensures { result ≡ order_answer_named name.entry answer }
{
    match answer {
        Ok(status) => Ok(status),
        Err(OrderingFault::Engine(fault)) => Err(ProgramFault::of_engine(name, fault)),
        Err(fault) => Err(ProgramFault::Ordering(fault)),
    }
}

/// The answer about the other order of the race of this edge, given the name of the scenario.
fn answer_of_other<'a>(
    name: &'a str,
    edge: u64,
    answer: Result<OtherOrder, EngineFault>,
) -> Result<Status, ProgramFault<'a>>
    ensures { result ≡ other_answer_named name.entry edge answer }
{
    match answer {
        Ok(OtherOrder::Written) => Ok(Status::Done),
        Ok(OtherOrder::NoRace) => Err(ProgramFault::NoRace(edge)),
        Ok(OtherOrder::Beyond(edges)) => Err(ProgramFault::Engine(EngineFault::Beyond(edges))),
        Err(fault) => Err(ProgramFault::of_engine(name, fault)),
    }
}

/// Replays standard input.
#[inline(never)]
fn run_joined<W: Write>(rt: &HostRuntime, out: &mut W) -> Result<Status, ProgramFault<'static>>
    ensures fault { IfErr result (IsFaultOf Job.Joined) }
    ensures done { IsDone Job.Joined (W.contents out.old) (W.contents out.new) result }
{
    let mut input = buffered(rt, rt.stdin())?;
    answer_of("-", joined(rt.alloc(), &mut input, out))
}

/// Writes a text, and makes the writer pass on what it has buffered.
///
/// # Errors
/// X8 if the output cannot be written; then a prefix of the text was written.
fn report_text<W: Write>(text: &[u8], out: &mut W) -> Result<(), Fault>
    ensures ok { OnOk result (Appends (W.contents out.old) (W.contents out.new) text.now) }
    ensures front { OnErr result
        (AppendsFront (W.contents out.old) (W.contents out.new) text.now) }
    ensures fault { IfErr result (λ fault. fault ≡ Fault.Write) }
{
    put(out, text)?;
    flush(out)
}

/// Prints a text.
fn run_text<W: Write>(text: &[u8], out: &mut W) -> Result<Status, ProgramFault<'static>>
    ensures ok { IfOk result (λ status. (status ≡ Status.Done)
        × Appends (W.contents out.old) (W.contents out.new) text.now) }
    ensures front { OnErr result
        (AppendsFront (W.contents out.old) (W.contents out.new) text.now) }
    ensures fault { IfErr result (λ fault.
        fault ≡ ProgramFault.Engine (EngineFault.Trace Fault.Write)) }
{
    match report_text(text, out) {
        Ok(()) => Ok(Status::Done),
        Err(fault) => Err(ProgramFault::Engine(EngineFault::Trace(fault))),
    }
}

/// Prints the program's version.
#[inline(never)]
fn run_version<W: Write>(out: &mut W) -> Result<Status, ProgramFault<'static>>
    ensures fault { IfErr result (IsFaultOf Job.OwnVersion) }
    ensures done { IsDone Job.OwnVersion (W.contents out.old) (W.contents out.new) result }
{
    run_text(VERSION.as_bytes(), out)
}

/// A rule or another code explained, or all rules in a sentence each.
fn rules_text(entry: Option<Entry>) -> Text
    ensures { result ≡ rules_text entry }
{
    match entry {
        Some(entry) => entry.text(),
        None => all_rules(),
    }
}

/// Prints the rules, or explains a code.
#[inline(never)]
fn run_rules<W: Write>(entry: Option<Entry>, out: &mut W) -> Result<Status, ProgramFault<'static>>
    ensures fault { IfErr result (IsFaultOf (Job.Rules entry)) }
    ensures done { IsDone (Job.Rules entry) (W.contents out.old) (W.contents out.new) result }
{
    run_text(rules_text(entry).as_slice(), out)
}

/// The plan of the text of a scenario.
///
/// # Errors
/// The scenario's.
pub(crate) fn plan_in<'a>(
    rt: &HostRuntime,
    name: &'a str,
    text: &[u8],
) -> Result<Plan, ProgramFault<'a>>
    ensures ok { IfOk result
        (λ p. (length text.now ≤ scenario_limit) × (read text.now ≡ Ok p)) }
    ensures fault { IfErr result (λ fault. (f : EngineFaultValue) × IsNoPlan text.now f
        × (fault ≡ fault_named name.entry f)) }
{
    match plan_of(rt.alloc(), text) {
        Ok(plan) => Ok(plan),
        Err(fault) => Err(ProgramFault::of_engine(name, fault)),
    }
}

/// Tests whether the text of a scenario has a plan.
///
/// # Errors
/// The scenario's.
fn test_plan<'a>(rt: &HostRuntime, name: &'a str, text: &[u8]) -> Result<(), ProgramFault<'a>>
    ensures ok { OnOk result
        ((p : PlanValue) × (length text.now ≤ scenario_limit) × (read text.now ≡ Ok p)) }
    ensures fault { IfErr result (λ fault. (f : EngineFaultValue) × IsNoPlan text.now f
        × (fault ≡ fault_named name.entry f)) }
{
    match plan_in(rt, name, text) {
        Ok(_) => Ok(()),
        Err(fault) => Err(fault),
    }
}

/// Checks several traces, each whatever the others are.
#[inline(never)]
fn run_checks<'a, W: Write>(
    rt: &HostRuntime,
    scenario: &'a str,
    text: &[u8],
    traces: Vec<&'a str>,
    out: &mut W,
) -> Result<Status, ProgramFault<'a>>
    ensures fault { IfErr result
        (IsFaultOf (Job.OnScenario scenario.entry (Work.Checks traces.entry))) }
    ensures done { IsDone (Job.OnScenario scenario.entry (Work.Checks traces.entry))
        (W.contents out.old) (W.contents out.new) result }
{
    test_plan(rt, scenario, text)?;
    match check_files(rt, text, scenario, &traces, out) {
        Ok(seen) => seen.status(),
        Err(fault) => Err(ProgramFault::Engine(EngineFault::Trace(fault))),
    }
}

/// Adds up what several traces exercised, each whatever the others are, and prints the sums.
#[inline(never)]
fn run_sums<'a, W: Write>(
    rt: &HostRuntime,
    scenario: &'a str,
    text: &[u8],
    traces: Vec<&'a str>,
    out: &mut W,
) -> Result<Status, ProgramFault<'a>>
    ensures fault { IfErr result
        (IsFaultOf (Job.OnScenario scenario.entry (Work.Sums traces.entry))) }
    ensures done { IsDone (Job.OnScenario scenario.entry (Work.Sums traces.entry))
        (W.contents out.old) (W.contents out.new) result }
{
    let plan = plan_in(rt, scenario, text)?;
    match sum_files(rt, text, &plan, scenario, &traces, out) {
        Ok(added) => added.status(),
        Err(fault) => Err(ProgramFault::Engine(EngineFault::Trace(fault))),
    }
}

/// Prints the trace of the other order of a race.
#[inline(never)]
fn run_other<'a, W: Write>(
    rt: &HostRuntime,
    scenario: &'a str,
    text: &[u8],
    trace: &'a str,
    edge: u64,
    out: &mut W,
) -> Result<Status, ProgramFault<'a>>
    ensures fault { IfErr result
        (IsFaultOf (Job.OnScenario scenario.entry (Work.OtherOrder trace.entry edge))) }
    ensures done { IsDone (Job.OnScenario scenario.entry (Work.OtherOrder trace.entry edge))
        (W.contents out.old) (W.contents out.new) result }
{
    let mut input = open(rt, trace)?;
    let answer = other_order(rt.alloc(), text, &mut input, edge, out);
    answer_of_other(scenario, edge, answer)
}

/// Prints whether two traces are the same but for orders that do not matter. Both files are opened
/// before either is read.
#[inline(never)]
fn run_same<'a, W: Write>(
    rt: &HostRuntime,
    scenario: &'a str,
    text: &[u8],
    trace: &'a str,
    other: &'a str,
    out: &mut W,
) -> Result<Status, ProgramFault<'a>>
    ensures fault { IfErr result
        (IsFaultOf (Job.OnScenario scenario.entry (Work.Same trace.entry other.entry))) }
    ensures done { IsDone (Job.OnScenario scenario.entry (Work.Same trace.entry other.entry))
        (W.contents out.old) (W.contents out.new) result }
{
    let mut first = open(rt, trace)?;
    let mut second = open(rt, other)?;
    match compare(rt.alloc(), text, &mut first, &mut second) {
        Ok(found) => report_comparison(trace, other, found, out),
        Err(fault) => Err(ProgramFault::of_pair(scenario, other, fault)),
    }
}

/// What is written of an order, with `--where` and without.
fn form_of(places: bool) -> Form
    ensures { result ≡ form_of places }
{
    if places { Form::Places } else { Form::Trace }
}

/// Finds a legal order of edges that were seen at moments.
#[inline(never)]
fn run_order<'a, W: Write>(
    rt: &HostRuntime,
    scenario: &'a str,
    text: &[u8],
    moments: &'a str,
    slacks: &Slacks,
    places: bool,
    progress: bool,
    out: &mut W,
) -> Result<Status, ProgramFault<'a>>
    ensures fault { IfErr result (IsFaultOf (Job.OnScenario scenario.entry
        (Work.Order moments.entry slacks.now places progress))) }
    ensures done { IsDone (Job.OnScenario scenario.entry
        (Work.Order moments.entry slacks.now places progress))
        (W.contents out.old) (W.contents out.new) result }
{
    let mut input = open(rt, moments)?;
    let form = form_of(places);
    let reporter = &mut Reporter::new(rt, progress);
    answer_of_order(
        scenario,
        order(rt.alloc(), text, &mut input, slacks, form, out, reporter),
    )
}

/// Lets each driver of a scenario make edges in a thread of its own. It may wait for other threads.
#[inline(never)]
fn run_run<'a, R: Threads + Wait + Sync, W: Write>(
    rt: &HostRuntime,
    threads: &R,
    scenario: &'a str,
    text: &[u8],
    edges: u32,
    turns: u32,
    version: Version,
    out: &mut W,
) -> Result<Status, ProgramFault<'a>>
    requires { (edges ≤ trace_limit) × (turns ≤ most_turns) }
    ensures fault { IfErr result
        (IsFaultOf (Job.OnScenario scenario.entry (Work.Run edges turns version))) }
    ensures done { IsDone (Job.OnScenario scenario.entry (Work.Run edges turns version))
        (W.contents out.old) (W.contents out.new) result }
{
    answer_of_run(
        scenario,
        run_scenario(threads, rt.alloc(), text, edges, turns, out, version),
    )
}

/// Does a work on the scenario of this name, whose text was read. `threads` starts the threads of
/// `run`.
fn run_work<'a, R: Threads + Wait + Sync, W: Write>(
    rt: &HostRuntime,
    threads: &R,
    scenario: &'a str,
    text: &[u8],
    work: Work<'a>,
    out: &mut W,
) -> Result<Status, ProgramFault<'a>>
    requires { IsWithinWork work }
    ensures fault { IfErr result (IsFaultOf (Job.OnScenario scenario.entry work.entry)) }
    ensures done { IsDone (Job.OnScenario scenario.entry work.entry)
        (W.contents out.old) (W.contents out.new) result }
{
    match work {
        Work::OnTrace { task, trace } => run_on_trace(rt, scenario, text, task, trace, out),
        Work::Checks { traces } => run_checks(rt, scenario, text, traces, out),
        Work::Sums { traces } => run_sums(rt, scenario, text, traces, out),
        Work::OtherOrder { trace, edge } => run_other(rt, scenario, text, trace, edge, out),
        Work::Same { trace, other } => run_same(rt, scenario, text, trace, other, out),
        Work::Order {
            moments,
            slacks,
            places,
            progress,
        } => run_order(rt, scenario, text, moments, &slacks, places, progress, out),
        Work::Probe { capture, skew } => run_probe(rt, scenario, text, capture, skew, out),
        Work::Drive {
            edges,
            version,
            choice,
        } => run_drive(rt, scenario, text, edges, version, choice, out),
        Work::Run {
            edges,
            turns,
            version,
        } => run_run(rt, threads, scenario, text, edges, turns, version, out),
    }
}

/// Does a work on the scenario in the file of this name.
fn run_on_scenario<'a, R: Threads + Wait + Sync, W: Write>(
    rt: &HostRuntime,
    threads: &R,
    scenario: &'a str,
    work: Work<'a>,
    out: &mut W,
) -> Result<Status, ProgramFault<'a>>
    requires { IsWithinWork work }
    ensures fault { IfErr result (IsFaultOf (Job.OnScenario scenario.entry work.entry)) }
    ensures done { IsDone (Job.OnScenario scenario.entry work.entry)
        (W.contents out.old) (W.contents out.new) result }
{
    let text = read_scenario(rt, scenario)?;
    run_work(rt, threads, scenario, &text, work, out)
}

/// Does a job. `threads` starts the threads of `run`.
///
/// # Errors
/// The errors of its files, and then those of its engine.
pub fn run<'a, R: Threads + Wait + Sync, W: Write>(
    rt: &HostRuntime,
    threads: &R,
    job: Job<'a>,
    out: &mut W,
) -> Result<Status, ProgramFault<'a>>
    requires { IsWithin job }
    ensures fault { IfErr result (IsFaultOf job.entry) }
    ensures done { IsDone job.entry (W.contents out.old) (W.contents out.new) result }
{
    match job {
        Job::Joined => run_joined(rt, out),
        Job::OwnVersion => run_version(out),
        Job::Rules { entry } => run_rules(entry, out),
        Job::OnScenario { scenario, work } => run_on_scenario(rt, threads, scenario, work, out),
    }
}

/// The exit status of a job that met no fault.
pub fn code_of(status: Status) -> ExitCode
    ensures { exit_status result ≡ exit_code status }
{
    match status {
        Status::Done => ExitCode::SUCCESS,
        Status::SomeRefused => ExitCode::from(2),
        Status::Limit => ExitCode::from(3),
    }
}
