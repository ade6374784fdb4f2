//! Each job's engine, on the files that the words name.
ghost use Rattle.std.specs.Prelude.{◌≡◌, ◌≤◌, IfErr};
ghost use Rattle.std.specs.Process.{exit_status};
ghost use Rattle.vme_words.specs.Limits.{IsWithin};
ghost use Rattle.vmebus.specs.Names.{IsFaultOf};
ghost use Rattle.vmebus.specs.Statuses.{exit_code};

use crate::faults::ProgramFault;
use crate::files::{buffered, open, output, read_scenario};
use std::process::ExitCode;
use std::sync::Wait;
use std::thread::Threads;
use vme_engines::{Status, check, drive, joined, replay};
use vme_model::Version;
use vme_run::run as run_boards;
use vme_words::Job;

/// Replays what stands on standard input.
fn run_joined(rt: &HostRuntime) -> Result<Status, ProgramFault<'static>>
    ensures { IfErr result (IsFaultOf Job.Joined) }
{
    let mut input = buffered(rt, rt.stdin())?;
    let mut out = output(rt)?;
    let answer = joined(rt.alloc(), &mut input, &mut out);
    answer.map_err(|fault| ProgramFault::of_engine("-", fault))
}

/// Replays a trace.
fn run_replay<'a>(
    rt: &HostRuntime,
    scenario: &'a str,
    trace: &'a str,
) -> Result<Status, ProgramFault<'a>>
    ensures { IfErr result (IsFaultOf (Job.Replay scenario.entry trace.entry)) }
{
    let text = read_scenario(rt, scenario)?;
    let mut input = buffered(rt, open(rt, trace)?)?;
    let mut out = output(rt)?;
    let answer = replay(rt.alloc(), &text, &mut input, &mut out);
    answer.map_err(|fault| ProgramFault::of_engine(scenario, fault))
}

/// Checks a trace.
fn run_check<'a>(
    rt: &HostRuntime,
    scenario: &'a str,
    trace: &'a str,
) -> Result<Status, ProgramFault<'a>>
    ensures { IfErr result (IsFaultOf (Job.Check scenario.entry trace.entry)) }
{
    let text = read_scenario(rt, scenario)?;
    let mut input = buffered(rt, open(rt, trace)?)?;
    let mut out = output(rt)?;
    let answer = check(rt.alloc(), &text, &mut input, &mut out);
    answer.map_err(|fault| ProgramFault::of_engine(scenario, fault))
}

/// Lets the drivers of a scenario make edges in turn.
fn run_drive<'a>(
    rt: &HostRuntime,
    scenario: &'a str,
    edges: u32,
    version: Version,
) -> Result<Status, ProgramFault<'a>>
    ensures { IfErr result (IsFaultOf (Job.Drive scenario.entry edges version)) }
{
    let text = read_scenario(rt, scenario)?;
    let mut out = output(rt)?;
    let answer = drive(rt.alloc(), &text, edges, &mut out, version);
    answer.map_err(|fault| ProgramFault::of_engine(scenario, fault))
}

/// Lets each driver of a scenario make edges in a thread of its own. May wait.
fn run_run<'a, R: Threads + Wait + Sync>(
    rt: &HostRuntime,
    threads: &R,
    scenario: &'a str,
    edges: u32,
    turns: u32,
    version: Version,
) -> Result<Status, ProgramFault<'a>>
    requires { (edges ≤ 1048576) × (turns ≤ 1000000) }
    ensures { IfErr result (IsFaultOf (Job.Run scenario.entry edges turns version)) }
{
    let text = read_scenario(rt, scenario)?;
    let mut out = output(rt)?;
    let answer = run_boards(threads, rt.alloc(), &text, edges, turns, &mut out, version);
    answer.map_err(|fault| ProgramFault::of_run(scenario, fault))
}

/// Does a job, with threads from that handle. Errors: those of its files, and then those of its engine.
pub fn run<'a, R: Threads + Wait + Sync>(
    rt: &HostRuntime,
    threads: &R,
    job: Job<'a>,
) -> Result<Status, ProgramFault<'a>>
    requires { IsWithin job }
    ensures { IfErr result (IsFaultOf job.entry) }
{
    match job {
        Job::Joined => run_joined(rt),
        Job::Replay { scenario, trace } => run_replay(rt, scenario, trace),
        Job::Check { scenario, trace } => run_check(rt, scenario, trace),
        Job::Drive {
            scenario,
            edges,
            version,
        } => run_drive(rt, scenario, edges, version),
        Job::Run {
            scenario,
            edges,
            turns,
            version,
        } => run_run(rt, threads, scenario, edges, turns, version),
    }
}

/// The exit status of a run that met no fault.
pub fn code_of(status: Status) -> ExitCode
    ensures { exit_status result ≡ exit_code status }
{
    match status {
        Status::Done => ExitCode::SUCCESS,
        Status::SomeRefused => ExitCode::from(2),
        Status::Limit => ExitCode::from(3),
    }
}
