//! The program: reads its words, runs an engine on files or on standard input, and answers by its exit status.
//!
//! 0: done. 1: a fault, one line on standard error. 2: some edge was refused. 3: the limit of edges was reached.
#![tactic(auto)]

mod faults;
mod files;

use faults::ProgramFault;
use files::{open, read_scenario, buffered, output};
use std::io;
use std::process::ExitCode;
use std::{env, fmt};
use vme_engines::{Status, check, drive, joined, replay};
use vme_model::Version;
use vme_words::{Job, words};

/// Replays what stands on standard input.
fn run_joined(rt: &HostRuntime) -> Result<Status, ProgramFault<'static>> {
    let mut input = buffered(rt, rt.stdin())?;
    let mut out = output(rt)?;
    joined(rt.alloc(), &mut input, &mut out).map_err(|fault| ProgramFault::of_engine("-", fault))
}

/// Replays a trace.
fn run_replay<'a>(rt: &HostRuntime, scenario: &'a str, trace: &'a str) -> Result<Status, ProgramFault<'a>> {
    let text = read_scenario(rt, scenario)?;
    let mut input = buffered(rt, open(rt, trace)?)?;
    let mut out = output(rt)?;
    replay(rt.alloc(), &text, &mut input, &mut out).map_err(|fault| ProgramFault::of_engine(scenario, fault))
}

/// Checks a trace.
fn run_check<'a>(rt: &HostRuntime, scenario: &'a str, trace: &'a str) -> Result<Status, ProgramFault<'a>> {
    let text = read_scenario(rt, scenario)?;
    let mut input = buffered(rt, open(rt, trace)?)?;
    let mut out = output(rt)?;
    check(rt.alloc(), &text, &mut input, &mut out).map_err(|fault| ProgramFault::of_engine(scenario, fault))
}

/// Lets the drivers of a scenario make edges in turn.
fn run_drive<'a>(rt: &HostRuntime, scenario: &'a str, edges: u32, version: Version) -> Result<Status, ProgramFault<'a>> {
    let text = read_scenario(rt, scenario)?;
    let mut out = output(rt)?;
    drive(rt.alloc(), &text, edges, version, &mut out).map_err(|fault| ProgramFault::of_engine(scenario, fault))
}

fn run<'a>(rt: &HostRuntime, job: Job<'a>) -> Result<Status, ProgramFault<'a>> {
    match job {
        Job::Joined => run_joined(rt),
        Job::Replay { scenario, trace } => run_replay(rt, scenario, trace),
        Job::Check { scenario, trace } => run_check(rt, scenario, trace),
        Job::Drive {
            scenario,
            edges,
            version,
        } => run_drive(rt, scenario, edges, version),
    }
}

/// The exit status of a run that met no fault.
fn code_of(status: Status) -> ExitCode {
    match status {
        Status::Done => ExitCode::SUCCESS,
        Status::SomeRefused => ExitCode::from(2),
        Status::Limit => ExitCode::from(3),
    }
}

/// Writes the one line of a fault.
fn tell<D: fmt::Display + Drop>(rt: &HostRuntime, fault: D) -> ExitCode {
    let _ = eprintln!(rt; "vmebus: {fault}");
    ExitCode::FAILURE
}

/// Runs what the words ask for. An error is one of the words themselves, which cannot be read as text.
fn run_words(rt: &HostRuntime) -> io::Result<ExitCode> {
    let alloc = rt.alloc();
    let all: Vec<String> = env::args(rt)?.skip(1).collect(alloc)?;
    let mut given: Vec<&str> = Vec::new(alloc);
    for word in &all {
        given.push(word.as_str())?;
    }
    match words(alloc, &given) {
        Err(error) => {
            let _ = eprint!(rt; "{error}");
            Ok(ExitCode::FAILURE)
        }
        Ok(job) => match run(rt, job) {
            Ok(status) => Ok(code_of(status)),
            Err(fault) => Ok(tell(rt, fault)),
        },
    }
}

fn main(rt: HostRuntime) -> ExitCode {
    match run_words(&rt) {
        Ok(code) => code,
        Err(error) => tell(&rt, error),
    }
}
