//! The program: it reads its words, has them obeyed, and returns its exit status.
//!
//! 0: all edges were accepted, or nobody could make a further one. 1: a fault, with one line on
//! standard error. 2: some edge was refused. 3: the limit of edges was reached. docs/COMMANDS.md
//! has the statuses of each command.
#![tactic(auto)]

use std::process::ExitCode;
use std::sync::Wait;
use std::thread::Threads;
use vme_program::{WordsFault, given, obey, output, report};

/// Reads the words and obeys them.
///
/// # Errors
/// F4 if a word is not text, or F3 if there is no memory for the words.
fn start<R: Threads + Wait + Sync>(rt: &HostRuntime, threads: &R) -> Result<ExitCode, WordsFault> {
    let all = given(rt)?;
    let words: Vec<&str> = all.iter().map(String::as_str).collect(rt.alloc())?;
    match output(rt) {
        Ok(mut out) => Ok(obey(rt, threads, &words, &mut out)),
        Err(fault) => Ok(report(rt, fault)),
    }
}

fn main(rt: HostRuntime) -> ExitCode {
    match start(&rt, &rt) {
        Ok(code) => code,
        Err(fault) => report(&rt, fault),
    }
}
