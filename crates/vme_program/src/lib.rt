//! Does what the words after the program's name ask for. It passes the files that they name to an
//! engine, turns the engine's answer into an exit status, and prints a fault as a line.
#![tactic(auto)]

ghost use Rattle.std.specs.Prelude.{map};
ghost use Rattle.std.specs.Process.{exit_status};
ghost use Rattle.vme_program.specs.Done.{IsObeyed};

mod arguments;
mod checks;
mod codes;
mod comparisons;
mod drives;
mod escapes;
mod faults;
mod files;
mod goals;
mod jobs;
mod probes;
mod reporters;
mod sums;
mod tasks;

use arguments::report_words;
pub use arguments::{WordsFault, given};
pub use faults::{ProgramFault, report};
pub use files::output;
use jobs::{code_of, run};
use std::io::Write;
use std::process::ExitCode;
use std::sync::Wait;
use std::thread::Threads;
use vme_command_line::words;

/// Does what the words after the program's name ask for, and returns the exit status.
/// docs/COMMANDS.md describes both.
pub fn obey<R: Threads + Wait + Sync, W: Write>(
    rt: &HostRuntime,
    threads: &R,
    given: &[&str],
    out: &mut W,
) -> ExitCode
    ensures { IsObeyed (map (λ word. word.now) given.now)
        (W.contents out.old) (W.contents out.new) (exit_status result) }
{
    match words(rt.alloc(), given) {
        Ok(job) => match run(rt, threads, job, out) {
            Ok(status) => code_of(status),
            Err(ProgramFault::SomeTraces) => ExitCode::FAILURE,
            Err(fault) => report(rt, fault),
        },
        Err(error) => report_words(rt, given, error),
    }
}
