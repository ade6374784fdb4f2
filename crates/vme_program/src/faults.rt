//! What went wrong, as the line on standard error.
ghost use Rattle.std.specs.Prelude.{◌≡◌, ◌≢◌};
ghost use Rattle.std.specs.IoError.{error_kind};
ghost use Rattle.std.specs.Process.{exit_status};
ghost use Rattle.vme_program.specs.Names.{fault_named, pair_fault_named, trace_fault_named};

use std::fmt;
use std::io::{self, ErrorKind};
use std::process::ExitCode;
use thiserror::Error;
use vme_escapes::OneLine;
use vme_order::OrderingFault;
use vme_probe::ProbeFault;
use vme_reach::Hindrance;
use vme_reading::{EngineFault, PairFault};
use vme_run::RunFault;
use vme_trace::Fault;

/// Why the program gave up. Files have the names that the user gave; standard input is `-`.
/// docs/FAULTS.md lists the texts.
#[derive(Debug, Drop, Error)]
pub enum ProgramFault<'a> {
    /// F1: the file of this name could not be opened or read.
    #[error("F1 cannot read {0}")]
    CannotRead(&'a str),
    /// F2: the scenario of this name has more than 1,048,576 bytes.
    #[error("F2 {0} is too long")]
    TooLong(&'a str),
    /// An engine's fault, or F3 if there is no memory for what the program passes to one.
    #[error("{0}")]
    Engine(EngineFault),
    /// A fault of the trace of this name, one of several, or the second of two.
    #[error("{name}: {fault}")]
    InTrace {
        /// The file of the trace.
        name: &'a str,
        /// What is wrong with it.
        fault: Fault,
    },
    /// Some of several traces have faults, each of which was printed when it came.
    #[error("some traces have faults")]
    SomeTraces,
    /// X11: no edge races with the edge that has this number, so that there is no other order.
    #[error("X11 edge {0} races with none")]
    NoRace(u64),
    /// No edge of the scenario's backplane reaches the goal of `drive --until`.
    #[error("{0}")]
    NeverComes(Hindrance),
    /// A fault of `run`, whose boards run in threads.
    #[error("{0}")]
    Boards(RunFault),
    /// A fault of the moments of `order`, of their orders, or of the slacks.
    #[error("{0}")]
    Ordering(OrderingFault),
    /// A fault of the capture of `probe`, or of the orders of its changes.
    #[error("{0}")]
    Probing(ProbeFault),
}

impl<'a> ProgramFault<'a> {
    /// A fault of the file of this name: F3 if memory ran out, and otherwise F1.
    pub fn of_file(name: &'a str, error: &io::Error) -> Self
        ensures memory { error_kind error.now ≡ ErrorKind.OutOfMemory
            → result ≡ ProgramFault.Engine EngineFault.NoMemory }
        ensures other { error_kind error.now ≢ ErrorKind.OutOfMemory
            → result ≡ ProgramFault.CannotRead name.entry }
    {
        match error.kind() {
            ErrorKind::OutOfMemory => ProgramFault::Engine(EngineFault::NoMemory),
            _ => ProgramFault::CannotRead(name),
        }
    }

    /// An engine's fault, given the name of the scenario.
    pub fn of_engine(name: &'a str, fault: EngineFault) -> Self
        ensures { result ≡ fault_named name.entry fault }
    {
        match fault {
            EngineFault::CannotRead => ProgramFault::CannotRead(name),
            EngineFault::TooLong => ProgramFault::TooLong(name),
            other => ProgramFault::Engine(other),
        }
    }

    /// An engine's fault, given the name of the scenario and that of the trace, which is one of
    /// several.
    pub fn of_trace(scenario: &'a str, trace: &'a str, fault: EngineFault) -> Self
        ensures { result ≡ trace_fault_named scenario.entry trace.entry fault }
    {
        match fault {
            EngineFault::Trace(fault) => ProgramFault::InTrace { name: trace, fault },
            other => ProgramFault::of_engine(scenario, other),
        }
    }

    /// A fault of an engine on two traces, given the name of the scenario and that of the second
    /// trace. A fault of the first one names no file.
    pub fn of_pair(scenario: &'a str, second: &'a str, fault: PairFault) -> Self
        ensures { result ≡ pair_fault_named scenario.entry second.entry fault }
    {
        match fault {
            PairFault::Engine(fault) => ProgramFault::of_engine(scenario, fault),
            PairFault::First(fault) => ProgramFault::Engine(EngineFault::Trace(fault)),
            PairFault::Second(fault) => ProgramFault::InTrace {
                name: second,
                fault,
            },
        }
    }
}

/// Prints the one line of a fault. Control characters and backslashes are escaped as in a TOML
/// string.
pub(crate) fn print_fault<D: fmt::Display + Drop>(rt: &HostRuntime, fault: D) {
    let line = OneLine(fault);
    let _ = eprintln!(rt; "vmebus: {line}");
}

/// Prints the one line of a fault. The exit status is 1.
pub fn report<D: fmt::Display + Drop>(rt: &HostRuntime, fault: D) -> ExitCode
    ensures { exit_status result ≡ 1 }
{
    print_fault(rt, fault);
    ExitCode::FAILURE
}
