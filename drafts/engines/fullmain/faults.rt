//! What went wrong, as the line on standard error.
use std::alloc::AllocError;
use std::fmt;
use vme_engines::EngineFault;

/// Why the program gave up. Files have the names that the user gave; standard input is `-`.
#[derive(Debug, Drop)]
pub enum ProgramFault<'a> {
    /// The file of this name could not be opened or read.
    CannotRead(&'a str),
    /// The scenario of this name has more than 1,048,576 bytes.
    TooLong(&'a str),
    /// An engine's fault.
    Engine(EngineFault),
}

impl<'a> ProgramFault<'a> {
    /// An engine's fault, where the scenario has this name.
    pub fn of_engine(name: &'a str, fault: EngineFault) -> Self {
        match fault {
            EngineFault::CannotRead => ProgramFault::CannotRead(name),
            EngineFault::TooLong => ProgramFault::TooLong(name),
            other => ProgramFault::Engine(other),
        }
    }
}

impl From<AllocError> for ProgramFault<'_> {
    fn from(_: AllocError) -> Self {
        ProgramFault::Engine(EngineFault::NoMemory)
    }
}

impl fmt::Display for ProgramFault<'_> {
    fn fmt<W: fmt::Write>(&self, f: &mut fmt::Formatter<W>) -> fmt::Result {
        match self {
            ProgramFault::CannotRead(name) => write!(f, "F1 cannot read {name}"),
            ProgramFault::TooLong(name) => write!(f, "F2 {name} is too long"),
            ProgramFault::Engine(fault) => write!(f, "{fault}"),
        }
    }
}
