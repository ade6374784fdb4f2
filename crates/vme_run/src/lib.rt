//! The engine of `run`: a scenario's boards make edges, each in a thread of its own, and the trace
//! of these edges is written. docs/THREADS.md explains it.
#![tactic(auto)]

ghost use Rattle.std.specs.Prelude.{Some};
ghost use Rattle.vme_run.specs.Names.{driver_name};

mod boards;
mod histories;
mod runs;

pub use runs::run;
use std::fmt;
use thiserror::Error;
use vme_model::Driver;
use vme_reading::EngineFault;

/// Why a run gave up, by the numbers that users see. docs/FAULTS.md lists them.
#[derive(PartialEq, Eq, Debug, Drop, Error)]
pub enum RunFault {
    /// The scenario is refused, memory ran out, or the trace could not be written.
    #[error("{0}")]
    Engine(EngineFault),
    /// L3: the boards were not started.
    #[error("L3 the boards could not be started")]
    NotStarted,
    /// L4: the edges of a driver in the history are not its log. `at` is the first place where they
    /// differ, counted from 0.
    #[error("L4 the log of {} differs at {at}", Name(*driver))]
    LogDiffers { driver: Driver, at: u32 },
    /// L6: a second backplane refuses the edge at this place, counted from 0.
    #[error("L6 the history is refused at {at}")]
    NotReplayed { at: u32 },
}

/// A driver, as faults name it: `c` for the controller, or the slot of the board.
#[derive(Clone, Copy)]
struct Name(Driver);

impl fmt::Display for Name {
    ghost output = { λ n. Some (driver_name n.0) };

    fn fmt<W: fmt::Write>(&self, f: &mut fmt::Formatter<W>) -> fmt::Result {
        match self.0 {
            Driver::Controller => write!(f, "c"),
            Driver::Slot(slot) => write!(f, "{slot}"),
        }
    }
}
