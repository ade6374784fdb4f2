//! The one reading of a trace: a judge takes the edges of a trace piece by piece, on the plan of a
//! scenario; and two traces that are read side by side.
//!
//! It is generic over the reader, the writer and the judge. `specs/Outcomes.antt` says what an
//! engine over it leaves behind and answers.
#![tactic(auto)]

ghost use Rattle.std.specs.Prelude.{◌≡◌};
ghost use Rattle.vme_reading.specs.Outcomes.{status_with};

pub mod laws;
mod pairs;
mod pieces;
mod plans;
mod readings;
mod reporting;
mod seeking;
mod texts;
mod traces;
mod writing;

pub use pairs::{Pair, PairFault, read_pair};
pub use pieces::{JUDGED_AT_ONCE, buffer_of, has_paused};
pub use plans::plan_of;
pub use readings::{Judge, read, read_on};
pub use reporting::{AtEach, Reporting, at_each};
pub use seeking::{Asked, AtEdge, Found, at_edge};
pub use texts::{hand_on, make_room};
use thiserror::Error;
use vme_scenario::ScenarioError;
use vme_trace::Fault;
pub use writing::write_trace;

/// The greatest scenario, in bytes.
pub const SCENARIO_LIMIT: usize = 1_048_576;

/// The most reads of one engine.
pub const READS: u32 = 16_777_216;

/// How many bytes of a trace are asked for at once: more than a pipe or a terminal has waiting, so
/// that their pieces are short. Of a file the last piece alone is.
const PIECE: usize = 69_632;

/// F5, as the engines say it that look for an order of edges.
pub const TOO_MANY_ORDERS: &str = "F5 too many orders";

/// How an engine ended that met no fault.
#[derive(Clone, Copy, PartialEq, Eq, Debug)]
pub enum Status {
    /// All edges were accepted, or nobody could make a further one.
    Done,
    /// Some edge was refused.
    SomeRefused,
    /// As many edges were made as were asked for.
    Limit,
}

impl Status {
    /// The status of a command that judges all edges of a trace, if so many were refused.
    pub fn of_refused(refused: u64) -> Status
        ensures { result ≡ status_with refused }
    {
        if refused == 0 {
            Status::Done
        } else {
            Status::SomeRefused
        }
    }
}

/// What a replay writes of each edge.
#[derive(Clone, Copy, PartialEq, Eq, Debug)]
pub enum LineForm {
    /// Its number and its verdict.
    Short,
    /// Its number, the edge, and its verdict.
    Full,
}

/// Why an engine gave up, by the numbers that users see.
#[derive(PartialEq, Eq, Debug, Drop, Error)]
pub enum EngineFault {
    /// The scenario is refused.
    #[error("{0}")]
    Scenario(ScenarioError),
    /// The trace has a fault, or could not be read or written.
    #[error("{0}")]
    Trace(Fault),
    /// The input could not be read to the end of the scenario.
    #[error("F1 cannot read the scenario")]
    CannotRead,
    /// The scenario has more than 1,048,576 bytes.
    #[error("F2 the scenario is too long")]
    TooLong,
    /// No memory for the engine's own lists.
    #[error("F3 no memory")]
    NoMemory,
    /// The trace ends before the edge that was asked for: it has so many edges.
    #[error("X9 the trace has {0} edges")]
    Beyond(u64),
}
