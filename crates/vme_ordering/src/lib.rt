//! The engine `order`: a scenario and moments to the first order of the edges that the rules allow.
#![tactic(auto)]

mod lines;
mod orders;

pub use orders::order;
use thiserror::Error;
use vme_engines::EngineFault;
use vme_moments::MomentsFault;

/// What is written of an order.
#[derive(Clone, Copy, PartialEq, Eq, Debug)]
pub enum Form {
    /// A trace.
    Trace,
    /// For each edge of the trace where it was seen.
    Places,
}

/// Why no order was sought or written, by the numbers that users see.
#[derive(PartialEq, Eq, Debug, Drop, Error)]
pub enum OrderingFault {
    /// The scenario is refused, no memory was found, or the order could not be written.
    #[error("{0}")]
    Engine(EngineFault),
    /// The moments are at fault, or could not be read.
    #[error("{0}")]
    Moments(MomentsFault),
    /// A slack is named for the board of this slot, and there is none.
    #[error("no board has the slot {0} of --slack")]
    NoBoard(u8),
    /// There are more orders than can be tried.
    #[error("F5 too many orders")]
    TooManyOrders,
}
