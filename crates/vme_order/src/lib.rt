//! The engine `order`: it reads a scenario and moments, and writes the first order of the edges
//! that the rules allow.
//!
//! `specs/Ordering.antt` says what it writes and answers.
#![tactic(auto)]

mod lines;
mod orders;

pub use orders::order;
use thiserror::Error;
use vme_moments::MomentsFault;
pub use vme_order_search::OrderProgress;
use vme_reading::{EngineFault, TOO_MANY_ORDERS};

/// What is written of an order.
#[derive(Clone, Copy, PartialEq, Eq, Debug)]
pub enum Form {
    /// A trace.
    Trace,
    /// For each edge of the trace, where it was seen.
    Places,
}

/// Why no order was found or written, by the numbers that users see.
#[derive(PartialEq, Eq, Debug, Drop, Error)]
pub enum OrderingFault {
    /// The scenario is refused, memory ran out, or the output could not be written.
    #[error("{0}")]
    Engine(EngineFault),
    /// The moments have a fault, or could not be read.
    #[error("{0}")]
    Moments(MomentsFault),
    /// This slot is named with a slack, and has no board.
    #[error("no board has the slot {0} of --slack")]
    NoBoard(u8),
    /// F5: there are too many orders.
    #[error("{}", TOO_MANY_ORDERS)]
    TooManyOrders,
}
