//! Edges with the moments at which they were seen: what a text of them says, and which of two came
//! before the other.
//!
//! `specs/Moments.antt` says what a text says, and `specs/Before.antt` which of two edges came
//! before the other.
#![tactic(auto)]

mod before;
pub mod laws;
mod numbers;
mod reader;
mod slacks;

pub use before::is_before;
pub use numbers::number_of;
pub use reader::{Moments, read_moments};
pub use slacks::Slacks;
use thiserror::Error;
use vme_model::Edge;
use vme_trace::Fault;

/// The most edges that moments may have.
pub const SEEN_LIMIT: usize = 1_048_576;

/// An edge, the moment at which it was seen, and the line in which it stands, counted from 1.
#[derive(Clone, Copy, PartialEq, Eq, Debug)]
pub struct Seen {
    pub edge: Edge,
    pub moment: u64,
    pub line: u64,
}

/// Why moments could not be read, by the numbers that users see.
#[derive(Clone, Copy, PartialEq, Eq, Debug, Error)]
pub enum MomentsFault {
    /// X1 to X6, faults that a trace may have too.
    #[error("{0}")]
    Trace(Fault),
    /// X10: the moment of the n-th line, counted from 1, is below the last moment before it.
    #[error("X10 line {n} is of an earlier moment")]
    Earlier { n: u64 },
    /// X17: the n-th line is an edge, and no moment stands above it.
    #[error("X17 line {n} stands before the first moment")]
    Momentless { n: u64 },
    /// F6: there are more than 1,048,576 edges.
    #[error("F6 more than 1048576 edges")]
    TooMany,
}
