//! What is found of two traces.

use vme_model::{Edge, Refused};
use vme_swaps::Stop;

/// Why an edge of the second trace keeps it from being the same as the first.
#[derive(Clone, Copy, PartialEq, Eq, Debug)]
pub enum Why {
    /// No such edge is left of the first trace.
    Missing,
    /// The edge does not come to the front of what is left of the first trace. It is far, or waits
    /// for another edge there, or races with it.
    Stops(Stop),
}

/// What is found of two traces.
#[derive(Clone, Copy, PartialEq, Eq, Debug)]
pub enum Comparison {
    /// They are the same but for free swaps: so many edges.
    Same {
        edges: u64,
    },
    /// A trace has a refused edge, the n-th, counted from 1. It is the first one if both have some.
    Refuses {
        in_first: bool,
        number: u64,
        refused: Refused,
    },
    /// The traces are of different versions.
    OtherVersion,
    /// This edge of the second trace, with its number there, keeps them from being the same.
    Differs {
        number: u64,
        edge: Edge,
        why: Why,
        /// The first edge of its driver that is left of the first trace, with its number there.
        own: Option<(u64, Edge)>,
    },
    /// The second trace is at its end, and this is the first edge that is left of the first one,
    /// with its number there.
    Leaves {
        number: u64,
        edge: Edge,
    },
}
