//! In which order edges that were seen can have been made: the longest legal beginning, and of
//! those the least.
//!
//! What a beginning is, and which is sought, is `specs/Orders.antt` of `vme_moments`; when there
//! are too many is `specs/TooMany.antt`.
#![tactic(auto)]

mod free;
mod layers;
mod listening;
mod search;
mod taken;
mod trails;

pub use listening::OrderProgress;
pub use search::{Found, longest};

/// How far from the least place that is missing one lies that may come next.
pub const WINDOW: usize = 128;

/// The most sets of places of one length that are kept.
pub const MOST_SETS: usize = 65_536;

/// Why no longest beginning was found.
#[derive(Clone, Copy, PartialEq, Eq, Debug)]
pub enum OrderFault {
    /// There are too many beginnings of one length, or a place that could come next lies too far
    /// from the least one that is missing.
    TooManyOrders,
    /// There is no memory for the search.
    NoMemory,
}
