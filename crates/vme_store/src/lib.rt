//! Room for the edges that are made on a backplane, in pages that stand on leases of the arena, and
//! the edges that are kept in it.
//!
//! All room is reserved when a trace is made, so an edge is kept without asking for memory.
#![tactic(auto)]

mod codes;
pub mod laws;
mod pages;
mod stores;
mod traces;

pub use codes::Code;
pub use stores::Store;
pub use traces::{Trace, TraceError};
