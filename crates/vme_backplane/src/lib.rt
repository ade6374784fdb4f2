//! The whole state of one backplane: the version of its rules, its plan, and the edges that were
//! made.
//!
//! Each verdict is found by the counts, chains and parts to which the edges lead. The edges
//! themselves are read only to hand them out, and to find what was delivered.
#![tactic(auto)]

mod backplanes;
mod deliveries;
pub mod laws;

pub use backplanes::Backplane;
pub use vme_histories::Counts;
pub use vme_store::{Trace, TraceError};
