//! The arbiter: which request of BR0* to BR3* is granted next, and when the controller of slot 1
//! may drive its wires. docs/PARTS.md explains the parts.
#![tactic(auto)]

mod arbiters;
pub mod laws;
mod policies;

pub use arbiters::Arbiter;
pub use policies::{AnyPolicy, Policy, Pri, Rrs, Sgl};
