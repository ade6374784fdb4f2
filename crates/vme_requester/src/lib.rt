//! A board's bus requester: it requests the bus, takes a grant or passes it on, and gives the bus
//! up. docs/PARTS.md explains the parts.
#![tactic(auto)]

pub mod laws;
mod requesters;

pub use requesters::Requester;
