//! A board's bus master: it shows an address, strobes it and the data, and ends its cycle.
//! docs/PARTS.md explains the parts.
#![tactic(auto)]

pub mod laws;
mod masters;

pub use masters::{Master, one_more};
