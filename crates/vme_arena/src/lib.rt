//! One region of memory, carved into stretches that serve collections as their allocators.
//! docs/ARENA.md explains it.
//!
//! A stretch lives as long as the borrow of its region, and may move to another thread. Carving is
//! exact: it is refused only if the region's rest is too short, and then nothing changes.
#![tactic(auto)]

mod block;
mod granules;
mod held;
pub mod laws;
mod lease;
mod loan;
mod memory;
mod piece;
mod region;
mod slot;

pub use lease::Lease;
pub use region::{Full, Region, Rest};
