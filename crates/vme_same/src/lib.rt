//! The engine `same`: it compares two traces on a scenario, and finds whether they are the same but
//! for orders that do not matter.
//!
//! `specs/Comparing.antt` says when two traces are the same, and what is found otherwise.
#![tactic(auto)]

mod comparisons;
mod edges;
mod judge;
pub mod laws;
mod lines;
mod matching;
mod pairing;
mod progress;
mod rest;
mod sides;

pub use comparisons::{Comparison, Why};
pub use judge::{compare, write_found};
