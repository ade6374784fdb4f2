//! The engine `races`: it reads a scenario and a trace, and writes a line for each accepted edge
//! that races with one before it.
//!
//! `specs/Walks.antt` says how far an edge goes back and what stops it, and `specs/Outcomes.antt`
//! what the engine writes and answers.
#![tactic(auto)]

mod asked;
mod earlier;
mod judge;
pub mod laws;
mod lines;
mod other;
mod racing;
mod recent;
mod walks;

pub use asked::walk_of_edge;
pub use judge::races;
pub use other::{OtherOrder, other_order};
pub use walks::Walk;
