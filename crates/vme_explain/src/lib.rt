//! The edges of a trace since which a bus is as it is, by their numbers, what is printed about a
//! condition by them, the block that says why an edge has its verdict, and that of where the bus
//! stands.
#![tactic(auto)]

mod askers;
mod blocks;
mod boards;
mod chains;
mod conditions;
mod drivers;
mod lines;
mod marks;
mod moves;
mod owns;
mod parts;
mod places;
mod services;
mod stands;
mod steps;
mod tested;
pub mod texts;
mod wires;

pub use blocks::{verdict_line, write_why};
pub use conditions::witnesses;
pub use drivers::since;
pub use lines::level_picked;
pub use marks::Marks;
pub use stands::write_stands;
pub use steps::step_marked;
