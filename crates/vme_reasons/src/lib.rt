//! The edges of a trace since which a bus is as it is, by their numbers, what is told of a condition
//! by them, and the block that tells why an edge has its verdict.
#![tactic(auto)]

mod askers;
mod blocks;
mod boards;
mod chains;
mod conditions;
mod lines;
mod marks;
mod moves;
mod owns;
mod parts;
mod places;
mod services;
mod tested;
pub mod texts;
mod wires;

pub use blocks::write_why;
pub use conditions::witnesses;
pub use marks::Marks;
