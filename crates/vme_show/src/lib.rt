//! A picture of a stretch of a trace: a row for each wire that moves in it, a column for each edge.
#![tactic(auto)]

mod columns;
pub mod laws;
mod lines;
mod shows;
mod windows;
mod wires;

pub use shows::show;
pub use windows::{COLUMNS, Window};
