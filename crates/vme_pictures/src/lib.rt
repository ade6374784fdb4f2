//! A picture of a stretch of a trace: a row for each wire that moves in it, a column for each edge.
#![tactic(auto)]

mod columns;
mod grants;
pub mod laws;
mod lines;
mod windows;
mod wires;

pub use grants::{Grant, grant_at};
pub use windows::{COLUMNS, Window};
