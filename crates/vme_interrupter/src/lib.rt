//! A board's interrupter: it requests an interrupt, and passes an acknowledge on or answers it. It
//! also answers accesses to the board's register. docs/PARTS.md explains the parts.
#![tactic(auto)]

mod interrupters;
pub mod laws;

pub use interrupters::{Interrupter, serves};
