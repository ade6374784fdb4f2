//! The guard of each rule, written once, over the few truth values that it reads. It answers
//! whether it holds, which of its conditions fail, or what a caller's own list says of each.
//!
//! A parameter that has the name of a wire or a line is true while that is low, or while the
//! address group is on. Each function names its rule as docs/RULES.md does, and its source: *Std
//! 1014* is ANSI/IEEE Std 1014-1987, and *profile* is what this project adds.
#![tactic(auto)]

pub mod controllers;
pub mod interrupters;
pub mod masters;
mod outcomes;
pub mod requesters;
pub mod settlings;

pub use outcomes::{Outcome, allowed};
