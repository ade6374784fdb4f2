//! Reads a scenario: a backplane's plan in TOML. docs/TRACES.md describes it.
//!
//! `specs/Format.antt` says which keys there are, what they hold, and in which order faults are
//! looked for.
#![tactic(auto)]

mod arrays;
mod boards;
mod depth;
mod errors;
mod faults;
mod interrupters;
mod jumpers;
mod requesters;
mod scenario;
mod tables;
mod values;

pub use errors::ScenarioError;
pub use scenario::{Scenario, read};
