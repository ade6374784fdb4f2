//! The engine `cycles`: it reads a scenario and a trace, and writes a line for each cycle, each
//! tenure and each refused edge.
//!
//! `specs/Transactions.antt` says what these are, and `specs/Outcomes.antt` what the engine writes
//! and answers.
#![tactic(auto)]

mod judge;
pub mod laws;
mod lines;
mod record;
mod tracking;

pub use judge::cycles;
