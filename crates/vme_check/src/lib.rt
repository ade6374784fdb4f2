//! Checking a trace: the first edge that is refused, or that all of them are legal.
//!
//! It is generic over the reader and the writer. `specs/Checking.antt` says what it leaves behind
//! and answers.
#![tactic(auto)]

mod checks;
mod findings;

pub use checks::{Finding, check, finding_of};
pub use findings::write_finding;
