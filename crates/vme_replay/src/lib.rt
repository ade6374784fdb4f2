//! Replaying a trace: a verdict on each edge, and the closing line.
//!
//! It is generic over the reader and the writer. `specs/Joining.antt`, and `specs/Outcomes.antt` of
//! `vme_reading`, say what it leaves behind and answers.
#![tactic(auto)]

mod counts;
mod forms;
mod joins;
mod lines;
mod replays;
mod tails;

pub use joins::joined;
pub use replays::replay;
