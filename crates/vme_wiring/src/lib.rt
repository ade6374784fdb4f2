//! A backplane's wires as a few counts, chains and parts of boards, so that a verdict takes
//! constant work.
#![tactic(auto)]

mod boards;
mod chains;
mod judging;
mod lines;
mod offers;
mod places;
mod sights;
mod verdicts;
mod waits;
mod wirings;

pub use wirings::Wiring;
