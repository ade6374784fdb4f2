//! A daisy chain of a backplane, by the segments between the boards that work it. docs/PARTS.md
//! explains it.
#![tactic(auto)]

mod chains;
pub mod laws;

pub use chains::Chain;
