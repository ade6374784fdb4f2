//! An open-collector line of a backplane: low while at least one driver pulls it low. docs/PARTS.md
//! explains it.
#![tactic(auto)]

mod lines;

pub use lines::OrLine;
