//! The interrupt acknowledge daisy chain of a backplane. docs/PARTS.md explains it.
#![tactic(auto)]

mod iack_chains;

pub use iack_chains::IackChain;
