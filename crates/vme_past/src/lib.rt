//! The edges that were made, for use in clauses alone: none of them is stored.
#![tactic(auto)]

mod past;

pub use past::Past;
