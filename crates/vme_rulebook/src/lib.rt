//! The rules in words, and of one rule where each of its conditions comes from. Every other code
//! that the program prints, explained.
#![tactic(auto)]

mod codes;
mod entries;
mod lines;
mod pages;
mod texts;

pub use codes::Code;
pub use entries::Entry;
pub use pages::all_rules;
