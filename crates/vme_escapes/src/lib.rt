//! Texts on one line, whatever they hold: control characters and backslashes are escaped as in a
//! TOML string.
#![tactic(auto)]

mod escapes;
mod lines;

pub use escapes::escape_of;
pub use lines::{Lines, OneLine};
