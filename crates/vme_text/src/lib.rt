//! Texts that are put together before they are written: the end of a line, and a buffer of lines.
#![tactic(auto)]

mod lines;
mod texts;

pub use lines::{push, push_byte, push_number};
pub use texts::{LINE_ROOM, ROOM, Text};
