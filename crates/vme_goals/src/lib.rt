//! What a trace can be drawn to reach, and its words: events that an accepted edge brings about,
//! and misses, which are edges that one condition alone refuses. A goal is one of these, of one
//! driver or of any, after some number of edges. docs/COMMANDS.md describes all of it.
#![tactic(auto)]

mod events;
mod goals;
mod misses;

pub use events::Event;
pub use goals::{Aim, Goal, aim_of, counts};
pub use misses::Miss;
