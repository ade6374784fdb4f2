//! The command `shrink`: a trace with few edges, the last of which is answered as in a long one.
#![tactic(auto)]

mod fronts;
mod shrinks;

pub use shrinks::shrink;
pub use vme_shrink_search::StoryProgress;
