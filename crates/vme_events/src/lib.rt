//! What a bus can come to: the situations that an edge brings about, and edges that one condition
//! alone refuses.
#![tactic(auto)]

mod before;
mod brought;
pub mod laws;
mod searches;

pub use brought::{comes, events_of};
pub use searches::miss;
