//! Stories: short lists of edges behind which the same is said of an edge.
//!
//! An edge that is refused changes nothing. So edges can be left out of a list, with what is
//! refused without them, as long as the same is said of the edge behind the list.
#![tactic(auto)]

mod behind;
mod fronts;
pub mod laws;
mod listening;
mod replies;
mod search;

pub use fronts::Front;
pub use listening::StoryProgress;
pub use search::story;
