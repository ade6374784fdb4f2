//! Free swaps: two neighbours of a history that may change places. Both orders are legal, deliver
//! the same and leave the bus standing alike, so that all later edges are answered the same. What
//! stops an edge that goes back by such swaps, and how that is written.
#![tactic(auto)]

pub mod laws;
mod lines;
mod stops;
mod swaps;

pub use lines::{Line, push_edge, push_stop};
pub use stops::Stop;
pub use swaps::{StepBack, step_back};
