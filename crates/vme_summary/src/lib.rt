//! What a trace exercised: which rules let edges pass or refused them, which situations came, and
//! what each board did; and the lines that report it.
#![tactic(auto)]

mod boards;
mod counts;
pub mod laws;
mod lines;
mod met;
mod refusals;
mod rules;
mod summaries;
mod summing;
mod sums;
mod tallies;
mod topics;
mod totals;

pub use boards::BoardTally;
pub use summaries::{write_summary, write_sums};
pub use sums::Sums;
pub use tallies::Tally;
pub use summing::summary;
pub use topics::Topic;
pub use totals::add_trace;
