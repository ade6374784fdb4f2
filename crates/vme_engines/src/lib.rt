//! The engines of the program: each reads a scenario and a trace, and writes what the rules say of
//! it.
//!
//! They are generic over the reader and the writer. `specs/Outcomes.antt` says what each leaves
//! behind and answers.
#![tactic(auto)]

mod checks;
mod counts;
mod draws;
mod drives;
mod edges;
mod explains;
mod following;
mod forms;
mod joins;
pub mod laws;
mod lines;
mod listening;
mod replays;
mod seeds;
mod seeks;
mod shows;
mod states;
mod summaries;
mod tails;
mod totals;

pub use checks::{Finding, check, finding_of};
pub use draws::drive_drawn;
pub use drives::{drive, status_of};
pub use explains::explain;
pub use following::Following;
pub use joins::joined;
pub use lines::write_finding;
pub use listening::Progress;
pub use replays::replay;
pub use seeds::drive_found;
pub use shows::show;
pub use states::state;
pub use summaries::summary;
pub use totals::add_trace;
