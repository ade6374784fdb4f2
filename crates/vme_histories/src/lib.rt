//! What is said of every history of a bus, in whatever form the state is kept to which it leads:
//! the offers and the open edges of a driver, made of what a state answers, and the lemmas by which
//! a state is shown to answer as docs/RULES.md asks.
#![tactic(auto)]

mod choices;
mod deliveries;
mod judges;
pub mod laws;
mod offers;
mod opens;
mod runs;

pub use choices::choice;
pub use deliveries::delivered_by;
pub use judges::{Judges, Waiting};
pub use offers::{put_controller, put_parts};
pub use opens::open_edges_of;
pub use runs::Counts;
