//! A random walk: the next edge is drawn from all that the rules allow, by the numbers of a seed.
//! docs/COMMANDS.md describes it (`drive` with a seed).
#![tactic(auto)]

mod boards;
mod chances;
mod draws;
mod kinds;
pub mod laws;
mod numbers;
mod opens;
mod tallies;
mod walks;
mod weights;

pub use boards::boards_on;
pub use draws::Draws;
pub use kinds::Kind;
pub use walks::Walk;
