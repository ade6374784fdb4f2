//! Goals that no edge of a backplane reaches, and why.
#![tactic(auto)]

mod hindrances;
pub mod laws;
mod needs;
mod reasons;

pub use hindrances::{Hindrance, hindrance_of};
pub use needs::Need;
