//! The plan of one backplane: which boards stand in which slots. It is tested once, and is known to
//! be accepted from then on.
#![tactic(auto)]

mod boards;
mod faults;
mod plans;
mod ranges;

pub use plans::{DRIVERS, Plan};
pub use vme_model::{Field, PlanError};
