//! Samples: changes that an analyser saw at about the same time, so that their order is not known
//! but for those of one line or pin.
//!
//! [`Ways`] says what can be known of the bus behind each set of the changes of a sample, whatever
//! their order, and who may have made each change on a way to all of them. `specs/Ways.antt` has
//! the definitions. `laws` proves that no order is left out in which a bus that keeps the rules can
//! have made the changes of a sample.
#![tactic(auto)]

pub mod laws;
mod makers;
mod places;
mod samples;
mod ways;

pub use makers::Makers;
pub use places::Places;
pub use samples::{MOST, Sample, SeenChange, comes_next};
pub use ways::Ways;
