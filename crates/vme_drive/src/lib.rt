//! Traces that are made: by the drivers in turn, or drawn by the numbers of a seed, up to a goal.
//!
//! They are generic over the writer. `specs/Driving.antt`, `specs/Drawing.antt` and
//! `specs/Found.antt` say what they leave behind and answer.
#![tactic(auto)]

mod draws;
mod drives;
mod edges;
pub mod laws;
mod listening;
mod seeds;
mod seeks;

pub use draws::drive_drawn;
pub use drives::{drive, status_of};
pub use listening::Progress;
pub use seeds::drive_found;
