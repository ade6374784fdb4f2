//! Seats at one locked backplane, and a thread for each board. docs/THREADS.md explains them.
//!
//! Each hold of the lock makes one edge or none. The module `laws` has what a hold does to the
//! value that it borrows.
#![tactic(auto)]

mod closing;
mod following;
mod held;
pub mod laws;
mod logs;
mod news;
mod opening;
mod seats;
mod shared;
mod threads;
mod views;
mod workers;

pub use closing::{Closed, LogMismatch};
pub use held::Held;
pub use logs::{Log, Room, log_bytes};
pub use seats::{Rig, Seat, Seats};
pub use shared::Shared;
pub use threads::{NotStarted, run_boards};
pub use views::{EdgeRefused, Lost, Turn, View};
pub use workers::{Bounds, Gate, OpenGate, Spent, work_board};
