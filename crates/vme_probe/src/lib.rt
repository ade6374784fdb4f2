//! `probe`: whether a bus that keeps the rules can show a capture, who may have made each change,
//! and who may move next.
#![tactic(auto)]

mod answers;
pub mod condition_laws;
mod conditions;
mod cycle_conditions;
mod demands;
mod grant_conditions;
pub mod hindered_laws;
mod judging;
pub mod laws;
pub mod led_laws;
mod left;
mod lines;
mod obstacles;
mod pins;
mod probes;
mod request_conditions;
pub mod sample_laws;
mod sampled;
mod samplings;
mod texts;

pub use conditions::obstacle;
pub use obstacles::{OBSTACLE, Obstacle, no_driver_line, obstacle_line};
pub use probes::{ProbeFault, probe};
