//! A board's interrupt handler: which level it acknowledges next. docs/PARTS.md explains the parts.
#![tactic(auto)]

mod handlers;

pub use handlers::Handler;
pub use vme_model::Delivery;
