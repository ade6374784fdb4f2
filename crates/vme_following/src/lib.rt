//! A trace that is followed edge by edge, and the commands that print a block of it: why an edge
//! has its verdict, and where the bus stands.
//!
//! They are generic over the reader and the writer. `specs/Explaining.antt` and
//! `specs/Stating.antt` say what they leave behind and answer.
#![tactic(auto)]

mod explains;
mod following;
mod printing;
mod states;

pub use explains::explain;
pub use following::{Following, Printed, status_of};
pub use printing::print_at_edge;
pub use states::state;
