//! What can be known of a bus by the changes that an analyser saw: of each part of the bus the set
//! of the ways in which it may stand, and who may have made each change.
//!
//! All combinations of these sets count. A set may hold a way too many, and never one too few:
//! `laws` proves that of the interrupt requests, and of who drives AS* and DTACK*, `front_laws` of
//! how far an acknowledge has come, and `grant_laws` of how the grants and BBSY* stand.
//! `joined_laws` proves it of all of them together, for every list of edges that shows a capture.
//!
//! [`Standings`] has them all. It begins at power-up or on a running bus. At each change
//! `with_hidden` adds the edges that no probe sees, `drivers` says who may have made the change,
//! and `behind` says what is known once it was made.
#![tactic(auto)]

mod beginnings;
mod behind;
mod bits;
pub mod boards;
pub mod chains;
mod cuts;
mod cycle;
mod driving;
pub mod front_laws;
mod fronts;
pub mod grant_laws;
pub mod grants;
mod hidden;
mod interrupters;
pub mod joined_laws;
pub mod laws;
mod moving;
mod phases;
mod requests;
mod running;
mod segments;
mod sets;
mod standings;
pub mod union_laws;
mod unions;
mod unseen;

pub use cuts::{PhaseFact, is_low_in, is_segment, is_so};
pub use cycle::showers;
pub use fronts::Fronts;
pub use interrupters::{Interrupters, on_low_lines, sharing};
pub use moving::{Moved, asked, moved_by};
pub use phases::{GrantPhase, GrantPhases};
pub use requests::{Request, Requests};
pub use segments::Segments;
pub use standings::{Drivers, Probed, Shown, Standings, drivers_of};
pub use unseen::{is_unseen, with_unseen};
