//! What an edge, a board, a pin and a refusal are, and every definition that a theorem of this
//! workspace cites.
//!
//! The definitions stand in `specs/`, one file for each subject, in the order in which
//! `specs/Lib.antt` names them.
//!
//! A comment names its source if a rule stands behind it: *Std 1014* is ANSI/IEEE Std 1014-1987,
//! and *profile* is what this project adds to the standard. docs/RULES.md has the rules.
#![tactic(auto)]

mod boards;
mod conditions;
mod deliveries;
pub mod laws;
mod pins;
mod refusals;
mod sentences;
mod sets;
mod signals;
mod sources;
mod spoken;
mod witnesses;

pub use boards::{ArbiterKind, InterrupterRow, IrqKind, Jumper, Release, RequesterRow, Row};
pub use conditions::{Condition, Tested};
pub use deliveries::Delivery;
pub use pins::Pins;
pub use refusals::{Field, PlanError, Refused};
pub use sentences::Rule;
pub use sets::{BusLevels, ChainId, Chains, Levels};
pub use signals::{Cycle, Driver, Edge, Part, Version, Wire};
pub use sources::{Chapter, Reason, Source, Sourced, profile_mark};
pub use spoken::board_text;
pub use witnesses::Witness;

/// The most edges that a trace can hold; the next one is refused as E5. Source: profile.
pub const TRACE_LIMIT: u32 = 1_048_576;
