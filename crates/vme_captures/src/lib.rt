//! What a logic or bus analyser saw: the shared lines and some pins of the daisy chains, without
//! who drove them. A reader of captures, and what a capture says of a bus.
//!
//! `specs/Reading.antt` says what the bytes of a capture say, and `specs/Possible.antt` when a bus
//! that keeps the rules can show it.
#![tactic(auto)]

pub mod laws;
mod levels;
mod reader;
mod signals;
mod spellings;
mod wires;
mod words;

pub use levels::Levels;
pub use reader::{Probe, Reader};
pub use signals::{Change, Entry, Line, Pin, Segment, Side, Signal, Value};
pub use spellings::{change_text, signal_text};
use thiserror::Error;
use vme_trace::Fault;
pub use wires::{has_pin, wire_of};
pub use words::entry_of;

/// Why a capture could not be read, by the numbers that users see.
#[derive(Clone, Copy, PartialEq, Eq, Debug, Error)]
pub enum CaptureFault {
    /// X1 and X3 to X6, faults that a trace may have too.
    #[error("{0}")]
    Trace(Fault),
    /// X10: the moment of the n-th line, counted from 1, is below the last moment before it.
    #[error("X10 line {n} is of an earlier moment")]
    Earlier { n: u64 },
    /// X12: the n-th line declares a pin of an empty slot, or one that no wire reaches, since an
    /// empty slot below it does not join the chain.
    #[error("X12 line {n} is no pin of this backplane")]
    NoPin { n: u64 },
    /// X13: the n-th line declares a pin whose wire an earlier line declares.
    #[error("X13 line {n} is a wire that has a pin already")]
    SameWire { n: u64 },
    /// X14: the n-th line names a pin that no line declares.
    #[error("X14 line {n} names a pin that is not probed")]
    NotProbed { n: u64 },
    /// X15: the n-th line is a fall of what is low, a rise of what is high, or says a second time
    /// that a line or pin was low.
    #[error("X15 line {n} changes nothing")]
    NoChange { n: u64 },
    /// X16: the n-th line is no line of a capture, or stands where it may not.
    #[error("X16 line {n} is no line of a capture")]
    NoLine { n: u64 },
}
