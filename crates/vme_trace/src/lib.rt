//! The text of a trace: reading it in pieces, and writing it. docs/TRACES.md describes the text.
//!
//! What the text says is defined in `Rattle.vme_model.specs.Text`; what a reader has read is
//! defined in `specs/Reading.antt`.
#![tactic(auto)]

mod feeds;
mod front;
mod headers;
mod input;
mod keys;
mod known;
pub mod laws;
mod patience;
mod reader;
mod writer;

pub use front::edge_of;
pub use headers::{header_line, header_of};
pub use input::{pump, pump_counted, pump_with, read_piece};
pub use patience::Patient;
pub use reader::{Reader, parse};
use thiserror::Error;
pub use writer::{flush, line_of, put, spelling_of, write, write_line};

/// Why a trace could not be read or written, by the numbers that users see. docs/FAULTS.md lists
/// them.
#[derive(Clone, Copy, PartialEq, Eq, Debug, Error)]
pub enum Fault {
    /// X1: the first line is not a header, or there is no line.
    #[error("X1 the trace does not begin with vme 1 or vme 2")]
    Header,
    /// X2: line n, counted from 1, spells no edge.
    #[error("X2 line {n} is no edge")]
    Line { n: u64 },
    /// X3: line n, counted from 1, has more than 64 bytes.
    #[error("X3 line {n} is over 64 bytes")]
    TooLong { n: u64 },
    /// X4: the last line has no line feed.
    #[error("X4 the trace is cut off")]
    CutOff,
    /// X5: a read failed.
    #[error("X5 the trace cannot be read")]
    Read,
    /// X6: memory ran out for the list of edges.
    #[error("X6 no memory")]
    Memory,
    /// X7: the reader has already met a fault or the end.
    #[error("X7 the reader is used up")]
    Failed,
    /// X8: a write failed, or took no byte.
    #[error("X8 the output cannot be written")]
    Write,
}
