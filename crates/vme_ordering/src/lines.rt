//! The lines that are written of an order.
ghost use Rattle.std.specs.Prelude.{◌≡◌};

use crate::Form;
use arrayvec::ArrayVec;
use std::io::Write;
use vme_model::Version;
use vme_moments::Seen;
use vme_reasons::texts::{push, push_number};
use vme_trace::{Fault, header_line, put, spelling_of, write_line};

/// Room for any line: three numbers of at most 20 digits, an edge of 12 bytes, and a few words.
const LINE: usize = 96;

/// The line that says where the n-th edge was seen.
fn place_line(n: u64, seen: &Seen) -> ArrayVec<u8, LINE> {
    let mut line = ArrayVec::new();
    push_number(&mut line, n);
    push(&mut line, b" ");
    push(&mut line, spelling_of(&seen.edge).as_slice());
    push(&mut line, b" line ");
    push_number(&mut line, seen.line);
    push(&mut line, b" moment ");
    push_number(&mut line, seen.moment);
    push(&mut line, b"\n");
    line
}

/// Writes what stands before the lines of the edges.
pub(crate) fn write_head<W: Write>(
    form: Form,
    version: Version,
    out: &mut W,
) -> Result<(), Fault> {
    match form {
        Form::Trace => put(out, header_line(version)),
        Form::Places => Ok(()),
    }
}

/// Writes the line of the n-th edge.
fn write_edge<W: Write>(form: Form, n: u64, seen: &Seen, out: &mut W) -> Result<(), Fault> {
    match form {
        Form::Trace => write_line(&seen.edge, out),
        Form::Places => put(out, place_line(n, seen).as_slice()),
    }
}

/// Writes the lines of the edges at these places, after so many edges.
pub(crate) fn write_edges<W: Write>(
    form: Form,
    written: usize,
    seen: &[Seen],
    places: &[u32],
    out: &mut W,
) -> Result<(), Fault> {
    let mut n = written as u64;
    for place in places {
        n += 1;
        write_edge(form, n, &seen[*place as usize], out)?;
    }
    Ok(())
}
