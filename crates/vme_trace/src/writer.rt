//! Writing a trace.
ghost use Rattle.std.specs.Prelude.{◌≡◌, ◌+◌, ◌<◌, ◌≤◌, ◌++◌, [], IsTrue, IfErr, Ok, OnOk, OnErr, All};
ghost use Rattle.std.specs.Io.KnownBytes.{Appends, Keeps};
ghost use Rattle.arrayvec.specs.ArrayVec.{array_vec_len};
ghost use Rattle.vme_model.specs.Signals.{is_well_formed};
ghost use Rattle.vme_model.specs.Text.{number, spelling, text, edge_lines};
ghost use Rattle.vme_trace.specs.Writing.{AppendsFront, edge_line};

use crate::Fault;
use crate::headers::header_line;
use crate::patience::flush_patiently;
use arrayvec::ArrayVec;
use std::io::Write;
use vme_model::{Cycle, Driver, Edge, Version};
use vme_text::push;

/// Room for any line of a trace: the longest has 12 bytes and a line feed.
pub(crate) const LINE: usize = 16;

/// Writes all the bytes. If there are none, there is no write and no fault.
///
/// # Errors
/// X8 if a write failed or took no byte; a prefix of the bytes was written then. A write that was
/// interrupted has failed; a [`Patient`](crate::Patient) writer tries it again.
pub fn put<W: Write>(out: &mut W, bytes: &[u8]) -> Result<(), Fault>
    ensures ok { OnOk result (Appends (W.contents out.old) (W.contents out.new) bytes.now) }
    ensures front { OnErr result
        (AppendsFront (W.contents out.old) (W.contents out.new) bytes.now) }
    ensures fault { IfErr result (λ fault. fault ≡ Fault.Write) }
    ensures none { bytes.now ≡ [] → result ≡ Ok tt }
{
    let mut rest = bytes;
    'writes: while !rest.is_empty() {
        match out.write(rest) {
            Err(_) | Ok(0) => return Err(Fault::Write),
            Ok(count) => rest = &rest[count..],
        }
    }
    Ok(())
}

/// Makes the writer pass on what it has buffered.
///
/// # Errors
/// X8 if that failed.
pub fn flush<W: Write>(out: &mut W) -> Result<(), Fault>
    ensures kept { Keeps (W.contents out.old) (W.contents out.new) }
    ensures fault { IfErr result (λ fault. fault ≡ Fault.Write) }
{
    match flush_patiently(out) {
        Ok(()) => Ok(()),
        Err(_) => Err(Fault::Write),
    }
}

/// Appends a number below 100 in decimal. The line has to have room for 2 digits.
fn push_number(line: &mut ArrayVec<u8, LINE>, n: u8)
    requires small { n < 100 }
    requires room { array_vec_len line.old + 2 ≤ 16 }
    ensures { line.new.items ≡ line.old.items ++ number n }
{
    if n >= 10 {
        line.push(b'0' + n / 10);
    }
    line.push(b'0' + n % 10);
}

/// The spelling of an edge: its line without the line feed, at most 12 bytes. The edge has to be
/// well formed. docs/TRACES.md has the spellings.
pub fn spelling_of(edge: &Edge) -> ArrayVec<u8, LINE>
    requires { IsTrue (is_well_formed edge.now) }
    ensures text { result.items ≡ spelling edge.now }
    ensures short { array_vec_len result ≤ 12 }
{
    let mut line = ArrayVec::new();
    match edge.driver {
        Driver::Controller => line.push(b'c'),
        Driver::Slot(slot) => push_number(&mut line, slot),
    }
    line.push(b' ');
    push(&mut line, edge.wire.word().as_bytes());
    line.push(if edge.fall { b'-' } else { b'+' });
    match edge.value {
        None => {}
        Some(Cycle::Acknowledge(level)) => {
            push(&mut line, b" i");
            push_number(&mut line, level);
        }
        Some(Cycle::Access(slot)) => {
            push(&mut line, b" r");
            push_number(&mut line, slot);
        }
    }
    line
}

/// The line of an edge: its spelling and a line feed. The edge has to be well formed.
pub fn line_of(edge: &Edge) -> ArrayVec<u8, LINE>
    requires { IsTrue (is_well_formed edge.now) }
    ensures { result.items ≡ edge_line edge.now }
{
    let mut line = spelling_of(edge);
    line.push(b'\n');
    line
}

/// Writes the line of an edge. The edge has to be well formed.
///
/// # Errors
/// X8 if a write failed or took no byte; a prefix of the line was written then.
pub fn write_line<W: Write>(edge: &Edge, out: &mut W) -> Result<(), Fault>
    requires { IsTrue (is_well_formed edge.now) }
    ensures ok { OnOk result
        (Appends (W.contents out.old) (W.contents out.new) (edge_line edge.now)) }
    ensures front { OnErr result
        (AppendsFront (W.contents out.old) (W.contents out.new) (edge_line edge.now)) }
    ensures fault { IfErr result (λ fault. fault ≡ Fault.Write) }
{
    put(out, line_of(edge).as_slice())
}

/// Writes the lines of the edges.
///
/// # Errors
/// X8 if a write failed or took no byte; a prefix of the lines was written then.
fn write_lines<W: Write>(edges: &[Edge], out: &mut W) -> Result<(), Fault>
    requires { All (λ e. IsTrue (is_well_formed e)) edges.now }
    ensures ok { OnOk result
        (Appends (W.contents out.old) (W.contents out.new) (edge_lines edges.now)) }
    ensures front { OnErr result
        (AppendsFront (W.contents out.old) (W.contents out.new) (edge_lines edges.now)) }
    ensures fault { IfErr result (λ fault. fault ≡ Fault.Write) }
{
    for edge in edges {
        write_line(edge, out)?;
    }
    Ok(())
}

/// Writes the trace of the edges: the header line, and a line for each edge. The edges have to be
/// well formed. docs/TRACES.md describes the text.
///
/// # Errors
/// X8 if a write failed or took no byte; a prefix of the trace was written then.
pub fn write<W: Write>(version: Version, edges: &[Edge], out: &mut W) -> Result<(), Fault>
    requires { All (λ e. IsTrue (is_well_formed e)) edges.now }
    ensures ok { OnOk result
        (Appends (W.contents out.old) (W.contents out.new) (text version edges.now)) }
    ensures front { OnErr result
        (AppendsFront (W.contents out.old) (W.contents out.new) (text version edges.now)) }
    ensures fault { IfErr result (λ fault. fault ≡ Fault.Write) }
{
    put(out, header_line(version))?;
    write_lines(edges, out)
}
