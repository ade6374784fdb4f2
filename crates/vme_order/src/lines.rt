//! The lines that are written of an order.
ghost use Rattle.std.specs.Prelude.{◌≡◌, ◌+◌, ◌≤◌, ◌<◌, ◌^◌, ◌++◌, All, IfErr, IsTrue, OnErr, OnOk, length};
ghost use Rattle.arrayvec.specs.ArrayVec.{array_vec_len};
ghost use Rattle.std.specs.Io.KnownBytes.{Appends};
ghost use Rattle.vme_model.specs.Signals.{is_well_formed};
ghost use Rattle.vme_trace.specs.Writing.{AppendsFront};
ghost use Rattle.vme_order.specs.Lines.{all_judged, head_text, judged, seen_line, seen_lines};
ghost use Rattle.vme_order.specs.Ordering.{place_line, refusal_text, seen_at};

use crate::Form;
use arrayvec::ArrayVec;
use std::io::Write;
use vme_bus::Bus;
use vme_explain::texts::push_verdict;
use vme_model::{Delivery, Refused, Version};
use vme_moments::Seen;
use vme_text::{push, push_number};
use vme_trace::{Fault, header_line, put, spelling_of, write_line};

/// Room for any line: three numbers of at most 20 digits, an edge of 12 bytes, a verdict of 37, and
/// a few words.
const LINE: usize = 128;

/// Appends a blank and the verdict, if this is the answer to an edge that is refused.
fn push_refusal(line: &mut ArrayVec<u8, LINE>, answer: &Result<Option<Delivery>, Refused>)
    requires { array_vec_len line.old ≤ 90 }
    ensures items { line.new.items ≡ line.old.items ++ refusal_text answer.now }
    ensures len { array_vec_len line.new ≤ array_vec_len line.old + 38 }
{
    if answer.is_err() {
        push(line, b" ");
        push_verdict(line, answer);
    }
}

/// The line that says where the n-th edge was seen, and what its verdict is if this answer refuses
/// it.
fn place_line(n: u64, seen: &Seen, answer: &Result<Option<Delivery>, Refused>) -> ArrayVec<u8, LINE>
    requires { IsTrue (is_well_formed seen.now.edge) }
    ensures { result.items ≡ place_line n seen.now answer.now }
{
    let mut line = ArrayVec::new();
    push_number(&mut line, n);
    push(&mut line, b" ");
    push(&mut line, spelling_of(&seen.edge).as_slice());
    push(&mut line, b" line ");
    push_number(&mut line, seen.line);
    push(&mut line, b" moment ");
    push_number(&mut line, seen.moment);
    push_refusal(&mut line, answer);
    push(&mut line, b"\n");
    line
}

/// Writes what stands before the lines of the edges.
///
/// # Errors
/// X8 if that failed; a prefix of it was written then.
pub(crate) fn write_head<W: Write>(form: Form, version: Version, out: &mut W) -> Result<(), Fault>
    ensures ok { OnOk result
        (Appends (W.contents out.old) (W.contents out.new) (head_text form version)) }
    ensures front { OnErr result
        (AppendsFront (W.contents out.old) (W.contents out.new) (head_text form version)) }
    ensures fault { IfErr result (λ fault. fault ≡ Fault.Write) }
{
    match form {
        Form::Trace => put(out, header_line(version)),
        Form::Places => Ok(()),
    }
}

/// Writes the line of the n-th edge. The bus is that of the edges before it, if places are written,
/// and is then that of this edge, too.
fn write_edge<W: Write>(
    form: Form,
    bus: &mut Bus,
    n: u64,
    seen: &Seen,
    out: &mut W,
) -> Result<(), Fault>
    requires { IsTrue (is_well_formed seen.now.edge) }
    ensures state { bus.new ≡ judged form bus.old seen.now.edge }
    ensures ok { OnOk result
        (Appends (W.contents out.old) (W.contents out.new) (seen_line form bus.old n seen.now)) }
    ensures front { OnErr result
        (AppendsFront (W.contents out.old) (W.contents out.new)
        (seen_line form bus.old n seen.now)) }
    ensures fault { IfErr result (λ fault. fault ≡ Fault.Write) }
{
    match form {
        Form::Trace => write_line(&seen.edge, out),
        Form::Places => {
            let answer = bus.step(seen.edge);
            put(out, place_line(n, seen, &answer).as_slice())
        }
    }
}

/// Writes the lines of the edges at these places, after so many edges, which led to this bus if
/// places are written.
///
/// # Errors
/// X8 if that failed; a prefix of the lines was written then.
pub(crate) fn write_edges<W: Write>(
    form: Form,
    bus: &mut Bus,
    written: usize,
    seen: &[Seen],
    places: &[u32],
    out: &mut W,
) -> Result<(), Fault>
    requires formed { All (λ s. IsTrue (is_well_formed s.edge)) seen.now }
    requires within { All (λ p. p < length seen.now) places.now }
    requires few { written + length places.now < 2 ^ 64 }
    ensures state { OnOk result
        (bus.new ≡ all_judged form bus.old (seen_at seen.now places.now)) }
    ensures ok { OnOk result
        (Appends (W.contents out.old) (W.contents out.new)
        (seen_lines form bus.old (written + 1) (seen_at seen.now places.now))) }
    ensures front { OnErr result
        (AppendsFront (W.contents out.old) (W.contents out.new)
        (seen_lines form bus.old (written + 1) (seen_at seen.now places.now))) }
    ensures fault { IfErr result (λ fault. fault ≡ Fault.Write) }
{
    let mut n = written as u64;
    for place in places {
        n += 1;
        write_edge(form, bus, n, &seen[*place as usize], out)?;
    }
    Ok(())
}
