//! The lines that engines write.
ghost use Rattle.std.specs.Prelude.{◌≡◌, ◌+◌, ◌-◌, ◌<◌, ◌≤◌, ◌^◌, ◌++◌, [], length, Err, IfErr, OnOk, OnErr};
ghost use Rattle.std.specs.Io.KnownBytes.{Appends};
ghost use Rattle.arrayvec.specs.ArrayVec.{array_vec_len};
ghost use Rattle.vme_model.specs.Verdict.{kept};
ghost use Rattle.vme_model.specs.Deliveries.{answer};
ghost use Rattle.vme_model.specs.Report.{delivery_text, verdict_text, verdict_line, verdict_lines, closing_text};
ghost use Rattle.vme_trace.specs.Writing.{AppendsFront};
ghost use Rattle.vme_engines.specs.Checking.{finding_line};
ghost use Rattle.vme_engines.specs.Texts.{HandsOn};

use crate::checks::Finding;
use crate::counts::Count;
use crate::tails::push_end;
use arrayvec::ArrayVec;
use std::io::Write;
use vme_bus::Bus;
use vme_model::{Delivery, Edge, Refused};
use vme_reasons::texts::{push, push_number, push_verdict};
use vme_text::Text;
use vme_trace::{Fault, flush, put};

/// Room for any line: two numbers of at most 20 digits, or one and a verdict, and a few words.
const LINE: usize = 80;

/// Appends the verdict line of the edge with this number.
#[inline(always)]
fn push_line(text: &mut Text, count: &Count, answer: Result<Option<Delivery>, Refused>)
    requires { length text.old + 64 ≤ 8192 }
    ensures { text.new ≡ text.old ++ verdict_line count.now answer }
{
    count.push_tens(text);
    push_end(text, count.last_digit(), answer);
}

/// Has a text written, and forgets it.
///
/// Errors: X8 where that failed; a prefix of the text was then written.
pub(crate) fn hand_on<W: Write>(text: &mut Text, out: &mut W) -> Result<(), Fault>
    ensures empty { OnOk result (text.new ≡ []) }
    ensures ok { OnOk result (Appends (W.contents out.old) (W.contents out.new) text.old) }
    ensures front { OnErr result
        (AppendsFront (W.contents out.old) (W.contents out.new) text.old) }
    ensures fault { IfErr result (λ fault. fault ≡ Fault.Write) }
{
    put(out, text.as_slice())?;
    text.clear();
    Ok(())
}

/// Has a text written where it has no room for a further line.
///
/// Errors: X8 where that failed; a prefix of the text was then written.
#[inline(always)]
pub(crate) fn make_room<W: Write>(text: &mut Text, out: &mut W) -> Result<(), Fault>
    ensures room { OnOk result (length text.new + 64 ≤ 8192) }
    ensures ok { OnOk result
        (HandsOn (W.contents out.old) (W.contents out.new) text.old text.new) }
    ensures front { OnErr result
        (AppendsFront (W.contents out.old) (W.contents out.new) text.old) }
    ensures fault { IfErr result (λ fault. fault ≡ Fault.Write) }
{
    if text.is_nearly_full() {
        return hand_on(text, out);
    }
    Ok(())
}

/// The closing line of a report.
fn closing_line(accepted: u64, refused: u64) -> ArrayVec<u8, LINE>
    ensures { result.items ≡ closing_text accepted refused }
{
    let mut line = ArrayVec::new();
    push(&mut line, b"accepted ");
    push_number(&mut line, accepted);
    push(&mut line, b" refused ");
    push_number(&mut line, refused);
    push(&mut line, b"\n");
    line
}

/// The line of a finding.
fn finding_line(finding: Finding) -> ArrayVec<u8, LINE>
    ensures { result.items ≡ finding_line finding }
{
    let mut line = ArrayVec::new();
    match finding {
        Finding::Legal { edges } => {
            push(&mut line, b"legal ");
            push_number(&mut line, edges);
        }
        Finding::Illegal { n, refused } => {
            push(&mut line, b"illegal ");
            push_number(&mut line, n);
            push(&mut line, b" ");
            push_verdict(&mut line, &Err(refused));
        }
    }
    push(&mut line, b"\n");
    line
}

/// Judges the edges after the first `judged`, and writes the verdict line of each. The lines are put
/// together in `text`, whatever it held.
pub(crate) fn write_verdicts<W: Write>(
    bus: &mut Bus,
    judged: u64,
    edges: &[Edge],
    text: &mut Text,
    out: &mut W,
) -> Result<(), Fault>
    requires { judged + length edges.now < 2 ^ 64 }
    ensures state { OnOk result (bus.new ≡ kept bus.old edges.now) }
    ensures ok { OnOk result
        (Appends (W.contents out.old) (W.contents out.new)
        (verdict_lines bus.old (judged + 1) edges.now)) }
    ensures front { OnErr result
        (AppendsFront (W.contents out.old) (W.contents out.new)
        (verdict_lines bus.old (judged + 1) edges.now)) }
    ensures fault { IfErr result (λ fault. fault ≡ Fault.Write) }
{
    let mut count = Count::new(judged);
    text.clear();
    for edge in edges {
        make_room(text, out)?;
        count.advance();
        push_line(text, &count, bus.step(*edge));
    }
    hand_on(text, out)
}

/// Writes the closing line of a report, and has the writer hand on what it holds back.
pub(crate) fn close<W: Write>(accepted: u64, refused: u64, out: &mut W) -> Result<(), Fault>
    ensures ok { OnOk result
        (Appends (W.contents out.old) (W.contents out.new) (closing_text accepted refused)) }
    ensures front { OnErr result
        (AppendsFront (W.contents out.old) (W.contents out.new) (closing_text accepted refused)) }
    ensures fault { IfErr result (λ fault. fault ≡ Fault.Write) }
{
    put(out, closing_line(accepted, refused).as_slice())?;
    flush(out)
}

/// Writes the line of a finding, and has the writer hand on what it holds back.
pub(crate) fn write_finding<W: Write>(finding: Finding, out: &mut W) -> Result<(), Fault>
    ensures ok { OnOk result
        (Appends (W.contents out.old) (W.contents out.new) (finding_line finding)) }
    ensures front { OnErr result
        (AppendsFront (W.contents out.old) (W.contents out.new) (finding_line finding)) }
    ensures fault { IfErr result (λ fault. fault ≡ Fault.Write) }
{
    put(out, finding_line(finding).as_slice())?;
    flush(out)
}
