//! The lines of a replay, in the form that was asked for.
ghost use Rattle.std.specs.Prelude.{◌≡◌, ◌+◌, ◌<◌, ◌^◌, ◌++◌, length, IfErr, IsTrue, OnOk, OnErr};
ghost use Rattle.std.specs.Io.KnownBytes.{Appends};
ghost use Rattle.vme_model.specs.Locality.{AreWellFormed};
ghost use Rattle.vme_model.specs.Signals.{is_well_formed};
ghost use Rattle.vme_model.specs.Verdict.{after, kept};
ghost use Rattle.vme_model.specs.Why.{edge_verdict};
ghost use Rattle.vme_trace.specs.Writing.{AppendsFront};
ghost use Rattle.vme_reading.specs.Outcomes.{form_lines, full_lines};
ghost use Rattle.vme_reading.specs.Texts.{HandsOn};

use crate::lines::write_verdicts;
use std::io::Write;
use vme_bus::Bus;
use vme_explain::verdict_line;
use vme_model::Edge;
use vme_reading::{LineForm, hand_on, make_room};
use vme_text::Text;
use vme_trace::Fault;

/// Judges the n-th edge, and puts its full line to a text, which is written out if it has no room
/// for ten short lines.
///
/// # Errors
/// X8 if that failed; a prefix of the text was then written.
fn write_full_line<W: Write>(
    bus: &mut Bus,
    n: u64,
    edge: &Edge,
    text: &mut Text,
    out: &mut W,
) -> Result<(), Fault>
    requires { IsTrue (is_well_formed edge.now) }
    ensures state { OnOk result (bus.new ≡ after bus.old edge.now) }
    ensures ok { OnOk result
        (HandsOn (W.contents out.old) (W.contents out.new)
        (text.old ++ edge_verdict n bus.old edge.now) text.new) }
    ensures front { OnErr result
        (AppendsFront (W.contents out.old) (W.contents out.new) text.old) }
    ensures fault { IfErr result (λ fault. fault ≡ Fault.Write) }
{
    make_room(text, out)?;
    let answer = bus.step(*edge);
    text.push(verdict_line(n, edge, &answer).as_slice());
    Ok(())
}

/// Judges the edges after the first `judged`, and writes the full line of each. The lines are put
/// together in `text`, whatever it held.
///
/// # Errors
/// X8 if that failed; a prefix of the lines was then written.
#[inline(never)]
fn write_full<W: Write>(
    bus: &mut Bus,
    judged: u64,
    edges: &[Edge],
    text: &mut Text,
    out: &mut W,
) -> Result<(), Fault>
    requires well_formed { AreWellFormed edges.now }
    requires count { judged + length edges.now < 2 ^ 64 }
    ensures state { OnOk result (bus.new ≡ kept bus.old edges.now) }
    ensures ok { OnOk result
        (Appends (W.contents out.old) (W.contents out.new)
        (full_lines bus.old (judged + 1) edges.now)) }
    ensures front { OnErr result
        (AppendsFront (W.contents out.old) (W.contents out.new)
        (full_lines bus.old (judged + 1) edges.now)) }
    ensures fault { IfErr result (λ fault. fault ≡ Fault.Write) }
{
    text.clear();
    let mut n = judged;
    for edge in edges {
        n += 1;
        write_full_line(bus, n, edge, text, out)?;
    }
    hand_on(text, out)
}

/// Judges the edges after the first `judged`, and writes the line of each in this form. The lines
/// are put together in `text`, whatever it held.
///
/// # Errors
/// X8 if that failed; a prefix of the lines was then written.
pub(crate) fn write_form<W: Write>(
    form: LineForm,
    bus: &mut Bus,
    judged: u64,
    edges: &[Edge],
    text: &mut Text,
    out: &mut W,
) -> Result<(), Fault>
    requires well_formed { AreWellFormed edges.now }
    requires count { judged + length edges.now < 2 ^ 64 }
    ensures state { OnOk result (bus.new ≡ kept bus.old edges.now) }
    ensures ok { OnOk result
        (Appends (W.contents out.old) (W.contents out.new)
        (form_lines form bus.old (judged + 1) edges.now)) }
    ensures front { OnErr result
        (AppendsFront (W.contents out.old) (W.contents out.new)
        (form_lines form bus.old (judged + 1) edges.now)) }
    ensures fault { IfErr result (λ fault. fault ≡ Fault.Write) }
{
    match form {
        LineForm::Short => write_verdicts(bus, judged, edges, text, out),
        LineForm::Full => write_full(bus, judged, edges, text, out),
    }
}
