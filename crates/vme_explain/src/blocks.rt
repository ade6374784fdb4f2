//! The block that says why an edge has its verdict.
ghost use Rattle.std.specs.Prelude.{◌≡◌, IsTrue, IfErr, OnOk, OnErr, All};
ghost use Rattle.std.specs.Io.KnownBytes.{Appends};
ghost use Rattle.vme_model.specs.Deliveries.{answer as answer_to};
ghost use Rattle.vme_model.specs.Signals.{is_well_formed};
ghost use Rattle.vme_model.specs.Verdict.{State};
ghost use Rattle.vme_model.specs.Why.{edge_verdict, reason_lines, witness_lines, why_text};
ghost use Rattle.vme_trace.specs.Writing.{AppendsFront};
ghost use Rattle.vme_explain.specs.Blocks.{IsSpoken, condition_line, reason, reasons_text};
ghost use Rattle.vme_explain.specs.Traced.{OfTrace};

use crate::boards::board_of;
use crate::conditions::witnesses;
use crate::marks::Marks;
use crate::tested::Conditions;
use crate::texts::{LINE, push_verdict, witness_line};
use arrayvec::ArrayVec;
use std::io::Write;
use vme_bus::Bus;
use vme_model::{Delivery, Edge, Refused, Tested, Witness, profile_mark};
use vme_text::{push, push_number};
use vme_trace::{Fault, put, spelling_of};

/// The first line of a block: the number of the edge, the edge, its verdict and a line feed.
pub fn verdict_line(
    n: u64,
    edge: &Edge,
    answer: &Result<Option<Delivery>, Refused>,
) -> ArrayVec<u8, LINE>
    requires { IsTrue (is_well_formed edge.now) }
    ensures { (b : State) → answer.now ≡ answer_to b edge.now
        → result.items ≡ edge_verdict n b edge.now }
{
    let mut line = ArrayVec::new();
    push_number(&mut line, n);
    push(&mut line, b" ");
    push(&mut line, spelling_of(edge).as_slice());
    push(&mut line, b" ");
    push_verdict(&mut line, answer);
    push(&mut line, b"\n");
    line
}

/// The line of a condition, with its mark if it is the profile's.
fn condition_line(bus: &Bus, edge: &Edge, tested: Tested) -> ArrayVec<u8, LINE>
    requires { IsTrue (is_well_formed edge.now) }
    ensures { result.items ≡ condition_line bus.now edge.now tested }
{
    let text = tested
        .condition
        .text(edge, board_of(bus, edge.driver), bus.shown());
    let mut line = ArrayVec::new();
    push(&mut line, if tested.holds { b"holds " } else { b"fails " });
    push(&mut line, text.as_slice());
    let ours = tested.condition.is_ours(edge.wire, edge.fall);
    push(&mut line, profile_mark(ours).as_bytes());
    push(&mut line, b"\n");
    line
}

/// Writes the lines of the witnesses. What it writes is not said if one names a wire without a
/// word.
fn write_witnesses<W: Write>(witnesses: &[Witness], out: &mut W) -> Result<(), Fault>
    ensures ok { OnOk result (All IsSpoken witnesses.now
        → Appends (W.contents out.old) (W.contents out.new) (witness_lines witnesses.now)) }
    ensures front { OnErr result (All IsSpoken witnesses.now
        → AppendsFront (W.contents out.old) (W.contents out.new) (witness_lines witnesses.now)) }
    ensures fault { IfErr result (λ fault. fault ≡ Fault.Write) }
{
    for witness in witnesses {
        put(out, witness_line(witness).as_slice())?;
    }
    Ok(())
}

/// Writes the line of a condition, and one for each of its witnesses.
fn write_reason<W: Write>(
    bus: &Bus,
    marks: &Marks,
    edge: &Edge,
    tested: Tested,
    out: &mut W,
) -> Result<(), Fault>
    requires { IsTrue (is_well_formed edge.now) }
    ensures ok { OnOk result (OfTrace bus.now marks.now
        (λ k. Appends (W.contents out.old) (W.contents out.new)
        (reason_lines bus.now edge.now (reason bus.now k edge.now tested)))) }
    ensures front { OnErr result (OfTrace bus.now marks.now
        (λ k. AppendsFront (W.contents out.old) (W.contents out.new)
        (reason_lines bus.now edge.now (reason bus.now k edge.now tested)))) }
    ensures fault { IfErr result (λ fault. fault ≡ Fault.Write) }
{
    put(out, condition_line(bus, edge, tested).as_slice())?;
    let found = witnesses(bus, marks, edge, tested.condition);
    write_witnesses(found.as_slice(), out)
}

/// Writes the lines of the tested conditions.
fn write_reasons<W: Write>(
    bus: &Bus,
    marks: &Marks,
    edge: &Edge,
    witnesses: &[Tested],
    out: &mut W,
) -> Result<(), Fault>
    requires { IsTrue (is_well_formed edge.now) }
    ensures ok { OnOk result (OfTrace bus.now marks.now
        (λ k. Appends (W.contents out.old) (W.contents out.new)
        (reasons_text bus.now k edge.now witnesses.now))) }
    ensures front { OnErr result (OfTrace bus.now marks.now
        (λ k. AppendsFront (W.contents out.old) (W.contents out.new)
        (reasons_text bus.now k edge.now witnesses.now))) }
    ensures fault { IfErr result (λ fault. fault ≡ Fault.Write) }
{
    for tested in witnesses {
        write_reason(bus, marks, edge, *tested, out)?;
    }
    Ok(())
}

/// Writes why an edge has its verdict: a line with its number `n`, the edge and the verdict, and
/// for each condition that is tested of it a line, with one behind it for each of its witnesses.
///
/// The edge is well formed and not yet made, `answer` is the answer to it, and the marks are of the
/// bus's edges.
///
/// # Errors
/// X8 if the output cannot be written; a prefix of the block was then written.
pub fn write_why<W: Write>(
    n: u64,
    bus: &Bus,
    marks: &Marks,
    edge: &Edge,
    answer: &Result<Option<Delivery>, Refused>,
    out: &mut W,
) -> Result<(), Fault>
    requires well_formed { IsTrue (is_well_formed edge.now) }
    requires answered { answer.now ≡ answer_to bus.now edge.now }
    ensures ok { OnOk result (OfTrace bus.now marks.now
        (λ k. Appends (W.contents out.old) (W.contents out.new)
        (why_text n bus.now k edge.now))) }
    ensures front { OnErr result (OfTrace bus.now marks.now
        (λ k. AppendsFront (W.contents out.old) (W.contents out.new)
        (why_text n bus.now k edge.now))) }
    ensures fault { IfErr result (λ fault. fault ≡ Fault.Write) }
{
    put(out, verdict_line(n, edge, answer).as_slice())?;
    let witnesses: Conditions = bus.outcome(*edge);
    write_reasons(bus, marks, edge, witnesses.as_slice(), out)
}
