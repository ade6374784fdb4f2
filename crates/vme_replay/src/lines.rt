//! The lines that engines write.
ghost use Rattle.std.specs.Prelude.{◌≡◌, ◌+◌, ◌-◌, ◌%◌, ◌<◌, ◌≤◌, ◌^◌, ◌++◌, length, map, IfErr, OnOk, OnErr};
ghost use Rattle.std.specs.Io.KnownBytes.{Appends};
ghost use Rattle.vme_model.specs.Verdict.{kept};
ghost use Rattle.vme_model.specs.Locality.{AreWellFormed};
ghost use Rattle.vme_model.specs.Report.{verdict_lines, closing_text};
ghost use Rattle.vme_bus.specs.Answers.{answer_of};
ghost use Rattle.vme_trace.specs.Writing.{AppendsFront};
ghost use Rattle.vme_replay.specs.Recorded.{answer_lines};
ghost use Rattle.vme_reading.specs.Texts.{HandsOn};

use crate::counts::Count;
use crate::tails::{are_plain, push_line, push_plain};
use arrayvec::ArrayVec;
use std::io::Write;
use vme_bus::{AnswerRecord, Bus};
use vme_model::Edge;
use vme_reading::{JUDGED_AT_ONCE, hand_on, make_room};
use vme_text::{Text, push, push_number};
use vme_trace::{Fault, flush, put};

/// Room for any line: two numbers of at most 20 digits, or one and a verdict, and a few words.
const LINE: usize = 80;

/// The closing line of a report.
fn closing_line(accepted: u64, refused: u64) -> ArrayVec<u8, LINE>
    ensures { result.items ≡ closing_text accepted refused }
{
    let mut line = ArrayVec::new();
    push(&mut line, b"accepted ");
    push_number(&mut line, accepted);
    push(&mut line, b" refused ");
    push_number(&mut line, refused);
    push(&mut line, b"\n");
    line
}

/// Appends the verdict lines of edges whose numbers have the same tens, from `count` on.
#[inline(always)]
fn push_lines(text: &mut Text, count: &Count, records: &[AnswerRecord])
    requires tens { count.now % 10 + length records.now ≤ 10 }
    requires small { count.now + length records.now ≤ 2 ^ 64 }
    requires room { length text.old + 640 ≤ 8192 }
    ensures { text.new ≡ text.old ++ answer_lines count.now (map answer_of records.now) }
{
    // Most edges of a legal trace are such, and their lines take less work.
    if records.len() == 10 && are_plain(records) {
        push_plain(text, count);
        return;
    }
    let mut digit = count.last_digit();
    for found in records {
        push_line(text, count, digit, found);
        digit += 1;
    }
}

/// Appends the verdict lines of edges, from `count` on, to a text that is written out whenever it
/// has no room for ten lines more, and counts on after them.
///
/// # Errors
/// X8 if that failed; a prefix of the lines was then written.
#[inline(always)]
fn write_lines<W: Write>(
    records: &[AnswerRecord],
    count: &mut Count,
    text: &mut Text,
    out: &mut W,
) -> Result<(), Fault>
    requires { count.old + length records.now ≤ 2 ^ 64 }
    ensures count { OnOk result (count.new ≡ count.old + length records.now) }
    ensures ok { OnOk result
        (HandsOn (W.contents out.old) (W.contents out.new)
        (text.old ++ answer_lines count.old (map answer_of records.now)) text.new) }
    ensures front { OnErr result
        (AppendsFront (W.contents out.old) (W.contents out.new)
        (text.old ++ answer_lines count.old (map answer_of records.now))) }
    ensures fault { IfErr result (λ fault. fault ≡ Fault.Write) }
{
    let mut rest = records;
    while !rest.is_empty() {
        make_room(text, out)?;
        let many = rest.len().min(usize::from(count.left()));
        let (group, behind) = rest.split_at(many);
        push_lines(text, count, group);
        count.advance(many as u8);
        rest = behind;
    }
    Ok(())
}

/// Judges the edges after the first `judged`, and writes the verdict line of each. The lines are
/// put together in `text`, whatever it held.
///
/// # Errors
/// X8 if that failed; a prefix of the lines was then written.
pub(crate) fn write_verdicts<W: Write>(
    bus: &mut Bus,
    judged: u64,
    edges: &[Edge],
    text: &mut Text,
    out: &mut W,
) -> Result<(), Fault>
    requires well_formed { AreWellFormed edges.now }
    requires count { judged + length edges.now < 2 ^ 64 }
    ensures state { OnOk result (bus.new ≡ kept bus.old edges.now) }
    ensures ok { OnOk result
        (Appends (W.contents out.old) (W.contents out.new)
        (verdict_lines bus.old (judged + 1) edges.now)) }
    ensures front { OnErr result
        (AppendsFront (W.contents out.old) (W.contents out.new)
        (verdict_lines bus.old (judged + 1) edges.now)) }
    ensures fault { IfErr result (λ fault. fault ≡ Fault.Write) }
{
    let mut count = Count::new(judged);
    count.advance(1);
    text.clear();
    let mut records = [AnswerRecord::ACCEPTED; JUDGED_AT_ONCE];
    let mut rest = edges;
    while !rest.is_empty() {
        let (chunk, behind) = rest.split_at(rest.len().min(JUDGED_AT_ONCE));
        bus.step_all(chunk, &mut records);
        write_lines(&records[..chunk.len()], &mut count, text, out)?;
        rest = behind;
    }
    hand_on(text, out)
}

/// Writes the closing line of a report, and has the writer hand on what it holds back.
pub(crate) fn close<W: Write>(accepted: u64, refused: u64, out: &mut W) -> Result<(), Fault>
    ensures ok { OnOk result
        (Appends (W.contents out.old) (W.contents out.new) (closing_text accepted refused)) }
    ensures front { OnErr result
        (AppendsFront (W.contents out.old) (W.contents out.new) (closing_text accepted refused)) }
    ensures fault { IfErr result (λ fault. fault ≡ Fault.Write) }
{
    put(out, closing_line(accepted, refused).as_slice())?;
    flush(out)
}
