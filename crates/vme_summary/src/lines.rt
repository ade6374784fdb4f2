//! The lines of a summary, each put together in a buffer.
ghost use Rattle.std.specs.Prelude.{◌≡◌, ◌+◌, ◌*◌, ◌<◌, ◌≤◌, ◌++◌, length, slice_index_or};
ghost use Rattle.arrayvec.specs.ArrayVec.{array_vec_len};
ghost use Rattle.vme_goals.specs.Events.{event_index};
ghost use Rattle.vme_summary.specs.Tallied.{IsTopic, OfTally};
ghost use Rattle.vme_summary.specs.Summed.{OfSums};
ghost use Rattle.vme_summary.specs.Sums.{sums_line, times_text};
ghost use Rattle.vme_summary.specs.Summary.{edges_text, rule_text, refusal_name, refusal_text, never_text, rules_without, events_without, met_text, since_text, turns_text, board_text, answers_text, requests, line_text};

use crate::boards::BoardTally;
use crate::rules::RULES;
use crate::sums::Sums;
use crate::tallies::Tally;
use crate::topics::Topic;
use arrayvec::ArrayVec;
use vme_explain::texts::push_verdict;
use vme_goals::Event;
use vme_model::Refused;
use vme_slots::Plan;
use vme_text::{push, push_byte, push_number};

/// Room for any line: a board's has nine words of at most 14 bytes, and as many numbers of 20
/// digits and more.
const LINE: usize = 400;

/// A line, as far as it was put together; empty if there is nothing to print.
pub(crate) type Line = ArrayVec<u8, LINE>;

/// How many edges there are.
fn edges_line(edges: u64, accepted: u64, refused: u64) -> Line
    ensures { result.items ≡ edges_text edges accepted refused }
{
    let mut line = ArrayVec::new();
    push(&mut line, b"edges ");
    push_number(&mut line, edges);
    push(&mut line, b" accepted ");
    push_number(&mut line, accepted);
    push(&mut line, b" refused ");
    push_number(&mut line, refused);
    push(&mut line, b"\n");
    line
}

/// How many a rule let pass and refused, if there are any.
fn rule_line(rule: u8, accepted: u64, refused: u64) -> Line
    ensures { result.items ≡ rule_text rule accepted refused }
{
    let mut line = ArrayVec::new();
    if accepted == 0 && refused == 0 {
        return line;
    }
    push(&mut line, b"G");
    push_byte(&mut line, rule);
    push(&mut line, b" accepted ");
    push_number(&mut line, accepted);
    push(&mut line, b" refused ");
    push_number(&mut line, refused);
    push(&mut line, b"\n");
    line
}

/// Appends what a refusal is called: at most 37 bytes.
fn push_refusal(line: &mut Line, refused: Refused)
    requires { array_vec_len line.old + 37 ≤ 400 }
    ensures items { line.new.items ≡ line.old.items ++ refusal_name refused }
    ensures len { array_vec_len line.new ≤ array_vec_len line.old + 37 }
{
    match refused {
        Refused::NotSettled(rule) => {
            push(line, b"S");
            push_byte(line, rule);
        }
        refused => push_verdict(line, &Err(refused)),
    }
}

/// How many were refused so, if there are any.
fn refusal_line(refused: Refused, count: u64) -> Line
    ensures { result.items ≡ refusal_text refused count }
{
    let mut line = ArrayVec::new();
    if count == 0 {
        return line;
    }
    push_refusal(&mut line, refused);
    push(&mut line, b" refused ");
    push_number(&mut line, count);
    push(&mut line, b"\n");
    line
}

/// What never came.
fn never_line(first: &[u8], words: &Line) -> Line
    requires { length first.now + array_vec_len words.now + 6 ≤ 400 }
    ensures { result.items ≡ never_text first.now words.now.items }
{
    let mut line = ArrayVec::new();
    push(&mut line, first);
    if words.is_empty() {
        push(&mut line, b" none");
    } else {
        push(&mut line, words.as_slice());
    }
    push(&mut line, b"\n");
    line
}

/// The rules that let no edge pass, by how many each let pass, a blank before each.
fn rule_words(passed: &[u64; RULES]) -> Line
    ensures words { result.items ≡ rules_without (λ k. slice_index_or passed.now k 0) }
    ensures short { array_vec_len result ≤ 130 }
{
    let mut words = ArrayVec::new();
    for below in 0..26 {
        let rule = below + 1;
        if passed[usize::from(rule)] == 0 {
            push(&mut words, b" G");
            push_byte(&mut words, rule);
        }
    }
    words
}

/// The situations that never came, by how often each came, a blank before each.
fn event_words(times: &[u64; Event::COUNT]) -> Line
    ensures words { result.items
        ≡ events_without (λ v. slice_index_or times.now (event_index v) 0) }
    ensures short { array_vec_len result ≤ 15 * Event.COUNT }
{
    let mut words = ArrayVec::new();
    for event in &Event::ALL {
        if times[event.index()] == 0 {
            push(&mut words, b" ");
            push(&mut words, event.name().as_bytes());
        }
    }
    words
}

/// How often a situation came, and where first, if it came.
fn met_line(event: Event, times: u64, first: Option<u64>) -> Line
    ensures { result.items ≡ met_text event times first }
{
    let mut line = ArrayVec::new();
    if let Some(first) = first {
        push(&mut line, b"met ");
        push(&mut line, event.name().as_bytes());
        push(&mut line, b" ");
        push_number(&mut line, times);
        push(&mut line, b" first ");
        push_number(&mut line, first);
        push(&mut line, b"\n");
    }
    line
}

/// How often a situation came in several traces, if it came.
fn times_line(event: Event, times: u64) -> Line
    ensures { result.items ≡ times_text event times }
{
    let mut line = ArrayVec::new();
    if times == 0 {
        return line;
    }
    push(&mut line, b"met ");
    push(&mut line, event.name().as_bytes());
    push(&mut line, b" ");
    push_number(&mut line, times);
    push(&mut line, b"\n");
    line
}

/// Appends since when something is so, if it is: the word, and at most 20 bytes.
fn push_since(line: &mut Line, word: &[u8], since: Option<u64>)
    requires { array_vec_len line.old + length word.now + 20 ≤ 400 }
    ensures items { line.new.items ≡ line.old.items ++ since_text word.now since }
    ensures len { array_vec_len line.new ≤ array_vec_len line.old + length word.now + 20 }
{
    if let Some(since) = since {
        push(line, word);
        push_number(line, since);
    }
}

/// What a board did at the bus, apart from its cycles.
fn turns_line(slot: u8, board: &BoardTally) -> Line
    ensures text { result.items ≡ turns_text slot board.now }
    ensures short { array_vec_len result ≤ 200 }
{
    let mut line = ArrayVec::new();
    push(&mut line, b"board ");
    push_byte(&mut line, slot);
    push(&mut line, b" asked ");
    push_number(&mut line, board.asked);
    push(&mut line, b" waited ");
    push_number(&mut line, board.waited);
    push(&mut line, b" longest-wait ");
    push_number(&mut line, board.longest_wait);
    push(&mut line, b" tenures ");
    push_number(&mut line, board.tenures);
    push(&mut line, b" held ");
    push_number(&mut line, board.held);
    push(&mut line, b" longest-hold ");
    push_number(&mut line, board.longest_hold);
    line
}

/// What a board did at the bus.
fn board_line(slot: u8, board: &BoardTally) -> Line
    ensures { result.items ≡ board_text slot board.now }
{
    let mut line = turns_line(slot, board);
    push(&mut line, b" cycles ");
    push_number(&mut line, board.cycles);
    push_since(&mut line, b" asks since ", board.asks_since);
    push_since(&mut line, b" holds since ", board.holds_since);
    push(&mut line, b"\n");
    line
}

/// What a board answered, if it did.
fn answers_line(slot: u8, board: &BoardTally) -> Line
    ensures { result.items ≡ answers_text slot board.now }
{
    let mut line = ArrayVec::new();
    if board.answered == 0 {
        return line;
    }
    push(&mut line, b"board ");
    push_byte(&mut line, slot);
    push(&mut line, b" answered ");
    push_number(&mut line, board.answered);
    push(&mut line, b" delivered ");
    push_number(&mut line, board.delivered);
    push(&mut line, b"\n");
    line
}

/// Whether the board in the slot has a requester.
fn requests(plan: &Plan, slot: u8) -> bool
    ensures { result ≡ requests plan.now slot }
{
    match plan.row(slot) {
        Some(row) => row.requester.is_some(),
        None => false,
    }
}

/// What is printed about a topic.
pub(crate) fn line(plan: &Plan, tally: &Tally, topic: Topic) -> Line
    requires { IsTopic topic }
    ensures { OfTally tally.now (λ t. result.items ≡ line_text plan.now t topic) }
{
    match topic {
        Topic::Edges => edges_line(tally.edges(), tally.accepted(), tally.refused()),
        Topic::Rule(rule) => {
            rule_line(
                rule,
                tally.passed_by(rule),
                tally.refused_for(Refused::Rule(rule)),
            )
        }
        Topic::Refusal(refused) => refusal_line(refused, tally.refused_for(refused)),
        Topic::NeverAccepted => never_line(b"never accepted", &rule_words(&tally.passed)),
        Topic::Met(event) => met_line(event, tally.times_met(event), tally.first_met(event)),
        Topic::NeverMet => never_line(b"never met", &event_words(&tally.met.times)),
        Topic::Board(slot) if requests(plan, slot) => board_line(slot, &tally.board(slot)),
        Topic::Board(_) => ArrayVec::new(),
        Topic::Answered(slot) => answers_line(slot, &tally.board(slot)),
    }
}

/// What is printed about a topic of several traces together.
pub(crate) fn sums_line(plan: &Plan, sums: &Sums, topic: Topic) -> Line
    requires { IsTopic topic }
    ensures { OfSums sums.now (λ ts. result.items ≡ sums_line plan.now ts topic) }
{
    match topic {
        Topic::Edges => edges_line(sums.edges, sums.accepted, sums.refused),
        Topic::Rule(rule) => {
            rule_line(
                rule,
                sums.passed_by(rule),
                sums.refused_for(Refused::Rule(rule)),
            )
        }
        Topic::Refusal(refused) => refusal_line(refused, sums.refused_for(refused)),
        Topic::NeverAccepted => never_line(b"never accepted", &rule_words(&sums.passed)),
        Topic::Met(event) => times_line(event, sums.times_met(event)),
        Topic::NeverMet => never_line(b"never met", &event_words(&sums.met)),
        Topic::Board(slot) if requests(plan, slot) => board_line(slot, &sums.board(slot)),
        Topic::Board(_) => ArrayVec::new(),
        Topic::Answered(slot) => answers_line(slot, &sums.board(slot)),
    }
}
