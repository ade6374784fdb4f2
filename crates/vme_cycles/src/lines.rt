//! The lines that are written, each put together in a buffer.
ghost use Rattle.std.specs.Prelude.{◌≡◌, ◌+◌, ◌≤◌, ◌++◌, IsTrue, Some};
ghost use Rattle.arrayvec.specs.ArrayVec.{array_vec_len};
ghost use Rattle.vme_model.specs.Signals.{is_well_formed};
ghost use Rattle.vme_cycles.specs.Transactions.{answer_text, cycle_text, last_text, refused_text, showed_text, span_text, tenure_text, totals_text};

use crate::record::CycleAnswer;
use arrayvec::ArrayVec;
use vme_explain::texts::push_verdict;
use vme_model::{Cycle, Delivery, Driver, Edge, Refused};
use vme_text::{push, push_byte, push_number};
use vme_trace::spelling_of;

/// Room for any line: three numbers of at most 20 digits, four bytes' values and a few words.
const LINE: usize = 128;

/// A line, as far as it was put together.
pub(crate) type Line = ArrayVec<u8, LINE>;

/// Appends the number of the last edge: at most 20 bytes. What is under way has none.
fn push_last(line: &mut Line, last: Option<u64>)
    requires { array_vec_len line.old + 20 ≤ 128 }
    ensures items { line.new.items ≡ line.old.items ++ last_text last }
    ensures len { array_vec_len line.new ≤ array_vec_len line.old + 20 }
{
    if let Some(n) = last {
        push_number(line, n);
    }
}

/// Appends from which edge to which, and the slot: at most 46 bytes.
fn push_span(line: &mut Line, first: u64, last: Option<u64>, driver: Driver)
    requires { array_vec_len line.old + 46 ≤ 128 }
    ensures items { line.new.items ≡ line.old.items ++ span_text first last driver }
    ensures len { array_vec_len line.new ≤ array_vec_len line.old + 46 }
{
    push_number(line, first);
    push(line, b"..");
    push_last(line, last);
    push(line, b" ");
    push_byte(line, driver.number());
}

/// Appends what a cycle showed: at most 16 bytes.
fn push_cycle(line: &mut Line, cycle: Cycle)
    requires { array_vec_len line.old + 16 ≤ 128 }
    ensures items { line.new.items ≡ line.old.items ++ showed_text (Some cycle) }
    ensures len { array_vec_len line.new ≤ array_vec_len line.old + 16 }
{
    match cycle {
        Cycle::Acknowledge(level) => {
            push(line, b" acknowledge ");
            push_byte(line, level);
        }
        Cycle::Access(slot) => {
            push(line, b" access ");
            push_byte(line, slot);
        }
    }
}

/// Appends what a cycle showed, if it showed anything: at most 16 bytes.
fn push_showed(line: &mut Line, showed: Option<Cycle>)
    requires { array_vec_len line.old + 16 ≤ 128 }
    ensures items { line.new.items ≡ line.old.items ++ showed_text showed }
    ensures len { array_vec_len line.new ≤ array_vec_len line.old + 16 }
{
    if let Some(cycle) = showed {
        push_cycle(line, cycle);
    }
}

/// Appends a status byte, its board's slot and the request that it met: at most 47 bytes.
fn push_status(line: &mut Line, status: u8, from: u8, asked: u64)
    requires { array_vec_len line.old + 47 ≤ 128 }
    ensures items { line.new.items
        ≡ line.old.items ++ answer_text (Some (CycleAnswer.Status status from asked)) }
    ensures len { array_vec_len line.new ≤ array_vec_len line.old + 47 }
{
    push(line, b" status ");
    push_byte(line, status);
    push(line, b" from ");
    push_byte(line, from);
    push(line, b" asked ");
    push_number(line, asked);
}

/// Appends how a cycle was answered, if it was: at most 47 bytes.
fn push_answer(line: &mut Line, answer: Option<CycleAnswer>)
    requires { array_vec_len line.old + 47 ≤ 128 }
    ensures items { line.new.items ≡ line.old.items ++ answer_text answer }
    ensures len { array_vec_len line.new ≤ array_vec_len line.old + 47 }
{
    match answer {
        None => {}
        Some(CycleAnswer::Register(n)) => {
            push(line, b" answered at ");
            push_number(line, n);
        }
        Some(CycleAnswer::BusError) => push(line, b" bus error"),
        Some(
            CycleAnswer::Status {
                status,
                from,
                asked,
            },
        ) => push_status(line, status, from, asked),
    }
}

/// The line of a cycle.
pub(crate) fn cycle_line(
    first: u64,
    last: Option<u64>,
    driver: Driver,
    showed: Option<Cycle>,
    answer: Option<CycleAnswer>,
) -> Line
    ensures { result.items ≡ cycle_text first last driver showed answer }
{
    let mut line = ArrayVec::new();
    push_span(&mut line, first, last, driver);
    push_showed(&mut line, showed);
    push_answer(&mut line, answer);
    push(&mut line, b"\n");
    line
}

/// The line of a tenure, with the request that it met and how many cycles it had.
pub(crate) fn tenure_line(
    first: u64,
    last: Option<u64>,
    driver: Driver,
    asked: u64,
    made: u64,
) -> Line
    ensures { result.items ≡ tenure_text first last driver asked made }
{
    let mut line = ArrayVec::new();
    push_span(&mut line, first, last, driver);
    push(&mut line, b" tenure asked ");
    push_number(&mut line, asked);
    push(&mut line, b" cycles ");
    push_number(&mut line, made);
    push(&mut line, b"\n");
    line
}

/// The line of a refused edge, the n-th.
pub(crate) fn refused_line(n: u64, edge: &Edge, answer: &Result<Option<Delivery>, Refused>) -> Line
    requires { IsTrue (is_well_formed edge.now) }
    ensures { result.items ≡ refused_text n edge.now answer.now }
{
    let mut line = ArrayVec::new();
    push_number(&mut line, n);
    push(&mut line, b" refused ");
    push(&mut line, spelling_of(edge).as_slice());
    push(&mut line, b" ");
    push_verdict(&mut line, answer);
    push(&mut line, b"\n");
    line
}

/// The last line: how many cycles and tenures ended, and how many edges were refused.
pub(crate) fn totals_line(cycles: u64, tenures: u64, refused: u64) -> Line
    ensures { result.items ≡ totals_text cycles tenures refused }
{
    let mut line = ArrayVec::new();
    push(&mut line, b"cycles ");
    push_number(&mut line, cycles);
    push(&mut line, b" tenures ");
    push_number(&mut line, tenures);
    push(&mut line, b" refused ");
    push_number(&mut line, refused);
    push(&mut line, b"\n");
    line
}
