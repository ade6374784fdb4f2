//! The lines of a picture, each put together in a buffer.
ghost use Rattle.std.specs.Prelude.{◌≡◌, ◌+◌, ◌<◌, ◌≤◌, ◌^◌, ◌++◌, length};
ghost use Rattle.arrayvec.specs.ArrayVec.{array_vec_len};
ghost use Rattle.vme_model.specs.Text.{HasWord, wire_text};
ghost use Rattle.vme_show.specs.Picture.{ink, label, numbers_line, ones, tens_line, title, wire_name};
ghost use Rattle.vme_show.specs.Columns.{digit_of, topic_line, topic_name, wire_line};

use crate::columns::{Column, Topic};
use crate::wires::PlanWire;
use arrayvec::ArrayVec;
use vme_model::{Driver, Wire};
use vme_text::{push, push_byte, push_number};

/// The characters before the first column.
const LABEL: usize = 11;

/// Room for any line: a label, at most ten bytes for each of 200 columns, and a line feed.
const LINE: usize = 2_012;

/// A line, as far as it was put together.
pub(crate) type Line = ArrayVec<u8, LINE>;

/// A label's room, unfilled.
const BLANKS: &[u8; LABEL] = b"           ";

/// A digit of a number.
#[derive(Clone, Copy, PartialEq, Eq, Debug)]
enum Digit {
    /// The one before the last, of a number that 10 divides.
    Tens,
    /// The last.
    Ones,
}

impl Digit {
    /// Its character; a blank if there is none.
    fn of(self, n: u64) -> u8
        ensures { result ≡ digit_of self n }
    {
        match self {
            Digit::Tens if n % 10 != 0 => b' ',
            Digit::Tens => b'0' + (n / 10 % 10) as u8,
            Digit::Ones => b'0' + (n % 10) as u8,
        }
    }
}

/// Fills a line that holds a label's text up with blanks.
fn fill_label(line: &mut Line)
    requires { array_vec_len line.old ≤ 11 }
    ensures items { line.new.items ≡ label line.old.items }
    ensures len { array_vec_len line.new ≡ 11 }
{
    let blanks: &[u8] = BLANKS;
    push(line, &blanks[line.len()..]);
}

/// Appends a mark, with its color if that is asked for.
fn push_ink(line: &mut Line, color: bool, mark: u8)
    requires { array_vec_len line.old + 10 ≤ 2012 }
    ensures items { line.new.items ≡ line.old.items ++ ink color mark }
    ensures len { array_vec_len line.new ≤ array_vec_len line.old + 10 }
{
    match (color, mark) {
        (true, b'x') => push(line, b"\x1b[31mx\x1b[0m"),
        (true, b'!') => push(line, b"\x1b[32m!\x1b[0m"),
        _ => line.push(mark),
    }
}

/// The first line, of so many columns from the edge with the number `first` on.
pub(crate) fn title(first: u64, columns: usize) -> Line
    requires some { 0 < columns }
    requires fits { first + columns ≤ 2 ^ 64 }
    ensures { result.items ≡ title first columns }
{
    let mut line = ArrayVec::new();
    push(&mut line, b"edges ");
    push_number(&mut line, first);
    push(&mut line, b" to ");
    push_number(&mut line, first + (columns as u64 - 1));
    push(&mut line, b"\n");
    line
}

/// A line of digits, one of each of so many numbers.
fn numbers_line(digit: Digit, first: u64, columns: usize) -> Line
    requires few { columns ≤ 200 }
    requires fits { first + columns ≤ 2 ^ 64 }
    ensures { result.items ≡ numbers_line (digit_of digit) first columns }
{
    let mut line = ArrayVec::new();
    fill_label(&mut line);
    for place in 0..columns {
        line.push(digit.of(first + place as u64));
    }
    line.push(b'\n');
    line
}

/// The second line: over each number that 10 divides, the digit before its last.
pub(crate) fn tens_line(first: u64, columns: usize) -> Line
    requires some { 0 < columns }
    requires few { columns ≤ 200 }
    requires fits { first + columns ≤ 2 ^ 64 }
    ensures { result.items ≡ tens_line first columns }
{
    let behind = (first + (columns as u64 - 1)) % 10;
    let up_to_tens = columns.saturating_sub(behind as usize);
    if up_to_tens > 0 {
        return numbers_line(Digit::Tens, first, up_to_tens);
    }
    let mut line = ArrayVec::new();
    line.push(b'\n');
    line
}

/// The third line: each number's last digit.
pub(crate) fn ones_line(first: u64, columns: usize) -> Line
    requires few { columns ≤ 200 }
    requires fits { first + columns ≤ 2 ^ 64 }
    ensures { result.items ≡ numbers_line ones first columns }
{
    numbers_line(Digit::Ones, first, columns)
}

/// The wire's word; none of a grant whose level is above 3.
fn word_of(wire: Wire) -> &'static str
    ensures text { HasWord wire → result.now ≡ wire_text wire }
    ensures short { length result.now ≤ 7 }
{
    match wire {
        Wire::Bg(4..) => "",
        _ => wire.word(),
    }
}

/// Begins the row of a wire by its label.
fn push_name(line: &mut Line, wire: &PlanWire)
    requires room { array_vec_len line.old ≡ 0 }
    ensures items { HasWord wire.now.wire
        → line.new.items ≡ wire_name wire.now.driver wire.now.wire }
    ensures len { array_vec_len line.new ≤ 11 }
{
    match wire.driver {
        Driver::Controller => push(line, b"c"),
        Driver::Slot(slot) => push_byte(line, slot),
    }
    push(line, b" ");
    push(line, word_of(wire.wire).as_bytes());
}

/// The row of a wire.
pub(crate) fn wire_line(wire: &PlanWire, color: bool, columns: &[Column]) -> Line
    requires { length columns.now ≤ 200 }
    ensures { HasWord wire.now.wire → result.items ≡ wire_line color columns.now wire.now }
{
    let mut line = ArrayVec::new();
    push_name(&mut line, wire);
    fill_label(&mut line);
    let mut low = wire.low;
    for column in columns {
        let mark = column.wire_mark(wire.driver, wire.wire, low);
        push_ink(&mut line, color, mark);
        low = column.low_after(wire.driver, wire.wire, low);
    }
    line.push(b'\n');
    line
}

impl Topic {
    /// The label of its row.
    fn name(self) -> &'static str
        ensures text { result.now ≡ topic_name self }
        ensures short { length result.now ≤ 11 }
    {
        match self {
            Topic::GrantAt => "grant at",
            Topic::Holder => "holder",
            Topic::Shown => "shown",
            Topic::Verdict => "verdict",
        }
    }
}

/// The row of what is so after each edge.
pub(crate) fn topic_line(topic: Topic, color: bool, columns: &[Column]) -> Line
    requires { length columns.now ≤ 200 }
    ensures { result.items ≡ topic_line color columns.now topic }
{
    let mut line = ArrayVec::new();
    push(&mut line, topic.name().as_bytes());
    fill_label(&mut line);
    for column in columns {
        push_ink(&mut line, color, column.mark(topic));
    }
    line.push(b'\n');
    line
}
