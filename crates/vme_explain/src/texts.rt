//! The lines of a block, each put together in a buffer.
ghost use Rattle.std.specs.Prelude.{◌≡◌, ◌+◌, ◌≤◌, ◌++◌, codes, length};
ghost use Rattle.arrayvec.specs.ArrayVec.{array_vec_len};
ghost use Rattle.vme_model.specs.Report.{delivery_text, verdict_text};
ghost use Rattle.vme_model.specs.Spoken.{driver_name, state_text};
ghost use Rattle.vme_model.specs.Text.{HasWord, number, argument, wire_text};
ghost use Rattle.vme_model.specs.Why.{since_text, level_text, pick_text, witness_text};
ghost use Rattle.vme_explain.specs.Blocks.{IsSpoken, witness_line};

use arrayvec::ArrayVec;
use vme_model::{Cycle, Delivery, Driver, Refused, Wire, Witness};
use vme_text::{push, push_byte, push_number};

/// Room for any line: the longest has a number of 20 digits, an edge of 12 bytes, and a verdict of
/// 37.
pub const LINE: usize = 80;

/// Appends what is written of a delivery.
fn push_delivery<const N: usize>(line: &mut ArrayVec<u8, N>, delivery: &Delivery)
    requires { array_vec_len line.old + 37 ≤ N }
    ensures items { line.new.items ≡ line.old.items ++ delivery_text delivery.now }
    ensures len { array_vec_len line.new ≤ array_vec_len line.old + 37 }
{
    push(line, b"ok irq ");
    push_byte(line, delivery.level);
    push(line, b" to ");
    push_byte(line, delivery.handler);
    push(line, b" from ");
    push_byte(line, delivery.answered_by);
    push(line, b" status ");
    push_byte(line, delivery.status);
}

/// Appends what is written of an answer to an edge: at most 37 bytes.
pub fn push_verdict<const N: usize>(
    line: &mut ArrayVec<u8, N>,
    answer: &Result<Option<Delivery>, Refused>,
)
    requires { array_vec_len line.old + 37 ≤ N }
    ensures items { line.new.items ≡ line.old.items ++ verdict_text answer.now }
    ensures len { array_vec_len line.new ≤ array_vec_len line.old + 37 }
{
    match answer {
        Ok(None) => push(line, b"ok"),
        Ok(Some(delivery)) => push_delivery(line, delivery),
        Err(Refused::NoSuchDriver) => push(line, b"E1"),
        Err(Refused::AlreadyThere) => push(line, b"E2"),
        Err(Refused::Rule(rule)) => {
            push(line, b"E3 G");
            push_byte(line, *rule);
        }
        Err(Refused::NotSettled(rule)) => {
            push(line, b"E4 S");
            push_byte(line, *rule);
        }
        Err(Refused::TraceFull) => push(line, b"E5"),
    }
}

/// Appends a driver's name: at most 3 bytes.
pub(crate) fn push_driver<const N: usize>(line: &mut ArrayVec<u8, N>, driver: Driver)
    requires { array_vec_len line.old + 3 ≤ N }
    ensures items { line.new.items ≡ line.old.items ++ driver_name driver }
    ensures len { array_vec_len line.new ≤ array_vec_len line.old + 3 }
{
    match driver {
        Driver::Controller => push(line, b"c"),
        Driver::Slot(slot) => push_byte(line, slot),
    }
}

/// Appends a level or a slot as a trace spells it: at most 2 bytes.
fn push_place<const N: usize>(line: &mut ArrayVec<u8, N>, n: u8)
    requires { array_vec_len line.old + 2 ≤ N }
    ensures items { line.new.items ≡ line.old.items ++ number n }
    ensures len { array_vec_len line.new ≤ array_vec_len line.old + 2 }
{
    if n >= 10 {
        line.push(b'0' + n / 10);
    }
    line.push(b'0' + n % 10);
}

/// Appends what is shown, behind a blank: at most 4 bytes.
pub(crate) fn push_argument<const N: usize>(line: &mut ArrayVec<u8, N>, value: Option<Cycle>)
    requires { array_vec_len line.old + 4 ≤ N }
    ensures items { line.new.items ≡ line.old.items ++ argument value }
    ensures len { array_vec_len line.new ≤ array_vec_len line.old + 4 }
{
    match value {
        None => {}
        Some(Cycle::Acknowledge(level)) => {
            push(line, b" i");
            push_place(line, level);
        }
        Some(Cycle::Access(slot)) => {
            push(line, b" r");
            push_place(line, slot);
        }
    }
}

/// Appends a level, if one is printed: at most 10 bytes.
fn push_level<const N: usize>(line: &mut ArrayVec<u8, N>, level: Option<u8>)
    requires { array_vec_len line.old + 10 ≤ N }
    ensures items { line.new.items ≡ line.old.items ++ level_text level }
    ensures len { array_vec_len line.new ≤ array_vec_len line.old + 10 }
{
    if let Some(level) = level {
        push(line, b" level ");
        push_byte(line, level);
    }
}

/// Appends the number of an edge, if there is one: at most 27 bytes.
pub(crate) fn push_since<const N: usize>(line: &mut ArrayVec<u8, N>, since: Option<u64>)
    requires { array_vec_len line.old + 27 ≤ N }
    ensures items { line.new.items ≡ line.old.items ++ since_text since }
    ensures len { array_vec_len line.new ≤ array_vec_len line.old + 27 }
{
    if let Some(since) = since {
        push(line, b" since ");
        push_number(line, since);
    }
}

/// Appends what the arbiter picks: at most 9 bytes.
fn push_pick<const N: usize>(line: &mut ArrayVec<u8, N>, level: Option<u8>)
    requires { array_vec_len line.old + 9 ≤ N }
    ensures items { line.new.items ≡ line.old.items ++ pick_text level }
    ensures len { array_vec_len line.new ≤ array_vec_len line.old + 9 }
{
    match level {
        None => push(line, b"pick none"),
        Some(level) => {
            push(line, b"pick ");
            push_byte(line, level);
        }
    }
}

/// The wire's word; none of a grant whose level is above 3.
fn word_of(wire: Wire) -> &'static str
    ensures text { HasWord wire → result.now ≡ wire_text wire }
    ensures short { length result.now ≤ 7 }
{
    match wire {
        Wire::Bg(4..) => "",
        _ => wire.word(),
    }
}

/// Appends a driver's wire and its state: at most 16 bytes.
fn push_state<const N: usize>(line: &mut ArrayVec<u8, N>, driver: Driver, wire: Wire, low: bool)
    requires { array_vec_len line.old + 16 ≤ N }
    ensures items { HasWord wire → line.new.items
        ≡ line.old.items ++ (((driver_name driver ++ codes " ") ++ wire_text wire) ++ codes " ")
        ++ state_text wire low }
    ensures len { array_vec_len line.new ≤ array_vec_len line.old + 16 }
{
    push_driver(line, driver);
    push(line, b" ");
    push(line, word_of(wire).as_bytes());
    push(line, b" ");
    push(line, wire.state(low).as_bytes());
}

/// Appends how many cycles a board made of its burst: at most 38 bytes.
fn push_cycles<const N: usize>(line: &mut ArrayVec<u8, N>, driver: Driver, made: u64, burst: u8)
    requires { array_vec_len line.old + 38 ≤ N }
    ensures items { line.new.items
        ≡ line.old.items ++ witness_text (Witness.Cycles driver made burst) }
    ensures len { array_vec_len line.new ≤ array_vec_len line.old + 38 }
{
    push_driver(line, driver);
    push(line, b" cycles ");
    push_number(line, made);
    push(line, b" of ");
    push_byte(line, burst);
}

/// Appends a witness: at most 57 bytes. What it appends is not said of a wire without a word.
fn push_witness<const N: usize>(line: &mut ArrayVec<u8, N>, witness: &Witness)
    requires { array_vec_len line.old + 57 ≤ N }
    ensures items { IsSpoken witness.now
        → line.new.items ≡ line.old.items ++ witness_text witness.now }
    ensures len { array_vec_len line.new ≤ array_vec_len line.old + 57 }
{
    match *witness {
        Witness::Wire {
            driver,
            wire,
            low,
            value,
            level,
            since,
        } => {
            push_state(line, driver, wire, low);
            push_argument(line, value);
            push_level(line, level);
            push_since(line, since);
        }
        Witness::Granted { level, since } => {
            push(line, b"level last granted ");
            push_byte(line, level);
            push_since(line, since);
        }
        Witness::Picks { level } => push_pick(line, level),
        Witness::Cycles {
            driver,
            made,
            burst,
        } => push_cycles(line, driver, made, burst),
        Witness::Served { driver, since } => {
            push_driver(line, driver);
            push(line, b" served since ");
            push_number(line, since);
        }
        Witness::Strobed { driver, at } => {
            push_driver(line, driver);
            push(line, b" ds- at ");
            push_number(line, at);
        }
    }
}

/// The line of a witness, behind four blanks.
pub(crate) fn witness_line(witness: &Witness) -> ArrayVec<u8, LINE>
    ensures { IsSpoken witness.now → result.items ≡ witness_line witness.now }
{
    let mut line = ArrayVec::new();
    push(&mut line, b"    ");
    push_witness(&mut line, witness);
    push(&mut line, b"\n");
    line
}
