//! Where a bus stands, and the block that says it.
ghost use Rattle.std.specs.Prelude.{◌≡◌, ◌+◌, ◌<◌, ◌≤◌, ◌++◌, ◌∷◌, [], ℕ, List, length, max, IfErr, OnOk, OnErr};
ghost use Rattle.std.specs.Io.KnownBytes.{Appends};
ghost use Rattle.arrayvec.specs.ArrayVec.{array_vec_len};
ghost use Rattle.vme_model.specs.Text.{HasWord, sign};
ghost use Rattle.vme_model.specs.Stands.{after_text, asks_text, at_level, grant_text, holder_text, is_later_access, lines_of, listed, low_text, open_line, open_text, pending_text, shown_text, stands_text};
ghost use Rattle.vme_trace.specs.Writing.{AppendsFront};
ghost use Rattle.vme_explain.specs.Traced.{OfTrace};
ghost use Rattle.vme_explain.specs.Standing.{bus_text, drivers_text, topic_text};

use crate::Marks;
use crate::boards::{interrupter_of, requester_of};
use crate::drivers::{is_pending, since};
use crate::texts::{push_argument, push_driver, push_since};
use crate::wires::holds_low;
use arrayvec::ArrayVec;
use std::io::Write;
use vme_bus::Bus;
use vme_model::{Cycle, Driver, Edge, Wire};
use vme_text::{push, push_number};
use vme_trace::{Fault, put};

/// Room for any line: a driver's has a word, with a comma and a blank, for each of its open edges,
/// of which there are 36 at most.
const LINE: usize = 680;

/// A line, as far as it was put together.
type Line = ArrayVec<u8, LINE>;

/// Room for the word of an edge: the longest has 13 bytes.
const WORD: usize = 16;

/// What a line says of a driver.
#[derive(Clone, Copy)]
enum Topic {
    /// It requests the bus.
    Asks,
    /// Its interrupter is pending.
    Pending,
    /// The wires that it holds low.
    Low,
    /// The edges that it can make.
    Open,
}

/// How many edges there are, and how many were accepted.
fn after_line(n: u64, accepted: u32) -> Line
    ensures { result.items ≡ after_text n accepted }
{
    let mut line = ArrayVec::new();
    push(&mut line, b"after ");
    push_number(&mut line, n);
    push(&mut line, b" accepted ");
    push_number(&mut line, u64::from(accepted));
    line
}

/// Who holds the bus.
fn holder_line(bus: &Bus, marks: &Marks) -> Line
    ensures { OfTrace bus.now marks.now (λ k. result.items ≡ holder_text bus.now k) }
{
    let mut line = ArrayVec::new();
    match bus.holder() {
        None => push(&mut line, b"holder none"),
        Some(slot) => {
            push(&mut line, b"holder ");
            push_number(&mut line, u64::from(slot));
            push_since(&mut line, since(bus, marks, Driver::Slot(slot), Wire::Bbsy));
        }
    }
    line
}

/// Where the grant travels.
fn grant_line(bus: &Bus) -> Line
    ensures { result.items ≡ grant_text bus.now }
{
    let mut line = ArrayVec::new();
    match bus.grant_at() {
        None => push(&mut line, b"grant none"),
        Some(grant) => {
            push(&mut line, b"grant bg");
            push_number(&mut line, u64::from(grant.level));
            push(&mut line, b" at ");
            push_number(&mut line, u64::from(grant.slot));
        }
    }
    line
}

/// What is shown, and who shows it.
fn shown_line(bus: &Bus, marks: &Marks) -> Line
    ensures { OfTrace bus.now marks.now (λ k. result.items ≡ shown_text bus.now k) }
{
    let mut line = ArrayVec::new();
    match bus.addressing() {
        None => push(&mut line, b"shown none"),
        Some(slot) => {
            push(&mut line, b"shown");
            push_argument(&mut line, bus.shown());
            push(&mut line, b" by ");
            push_number(&mut line, u64::from(slot));
            push_since(&mut line, since(bus, marks, Driver::Slot(slot), Wire::Addr));
        }
    }
    line
}

/// A driver with a level, and since when.
fn level_line(first: &str, driver: Driver, level: u8, since: Option<u64>) -> Line
    requires { length first.now ≤ 8 }
    ensures { result.items ≡ at_level first.now driver level since }
{
    let mut line = ArrayVec::new();
    push(&mut line, first.as_bytes());
    push_driver(&mut line, driver);
    push(&mut line, b" level ");
    push_number(&mut line, u64::from(level));
    push_since(&mut line, since);
    line
}

/// Whether the driver requests the bus.
fn asks_line(bus: &Bus, marks: &Marks, driver: Driver) -> Line
    ensures { OfTrace bus.now marks.now (λ k. result.items
        ≡ asks_text bus.now k driver) }
{
    match requester_of(bus, driver) {
        Some(requester) if bus.is_low(driver, Wire::Br) => level_line(
            "asks ",
            driver,
            requester.level,
            since(bus, marks, driver, Wire::Br),
        ),
        _ => ArrayVec::new(),
    }
}

/// Whether the driver's interrupter is pending.
fn pending_line(bus: &Bus, marks: &Marks, driver: Driver) -> Line
    ensures { OfTrace bus.now marks.now (λ k. result.items
        ≡ pending_text bus.now k driver) }
{
    match interrupter_of(bus, driver) {
        Some(interrupter) if is_pending(bus, marks, driver, interrupter) => level_line(
            "pending ",
            driver,
            interrupter.level,
            since(bus, marks, driver, Wire::Irq),
        ),
        _ => ArrayVec::new(),
    }
}

/// Appends a word to a list of them, which begins with `first` and the driver if there are any.
fn push_word(line: &mut Line, first: &str, driver: Driver, word: &[u8])
    requires room { max (array_vec_len line.old) 26 + 2 + length word.now ≤ 680 }
    requires short { length first.now ≤ 5 }
    requires named { 0 < length first.now }
    ensures items { (ws : List (List ℕ)) → line.old.items ≡ listed first.now driver ws
        → line.new.items ≡ listed first.now driver (ws ++ word.now ∷ []) }
    ensures len { array_vec_len line.new ≤ max (array_vec_len line.old) 26 + 2 + length word.now }
{
    if line.is_empty() {
        push(line, first.as_bytes());
        push_driver(line, driver);
        push(line, b" ");
    } else {
        push(line, b", ");
    }
    push(line, word);
}

/// Appends whether an edge is a fall.
fn push_sign(word: &mut ArrayVec<u8, WORD>, fall: bool)
    requires { array_vec_len word.old + 1 ≤ 16 }
    ensures items { word.new.items ≡ word.old.items ++ sign fall }
    ensures len { array_vec_len word.new ≡ array_vec_len word.old + 1 }
{
    word.push(if fall { b'-' } else { b'+' });
}

/// The word of a driver's edge that can be made.
fn word_of(edge: &Edge) -> ArrayVec<u8, WORD>
    requires { HasWord edge.now.wire }
    ensures text { result.items ≡ open_text edge.now }
    ensures short { array_vec_len result ≤ 16 }
{
    let mut word = ArrayVec::new();
    push(&mut word, edge.wire.word().as_bytes());
    push_sign(&mut word, edge.fall);
    match edge.value {
        // all accesses are open, or none
        Some(Cycle::Access(_)) => push(&mut word, b" r1..r21"),
        value => push_argument(&mut word, value),
    }
    word
}

/// The wires that the driver holds low; `shown` says what its address group shows.
fn low_line(bus: &Bus, driver: Driver) -> Line
    ensures { result.items ≡ low_text bus.now driver }
{
    let mut line = ArrayVec::new();
    for wire in driver.wires() {
        if !wire.is_same(Wire::Addr) && holds_low(bus, *wire, driver) {
            push_word(&mut line, "low ", driver, wire.word().as_bytes());
        }
    }
    line
}

/// Whether an edge shows an access to another slot than the first.
fn is_later_access(value: Option<Cycle>) -> bool
    ensures { result ≡ is_later_access value }
{
    matches!(value, Some(Cycle::Access(slot)) if slot > 1)
}

/// The edges that the driver can make.
fn open_line(bus: &Bus, driver: Driver) -> Line
    ensures { result.items ≡ open_line bus.now driver }
{
    let mut line = ArrayVec::new();
    for edge in bus.open_edges(driver).as_slice() {
        if !is_later_access(edge.value) {
            push_word(&mut line, "open ", driver, &word_of(edge));
        }
    }
    line
}

/// What is printed about a driver; nothing if there is nothing to print.
fn topic_line(bus: &Bus, marks: &Marks, topic: Topic, driver: Driver) -> Line
    ensures { OfTrace bus.now marks.now (λ k. result.items
        ≡ topic_text topic bus.now k driver) }
{
    match topic {
        Topic::Asks => asks_line(bus, marks, driver),
        Topic::Pending => pending_line(bus, marks, driver),
        Topic::Low => low_line(bus, driver),
        Topic::Open => open_line(bus, driver),
    }
}

/// Writes a line, and its line feed.
fn write_line<W: Write>(line: &Line, out: &mut W) -> Result<(), Fault>
    ensures ok { OnOk result
        (Appends (W.contents out.old) (W.contents out.new) (line.now.items ++ 10 ∷ [])) }
    ensures front { OnErr result
        (AppendsFront (W.contents out.old) (W.contents out.new) (line.now.items ++ 10 ∷ [])) }
    ensures fault { IfErr result (λ fault. fault ≡ Fault.Write) }
{
    put(out, line.as_slice())?;
    put(out, b"\n")
}

/// Writes what is printed about the whole bus.
fn write_bus<W: Write>(n: u64, bus: &Bus, marks: &Marks, out: &mut W) -> Result<(), Fault>
    ensures ok { OnOk result (OfTrace bus.now marks.now (λ k.
        Appends (W.contents out.old) (W.contents out.new) (bus_text n bus.now k))) }
    ensures front { OnErr result (OfTrace bus.now marks.now (λ k.
        AppendsFront (W.contents out.old) (W.contents out.new) (bus_text n bus.now k))) }
    ensures fault { IfErr result (λ fault. fault ≡ Fault.Write) }
{
    write_line(&after_line(n, bus.len()), out)?;
    write_line(&holder_line(bus, marks), out)?;
    write_line(&grant_line(bus), out)?;
    write_line(&shown_line(bus, marks), out)
}

/// Writes a line for each driver of which there is something to push_witness.
fn write_lines<W: Write>(bus: &Bus, marks: &Marks, topic: Topic, out: &mut W) -> Result<(), Fault>
    ensures ok { OnOk result (OfTrace bus.now marks.now (λ k.
        Appends (W.contents out.old) (W.contents out.new)
        (lines_of bus.now (topic_text topic bus.now k)))) }
    ensures front { OnErr result (OfTrace bus.now marks.now (λ k.
        AppendsFront (W.contents out.old) (W.contents out.new)
        (lines_of bus.now (topic_text topic bus.now k)))) }
    ensures fault { IfErr result (λ fault. fault ≡ Fault.Write) }
{
    let drivers = bus.plan().drivers();
    for driver in drivers.as_slice() {
        let line = topic_line(bus, marks, topic, *driver);
        if !line.is_empty() {
            write_line(&line, out)?;
        }
    }
    Ok(())
}

/// Writes what is printed about the drivers.
fn write_drivers<W: Write>(bus: &Bus, marks: &Marks, out: &mut W) -> Result<(), Fault>
    ensures ok { OnOk result (OfTrace bus.now marks.now (λ k.
        Appends (W.contents out.old) (W.contents out.new) (drivers_text bus.now k))) }
    ensures front { OnErr result (OfTrace bus.now marks.now (λ k.
        AppendsFront (W.contents out.old) (W.contents out.new) (drivers_text bus.now k))) }
    ensures fault { IfErr result (λ fault. fault ≡ Fault.Write) }
{
    write_lines(bus, marks, Topic::Asks, out)?;
    write_lines(bus, marks, Topic::Pending, out)?;
    write_lines(bus, marks, Topic::Low, out)?;
    write_lines(bus, marks, Topic::Open, out)
}

/// Writes where the bus stands behind the first `n` edges of a trace, of which the bus took in
/// those that were accepted, and the marks are of these: how many there are, who holds the bus,
/// where the grant travels and what is shown; and of the drivers, the controller first and then by
/// slot, who asks, whose interrupter is pending, the wires that each holds low, and the edges that
/// each can make.
///
/// # Errors
/// X8 if a write failed or took no byte; a front of the block was then written.
pub fn write_stands<W: Write>(n: u64, bus: &Bus, marks: &Marks, out: &mut W) -> Result<(), Fault>
    ensures ok { OnOk result (OfTrace bus.now marks.now (λ k.
        Appends (W.contents out.old) (W.contents out.new) (stands_text n bus.now k))) }
    ensures front { OnErr result (OfTrace bus.now marks.now (λ k.
        AppendsFront (W.contents out.old) (W.contents out.new) (stands_text n bus.now k))) }
    ensures fault { IfErr result (λ fault. fault ≡ Fault.Write) }
{
    write_bus(n, bus, marks, out)?;
    write_drivers(bus, marks, out)
}
