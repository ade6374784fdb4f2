//! Which edge a line spells.
ghost use Rattle.std.specs.Prelude.{◌≡◌, ◌+◌, ◌<◌, ◌≤◌, length, IsTrue};
ghost use Rattle.std.specs.Str.{bytes_eq};
ghost use Rattle.vme_model.specs.Signals.{is_well_formed};
ghost use Rattle.vme_model.specs.Text.{edge_of, spelling};
ghost use Rattle.vme_trace.specs.Decoding as spec;

use crate::writer::spelling_of;
use vme_model::{Cycle, Driver, Edge, Wire};

/// The edge that the line spells, if there is one.
pub(crate) fn edge_of(line: &[u8]) -> Option<Edge>
    ensures { result ≡ edge_of line.now }
{
    let Some(edge) = guess(line) else {
        return None;
    };
    if !edge.is_well_formed() {
        return None;
    }
    if spells(line, &edge) {
        Some(edge)
    } else {
        None
    }
}

/// Whether the line is the spelling of the edge.
fn spells(line: &[u8], edge: &Edge) -> bool
    requires { IsTrue (is_well_formed edge.now) }
    ensures { result ≡ bytes_eq line.now (spelling edge.now) }
{
    line == spelling_of(edge).as_slice()
}

/// The number of a digit.
fn digit(byte: u8) -> u8
    ensures { result ≡ spec.digit byte }
{
    byte.saturating_sub(b'0')
}

/// The number of two digits, the first of them 1 or 2.
fn two_digits(tens: u8, ones: u8) -> u8
    ensures { result ≡ spec.two_digits tens ones }
{
    (if tens == b'2' { 20 } else { 10 }) + digit(ones)
}

/// The wire of the controller whose word can begin so.
fn control_wire(first: u8, second: u8, third: u8) -> Wire
    ensures { result ≡ spec.control_wire first second third }
{
    if first == b'i' {
        Wire::Iack
    } else if second == b'g' {
        Wire::Bg(digit(third))
    } else if second == b'c' {
        Wire::Bclr
    } else {
        Wire::Berr
    }
}

/// The wire of a board whose word can begin so.
fn board_wire(first: u8, second: u8) -> Wire
    ensures { result ≡ spec.board_wire first second }
{
    match (first, second) {
        (b'b', b'r') => Wire::Br,
        (b'b', b'g') => Wire::BgOut,
        (b'b', _) => Wire::Bbsy,
        (b'a', b'd') => Wire::Addr,
        (b'a', _) => Wire::AddressStrobe,
        (b'd', b's') => Wire::DataStrobe,
        (b'd', _) => Wire::Dtack,
        (_, b'r') => Wire::Irq,
        _ => Wire::IackOut,
    }
}

/// What a line shows at a place: `i` or `r`, and a number.
fn cycle_at(line: &[u8], place: usize) -> Cycle
    requires { place + 1 < length line.now }
    ensures { result ≡ spec.cycle_at line.now place }
{
    if line[place] == b'i' {
        Cycle::Acknowledge(digit(line[place + 1]))
    } else if line.len() == place + 2 {
        Cycle::Access(digit(line[place + 1]))
    } else {
        Cycle::Access(two_digits(line[place + 1], line[place + 2]))
    }
}

/// An edge without a value.
fn plain_edge(driver: Driver, wire: Wire, sign: u8) -> Edge
    ensures { result ≡ spec.plain_edge driver wire sign }
{
    Edge {
        driver,
        wire,
        fall: sign == b'-',
        value: None,
    }
}

/// The fall of an address group that shows what stands at a place.
fn shown_edge(driver: Driver, line: &[u8], place: usize) -> Option<Edge>
    requires { place < 16 }
    ensures { result ≡ spec.shown_edge driver line.now place }
{
    if line.len() < place + 2 {
        return None;
    }
    Some(Edge {
        driver,
        wire: Wire::Addr,
        fall: true,
        value: Some(cycle_at(line, place)),
    })
}

/// Whether a line whose word begins so, and which ends so, can be a fall of an address group.
fn shows_cycle(first: u8, second: u8, last: u8) -> bool
    ensures { result ≡ spec.shows_cycle first second last }
{
    first == b'a' && second == b'd' && last != b'+'
}

/// The edge of a board that a line can spell, whose word begins at a place.
fn board_edge(slot: u8, line: &[u8], place: usize) -> Option<Edge>
    requires short { place < 4 }
    requires within { place + 1 < length line.now }
    ensures { result ≡ spec.board_edge slot line.now place }
{
    let driver = Driver::Slot(slot);
    let (first, second, last) = (line[place], line[place + 1], line[line.len() - 1]);
    if shows_cycle(first, second, last) {
        shown_edge(driver, line, place + 6)
    } else {
        Some(plain_edge(driver, board_wire(first, second), last))
    }
}

/// The one edge that a line can spell, by few of its bytes.
#[tactic(auto, unfolding(crate::specs::Decoding::guess))]
fn guess(line: &[u8]) -> Option<Edge>
    ensures { result ≡ spec.guess line.now }
{
    if line.len() < 5 {
        return None;
    }
    if line[0] == b'c' {
        let wire = control_wire(line[2], line[3], line[4]);
        Some(plain_edge(Driver::Controller, wire, line[line.len() - 1]))
    } else if line[1] == b' ' {
        board_edge(digit(line[0]), line, 2)
    } else {
        board_edge(two_digits(line[0], line[1]), line, 3)
    }
}
