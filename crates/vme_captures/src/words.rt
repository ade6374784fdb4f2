//! What a line of a capture says, read word by word. `specs/Spelling.antt` has the spellings.
ghost use Rattle.std.specs.Prelude.{◌≡◌, ◌≤◌, IsTrue, length};
ghost use Rattle.std.specs.List.{position_or_len};
ghost use Rattle.vme_model.specs.Signals.{is_level, is_slot};
ghost use Rattle.vme_captures.specs.Signals.{is_line};
ghost use Rattle.vme_captures.specs.Spelling.{line_name, may_be_low, pin_name};
ghost use Rattle.vme_captures.specs.Words.{change_of, change_with, entry_of, is_byte, is_sign, is_space, line_named, low_of, nothing_of, number_with, pin_of, shown_of, side_named, signal_of, status_of, value_of};

use crate::signals::{Change, Entry, Line, Pin, Side, Signal, Value};
use memchr::{memchr, memchr2};
use vme_model::{ChainId, Cycle};
use vme_moments::number_of;

/// The shared lines.
const LINES: [Line; 17] = [
    Line::Br(0),
    Line::Br(1),
    Line::Br(2),
    Line::Br(3),
    Line::Irq(1),
    Line::Irq(2),
    Line::Irq(3),
    Line::Irq(4),
    Line::Irq(5),
    Line::Irq(6),
    Line::Irq(7),
    Line::Bbsy,
    Line::AddressStrobe,
    Line::DataStrobe,
    Line::Dtack,
    Line::Berr,
    Line::Bclr,
];

/// The pins of a slot.
const SIDES: [(ChainId, Side); 10] = [
    (ChainId::Bg0, Side::In),
    (ChainId::Bg1, Side::In),
    (ChainId::Bg2, Side::In),
    (ChainId::Bg3, Side::In),
    (ChainId::Iack, Side::In),
    (ChainId::Bg0, Side::Out),
    (ChainId::Bg1, Side::Out),
    (ChainId::Bg2, Side::Out),
    (ChainId::Bg3, Side::Out),
    (ChainId::Iack, Side::Out),
];

impl Line {
    /// The name that captures use for the line. There has to be such a line.
    pub fn name(self) -> &'static str
        requires { IsTrue (is_line self) }
        ensures text { result.now ≡ line_name self }
        ensures short { length result.now ≤ 5 }
    {
        match self {
            Line::Br(0) => "BR0",
            Line::Br(1) => "BR1",
            Line::Br(2) => "BR2",
            Line::Br(_) => "BR3",
            Line::Irq(1) => "IRQ1",
            Line::Irq(2) => "IRQ2",
            Line::Irq(3) => "IRQ3",
            Line::Irq(4) => "IRQ4",
            Line::Irq(5) => "IRQ5",
            Line::Irq(6) => "IRQ6",
            Line::Irq(_) => "IRQ7",
            Line::Bbsy => "BBSY",
            Line::AddressStrobe => "AS",
            Line::DataStrobe => "DS",
            Line::Dtack => "DTACK",
            Line::Berr => "BERR",
            Line::Bclr => "BCLR",
        }
    }
}

/// The name that captures use for a pin, without its slot.
pub(crate) fn pin_name(chain: ChainId, side: Side) -> &'static str
    ensures text { result.now ≡ pin_name chain side }
    ensures short { length result.now ≤ 7 }
{
    match (chain, side) {
        (ChainId::Bg0, Side::In) => "BG0IN",
        (ChainId::Bg1, Side::In) => "BG1IN",
        (ChainId::Bg2, Side::In) => "BG2IN",
        (ChainId::Bg3, Side::In) => "BG3IN",
        (ChainId::Iack, Side::In) => "IACKIN",
        (ChainId::Bg0, Side::Out) => "BG0OUT",
        (ChainId::Bg1, Side::Out) => "BG1OUT",
        (ChainId::Bg2, Side::Out) => "BG2OUT",
        (ChainId::Bg3, Side::Out) => "BG3OUT",
        (ChainId::Iack, Side::Out) => "IACKOUT",
    }
}

/// The line of a name, if there is one.
#[tactic(auto, unfolding(crate::specs::Words::line_named))]
fn line_named(word: &[u8]) -> Option<Line>
    ensures { result ≡ line_named word.now }
{
    LINES
        .iter()
        .copied()
        .find(|line| word == line.name().as_bytes())
}

/// The chain and side of a pin's name without its slot, if there is one.
#[tactic(auto, unfolding(crate::specs::Words::side_named))]
fn side_named(word: &[u8]) -> Option<(ChainId, Side)>
    ensures { result ≡ side_named word.now }
{
    SIDES
        .iter()
        .copied()
        .find(|(chain, side)| word == pin_name(*chain, *side).as_bytes())
}

/// The slot that digits spell, if they spell one.
fn slot_of(digits: &[u8]) -> Option<u8>
    ensures { result ≡ number_with is_slot digits.now }
{
    match number_of(digits) {
        Some(slot @ 1..=21) => Some(slot as u8),
        _ => None,
    }
}

/// The interrupt level that digits spell, if they spell one.
fn level_of(digits: &[u8]) -> Option<u8>
    ensures { result ≡ number_with is_level digits.now }
{
    match number_of(digits) {
        Some(level @ 1..=7) => Some(level as u8),
        _ => None,
    }
}

/// The byte that digits spell, if they spell one.
fn byte_of(digits: &[u8]) -> Option<u8>
    ensures { result ≡ number_with is_byte digits.now }
{
    match number_of(digits) {
        Some(byte @ 0..=255) => Some(byte as u8),
        _ => None,
    }
}

/// The place of the first space, or the length if there is none.
#[tactic(auto, using(std::proofs::lemmas::List::Sums::position_or_len_is))]
fn space_in(text: &[u8]) -> usize
    ensures place { result ≡ position_or_len is_space text.now }
    ensures bound { result ≤ length text.now }
{
    memchr(b' ', text).unwrap_or(text.len())
}

/// The place of the first sign, or the length if there is none.
#[tactic(auto, using(std::proofs::lemmas::List::Sums::position_or_len_is))]
fn sign_in(text: &[u8]) -> usize
    ensures place { result ≡ position_or_len is_sign text.now }
    ensures bound { result ≤ length text.now }
{
    memchr2(b'-', b'+', text).unwrap_or(text.len())
}

/// The pin that a text spells: its slot, a space, and its name.
#[tactic(auto, unfolding(crate::specs::Words::pin_of))]
fn pin_of(text: &[u8]) -> Option<Pin>
    ensures { result ≡ pin_of text.now }
{
    let space = space_in(text);
    if space >= text.len() {
        return None;
    }
    let slot = slot_of(&text[..space])?;
    let (chain, side) = side_named(&text[space + 1..])?;
    Some(Pin { slot, chain, side })
}

/// The line or pin that a text spells.
#[tactic(auto, unfolding(crate::specs::Words::signal_of))]
fn signal_of(text: &[u8]) -> Option<Signal>
    ensures { result ≡ signal_of text.now }
{
    match line_named(text) {
        Some(line) => Some(Signal::Line(line)),
        None => match pin_of(text) {
            Some(pin) => Some(Signal::Pin(pin)),
            None => None,
        },
    }
}

/// What is shown at a fall of AS*, by the text behind its sign.
fn shown_of(text: &[u8]) -> Option<Value>
    ensures { result ≡ shown_of text.now }
{
    match text {
        [b' ', b'r'] => Some(Value::Access),
        [b' ', b'r', digits @ ..] => Some(Value::Shown(Cycle::Access(slot_of(digits)?))),
        [b' ', b'i', digits @ ..] => Some(Value::Shown(Cycle::Acknowledge(level_of(digits)?))),
        _ => None,
    }
}

/// The status byte at a fall of DTACK*, by the text behind its sign.
fn status_of(text: &[u8]) -> Option<Value>
    ensures { result ≡ status_of text.now }
{
    match text {
        [b' ', digits @ ..] => Some(Value::Status(byte_of(digits)?)),
        _ => None,
    }
}

/// No value, if no text stands behind the sign.
fn nothing_of(text: &[u8]) -> Option<Option<Value>>
    ensures { result ≡ nothing_of text.now }
{
    if text.is_empty() { Some(None) } else { None }
}

/// What is seen with a change, by the text behind its sign.
fn value_of(signal: Signal, fall: bool, text: &[u8]) -> Option<Option<Value>>
    ensures { result ≡ value_of signal fall text.now }
{
    match (signal, fall) {
        (Signal::Line(Line::AddressStrobe), true) => Some(Some(shown_of(text)?)),
        (Signal::Line(Line::Dtack), true) if !text.is_empty() => Some(Some(status_of(text)?)),
        _ => nothing_of(text),
    }
}

/// The change that a text spells.
#[tactic(auto, unfolding(crate::specs::Words::change_of))]
fn change_of(text: &[u8]) -> Option<Change>
    ensures { result ≡ change_of text.now }
{
    let place = sign_in(text);
    if place >= text.len() {
        return None;
    }
    let fall = text[place] == b'-';
    let signal = signal_of(&text[..place])?;
    let value = value_of(signal, fall, &text[place + 1..])?;
    Some(Change {
        signal,
        fall,
        value,
    })
}

/// Whether a capture may say that this was low at the beginning: AS* and DS* were high.
fn may_be_low(signal: Signal) -> bool
    ensures { result ≡ may_be_low signal }
{
    !matches!(
        signal,
        Signal::Line(Line::AddressStrobe) | Signal::Line(Line::DataStrobe)
    )
}

/// The line or pin that a text spells, if it may be low at the beginning.
#[tactic(auto, unfolding(crate::specs::Words::low_of))]
fn low_of(text: &[u8]) -> Option<Signal>
    ensures { result ≡ low_of text.now }
{
    let signal = signal_of(text)?;
    if may_be_low(signal) {
        Some(signal)
    } else {
        None
    }
}

/// What a line of a capture says, given without its line feed; none if it says nothing that a line
/// below the header line may say. `specs/Spelling.antt` has the spellings.
#[tactic(auto, unfolding(crate::specs::Words::entry_of))]
pub fn entry_of(line: &[u8]) -> Option<Entry>
    ensures { result ≡ entry_of line.now }
{
    if line == b"running".as_slice() {
        return Some(Entry::Running);
    }
    match line {
        [b'p', b'i', b'n', b' ', rest @ ..] => Some(Entry::Pin(pin_of(rest)?)),
        [b'l', b'o', b'w', b' ', rest @ ..] => Some(Entry::Low(low_of(rest)?)),
        [b'@', digits @ ..] => Some(Entry::Moment(number_of(digits)?)),
        _ => Some(Entry::Change(change_of(line)?)),
    }
}
