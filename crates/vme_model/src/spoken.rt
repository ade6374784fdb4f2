//! The text of a condition, for an edge.
ghost use Rattle.std.specs.Prelude.{◌≡◌, ◌+◌, ◌≤◌, ◌++◌, length, decimal, IsTrue};
ghost use Rattle.arrayvec.specs.ArrayVec.{array_vec_len};
ghost use Rattle.vme_model.specs.Signals.{is_well_formed};
ghost use Rattle.vme_model.specs.Spoken.{level_of, service_text, board_text, kind_text, moved_text, part_text, pattern, condition_text};

use crate::boards::{IrqKind, Row};
use crate::conditions::Condition;
use crate::signals::{Cycle, Driver, Edge, Wire};
use arrayvec::ArrayVec;
use vme_text::{push, push_byte};

/// Room for the text of any condition, in bytes: the longest has 45.
const TEXT: usize = 48;

/// The text as a line, with nothing added.
fn text_of(text: &str) -> ArrayVec<u8, TEXT>
    requires { length text.now ≤ 48 }
    ensures { result.items ≡ text.now }
{
    let mut line = ArrayVec::new();
    push(&mut line, text.as_bytes());
    line
}

/// A text, and a number after it.
fn with_number(text: &str, n: u8) -> ArrayVec<u8, TEXT>
    requires { length text.now ≤ 40 }
    ensures items { result.items ≡ text.now ++ decimal n }
    ensures len { array_vec_len result ≤ length text.now + 3 }
{
    let mut line = ArrayVec::new();
    push(&mut line, text.as_bytes());
    push_byte(&mut line, n);
    line
}

/// The level of an acknowledge, or 0 for anything else.
fn level_of(value: Option<Cycle>) -> u8
    ensures { result ≡ level_of value }
{
    match value {
        Some(Cycle::Acknowledge(level)) => level,
        _ => 0,
    }
}

impl IrqKind {
    /// The text that says that an interrupter of this kind was served.
    pub fn service_text(self) -> &'static str
        ensures text { result.now ≡ kind_text self }
        ensures short { length result.now ≤ 48 }
    {
        match self {
            IrqKind::Roak => "the request was served by an acknowledge",
            IrqKind::Rora => "the request was served by an access",
        }
    }
}

/// The text that says what serves the board's interrupter; empty if it has none.
fn service_text(board: Option<Row>) -> &'static str
    ensures text { result.now ≡ service_text board }
    ensures short { length result.now ≤ 48 }
{
    match board {
        Some(
            Row {
                interrupter: Some(interrupter),
                ..
            },
        ) => interrupter.kind.service_text(),
        _ => "",
    }
}

impl Wire {
    /// The text that says which part of a board drives the wire.
    pub fn part_text(self) -> &'static str
        ensures text { result.now ≡ part_text self }
        ensures short { length result.now ≤ 48 }
    {
        match self {
            Wire::Irq | Wire::IackOut => "the board has an interrupter",
            _ => "the board has a requester",
        }
    }
}

/// The text that says what the wire needs in its slot: a board, or one of its parts.
pub fn board_text(wire: Wire, board: Option<Row>) -> &'static str
    ensures text { result.now ≡ board_text wire board }
    ensures short { length result.now ≤ 48 }
{
    match board {
        None => "the slot has a board",
        Some(_) => wire.part_text(),
    }
}

/// The text that says which state the edge's wire has to be in.
fn moved_text(edge: &Edge) -> ArrayVec<u8, TEXT>
    requires { IsTrue (is_well_formed edge.now) }
    ensures { result.items ≡ moved_text edge.now }
{
    let mut line = ArrayVec::new();
    match edge.driver {
        Driver::Controller => push(&mut line, b"c"),
        Driver::Slot(slot) => push_byte(&mut line, slot),
    }
    push(&mut line, b" ");
    push(&mut line, edge.wire.word().as_bytes());
    push(&mut line, b" is ");
    push(&mut line, edge.wire.state(!edge.fall).as_bytes());
    line
}

impl Condition {
    /// The condition's text for any edge, with N for a level. It is empty if the text depends on
    /// more: on what serves an interrupter, on which board there is, or on the edge's wire.
    pub fn pattern(self) -> &'static str
        ensures text { result.now ≡ pattern self }
        ensures short { length result.now ≤ 48 }
    {
        match self {
            Condition::Picked => "the arbiter picks level N",
            Condition::Handled => "the board handles level N",
            Condition::InterruptLow => "IRQN* is low",
            Condition::Pending => "pending at level N",
            Condition::NotPending => "not pending at level N",
            _ => self.fixed_text().unwrap_or(""),
        }
    }

    /// The condition's text for a well-formed edge. The text depends on the board in the edge's
    /// slot and on what is shown before the edge. docs/COMMANDS.md lists the texts.
    pub fn text(self, edge: &Edge, board: Option<Row>, shown: Option<Cycle>) -> ArrayVec<u8, TEXT>
        requires { IsTrue (is_well_formed edge.now) }
        ensures { result.items ≡ condition_text self edge.now board shown }
    {
        match self {
            Condition::Picked => {
                with_number("the arbiter picks level ", edge.wire.grant_level())
            }
            Condition::Handled => with_number("the board handles level ", level_of(edge.value)),
            Condition::InterruptLow => {
                let mut line = with_number("IRQ", level_of(edge.value));
                push(&mut line, b"* is low");
                line
            }
            Condition::Pending => with_number("pending at level ", level_of(shown)),
            Condition::NotPending => with_number("not pending at level ", level_of(shown)),
            Condition::Served => text_of(service_text(board)),
            Condition::HasDriver => text_of(board_text(edge.wire, board)),
            Condition::OtherState => moved_text(edge),
            _ => match self.fixed_text() {
                Some(text) => text_of(text),
                None => ArrayVec::new(),
            },
        }
    }
}
