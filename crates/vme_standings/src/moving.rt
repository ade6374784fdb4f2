//! What a change moves.
ghost use Rattle.std.specs.Prelude.{◌≡◌, ◌<◌, IsTrue, unwrap_or};
ghost use Rattle.vme_captures.specs.Signals.{is_signal};
ghost use Rattle.vme_captures.specs.Wires.{wire_of};
ghost use Rattle.vme_model.specs.Signals.{is_slot};
ghost use Rattle.vme_standings.specs.Moving.{asked, is_near, moved_by, segment_moved};

use vme_captures::{Levels, Line, Pin, Signal, wire_of};
use vme_model::{BusLevels, ChainId};
use vme_slots::Plan;

/// What a change moves: a shared line, or a segment of a daisy chain. A segment is named by the
/// slot of the board that drives it, and 0 names the controller's.
#[derive(Clone, Copy, PartialEq, Eq, Debug)]
pub enum Moved {
    /// A shared line.
    Line(Line),
    /// A segment of the grant chain of a level, 0 to 3.
    Grant { level: u8, place: u8 },
    /// A segment of the acknowledge chain.
    Acknowledge { place: u8 },
}

/// The place of a pin's wire.
fn wire_place(plan: &Plan, pin: Pin) -> u8
    ensures place { result ≡ unwrap_or (wire_of plan.now pin).place 0 }
    ensures near { IsTrue (is_slot pin.slot) → result < 22 }
{
    wire_of(plan, pin).place.unwrap_or(0)
}

/// The segment of a chain.
fn segment_moved(chain: ChainId, place: u8) -> Moved
    ensures moved { result ≡ segment_moved chain place }
    ensures near { place < 22 → IsTrue (is_near result) }
{
    match chain {
        ChainId::Bg0 => Moved::Grant { level: 0, place },
        ChainId::Bg1 => Moved::Grant { level: 1, place },
        ChainId::Bg2 => Moved::Grant { level: 2, place },
        ChainId::Bg3 => Moved::Grant { level: 3, place },
        ChainId::Iack => Moved::Acknowledge { place },
    }
}

/// The line, or the wire of the pin.
pub fn moved_by(plan: &Plan, signal: Signal) -> Moved
    ensures moved { result ≡ moved_by plan.now signal }
    ensures near { IsTrue (is_signal signal) → IsTrue (is_near result) }
{
    match signal {
        Signal::Line(line) => Moved::Line(line),
        Signal::Pin(pin) => segment_moved(pin.chain, wire_place(plan, pin)),
    }
}

/// The levels of the BR lines that are low.
pub fn asked(lines: &Levels) -> BusLevels
    ensures { result ≡ asked lines.now }
{
    BusLevels::of_lines([
        lines.is_low(Line::Br(0)),
        lines.is_low(Line::Br(1)),
        lines.is_low(Line::Br(2)),
        lines.is_low(Line::Br(3)),
    ])
}
