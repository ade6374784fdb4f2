//! How changes are spelled. `specs/Spelling.antt` has the spellings.
ghost use Rattle.std.specs.Prelude.{◌≡◌, ◌≤◌, IsTrue};
ghost use Rattle.arrayvec.specs.ArrayVec.{array_vec_len};
ghost use Rattle.vme_captures.specs.Signals.{is_change, is_signal};
ghost use Rattle.vme_captures.specs.Spelling.{change_text, signal_text};

use crate::signals::{Change, Signal, Value};
use crate::words::pin_name;
use arrayvec::ArrayVec;
use vme_model::Cycle;
use vme_text::{push, push_byte};

/// Room for any change: the longest has 11 bytes.
const ROOM: usize = 24;

/// The name of a line or pin, at most 11 bytes. Some backplane has to have it.
pub fn signal_text(signal: Signal) -> ArrayVec<u8, ROOM>
    requires { IsTrue (is_signal signal) }
    ensures text { result.items ≡ signal_text signal }
    ensures short { array_vec_len result ≤ 11 }
{
    let mut text = ArrayVec::new();
    match signal {
        Signal::Line(line) => push(&mut text, line.name().as_bytes()),
        Signal::Pin(pin) => {
            push_byte(&mut text, pin.slot);
            push(&mut text, b" ");
            push(&mut text, pin_name(pin.chain, pin.side).as_bytes());
        }
    }
    text
}

/// The spelling of a change: its line without the line feed. The change has to be one that can be
/// seen.
pub fn change_text(change: &Change) -> ArrayVec<u8, ROOM>
    requires { IsTrue (is_change change.now) }
    ensures { result.items ≡ change_text change.now }
{
    let mut text = signal_text(change.signal);
    push(&mut text, if change.fall { b"-" } else { b"+" });
    match change.value {
        None => {}
        Some(Value::Access) => push(&mut text, b" r"),
        Some(Value::Shown(Cycle::Access(slot))) => {
            push(&mut text, b" r");
            push_byte(&mut text, slot);
        }
        Some(Value::Shown(Cycle::Acknowledge(level))) => {
            push(&mut text, b" i");
            push_byte(&mut text, level);
        }
        Some(Value::Status(byte)) => {
            push(&mut text, b" ");
            push_byte(&mut text, byte);
        }
    }
    text
}
