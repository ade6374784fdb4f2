//! The words of the answer, each appended to a line or to a report.
ghost use Rattle.std.specs.Prelude.{◌≡◌, ◌+◌, ◌≤◌, ◌++◌, IsTrue};
ghost use Rattle.arrayvec.specs.ArrayVec.{array_vec_len};
ghost use Rattle.vme_bus.specs.Sets.{has};
ghost use Rattle.vme_captures.specs.Signals.{is_change};
ghost use Rattle.vme_probe.specs.Lines.{by_text, seen_text, shown_text, slot_text, slots_text};

use arrayvec::ArrayVec;
use vme_bus::SlotSet;
use vme_captures::{Change, change_text};
use vme_standings::{Drivers, Shown};
use vme_text::{push, push_byte, push_number};

/// How many slots a backplane can have, and 0.
pub(crate) const SLOTS: u8 = 22;

/// Appends a slot behind a space, if it is to be there: at most 4 bytes.
fn push_slot<const N: usize>(line: &mut ArrayVec<u8, N>, is_there: bool, slot: u8)
    requires { array_vec_len line.old + 4 ≤ N }
    ensures items { line.new.items ≡ line.old.items ++ slot_text is_there slot }
    ensures len { array_vec_len line.new ≤ array_vec_len line.old + 4 }
{
    if is_there {
        push(line, b" ");
        push_byte(line, slot);
    }
}

/// Appends the slots of a set, ascending, each behind a space: at most 88 bytes.
#[tactic(auto, unfolding(crate::specs::Lines::slots_text))]
pub(crate) fn push_slots<const N: usize>(line: &mut ArrayVec<u8, N>, slots: SlotSet)
    requires { array_vec_len line.old + 88 ≤ N }
    ensures items { line.new.items ≡ line.old.items ++ slots_text (has slots) }
    ensures len { array_vec_len line.new ≤ array_vec_len line.old + 88 }
{
    for slot in 0..SLOTS {
        push_slot(line, slots.has(slot), slot);
    }
}

/// Appends who drives, the controller first: at most 93 bytes.
pub(crate) fn push_by<const N: usize>(line: &mut ArrayVec<u8, N>, drivers: Drivers)
    requires { array_vec_len line.old + 93 ≤ N }
    ensures items { line.new.items ≡ line.old.items ++ by_text drivers }
    ensures len { array_vec_len line.new ≤ array_vec_len line.old + 93 }
{
    push(line, b" by");
    if drivers.controller {
        push(line, b" c");
    }
    push_slots(line, drivers.boards);
}

/// Appends a moment, and a change behind a space: at most 46 bytes.
pub(crate) fn push_seen<const N: usize>(line: &mut ArrayVec<u8, N>, moment: u64, change: &Change)
    requires room { array_vec_len line.old + 46 ≤ N }
    requires change { IsTrue (is_change change.now) }
    ensures items { line.new.items ≡ line.old.items ++ seen_text moment change.now }
    ensures len { array_vec_len line.new ≤ array_vec_len line.old + 46 }
{
    push(line, b"@");
    push_number(line, moment);
    push(line, b" ");
    push(line, change_text(change).as_slice());
}

/// Appends what AS* fell with behind a space, as captures spell it: at most 5 bytes.
pub(crate) fn push_shown<const N: usize>(line: &mut ArrayVec<u8, N>, shown: Shown)
    requires { array_vec_len line.old + 5 ≤ N }
    ensures items { line.new.items ≡ line.old.items ++ shown_text shown }
    ensures len { array_vec_len line.new ≤ array_vec_len line.old + 5 }
{
    match shown {
        Shown::Access(None) => push(line, b" r"),
        Shown::Access(Some(slot)) => {
            push(line, b" r");
            push_byte(line, slot);
        }
        Shown::Acknowledge(level) => {
            push(line, b" i");
            push_byte(line, level);
        }
    }
}
