//! The lines of the answer.
ghost use Rattle.std.specs.Prelude.{◌≡◌, ◌+◌, ◌≤◌, ◌<◌, ◌++◌, IsTrue};
ghost use Rattle.arrayvec.specs.ArrayVec.{array_vec_len};
ghost use Rattle.vme_bus.specs.Sets.{has};
ghost use Rattle.vme_captures.specs.Signals.{is_change, is_line};
ghost use Rattle.vme_probe.specs.Lines.{change_line, cycle_line, grant_line, holder_line, impossible_line, low_line, may_come_line, none_line, or_none, ours_text, place_text, places_at, possible_line, slots_text, with_place};
ghost use Rattle.vme_probe.specs.Rooms.{coming_width, cycle_width, grant_width, holder_width, impossible_width, low_width, none_width, ours_width, place_width, places_room, places_width, possible_width, report_room};

use crate::texts::{SLOTS, push_by, push_seen, push_shown, push_slots};
use arrayvec::ArrayVec;
use vme_bus::SlotSet;
use vme_captures::{Change, Line as SharedLine, change_text};
use vme_standings::{Drivers, Shown};
use vme_text::{push, push_byte, push_number};

/// Room for the line of a change: a moment of 20 digits, the change, and its drivers.
const LINE: usize = 160;

/// Room for all that may be written behind the lines of the changes.
const REPORT: usize = 32_768;

/// Room for the slots of a set, 4 bytes each.
const NAMES: usize = 96;

/// Room for the places at which a grant may stand: 14 bytes each, 22 slots at four levels.
const PLACES: usize = 1_280;

/// What is written behind the lines of the changes, as far as it was put together.
pub(crate) type Report = ArrayVec<u8, REPORT>;

/// The places at which a grant may stand, as far as they were put together.
pub(crate) type Places = ArrayVec<u8, PLACES>;

/// The line of a change at a moment, with those who may have made it.
pub(crate) fn change_line(moment: u64, change: &Change, drivers: Drivers) -> ArrayVec<u8, LINE>
    requires { IsTrue (is_change change.now) }
    ensures { result.items ≡ change_line moment change.now drivers }
{
    let mut line = ArrayVec::new();
    push_seen(&mut line, moment, change);
    push_by(&mut line, drivers);
    push(&mut line, b"\n");
    line
}

/// Appends the line of a change at a moment that nobody may have made: at most 55 bytes.
pub(crate) fn push_none(report: &mut Report, moment: u64, change: &Change)
    requires room { array_vec_len report.old + none_width ≤ report_room }
    requires change { IsTrue (is_change change.now) }
    ensures items { report.new.items ≡ report.old.items ++ none_line moment change.now }
    ensures len { array_vec_len report.new ≤ array_vec_len report.old + none_width }
{
    push_seen(report, moment, change);
    push(report, b" by none\n");
}

/// Appends that a change breaks our own rules alone, if that is so: at most 19 bytes.
fn push_ours(report: &mut Report, is_ours: bool)
    requires { array_vec_len report.old + ours_width ≤ report_room }
    ensures items { report.new.items ≡ report.old.items ++ ours_text is_ours }
    ensures len { array_vec_len report.new ≤ array_vec_len report.old + ours_width }
{
    if is_ours {
        push(report, b" by our rules alone");
    }
}

/// Appends the last line behind a change at a moment that is impossible: at most 52 bytes.
pub(crate) fn push_impossible(report: &mut Report, moment: u64, is_ours: bool)
    requires { array_vec_len report.old + impossible_width ≤ report_room }
    ensures { report.new.items ≡ report.old.items ++ impossible_line moment is_ours }
{
    push(report, b"impossible @");
    push_number(report, moment);
    push_ours(report, is_ours);
    push(report, b"\n");
}

/// Appends the line that says that a capture with so many changes is possible: at most 30 bytes.
pub(crate) fn push_possible(report: &mut Report, changes: u64)
    requires { array_vec_len report.old + possible_width ≤ report_room }
    ensures items { report.new.items ≡ report.old.items ++ possible_line changes }
    ensures len { array_vec_len report.new ≤ array_vec_len report.old + possible_width }
{
    push(report, b"possible ");
    push_number(report, changes);
    push(report, b"\n");
}

/// The slots of a set, each behind a space, or `none` if there are none.
fn slots_or_none(slots: SlotSet) -> ArrayVec<u8, NAMES>
    ensures { result.items ≡ or_none (slots_text (has slots)) }
{
    let mut names = ArrayVec::new();
    push_slots(&mut names, slots);
    if names.is_empty() {
        push(&mut names, b" none");
    }
    names
}

/// Appends the line of the boards that may hold the bus: at most 103 bytes.
pub(crate) fn push_holder(report: &mut Report, holders: SlotSet)
    requires { array_vec_len report.old + holder_width ≤ report_room }
    ensures items { report.new.items ≡ report.old.items ++ holder_line (has holders) }
    ensures len { array_vec_len report.new ≤ array_vec_len report.old + holder_width }
{
    push(report, b"holder");
    push(report, slots_or_none(holders).as_slice());
    push(report, b"\n");
}

/// Appends a place at which a grant may stand, if it is to be there: at most 14 bytes.
fn push_place(places: &mut Places, is_there: bool, level: u8, slot: u8)
    requires { array_vec_len places.old + place_width ≤ places_room }
    ensures items { places.new.items
        ≡ with_place places.old.items is_there (place_text level slot) }
    ensures len { array_vec_len places.new ≤ array_vec_len places.old + place_width }
{
    if is_there {
        push(places, if places.is_empty() { b" " } else { b", " });
        push(places, b"bg");
        push_byte(places, level);
        push(places, b" at ");
        push_byte(places, slot);
    }
}

/// Appends the places of a set of boards at which a grant of a level may stand: at most 308 bytes.
#[tactic(auto, unfolding(crate::specs::Lines::places_at))]
pub(crate) fn push_places(places: &mut Places, level: u8, boards: SlotSet)
    requires { array_vec_len places.old + places_width ≤ places_room }
    ensures items { places.new.items ≡ places_at places.old.items level (has boards) }
    ensures len { array_vec_len places.new ≤ array_vec_len places.old + places_width }
{
    for slot in 0..SLOTS {
        push_place(places, boards.has(slot), level, slot);
    }
}

/// Appends the line of the places at which a grant may stand: at most 1,286 bytes.
pub(crate) fn push_grant(report: &mut Report, places: &Places)
    requires { array_vec_len report.old + grant_width ≤ report_room }
    ensures items { report.new.items ≡ report.old.items ++ grant_line places.now.items }
    ensures len { array_vec_len report.new ≤ array_vec_len report.old + grant_width }
{
    push(report, b"grant");
    push(report, places.as_slice());
    push(report, b"\n");
}

/// Appends the line of what AS* fell with, and of the boards that may drive it, if it is low: at
/// most 102 bytes.
pub(crate) fn push_cycle(report: &mut Report, shown: Option<Shown>, addressers: SlotSet)
    requires { array_vec_len report.old + cycle_width ≤ report_room }
    ensures items { report.new.items ≡ report.old.items ++ cycle_line shown (has addressers) }
    ensures len { array_vec_len report.new ≤ array_vec_len report.old + cycle_width }
{
    push(report, b"shown");
    match shown {
        None => push(report, b" none"),
        Some(shown) => {
            push_shown(report, shown);
            push(report, b" by");
            push_slots(report, addressers);
        }
    }
    push(report, b"\n");
}

/// Appends the line of the boards that may pull a line, if it is low: at most 101 bytes.
pub(crate) fn push_low(report: &mut Report, is_low: bool, line: SharedLine, pullers: SlotSet)
    requires room { array_vec_len report.old + low_width ≤ report_room }
    requires line { IsTrue (is_line line) }
    ensures items { report.new.items ≡ report.old.items ++ low_line is_low line (has pullers) }
    ensures len { array_vec_len report.new ≤ array_vec_len report.old + low_width }
{
    if is_low {
        push(report, line.name().as_bytes());
        push(report, b" low by");
        push_slots(report, pullers);
        push(report, b"\n");
    }
}

/// Appends the line of a change that may come next, with those who may make it, if there is
/// somebody: at most 127 bytes.
pub(crate) fn push_may_come(report: &mut Report, change: &Change, drivers: Drivers)
    requires room { array_vec_len report.old + coming_width ≤ report_room }
    requires change { IsTrue (is_change change.now) }
    ensures items { report.new.items ≡ report.old.items ++ may_come_line change.now drivers }
    ensures len { array_vec_len report.new ≤ array_vec_len report.old + coming_width }
{
    if !drivers.is_nobody() {
        push(report, b"may come ");
        push(report, change_text(change).as_slice());
        push_by(report, drivers);
        push(report, b"\n");
    }
}
