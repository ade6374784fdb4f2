//! Who may show a cycle.
ghost use Rattle.std.specs.Prelude.{◌≡◌, ◌&&◌, ℕ};
ghost use Rattle.vme_bus.specs.Sets.{has};
ghost use Rattle.vme_standings.specs.Cycles.{may_show, may_show_at};

use crate::sets::SLOTS;
use vme_bus::SlotSet;
use vme_model::{Cycle, Row};
use vme_slots::Plan;

/// Whether the board may show the cycle: an acknowledge if it handles that level.
fn may_show(row: &Row, cycle: Cycle) -> bool
    ensures { result ≡ may_show cycle row.now }
{
    match cycle {
        Cycle::Acknowledge(level) => row.handler.has(level),
        Cycle::Access(_) => true,
    }
}

/// Whether a board in the slot may show the cycle.
fn may_show_at(plan: &Plan, cycle: Cycle, slot: u8) -> bool
    ensures { result ≡ may_show_at cycle plan.now slot }
{
    match plan.row(slot) {
        Some(row) => may_show(row, cycle),
        None => false,
    }
}

/// Of the slots that may hold the bus, those whose board may show the cycle.
pub fn showers(plan: &Plan, holders: SlotSet, cycle: Cycle) -> SlotSet
    ensures { (s : ℕ) → has result s ≡ (may_show_at cycle plan.now s && has holders s) }
{
    plan.accepted();
    let mut slots = SlotSet::NONE;
    for slot in 0..SLOTS {
        if may_show_at(plan, cycle, slot) && holders.has(slot) {
            slots = slots.with(slot);
        }
    }
    slots
}
