//! The boards of a backplane that have an interrupter, as sets of their slots.
ghost use Rattle.std.specs.Prelude.{◌≡◌, ◌≢◌, ℕ, true};
ghost use Rattle.vme_bus.specs.Sets.{has};
ghost use Rattle.vme_standings.specs.Interrupters.{is_meant, is_meant_at, is_on_low_line, SharesLevel, SharesLine};
ghost use Rattle.vme_standings.specs.Requests.{is_on_level, AreShared};

use crate::boards::slots_end;
use crate::sets::several;
use vme_bus::SlotSet;
use vme_captures::{Levels, Line};
use vme_model::{IrqKind, Row};
use vme_slots::Plan;

/// More than the greatest level of IRQ1* to IRQ7*.
const LEVELS: u8 = 8;

/// Which interrupters are meant.
#[derive(Clone, Copy, PartialEq, Eq, Debug)]
pub enum Interrupters {
    /// All of them.
    All,
    /// Those on IRQn*, by the level 1 to 7.
    OnLevel(u8),
    /// Those whose request ends with an acknowledge.
    Roak,
    /// Those whose request ends with an access to the board.
    Rora,
    /// Those that answer an acknowledge with this status byte.
    WithStatus(u8),
}

impl Interrupters {
    /// Whether the board has such an interrupter.
    pub fn has(self, row: &Row) -> bool
        ensures { result ≡ is_meant self row.now }
    {
        match row.interrupter {
            None => false,
            Some(interrupter) => match self {
                Interrupters::All => true,
                Interrupters::OnLevel(level) => interrupter.level == level,
                Interrupters::Roak => matches!(interrupter.kind, IrqKind::Roak),
                Interrupters::Rora => matches!(interrupter.kind, IrqKind::Rora),
                Interrupters::WithStatus(status) => interrupter.status == status,
            },
        }
    }

    /// Whether the slot has a board with such an interrupter.
    pub(crate) fn has_at(self, plan: &Plan, slot: u8) -> bool
        ensures { result ≡ is_meant_at self plan.now slot }
    {
        match plan.row(slot) {
            Some(row) => self.has(row),
            None => false,
        }
    }

    /// The slots of the boards with such an interrupter.
    pub fn slots(self, plan: &Plan) -> SlotSet
        ensures { (s : ℕ) → has result s ≡ is_meant_at self plan.now s }
    {
        plan.accepted();
        let mut slots = SlotSet::NONE;
        for slot in 0..slots_end(plan) {
            if self.has_at(plan, slot) {
                slots = slots.with(slot);
            }
        }
        slots
    }
}

/// The slots of the boards that have the line of the level, if several have it; none otherwise.
fn sharing_on(plan: &Plan, level: u8) -> SlotSet
    ensures all { (s t : ℕ) → is_on_level plan.now level s ≡ true
        → is_on_level plan.now level t ≡ true → t ≢ s → has result s ≡ true }
    ensures others { (s : ℕ) → has result s ≡ true → SharesLevel plan.now level s }
{
    plan.accepted();
    several(Interrupters::OnLevel(level).slots(plan))
}

/// The slots of the boards that share their interrupt line with another board.
pub fn sharing(plan: &Plan) -> SlotSet
    ensures all { AreShared plan.now result }
    ensures others { (s : ℕ) → has result s ≡ true → SharesLine plan.now s }
{
    plan.accepted();
    let mut shared = SlotSet::NONE;
    for level in 0..LEVELS {
        shared = shared.or(sharing_on(plan, level));
    }
    shared
}

/// Whether the slot has a board with an interrupter whose line is low.
#[tactic(auto, using(crate::proofs::RequestRows::level_is))]
pub(crate) fn is_on_low_line(plan: &Plan, lines: &Levels, slot: u8) -> bool
    ensures { result ≡ is_on_low_line lines.now plan.now slot }
{
    plan.accepted();
    match plan.row(slot) {
        Some(row) => match row.interrupter {
            Some(interrupter) => lines.is_low(Line::Irq(interrupter.level)),
            None => false,
        },
        None => false,
    }
}

/// The slots of the boards with an interrupter whose line is low.
pub fn on_low_lines(plan: &Plan, lines: &Levels) -> SlotSet
    ensures { (s : ℕ) → has result s ≡ is_on_low_line lines.now plan.now s }
{
    plan.accepted();
    let mut slots = SlotSet::NONE;
    for slot in 0..slots_end(plan) {
        if is_on_low_line(plan, lines, slot) {
            slots = slots.with(slot);
        }
    }
    slots
}
