//! What is known of a bus when a capture begins.
ghost use Rattle.std.specs.Prelude.{◌≡◌, ◌<◌, ◌&&◌, ℕ, true, false, MatchOption};
ghost use Rattle.vme_captures.specs.declared.signals.Line.{Line as LineValue};
ghost use Rattle.vme_captures.specs.declared.signals.Line.TheVariants as line;
ghost use Rattle.vme_captures.specs.Levels.{is_line_left_low};
ghost use Rattle.vme_model.specs.Rules.{is_pri};
ghost use Rattle.vme_standings.specs.Phases.{HasExactly};
ghost use Rattle.vme_standings.specs.Running.{AreBeginnings, AreUnknown, CannotRun, IsPowerUp, IsUndriven, Runs, is_first};

use crate::boards::boards;
use crate::fronts::Fronts;
use crate::grants::boards_of_level;
use crate::interrupters::{Interrupters, on_low_lines, sharing};
use crate::moving::asked;
use crate::phases::{GrantPhases, row_if};
use crate::requests::Requests;
use crate::segments::Segments;
use crate::standings::{Probed, Standings};
use vme_bus::SlotSet;
use vme_captures::{Levels, Line};
use vme_model::ArbiterKind;
use vme_slots::Plan;

/// The one phase of a bus before any edge.
fn first_phases() -> GrantPhases
    ensures { HasExactly result is_first }
{
    let mut phases = GrantPhases::none();
    phases.set_idle(0, true);
    phases
}

/// Whether a BR line is low that no board has.
fn is_request_undriven(plan: &Plan, lines: &Levels) -> bool
    ensures some { result ≡ true → (n : ℕ) × IsUndriven plan.now lines.now (line.Br n) }
    ensures none { result ≡ false → (n : ℕ) → IsUndriven plan.now lines.now (line.Br n) → ⊥ }
{
    for level in 0..4_u8 {
        let is_low = lines.is_low(Line::Br(level));
        let has_board = boards_of_level(plan, level).is_some();
        if is_low && !has_board {
            return true;
        }
    }
    false
}

/// Whether an IRQ line is low that no board has.
fn is_interrupt_undriven(plan: &Plan, lines: &Levels) -> bool
    ensures some { result ≡ true → (n : ℕ) × IsUndriven plan.now lines.now (line.Irq n) }
    ensures none { result ≡ false → (n : ℕ) → IsUndriven plan.now lines.now (line.Irq n) → ⊥ }
{
    for level in 1..8_u8 {
        let is_low = lines.is_low(Line::Irq(level));
        let has_board = Interrupters::OnLevel(level).slots(plan).is_some();
        if is_low && !has_board {
            return true;
        }
    }
    false
}

/// Whether the arbiter can drive BCLR*.
fn is_pri(plan: &Plan) -> bool
    ensures { result ≡ is_pri plan.now.arbiter }
{
    match plan.arbiter() {
        ArbiterKind::Pri => true,
        _ => false,
    }
}

/// The phases in which the grants and BBSY* can be.
fn beginnings(plan: &Plan, probed: &Probed, lines: &Levels, low: &Segments) -> GrantPhases
    ensures { AreBeginnings plan.now probed.now lines.now low.now result }
{
    GrantPhases::running(
        plan,
        probed.version,
        asked(lines),
        lines.is_low(Line::Bbsy),
        &probed.segments.grants,
        &low.grants,
    )
}

/// The interrupt requests of a running bus.
fn unknown_requests(plan: &Plan, lines: &Levels) -> Requests
    ensures { AreUnknown plan.now lines.now result }
{
    Requests::running(
        Interrupters::All.slots(plan),
        on_low_lines(plan, lines),
        sharing(plan),
    )
}

/// Whether a BR or IRQ line is low that no board has.
fn is_undriven(plan: &Plan, lines: &Levels) -> bool
    ensures some { result ≡ true → (l : LineValue) × IsUndriven plan.now lines.now l }
    ensures none { result ≡ false → (l : LineValue) → IsUndriven plan.now lines.now l → ⊥ }
{
    let is_request = is_request_undriven(plan, lines);
    if is_request {
        return true;
    }
    let is_interrupt = is_interrupt_undriven(plan, lines);
    is_interrupt
}

impl Standings {
    /// Before any edge.
    pub fn at_power_up(plan: &Plan) -> Standings
        ensures { IsPowerUp plan.now result }
    {
        let phases = first_phases();
        phases.holds_bits();
        Standings {
            lines: Levels::high(),
            low: Segments::none(),
            shown: None,
            strobed: false,
            phases,
            addressers: SlotSet::NONE,
            answerers: SlotSet::NONE,
            fronts: Fronts::waiting(),
            requests: Requests::at_power_up(Interrupters::All.slots(plan)),
        }
    }

    /// On a bus that is running while AS* and DS* are high, and of the other lines and the probed
    /// segments these are low. None if no bus that keeps the rules has these levels.
    pub fn running(plan: &Plan, probed: &Probed, lines: Levels, low: Segments) -> Option<Standings>
        ensures { MatchOption result (CannotRun plan.now probed.now lines low)
            (Runs plan.now probed.now lines low) }
    {
        let phases = beginnings(plan, probed, &lines, &low);
        phases.holds_bits();
        let is_empty = phases.is_empty();
        if is_empty {
            return None;
        }
        let is_answered = lines.is_low(Line::Dtack);
        if is_answered && lines.is_low(Line::Berr) {
            return None;
        }
        let is_undriven = is_undriven(plan, &lines);
        if is_undriven {
            return None;
        }
        if lines.is_low(Line::Bclr) && !is_pri(plan) {
            return None;
        }
        Some(Standings {
            lines,
            low,
            shown: None,
            strobed: false,
            phases,
            addressers: SlotSet::NONE,
            answerers: row_if(is_answered, boards(plan)),
            fronts: Fronts::waiting(),
            requests: unknown_requests(plan, &lines),
        })
    }
}
