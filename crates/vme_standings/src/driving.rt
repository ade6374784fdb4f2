//! Who may have made a change, by what is known before it.
ghost use Rattle.std.specs.List.{list_any};
ghost use Rattle.std.specs.Prelude.{◌≡◌, ◌==◌, ◌&&◌, ◌||◌, ◌<◌, ℕ, IsTrue, is_some, nat_lt, not, true};
ghost use Rattle.vme_bus.specs.Sets.{has};
ghost use Rattle.vme_model.specs.Plan.{active, board, grant_chain};
ghost use Rattle.vme_standings.specs.Driving.{AnswersShown, AreAnswerers, AreStarters, BoardsLetGo, BoardsMake, BoardsPull, CanClear, ControllerMakes, MayPass, PassesShown, can_end, can_rise, can_strobe, can_time_out, is_acknowledged, is_answered, is_board_at, is_under_way, last_place, may_answer_with, may_show_value, nobody_answers};
ghost use Rattle.vme_standings.specs.declared.requests.Request.TheVariants.{Pending};
ghost use Rattle.vme_standings.specs.Fronts.{is_reached};
ghost use Rattle.vme_standings.specs.Grants.{are_alike, is_let_go, is_taken};
ghost use Rattle.vme_standings.specs.Moving.{is_near};
ghost use Rattle.vme_standings.specs.RequestSets.{may_be};

use crate::boards::boards;
use crate::cycle::showers;
use crate::fronts::input_place;
use crate::grants::{
    are_alike, askers, can_be_due, is_granted, is_let_go, is_passed, is_run_out, is_taken, just,
    releasers, withdrawers,
};
use crate::interrupters::{Interrupters, on_low_lines};
use crate::moving::{Moved, asked};
use crate::phases::{GrantPhases, row_if, with_if};
use crate::requests::Requests;
use crate::sets::SLOTS;
use crate::standings::{Shown, Standings};
use vme_bus::SlotSet;
use vme_captures::{Line, Value};
use vme_model::{BusLevels, ChainId, Version};
use vme_slots::Plan;

/// The most boards of a backplane. Source: Std 1014, chapter 7.
const MOST_BOARDS: usize = 21;

/// The board that drives a segment; nobody if it is the controller's.
pub(crate) fn board_at(place: u8) -> SlotSet
    requires { place < 32 }
    ensures { (s : ℕ) → has result s ≡ is_board_at place s }
{
    if place > 0 {
        just(place)
    } else {
        SlotSet::NONE
    }
}

/// The place of the last segment of the acknowledge chain.
pub(crate) fn last_place(plan: &Plan) -> u8
    ensures place { result ≡ last_place plan.now }
    ensures near { result < 22 }
{
    input_place(plan, SLOTS)
}

/// The boards that may take the bus: a fall of BBSY* is by one of them.
fn takers(plan: &Plan, requests: BusLevels, phases: &GrantPhases) -> SlotSet
    ensures { (s : ℕ) → has result s ≡ is_taken plan.now requests phases.now s }
{
    plan.accepted();
    let mut found = SlotSet::NONE;
    for board in 0..22_u8 {
        found = with_if(found, board, is_taken(plan, requests, board, phases));
    }
    found
}

/// Whether a segment of a grant chain may rise: a board took the grant, or nobody did.
fn can_rise(plan: &Plan, version: Version, level: u8, place: u8, phases: &GrantPhases) -> bool
    ensures { result ≡ can_rise plan.now version level place phases.now }
{
    let is_run_out = is_run_out(plan, version, level, place, phases);
    let is_let_go = is_let_go_by_some(plan, level, place, phases);
    either(is_run_out, is_let_go)
}

/// Whether a segment of a grant chain may rise because some board took the grant.
fn is_let_go_by_some(plan: &Plan, level: u8, place: u8, phases: &GrantPhases) -> bool
    ensures { result ≡ list_any (is_let_go plan.now level place phases.now)
        (active plan.now (grant_chain level)) }
{
    plan.active(ChainId::of_grant(level))
        .iter()
        .any(|board| is_let_go(plan, level, place, *board, phases))
}

/// Whether one of them is so.
fn either(a: bool, b: bool) -> bool
    ensures { result ≡ (a || b) }
{
    a || b
}

/// Whether bus clear is due, or not due, with some of a holder's first low segments. It is due once
/// the controller's segment is high, if a higher level is requested.
fn is_clear_seen(row: SlotSet, is_outranked: bool, is_due: bool) -> bool
    ensures some { result ≡ true → (t : ℕ) × (has row t ≡ true)
        × (are_alike (is_outranked && nat_lt 0 t) is_due ≡ true) }
    ensures all { (t : ℕ) → t < 22 → has row t ≡ true
        → are_alike (is_outranked && nat_lt 0 t) is_due ≡ true → result ≡ true }
{
    for first in 0..22_u8 {
        let is_due_there = is_outranked && first > 0;
        if row.has(first) && are_alike(is_due_there, is_due) {
            return true;
        }
    }
    false
}

/// Whether BCLR* may fall, or rise: in some phase bus clear is due, or is not due.
fn can_clear(plan: &Plan, requests: BusLevels, fall: bool, phases: &GrantPhases) -> bool
    ensures { CanClear plan.now requests fall phases.now result }
{
    let is_free = phases.has_free();
    if is_free && !fall {
        return true;
    }
    for board in 0..22_u8 {
        let can_be_due = can_be_due(plan, requests, board);
        let row = phases.held_row(board);
        let is_seen = is_clear_seen(row, can_be_due, fall);
        if is_seen {
            return true;
        }
    }
    false
}

/// Of the holders of the bus those that may show what was seen with a fall of AS*.
fn showers_of(plan: &Plan, holders: SlotSet, value: Option<Value>) -> SlotSet
    ensures { (s : ℕ) → has result s ≡ (may_show_value plan.now value s && has holders s) }
{
    match value {
        Some(Value::Shown(cycle)) => showers(plan, holders, cycle),
        Some(Value::Access) => holders,
        _ => SlotSet::NONE,
    }
}

/// The interrupters that may answer an acknowledge of a level with what was seen.
fn answering_with(plan: &Plan, level: u8, value: Option<Value>) -> SlotSet
    ensures { (s : ℕ) → has result s ≡ may_answer_with plan.now level value s }
{
    let of_level = Interrupters::OnLevel(level).slots(plan);
    match value {
        None => of_level,
        Some(Value::Status(byte)) => of_level.and(Interrupters::WithStatus(byte).slots(plan)),
        Some(_) => SlotSet::NONE,
    }
}

/// Whether the slot's board may pass an acknowledge on. It may if it is not of the acknowledge's
/// level, or its request need not be pending.
pub(crate) fn may_pass(requests: Requests, boards: SlotSet, low: SlotSet, slot: u8) -> bool
    requires { slot < 22 }
    ensures { MayPass boards low requests slot result }
{
    if !boards.has(slot) {
        return true;
    }
    match requests.passed(slot, boards, low.has(slot)) {
        Some(_) => true,
        None => false,
    }
}

impl Standings {
    /// The boards that may have made a fall of AS*.
    pub(crate) fn starters(&self, plan: &Plan, value: Option<Value>) -> SlotSet
        ensures { AreStarters plan.now self.now value result }
    {
        if self.low.acknowledge == SlotSet::NONE {
            showers_of(plan, self.phases.holders(), value)
        } else {
            SlotSet::NONE
        }
    }

    /// Whether AS* may rise.
    fn can_end(&self) -> bool
        ensures { result ≡ can_end self.now }
    {
        self.strobed && !self.lines.is_low(Line::DataStrobe)
    }

    /// Whether DS* may fall.
    fn can_strobe(&self) -> bool
        ensures { result ≡ can_strobe self.now }
    {
        self.shown.is_some()
            && !self.lines.is_low(Line::Dtack)
            && !self.lines.is_low(Line::Berr)
            && !self.strobed
    }

    /// Whether the cycle is answered, so that DS* may rise.
    fn is_answered(&self) -> bool
        ensures { result ≡ is_answered self.now }
    {
        self.lines.is_low(Line::Dtack) || self.lines.is_low(Line::Berr)
    }

    /// The boards that may answer an acknowledge of a level, with a status byte or without.
    fn answering_at(&self, plan: &Plan, level: u8, value: Option<Value>) -> SlotSet
        ensures { (s : ℕ) → has result s ≡ (may_be self.now.requests s Pending
            && (is_reached self.now.fronts plan.now s
            && may_answer_with plan.now level value s)) }
    {
        plan.accepted();
        let able = answering_with(plan, level, value);
        let near = self.fronts.reached(plan);
        self.requests.answering(near, able)
    }

    /// The boards that may have made a fall of DTACK*, with a status byte or without.
    pub(crate) fn answerers_with(&self, plan: &Plan, value: Option<Value>) -> SlotSet
        ensures { AreAnswerers plan.now self.now value result }
    {
        let is_strobed = self.lines.is_low(Line::DataStrobe);
        match self.shown {
            Some(Shown::Access(Some(slot))) => {
                row_if(is_strobed && value.is_none(), board_in(plan, slot))
            }
            Some(Shown::Access(None)) => row_if(
                is_strobed && value.is_none(),
                row_if(!self.lines.is_low(Line::Berr), boards(plan)),
            ),
            Some(Shown::Acknowledge(level)) => {
                row_if(is_strobed, self.answering_at(plan, level, value))
            }
            None => SlotSet::NONE,
        }
    }

    /// The boards that may have made a fall of a shared line.
    fn pulled_by(&self, plan: &Plan, line: Line, value: Option<Value>) -> SlotSet
        ensures { BoardsPull plan.now self.now line value result }
    {
        match line {
            Line::Br(level) => askers(plan, level, &self.phases),
            Line::Irq(level) => Interrupters::OnLevel(level).slots(plan),
            Line::Bbsy => takers(plan, asked(&self.lines), &self.phases),
            Line::AddressStrobe => self.starters(plan, value),
            Line::DataStrobe => row_if(self.can_strobe(), self.addressers),
            Line::Dtack => self.answerers_with(plan, value),
            Line::Berr | Line::Bclr => SlotSet::NONE,
        }
    }

    /// The boards that may have made a rise of a shared line.
    fn let_go_by(&self, plan: &Plan, version: Version, line: Line) -> SlotSet
        ensures { BoardsLetGo plan.now version self.now line result }
    {
        match line {
            Line::Br(level) => withdrawers(plan, version, level, &self.phases),
            Line::Irq(level) => self
                .requests
                .risers(Interrupters::OnLevel(level).slots(plan)),
            Line::Bbsy => releasers(plan, asked(&self.lines), &self.phases),
            Line::AddressStrobe => row_if(self.can_end(), self.addressers),
            Line::DataStrobe => row_if(self.is_answered(), self.addressers),
            Line::Dtack => row_if(!self.lines.is_low(Line::DataStrobe), self.answerers),
            Line::Berr | Line::Bclr => SlotSet::NONE,
        }
    }

    /// The boards that may have made a fall of a segment of the acknowledge chain.
    fn passed_by(&self, plan: &Plan, place: u8) -> SlotSet
        requires { place < 22 }
        ensures { PassesShown plan.now self.now place self.now.shown result }
    {
        match self.shown {
            Some(Shown::Acknowledge(level)) => {
                let of_level = Interrupters::OnLevel(level).slots(plan);
                let low = on_low_lines(plan, &self.lines);
                let may = may_pass(self.requests, of_level, low, place);
                let is_reached = self.fronts.may_have_reached(plan, place);
                let is_strobed = self.lines.is_low(Line::DataStrobe);
                let is_open = is_strobed && !self.lines.is_low(Line::Dtack);
                row_if(is_open && (is_reached && may), board_at(place))
            }
            _ => SlotSet::NONE,
        }
    }

    /// The boards that may have made a change of what it moves.
    pub(crate) fn makers(
        &self,
        plan: &Plan,
        version: Version,
        moved: Moved,
        fall: bool,
        value: Option<Value>,
    ) -> SlotSet
        requires { IsTrue (is_near moved) }
        ensures { BoardsMake plan.now version self.now moved fall value result }
    {
        let phases = &self.phases;
        match (moved, fall) {
            (Moved::Line(line), true) => self.pulled_by(plan, line, value),
            (Moved::Line(line), false) => self.let_go_by(plan, version, line),
            (Moved::Grant { level, place }, true) => row_if(
                is_passed(plan, version, level, place, phases),
                board_at(place),
            ),
            (Moved::Grant { level, place }, false) => row_if(
                can_rise(plan, version, level, place, phases),
                board_at(place),
            ),
            (Moved::Acknowledge { place }, true) => self.passed_by(plan, place),
            (Moved::Acknowledge { place }, false) => {
                row_if(self.shown.is_none(), board_at(place))
            }
        }
    }

    /// Whether nobody answers what is shown.
    fn nobody_answers(&self, plan: &Plan) -> bool
        ensures { result ≡ nobody_answers plan.now self.now.fronts self.now.shown }
    {
        match self.shown {
            Some(Shown::Access(Some(slot))) => !plan.has_board(slot),
            Some(Shown::Access(None)) => plan.rows().len() < MOST_BOARDS,
            Some(Shown::Acknowledge(_)) => self.fronts.may_end_at(last_place(plan)),
            None => false,
        }
    }

    /// Whether BERR* may fall.
    fn can_time_out(&self, plan: &Plan) -> bool
        ensures { result ≡ can_time_out plan.now self.now }
    {
        self.lines.is_low(Line::DataStrobe)
            && !self.lines.is_low(Line::Dtack)
            && self.nobody_answers(plan)
    }

    /// Whether an acknowledge is under way.
    pub(crate) fn is_under_way(&self) -> bool
        ensures { result ≡ is_under_way self.now }
    {
        match self.shown {
            Some(Shown::Acknowledge(_)) => self.lines.is_low(Line::DataStrobe),
            _ => false,
        }
    }

    /// Whether the controller may have made a change of what it moves.
    pub(crate) fn is_by_controller(
        &self,
        plan: &Plan,
        version: Version,
        moved: Moved,
        fall: bool,
    ) -> bool
        ensures { ControllerMakes plan.now version self.now moved fall result }
    {
        let phases = &self.phases;
        match (moved, fall) {
            (Moved::Line(Line::Berr), true) => self.can_time_out(plan),
            (Moved::Line(Line::Berr), false) => !self.lines.is_low(Line::DataStrobe),
            (Moved::Line(Line::Bclr), _) => can_clear(plan, asked(&self.lines), fall, phases),
            (Moved::Line(_), _) => false,
            (Moved::Grant { level, place }, true) => {
                place == 0 && is_granted(plan, asked(&self.lines), level, phases)
            }
            (Moved::Grant { level, place }, false) => {
                place == 0 && can_rise(plan, version, level, place, phases)
            }
            (Moved::Acknowledge { place }, true) => {
                place == 0 && (self.is_under_way() && self.fronts.is_waiting())
            }
            (Moved::Acknowledge { place }, false) => place == 0 && self.shown.is_none(),
        }
    }
}

/// The slot, if it has a board.
fn board_in(plan: &Plan, slot: u8) -> SlotSet
    ensures { (s : ℕ) → has result s ≡ ((s == slot) && is_some (board plan.now s)) }
{
    plan.accepted();
    if slot < 22 {
        row_if(plan.has_board(slot), just(slot))
    } else {
        SlotSet::NONE
    }
}
