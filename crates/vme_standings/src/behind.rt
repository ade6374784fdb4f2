//! What is known behind a change, part by part.
ghost use Rattle.std.specs.Prelude.{◌≡◌, ◌<◌, IsTrue};
ghost use Rattle.vme_captures.specs.Signals.{is_signal};
ghost use Rattle.vme_standings.specs.Behind.{AddressersBehind, AnswerersBehind, FrontsAnswered, FrontsBehind, FrontsPassed, FrontsTimedOut, GrantFalls, LinesBehind, LowBehind, PassedAt, PhasesBehind, RequestsAnswered, RequestsBehind, RequestsPassed, ServedByAccess, ServedIn, shown_behind, shown_of, strobed_behind, target_of};
ghost use Rattle.vme_standings.specs.Moving.{is_near};

use crate::boards::only_board;
use crate::driving::last_place;
use crate::fronts::Fronts;
use crate::grants::{
    askers, behind_clear, behind_grant, behind_pass, behind_release, behind_request, behind_rise,
    behind_take, behind_withdrawal,
};
use crate::interrupters::{Interrupters, is_on_low_line};
use crate::moving::{Moved, asked};
use crate::phases::GrantPhases;
use crate::requests::Requests;
use crate::segments::Segments;
use crate::standings::{Shown, Standings};
use vme_bus::SlotSet;
use vme_captures::{Levels, Line, Signal, Value, wire_of};
use vme_model::{Cycle, Version};
use vme_slots::Plan;

/// What a fall of AS* shows.
fn shown_of(value: Option<Value>) -> Option<Shown>
    ensures { result ≡ shown_of value }
{
    match value {
        Some(Value::Shown(Cycle::Acknowledge(level))) => Some(Shown::Acknowledge(level)),
        Some(Value::Shown(Cycle::Access(slot))) => Some(Shown::Access(Some(slot))),
        Some(Value::Access) => Some(Shown::Access(None)),
        _ => None,
    }
}

/// The levels of the shared lines behind a change.
pub(crate) fn lines_behind(lines: Levels, signal: Signal, fall: bool) -> Levels
    requires { IsTrue (is_signal signal) }
    ensures { LinesBehind signal fall lines result }
{
    let mut behind = lines;
    if let Signal::Line(line) = signal {
        behind.set(line, fall);
    }
    behind
}

/// The probed segments that are low behind a change.
pub(crate) fn low_behind(plan: &Plan, low: Segments, signal: Signal, fall: bool) -> Segments
    requires { IsTrue (is_signal signal) }
    ensures { LowBehind plan.now signal fall low result }
{
    let mut behind = low;
    if let Signal::Pin(pin) = signal {
        behind.set(wire_of(plan, pin), fall);
    }
    behind
}

/// The slot that is accessed. A board that is alone is it also if the slot is not known.
fn target_of(plan: &Plan, slot: Option<u8>) -> Option<u8>
    ensures { result ≡ target_of plan.now slot }
{
    match slot {
        Some(slot) => Some(slot),
        None => only_board(plan),
    }
}

/// The interrupt requests once the slot's board has answered an access.
fn served_by_access(plan: &Plan, requests: Requests, slot: u8) -> Requests
    ensures { ServedByAccess plan.now slot requests result }
{
    if slot < 22 {
        requests.accessed(slot, Interrupters::Rora.slots(plan))
    } else {
        requests
    }
}

/// The interrupt requests once a board has answered an access.
fn served_in(plan: &Plan, requests: Requests, slot: Option<u8>) -> Requests
    ensures { ServedIn plan.now slot requests result }
{
    match slot {
        Some(slot) => served_by_access(plan, requests, slot),
        None => requests.any_accessed(Interrupters::Rora.slots(plan)),
    }
}

/// The interrupt requests once the slot's board has passed an acknowledge of a level on.
fn passed_at(plan: &Plan, lines: &Levels, requests: Requests, level: u8, slot: u8) -> Requests
    requires { slot < 22 }
    ensures { PassedAt plan.now lines.now level slot requests result }
{
    let boards = Interrupters::OnLevel(level).slots(plan);
    if !boards.has(slot) {
        return requests;
    }
    let is_low = is_on_low_line(plan, lines, slot);
    match requests.passed(slot, boards, is_low) {
        Some(passed) => passed,
        None => requests,
    }
}

/// How far the acknowledge may have come once a segment of its chain has fallen.
fn fronts_passed(plan: &Plan, fronts: Fronts, place: u8) -> Fronts
    requires { place < 22 }
    ensures { FrontsPassed plan.now place fronts result }
{
    match fronts.falls_at(plan, place) {
        Some(fallen) => fallen,
        None => fronts,
    }
}

impl Standings {
    /// What is shown behind a change.
    pub(crate) fn shown_behind(
        &self,
        moved: Moved,
        fall: bool,
        value: Option<Value>,
    ) -> Option<Shown>
        ensures { result ≡ shown_behind moved fall value self.now.shown }
    {
        match (moved, fall) {
            (Moved::Line(Line::AddressStrobe), true) => shown_of(value),
            (Moved::Line(Line::AddressStrobe), false) => None,
            _ => self.shown,
        }
    }

    /// Whether DS* has fallen in the cycle, behind a change.
    pub(crate) fn strobed_behind(&self, moved: Moved, fall: bool) -> bool
        ensures { result ≡ strobed_behind moved fall self.now.strobed }
    {
        match (moved, fall) {
            (Moved::Line(Line::AddressStrobe), true) => false,
            (Moved::Line(Line::DataStrobe), true) => true,
            _ => self.strobed,
        }
    }

    /// How the grants and BBSY* may stand once a segment of a grant chain has fallen.
    fn phases_behind_fall(&self, plan: &Plan, version: Version, level: u8, place: u8) -> GrantPhases
        requires level { level < 4 }
        requires place { place < 22 }
        ensures { GrantFalls plan.now version self.now level place result }
    {
        if place == 0 {
            behind_grant(plan, asked(&self.lines), level, &self.phases)
        } else {
            behind_pass(plan, version, level, place, &self.phases)
        }
    }

    /// How the grants and BBSY* may stand behind a change.
    pub(crate) fn phases_behind(
        &self,
        plan: &Plan,
        version: Version,
        moved: Moved,
        fall: bool,
        value: Option<Value>,
    ) -> GrantPhases
        requires { IsTrue (is_near moved) }
        ensures { PhasesBehind plan.now version self.now moved fall value result }
    {
        let phases = &self.phases;
        let requests = asked(&self.lines);
        match (moved, fall) {
            (Moved::Line(Line::Br(level)), true) => {
                behind_request(askers(plan, level, phases), phases)
            }
            (Moved::Line(Line::Br(level)), false) => {
                behind_withdrawal(plan, version, level, phases)
            }
            (Moved::Line(Line::Bbsy), true) => behind_take(plan, requests, phases),
            (Moved::Line(Line::Bbsy), false) => behind_release(plan, requests, phases),
            (Moved::Line(Line::AddressStrobe), true) => phases.held_by(self.starters(plan, value)),
            (Moved::Line(Line::Bclr), _) => behind_clear(plan, requests, fall, phases),
            (Moved::Grant { level, place }, true) => {
                self.phases_behind_fall(plan, version, level, place)
            }
            (Moved::Grant { level, place }, false) => {
                behind_rise(plan, version, level, place, phases)
            }
            _ => self.phases,
        }
    }

    /// Who may drive AS* and DS* behind a change.
    pub(crate) fn addressers_behind(
        &self,
        plan: &Plan,
        moved: Moved,
        fall: bool,
        value: Option<Value>,
    ) -> SlotSet
        ensures { AddressersBehind plan.now self.now moved fall value result }
    {
        match (moved, fall) {
            (Moved::Line(Line::AddressStrobe), true) => self.starters(plan, value),
            (Moved::Line(Line::AddressStrobe), false) => SlotSet::NONE,
            _ => self.addressers,
        }
    }

    /// Who may drive DTACK* behind a change.
    pub(crate) fn answerers_behind(
        &self,
        plan: &Plan,
        moved: Moved,
        fall: bool,
        value: Option<Value>,
    ) -> SlotSet
        ensures { AnswerersBehind plan.now self.now moved fall value result }
    {
        match (moved, fall) {
            (Moved::Line(Line::Dtack), true) => self.answerers_with(plan, value),
            (Moved::Line(Line::Dtack), false) => SlotSet::NONE,
            _ => self.answerers,
        }
    }

    /// How far the acknowledge may have come once DTACK* has fallen: to who answered.
    fn fronts_answered(&self, plan: &Plan, value: Option<Value>) -> Fronts
        ensures { FrontsAnswered plan.now self.now value self.now.shown result }
    {
        match self.shown {
            Some(Shown::Acknowledge(_)) => {
                Fronts::reaching(plan, self.answerers_with(plan, value))
            }
            _ => self.fronts,
        }
    }

    /// How far the acknowledge may have come once BERR* has fallen: past all interrupters.
    fn fronts_timed_out(&self, plan: &Plan) -> Fronts
        ensures { FrontsTimedOut plan.now self.now self.now.shown result }
    {
        match self.shown {
            Some(Shown::Acknowledge(_)) => Fronts::ending_at(last_place(plan)),
            _ => self.fronts,
        }
    }

    /// How far the acknowledge may have come behind a change.
    pub(crate) fn fronts_behind(
        &self,
        plan: &Plan,
        moved: Moved,
        fall: bool,
        value: Option<Value>,
    ) -> Fronts
        requires { IsTrue (is_near moved) }
        ensures { FrontsBehind plan.now self.now moved fall value result }
    {
        match (moved, fall) {
            (Moved::Line(Line::AddressStrobe), true) => Fronts::waiting(),
            (Moved::Line(Line::Dtack), true) => self.fronts_answered(plan, value),
            (Moved::Line(Line::Berr), true) => self.fronts_timed_out(plan),
            (Moved::Acknowledge { place }, true) => fronts_passed(plan, self.fronts, place),
            _ => self.fronts,
        }
    }

    /// The interrupt requests once DTACK* has fallen.
    fn requests_answered(&self, plan: &Plan, value: Option<Value>) -> Requests
        ensures { RequestsAnswered plan.now self.now value self.now.shown result }
    {
        match self.shown {
            Some(Shown::Access(slot)) => served_in(plan, self.requests, target_of(plan, slot)),
            Some(Shown::Acknowledge(_)) => {
                let answering = self.answerers_with(plan, value);
                let roak = Interrupters::Roak.slots(plan);
                self.requests.acknowledged(answering, roak)
            }
            None => self.requests,
        }
    }

    /// The interrupt requests once a board's segment of the acknowledge chain has fallen.
    fn requests_passed(&self, plan: &Plan, place: u8) -> Requests
        requires { place < 22 }
        ensures { RequestsPassed plan.now self.now place self.now.shown result }
    {
        match self.shown {
            Some(Shown::Acknowledge(level)) => {
                passed_at(plan, &self.lines, self.requests, level, place)
            }
            _ => self.requests,
        }
    }

    /// The interrupt requests behind a change.
    pub(crate) fn requests_behind(
        &self,
        plan: &Plan,
        moved: Moved,
        fall: bool,
        value: Option<Value>,
    ) -> Requests
        requires { IsTrue (is_near moved) }
        ensures { RequestsBehind plan.now self.now moved fall value result }
    {
        match (moved, fall) {
            (Moved::Line(Line::Irq(level)), true) => self
                .requests
                .falls(Interrupters::OnLevel(level).slots(plan)),
            (Moved::Line(Line::Irq(level)), false) => self
                .requests
                .rises(Interrupters::OnLevel(level).slots(plan)),
            (Moved::Line(Line::Dtack), true) => self.requests_answered(plan, value),
            (Moved::Acknowledge { place }, true) => self.requests_passed(plan, place),
            _ => self.requests,
        }
    }
}
