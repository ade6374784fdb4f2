//! How far the acknowledge may have come on its daisy chain while a cycle is shown.
ghost use Rattle.std.specs.Prelude.{◌≡◌, ◌==◌, ◌&&◌, ◌||◌, ◌<◌, ℕ, false, MatchOption};
ghost use Rattle.vme_bus.specs.Sets.{has};
ghost use Rattle.vme_standings.specs.Fronts.{place_of, input_place, is_reached, IsWaiting, MovesFronts, may_fall_at, EndsAt, FallsAt, Reaches};
ghost use Rattle.vme_standings.specs.Unions.{UnitesFronts};

use crate::grants::just;
use crate::interrupters::Interrupters;
use crate::sets::{SLOTS, both};
use vme_bus::SlotSet;
use vme_model::ChainId;
use vme_slots::Plan;

/// Where the low segments of the acknowledge chain may end while a cycle is shown.
#[derive(Clone, Copy)]
pub struct Fronts {
    // there may be none: the acknowledge has not begun
    waiting: bool,
    // the slots at whose outputs they may end; 0 stands for the controller's segment
    ends: SlotSet,
}

/// The place of a segment: the slot that drives it, or 0 for the controller's.
pub(crate) fn place_of(slot: Option<u8>) -> u8
    ensures { result ≡ place_of slot }
{
    slot.unwrap_or(0)
}

/// The place of the segment at the slot's input.
pub(crate) fn input_place(plan: &Plan, slot: u8) -> u8
    ensures { result ≡ input_place plan.now slot }
{
    place_of(plan.upstream(ChainId::Iack, slot))
}

/// Whether the segment of the slot falls, as one of these that may, if that of its input may have
/// fallen last.
fn may_move(plan: &Plan, ends: SlotSet, movers: SlotSet, slot: u8) -> bool
    ensures { result ≡ (has movers slot && has ends (input_place plan.now slot)) }
{
    movers.has(slot) && ends.has(input_place(plan, slot))
}

/// The segment at the slot's input, as a set of its place.
fn input_of(plan: &Plan, slot: u8) -> SlotSet
    requires { slot < 22 }
    ensures { (s : ℕ) → has result s ≡ (s == input_place plan.now slot) }
{
    just(input_place(plan, slot))
}

impl Fronts {
    /// A cycle begins, so that the whole chain is high.
    pub fn waiting() -> Fronts
        ensures { IsWaiting result }
    {
        Fronts {
            waiting: true,
            ends: SlotSet::NONE,
        }
    }

    /// Whether the acknowledge may not have begun.
    pub fn is_waiting(&self) -> bool
        ensures { result ≡ self.now.waiting }
    {
        self.waiting
    }

    /// Whether the low segments may end at the place.
    pub fn may_end_at(&self, place: u8) -> bool
        ensures { result ≡ has self.now.ends place }
    {
        self.ends.has(place)
    }

    /// Whether the acknowledge may have reached the slot's board, which has not passed it on.
    pub(crate) fn may_have_reached(&self, plan: &Plan, slot: u8) -> bool
        ensures { result ≡ has self.now.ends (input_place plan.now slot) }
    {
        self.ends.has(input_place(plan, slot))
    }

    /// The boards with an interrupter that the acknowledge may have reached, and that have not
    /// passed it on.
    pub fn reached(&self, plan: &Plan) -> SlotSet
        ensures { (s : ℕ) → has result s ≡ is_reached self.now plan.now s }
    {
        plan.accepted();
        let boards = Interrupters::All.slots(plan);
        let mut slots = SlotSet::NONE;
        for slot in 0..SLOTS {
            if boards.has(slot) && self.may_have_reached(plan, slot) {
                slots = slots.with(slot);
            }
        }
        slots
    }

    /// With the edges that no probe sees: the controller's segment falls, and those of boards that
    /// may pass the acknowledge on. `unseen` holds the places of segments without a probe.
    pub fn with_hidden(self, plan: &Plan, unseen: SlotSet, passing: SlotSet) -> Fronts
        ensures { MovesFronts plan.now unseen passing self result }
    {
        let movers = both(unseen, passing);
        let mut ends = self.ends_behind_head(unseen);
        for slot in 1..SLOTS {
            if may_move(plan, ends, movers, slot) {
                ends = ends.with(slot);
            }
        }
        Fronts {
            waiting: self.waiting,
            ends,
        }
    }

    /// The ends, with the controller's segment if it may have fallen unseen.
    fn ends_behind_head(&self, unseen: SlotSet) -> SlotSet
        ensures head { has result 0 ≡ (has self.now.ends 0 || (self.now.waiting && has unseen 0)) }
        ensures others { (s : ℕ) → 0 < s → has result s ≡ has self.now.ends s }
    {
        if self.waiting && unseen.has(0) {
            self.ends.with(0)
        } else {
            self.ends
        }
    }

    /// A segment falls: the controller's, if the acknowledge had not begun, or that of a slot's
    /// board, if it had been reached. None if it cannot fall.
    pub fn falls_at(self, plan: &Plan, place: u8) -> Option<Fronts>
        requires { place < 22 }
        ensures { MatchOption result (may_fall_at self plan.now place ≡ false)
            (FallsAt plan.now place self) }
    {
        if self.may_fall_at(plan, place) {
            Some(Fronts::ending_at(place))
        } else {
            None
        }
    }

    /// Whether the segment at the place may fall.
    pub(crate) fn may_fall_at(&self, plan: &Plan, place: u8) -> bool
        ensures { result ≡ may_fall_at self.now plan.now place }
    {
        if place == 0 {
            self.waiting
        } else {
            self.may_have_reached(plan, place)
        }
    }

    /// The acknowledge is at one of these boards, which has not passed it on.
    pub(crate) fn reaching(plan: &Plan, boards: SlotSet) -> Fronts
        ensures { Reaches plan.now boards result }
    {
        let mut ends = SlotSet::NONE;
        for slot in 1..SLOTS {
            let is_reached = boards.has(slot);
            if is_reached {
                ends = ends.or(input_of(plan, slot));
            }
        }
        Fronts {
            waiting: false,
            ends,
        }
    }

    /// How far the acknowledge may have come if it may by one of the two.
    pub(crate) fn union(&self, other: &Fronts) -> Fronts
        ensures { UnitesFronts self.now other.now result }
    {
        Fronts {
            waiting: self.waiting || other.waiting,
            ends: self.ends.or(other.ends),
        }
    }

    /// The low segments end at the place.
    pub(crate) fn ending_at(place: u8) -> Fronts
        requires { place < 22 }
        ensures { EndsAt place result }
    {
        Fronts {
            waiting: false,
            ends: SlotSet::NONE.with(place),
        }
    }
}
