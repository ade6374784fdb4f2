//! The phases of a set in which something is so: what the conditions of a change ask of the grants
//! and BBSY*.
ghost use Rattle.std.specs.Prelude.{◌≡◌, ◌==◌, ◌&&◌, ◌||◌, ◌<◌, ℕ, true, false, not, Some};
ghost use Rattle.vme_bus.specs.Sets.{has};
ghost use Rattle.vme_standings.specs.declared.phases.GrantPhase.{GrantPhase as PhaseValue};
ghost use Rattle.vme_standings.specs.declared.phases.GrantPhase.TheVariants.{Granting, Idle};
ghost use Rattle.vme_standings.specs.Cuts.{ChangesLevel, are_all_high, are_grants_high, is_nowhere, is_past_all, is_possible, is_so, last_level, phase_at};
ghost use Rattle.vme_standings.specs.GrantChains.{is_of_level, place_before};
ghost use Rattle.vme_standings.specs.Grants.{is_asked_above, is_picked};
ghost use Rattle.vme_standings.specs.LowSegments.{is_in_run, is_low_in, is_segment};
ghost use Rattle.vme_standings.specs.Phases.{HasExactly, HasFree, has_phase, is_held, is_held_by, is_in_table, level_of};
ghost use Rattle.std.specs.Option.{option_map_or};

use crate::chains::{end_place, is_of_level, place_before, requester_at};
use crate::grants::{is_asked_above, is_picked};
use crate::phases::{GrantPhase, GrantPhases, with_if};
use vme_bus::SlotSet;
use vme_model::{BusLevels, Version};
use vme_slots::Plan;

/// What may be so in a phase of the grants and BBSY*. Levels are 0 to 3. A segment of a level's
/// chain is named by the slot of the board that drives it, and 0 names the controller's.
#[derive(Clone, Copy)]
pub enum PhaseFact {
    /// The segment of the level's chain is low.
    SegmentLow {
        level: u8,
        place: u8,
    },
    /// The segment of the level's chain is high, or the chain has no such segment.
    SegmentHigh {
        level: u8,
        place: u8,
    },
    /// Somebody holds the bus.
    BusyLow,
    /// Nobody holds the bus.
    BusyHigh,
    /// The board of this slot holds the bus.
    HeldBy {
        board: u8,
    },
    /// The board of this slot does not hold the bus.
    NotHeldBy {
        board: u8,
    },
    /// The policy picks the level of the requested ones, by the level last granted.
    Picked {
        requests: BusLevels,
        level: u8,
    },
    /// A level above the one last granted is requested.
    AskedAbove {
        requests: BusLevels,
    },
    /// The controller's four grants are high.
    GrantsHigh,
    /// All segments of the grant chains are high.
    AllHigh,
    /// Somebody took the grant of the level, or it has passed the last board of its chain.
    PastAll {
        level: u8,
    },
    /// A bus that keeps this version of the rules can be in the phase while these levels are
    /// requested.
    Possible {
        version: Version,
        requests: BusLevels,
    },
}

/// The phases of a set that differ in one segment alone.
#[derive(Clone, Copy)]
enum PhaseRow {
    /// The grants of a level that are under way, by the last low segment.
    Granting(u8),
    /// A holder, by the first low segment.
    Held(u8),
    /// The grants of a level that nobody took, by the first low segment.
    Expired(u8),
}

impl PhaseRow {
    /// The phase of the row with that segment.
    fn phase_at(self, place: u8) -> GrantPhase
        ensures { result ≡ phase_at self place }
    {
        match self {
            PhaseRow::Granting(level) => GrantPhase::Granting { level, last: place },
            PhaseRow::Held(board) => GrantPhase::Held {
                board,
                first: place,
            },
            PhaseRow::Expired(level) => GrantPhase::Expired {
                level,
                first: place,
            },
        }
    }
}

/// Whether the chain of the level has the segment.
pub fn is_segment(plan: &Plan, level: u8, place: u8) -> bool
    ensures { result ≡ is_segment plan.now level place }
{
    place == 0 || is_of_level(plan, level, place)
}

/// Whether the place is between the first and the last low segment of the level's chain.
fn is_in_run(plan: &Plan, level: u8, place: u8, phase: GrantPhase) -> bool
    ensures { result ≡ is_in_run plan.now level place phase }
{
    match phase {
        GrantPhase::Idle { .. } => false,
        GrantPhase::Granting { level: own, last } => own == level && place <= last,
        GrantPhase::Held { board, first } => {
            is_of_level(plan, level, board) && (first <= place && place < board)
        }
        GrantPhase::Expired { level: own, first } => own == level && first <= place,
    }
}

/// Whether the segment of the level's chain is low in the phase.
pub fn is_low_in(plan: &Plan, level: u8, place: u8, phase: GrantPhase) -> bool
    ensures { result ≡ is_low_in plan.now level place phase }
{
    is_segment(plan, level, place) && is_in_run(plan, level, place, phase)
}

/// Whether somebody holds the bus in the phase.
fn is_held(phase: GrantPhase) -> bool
    ensures { result ≡ is_held phase }
{
    matches!(phase, GrantPhase::Held { .. })
}

/// Whether the board of a slot holds the bus in the phase.
fn is_held_by(board: u8, phase: GrantPhase) -> bool
    ensures { result ≡ is_held_by (λ k. k == board) phase }
{
    match phase {
        GrantPhase::Held { board: holder, .. } => holder == board,
        _ => false,
    }
}

/// The level last granted in the phase: that of the holder, if somebody holds the bus.
fn last_level(plan: &Plan, phase: GrantPhase) -> Option<u8>
    ensures { result ≡ last_level plan.now phase }
{
    match phase {
        GrantPhase::Idle { level } => Some(level),
        GrantPhase::Granting { level, .. } => Some(level),
        GrantPhase::Held { board, .. } => match requester_at(plan, board) {
            Some(requester) => Some(requester.level),
            None => None,
        },
        GrantPhase::Expired { level, .. } => Some(level),
    }
}

/// Whether the policy picks the level in the phase.
fn is_picked_in(plan: &Plan, requests: BusLevels, level: u8, phase: GrantPhase) -> bool
    ensures { result ≡ option_map_or (λ last. is_picked plan.now requests last level)
        (last_level plan.now phase) false }
{
    match last_level(plan, phase) {
        Some(last) => is_picked(plan, requests, last, level),
        None => false,
    }
}

/// Whether a level above the one last granted in the phase is requested.
fn is_asked_above_in(plan: &Plan, requests: BusLevels, phase: GrantPhase) -> bool
    ensures { result ≡ option_map_or (λ last. is_asked_above last requests)
        (last_level plan.now phase) false }
{
    match last_level(plan, phase) {
        Some(last) => is_asked_above(last, requests),
        None => false,
    }
}

/// Whether no segment of the controller is low in the phase.
fn are_grants_high(phase: GrantPhase) -> bool
    ensures { result ≡ are_grants_high phase }
{
    match phase {
        GrantPhase::Idle { .. } | GrantPhase::Expired { .. } => true,
        GrantPhase::Held { first, .. } => 0 < first,
        GrantPhase::Granting { .. } => false,
    }
}

/// Whether no segment of the grant chains is low in the phase.
fn are_all_high(phase: GrantPhase) -> bool
    ensures { result ≡ are_all_high phase }
{
    match phase {
        GrantPhase::Idle { .. } => true,
        GrantPhase::Held { board, first } => board <= first,
        GrantPhase::Granting { .. } | GrantPhase::Expired { .. } => false,
    }
}

/// Whether a grant of the level with that last low segment is possible: the first version keeps it
/// from the last segment, and keeps the request as long as the grant.
fn is_grant_possible(
    plan: &Plan,
    version: Version,
    requests: BusLevels,
    level: u8,
    last: u8,
) -> bool
    ensures { result ≡ is_possible plan.now version requests (Granting level last) }
{
    let end = end_place(plan, level);
    (is_segment(plan, level, last) && end != 0)
        && (version.is_two() || (requests.has(level) && last != end))
}

/// Whether a bus can be in the phase.
fn is_possible(plan: &Plan, version: Version, requests: BusLevels, phase: GrantPhase) -> bool
    ensures { result ≡ is_possible plan.now version requests phase }
{
    match phase {
        GrantPhase::Idle { .. } => true,
        GrantPhase::Granting { level, last } => {
            is_grant_possible(plan, version, requests, level, last)
        }
        GrantPhase::Held { board, first } => match requester_at(plan, board) {
            Some(requester) => is_segment(plan, requester.level, first) && first <= board,
            None => false,
        },
        GrantPhase::Expired { level, first } => {
            version.is_two() && is_of_level(plan, level, first)
        }
    }
}

/// Whether the fact is so in the phase.
pub fn is_so(plan: &Plan, fact: PhaseFact, phase: GrantPhase) -> bool
    ensures { result ≡ is_so plan.now fact phase }
{
    match fact {
        PhaseFact::SegmentLow { level, place } => is_low_in(plan, level, place, phase),
        PhaseFact::SegmentHigh { level, place } => !is_low_in(plan, level, place, phase),
        PhaseFact::BusyLow => is_held(phase),
        PhaseFact::BusyHigh => !is_held(phase),
        PhaseFact::HeldBy { board } => is_held_by(board, phase),
        PhaseFact::NotHeldBy { board } => !is_held_by(board, phase),
        PhaseFact::Picked { requests, level } => is_picked_in(plan, requests, level, phase),
        PhaseFact::AskedAbove { requests } => is_asked_above_in(plan, requests, phase),
        PhaseFact::GrantsHigh => are_grants_high(phase),
        PhaseFact::AllHigh => are_all_high(phase),
        PhaseFact::PastAll { level } => {
            is_held(phase) || is_low_in(plan, level, end_place(plan, level), phase)
        }
        PhaseFact::Possible { version, requests } => is_possible(plan, version, requests, phase),
    }
}

/// Whether the row has a phase at the place, in which the fact is so.
fn is_so_at(plan: &Plan, fact: PhaseFact, row: PhaseRow, places: SlotSet, place: u8) -> bool
    ensures { result ≡ (has places place && is_so plan.now fact (phase_at row place)) }
{
    places.has(place) && is_so(plan, fact, row.phase_at(place))
}

/// Of the places of a row those in whose phase the fact is so.
fn row_where(plan: &Plan, fact: PhaseFact, row: PhaseRow, places: SlotSet) -> SlotSet
    ensures { (t : ℕ) → t < 32 → has result t
        ≡ (has places t && is_so plan.now fact (phase_at row t)) }
{
    let mut kept = SlotSet::NONE;
    for place in 0..32_u8 {
        kept = with_if(kept, place, is_so_at(plan, fact, row, places, place));
    }
    kept
}

impl GrantPhases {
    /// The phases of the set in which the fact is so.
    pub fn keeping(&self, plan: &Plan, fact: PhaseFact) -> GrantPhases
        ensures { HasExactly result (λ q. has_phase self.now q && is_so plan.now fact q) }
    {
        let mut kept = self.free_where(plan, fact);
        for board in 0..22_u8 {
            let row = row_where(plan, fact, PhaseRow::Held(board), self.held_row(board));
            kept.set_held_row(board, row);
        }
        kept
    }

    /// Of the phases in which nobody holds the bus those in which the fact is so.
    fn free_where(&self, plan: &Plan, fact: PhaseFact) -> GrantPhases
        ensures { HasFree result (λ q. has_phase self.now q && is_so plan.now fact q) }
    {
        let mut kept = GrantPhases::none();
        for level in 0..4_u8 {
            let is_idle = self.is_idle_where(plan, fact, level);
            let lasts = self.granting_row(level);
            let firsts = self.expired_row(level);
            let kept_lasts = row_where(plan, fact, PhaseRow::Granting(level), lasts);
            let kept_firsts = row_where(plan, fact, PhaseRow::Expired(level), firsts);
            kept.set_level(level, is_idle, kept_lasts, kept_firsts);
        }
        kept
    }

    /// Whether the bus may be idle with that level last granted, and the fact is so then.
    fn is_idle_where(&self, plan: &Plan, fact: PhaseFact, level: u8) -> bool
        ensures { result ≡ (has_phase self.now (Idle level) && is_so plan.now fact (Idle level)) }
    {
        self.is_idle_at(level) && is_so(plan, fact, GrantPhase::Idle { level })
    }

    /// Puts other phases in the place of those of a level in which nobody holds the bus.
    pub(crate) fn set_level(&mut self, level: u8, is_idle: bool, lasts: SlotSet, firsts: SlotSet)
        requires { level < 4 }
        ensures { ChangesLevel level is_idle lasts firsts self.old self.new }
    {
        self.set_idle(level, is_idle);
        self.set_granting_row(level, lasts);
        self.set_expired_row(level, firsts);
    }

    /// Whether the set has no phase.
    pub fn is_empty(&self) -> bool
        ensures none { result ≡ true → (q : PhaseValue) → is_in_table q ≡ true
            → has_phase self.now q ≡ false }
        ensures some { result ≡ false → (q : PhaseValue) × (has_phase self.now q ≡ true) }
    {
        let is_free = self.has_free();
        if is_free {
            return false;
        }
        let holders = self.holders();
        let is_held = holders.is_some();
        !is_held
    }

    /// The boards of the level at which a grant of it may be waiting: the board's input is the last
    /// low segment.
    pub fn standing_at(&self, plan: &Plan, level: u8) -> SlotSet
        ensures { (b : ℕ) → has result b ≡ (is_of_level plan.now level b
            && has_phase self.now (Granting level (place_before plan.now level b))) }
    {
        plan.accepted();
        let mut boards = SlotSet::NONE;
        for slot in 0..22_u8 {
            boards = with_if(boards, slot, self.is_standing_at(plan, level, slot));
        }
        boards
    }

    /// Whether a grant of the level may be waiting at the board of a slot.
    fn is_standing_at(&self, plan: &Plan, level: u8, slot: u8) -> bool
        ensures { result ≡ (is_of_level plan.now level slot
            && has_phase self.now (Granting level (place_before plan.now level slot))) }
    {
        is_of_level(plan, level, slot)
            && self
                .granting_row(level)
                .has(place_before(plan, level, slot))
    }

    /// Whether the set has a phase in which a grant waits at no board.
    pub fn may_be_nowhere(&self, plan: &Plan) -> bool
        ensures some { result ≡ true → (q : PhaseValue) × (has_phase self.now q ≡ true)
            × (is_nowhere plan.now q ≡ true) }
        ensures all { (q : PhaseValue) → is_in_table q ≡ true → has_phase self.now q ≡ true
            → is_nowhere plan.now q ≡ true → result ≡ true }
    {
        let holders = self.holders();
        let is_held = holders.is_some();
        if is_held {
            return true;
        }
        for level in 0..4_u8 {
            if self.may_be_nowhere_at(plan, level) {
                return true;
            }
        }
        false
    }

    /// Whether the set has a phase of this level in which nobody holds the bus and a grant waits at
    /// no board.
    fn may_be_nowhere_at(&self, plan: &Plan, level: u8) -> bool
        ensures some { result ≡ true → (q : PhaseValue) × (has_phase self.now q ≡ true)
            × (is_nowhere plan.now q ≡ true) }
        ensures all { (q : PhaseValue) → level_of q ≡ Some level → has_phase self.now q ≡ true
            → is_nowhere plan.now q ≡ true → result ≡ true }
    {
        if self.is_idle_at(level) {
            return true;
        }
        let is_past = self.granting_row(level).has(end_place(plan, level));
        if is_past {
            return true;
        }
        let firsts = self.expired_row(level);
        let is_expired = firsts.is_some();
        is_expired
    }
}
