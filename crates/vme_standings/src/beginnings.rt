//! The phases of the grants and BBSY* when a capture begins.
ghost use Rattle.std.specs.Prelude.{◌≡◌, ◌<◌, ℕ, true, slice_index_or};
ghost use Rattle.vme_bus.specs.Sets.{has};
ghost use Rattle.vme_model.specs.Plan.{Plan as PlanValue};
ghost use Rattle.vme_standings.specs.declared.phases.GrantPhase.{GrantPhase as PhaseValue};
ghost use Rattle.vme_standings.specs.Beginnings.{CanBegin, KeepsPhases, ShowsAt, ShowsChain};
ghost use Rattle.vme_standings.specs.Cuts.{is_so};
ghost use Rattle.vme_standings.specs.Grants.{are_alike};
ghost use Rattle.vme_standings.specs.LowSegments.{is_low_in};
ghost use Rattle.vme_standings.specs.Phases.{HasExactly, has_bit, has_phase, is_held, is_in_table, no_slots};

use crate::cuts::PhaseFact;
use crate::phases::GrantPhases;
use vme_bus::SlotSet;
use vme_model::{BusLevels, Version};
use vme_slots::Plan;

/// What a probe on a segment says of the phase.
fn seen_at(level: u8, place: u8, low: SlotSet) -> PhaseFact
    ensures { (p : PlanValue) (q : PhaseValue) → is_so p result q
        ≡ are_alike (has low place) (is_low_in p level place q) }
{
    if low.has(place) {
        PhaseFact::SegmentLow { level, place }
    } else {
        PhaseFact::SegmentHigh { level, place }
    }
}

/// What BBSY* says of the phase.
fn seen_busy(is_busy: bool) -> PhaseFact
    ensures { (p : PlanValue) (q : PhaseValue) → is_so p result q ≡ are_alike is_busy (is_held q) }
{
    if is_busy {
        PhaseFact::BusyLow
    } else {
        PhaseFact::BusyHigh
    }
}

/// The row of a level.
fn row_of(rows: &[SlotSet; 4], level: u8) -> SlotSet
    ensures { result ≡ slice_index_or rows.now level no_slots }
{
    rows.get(usize::from(level))
        .copied()
        .unwrap_or(SlotSet::NONE)
}

impl GrantPhases {
    /// The phases of a bus that is running: BBSY* is low or high, and so are the segments of the
    /// grant chains that a probe is on. Both sets of segments are by level; a segment is named by
    /// the slot of the board that drives it, and 0 names the controller's.
    pub fn running(
        plan: &Plan,
        version: Version,
        requests: BusLevels,
        is_busy: bool,
        probed: &[SlotSet; 4],
        low: &[SlotSet; 4],
    ) -> GrantPhases
        ensures only { (q : PhaseValue) → has_bit q ≡ true → has_phase result q ≡ true
            → CanBegin plan.now version requests is_busy probed.now low.now q }
        ensures all { (q : PhaseValue) → is_in_table q ≡ true
            → CanBegin plan.now version requests is_busy probed.now low.now q
            → has_phase result q ≡ true }
    {
        GrantPhases::all()
            .keeping(plan, PhaseFact::Possible { version, requests })
            .keeping(plan, seen_busy(is_busy))
            .showing(plan, probed, low)
    }

    /// The phases of the set in which each probed segment is as the probe sees it.
    fn showing(&self, plan: &Plan, probed: &[SlotSet; 4], low: &[SlotSet; 4]) -> GrantPhases
        ensures { KeepsPhases
            (λ q. (c : ℕ) → c < 4 → ShowsChain plan.now probed.now low.now c q) self.now result }
    {
        let mut shown = *self;
        for level in 0..4_u8 {
            shown = shown.showing_chain(plan, level, row_of(probed, level), row_of(low, level));
        }
        shown
    }

    /// The same for the segments of one level's chain.
    fn showing_chain(&self, plan: &Plan, level: u8, probed: SlotSet, low: SlotSet) -> GrantPhases
        ensures { KeepsPhases (λ q. (s : ℕ) → s < 22 → ShowsAt plan.now level probed low s q)
            self.now result }
    {
        let mut shown = *self;
        for place in 0..22_u8 {
            shown = shown.showing_segment(plan, level, place, probed, low);
        }
        shown
    }

    /// The same for one segment.
    fn showing_segment(
        &self,
        plan: &Plan,
        level: u8,
        place: u8,
        probed: SlotSet,
        low: SlotSet,
    ) -> GrantPhases
        ensures { KeepsPhases (ShowsAt plan.now level probed low place) self.now result }
    {
        if !probed.has(place) {
            return *self;
        }
        self.keeping(plan, seen_at(level, place, low))
    }
}
