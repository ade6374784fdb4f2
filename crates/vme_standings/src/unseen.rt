//! The phases to which edges of the grant chains lead that no probe sees.
ghost use Rattle.std.specs.Prelude.{◌≡◌, ◌&&◌, ◌||◌, ◌<◌, ℕ, nat_le, true};
ghost use Rattle.vme_bus.specs.Sets.{has};
ghost use Rattle.vme_model.specs.Signals.{is_two};
ghost use Rattle.vme_standings.specs.declared.phases.GrantPhase.{GrantPhase as PhaseValue};
ghost use Rattle.vme_standings.specs.GrantChains.{is_of_level, place_before};
ghost use Rattle.vme_standings.specs.Phases.{HoldsBits, has_phase, is_idle_at};
ghost use Rattle.vme_standings.specs.Unseen.{IsReached, IsRound, ReachesLevel, RisesAllHeld, RisesHeld, Walks, falls_unseen, has_row_for, is_first, is_idle_alike, is_last, is_over, is_unseen, leads, rises_unseen};

use crate::chains::{end_place, followers, is_of_level, place_before, requester_at};
use crate::grants::is_granted;
use crate::phases::{GrantPhases, row_if, with_if};
use vme_bus::SlotSet;
use vme_model::{BusLevels, Version};
use vme_slots::Plan;

/// Whether no probe is on a segment of a level's chain.
pub fn is_unseen(probed: &[SlotSet; 4], level: u8, place: u8) -> bool
    ensures { result ≡ is_unseen probed.now level place }
{
    match probed.get(usize::from(level)) {
        Some(places) => !places.has(place),
        None => true,
    }
}

/// Whether the segment of a slot may fall unseen behind the one before it. The first version keeps
/// the grant from getting past the last board.
fn falls_unseen(plan: &Plan, version: Version, probed: &[SlotSet; 4], level: u8, slot: u8) -> bool
    ensures { result ≡ falls_unseen plan.now version probed.now level slot }
{
    is_of_level(plan, level, slot)
        && ((version.is_two() || slot != end_place(plan, level)) && is_unseen(probed, level, slot))
}

/// The segments of a level's chain that may fall unseen behind the one before them.
fn falls(plan: &Plan, version: Version, probed: &[SlotSet; 4], level: u8) -> SlotSet
    ensures { (t : ℕ) → has result t ≡ falls_unseen plan.now version probed.now level t }
{
    plan.accepted();
    let mut found = SlotSet::NONE;
    for slot in 0..22_u8 {
        found = with_if(
            found,
            slot,
            falls_unseen(plan, version, probed, level, slot),
        );
    }
    found
}

/// Whether the segment of a slot is the first low one once the one before it rose unseen.
fn rises_unseen(plan: &Plan, probed: &[SlotSet; 4], level: u8, slot: u8) -> bool
    ensures { result ≡ rises_unseen plan.now probed.now level slot }
{
    is_of_level(plan, level, slot) && is_unseen(probed, level, place_before(plan, level, slot))
}

/// The segments of a level's chain, up to the last one, that are the first low one once the one
/// before them rose unseen.
fn rises(plan: &Plan, probed: &[SlotSet; 4], level: u8, last: u8) -> SlotSet
    requires { last < 22 }
    ensures { (t : ℕ) → has result t
        ≡ (nat_le t last && rises_unseen plan.now probed.now level t) }
{
    let mut found = SlotSet::NONE;
    for slot in 0..last + 1 {
        found = with_if(found, slot, rises_unseen(plan, probed, level, slot));
    }
    found
}

/// Whether a step leads to the segment of a slot from the one before it.
fn is_step(plan: &Plan, level: u8, steps: SlotSet, reached: SlotSet, slot: u8) -> bool
    ensures { result ≡ (has steps slot && has reached (place_before plan.now level slot)) }
{
    steps.has(slot) && reached.has(place_before(plan, level, slot))
}

/// The segments of a level's chain to which steps lead from some of them.
fn walk(plan: &Plan, level: u8, steps: SlotSet, from: SlotSet) -> SlotSet
    requires { (t : ℕ) → has steps t ≡ true → is_of_level plan.now level t ≡ true }
    ensures { Walks plan.now level (has steps) (has from) result }
{
    plan.accepted();
    let mut reached = from;
    for slot in 0..22_u8 {
        reached = with_if(reached, slot, is_step(plan, level, steps, reached, slot));
    }
    reached
}

/// The last low segments of a level's grants, with that of a grant that begins unseen.
fn lasts(
    plan: &Plan,
    requests: BusLevels,
    probed: &[SlotSet; 4],
    level: u8,
    phases: &GrantPhases,
) -> SlotSet
    ensures { (t : ℕ) → has result t ≡ is_last plan.now requests probed.now level phases.now t }
{
    let begins = is_unseen(probed, level, 0) && is_granted(plan, requests, level, phases);
    with_if(phases.granting_row(level), 0, begins)
}

/// The last low segments of a level's grants behind edges that no probe sees.
fn granting_reached(
    plan: &Plan,
    version: Version,
    requests: BusLevels,
    probed: &[SlotSet; 4],
    level: u8,
    phases: &GrantPhases,
) -> SlotSet
    ensures { Walks plan.now level (falls_unseen plan.now version probed.now level)
        (is_last plan.now requests probed.now level phases.now) result }
{
    let from = lasts(plan, requests, probed, level, phases);
    let is_some = from.is_some();
    if is_some {
        return walk(plan, level, falls(plan, version, probed, level), from);
    }
    from
}

/// The first low segments of a level's grants that nobody took, with that of a grant that the
/// controller takes back unseen.
fn firsts(
    plan: &Plan,
    version: Version,
    probed: &[SlotSet; 4],
    level: u8,
    lasts: SlotSet,
    phases: &GrantPhases,
) -> SlotSet
    ensures { (t : ℕ) → has result t
        ≡ is_first plan.now version probed.now level lasts phases.now t }
{
    let row = phases.expired_row(level);
    let is_out = version.is_two()
        && (is_unseen(probed, level, 0) && lasts.has(end_place(plan, level)));
    if is_out {
        return row.or(followers(plan, level, 0));
    }
    row
}

/// The segments of a level's chain that are the first low one of a grant that nobody took once the
/// one before them rose unseen. There are none in the first version.
fn expired_rises(plan: &Plan, version: Version, probed: &[SlotSet; 4], level: u8) -> SlotSet
    ensures { (t : ℕ) → has result t
        ≡ (is_two version && rises_unseen plan.now probed.now level t) }
{
    plan.accepted();
    row_if(version.is_two(), rises(plan, probed, level, 21))
}

/// The first low segments of a level's grants that nobody took, behind edges that no probe sees.
fn expired_reached(
    plan: &Plan,
    version: Version,
    probed: &[SlotSet; 4],
    level: u8,
    lasts: SlotSet,
    phases: &GrantPhases,
) -> SlotSet
    ensures { Walks plan.now level
        (λ t. is_two version && rises_unseen plan.now probed.now level t)
        (is_first plan.now version probed.now level lasts phases.now) result }
{
    let from = firsts(plan, version, probed, level, lasts, phases);
    let is_some = from.is_some();
    if is_some {
        return walk(
            plan,
            level,
            expired_rises(plan, version, probed, level),
            from,
        );
    }
    from
}

/// Whether the last segment of a grant that nobody took may rise unseen.
fn is_over(plan: &Plan, version: Version, probed: &[SlotSet; 4], level: u8, firsts: SlotSet) -> bool
    ensures { result ≡ is_over plan.now version probed.now level firsts }
{
    let end = end_place(plan, level);
    version.is_two() && (is_unseen(probed, level, end) && firsts.has(end))
}

/// Whether the bus may be idle with that level last granted, behind edges that no probe sees.
fn is_idle_reached(
    plan: &Plan,
    version: Version,
    probed: &[SlotSet; 4],
    level: u8,
    firsts: SlotSet,
    phases: &GrantPhases,
) -> bool
    ensures { result
        ≡ (is_idle_at phases.now level || is_over plan.now version probed.now level firsts) }
{
    phases.is_idle_at(level) || is_over(plan, version, probed, level, firsts)
}

/// The set with the phases of each level to which edges of its chain lead that no probe sees. No
/// grant begins behind an idle phase that the round itself adds.
fn round(
    plan: &Plan,
    version: Version,
    requests: BusLevels,
    probed: &[SlotSet; 4],
    from: &GrantPhases,
) -> GrantPhases
    ensures { IsRound plan.now version requests probed.now from.now result }
{
    let mut reached = *from;
    for level in 0..4_u8 {
        let lasts = granting_reached(plan, version, requests, probed, level, from);
        let firsts = expired_reached(plan, version, probed, level, lasts, from);
        let is_idle = is_idle_reached(plan, version, probed, level, firsts, from);
        reached.set_level(level, is_idle, lasts, firsts);
    }
    reached
}

/// Whether the two sets have the same idle phases.
fn is_idle_alike(a: &GrantPhases, b: &GrantPhases) -> bool
    ensures { result ≡ is_idle_alike a.now b.now }
{
    [0, 1, 2, 3]
        .iter()
        .all(|level| a.is_idle_at(*level) == b.is_idle_at(*level))
}

/// The first low segments of a holder to which unseen rises lead.
fn held_reached(plan: &Plan, probed: &[SlotSet; 4], board: u8, firsts: SlotSet) -> SlotSet
    requires { board < 22 }
    ensures { RisesHeld plan.now probed.now board firsts result }
{
    let is_some = firsts.is_some();
    if is_some {
        return held_walk(plan, probed, board, firsts);
    }
    firsts
}

/// The same, where there may be some.
fn held_walk(plan: &Plan, probed: &[SlotSet; 4], board: u8, firsts: SlotSet) -> SlotSet
    requires { board < 22 }
    ensures { RisesHeld plan.now probed.now board firsts result }
{
    match requester_at(plan, board) {
        Some(requester) => {
            let steps = rises(plan, probed, requester.level, board);
            walk(plan, requester.level, steps, firsts)
        }
        None => firsts,
    }
}

/// The set with the phases of each holder to which unseen rises lead.
fn with_held(plan: &Plan, probed: &[SlotSet; 4], phases: &GrantPhases) -> GrantPhases
    ensures { RisesAllHeld plan.now probed.now phases.now result }
{
    let mut reached = *phases;
    for board in 0..22_u8 {
        let firsts = held_reached(plan, probed, board, phases.held_row(board));
        reached.set_held_row(board, firsts);
    }
    reached
}

/// The set with all phases to which edges of the grant chains lead that no probe sees, one after
/// the other. `probed` has the segments by level that a probe is on: a segment is named by the slot
/// of the board that drives it, and 0 names the controller's.
pub fn with_unseen(
    plan: &Plan,
    version: Version,
    requests: BusLevels,
    probed: &[SlotSet; 4],
    phases: &GrantPhases,
) -> GrantPhases
    ensures kept { (q : PhaseValue) → has_row_for q ≡ true → has_phase phases.now q ≡ true
        → has_phase result q ≡ true }
    ensures closed { (q r : PhaseValue) → has_row_for q ≡ true
        → leads plan.now version requests probed.now q r ≡ true
        → has_phase result q ≡ true → has_phase result r ≡ true }
    ensures only { (q : PhaseValue) → has_row_for q ≡ true → has_phase result q ≡ true
        → IsReached plan.now version requests probed.now phases.now q }
    ensures bits { HoldsBits result }
{
    plan.accepted();
    let mut reached = with_held(plan, probed, phases);
    // each round but the last adds an idle phase, and there are four
    for _round in 0..5_u8 {
        let next = round(plan, version, requests, probed, &reached);
        let is_closed = is_idle_alike(&next, &reached);
        reached = next;
        if is_closed {
            reached.holds_bits();
            return reached;
        }
    }
    reached.holds_bits();
    reached
}
