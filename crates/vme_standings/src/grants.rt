//! The phases of the grants and BBSY* behind each change that the probes see, and who may have made
//! it. The phases that the edges without a probe lead to are in the set before.
ghost use Rattle.std.specs.Prelude.{◌≡◌, ◌==◌, ◌&&◌, ◌||◌, ◌<◌, ℕ, true, false, nat_lt, not};
ghost use Rattle.vme_bus.specs.Sets.{has};
ghost use Rattle.vme_model.specs.Signals.{is_two};
ghost use Rattle.vme_standings.specs.declared.phases.GrantPhase.{GrantPhase as PhaseValue};
ghost use Rattle.vme_standings.specs.GrantChains.{is_of_level};
ghost use Rattle.vme_standings.specs.Phases.{HasExactly, HasFree, has_phase, is_held_by, is_in_table};
ghost use Rattle.vme_standings.specs.declared.phases.GrantPhase.TheVariants.{Held};
ghost use Rattle.vme_standings.specs.Grants.{IsBehindRequest, are_alike, is_asked_above, behind_grant, behind_pass, behind_release, behind_rise, behind_take, can_release, held_behind_rise, is_asked, is_clear_due, is_granted, is_let_go, is_outranked, is_passed, is_picked, is_run_out, is_taken, may_end};
ghost use Rattle.std.specs.List.{list_any};
ghost use Rattle.vme_model.specs.Plan.{active, grant_chain};
ghost use Rattle.vme_model.specs.Rules.{is_pri};

use crate::chains::{end_place, followers, is_of_level, place_before, requester_at};
use crate::phases::{GrantPhases, row_if, with_if};
use vme_arbiter::{AnyPolicy, Policy};
use vme_bus::SlotSet;
use vme_model::{ArbiterKind, BusLevels, ChainId, Release, Version};
use vme_slots::Plan;

/// The set of one slot.
pub(crate) fn just(slot: u8) -> SlotSet
    requires { slot < 32 }
    ensures { (s : ℕ) → has result s ≡ (s == slot) }
{
    SlotSet::NONE.with(slot)
}

/// The boards of a level.
pub fn boards_of_level(plan: &Plan, level: u8) -> SlotSet
    ensures { (s : ℕ) → has result s ≡ is_of_level plan.now level s }
{
    plan.accepted();
    let mut boards = SlotSet::NONE;
    for slot in 0..22_u8 {
        boards = with_if(boards, slot, is_of_level(plan, level, slot));
    }
    boards
}

/// Whether both are so.
fn both(a: bool, b: bool) -> bool
    ensures { result ≡ (a && b) }
{
    a && b
}

/// Of these slots those whose board is of the level.
fn of_level(plan: &Plan, level: u8, slots: SlotSet) -> SlotSet
    ensures { (s : ℕ) → has result s ≡ (is_of_level plan.now level s && has slots s) }
{
    plan.accepted();
    let mut found = SlotSet::NONE;
    for slot in 0..22_u8 {
        let is_of_level = is_of_level(plan, level, slot);
        let is_held = slots.has(slot);
        let is_both = both(is_of_level, is_held);
        found = with_if(found, slot, is_both);
    }
    found
}

/// Whether the policy picks the level of these requests, with another level last granted.
pub(crate) fn is_picked(plan: &Plan, requests: BusLevels, last: u8, level: u8) -> bool
    ensures { result ≡ is_picked plan.now requests last level }
{
    match AnyPolicy::from(plan.arbiter()).pick(requests, last) {
        Some(picked) => picked == level,
        None => false,
    }
}

/// Whether the controller may grant the level: the bus may be idle with a level last granted behind
/// which the policy picks it.
pub(crate) fn is_granted(plan: &Plan, requests: BusLevels, level: u8, phases: &GrantPhases) -> bool
    ensures { result ≡ is_granted plan.now requests level phases.now }
{
    [0, 1, 2, 3].iter().any(|last| phases.is_idle_at(*last)
        && is_picked(plan, requests, *last, level))
}

/// The phases behind a fall of the controller's segment of a level's chain. It is the controller
/// that made it, if there are any.
pub fn behind_grant(
    plan: &Plan,
    requests: BusLevels,
    level: u8,
    phases: &GrantPhases,
) -> GrantPhases
    requires { level < 4 }
    ensures { HasExactly result (behind_grant plan.now requests level phases.now) }
{
    let mut behind = GrantPhases::none();
    if is_granted(plan, requests, level, phases) {
        behind.set_granting_row(level, just(0));
        return behind;
    }
    behind
}

/// Whether a board may pass a grant of the level on. The first version keeps the grant from getting
/// past the last board of its chain.
pub(crate) fn is_passed(
    plan: &Plan,
    version: Version,
    level: u8,
    slot: u8,
    phases: &GrantPhases,
) -> bool
    ensures { result ≡ is_passed plan.now version level slot phases.now }
{
    (version.is_two() || slot != end_place(plan, level))
        && is_of_level(plan, level, slot)
        && phases
            .granting_row(level)
            .has(place_before(plan, level, slot))
}

/// The phases behind a fall of a board's segment of a level's chain. It is the board that made it,
/// if there are any.
pub fn behind_pass(
    plan: &Plan,
    version: Version,
    level: u8,
    slot: u8,
    phases: &GrantPhases,
) -> GrantPhases
    requires level { level < 4 }
    requires slot { slot < 22 }
    ensures { HasExactly result (behind_pass plan.now version level slot phases.now) }
{
    let mut behind = GrantPhases::none();
    if is_passed(plan, version, level, slot, phases) {
        behind.set_granting_row(level, just(slot));
        return behind;
    }
    behind
}

/// Whether a segment of a level's chain may rise because nobody took the grant: in the second
/// version the controller's once the grant has passed the last board, and then one by one.
pub(crate) fn is_run_out(
    plan: &Plan,
    version: Version,
    level: u8,
    place: u8,
    phases: &GrantPhases,
) -> bool
    ensures { result ≡ is_run_out plan.now version level place phases.now }
{
    version.is_two()
        && if place == 0 {
            phases.granting_row(level).has(end_place(plan, level))
        } else {
            phases.expired_row(level).has(place)
        }
}

/// Whether a segment of a level's chain may rise because the board of a slot took the grant.
pub(crate) fn is_let_go(plan: &Plan, level: u8, place: u8, board: u8, phases: &GrantPhases) -> bool
    ensures { result ≡ is_let_go plan.now level place phases.now board }
{
    place < board && is_of_level(plan, level, board) && phases.held_row(board).has(place)
}

/// The phases behind a rise of a segment of a level's chain: the controller's, 0, or that of a
/// board. It is the driver of the segment that made it, if there are any.
pub fn behind_rise(
    plan: &Plan,
    version: Version,
    level: u8,
    place: u8,
    phases: &GrantPhases,
) -> GrantPhases
    requires { level < 4 }
    ensures { HasExactly result (behind_rise plan.now version level place phases.now) }
{
    let next = followers(plan, level, place);
    let mut behind = held_behind_rise(plan, level, place, next, phases);
    if is_run_out(plan, version, level, place, phases) {
        behind.set_expired_row(level, next);
        behind.set_idle(level, place == end_place(plan, level));
        return behind;
    }
    behind
}

/// Of the phases behind a rise of a segment those in which a board holds the bus.
fn held_behind_rise(
    plan: &Plan,
    level: u8,
    place: u8,
    next: SlotSet,
    phases: &GrantPhases,
) -> GrantPhases
    ensures { HasExactly result (held_behind_rise plan.now level place next phases.now) }
{
    let mut behind = GrantPhases::none();
    for board in 0..22_u8 {
        let is_let_go = is_let_go(plan, level, place, board, phases);
        behind.set_held_row(board, row_if(is_let_go, next));
    }
    behind
}

/// Whether the board of a slot may take the bus: a grant of its level may stand at it, and its
/// level is requested.
pub(crate) fn is_taken(plan: &Plan, requests: BusLevels, board: u8, phases: &GrantPhases) -> bool
    ensures { result ≡ is_taken plan.now requests phases.now board }
{
    match requester_at(plan, board) {
        Some(requester) => {
            let level = requester.level;
            let before = place_before(plan, level, board);
            requests.has(level) && phases.granting_row(level).has(before)
        }
        None => false,
    }
}

/// The phases behind a fall of BBSY*. Their holders may have made it.
pub fn behind_take(plan: &Plan, requests: BusLevels, phases: &GrantPhases) -> GrantPhases
    ensures { HasExactly result (behind_take plan.now requests phases.now) }
{
    let mut behind = GrantPhases::none();
    for board in 0..22_u8 {
        let is_taken = is_taken(plan, requests, board, phases);
        behind.set_held_row(board, row_if(is_taken, just(0)));
    }
    behind
}

/// Whether some BR line is low.
fn is_asked(requests: BusLevels) -> bool
    ensures { result ≡ is_asked requests }
{
    [0, 1, 2, 3].iter().any(|level| requests.has(*level))
}

/// Whether a requester may give the bus up: one that is ROR if some BR line is low.
fn may_end(requests: BusLevels, release: Release) -> bool
    ensures { result ≡ may_end requests release }
{
    match release {
        Release::Done { .. } => true,
        Release::Request => is_asked(requests),
    }
}

/// Whether the board of a slot may give the bus up: it may hold it with no segment low, and if its
/// requester is ROR, some BR line is low.
fn can_release(plan: &Plan, requests: BusLevels, board: u8, phases: &GrantPhases) -> bool
    ensures { result ≡ can_release plan.now requests phases.now board }
{
    match requester_at(plan, board) {
        Some(requester) => {
            may_end(requests, requester.release) && phases.held_row(board).has(board)
        }
        None => false,
    }
}

/// The boards that may have made a rise of BBSY*.
pub fn releasers(plan: &Plan, requests: BusLevels, phases: &GrantPhases) -> SlotSet
    ensures { (b : ℕ) → has result b ≡ can_release plan.now requests phases.now b }
{
    plan.accepted();
    let mut found = SlotSet::NONE;
    for board in 0..22_u8 {
        found = with_if(found, board, can_release(plan, requests, board, phases));
    }
    found
}

/// Whether some board that works the chain of a level is one of these.
fn is_one_of_level(plan: &Plan, boards: SlotSet, level: u8) -> bool
    ensures { result ≡ list_any (has boards) (active plan.now (grant_chain level)) }
{
    plan.active(ChainId::of_grant(level))
        .iter()
        .any(|board| boards.has(*board))
}

/// The phases behind a rise of BBSY*. The `releasers` may have made it.
pub fn behind_release(plan: &Plan, requests: BusLevels, phases: &GrantPhases) -> GrantPhases
    ensures { HasExactly result (behind_release plan.now requests phases.now) }
{
    let boards = releasers(plan, requests, phases);
    let mut behind = GrantPhases::none();
    for level in 0..4_u8 {
        behind.set_idle(level, is_one_of_level(plan, boards, level));
    }
    behind
}

/// Whether a level above this one is requested.
pub(crate) fn is_asked_above(own: u8, requests: BusLevels) -> bool
    ensures { result ≡ is_asked_above own requests }
{
    [0, 1, 2, 3]
        .iter()
        .any(|level| own < *level && requests.has(*level))
}

/// Whether a level above that of the board in a slot is requested.
fn is_outranked(plan: &Plan, requests: BusLevels, board: u8) -> bool
    ensures { result ≡ is_outranked plan.now requests board }
{
    match requester_at(plan, board) {
        Some(requester) => is_asked_above(requester.level, requests),
        None => false,
    }
}

/// Whether a board does not hold the bus in some phase.
fn is_elsewhere(slot: u8, phases: &GrantPhases) -> bool
    ensures some { result ≡ true → (q : PhaseValue) × (has_phase phases.now q ≡ true)
        × (is_held_by (λ b. b == slot) q ≡ false) }
    ensures all { (q : PhaseValue) → is_in_table q ≡ true → has_phase phases.now q ≡ true
        → is_held_by (λ b. b == slot) q ≡ false → result ≡ true }
{
    let is_free = phases.has_free();
    if is_free {
        return true;
    }
    let holders = phases.holders();
    let is_other = has_other(holders, slot);
    is_other
}

/// The boards that may have made a fall of the BR line of a level: in some phase they do not hold
/// the bus.
pub fn askers(plan: &Plan, level: u8, phases: &GrantPhases) -> SlotSet
    ensures some { (s : ℕ) → has result s ≡ true → (is_of_level plan.now level s ≡ true)
        × ((q : PhaseValue) × (has_phase phases.now q ≡ true)
        × (is_held_by (λ b. b == s) q ≡ false)) }
    ensures all { (s : ℕ) (q : PhaseValue) → s < 22 → is_in_table q ≡ true
        → is_of_level plan.now level s ≡ true → has_phase phases.now q ≡ true
        → is_held_by (λ b. b == s) q ≡ false → has result s ≡ true }
{
    let mut found = SlotSet::NONE;
    for slot in 0..22_u8 {
        let is_of_level = is_of_level(plan, level, slot);
        let is_elsewhere = is_elsewhere(slot, phases);
        let is_both = both(is_of_level, is_elsewhere);
        found = with_if(found, slot, is_both);
    }
    found
}

/// Whether the set holds another slot.
fn has_other(slots: SlotSet, slot: u8) -> bool
    ensures some { result ≡ true → (s : ℕ) × (has slots s ≡ true) × ((s == slot) ≡ false) }
    ensures all { (s : ℕ) → s < 32 → has slots s ≡ true → (s == slot) ≡ false → result ≡ true }
{
    for other in 0..32_u8 {
        if other != slot && slots.has(other) {
            return true;
        }
    }
    false
}

/// Whether the set holds that slot and no other.
fn is_alone(slots: SlotSet, slot: u8) -> bool
    ensures held { result ≡ true → has slots slot ≡ true }
    ensures alone { result ≡ true → (s : ℕ) → s < 32 → has slots s ≡ true → s ≡ slot }
    ensures other { result ≡ false → has slots slot ≡ true
        → (s : ℕ) × (has slots s ≡ true) × ((s == slot) ≡ false) }
{
    if !slots.has(slot) {
        return false;
    }
    let is_other = has_other(slots, slot);
    !is_other
}

/// The phases behind a fall of a BR line that one of these boards made: if there is one alone, it
/// does not hold the bus.
pub fn behind_request(askers: SlotSet, phases: &GrantPhases) -> GrantPhases
    ensures { IsBehindRequest askers phases.now result }
{
    let mut behind = *phases;
    for slot in 0..22_u8 {
        let is_alone = is_alone(askers, slot);
        behind.set_held_row(slot, row_if(!is_alone, phases.held_row(slot)));
    }
    behind
}

/// The boards that may have made a rise of the BR line of a level: in the first version those that
/// may hold the bus, and in the second all of the level.
pub fn withdrawers(plan: &Plan, version: Version, level: u8, phases: &GrantPhases) -> SlotSet
    ensures two { is_two version ≡ true → (s : ℕ) →
        has result s ≡ is_of_level plan.now level s }
    ensures some { is_two version ≡ false → (s : ℕ) → has result s ≡ true →
        (is_of_level plan.now level s ≡ true)
        × ((first : ℕ) × (has_phase phases.now (Held s first) ≡ true)) }
    ensures all { is_two version ≡ false → (s first : ℕ) → s < 22 →
        is_of_level plan.now level s ≡ true → has_phase phases.now (Held s first) ≡ true →
        has result s ≡ true }
{
    if version.is_two() {
        return boards_of_level(plan, level);
    }
    of_level(plan, level, phases.holders())
}

/// The phases behind a rise of the BR line of a level: in the first version one of its boards holds
/// the bus.
pub fn behind_withdrawal(
    plan: &Plan,
    version: Version,
    level: u8,
    phases: &GrantPhases,
) -> GrantPhases
    ensures { HasExactly result (λ q.
        (is_two version || is_held_by (is_of_level plan.now level) q) && has_phase phases.now q) }
{
    if version.is_two() {
        return *phases;
    }
    phases.held_by(boards_of_level(plan, level))
}

/// Whether bus clear is due to a board that holds the bus, once the controller's grant is high.
pub(crate) fn can_be_due(plan: &Plan, requests: BusLevels, board: u8) -> bool
    ensures { result ≡ (is_pri plan.now.arbiter && is_outranked plan.now requests board) }
{
    match plan.arbiter() {
        ArbiterKind::Pri => is_outranked(plan, requests, board),
        _ => false,
    }
}

/// Whether both are so, or neither is.
pub(crate) fn are_alike(a: bool, b: bool) -> bool
    ensures { result ≡ are_alike a b }
{
    a == b
}

/// The first low segments of a holder with which bus clear is due, or not: it is due once the
/// controller's segment is high, if a higher level is requested.
fn row_behind_clear(row: SlotSet, is_outranked: bool, is_due: bool) -> SlotSet
    ensures { (t : ℕ) → t < 32 → has result t
        ≡ (has row t && are_alike (is_outranked && nat_lt 0 t) is_due) }
{
    let mut kept = SlotSet::NONE;
    for first in 0..32_u8 {
        if row.has(first) && are_alike(is_outranked && first > 0, is_due) {
            kept = kept.with(first);
        }
    }
    kept
}

/// Of the phases behind a change of BCLR* those in which nobody holds the bus: it is not due.
fn free_behind_clear(fall: bool, phases: &GrantPhases) -> GrantPhases
    ensures { HasFree result (λ q. has_phase phases.now q && not fall) }
{
    if fall { GrantPhases::none() } else { *phases }
}

/// The phases behind a change of BCLR*: those in which bus clear is due if it fell, and those in
/// which it is not if it rose. It is the controller that made it, if there are any.
pub fn behind_clear(
    plan: &Plan,
    requests: BusLevels,
    fall: bool,
    phases: &GrantPhases,
) -> GrantPhases
    ensures { HasExactly result (λ q.
        has_phase phases.now q && are_alike (is_clear_due plan.now requests q) fall) }
{
    let mut behind = free_behind_clear(fall, phases);
    for board in 0..22_u8 {
        let can_be_due = can_be_due(plan, requests, board);
        let row = row_behind_clear(phases.held_row(board), can_be_due, fall);
        behind.set_held_row(board, row);
    }
    behind
}
