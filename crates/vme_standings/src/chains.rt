//! What a plan says of the grant chains: who works which, and in which order.
ghost use Rattle.std.specs.Prelude.{◌≡◌, ℕ};
ghost use Rattle.vme_bus.specs.Sets.{has};
ghost use Rattle.vme_standings.specs.GrantChains.{end_place, is_follower, is_of_level, place_before, requester_at};

use crate::phases::with_if;
use vme_bus::SlotSet;
use vme_model::{ChainId, RequesterRow};
use vme_slots::Plan;

/// The requester of the board in a slot, if it has one.
pub fn requester_at(plan: &Plan, slot: u8) -> Option<RequesterRow>
    ensures { result ≡ requester_at plan.now slot }
{
    match plan.row(slot) {
        Some(row) => row.requester,
        None => None,
    }
}

/// Whether the board in a slot has a requester of that level: it works the chain of that level.
pub fn is_of_level(plan: &Plan, level: u8, slot: u8) -> bool
    ensures { result ≡ is_of_level plan.now level slot }
{
    match plan.row(slot) {
        Some(row) => row.requests_on(level),
        None => false,
    }
}

/// The segment of a level's chain that is the input of a slot: the slot of the board that drives
/// it, or 0 for the controller's. The level is 0 to 3.
pub fn place_before(plan: &Plan, level: u8, slot: u8) -> u8
    ensures { result ≡ place_before plan.now level slot }
{
    plan.upstream(ChainId::of_grant(level), slot).unwrap_or(0)
}

/// The last segment of a level's chain: the slot of the last board that works it, or 0 if no board
/// does. The level is 0 to 3.
pub fn end_place(plan: &Plan, level: u8) -> u8
    ensures { result ≡ end_place plan.now level }
{
    plan.last_active(ChainId::of_grant(level)).unwrap_or(0)
}

/// Whether the segment of a level's chain that a slot drives comes next after another segment.
pub fn is_follower(plan: &Plan, level: u8, place: u8, slot: u8) -> bool
    ensures { result ≡ is_follower plan.now level place slot }
{
    is_of_level(plan, level, slot) && place_before(plan, level, slot) == place
}

/// The segments of a level's chain, 0 to 3, that come next after another segment; there is at most
/// one.
pub fn followers(plan: &Plan, level: u8, place: u8) -> SlotSet
    ensures { (s : ℕ) → has result s ≡ is_follower plan.now level place s }
{
    plan.accepted();
    let mut found = SlotSet::NONE;
    for slot in 0..22_u8 {
        found = with_if(found, slot, is_follower(plan, level, place, slot));
    }
    found
}
