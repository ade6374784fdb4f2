//! Which slots of a backplane have a board, and which boards can ask for the bus.
ghost use Rattle.std.specs.Prelude.{◌≡◌, ◌+◌, ◌≤◌, ℕ, is_some};
ghost use Rattle.vme_bus.specs.Sets.{has};
ghost use Rattle.vme_model.specs.Plan.{board};
ghost use Rattle.vme_standings.specs.Boards.{has_requester, only_board};

use crate::chains::requester_at;
use crate::phases::with_if;
use vme_bus::SlotSet;
use vme_slots::Plan;

/// One more than the greatest slot of the backplane.
pub(crate) fn slots_end(plan: &Plan) -> u8
    ensures end { result ≡ plan.now.slots + 1 }
    ensures near { result ≤ 22 }
{
    plan.accepted();
    plan.slots() + 1
}

/// The slots that have a board.
pub fn boards(plan: &Plan) -> SlotSet
    ensures { (s : ℕ) → has result s ≡ is_some (board plan.now s) }
{
    plan.accepted();
    let mut found = SlotSet::NONE;
    for slot in 0..22_u8 {
        found = with_if(found, slot, plan.has_board(slot));
    }
    found
}

/// Whether the board in a slot has a requester, so that it can ask for the bus.
fn has_requester(plan: &Plan, slot: u8) -> bool
    ensures { result ≡ has_requester plan.now slot }
{
    requester_at(plan, slot).is_some()
}

/// The slots of the boards that can ask for the bus.
pub fn requesters(plan: &Plan) -> SlotSet
    ensures { (s : ℕ) → has result s ≡ has_requester plan.now s }
{
    plan.accepted();
    let mut able = SlotSet::NONE;
    for slot in 0..22_u8 {
        able = with_if(able, slot, has_requester(plan, slot));
    }
    able
}

/// The slot of the board that is alone on its backplane; none if there are several.
pub fn only_board(plan: &Plan) -> Option<u8>
    ensures { result ≡ only_board plan.now.rows }
{
    match plan.rows() {
        [row] => Some(row.slot),
        _ => None,
    }
}
