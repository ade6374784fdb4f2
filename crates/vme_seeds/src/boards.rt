//! The slots that have a board, as a set.
ghost use Rattle.std.specs.Prelude.{◌≡◌};
ghost use Rattle.vme_bus.specs.Sets.{has};
ghost use Rattle.vme_bus.specs.States.{OfHistory};
ghost use Rattle.vme_seeds.specs.Kinds.{has_board};

use vme_bus::{BusState, SlotSet};
use vme_model::Driver;
use vme_slots::Plan;

/// The slots of a plan that have a board.
pub(crate) fn boards_of(plan: &Plan) -> SlotSet
    ensures { has result ≡ has_board plan.now }
{
    plan.accepted();
    let mut boards = SlotSet::NONE;
    for slot in 0..22_u8 {
        if plan.has_board(slot) {
            boards = boards.with(slot);
        }
    }
    boards
}

/// Whether the slot has a board.
fn is_board(state: &BusState, slot: u8) -> bool
    ensures { OfHistory state.now (λ _ p _. result ≡ has_board p slot) }
{
    state.row(Driver::Slot(slot)).is_some()
}

/// The slots of a bus that have a board.
pub fn boards_on(state: &BusState) -> SlotSet
    ensures { OfHistory state.now (λ _ p _. has result ≡ has_board p) }
{
    let mut boards = SlotSet::NONE;
    for place in 0..22_u8 {
        if is_board(state, place) {
            boards = boards.with(place);
        }
    }
    boards
}
