//! The wires of a backplane on which its pins lie.
ghost use Rattle.std.specs.Prelude.{◌≡◌, ◌-◌};
ghost use Rattle.std.specs.List.{list_all};
ghost use Rattle.vme_model.specs.Plan.{up_to};
ghost use Rattle.vme_captures.specs.Wires.{has_pin, is_closed, wire_of};
ghost use Rattle.vme_model.specs.Accepted.{is_joined};

use crate::signals::{Pin, Segment, Side};
use vme_model::ChainId;
use vme_slots::Plan;

/// The wire of a pin: the output of the greatest board below that works its chain, or else the
/// controller's; at the output of a board that works the chain itself, its own. Source: Std 1014,
/// chapters 3 and 4.
pub fn wire_of(plan: &Plan, pin: Pin) -> Segment
    ensures { result ≡ wire_of plan.now pin }
{
    let works = plan.row(pin.slot).is_some_and(|row| row.works(pin.chain));
    let place = if pin.side == Side::Out && works {
        Some(pin.slot)
    } else {
        plan.upstream(pin.chain, pin.slot)
    };
    Segment {
        chain: pin.chain,
        place,
    }
}

/// Whether the backplane has the pin: its slot has a board, and a board or a jumper joins its chain
/// in each slot below. Source: Std 1014, chapters 3 and 4.
pub fn has_pin(plan: &Plan, pin: Pin) -> bool
    ensures { result ≡ has_pin plan.now pin }
{
    plan.has_board(pin.slot) && is_closed_below(plan, pin.chain, pin.slot)
}

/// Whether a board or a jumper joins the chain in each slot below.
fn is_closed_below(plan: &Plan, chain: ChainId, slot: u8) -> bool
    ensures { result ≡ list_all (is_closed plan.now chain) (up_to (slot - 1)) }
{
    for below in 1..slot {
        if !is_closed(plan, chain, below) {
            return false;
        }
    }
    true
}

/// Whether a board stands in the slot, or a jumper joins the chain there.
fn is_closed(plan: &Plan, chain: ChainId, slot: u8) -> bool
    ensures { result ≡ is_closed plan.now chain slot }
{
    plan.has_board(slot) || is_joined(plan, slot, chain)
}

/// Whether a jumper of the slot joins the chain.
fn is_joined(plan: &Plan, slot: u8, chain: ChainId) -> bool
    ensures { result ≡ is_joined plan.now slot chain }
{
    plan.jumpers()
        .iter()
        .any(|jumper| jumper.slot == slot && jumper.chains.has(chain))
}
