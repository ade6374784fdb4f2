//! The segments of daisy chains.
ghost use Rattle.std.specs.Prelude.{◌≡◌, ℕ, Some, true};
ghost use Rattle.std.specs.Option.{option_to_list};
ghost use Rattle.vme_model.specs.declared.signals.Driver.TheVariants.{Controller, Slot};
ghost use Rattle.vme_model.specs.Signals.{has_wire, is_slot};
ghost use Rattle.vme_model.specs.Plan.{head_wire, out_wire, upstream, last_active};
ghost use Rattle.vme_model.specs.Witnesses.{segment_at, grant_input, acknowledge_input, last_segment};
ghost use Rattle.vme_reasons.specs.Traced.{OfTrace};

use crate::boards::board_of;
use crate::marks::Marks;
use crate::wires::seen;
use vme_backplane::Backplane;
use vme_model::{ChainId, Driver, Wire, Witness};

/// The controller's wire at the head of a chain.
fn head_wire(chain: ChainId) -> Wire
    ensures head { result ≡ head_wire chain }
    ensures wire { has_wire Controller result ≡ true }
{
    match chain {
        ChainId::Bg0 => Wire::Bg(0),
        ChainId::Bg1 => Wire::Bg(1),
        ChainId::Bg2 => Wire::Bg(2),
        ChainId::Bg3 => Wire::Bg(3),
        ChainId::Iack => Wire::Iack,
    }
}

/// The wire at a board's output on a chain.
fn out_wire(chain: ChainId) -> Wire
    ensures out { result ≡ out_wire chain }
    ensures wire { (s : ℕ) → has_wire (Slot s) result ≡ is_slot s }
{
    match chain {
        ChainId::Iack => Wire::IackOut,
        _ => Wire::BgOut,
    }
}

/// A segment of a chain: the controller's, or that of a slot.
fn segment_at(backplane: &Backplane, marks: &Marks, chain: ChainId, slot: Option<u8>) -> Witness
    requires { (s : ℕ) → slot ≡ Some s → is_slot s ≡ true }
    ensures { OfTrace backplane.now marks.now (λ k.
        result ≡ segment_at backplane.now k chain slot) }
{
    match slot {
        None => seen(backplane, marks, Driver::Controller, head_wire(chain)),
        Some(slot) => seen(backplane, marks, Driver::Slot(slot), out_wire(chain)),
    }
}

/// The segment at a slot's input of a chain.
fn input_of(backplane: &Backplane, marks: &Marks, chain: ChainId, slot: u8) -> Witness
    ensures { OfTrace backplane.now marks.now (λ k.
        result ≡ segment_at backplane.now k chain (upstream backplane.now.plan chain slot)) }
{
    backplane.plan().accepted();
    let upstream = backplane.plan().upstream(chain, slot);
    segment_at(backplane, marks, chain, upstream)
}

/// The segment at the board's input of its grant chain.
pub(crate) fn grant_input(backplane: &Backplane, marks: &Marks, driver: Driver) -> Option<Witness>
    ensures { OfTrace backplane.now marks.now (λ k.
        option_to_list result ≡ grant_input backplane.now k driver) }
{
    let row = board_of(backplane, driver)?;
    let chain = ChainId::of_grant(row.requester?.level);
    Some(input_of(backplane, marks, chain, row.slot))
}

/// The segment at the board's input of the acknowledge chain.
pub(crate) fn acknowledge_input(
    backplane: &Backplane,
    marks: &Marks,
    driver: Driver,
) -> Option<Witness>
    ensures { OfTrace backplane.now marks.now (λ k.
        option_to_list result ≡ acknowledge_input backplane.now k driver) }
{
    let row = board_of(backplane, driver)?;
    match row.interrupter {
        Some(_) => Some(input_of(backplane, marks, ChainId::Iack, row.slot)),
        None => None,
    }
}

/// The last segment of a chain.
pub(crate) fn last_segment(backplane: &Backplane, marks: &Marks, chain: ChainId) -> Witness
    ensures { OfTrace backplane.now marks.now (λ k.
        result ≡ last_segment backplane.now k chain) }
{
    backplane.plan().accepted();
    let last = backplane.plan().last_active(chain);
    segment_at(backplane, marks, chain, last)
}
