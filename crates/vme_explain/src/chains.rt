//! The segments of daisy chains.
ghost use Rattle.std.specs.Prelude.{◌≡◌, ℕ, Some, true};
ghost use Rattle.std.specs.Option.{option_to_list};
ghost use Rattle.vme_model.specs.declared.signals.Driver.TheVariants.{Controller, Slot};
ghost use Rattle.vme_model.specs.Signals.{has_wire, is_slot};
ghost use Rattle.vme_model.specs.Plan.{head_wire, out_wire, upstream, last_active};
ghost use Rattle.vme_model.specs.Witnesses.{segment_at, grant_input, acknowledge_input, last_segment};
ghost use Rattle.vme_explain.specs.Traced.{OfTrace};

use crate::boards::board_of;
use crate::marks::Marks;
use crate::wires::seen;
use vme_bus::Bus;
use vme_model::{ChainId, Driver, Wire, Witness};

/// The controller's wire at the head of a chain.
fn head_wire(chain: ChainId) -> Wire
    ensures head { result ≡ head_wire chain }
    ensures wire { has_wire Controller result ≡ true }
{
    match chain {
        ChainId::Bg0 => Wire::Bg(0),
        ChainId::Bg1 => Wire::Bg(1),
        ChainId::Bg2 => Wire::Bg(2),
        ChainId::Bg3 => Wire::Bg(3),
        ChainId::Iack => Wire::Iack,
    }
}

/// The wire at a board's output on a chain.
fn out_wire(chain: ChainId) -> Wire
    ensures out { result ≡ out_wire chain }
    ensures wire { (s : ℕ) → has_wire (Slot s) result ≡ is_slot s }
{
    match chain {
        ChainId::Iack => Wire::IackOut,
        _ => Wire::BgOut,
    }
}

/// A segment of a chain: the controller's, or that of a slot.
fn segment_at(bus: &Bus, marks: &Marks, chain: ChainId, slot: Option<u8>) -> Witness
    requires { (s : ℕ) → slot ≡ Some s → is_slot s ≡ true }
    ensures { OfTrace bus.now marks.now (λ k.
        result ≡ segment_at bus.now k chain slot) }
{
    match slot {
        None => seen(bus, marks, Driver::Controller, head_wire(chain)),
        Some(slot) => seen(bus, marks, Driver::Slot(slot), out_wire(chain)),
    }
}

/// The segment at a slot's input of a chain.
fn input_of(bus: &Bus, marks: &Marks, chain: ChainId, slot: u8) -> Witness
    ensures { OfTrace bus.now marks.now (λ k.
        result ≡ segment_at bus.now k chain (upstream bus.now.plan chain slot)) }
{
    bus.plan().accepted();
    let upstream = bus.plan().upstream(chain, slot);
    segment_at(bus, marks, chain, upstream)
}

/// The segment at the board's input of its grant chain.
pub(crate) fn grant_input(bus: &Bus, marks: &Marks, driver: Driver) -> Option<Witness>
    ensures { OfTrace bus.now marks.now (λ k.
        option_to_list result ≡ grant_input bus.now k driver) }
{
    let row = board_of(bus, driver)?;
    let chain = ChainId::of_grant(row.requester?.level);
    Some(input_of(bus, marks, chain, row.slot))
}

/// The segment at the board's input of the acknowledge chain.
pub(crate) fn acknowledge_input(bus: &Bus, marks: &Marks, driver: Driver) -> Option<Witness>
    ensures { OfTrace bus.now marks.now (λ k.
        option_to_list result ≡ acknowledge_input bus.now k driver) }
{
    let row = board_of(bus, driver)?;
    match row.interrupter {
        Some(_) => Some(input_of(bus, marks, ChainId::Iack, row.slot)),
        None => None,
    }
}

/// The last segment of a chain.
pub(crate) fn last_segment(bus: &Bus, marks: &Marks, chain: ChainId) -> Witness
    ensures { OfTrace bus.now marks.now (λ k.
        result ≡ last_segment bus.now k chain) }
{
    bus.plan().accepted();
    let last = bus.plan().last_active(chain);
    segment_at(bus, marks, chain, last)
}
