//! All edges that a driver can make, with every value, by what a state of the bus answers.
ghost use Rattle.std.specs.Prelude.{◌≡◌, ◌≤◌, ◌+◌, ◌++◌, filter, length, map};
ghost use Rattle.vme_model.specs.declared.signals.Driver.TheVariants.{Slot};
ghost use Rattle.vme_model.specs.Open.{accesses, acknowledges, moves, showing as showing_of};
ghost use Rattle.vme_histories.specs.Offered.{is_open};
ghost use Rattle.vme_histories.specs.Opens.{open_but_full};
ghost use Rattle.vme_histories.specs.Judged.{OfState};

use crate::judges::Judges;
use crate::offers::{offer_shown, offer_turned, put_controller};
use arrayvec::ArrayVec;
use vme_model::{Cycle, Driver, Edge, Wire};

/// Appends the acknowledges that the slot can show, by level.
fn open_acknowledges<J: Judges>(state: &J, slot: u8, edges: &mut ArrayVec<Edge, 36>)
    requires { length edges.old.items ≤ 29 }
    ensures opened { OfState J.is_of state.now (λ version p h. edges.new.items ≡ edges.old.items
        ++ filter (is_open version p h) (map (showing_of (Slot slot)) acknowledges)) }
    ensures few { length edges.new.items ≤ length edges.old.items + 7 }
{
    for level in 1..=7 {
        offer_shown(state, slot, Cycle::Acknowledge(level), edges);
    }
}

/// Appends the accesses that the slot can show, by the slot that is accessed.
fn open_accesses<J: Judges>(state: &J, slot: u8, edges: &mut ArrayVec<Edge, 36>)
    requires { length edges.old.items ≤ 15 }
    ensures opened { OfState J.is_of state.now (λ version p h. edges.new.items ≡ edges.old.items
        ++ filter (is_open version p h) (map (showing_of (Slot slot)) accesses)) }
    ensures few { length edges.new.items ≤ length edges.old.items + 21 }
{
    for target in 1..=21 {
        offer_shown(state, slot, Cycle::Access(target), edges);
    }
}

/// Appends the edges of the slot's address group: going off, or going on with each cycle.
fn open_address<J: Judges>(state: &J, slot: u8, edges: &mut ArrayVec<Edge, 36>)
    requires { length edges.old.items ≤ 8 }
    ensures opened { OfState J.is_of state.now (λ version p h. edges.new.items ≡ edges.old.items
        ++ filter (is_open version p h) (moves h (Slot slot) Wire.Addr)) }
    ensures few { length edges.new.items ≤ length edges.old.items + 28 }
{
    if state.is_low(Driver::Slot(slot), Wire::Addr) {
        let may = state.may_transfer(slot, Wire::Addr);
        offer_turned(state, Driver::Slot(slot), Wire::Addr, may, edges);
    } else {
        open_acknowledges(state, slot, edges);
        open_accesses(state, slot, edges);
    }
}

/// All edges that the slot's board can make; none if there is no board.
fn slot_open_edges<J: Judges>(state: &J, slot: u8) -> ArrayVec<Edge, 36>
    ensures { OfState J.is_of state.now (λ version p h. result.items
        ≡ open_but_full version p h (Slot slot)) }
{
    let mut edges = ArrayVec::new();
    let may = state.may_request(slot, Wire::Br);
    offer_turned(state, Driver::Slot(slot), Wire::Br, may, &mut edges);
    let may = state.may_request(slot, Wire::BgOut);
    offer_turned(state, Driver::Slot(slot), Wire::BgOut, may, &mut edges);
    let may = state.may_request(slot, Wire::Bbsy);
    offer_turned(state, Driver::Slot(slot), Wire::Bbsy, may, &mut edges);
    open_address(state, slot, &mut edges);
    let may = state.may_transfer(slot, Wire::AddressStrobe);
    offer_turned(
        state,
        Driver::Slot(slot),
        Wire::AddressStrobe,
        may,
        &mut edges,
    );
    let may = state.may_transfer(slot, Wire::DataStrobe);
    offer_turned(state, Driver::Slot(slot), Wire::DataStrobe, may, &mut edges);
    let may = state.may_interrupt(slot, Wire::Irq);
    offer_turned(state, Driver::Slot(slot), Wire::Irq, may, &mut edges);
    let may = state.may_interrupt(slot, Wire::IackOut);
    offer_turned(state, Driver::Slot(slot), Wire::IackOut, may, &mut edges);
    let may = state.may_interrupt(slot, Wire::Dtack);
    offer_turned(state, Driver::Slot(slot), Wire::Dtack, may, &mut edges);
    edges
}

/// All edges that a driver can make, without the end of the trace: those of the edges that move one
/// of its wires that the rules allow, in the order of its wires. An address group goes on with each
/// acknowledge, by level, and then with each access, by slot. Source: profile (the order).
///
/// The driver's offers have at most one of the acknowledges and one of the accesses.
pub fn open_edges_of<J: Judges>(state: &J, driver: Driver) -> ArrayVec<Edge, 36>
    ensures { OfState J.is_of state.now (λ version p h. result.items
        ≡ open_but_full version p h driver) }
{
    match driver {
        // its wires show nothing, so it is offered all that it can make
        Driver::Controller => {
            let mut edges = ArrayVec::new();
            put_controller(state, &mut edges);
            edges
        }
        Driver::Slot(slot) => slot_open_edges(state, slot),
    }
}
