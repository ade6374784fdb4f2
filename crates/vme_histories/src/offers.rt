//! The offers of a driver, by what a state of the bus answers.
ghost use Rattle.std.specs.Prelude.{◌≡◌, ◌≤◌, ◌<◌, ◌+◌, ◌++◌, ◌∷◌, [], true, Some, filter, length, map};
ghost use Rattle.std.specs.Option.{option_to_list};
ghost use Rattle.vme_model.specs.declared.boards.Row.{Row as RowValue};
ghost use Rattle.vme_model.specs.declared.signals.Driver.TheVariants.{Controller, Slot};
ghost use Rattle.vme_model.specs.declared.signals.Wire.TheVariants.{Bg};
ghost use Rattle.vme_model.specs.Offers.{considered, next_board, turned, wanted};
ghost use Rattle.vme_model.specs.Open.{showing as showing_of};
ghost use Rattle.vme_histories.specs.Offered.{is_open, offered_on, offered_but_full, requester_wires, master_wires, interrupter_wires};
ghost use Rattle.vme_histories.specs.Judged.{OfState, may_grant};

use crate::judges::{Judges, Waiting};
use arrayvec::ArrayVec;
use vme_handler::Handler;
use vme_model::{Cycle, Driver, Edge, Levels, Wire};

/// The edge by which the slot's address group goes on with the cycle.
pub(crate) fn showing(slot: u8, cycle: Cycle) -> Edge
    ensures { result
        ≡ record { driver = Driver.Slot slot; wire = Wire.Addr; fall = true; value = Some cycle } }
{
    Edge {
        driver: Driver::Slot(slot),
        wire: Wire::Addr,
        fall: true,
        value: Some(cycle),
    }
}

/// The highest level that is low and that a board handles.
fn wanted<J: Judges>(state: &J, handled: Levels) -> Option<u8>
    ensures { OfState J.is_of state.now (λ _ p h. (r : RowValue) → r.handler ≡ handled
        → result ≡ wanted p h r) }
{
    Handler::new(handled).wants(state.low_interrupts())
}

/// The edge that has no value and moves the wire to its other state.
#[inline(always)]
fn turned<J: Judges>(state: &J, driver: Driver, wire: Wire) -> Edge
    ensures { OfState J.is_of state.now (λ _ _ h. result ≡ turned h driver wire) }
{
    Edge {
        driver,
        wire,
        fall: !state.is_low(driver, wire),
        value: None,
    }
}

/// Appends the edge by which the slot's address group goes on with the cycle, if the rules allow
/// it.
#[inline(always)]
pub(crate) fn offer_shown<J: Judges, const N: usize>(
    state: &J,
    slot: u8,
    cycle: Cycle,
    offers: &mut ArrayVec<Edge, N>,
)
    requires { length offers.old.items < N }
    ensures offered { OfState J.is_of state.now (λ version p h. offers.new.items
        ≡ offers.old.items ++ filter (is_open version p h) (showing_of (Slot slot) cycle ∷ [])) }
    ensures few { length offers.new.items ≤ length offers.old.items + 1 }
{
    if state.may_show(slot, cycle) {
        offers.push(showing(slot, cycle));
    }
}

/// Appends the edge that has no value and moves the wire to its other state, if the rules allow it.
#[inline(always)]
pub(crate) fn offer_turned<J: Judges, const N: usize>(
    state: &J,
    driver: Driver,
    wire: Wire,
    is_allowed: bool,
    offers: &mut ArrayVec<Edge, N>,
)
    requires room { length offers.old.items < N }
    requires known { OfState J.is_of state.now (λ version p h.
        is_allowed ≡ is_open version p h (turned h driver wire)) }
    ensures offered { OfState J.is_of state.now (λ version p h. offers.new.items
        ≡ offers.old.items ++ filter (is_open version p h) (turned h driver wire ∷ [])) }
    ensures few { length offers.new.items ≤ length offers.old.items + 1 }
{
    if is_allowed {
        offers.push(turned(state, driver, wire));
    }
}

/// Appends the edge by which the slot's address group goes on with an acknowledge, if its board
/// wants a level and the rules allow it.
#[inline(always)]
fn offer_acknowledge<J: Judges, const N: usize>(
    state: &J,
    slot: u8,
    handled: Levels,
    offers: &mut ArrayVec<Edge, N>,
)
    requires { length offers.old.items < N }
    ensures offered { OfState J.is_of state.now (λ version p h. (r : RowValue)
        → r.handler ≡ handled
        → offers.new.items ≡ offers.old.items ++ filter (is_open version p h)
        (map (λ v. showing_of (Slot slot) (Cycle.Acknowledge v))
        (option_to_list (wanted p h r)))) }
    ensures few { length offers.new.items ≤ length offers.old.items + 1 }
{
    if let Some(level) = wanted(state, handled) {
        offer_shown(state, slot, Cycle::Acknowledge(level), offers);
    }
}

/// Appends the edge by which the slot's address group goes on with an access, if there is a board
/// to access and the rules allow it.
#[inline(always)]
fn offer_access<J: Judges, const N: usize>(state: &J, slot: u8, offers: &mut ArrayVec<Edge, N>)
    requires { length offers.old.items < N }
    ensures offered { OfState J.is_of state.now (λ version p h. offers.new.items
        ≡ offers.old.items ++ filter (is_open version p h)
        (map (λ t. showing_of (Slot slot) (Cycle.Access t)) (option_to_list (next_board p slot)))) }
    ensures few { length offers.new.items ≤ length offers.old.items + 1 }
{
    if let Some(target) = state.next_board(slot) {
        offer_shown(state, slot, Cycle::Access(target), offers);
    }
}

/// Appends the edges of the slot's address group that the rules allow.
#[inline(always)]
fn offer_address<J: Judges, const N: usize>(state: &J, slot: u8, offers: &mut ArrayVec<Edge, N>)
    requires { length offers.old.items + 2 ≤ N }
    ensures offered { OfState J.is_of state.now (λ version p h. offers.new.items
        ≡ offers.old.items ++ filter (is_open version p h)
        (considered p h (Slot slot) Wire.Addr)) }
    ensures few { length offers.new.items ≤ length offers.old.items + 2 }
{
    if state.is_low(Driver::Slot(slot), Wire::Addr) {
        let may = state.may_transfer(slot, Wire::Addr);
        offer_turned(state, Driver::Slot(slot), Wire::Addr, may, offers);
    } else if let Some(handled) = state.handled(slot) {
        offer_acknowledge(state, slot, handled, offers);
        offer_access(state, slot, offers);
    }
}

/// Appends the edges that a slot's requester may make; none if it waits.
fn offer_requester<J: Judges, const N: usize>(
    state: &J,
    slot: u8,
    is_waiting: bool,
    offers: &mut ArrayVec<Edge, N>,
)
    requires room { length offers.old.items + 4 ≤ N }
    ensures offered { OfState J.is_of state.now (λ version p h.
        (is_waiting ≡ true → offered_on version p h (Slot slot) requester_wires ≡ [])
        → offers.new.items
        ≡ offers.old.items ++ offered_on version p h (Slot slot) requester_wires) }
    ensures few { length offers.new.items ≤ length offers.old.items + 3 }
{
    if is_waiting {
        return;
    }
    let may = state.may_request(slot, Wire::Br);
    offer_turned(state, Driver::Slot(slot), Wire::Br, may, offers);
    let may = state.may_request(slot, Wire::BgOut);
    offer_turned(state, Driver::Slot(slot), Wire::BgOut, may, offers);
    let may = state.may_request(slot, Wire::Bbsy);
    offer_turned(state, Driver::Slot(slot), Wire::Bbsy, may, offers);
}

/// Appends the edges that a slot's master may make; none if it waits.
fn offer_master<J: Judges, const N: usize>(
    state: &J,
    slot: u8,
    is_waiting: bool,
    offers: &mut ArrayVec<Edge, N>,
)
    requires room { length offers.old.items + 4 ≤ N }
    ensures offered { OfState J.is_of state.now (λ version p h.
        (is_waiting ≡ true → offered_on version p h (Slot slot) master_wires ≡ [])
        → offers.new.items
        ≡ offers.old.items ++ offered_on version p h (Slot slot) master_wires) }
    ensures few { length offers.new.items ≤ length offers.old.items + 4 }
{
    if is_waiting {
        return;
    }
    offer_address(state, slot, offers);
    let may = state.may_transfer(slot, Wire::AddressStrobe);
    offer_turned(state, Driver::Slot(slot), Wire::AddressStrobe, may, offers);
    let may = state.may_transfer(slot, Wire::DataStrobe);
    offer_turned(state, Driver::Slot(slot), Wire::DataStrobe, may, offers);
}

/// Appends the edges that a slot's interrupter may make, and its board's answer; none if it waits.
fn offer_interrupter<J: Judges, const N: usize>(
    state: &J,
    slot: u8,
    is_waiting: bool,
    offers: &mut ArrayVec<Edge, N>,
)
    requires room { length offers.old.items + 4 ≤ N }
    ensures offered { OfState J.is_of state.now (λ version p h.
        (is_waiting ≡ true → offered_on version p h (Slot slot) interrupter_wires ≡ [])
        → offers.new.items
        ≡ offers.old.items ++ offered_on version p h (Slot slot) interrupter_wires) }
    ensures few { length offers.new.items ≤ length offers.old.items + 3 }
{
    if is_waiting {
        return;
    }
    let may = state.may_interrupt(slot, Wire::Irq);
    offer_turned(state, Driver::Slot(slot), Wire::Irq, may, offers);
    let may = state.may_interrupt(slot, Wire::IackOut);
    offer_turned(state, Driver::Slot(slot), Wire::IackOut, may, offers);
    let may = state.may_interrupt(slot, Wire::Dtack);
    offer_turned(state, Driver::Slot(slot), Wire::Dtack, may, offers);
}

/// Puts the offers of the slot's board, without the end of the trace, into an empty list: those of
/// the edges considered for it that the rules allow, in the order of its wires. There are at most
/// 10. Parts that wait have no offer, so they are not asked. Source: profile.
pub fn put_parts<J: Judges, const N: usize>(
    state: &J,
    slot: u8,
    waiting: Waiting,
    offers: &mut ArrayVec<Edge, N>,
)
    requires room { 11 ≤ N }
    requires empty { offers.old.items ≡ [] }
    ensures { OfState J.is_of state.now (λ version p h.
        (waiting.requester ≡ true → offered_on version p h (Slot slot) requester_wires ≡ [])
        → (waiting.master ≡ true → offered_on version p h (Slot slot) master_wires ≡ [])
        → (waiting.interrupter ≡ true
        → offered_on version p h (Slot slot) interrupter_wires ≡ [])
        → offers.new.items ≡ offered_but_full version p h (Slot slot)) }
{
    offer_requester(state, slot, waiting.requester, offers);
    offer_master(state, slot, waiting.master, offers);
    offer_interrupter(state, slot, waiting.interrupter, offers);
}

/// Appends the edge of a level's grant if the rules allow it. A grant falls only if `is_free` is
/// true.
#[inline(always)]
fn offer_grant<J: Judges, const N: usize>(
    state: &J,
    level: u8,
    is_free: bool,
    offers: &mut ArrayVec<Edge, N>,
)
    requires room { length offers.old.items < N }
    requires known { OfState J.is_of state.now (λ _ p h. is_free ≡ may_grant p h) }
    ensures offered { OfState J.is_of state.now (λ version p h. offers.new.items
        ≡ offers.old.items ++ filter (is_open version p h)
        (turned h Controller (Bg level) ∷ [])) }
    ensures few { length offers.new.items ≤ length offers.old.items + 1 }
{
    if !is_free && !state.is_low(Driver::Controller, Wire::Bg(level)) {
        return;
    }
    let may = state.may_control(Wire::Bg(level));
    offer_turned(state, Driver::Controller, Wire::Bg(level), may, offers);
}

/// Puts the offers of the controller, without the end of the trace, into an empty list: those of
/// the edges considered for it that the rules allow, in the order of its wires. There are at most
/// 7. Source: profile.
pub fn put_controller<J: Judges, const N: usize>(state: &J, offers: &mut ArrayVec<Edge, N>)
    requires room { 7 ≤ N }
    requires empty { offers.old.items ≡ [] }
    ensures { OfState J.is_of state.now (λ version p h. offers.new.items
        ≡ offered_but_full version p h Controller) }
{
    let is_free = state.may_grant();
    offer_grant(state, 0, is_free, offers);
    offer_grant(state, 1, is_free, offers);
    offer_grant(state, 2, is_free, offers);
    offer_grant(state, 3, is_free, offers);
    let may = state.may_control(Wire::Bclr);
    offer_turned(state, Driver::Controller, Wire::Bclr, may, offers);
    let may = state.may_control(Wire::Iack);
    offer_turned(state, Driver::Controller, Wire::Iack, may, offers);
    let may = state.may_control(Wire::Berr);
    offer_turned(state, Driver::Controller, Wire::Berr, may, offers);
}
