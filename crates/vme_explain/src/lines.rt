//! Who holds a line low.
ghost use Rattle.std.specs.Prelude.{◌≡◌, ◌≤◌, ◌<◌, ◌+◌, ◌++◌, ◌∷◌, [], true, length, map, filter, option_map};
ghost use Rattle.vme_model.specs.declared.signals.Driver.TheVariants.{Controller};
ghost use Rattle.vme_model.specs.declared.signals.Wire.TheVariants.{Bg, Br, Irq};
ghost use Rattle.vme_model.specs.Signals.{has_wire};
ghost use Rattle.vme_model.specs.History.{drive, last_level, request_line};
ghost use Rattle.vme_model.specs.Rules.{pick};
ghost use Rattle.vme_model.specs.Witnesses.{seen, wire_at, holds_low, low, low_grants, requester_of, requests, granted, picked, interrupts};
ghost use Rattle.vme_explain.specs.Traced.{OfTrace};
ghost use Rattle.vme_explain.specs.Witnessed.{asks_at};

use crate::boards::{board_of, interrupts_on, requester_of};
use crate::marks::Marks;
use crate::wires::{holds_low, seen, wire_at};
use arrayvec::ArrayVec;
use vme_arbiter::{AnyPolicy, Policy};
use vme_bus::Bus;
use vme_model::{Driver, Wire, Witness};

/// Room for what is printed about any condition: of bus clear 22 that hold BBSY* low, four grants,
/// 22 requests and the level last granted; of two lines at most 22 each, and four more.
pub(crate) const ROOM: usize = 64;

/// Puts the driver's wire behind the others if it is low.
fn push_holder(
    bus: &Bus,
    marks: &Marks,
    wire: Wire,
    driver: Driver,
    witnesses: &mut ArrayVec<Witness, ROOM>,
)
    requires { length witnesses.old.items < 64 }
    ensures witnesses { OfTrace bus.now marks.now (λ k. witnesses.new.items ≡ witnesses.old.items
        ++ map (λ d. seen bus.now k d wire)
        (filter (holds_low bus.now wire) (driver ∷ []))) }
    ensures few { length witnesses.new.items ≤ length witnesses.old.items + 1 }
{
    if holds_low(bus, wire, driver) {
        witnesses.push(seen(bus, marks, driver, wire));
    }
}

/// Puts who holds the wire low behind the others, the controller first, then by slot.
pub(crate) fn push_low(
    bus: &Bus,
    marks: &Marks,
    wire: Wire,
    witnesses: &mut ArrayVec<Witness, ROOM>,
)
    requires { length witnesses.old.items + 22 ≤ 64 }
    ensures witnesses { OfTrace bus.now marks.now (λ k.
        witnesses.new.items ≡ witnesses.old.items ++ low bus.now k wire) }
    ensures few { length witnesses.new.items ≤ length witnesses.old.items + 22 }
{
    for driver in bus.plan().drivers().as_slice() {
        push_holder(bus, marks, wire, *driver, witnesses);
    }
}

/// Puts the controller's grant of that level behind the others if it is low.
fn push_grant(bus: &Bus, marks: &Marks, level: u8, witnesses: &mut ArrayVec<Witness, ROOM>)
    requires level { level < 4 }
    requires room { length witnesses.old.items < 64 }
    ensures witnesses { OfTrace bus.now marks.now (λ k. witnesses.new.items ≡ witnesses.old.items
        ++ map (λ n. seen bus.now k Controller (Bg n))
        (filter (λ n. drive bus.now.history Controller (Bg n)) (level ∷ []))) }
    ensures few { length witnesses.new.items ≤ length witnesses.old.items + 1 }
{
    if bus.is_low(Driver::Controller, Wire::Bg(level)) {
        witnesses.push(seen(bus, marks, Driver::Controller, Wire::Bg(level)));
    }
}

/// Puts the controller's grants that are low behind the others.
pub(crate) fn push_low_grants(bus: &Bus, marks: &Marks, witnesses: &mut ArrayVec<Witness, ROOM>)
    requires { length witnesses.old.items + 4 ≤ 64 }
    ensures witnesses { OfTrace bus.now marks.now (λ k.
        witnesses.new.items ≡ witnesses.old.items ++ low_grants bus.now k) }
    ensures few { length witnesses.new.items ≤ length witnesses.old.items + 4 }
{
    push_grant(bus, marks, 0, witnesses);
    push_grant(bus, marks, 1, witnesses);
    push_grant(bus, marks, 2, witnesses);
    push_grant(bus, marks, 3, witnesses);
}

/// Puts the driver's bus request with its level behind the others if it is low.
fn push_request(bus: &Bus, marks: &Marks, driver: Driver, witnesses: &mut ArrayVec<Witness, ROOM>)
    requires { length witnesses.old.items < 64 }
    ensures witnesses { OfTrace bus.now marks.now (λ k. witnesses.new.items ≡ witnesses.old.items
        ++ map (λ d. wire_at bus.now k d Br
        (option_map (λ q. q.level) (requester_of bus.now d)))
        (filter (holds_low bus.now Br) (driver ∷ []))) }
    ensures few { length witnesses.new.items ≤ length witnesses.old.items + 1 }
{
    if holds_low(bus, Wire::Br, driver) {
        let level = requester_of(bus, driver).map(|requester| requester.level);
        witnesses.push(wire_at(bus, marks, driver, Wire::Br, level));
    }
}

/// Puts who requests the bus behind the others, each with its level.
pub(crate) fn push_requests(bus: &Bus, marks: &Marks, witnesses: &mut ArrayVec<Witness, ROOM>)
    requires { length witnesses.old.items + 22 ≤ 64 }
    ensures witnesses { OfTrace bus.now marks.now (λ k.
        witnesses.new.items ≡ witnesses.old.items ++ requests bus.now k) }
    ensures few { length witnesses.new.items ≤ length witnesses.old.items + 22 }
{
    for driver in bus.plan().drivers().as_slice() {
        push_request(bus, marks, *driver, witnesses);
    }
}

/// The level last granted.
pub(crate) fn granted(bus: &Bus, marks: &Marks) -> Witness
    ensures { OfTrace bus.now marks.now (λ k. result ≡ granted bus.now k) }
{
    Witness::Granted {
        level: bus.last_level(),
        since: marks.granted_since(),
    }
}

/// The level that the arbiter picks, if it picks any.
pub fn level_picked(bus: &Bus) -> Option<u8>
    ensures { result ≡ pick bus.now.plan.arbiter (request_line bus.now.plan bus.now.history)
        (last_level bus.now.history) }
{
    let requests = bus.pins(Driver::Controller).requests;
    AnyPolicy::from(bus.plan().arbiter()).pick(requests, bus.last_level())
}

/// The level that the policy picks.
pub(crate) fn picked(bus: &Bus) -> Witness
    ensures { result ≡ picked bus.now }
{
    Witness::Picks {
        level: level_picked(bus),
    }
}

/// Whether the driver's interrupter asks for that level.
fn asks_at(bus: &Bus, level: u8, driver: Driver) -> bool
    ensures asks { result ≡ asks_at bus.now level driver }
    ensures wire { result ≡ true → has_wire driver Irq ≡ true }
{
    match board_of(bus, driver) {
        Some(row) => interrupts_on(&row, level) && bus.is_low(driver, Wire::Irq),
        None => false,
    }
}

/// Puts the driver's interrupt request behind the others if it asks for that level.
fn push_interrupt(
    bus: &Bus,
    marks: &Marks,
    level: u8,
    driver: Driver,
    witnesses: &mut ArrayVec<Witness, ROOM>,
)
    requires { length witnesses.old.items < 64 }
    ensures witnesses { OfTrace bus.now marks.now (λ k. witnesses.new.items ≡ witnesses.old.items
        ++ map (λ d. seen bus.now k d Irq)
        (filter (asks_at bus.now level) (driver ∷ []))) }
    ensures few { length witnesses.new.items ≤ length witnesses.old.items + 1 }
{
    if asks_at(bus, level, driver) {
        witnesses.push(seen(bus, marks, driver, Wire::Irq));
    }
}

/// Puts who asks for that interrupt level behind the others.
pub(crate) fn push_interrupts(
    bus: &Bus,
    marks: &Marks,
    level: u8,
    witnesses: &mut ArrayVec<Witness, ROOM>,
)
    requires { length witnesses.old.items + 22 ≤ 64 }
    ensures witnesses { OfTrace bus.now marks.now (λ k.
        witnesses.new.items ≡ witnesses.old.items ++ interrupts bus.now k level) }
    ensures few { length witnesses.new.items ≤ length witnesses.old.items + 22 }
{
    for driver in bus.plan().drivers().as_slice() {
        push_interrupt(bus, marks, level, *driver, witnesses);
    }
}
