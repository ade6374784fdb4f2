//! Which situations an edge brings about.
ghost use Rattle.std.specs.Prelude.{◌≡◌, ◌≤◌, ◌++◌};
ghost use Rattle.std.specs.List.{list_any};
ghost use Rattle.arrayvec.specs.ArrayVec.{array_vec_len};
ghost use Rattle.vme_events.specs.Events.{comes, events_of, is_access};
ghost use Rattle.vme_goals.specs.Events.{is_same_event};
ghost use Rattle.vme_model.specs.Signals.{is_acknowledge};
ghost use Rattle.vme_events.specs.Brought.{at_fall, at_rise, when};
ghost use Rattle.vme_events.specs.Ordered.{OfOrdered};

use crate::before::{fills_burst, has_acknowledged, has_rival, overtakes};
use arrayvec::ArrayVec;
use vme_bus::Bus;
use vme_explain::Marks;
use vme_goals::Event;
use vme_model::{Cycle, Driver, Edge, Wire};

/// The situation if the test holds.
fn alone(holds: bool, event: Event) -> ArrayVec<Event, 2>
    ensures items { result.items ≡ when holds event }
    ensures len { array_vec_len result ≤ 1 }
{
    let mut events = ArrayVec::new();
    if holds {
        events.push(event);
    }
    events
}

/// The situations whose tests hold, of two.
fn both(holds: bool, event: Event, other_holds: bool, other: Event) -> ArrayVec<Event, 2>
    ensures { result.items ≡ when holds event ++ when other_holds other }
{
    let mut events = alone(holds, event);
    if other_holds {
        events.push(other);
    }
    events
}

/// Whether this is an access.
fn is_access(shown: Option<Cycle>) -> bool
    ensures { result ≡ is_access shown }
{
    matches!(shown, Some(Cycle::Access(_)))
}

/// Whether this is an acknowledge.
fn is_acknowledge(shown: Option<Cycle>) -> bool
    ensures { result ≡ is_acknowledge shown }
{
    matches!(shown, Some(Cycle::Acknowledge(_)))
}

/// The situations that a fall of a driver's wire brings about, in their order.
fn at_fall(bus: &Bus, marks: &Marks, driver: Driver, wire: Wire) -> ArrayVec<Event, 2>
    ensures { OfOrdered bus.now marks.now (λ _. result.items
        ≡ at_fall bus.now.plan bus.now.history driver wire) }
{
    match wire {
        Wire::Bclr => alone(true, Event::BusClear),
        Wire::Berr => {
            let shown = bus.shown();
            both(
                is_acknowledge(shown),
                Event::Spurious,
                is_access(shown),
                Event::BusError,
            )
        }
        Wire::Br => {
            let has_passed = bus.is_low(driver, Wire::BgOut);
            alone(has_passed && !bus.pins(driver).bbsy, Event::LateRequest)
        }
        Wire::BgOut => alone(true, Event::GrantPassed),
        Wire::Bbsy => both(
            overtakes(bus, marks, driver),
            Event::Overtaken,
            bus.pins(driver).address_strobe,
            Event::Overlap,
        ),
        Wire::AddressStrobe => alone(fills_burst(bus, marks, driver), Event::FullBurst),
        Wire::Irq => alone(has_rival(bus, marks, driver), Event::Rivals),
        Wire::IackOut => alone(true, Event::IackPassed),
        Wire::Dtack => {
            let is_delivery = is_acknowledge(bus.shown());
            let again = is_delivery && has_acknowledged(bus, marks, driver);
            both(is_delivery, Event::Delivery, again, Event::AnsweredAgain)
        }
        Wire::Bg(_) | Wire::Iack | Wire::Addr | Wire::DataStrobe => ArrayVec::new(),
    }
}

/// The situations that a rise of a driver's wire brings about.
fn at_rise(bus: &Bus, marks: &Marks, driver: Driver, wire: Wire) -> ArrayVec<Event, 2>
    ensures { OfOrdered bus.now marks.now (λ _. result.items
        ≡ at_rise bus.now.plan bus.now.history driver wire) }
{
    match wire {
        Wire::Bg(_) => alone(!bus.pins(driver).bbsy, Event::GrantTimeout),
        Wire::Br => {
            let is_owner = bus.is_low(driver, Wire::Bbsy);
            alone(!is_owner, Event::Withdrawn)
        }
        Wire::Bbsy => {
            let in_cycle = bus.is_low(driver, Wire::AddressStrobe);
            alone(in_cycle, Event::EarlyRelease)
        }
        _ => ArrayVec::new(),
    }
}

/// The situations that an edge brings about that is about to be made, in their order: two at most.
///
/// The marks are those of the bus's edges, whose numbers grow. Nothing is searched but the
/// slots.
pub fn events_of(bus: &Bus, marks: &Marks, edge: &Edge) -> ArrayVec<Event, 2>
    ensures { OfOrdered bus.now marks.now (λ _. result.items
        ≡ events_of bus.now.plan bus.now.history edge.now) }
{
    if edge.fall {
        at_fall(bus, marks, edge.driver, edge.wire)
    } else {
        at_rise(bus, marks, edge.driver, edge.wire)
    }
}

/// Whether the situation is one of these.
fn has(events: &[Event], event: Event) -> bool
    ensures { result ≡ list_any (λ e. is_same_event e event) events.now }
{
    events.iter().any(|brought| *brought == event)
}

/// Whether an edge brings the situation about that is about to be made.
///
/// The marks are those of the bus's edges, whose numbers grow.
pub fn comes(bus: &Bus, marks: &Marks, edge: &Edge, event: Event) -> bool
    ensures { OfOrdered bus.now marks.now (λ _. result
        ≡ comes bus.now.plan bus.now.history edge.now event) }
{
    has(events_of(bus, marks, edge).as_slice(), event)
}
