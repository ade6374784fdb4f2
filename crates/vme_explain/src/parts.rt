//! What a board's requester, master and interrupter have come to.
ghost use Rattle.std.specs.Prelude.{◌≡◌, true};
ghost use Rattle.std.specs.Option.{option_to_list};
ghost use Rattle.vme_model.specs.Signals.{is_slot};
ghost use Rattle.vme_model.specs.declared.signals.Driver.TheVariants.{Slot};
ghost use Rattle.vme_model.specs.History.{cycles};
ghost use Rattle.vme_model.specs.Witnesses.{addressed, bursts, strobe, service};
ghost use Rattle.vme_explain.specs.Traced.{OfTrace};
ghost use Rattle.vme_explain.specs.Witnessed.{is_driver, request_witness};

use crate::boards::{interrupter_of, requester_of};
use crate::marks::Marks;
use crate::wires::{seen, wire_at};
use vme_bus::Bus;
use vme_model::{Driver, Release, Wire, Witness};

/// The address group that is on.
pub(crate) fn addressed(bus: &Bus, marks: &Marks) -> Option<Witness>
    ensures { OfTrace bus.now marks.now (λ k.
        option_to_list result ≡ addressed bus.now k) }
{
    let slot = bus.addressing()?;
    Some(seen(bus, marks, Driver::Slot(slot), Wire::Addr))
}

/// How many cycles a slot began in this tenure.
fn made(bus: &Bus, marks: &Marks, slot: u8) -> u64
    requires { is_slot slot ≡ true }
    ensures { OfTrace bus.now marks.now (λ _.
        result ≡ cycles bus.now.history (Slot slot)) }
{
    bus.laws();
    marks.made(slot)
}

/// The board's cycles in this tenure, if it gives the bus up after a burst.
pub(crate) fn bursts(bus: &Bus, marks: &Marks, driver: Driver) -> Option<Witness>
    requires { is_driver driver ≡ true }
    ensures { OfTrace bus.now marks.now (λ _.
        option_to_list result ≡ bursts bus.now driver) }
{
    let requester = requester_of(bus, driver)?;
    match (driver, requester.release) {
        (Driver::Slot(slot), Release::Done { burst }) => Some(Witness::Cycles {
            driver,
            made: made(bus, marks, slot),
            burst,
        }),
        _ => None,
    }
}

/// The board's `ds-` of this cycle.
pub(crate) fn strobe(bus: &Bus, marks: &Marks, driver: Driver) -> Option<Witness>
    requires { is_driver driver ≡ true }
    ensures { OfTrace bus.now marks.now (λ k. option_to_list result ≡ strobe k driver) }
{
    bus.laws();
    match driver {
        Driver::Controller => None,
        Driver::Slot(slot) => {
            let at = marks.strobed_at(slot)?;
            Some(Witness::Strobed { driver, at })
        }
    }
}

/// The board's first answer that served its request, while that is low.
pub(crate) fn service(bus: &Bus, marks: &Marks, driver: Driver) -> Option<Witness>
    requires { is_driver driver ≡ true }
    ensures { OfTrace bus.now marks.now (λ k.
        option_to_list result ≡ service bus.now k driver) }
{
    let interrupter = interrupter_of(bus, driver)?;
    match driver {
        Driver::Slot(slot) if bus.is_low(driver, Wire::Irq) => {
            let since = marks.served_since(slot, interrupter.kind)?;
            Some(Witness::Served { driver, since })
        }
        _ => None,
    }
}

/// The board's request and its level.
pub(crate) fn request(bus: &Bus, marks: &Marks, driver: Driver) -> Option<Witness>
    requires { is_driver driver ≡ true }
    ensures { OfTrace bus.now marks.now (λ k.
        option_to_list result ≡ request_witness bus.now k driver) }
{
    let interrupter = interrupter_of(bus, driver)?;
    Some(wire_at(bus, marks, driver, Wire::Irq, Some(interrupter.level)))
}
