//! Wires as they are printed.
ghost use Rattle.std.specs.Prelude.{◌≡◌, true};
ghost use Rattle.std.specs.Option.{option_to_list};
ghost use Rattle.vme_model.specs.Signals.{has_wire};
ghost use Rattle.vme_model.specs.History.{shown};
ghost use Rattle.vme_model.specs.Witnesses.{wire_at, seen, own, holds_low};
ghost use Rattle.vme_explain.specs.Traced.{OfTrace};
ghost use Rattle.vme_explain.specs.Witnessed.{value_shown};

use crate::marks::Marks;
use vme_bus::Bus;
use vme_model::{Cycle, Driver, Wire, Witness};

/// What an address group that is on shows.
fn value_shown(bus: &Bus, wire: Wire, low: bool) -> Option<Cycle>
    ensures { result
        ≡ value_shown wire low (shown bus.now.plan bus.now.history) }
{
    match wire {
        Wire::Addr if low => bus.shown(),
        _ => None,
    }
}

/// A driver's wire, with the level that is printed beside it.
pub(crate) fn wire_at(
    bus: &Bus,
    marks: &Marks,
    driver: Driver,
    wire: Wire,
    level: Option<u8>,
) -> Witness
    requires { has_wire driver wire ≡ true }
    ensures { OfTrace bus.now marks.now (λ k.
        result ≡ wire_at bus.now k driver wire level) }
{
    let low = bus.is_low(driver, wire);
    Witness::Wire {
        driver,
        wire,
        low,
        value: value_shown(bus, wire, low),
        level,
        since: marks.since(driver, wire),
    }
}

/// A driver's wire, without a level beside it.
pub(crate) fn seen(bus: &Bus, marks: &Marks, driver: Driver, wire: Wire) -> Witness
    requires { has_wire driver wire ≡ true }
    ensures { OfTrace bus.now marks.now (λ k. result ≡ seen bus.now k driver wire) }
{
    wire_at(bus, marks, driver, wire, None)
}

/// The driver's own wire, if it has it.
pub(crate) fn own(bus: &Bus, marks: &Marks, driver: Driver, wire: Wire) -> Option<Witness>
    ensures { OfTrace bus.now marks.now (λ k.
        option_to_list result ≡ own bus.now k driver wire) }
{
    if bus.has_driver(driver, wire) {
        Some(seen(bus, marks, driver, wire))
    } else {
        None
    }
}

/// Whether the driver holds the wire low.
pub(crate) fn holds_low(bus: &Bus, wire: Wire, driver: Driver) -> bool
    ensures low { result ≡ holds_low bus.now wire driver }
    ensures wire { result ≡ true → has_wire driver wire ≡ true }
{
    bus.has_driver(driver, wire) && bus.is_low(driver, wire)
}
