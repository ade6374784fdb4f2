//! Wires as they are told.
ghost use Rattle.std.specs.Prelude.{◌≡◌, IsTrue, true};
ghost use Rattle.std.specs.Option.{option_to_list};
ghost use Rattle.vme_model.specs.Signals.{has_wire};
ghost use Rattle.vme_model.specs.Plan.{has_driver};
ghost use Rattle.vme_model.specs.History.{shown};
ghost use Rattle.vme_model.specs.Witnesses.{wire_at, seen, own, holds_low};
ghost use Rattle.vme_reasons.specs.Traced.{OfTrace};
ghost use Rattle.vme_reasons.specs.Told.{value_told};

use crate::marks::Marks;
use vme_backplane::Backplane;
use vme_model::{Cycle, Driver, Wire, Witness};
use vme_slots::Plan;

/// Whether the plan has the driver, with such a wire.
pub(crate) fn has_driver(plan: &Plan, driver: Driver, wire: Wire) -> bool
    ensures has { result ≡ has_driver plan.now driver wire }
    ensures wire { result ≡ true → has_wire driver wire ≡ true }
{
    plan.accepted();
    match driver {
        Driver::Controller => driver.has_wire(wire),
        Driver::Slot(slot) => match plan.row(slot) {
            Some(row) => row.drives(wire),
            None => false,
        },
    }
}

/// What an address group that is on shows.
fn value_told(backplane: &Backplane, wire: Wire, low: bool) -> Option<Cycle>
    ensures { result
        ≡ value_told wire low (shown backplane.now.plan backplane.now.history) }
{
    match wire {
        Wire::Addr if low => backplane.pins(Driver::Controller).shown,
        _ => None,
    }
}

/// A driver's wire, the level told with it.
pub(crate) fn wire_at(
    backplane: &Backplane,
    marks: &Marks,
    driver: Driver,
    wire: Wire,
    level: Option<u8>,
) -> Witness
    requires { has_wire driver wire ≡ true }
    ensures { OfTrace backplane.now marks.now (λ k.
        result ≡ wire_at backplane.now k driver wire level) }
{
    let low = marks.is_low(driver, wire);
    Witness::Wire {
        driver,
        wire,
        low,
        value: value_told(backplane, wire, low),
        level,
        since: marks.since(driver, wire),
    }
}

/// The same without a level.
pub(crate) fn seen(backplane: &Backplane, marks: &Marks, driver: Driver, wire: Wire) -> Witness
    requires { has_wire driver wire ≡ true }
    ensures { OfTrace backplane.now marks.now (λ k. result ≡ seen backplane.now k driver wire) }
{
    wire_at(backplane, marks, driver, wire, None)
}

/// The driver's own wire, where it has it.
pub(crate) fn own(
    backplane: &Backplane,
    marks: &Marks,
    driver: Driver,
    wire: Wire,
) -> Option<Witness>
    ensures { OfTrace backplane.now marks.now (λ k.
        option_to_list result ≡ own backplane.now k driver wire) }
{
    if has_driver(backplane.plan(), driver, wire) {
        Some(seen(backplane, marks, driver, wire))
    } else {
        None
    }
}

/// Whether the driver holds the wire low.
pub(crate) fn holds_low(backplane: &Backplane, marks: &Marks, wire: Wire, driver: Driver) -> bool
    ensures low { OfTrace backplane.now marks.now (λ _.
        result ≡ holds_low backplane.now wire driver) }
    ensures wire { result ≡ true → has_wire driver wire ≡ true }
{
    has_driver(backplane.plan(), driver, wire) && marks.is_low(driver, wire)
}
