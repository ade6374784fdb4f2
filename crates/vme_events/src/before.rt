//! What is so of a bus just before an edge.
ghost use Rattle.std.specs.Prelude.{◌≡◌, true, Some, is_some, unwrap_or};
ghost use Rattle.std.specs.List.{list_any};
ghost use Rattle.std.specs.Option.{option_and_then};
ghost use Rattle.vme_model.specs.declared.boards.Row.{Row as RowValue};
ghost use Rattle.vme_explain.specs.Witnessed.{is_driver};
ghost use Rattle.vme_model.specs.Plan.{board_of, up_to};
ghost use Rattle.vme_model.specs.History.{drive, served_since_request};
ghost use Rattle.vme_model.specs.Numbered.{since as since_in};
ghost use Rattle.vme_model.specs.Readings.{pending};
ghost use Rattle.vme_explain.specs.Traced.{OfTrace};
ghost use Rattle.vme_events.specs.Events.{asked_before, fills_burst, has_rival, is_filled, is_rival, overtakes};
ghost use Rattle.vme_events.specs.Ordered.{OfOrdered};

use vme_bus::Bus;
use vme_explain::{Marks, since};
use vme_model::{Driver, InterrupterRow, IrqKind, Release, RequesterRow, Row, Wire};

/// The board that a driver stands on; none for the controller.
fn board_of(bus: &Bus, driver: Driver) -> Option<Row>
    ensures row { result ≡ board_of bus.now.plan driver }
    ensures slot { (r : RowValue) → result ≡ Some r → is_driver driver ≡ true }
{
    bus.plan().accepted();
    match driver {
        Driver::Controller => None,
        Driver::Slot(slot) => bus.plan().row(slot).copied(),
    }
}

/// Its requester.
fn requester_of(bus: &Bus, driver: Driver) -> Option<RequesterRow>
    ensures part { result
        ≡ option_and_then (λ r. r.requester) (board_of bus.now.plan driver) }
    ensures slot { is_some result ≡ true → is_driver driver ≡ true }
{
    board_of(bus, driver)?.requester
}

/// Its interrupter.
pub(crate) fn interrupter_of(bus: &Bus, driver: Driver) -> Option<InterrupterRow>
    ensures { result
        ≡ option_and_then (λ r. r.interrupter) (board_of bus.now.plan driver) }
{
    board_of(bus, driver)?.interrupter
}

/// The number of the last edge of the driver's request, 0 if it never moved.
fn asked_at(bus: &Bus, marks: &Marks, driver: Driver) -> u64
    ensures { OfTrace bus.now marks.now (λ k. result
        ≡ unwrap_or (since_in k driver Wire.Br) 0) }
{
    since(bus, marks, driver, Wire::Br).unwrap_or(0)
}

/// Whether the slot waits for the bus, and requested it before the driver, whose request is low.
fn asked_before(bus: &Bus, marks: &Marks, driver: Driver, slot: u8) -> bool
    ensures { OfOrdered bus.now marks.now (λ _.
        drive bus.now.history driver Wire.Br ≡ true
        → result ≡ asked_before bus.now.history driver slot) }
{
    let other = Driver::Slot(slot);
    bus.is_low(other, Wire::Br) && asked_at(bus, marks, other) < asked_at(bus, marks, driver)
}

/// Whether the driver's request is low, and another that is low is older.
pub(crate) fn overtakes(bus: &Bus, marks: &Marks, driver: Driver) -> bool
    ensures { OfOrdered bus.now marks.now (λ _. result
        ≡ overtakes bus.now.plan bus.now.history driver) }
{
    if !bus.is_low(driver, Wire::Br) {
        return false;
    }
    for below in 0..bus.plan().slots() {
        if asked_before(bus, marks, driver, below + 1) {
            return true;
        }
    }
    false
}

/// Whether one more cycle after so many is the last of a burst above 1.
fn is_filled(cycles: u64, release: Release) -> bool
    ensures { result ≡ is_filled cycles release }
{
    match release {
        Release::Done { burst } => burst > 1 && cycles == u64::from(burst) - 1,
        Release::Request => false,
    }
}

/// Whether one more cycle of the driver is the last of a burst above 1.
pub(crate) fn fills_burst(bus: &Bus, marks: &Marks, driver: Driver) -> bool
    ensures { OfTrace bus.now marks.now (λ _. result
        ≡ fills_burst bus.now.plan bus.now.history driver) }
{
    bus.laws();
    match (driver, requester_of(bus, driver)) {
        (Driver::Slot(slot), Some(requester)) => is_filled(marks.made(slot), requester.release),
        _ => false,
    }
}

/// Whether the slot is pending at the level.
fn is_pending(bus: &Bus, marks: &Marks, slot: u8, level: u8) -> bool
    ensures { OfTrace bus.now marks.now (λ _. result
        ≡ pending bus.now.plan bus.now.history slot level) }
{
    let driver = Driver::Slot(slot);
    match interrupter_of(bus, driver) {
        Some(interrupter) if interrupter.level == level => {
            bus.is_low(driver, Wire::Irq) && marks.served_since(slot, interrupter.kind).is_none()
        }
        _ => false,
    }
}

/// Whether the slot is not the driver's, and pending at the level.
fn is_rival(bus: &Bus, marks: &Marks, driver: Driver, level: u8, slot: u8) -> bool
    ensures { OfTrace bus.now marks.now (λ _. result
        ≡ is_rival bus.now.plan bus.now.history driver level slot) }
{
    !Driver::Slot(slot).is_same(driver) && is_pending(bus, marks, slot, level)
}

/// Whether another board is pending at the level of the driver's interrupter.
pub(crate) fn has_rival(bus: &Bus, marks: &Marks, driver: Driver) -> bool
    ensures { OfTrace bus.now marks.now (λ _. result
        ≡ has_rival bus.now.plan bus.now.history driver) }
{
    match interrupter_of(bus, driver) {
        Some(interrupter) => is_any_rival(bus, marks, driver, interrupter.level),
        None => false,
    }
}

/// Whether another board is pending at the level.
fn is_any_rival(bus: &Bus, marks: &Marks, driver: Driver, level: u8) -> bool
    ensures { OfTrace bus.now marks.now (λ _. result
        ≡ list_any (is_rival bus.now.plan bus.now.history driver level)
        (up_to bus.now.plan.slots)) }
{
    for below in 0..bus.plan().slots() {
        if is_rival(bus, marks, driver, level, below + 1) {
            return true;
        }
    }
    false
}

/// Whether the driver answered an acknowledge since its last interrupt request.
pub(crate) fn has_acknowledged(bus: &Bus, marks: &Marks, driver: Driver) -> bool
    ensures { OfTrace bus.now marks.now (λ _. result
        ≡ served_since_request bus.now.plan bus.now.history driver IrqKind.Roak) }
{
    bus.laws();
    match driver {
        Driver::Controller => false,
        Driver::Slot(slot) => {
            driver.has_wire(Wire::Dtack) && marks.served_since(slot, IrqKind::Roak).is_some()
        }
    }
}
