//! Where a driver's wire has its number.
ghost use Rattle.std.specs.Prelude.{◌≡◌, ◌<◌, IsTrue};
ghost use Rattle.vme_model.specs.Signals.{has_wire};
ghost use Rattle.vme_explain.specs.Marks.{driver_place, wire_place, place};

use vme_model::{Driver, Wire};

/// How many wires all drivers have: nine each, of which the controller has seven.
pub(crate) const WIRES: usize = 198;

/// A driver's place, from 0.
#[inline(always)]
fn driver_place(driver: Driver) -> usize
    ensures { result ≡ driver_place driver }
{
    match driver {
        Driver::Controller => 0,
        Driver::Slot(slot) => usize::from(slot),
    }
}

/// A wire's place among those of its driver.
#[inline(always)]
fn wire_place(wire: Wire) -> usize
    ensures { result ≡ wire_place wire }
{
    match wire {
        Wire::Bg(level) => usize::from(level),
        Wire::Bclr => 4,
        Wire::Iack => 5,
        Wire::Berr => 6,
        Wire::Br => 0,
        Wire::BgOut => 1,
        Wire::Bbsy => 2,
        Wire::Addr => 3,
        Wire::AddressStrobe => 4,
        Wire::DataStrobe => 5,
        Wire::Irq => 6,
        Wire::IackOut => 7,
        Wire::Dtack => 8,
    }
}

/// The place of a driver's wire among all.
#[inline(always)]
pub(crate) fn place(driver: Driver, wire: Wire) -> usize
    requires { IsTrue (has_wire driver wire) }
    ensures at { result ≡ place driver wire }
    ensures within { result < 198 }
{
    9 * driver_place(driver) + wire_place(wire)
}
