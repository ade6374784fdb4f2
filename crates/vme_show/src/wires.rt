//! The wires of a plan, and which of them are low.
ghost use Rattle.std.specs.Prelude.{◌≡◌, ◌+◌, ◌≤◌, ◌++◌};
ghost use Rattle.arrayvec.specs.ArrayVec.{array_vec_len};
ghost use Rattle.vme_model.specs.Offers.{wires};
ghost use Rattle.vme_show.specs.Columns.{plan_wires_in, wires_of};

use arrayvec::ArrayVec;
use vme_bus::Bus;
use vme_model::{Driver, Wire};

/// The most wires of a plan: at most nine of each of 22 drivers.
pub(crate) const WIRES: usize = 198;

/// The controller's wires, in the order of its offers.
const CONTROLLERS: [Wire; 7] = [
    Wire::Bg(0),
    Wire::Bg(1),
    Wire::Bg(2),
    Wire::Bg(3),
    Wire::Bclr,
    Wire::Iack,
    Wire::Berr,
];

/// A board's wires, in that order.
const BOARDS: [Wire; 9] = [
    Wire::Br,
    Wire::BgOut,
    Wire::Bbsy,
    Wire::Addr,
    Wire::AddressStrobe,
    Wire::DataStrobe,
    Wire::Irq,
    Wire::IackOut,
    Wire::Dtack,
];

/// A wire of a plan, and whether it was low at a time.
#[derive(Clone, Copy, PartialEq, Eq, Debug, Default)]
pub(crate) struct PlanWire {
    pub(crate) driver: Driver,
    pub(crate) wire: Wire,
    pub(crate) low: bool,
}

/// A driver's wires, in the order of its offers.
fn wires(driver: Driver) -> &'static [Wire]
    ensures { result.now ≡ wires driver }
{
    match driver {
        Driver::Controller => &CONTROLLERS,
        Driver::Slot(_) => &BOARDS,
    }
}

/// Appends the wires of a driver that the plan has.
fn push_wires(found: &mut ArrayVec<PlanWire, WIRES>, bus: &Bus, driver: Driver)
    requires { array_vec_len found.old + 9 ≤ 198 }
    ensures items { found.new.items ≡ found.old.items ++ wires_of bus.now driver }
    ensures len { array_vec_len found.new ≤ array_vec_len found.old + 9 }
{
    for wire in wires(driver) {
        if bus.has_driver(driver, *wire) {
            found.push(PlanWire {
                driver,
                wire: *wire,
                low: bus.is_low(driver, *wire),
            });
        }
    }
}

/// The wires of the plan, the controller's first and then by slot, and which of them are low.
pub(crate) fn plan_wires(bus: &Bus) -> ArrayVec<PlanWire, WIRES>
    ensures { result.items ≡ plan_wires_in bus.now }
{
    let mut found = ArrayVec::new();
    let drivers = bus.plan().drivers();
    for driver in drivers.as_slice() {
        push_wires(&mut found, bus, *driver);
    }
    found
}
