//! The wires of a plan, and which of them are low.
ghost use Rattle.std.specs.Prelude.{◌≡◌, ◌+◌, ◌≤◌, ◌++◌, if◌then◌else◌, Some, None};
ghost use Rattle.arrayvec.specs.ArrayVec.{array_vec_len};
ghost use Rattle.vme_model.specs.Plan.{has_driver};
ghost use Rattle.vme_model.specs.History.{drive};
ghost use Rattle.vme_model.specs.Offers.{wires};
ghost use Rattle.vme_pictures.specs.Columns.{low_by, plan_wires_in, wires_of};

use arrayvec::ArrayVec;
use vme_bus::Bus;
use vme_model::{Delivery, Driver, Edge, Refused, Wire};

/// The most wires of a plan: at most nine of each of 22 drivers.
pub(crate) const WIRES: usize = 198;

/// The controller's wires, in the order of its offers.
const CONTROLLERS: [Wire; 7] = [
    Wire::Bg(0),
    Wire::Bg(1),
    Wire::Bg(2),
    Wire::Bg(3),
    Wire::Bclr,
    Wire::Iack,
    Wire::Berr,
];

/// A board's wires, in that order.
const BOARDS: [Wire; 9] = [
    Wire::Br,
    Wire::BgOut,
    Wire::Bbsy,
    Wire::Addr,
    Wire::AddressStrobe,
    Wire::DataStrobe,
    Wire::Irq,
    Wire::IackOut,
    Wire::Dtack,
];

/// A wire of a plan, and whether it was low at a time.
#[derive(Clone, Copy, PartialEq, Eq, Debug, Default)]
pub(crate) struct PlanWire {
    pub(crate) driver: Driver,
    pub(crate) wire: Wire,
    pub(crate) low: bool,
}

/// Whether a wire is low, by the answer to a rise of it; none where there is no such wire.
///
/// A rise of a wire that is high is refused by E2, and E2 is tested before all rules.
fn low_by(answer: Result<Option<Delivery>, Refused>) -> Option<bool>
    ensures { result ≡ low_by answer }
{
    match answer {
        Err(Refused::NoSuchDriver) => None,
        Err(Refused::AlreadyThere) => Some(false),
        _ => Some(true),
    }
}

/// Whether a driver's wire is low, or its address group on; none where the plan has no such wire.
fn state(bus: &Bus, driver: Driver, wire: Wire) -> Option<bool>
    ensures { result ≡ (if has_driver bus.now.plan driver wire
        then Some (drive bus.now.history driver wire) else None) }
{
    bus.laws();
    let rise = Edge {
        driver,
        wire,
        fall: false,
        value: None,
    };
    low_by(bus.answer(rise))
}

/// Whether a driver's wire is low, or its address group on; not where the plan has no such wire.
pub(crate) fn is_low(bus: &Bus, driver: Driver, wire: Wire) -> bool
    ensures { result ≡ drive bus.now.history driver wire }
{
    bus.laws();
    state(bus, driver, wire).unwrap_or(false)
}

/// A driver's wires, in the order of its offers.
fn wires(driver: Driver) -> &'static [Wire]
    ensures { result.now ≡ wires driver }
{
    match driver {
        Driver::Controller => &CONTROLLERS,
        Driver::Slot(_) => &BOARDS,
    }
}

/// Appends the wires of a driver that the plan has.
fn push_wires(found: &mut ArrayVec<PlanWire, WIRES>, bus: &Bus, driver: Driver)
    requires { array_vec_len found.old + 9 ≤ 198 }
    ensures items { found.new.items ≡ found.old.items ++ wires_of bus.now driver }
    ensures len { array_vec_len found.new ≤ array_vec_len found.old + 9 }
{
    for wire in wires(driver) {
        if let Some(low) = state(bus, driver, *wire) {
            found.push(PlanWire {
                driver,
                wire: *wire,
                low,
            });
        }
    }
}

/// The wires of the plan, the controller's first and then by slot, and which of them are low.
pub(crate) fn plan_wires(bus: &Bus) -> ArrayVec<PlanWire, WIRES>
    ensures { result.items ≡ plan_wires_in bus.now }
{
    let mut found = ArrayVec::new();
    let drivers = bus.plan().drivers();
    for driver in drivers.as_slice() {
        push_wires(&mut found, bus, *driver);
    }
    found
}
