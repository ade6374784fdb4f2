//! What a board's requester, master and interrupter have come to.
ghost use Rattle.std.specs.Prelude.{◌≡◌, ℕ, Some, true};
ghost use Rattle.std.specs.Option.{option_to_list};
ghost use Rattle.vme_model.specs.Signals.{is_slot};
ghost use Rattle.vme_model.specs.declared.signals.Driver.TheVariants.{Slot};
ghost use Rattle.vme_model.specs.History.{addressing, cycles};
ghost use Rattle.vme_model.specs.Witnesses.{addressed, bursts, strobe, service};
ghost use Rattle.vme_reasons.specs.Traced.{OfTrace};
ghost use Rattle.vme_reasons.specs.Told.{is_driver, request_told};

use crate::boards::{interrupter_of, requester_of};
use crate::marks::Marks;
use crate::wires::{seen, wire_at};
use vme_backplane::Backplane;
use vme_model::{Driver, Release, Wire, Witness};

/// The slot whose address group is on; the least, where there were several.
fn addressing(backplane: &Backplane, marks: &Marks) -> Option<u8>
    ensures least { OfTrace backplane.now marks.now (λ _.
        result ≡ addressing backplane.now.plan backplane.now.history) }
    ensures slot { (s : ℕ) → result ≡ Some s → is_slot s ≡ true }
{
    backplane.plan().accepted();
    for slot in 1..=backplane.plan().slots() {
        if marks.is_low(Driver::Slot(slot), Wire::Addr) {
            return Some(slot);
        }
    }
    None
}

/// The address group that is on.
pub(crate) fn addressed(backplane: &Backplane, marks: &Marks) -> Option<Witness>
    ensures { OfTrace backplane.now marks.now (λ k.
        option_to_list result ≡ addressed backplane.now k) }
{
    let slot = addressing(backplane, marks)?;
    Some(seen(backplane, marks, Driver::Slot(slot), Wire::Addr))
}

/// How many cycles a slot began in this tenure.
fn made(backplane: &Backplane, marks: &Marks, slot: u8) -> u64
    requires { is_slot slot ≡ true }
    ensures { OfTrace backplane.now marks.now (λ _.
        result ≡ cycles backplane.now.history (Slot slot)) }
{
    backplane.laws();
    marks.made(slot)
}

/// The board's cycles in this tenure, where it gives the bus up after a burst.
pub(crate) fn bursts(backplane: &Backplane, marks: &Marks, driver: Driver) -> Option<Witness>
    requires { is_driver driver ≡ true }
    ensures { OfTrace backplane.now marks.now (λ _.
        option_to_list result ≡ bursts backplane.now driver) }
{
    let requester = requester_of(backplane, driver)?;
    match (driver, requester.release) {
        (Driver::Slot(slot), Release::Done { burst }) => Some(Witness::Cycles {
            driver,
            made: made(backplane, marks, slot),
            burst,
        }),
        _ => None,
    }
}

/// The board's `ds-` of this cycle.
pub(crate) fn strobe(backplane: &Backplane, marks: &Marks, driver: Driver) -> Option<Witness>
    requires { is_driver driver ≡ true }
    ensures { OfTrace backplane.now marks.now (λ k. option_to_list result ≡ strobe k driver) }
{
    backplane.laws();
    match driver {
        Driver::Controller => None,
        Driver::Slot(slot) => {
            let at = marks.strobed_at(slot)?;
            Some(Witness::Strobed { driver, at })
        }
    }
}

/// The board's first answer that served its request, while that is low.
pub(crate) fn service(backplane: &Backplane, marks: &Marks, driver: Driver) -> Option<Witness>
    requires { is_driver driver ≡ true }
    ensures { OfTrace backplane.now marks.now (λ k.
        option_to_list result ≡ service backplane.now k driver) }
{
    let interrupter = interrupter_of(backplane, driver)?;
    match driver {
        Driver::Slot(slot) if marks.is_low(driver, Wire::Irq) => {
            let since = marks.served_since(slot, interrupter.kind)?;
            Some(Witness::Served { driver, since })
        }
        _ => None,
    }
}

/// The board's request and its level.
pub(crate) fn request(backplane: &Backplane, marks: &Marks, driver: Driver) -> Option<Witness>
    requires { is_driver driver ≡ true }
    ensures { OfTrace backplane.now marks.now (λ k.
        option_to_list result ≡ request_told backplane.now k driver) }
{
    let interrupter = interrupter_of(backplane, driver)?;
    Some(wire_at(backplane, marks, driver, Wire::Irq, Some(interrupter.level)))
}
