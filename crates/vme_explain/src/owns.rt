//! What is printed about the board's own wires and parts.
ghost use Rattle.std.specs.Prelude.{◌≡◌, true};
ghost use Rattle.std.specs.Option.{option_to_list};
ghost use Rattle.vme_explain.specs.Witnessed.{is_driver};
ghost use Rattle.vme_explain.specs.Traced.{OfTrace};
ghost use Rattle.vme_explain.specs.Grouped.{own_wire, own_first, own_second};

use crate::chains::{acknowledge_input, grant_input};
use crate::marks::Marks;
use crate::parts::{bursts, request, service, strobe};
use crate::wires::own;
use vme_bus::Bus;
use vme_model::{Condition, Driver, Wire, Witness};

/// The board's own wire that a condition speaks of, or the first of two.
fn own_wire(condition: Condition) -> Option<Wire>
    ensures { result ≡ own_wire condition }
{
    match condition {
        Condition::OwnRequestHigh | Condition::OwnRequestLow => Some(Wire::Br),
        Condition::OwnGrantOutHigh => Some(Wire::BgOut),
        Condition::OwnBusyHigh | Condition::OwnBusyLow => Some(Wire::Bbsy),
        Condition::OwnAddressOn | Condition::OwnAddressOff | Condition::AddressFree => {
            Some(Wire::Addr)
        }
        Condition::OwnAddressStrobeLow => Some(Wire::AddressStrobe),
        Condition::OwnDataStrobeHigh => Some(Wire::DataStrobe),
        Condition::OwnAcknowledgeOutHigh => Some(Wire::IackOut),
        Condition::OwnDtackHigh => Some(Wire::Dtack),
        Condition::Served => Some(Wire::Irq),
        _ => None,
    }
}

/// The board's own wire that a condition speaks of.
pub(crate) fn own_first(
    bus: &Bus,
    marks: &Marks,
    driver: Driver,
    condition: Condition,
) -> Option<Witness>
    requires { is_driver driver ≡ true }
    ensures { OfTrace bus.now marks.now (λ k.
        option_to_list result ≡ own_first bus.now k driver condition) }
{
    match condition {
        Condition::Pending | Condition::NotPending => request(bus, marks, driver),
        _ => own(bus, marks, driver, own_wire(condition)?),
    }
}

/// What else of the board a condition speaks of.
pub(crate) fn own_second(
    bus: &Bus,
    marks: &Marks,
    driver: Driver,
    condition: Condition,
) -> Option<Witness>
    requires { is_driver driver ≡ true }
    ensures { OfTrace bus.now marks.now (λ k.
        option_to_list result ≡ own_second bus.now k driver condition) }
{
    match condition {
        Condition::GrantInHigh | Condition::GrantInLow => grant_input(bus, marks, driver),
        Condition::AcknowledgeInLow => acknowledge_input(bus, marks, driver),
        Condition::AddressFree => own(bus, marks, driver, Wire::AddressStrobe),
        Condition::Strobed | Condition::NotStrobed => strobe(bus, marks, driver),
        Condition::WithinBurst => bursts(bus, marks, driver),
        Condition::Served | Condition::Pending | Condition::NotPending => {
            service(bus, marks, driver)
        }
        _ => None,
    }
}
