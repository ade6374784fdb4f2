//! Versions and edges, by the numbers that C uses for them.
ghost use Rattle.std.specs.Prelude.{◌≡◌};
ghost use Rattle.vme_model.specs.Signals.{is_slot};
ghost use Rattle.vme_model.specs.Accepted.{when};
ghost use Rattle.vmebus_c.specs.Named.{version_of_number, driver_of_number, wire_of_number, fall_of_number, value_of_number, edge_of_numbers};

use vme_model::{Cycle, Driver, Edge, Version, Wire};

/// What is added to the slot in the number of an access.
const ACCESS: u32 = 32;

/// The version of the rules, by its number 1 or 2.
pub(crate) fn version_of(number: u32) -> Option<Version>
    ensures { result ≡ version_of_number number }
{
    match number {
        1 => Some(Version::One),
        2 => Some(Version::Two),
        _ => None,
    }
}

/// The slot of a number, if it is 1 to 21.
fn slot_of(number: u32) -> Option<u8>
    ensures { result ≡ when (is_slot number) number }
{
    if (1..=21).contains(&number) {
        Some(number as u8)
    } else {
        None
    }
}

/// The driver: 0 is the controller, and 1 to 21 the board of that slot.
pub(crate) fn driver_of(number: u32) -> Option<Driver>
    ensures { result ≡ driver_of_number number }
{
    if number == 0 {
        return Some(Driver::Controller);
    }
    match slot_of(number) {
        Some(slot) => Some(Driver::Slot(slot)),
        None => None,
    }
}

/// The wire, by its place among all wires, 0 to 15.
pub(crate) fn wire_of(number: u32) -> Option<Wire>
    ensures { result ≡ wire_of_number number }
{
    let wire = match number {
        0 => Wire::Bg(0),
        1 => Wire::Bg(1),
        2 => Wire::Bg(2),
        3 => Wire::Bg(3),
        4 => Wire::Bclr,
        5 => Wire::Iack,
        6 => Wire::Berr,
        7 => Wire::Br,
        8 => Wire::BgOut,
        9 => Wire::Bbsy,
        10 => Wire::Addr,
        11 => Wire::AddressStrobe,
        12 => Wire::DataStrobe,
        13 => Wire::Irq,
        14 => Wire::IackOut,
        15 => Wire::Dtack,
        _ => return None,
    };
    Some(wire)
}

/// Whether the edge is a fall: 1 is a fall, and 0 a rise.
fn fall_of(number: u32) -> Option<bool>
    ensures { result ≡ fall_of_number number }
{
    match number {
        0 => Some(false),
        1 => Some(true),
        _ => None,
    }
}

/// What an address group shows: 0 for nothing, 1 to 7 for an acknowledge of that level, and 32 more
/// than the slot for an access.
fn value_of(number: u32) -> Option<Option<Cycle>>
    ensures { result ≡ value_of_number number }
{
    if number == 0 {
        return Some(None);
    }
    if number <= 7 {
        return Some(Some(Cycle::Acknowledge(number as u8)));
    }
    match slot_of(number.saturating_sub(ACCESS)) {
        Some(slot) => Some(Some(Cycle::Access(slot))),
        None => None,
    }
}

/// The edge that the numbers name, if they name one.
pub(crate) fn edge_of_numbers(driver: u32, wire: u32, fall: u32, value: u32) -> Option<Edge>
    ensures { result ≡ edge_of_numbers driver wire fall value }
{
    let driver = driver_of(driver)?;
    let wire = wire_of(wire)?;
    let fall = fall_of(fall)?;
    let value = value_of(value)?;
    Some(Edge {
        driver,
        wire,
        fall,
        value,
    })
}
