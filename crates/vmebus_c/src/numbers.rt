//! Answers, deliveries, conditions and edges, as the numbers that C reads.
ghost use Rattle.std.specs.Prelude.{◌≡◌, ◌<◌};
ghost use Rattle.vmebus_c.specs.Numbers.{refusal_number, delivery_number, edge_number};
ghost use Rattle.vmebus_c.specs.Conditions.{condition_number};

use crate::bits::{bit, shown_number};
use vme_model::{Condition, Delivery, Edge, Refused};

/// The number of a refusal: 0x100 for each of E1 to E4, with the number of its rule in the lowest
/// byte.
pub(crate) fn refusal_number(refused: Refused) -> u32
    ensures number { result ≡ refusal_number refused }
    ensures some { 0 < result }
{
    match refused {
        Refused::NoSuchDriver => 0x100,
        Refused::AlreadyThere => 0x200,
        Refused::Rule(rule) => 0x300 + u32::from(rule),
        Refused::NotSettled(rule) => 0x400 + u32::from(rule),
        Refused::TraceFull => 0x500,
    }
}

/// The number of a delivery. From the top it has bit 31 set and the level, the handler, the slot
/// that answers, and the status byte.
pub(crate) fn delivery_number(delivery: Delivery) -> u32
    ensures { result ≡ delivery_number delivery }
{
    let level = 0x80 + u32::from(delivery.level % 0x80);
    let to = level * 0x100 + u32::from(delivery.handler);
    let from = to * 0x100 + u32::from(delivery.answered_by);
    from * 0x100 + u32::from(delivery.status)
}

/// The number of a condition: its place among all of them, from 0.
pub(crate) fn condition_number(condition: Condition) -> u32
    ensures { result ≡ condition_number condition }
{
    condition as u32
}

/// An edge in one word. From the top it has the driver, the wire, 1 for a fall, and the value.
pub(crate) fn edge_number(edge: &Edge) -> u32
    ensures { result ≡ edge_number edge.now }
{
    let wire = u32::from(edge.driver.number()) * 0x100 + u32::from(edge.wire.number());
    let fall = wire * 0x100 + bit(edge.fall, 1);
    fall * 0x100 + shown_number(edge.value)
}
