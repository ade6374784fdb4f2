//! Answers and deliveries as the numbers that C is told.
ghost use Rattle.std.specs.Prelude.{◌≡◌, ◌<◌};
ghost use Rattle.vmebus_c.specs.Told.{refusal_number, delivery_number};

use vme_model::{Delivery, Refused};

/// A refusal by its number, with that of its rule in the lowest byte.
pub(crate) fn refusal_number(refused: Refused) -> u32
    ensures number { result ≡ refusal_number refused }
    ensures some { 0 < result }
{
    match refused {
        Refused::NoSuchDriver => 0x100,
        Refused::AlreadyThere => 0x200,
        Refused::Rule(rule) => 0x300 + u32::from(rule),
        Refused::NotSettled(rule) => 0x400 + u32::from(rule),
        Refused::TraceFull => 0x500,
    }
}

/// A delivery: the level under bit 31, the handler, the slot that answers, and the status byte.
pub(crate) fn delivery_number(delivery: Delivery) -> u32
    ensures { result ≡ delivery_number delivery }
{
    let level = 0x80 + u32::from(delivery.level % 0x80);
    let to = level * 0x100 + u32::from(delivery.handler);
    let from = to * 0x100 + u32::from(delivery.answered_by);
    from * 0x100 + u32::from(delivery.status)
}
