//! What an answer delivers.
ghost use Rattle.std.specs.Prelude.{◌≡◌};
ghost use Rattle.std.specs.Option.{option_copied};
ghost use Rattle.vme_model.specs.Deliveries.{delivered_by};

use vme_model::{Cycle, Delivery, Row};

/// The delivery of an answer, if it delivers: given what is shown, the slot that shows it, and the
/// board that answers. Source: Std 1014, chapter 4.
pub fn delivered_by(
    shown: Option<Cycle>,
    addressing: Option<u8>,
    board: Option<&Row>,
) -> Option<Delivery>
    ensures { result ≡ delivered_by shown addressing (option_copied board.entry) }
{
    let (
        Some(Cycle::Acknowledge(level)),
        Some(handler),
        Some(
            Row {
                slot,
                interrupter: Some(interrupter),
                ..
            },
        ),
    ) = (shown, addressing, board)
    else {
        return None;
    };
    Some(Delivery {
        handler,
        level,
        answered_by: *slot,
        status: interrupter.status,
    })
}
