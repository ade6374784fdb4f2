//! What lies under the lock.
use crate::seats::Rig;
use std::marker::Model;
use std::sync::ledger::{Book, Share};
use vme_backplane::Backplane;

/// The locked value: the backplane, each driver's number of edges, and the book with the edges of
/// all seats.
#[derive(Drop)]
pub struct Held<'r, L: Rig> {
    pub(crate) backplane: Backplane<'r>,
    pub(crate) counts: [u32; 22],
    pub(crate) book: Book<L>,
    /// The parts of the ledger that belong to no seat.
    pub(crate) spare: Share<L>,
}

impl<'r, L: Rig> Model for Held<'r, L> {
    ghost use Rattle.std.specs.Prelude.{◌≡◌, ◌+◌, length};
    ghost use Rattle.vme_model.specs.Plan.{drivers};
    ghost use Rattle.vme_lock.specs.Seats.{Keeping, IsHeld};

    ghost Value = { Keeping };

    ghost view = { λ h. record { board = h.backplane; counts = h.counts; total = h.book.total } };

    ghost invariant = { λ h.
        IsHeld L.opened (record { board = h.backplane; counts = h.counts; total = h.book.total })
        × (h.spare.amount ≡ 0) × (h.spare.parts + length (drivers L.opened.plan) ≡ 22) };
}
