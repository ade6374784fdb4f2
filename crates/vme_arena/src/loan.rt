//! Granules of a region that are lent for a lifetime.
ghost use Rattle.std.specs.Prelude.{◌≡◌, ℕ, ◌+◌, ◌-◌, ◌*◌, ◌<◌, ◌≤◌, nat_lt, IfSome};
ghost use base.Fml.{GName, fbor};
ghost use Rattle.vme_arena.specs.Ownership.{Spot, IsSpot, homes_at};

use crate::memory::UNIT;
use crate::piece::Piece;
use std::marker::{Model, PhantomData};

#[derive(Drop)]
pub(crate) struct Loan<'r> {
    pub(crate) bytes: *mut u8,
    pub(crate) tags: *mut u8,
    pub(crate) marker: PhantomData<&'r mut u8>,
    ghost count: { ℕ },
    ghost spot: { Spot },
    ghost placed: { IsSpot spot count bytes tags },
    // The name of the borrow, for the clause that says what its lender ends as.
    ghost name: { GName },
}

impl<'r> Model for Loan<'r> {
    ghost also_owns = { λ l. fbor 'r (homes_at l.spot l.count) };
}

impl<'r> Loan<'r> {
    // The granules from `front` on, and the first `front` granules.
    pub(crate) fn split(self, front: usize) -> (Loan<'r>, Loan<'r>)
        requires { front ≤ self.count }
        ensures front { (result.1.count ≡ front) × (result.1.spot ≡ self.entry.spot) }
        ensures behind { (front + result.0.count ≡ self.entry.count)
            × (result.0.spot.block ≡ self.entry.spot.block)
            × (result.0.spot.at ≡ self.entry.spot.at + front * 16) }
    {
        let Loan {
            bytes,
            tags,
            marker,
        } = self;
        let far = front * UNIT;
        unsafe {
            let first = Loan {
                bytes,
                tags,
                marker,
            };
            let second = Loan {
                bytes: bytes.add(far),
                tags: tags.add(front),
                marker,
            };
            (second, first)
        }
    }

    // The granule at `place`, if it is at home. It is away from then on.
    pub(crate) fn take(self, place: usize) -> (Loan<'r>, Option<Piece>)
        requires { place < self.count }
        ensures { (result.0 ≡ self.entry)
            × IfSome result.1 (λ p. (p.block ≡ self.entry.spot.block)
            × (p.at ≡ self.entry.spot.at + place * 16) × (p.size ≡ 16)) }
    {
        let Loan {
            bytes,
            tags,
            marker,
        } = self;
        let far = place * UNIT;
        unsafe {
            let tag = tags.add(place);
            let at_home = *tag;
            let loan = Loan {
                bytes,
                tags,
                marker,
            };
            if at_home == 0 {
                (loan, None)
            } else {
                *tag = 0;
                let piece = Piece {
                    ptr: bytes.add(far),
                };
                (loan, Some(piece))
            }
        }
    }

    // Brings the granule at `place` home, which is the front of the piece. The rest of the piece is
    // returned.
    pub(crate) fn put(self, place: usize, piece: Piece) -> (Loan<'r>, Piece)
        requires { (place < self.count) × (16 ≤ piece.size) × (piece.at ≡ self.spot.at + place * 16)
            × (piece.block ≡ self.spot.block) }
        ensures { (result.0 ≡ self.entry) × (result.1.block ≡ piece.block)
            × (result.1.at ≡ piece.at + 16) × (result.1.size + 16 ≡ piece.size) }
    {
        let Loan {
            bytes,
            tags,
            marker,
        } = self;
        let Piece { ptr } = piece;
        unsafe {
            let tag = tags.add(place);
            *tag = 1;
            let loan = Loan {
                bytes,
                tags,
                marker,
            };
            (loan, Piece { ptr: ptr.add(16) })
        }
    }

    // Whether the piece begins before the granule at `place`.
    pub(crate) fn is_past(self, place: usize, piece: Piece) -> (bool, (Loan<'r>, Piece))
        requires { (place ≤ self.count) × (piece.block ≡ self.spot.block) }
        ensures { (result.0 ≡ nat_lt piece.at (self.entry.spot.at + place * 16))
            × (result.1.0 ≡ self.entry) × (result.1.1 ≡ piece) }
    {
        let Loan {
            bytes,
            tags,
            marker,
        } = self;
        let Piece { ptr } = piece;
        let far = place * UNIT;
        unsafe {
            let past = ptr < bytes.add(far);
            let loan = Loan {
                bytes,
                tags,
                marker,
            };
            (past, (loan, Piece { ptr }))
        }
    }
}

unsafe impl Send for Loan<'_> {}
