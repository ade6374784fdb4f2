//! Bytes of a region that nobody else holds.
ghost use Rattle.std.specs.Prelude.{◌≡◌, ℕ, ◌+◌};
ghost use Rattle.vme_arena.specs.Stretch.{LiesAt};
ghost use Rattle.vme_arena.specs.Ownership.{units_at};

use std::marker::Model;

// A piece of a region. If it is dropped, its bytes stay away from the region.
#[derive(Drop)]
pub(crate) struct Piece {
    pub(crate) ptr: *mut u8,
    ghost block: { ℕ },
    ghost at: { ℕ },
    ghost size: { ℕ },
    ghost placed: { LiesAt block at size ptr },
}

impl Model for Piece {
    ghost also_owns = { λ p. units_at p.ptr p.size };
}

impl Piece {
    // Two pieces as one. The second begins at the end of the first.
    pub(crate) fn join(self, next: Piece) -> Piece
        requires { (self.block ≡ next.block) × (self.at + self.size ≡ next.at) }
        ensures { (result.block ≡ self.block) × (result.at ≡ self.at)
            × (result.size ≡ self.size + next.size) }
    {
        let Piece { ptr } = self;
        let Piece { ptr: _ } = next;
        Piece { ptr }
    }
}

unsafe impl Send for Piece {}
