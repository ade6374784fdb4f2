//! A block of a lease, with the values of a collection in it.
ghost use Rattle.std.specs.Prelude.{◌≡◌, ℕ, ◌+◌, ◌*◌, ◌^◌, ◌<◌, ◌≤◌, List};
ghost use Rattle.std.specs.Mem.{type_size};
ghost use Rattle.std.specs.Allocator.{block_with_items};
ghost use Rattle.vme_arena.specs.Stretch.{Stretch, LiesIn, block_size};
ghost use Rattle.vme_arena.specs.Ownership.{token_at};

use crate::piece::Piece;
use std::marker::{Model, PhantomData};
use std::mem::size_of;
use std::ptr::copy_nonoverlapping;

// Room for `cap` values, the first `len` of which are there.
pub(crate) struct Block<T> {
    pub(crate) ptr: *mut T,
    pub(crate) marker: PhantomData<T>,
    ghost stretch: { Stretch },
    ghost at: { ℕ },
    ghost len: { ℕ },
    ghost cap: { ℕ },
    ghost items: { List T },
}

impl<T> Model for Block<T> {
    ghost also_owns = { λ b.
        block_with_items (token_at b.stretch b.at) T.row b.ptr b.len b.cap b.items };
}

pub(crate) fn size_of_values<T>(count: usize) -> usize
    requires { count * type_size T.row < 2 ^ 63 }
    ensures { result ≡ count * type_size T.row }
{
    count * size_of::<T>()
}

impl<T> Block<T> {
    // The block together with the bytes that begin where its own end. It then has room for `_cap`
    // values.
    pub(crate) fn extend(self, behind: Piece, _cap: usize) -> Block<T>
        requires beside { (behind.block ≡ self.stretch.block)
            × (behind.at ≡ self.at + self.cap * type_size T.row)
            × (block_size (self.cap * type_size T.row) ≡ self.cap * type_size T.row) }
        requires size { (self.len ≤ self.cap) × (self.cap ≤ _cap)
            × (_cap * type_size T.row < 2 ^ 63)
            × (self.cap * type_size T.row + behind.size ≡ block_size (_cap * type_size T.row)) }
        requires inside { behind.at + behind.size ≤ self.stretch.end }
        ensures { (result.stretch ≡ self.stretch) × (result.len ≡ self.len) × (result.cap ≡ _cap)
            × (result.items ≡ self.items) }
    {
        let Block { ptr, marker } = self;
        let Piece { ptr: _ } = behind;
        Block { ptr, marker }
    }

    // The block, with its bytes counted as room for `_cap` values.
    pub(crate) fn narrow(self, _cap: usize) -> Block<T>
        requires { (self.len ≤ _cap) × (_cap ≤ self.cap)
            × (block_size (_cap * type_size T.row) ≡ block_size (self.cap * type_size T.row)) }
        ensures { (result.stretch ≡ self.stretch) × (result.len ≡ self.len) × (result.cap ≡ _cap)
            × (result.items ≡ self.items) }
    {
        let Block { ptr, marker } = self;
        Block { ptr, marker }
    }

    // Moves the values to other bytes, and returns the new block and the bytes of the old one.
    pub(crate) fn move_to(self, room: Piece, len: usize, _cap: usize) -> (Block<T>, Piece)
        requires room { (room.size ≡ block_size (_cap * type_size T.row))
            × LiesIn self.stretch room.at room.size room.ptr × (_cap * type_size T.row < 2 ^ 63) }
        requires counts { (len ≡ self.len) × (len ≤ _cap) × (len ≤ self.cap) }
        ensures moved { (result.0.stretch ≡ self.stretch) × (result.0.len ≡ len)
            × (result.0.cap ≡ _cap) × (result.0.items ≡ self.items) }
        ensures back { (result.1.size ≡ block_size (self.cap * type_size T.row))
            × LiesIn self.stretch result.1.at result.1.size result.1.ptr
            × (result.1.block ≡ self.stretch.block) }
    {
        let Block { ptr: old, marker } = self;
        let Piece { ptr } = room;
        let ptr = ptr as *mut T;
        unsafe { copy_nonoverlapping(old, ptr, len) };
        let back = Piece {
            ptr: old as *mut u8,
        };
        (Block { ptr, marker }, back)
    }
}
