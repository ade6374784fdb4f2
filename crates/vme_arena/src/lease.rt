//! A stretch of a region, as an allocator.
ghost use Rattle.std.specs.Prelude.{◌≡◌, ◌+◌, ◌-◌, ◌*◌, ◌%◌, ◌^◌, ◌<◌, ◌≤◌, IfSome, MatchResult};
ghost use Rattle.std.specs.Mem.{type_size};
ghost use Rattle.vme_arena.specs.Stretch.{block_size, LiesIn};
ghost use Rattle.vme_arena.specs.Ownership.{block_token};

use crate::block::{Block, size_of_values};
use crate::held::Held;
use crate::loan::Loan;
use crate::memory::UNIT;
use crate::piece::Piece;
use crate::slot::Slot;
use std::alloc::{AllocError, Allocator};
use std::fmt;
use std::marker::PhantomData;

/// A stretch of a region, as the allocator of one thread's collections. Pass the lease itself to a
/// `Vec` that is to own it, or a `&Lease` to several.
///
/// Blocks are laid one after the other, each as long as its size rounded up to 16 bytes. The room
/// of a block is used again once the block and all blocks after it are given back. The last block
/// grows in place if its size is a multiple of 16; any other block moves. An alignment above 16,
/// and a block for which no room is left, are an `AllocError`.
#[derive(Drop)]
pub struct Lease<'r> {
    start: usize,
    length: usize,
    slot: Slot<'r>,
    ghost placed: { (slot.start ≡ start) × (slot.end ≡ start + length) },
}

pub(crate) fn size_of_block(size: usize) -> usize
    requires { size < 2 ^ 63 }
    ensures { result ≡ block_size size }
{
    size.max(1).next_multiple_of(UNIT)
}

impl<'r> Lease<'r> {
    pub(crate) fn new(start: usize, length: usize, loan: Loan<'r>) -> Lease<'r>
        requires { (loan.count * 16 ≡ length) × (loan.spot.at ≡ start) × (start % 16 ≡ 0) }
        ensures { (result.start ≡ start) × (result.length ≡ length)
            × (result.slot.block ≡ loan.entry.spot.block) }
    {
        let slot = Slot::new(Held::new(loan, length / UNIT));
        Lease {
            start,
            length,
            slot,
        }
    }

    // The slot is empty only while one of the next two functions runs, and they call nothing that
    // could come back here.
    fn take(&self, size: usize, align: usize) -> Option<Piece>
        ensures { IfSome result
            (λ p. (p.size ≡ block_size size) × LiesIn self.now.slot p.at (block_size size) p.ptr
            × (size < 2 ^ 63) × (align ≤ 16)) }
    {
        if align > UNIT || size > isize::MAX as usize - UNIT {
            return None;
        }
        let (held, block) = self.slot.replace(None)?.take(size_of_block(size));
        self.slot.replace(Some(held));
        block
    }

    fn give(&self, block: Piece, size: usize)
        requires size { (16 ≤ size) × (block.size ≡ size) }
        requires block { (block.block ≡ self.now.slot.block) × (self.now.slot.start ≤ block.at)
            × (block.at + size ≤ self.now.slot.end) × (block.at % 16 ≡ 0) }
    {
        if let Some(held) = self.slot.replace(None) {
            self.slot.replace(Some(held.give(block, size)));
        }
    }

    // The bytes that a block of `old` bytes lacks to be one of `new`, if it is the last block and
    // no bytes lie between its size and its rounding. Those bytes cannot be had while values lie in
    // the block.
    fn take_behind(&self, start: Piece, old: usize, new: usize) -> Option<Piece>
        requires sizes { (old ≤ new) × (new < 2 ^ 63) }
        requires block { (start.block ≡ self.now.slot.block) × (self.now.slot.start ≤ start.at)
            × (start.at + block_size old ≤ self.now.slot.end) × (start.at % 16 ≡ 0) }
        ensures { IfSome result
            (λ p. (p.block ≡ start.block) × (p.at ≡ start.at + old) × (block_size old ≡ old)
            × (old + p.size ≡ block_size new) × (p.at + p.size ≤ self.now.slot.end)) }
    {
        if old == 0 || old % UNIT != 0 {
            return None;
        }
        let more = size_of_block(new) - old;
        let (held, behind) = self.slot.replace(None)?.take_behind(start, old, more);
        self.slot.replace(Some(held));
        behind
    }

    // The block with room for `new_cap` values, in place or moved, or otherwise as it was. `start`
    // is where it begins.
    fn grown<T>(
        &self,
        block: Block<T>,
        start: Piece,
        len: usize,
        old_cap: usize,
        new_cap: usize,
    ) -> Result<Block<T>, Block<T>>
        requires block { (block.stretch ≡ self.now.slot) × (block.len ≡ len)
            × (block.cap ≡ old_cap) }
        requires start { LiesIn block.stretch block.at
            (block_size (old_cap * type_size T.row)) start.ptr × (start.block ≡ block.stretch.block)
            × (start.at ≡ block.at) }
        requires sizes { (len ≤ old_cap) × (old_cap ≤ new_cap)
            × (new_cap * type_size T.row < 2 ^ 63) }
        ensures { MatchResult result
            (λ b. (b.stretch ≡ block.stretch) × (b.len ≡ len) × (b.cap ≡ new_cap)
            × (b.items ≡ block.items)) (λ b. b ≡ block) }
    {
        let old_size = size_of_values::<T>(old_cap);
        let new_size = size_of_values::<T>(new_cap);
        if let Some(behind) = self.take_behind(start, old_size, new_size) {
            return Ok(block.extend(behind, new_cap));
        }
        self.moved(block, len, old_cap, new_cap)
    }

    // The block with room for fewer values, in place or moved, or otherwise as it was. A block that
    // is to have fewer granules moves, because its rear cannot be given back while values lie
    // before it.
    fn shrunk<T>(
        &self,
        block: Block<T>,
        len: usize,
        old_cap: usize,
        new_cap: usize,
    ) -> Result<Block<T>, Block<T>>
        requires block { (block.stretch ≡ self.now.slot) × (block.len ≡ len)
            × (block.cap ≡ old_cap) }
        requires sizes { (len ≤ new_cap) × (new_cap ≤ old_cap)
            × (old_cap * type_size T.row < 2 ^ 63) }
        ensures { MatchResult result
            (λ b. (b.stretch ≡ block.stretch) × (b.len ≡ len) × (b.cap ≡ new_cap)
            × (b.items ≡ block.items)) (λ b. b ≡ block) }
    {
        let old_size = size_of_values::<T>(old_cap);
        let new_size = size_of_values::<T>(new_cap);
        if size_of_block(new_size) == size_of_block(old_size) {
            return Ok(block.narrow(new_cap));
        }
        self.moved(block, len, old_cap, new_cap)
    }

    // The block's values in a new block after all others, if there is room for one.
    fn moved<T>(
        &self,
        block: Block<T>,
        len: usize,
        old_cap: usize,
        new_cap: usize,
    ) -> Result<Block<T>, Block<T>>
        requires block { (block.stretch ≡ self.now.slot) × (block.len ≡ len)
            × (block.cap ≡ old_cap) }
        requires sizes { (len ≤ old_cap) × (len ≤ new_cap) × (old_cap * type_size T.row < 2 ^ 63)
            × (new_cap * type_size T.row < 2 ^ 63) }
        ensures { MatchResult result
            (λ b. (b.stretch ≡ block.stretch) × (b.len ≡ len) × (b.cap ≡ new_cap)
            × (b.items ≡ block.items)) (λ b. b ≡ block) }
    {
        let Some(room) = self.take(size_of_values::<T>(new_cap), UNIT) else {
            return Err(block);
        };
        let (block, old) = block.move_to(room, len, new_cap);
        self.give(old, size_of_block(size_of_values::<T>(old_cap)));
        Ok(block)
    }
}

unsafe impl<'r> Allocator for Lease<'r> {
    ghost dealloc_token = { λ lease. block_token lease.slot };

    fn allocate(&self, size: usize, align: usize) -> Result<*mut u8, AllocError> {
        match self.take(size, align) {
            Some(Piece { ptr }) => Ok(ptr),
            None => Err(AllocError),
        }
    }

    unsafe fn deallocate(&self, ptr: *mut u8, size: usize, _align: usize) {
        let size = size_of_block(size);
        self.give(Piece { ptr }, size);
    }

    unsafe fn grow<T>(
        &self,
        ptr: *mut T,
        len: usize,
        old_cap: usize,
        new_cap: usize,
    ) -> Result<*mut T, AllocError> {
        let marker = PhantomData;
        let start = Piece {
            ptr: ptr as *mut u8,
        };
        match self.grown(Block { ptr, marker }, start, len, old_cap, new_cap) {
            Ok(Block { ptr, marker: _ }) => Ok(ptr),
            Err(Block { ptr: _, marker: _ }) => Err(AllocError),
        }
    }

    unsafe fn shrink<T>(
        &self,
        ptr: *mut T,
        len: usize,
        old_cap: usize,
        new_cap: usize,
    ) -> Result<*mut T, AllocError> {
        let marker = PhantomData;
        match self.shrunk(Block { ptr, marker }, len, old_cap, new_cap) {
            Ok(Block { ptr, marker: _ }) => Ok(ptr),
            Err(Block { ptr: _, marker: _ }) => Err(AllocError),
        }
    }
}

impl fmt::Debug for Lease<'_> {
    fn fmt<W: fmt::Write>(&self, f: &mut fmt::Formatter<W>) -> fmt::Result {
        f.debug_struct("Lease")
            .field("start", &self.start)
            .field("length", &self.length)
            .finish()
    }
}

unsafe impl Send for Lease<'_> {}
