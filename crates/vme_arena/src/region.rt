//! A region of memory, and the part of it that has not been carved yet.
ghost use Rattle.std.specs.Prelude.{◌≡◌, ◌+◌, ◌*◌, ◌%◌, ◌^◌, ◌<◌, ◌≤◌, ◌↔◌, IfOk, IfErr, IsErr};
ghost use denote.RawPtr.{block_ptr};
ghost use Rattle.vme_arena.specs.Stretch.{rounded};

use crate::granules::Granules;
use crate::lease::Lease;
use crate::loan::Loan;
use crate::memory::{Deed, Memory, UNIT};
use core::mem::replace_with;
use std::alloc::{AllocError, Global};
use std::marker::PhantomData;
use thiserror::Error;

/// The error of a carving: a stretch was requested that is longer than what is left.
#[derive(Clone, Copy, Debug, PartialEq, Eq, Error)]
#[error("{asked} bytes are asked for, and {left} are left")]
pub struct Full {
    /// The number of bytes that were requested, before rounding.
    pub asked: usize,
    /// The number of bytes that are left.
    pub left: usize,
}

/// One block of memory, from which stretches are carved.
///
/// The block is freed when the region is dropped. If a block of a lease was never given back, for
/// instance after a `mem::forget`, it stays away for good, and the drop leaks the region's block.
pub struct Region {
    // All bytes, with their tags.
    granules: Granules,
    origin: Origin,
    ghost counted: { (granules.count ≡ origin.count) × (granules.blank ≡ 0)
        × (0 < origin.count) × (origin.size ≤ origin.count * 16) },
    ghost roomy: { (origin.room ≡ origin.count * 16 + rounded origin.count)
        × (origin.room < 2 ^ 63) },
    ghost placed: { (granules.spot.at ≡ 0) × (granules.spot.tag ≡ origin.count * 16) },
    ghost owned: { (origin.deed.alloc ≡ origin.alloc) × (origin.deed.size ≡ origin.room)
        × (origin.deed.ptr ≡ block_ptr granules.spot.block 0) },
}

// What a region was made with. It stays here while the granules are lent.
struct Origin {
    size: usize,
    // The number of granules of 16 bytes, and the size of the block with their tags.
    count: usize,
    room: usize,
    deed: Deed<Global>,
    alloc: Global,
}

/// The part of a region that has not been carved yet. It begins after what was carved, and ends
/// where the region does.
#[derive(Drop)]
pub struct Rest<'r> {
    start: usize,
    left: usize,
    loan: Loan<'r>,
    ghost placed: { (loan.spot.at ≡ start) × (start % 16 ≡ 0) },
    ghost covered: { (left ≤ loan.count * 16) × (start + left < 2 ^ 63) },
}

impl Granules {
    // All granules, at home.
    fn made(memory: Memory, deed: Deed<Global>, count: usize) -> (Granules, Deed<Global>)
        requires { (memory.size ≡ count * 16 + rounded count) × (deed.ptr ≡ memory.ptr) }
        ensures counts { (result.0.count ≡ count) × (result.0.blank ≡ 0) }
        ensures spot { (result.0.spot.at ≡ 0) × (result.0.spot.tag ≡ count * 16) }
        ensures deed { (result.1 ≡ deed) × (deed.ptr ≡ block_ptr result.0.spot.block 0) }
    {
        let (mut granules, deed) = Granules::new(memory, deed, count);
        for place in 0..count {
            granules = granules.mark(place);
        }
        (granules, deed)
    }
}

impl Region {
    ghost use Rattle.std.specs.Borrow.{sem};
    ghost use Rattle.vme_arena.specs.Lending.{EndsAsItWas};
    ghost use Rattle.vme_arena.specs.Words.{region_size, rest_start, rest_left, rest_name};

    /// A region of `bytes` bytes, in one block that is aligned to 16. The block has those bytes,
    /// rounded up to 16, and one byte more for each 16 of them.
    ///
    /// # Errors
    /// `AllocError` if memory runs out.
    pub fn new(alloc: Global, bytes: usize) -> Result<Region, AllocError>
        ensures { IfOk result (λ r. region_size r ≡ bytes) }
    {
        if bytes > isize::MAX as usize / 2 {
            return Err(AllocError);
        }
        let count = bytes.div_ceil(UNIT).max(1);
        let room = count * UNIT + count.next_multiple_of(UNIT);
        let Some((memory, deed)) = Memory::new(&alloc, room) else {
            return Err(AllocError);
        };
        let (granules, deed) = Granules::made(memory, deed, count);
        let origin = Origin {
            size: bytes,
            count,
            room,
            deed,
            alloc,
        };
        Ok(Region { granules, origin })
    }

    /// All of the region, to be carved anew. The region is unchanged once the rest is gone,
    /// whatever was carved from it.
    pub fn rest<'r>(&'r mut self) -> Rest<'r>
        ensures rest { (rest_start result ≡ 0) × (rest_left result ≡ region_size self.entry.now) }
        ensures* same { sem 𝓛 (EndsAsItWas self.entry (rest_name result)) }
    {
        let left = self.origin.size;
        let loan = self.lend();
        Rest {
            start: 0,
            left,
            loan,
        }
    }

    // The region's granules, lent for the borrow.
    fn lend<'r>(&'r mut self) -> Loan<'r>
        ensures loan { (result.count ≡ self.entry.now.granules.count)
            × (result.spot ≡ self.entry.now.granules.spot) }
        ensures* same { sem 𝓛 (EndsAsItWas self.entry result.name) }
    {
        Loan {
            bytes: self.granules.bytes,
            tags: self.granules.tags,
            marker: PhantomData,
        }
    }
}

impl<'r> Rest<'r> {
    ghost use Rattle.vme_arena.specs.Words.{rest_start, rest_left, rest_stretch, lease_stretch};
    ghost use Rattle.vme_arena.specs.Stretch.{front, behind};

    /// The number of bytes that are left.
    pub fn left(&self) -> usize
        ensures { result ≡ rest_left self.now }
    {
        self.left
    }

    /// The front of the rest, as long as `bytes` rounded up to a multiple of 16.
    ///
    /// # Errors
    /// `Full` if and only if that is more than what is left; then nothing changes.
    pub fn carve(&mut self, bytes: usize) -> Result<Lease<'r>, Full>
        ensures full { IsErr result ↔ (rest_left self.old < rounded bytes) }
        ensures refused { IfErr result
            (λ e. (e.asked ≡ bytes) × (e.left ≡ rest_left self.old) × (self.new ≡ self.old)) }
        ensures stretch { IfOk result
            (λ l. lease_stretch l ≡ front (rounded bytes) (rest_stretch self.old)) }
        ensures rest { IfOk result
            (λ _. rest_stretch self.new ≡ behind (rounded bytes) (rest_stretch self.old)) }
        ensures left { IfOk result (λ _. rest_left self.new + rounded bytes ≡ rest_left self.old) }
    {
        let full = Full {
            asked: bytes,
            left: self.left,
        };
        let Some(length) = bytes.checked_next_multiple_of(UNIT) else {
            return Err(full);
        };
        if self.left < length {
            return Err(full);
        }
        let start = self.start;
        let front = replace_with(&mut self.loan, length / UNIT, Loan::split);
        (self.start, self.left) = (start + length, self.left - length);
        Ok(Lease::new(start, length, front))
    }
}

impl Drop for Region {
    fn drop(self) {
        let Region { granules, origin } = self;
        let Origin {
            size: _,
            count,
            room,
            deed,
            alloc,
        } = origin;
        let mut granules = granules;
        let (_, bytes) = granules.lend().take_run(0, count);
        if let Ok(bytes) = bytes {
            granules.into_memory(bytes, room).free(deed, &alloc);
        }
    }
}
