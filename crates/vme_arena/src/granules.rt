//! All bytes of a region, in granules of 16 bytes, each with a tag that says whether it is at home.
ghost use Rattle.std.specs.Prelude.{◌≡◌, ℕ, ◌+◌, ◌*◌, ◌^◌, ◌<◌};
ghost use base.Fml.{fsep};
ghost use denote.RawPtr.{block_ptr};
ghost use Rattle.vme_arena.specs.Stretch.{rounded};
ghost use Rattle.vme_arena.specs.Ownership.{Spot, IsSpot, homes_at, blank_at};

use crate::loan::Loan;
use crate::memory::{Deed, Memory};
use crate::piece::Piece;
use std::alloc::Global;
use std::marker::{Model, PhantomData};

#[derive(Drop)]
pub(crate) struct Granules {
    pub(crate) bytes: *mut u8,
    pub(crate) tags: *mut u8,
    // How many granules have their tag written. The `blank` granules after them have none yet.
    ghost count: { ℕ },
    ghost blank: { ℕ },
    ghost spot: { Spot },
    ghost placed: { IsSpot spot (count + blank) bytes tags },
}

impl Model for Granules {
    ghost also_owns = { λ g. fsep (homes_at g.spot g.count) (blank_at g.spot g.count g.blank) };
}

impl Granules {
    ghost use Rattle.std.specs.Borrow.{sem, follows};
    ghost use Rattle.vme_arena.specs.contracts.granules.Granules.{the_row};

    // The granules of the memory, all of them blank, with their tags after them.
    pub(crate) fn new(memory: Memory, deed: Deed<Global>, count: usize) -> (Granules, Deed<Global>)
        requires size { memory.size ≡ count * 16 + rounded count }
        requires deed { deed.ptr ≡ memory.ptr }
        ensures counts { (result.0.count ≡ 0) × (result.0.blank ≡ count) }
        ensures spot { (result.0.spot.at ≡ 0) × (result.0.spot.tag ≡ count * 16) }
        ensures deed { (result.1 ≡ deed) × (deed.ptr ≡ block_ptr result.0.spot.block 0) }
    {
        let Memory { ptr, size: _ } = memory;
        let Deed { marker } = deed;
        let far = count * 16;
        unsafe {
            let granules = Granules {
                bytes: ptr,
                tags: ptr.add(far),
            };
            (granules, Deed { marker })
        }
    }

    // Marks the first blank granule as at home. `place` other granules stand before it.
    pub(crate) fn mark(self, place: usize) -> Granules
        requires { (self.count ≡ place) × (0 < self.blank) }
        ensures { (result.count ≡ place + 1) × (result.blank + 1 ≡ self.blank)
            × (result.spot ≡ self.spot) }
    {
        let Granules { bytes, tags } = self;
        unsafe {
            let tag = tags.add(place);
            tag.write(1);
        }
        Granules { bytes, tags }
    }

    // Lends the granules. Whatever comes home or stays away, they are the same granules once the
    // loan is over.
    pub(crate) fn lend<'r>(&'r mut self) -> Loan<'r>
        ensures loan { (result.count ≡ self.entry.now.count) × (result.spot ≡ self.entry.now.spot) }
        ensures* same { sem 𝓛
            (follows the_row the_row self.entry.ghost_name result.name (λ _. self.entry.now)) }
    {
        Loan {
            bytes: self.bytes,
            tags: self.tags,
            marker: PhantomData,
        }
    }

    // The memory of which the granules were made, if `bytes` is all of their bytes.
    pub(crate) fn into_memory(self, bytes: Piece, size: usize) -> Memory
        requires whole { (self.spot.at ≡ 0) × (self.spot.tag ≡ self.count * 16) × (self.blank ≡ 0) }
        requires bytes { (bytes.block ≡ self.spot.block) × (bytes.at ≡ 0)
            × (bytes.size ≡ self.count * 16) }
        requires size { (size < 2 ^ 63) × (size ≡ self.count * 16 + rounded self.count) }
        ensures { (result.size ≡ size) × (result.ptr ≡ block_ptr self.spot.block 0) }
    {
        let Granules { bytes: _, tags: _ } = self;
        let Piece { ptr } = bytes;
        Memory { ptr, size }
    }
}
