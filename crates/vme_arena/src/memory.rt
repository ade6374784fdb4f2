//! The region's block, as the allocator that it comes from sees it.
ghost use Rattle.std.specs.Prelude.{◌≡◌, ℕ, IfSome};
ghost use denote.RawPtr.{Ptr};
ghost use Rattle.vme_arena.specs.Stretch.{IsBlockSize};
ghost use Rattle.vme_arena.specs.Ownership.{units_at, units_of};

use std::alloc::Allocator;
use std::marker::{Model, PhantomData};

// The unit of blocks, in bytes: they begin at multiples of it, and their sizes are multiples of it.
pub(crate) const UNIT: usize = 16;

// Bytes in which nothing lies, `size` of them.
pub(crate) struct Memory {
    pub(crate) ptr: *mut u8,
    pub(crate) size: usize,
    ghost sized: { IsBlockSize size },
}

impl Model for Memory {
    ghost also_owns = { λ m. units_at m.ptr m.size };
}

// The right to give the bytes back. If it is dropped, they stay taken.
#[derive(Drop)]
pub(crate) struct Deed<A: Allocator> {
    pub(crate) marker: PhantomData<A>,
    ghost alloc: { A },
    ghost ptr: { Ptr },
    ghost size: { ℕ },
}

impl<A: Allocator> Model for Deed<A> {
    ghost also_owns = { λ d. A.dealloc_token d.alloc (units_of d.size) d.ptr };
}

impl Memory {
    pub(crate) fn new<A: Allocator>(alloc: &A, size: usize) -> Option<(Memory, Deed<A>)>
        requires { IsBlockSize size }
        ensures { IfSome result
            (λ m. (m.0.size ≡ size) × (m.1.alloc ≡ alloc.now) × (m.1.ptr ≡ m.0.ptr)
            × (m.1.size ≡ size)) }
    {
        match alloc.allocate(size, UNIT) {
            Ok(ptr) => {
                let marker = PhantomData;
                Some((Memory { ptr, size }, Deed { marker }))
            }
            Err(_) => None,
        }
    }

    pub(crate) fn free<A: Allocator>(self, deed: Deed<A>, alloc: &A)
        requires { (deed.alloc ≡ alloc.now) × (deed.ptr ≡ self.ptr) × (deed.size ≡ self.size) }
    {
        let Memory { ptr, size } = self;
        let Deed { marker: _ } = deed;
        unsafe { alloc.deallocate(ptr, size, UNIT) }
    }
}
