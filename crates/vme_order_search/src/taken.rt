//! The places of a beginning.
ghost use Rattle.std.specs.Prelude.{◌≡◌, ◌==◌, ◌||◌, ◌+◌, ◌<◌, ◌≤◌, ◌^◌, ℕ, false};
ghost use Rattle.vme_order_search.specs.Places.{IsNarrow, bucket_count, bucket_of, holds};

/// How many buckets there are for sets of places.
pub(crate) const BUCKETS: usize = 65_536;

/// A set of places: all below the least that is missing, and some of the next 127.
#[derive(Clone, Copy, PartialEq, Eq)]
pub(crate) struct Taken {
    /// The least place that is missing.
    least: usize,
    /// Which of the places behind it are not, a bit for each.
    behind: u128,
}

impl Taken {
    /// No place.
    pub(crate) fn none() -> Taken
        ensures narrow { IsNarrow result }
        ensures none { (i : ℕ) → holds result i ≡ false }
    {
        Taken {
            least: 0,
            behind: 0,
        }
    }

    /// The least place that is missing.
    #[inline(always)]
    pub(crate) fn least(&self) -> usize
        ensures { result ≡ self.now.least }
    {
        self.least
    }

    /// Whether it has a place.
    #[inline(always)]
    pub(crate) fn has(&self, place: usize) -> bool
        requires { IsNarrow self.now }
        ensures { result ≡ holds self.now place }
    {
        if place <= self.least {
            return place < self.least;
        }
        let behind = place - self.least - 1;
        behind < 128 && (self.behind >> behind) & 1 == 1
    }

    /// With one more place.
    #[inline(always)]
    pub(crate) fn with(&self, place: usize) -> Taken
        requires narrow { IsNarrow self.now }
        requires missing { self.now.least ≤ place }
        requires near { place < self.now.least + 128 }
        requires few { place < 2 ^ 32 }
        ensures narrow { IsNarrow result }
        ensures places { (i : ℕ) → holds result i ≡ (place == i || holds self.now i) }
    {
        if place > self.least {
            let behind = place - self.least - 1;
            return Taken {
                least: self.least,
                behind: self.behind | (1 << behind),
            };
        }
        let more = self.behind.trailing_ones();
        Taken {
            least: self.least + more as usize + 1,
            behind: (self.behind >> more) >> 1,
        }
    }

    /// The bucket of the set: some number that equal sets share.
    #[inline(always)]
    pub(crate) fn bucket(&self) -> usize
        ensures bucket { result ≡ bucket_of self.now }
        ensures within { result < bucket_count }
    {
        let low = (self.behind % 0x1_0000_0000_0000_0000) as u64;
        let high = (self.behind >> 64) as u64;
        let mixed = low.wrapping_add(high).wrapping_mul(0x9e37_79b9_7f4a_7c15);
        (mixed >> 48) as usize
    }
}
