//! Sets of places of a sample.
ghost use Rattle.std.specs.Prelude.{◌≡◌, ◌<◌, ◌≤◌, ◌-◌, ◌^◌, true, count_ones};
ghost use Rattle.vme_samples.specs.Places.{IsBefore, has_place, with, without};

/// The most changes of a sample.
pub const MOST: usize = 12;

/// A set of places of a sample, a bit for each.
#[derive(Clone, Copy, PartialEq, Eq)]
pub struct Places {
    bits: u32,
}

impl Places {
    /// The set without a place.
    pub const NONE: Places = Places { bits: 0 };

    /// The first places, so many.
    pub fn first(count: usize) -> Places
        requires { count ≤ 12 }
        ensures { result.bits ≡ 2 ^ count - 1 }
    {
        Places {
            bits: (1 << count) - 1,
        }
    }

    /// The set of this number.
    pub fn numbered(number: usize) -> Places
        requires { number < 4096 }
        ensures { result.bits ≡ number }
    {
        Places {
            bits: number as u32,
        }
    }

    /// Its number: the sum of 2 to the power of each of its places.
    pub fn number(self) -> usize
        ensures { result ≡ self.bits }
    {
        self.bits as usize
    }

    /// Whether the place is in it.
    #[tactic(auto, using(vme_bus::proofs::Masks::tested))]
    pub fn has(self, place: usize) -> bool
        requires { place < 12 }
        ensures { result ≡ has_place self place }
    {
        self.bits & (1 << place) != 0
    }

    /// The set without a place that is in it.
    pub fn without(self, place: usize) -> Places
        requires near { place < 12 }
        requires has { has_place self place ≡ true }
        ensures { result ≡ without self place }
    {
        Places {
            bits: self.bits - (1 << place),
        }
    }

    /// The set with a place that is not in it.
    pub fn with(self, place: usize) -> Places
        requires near { place < 12 }
        requires few { self.bits < 4096 }
        ensures { result ≡ with self place }
    {
        Places {
            bits: self.bits + (1 << place),
        }
    }

    /// How many places are in it.
    pub fn count(self) -> u32
        ensures { result ≡ count_ones self.bits }
    {
        self.bits.count_ones()
    }

    /// Whether the first place that is in one of the two alone is in this one: of two sets of as
    /// many places, its list, ascending, is the lesser one then.
    pub fn is_before(self, other: Places) -> bool
        ensures before { result ≡ true → IsBefore self other }
        ensures not { IsBefore self other → result ≡ true }
    {
        for place in 0..MOST {
            let is_here = self.has(place);
            let is_there = other.has(place);
            if is_here && !is_there {
                return true;
            }
            if is_there && !is_here {
                return false;
            }
        }
        false
    }
}
