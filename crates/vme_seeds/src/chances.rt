//! The chances of the kinds of edges.
ghost use Rattle.std.specs.Prelude.{◌≡◌, ◌<◌, ℕ, length, sum, slice_get, slice_index};
ghost use Rattle.vme_seeds.specs.Kinds.{kinds};
ghost use Rattle.vme_seeds.specs.Choices.{chance, falls_at};

use crate::kinds::{KIND_COUNT, KINDS, Kind};
use crate::tallies::Tally;
use crate::weights::Weights;

/// Once this many edges of a kind were made, further ones no longer lower its chance.
const MANY: u32 = 256;

/// The chance of a kind, by its weight, the number of its edges that were made, and the number that
/// can be made now. Source: profile.
fn chance(weight: u8, made: u32, ready: u32) -> u16
    ensures { result ≡ chance weight made ready }
{
    if ready == 0 {
        0
    } else if made < MANY {
        u16::from(weight) * (1 + 256 / (1 + made as u16))
    } else {
        u16::from(weight)
    }
}

/// The place of a number `x` among chances. The chances are subtracted from `x` one after another;
/// the place is that of the first chance that is above what is left, or their number if none is.
fn falls_at(chances: &[u16], x: u32) -> usize
    ensures { result ≡ falls_at chances.now x }
{
    let mut left = x;
    for (place, chance) in chances.iter().enumerate() {
        let chance = u32::from(*chance);
        if left < chance {
            return place;
        }
        left -= chance;
    }
    chances.len()
}

/// The kind at a place; none after the last.
fn kind_in(kinds: &[Kind], place: usize) -> Option<Kind>
    ensures { result ≡ slice_get kinds.now place }
{
    kinds.get(place).copied()
}

/// A chance for each kind, in their order.
#[derive(Clone, Copy)]
pub(crate) struct Chances {
    pub(crate) by_kind: [u16; KIND_COUNT],
}

impl Chances {
    /// The chances by the kinds' weights, and by how many edges of each kind were made and can be
    /// made now.
    pub(crate) fn new(weights: &Weights, made: &Tally, ready: &Tally) -> Chances
        ensures long { length result.by_kind ≡ 28 }
        ensures each { (n : ℕ) → n < 28 → slice_index result.by_kind n
            ≡ chance (slice_index weights.now.by_kind n) (slice_index made.now.counts n)
            (slice_index ready.now.counts n) }
    {
        let mut by_kind = [0; KIND_COUNT];
        for place in 0..KIND_COUNT {
            let weight = weights.by_kind[place];
            by_kind[place] = chance(weight, made.counts[place], ready.counts[place]);
        }
        Chances { by_kind }
    }

    /// The sum of the chances.
    pub(crate) fn sum(&self) -> u32
        ensures { result ≡ sum self.now.by_kind }
    {
        let mut sum = 0;
        for chance in &self.by_kind {
            sum += u32::from(*chance);
        }
        sum
    }

    /// The kind on which `x` falls; none if `x` is not below the sum of the chances.
    pub(crate) fn kind_at(&self, x: u32) -> Option<Kind>
        ensures { result ≡ slice_get kinds (falls_at self.now.by_kind x) }
    {
        kind_in(&KINDS, falls_at(&self.by_kind, x))
    }
}
