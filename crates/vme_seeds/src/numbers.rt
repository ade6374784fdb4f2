//! Numbers drawn below a bound.
ghost use Rattle.std.specs.Prelude.{◌≡◌, ◌<◌};
ghost use Rattle.vme_seeds.specs.Numbers.{scaled};

/// The number below a bound on which a word falls: the bound times the word's share of 2^32,
/// rounded down.
pub(crate) fn scaled(word: u32, bound: u32) -> u32
    ensures number { result ≡ scaled word bound }
    ensures below { 0 < bound → result < bound }
{
    ((u64::from(word) * u64::from(bound)) >> 32) as u32
}
