//! The weights that a seed gives the kinds.
ghost use Rattle.std.specs.Prelude.{◌≡◌, ◌^◌, slice_index};
ghost use Rattle.vme_seeds.specs.declared.kinds.Kind.{Kind as KindOf};
ghost use Rattle.vme_seeds.specs.Kinds.{number};
ghost use Rattle.vme_seeds.specs.Numbers.{after_words, scaled as scaled_by};
ghost use Rattle.vme_seeds.specs.Choices.{weight};

use crate::kinds::KIND_COUNT;
use crate::numbers::scaled;
use rand_core::utils::NextWord;
use rand_pcg::Pcg32;

/// A weight for each kind: 1, 4, 16 or 64. Source: profile.
#[repr(C)]
#[derive(Clone, Copy)]
pub(crate) struct Weights {
    pub(crate) by_kind: [u8; KIND_COUNT],
}

/// The weight that a word gives: 1, 4, 16 or 64.
fn weight(word: u32) -> u8
    ensures { result ≡ 4 ^ scaled_by word 4 }
{
    match scaled(word, 4) {
        0 => 1,
        1 => 4,
        2 => 16,
        _ => 64,
    }
}

impl Weights {
    /// Draws a weight for each kind, in the order of the kinds.
    pub(crate) fn draw(numbers: &mut Pcg32) -> Weights
        ensures weights { (k : KindOf) → slice_index result.by_kind (number k)
            ≡ weight numbers.old k }
        ensures numbers { numbers.new ≡ after_words 28 numbers.old }
    {
        let mut by_kind = [0; KIND_COUNT];
        for place in 0..KIND_COUNT {
            by_kind[place] = weight(numbers.next_word());
        }
        Weights { by_kind }
    }
}
