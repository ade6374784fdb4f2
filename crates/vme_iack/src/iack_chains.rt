//! The interrupt acknowledge daisy chain, IACKIN*/IACKOUT*.
ghost use Rattle.std.specs.Prelude.{◌≡◌, Some, true, false, set, take};
ghost use Rattle.std.specs.List.{slice_get};
ghost use Rattle.vme_chain.specs.Segments.{all_high, output_number, input, low_count, is_clear, is_past_end};

use std::marker::Model;
use vme_chain::Chain;

/// The acknowledge chain, as its segments: segment 0 is the controller's `iack`, and segment k the
/// `iackout` of the k-th board that has an interrupter. Source: Std 1014, chapter 4.
#[derive(Drop)]
pub struct IackChain {
    chain: Chain,
}

impl Model for IackChain {
    ghost use Rattle.vme_chain.specs.Segments.{Segments};

    ghost Value = { Segments };

    ghost view = { λ c. c.chain };

    ghost inverse = { λ c. record { chain = c } };
}

impl IackChain {
    /// An acknowledge chain that these slots work, in ascending order, and that is high everywhere.
    /// A backplane has at most 21 boards: only the first 21 of a longer list count.
    pub fn new(active: &[u8]) -> IackChain
        ensures { result ≡ all_high (take 21 active.now) }
    {
        IackChain {
            chain: Chain::new(active),
        }
    }

    /// Segment k falls: 0 is the controller's, and k that of the k-th active slot. The segment has
    /// to exist and to be high.
    pub fn fall(&mut self, k: u8)
        requires high { slice_get self.old.low k ≡ Some false }
        ensures { self.new ≡ record self.old { low = set self.old.low k true } }
    {
        self.chain.fall(k);
    }

    /// Segment k rises: 0 is the controller's, and k that of the k-th active slot. The segment has
    /// to exist and to be low.
    pub fn rise(&mut self, k: u8)
        requires low { slice_get self.old.low k ≡ Some true }
        ensures { self.new ≡ record self.old { low = set self.old.low k false } }
    {
        self.chain.rise(k);
    }

    /// The number of the segment that an active slot drives: 1 for the first active slot.
    pub fn output_of(&self, slot: u8) -> u8
        ensures { result ≡ output_number self.now.active slot }
    {
        self.chain.output_of(slot)
    }

    /// Whether a slot's IACKIN* is low: the segment of the greatest active slot below it, or the
    /// controller's if there is none. Source: Std 1014, chapter 4.
    #[inline(always)]
    pub fn is_in_low(&self, slot: u8) -> bool
        ensures { result ≡ input self.now slot }
    {
        self.chain.is_in_low(slot)
    }

    /// How many segments are low, 0 to 22.
    pub fn low_count(&self) -> usize
        ensures { result ≡ low_count self.now }
    {
        self.chain.low_count()
    }

    /// Whether every segment is high: the chain has settled, and AS* may fall (S1). Source:
    /// profile.
    pub fn is_clear(&self) -> bool
        ensures { result ≡ is_clear self.now }
    {
        self.chain.is_clear()
    }

    /// Whether the last segment is low: every board passed the acknowledge on, and BERR* may fall
    /// (S2). Source: profile.
    pub fn is_past_end(&self) -> bool
        ensures { result ≡ is_past_end self.now }
    {
        self.chain.is_past_end()
    }
}
