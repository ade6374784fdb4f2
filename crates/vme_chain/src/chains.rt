//! The segments of one chain.
ghost use Rattle.std.specs.Prelude.{◌≡◌, ◌<◌, ◌≤◌, ◌+◌, ℕ, Some, true, false, get_or, length, set, take};
ghost use Rattle.std.specs.List.{count_by, slice_get};
ghost use Rattle.vme_chain.specs.Segments.{all_high, output_number, input_number, input, low_count, is_clear, is_past_end};

use std::marker::Model;

/// The most boards that a backplane has. Source: Std 1014, chapter 7 (21 slots).
const MOST: usize = 21;

/// A daisy chain, as its segments: segment 0 is what the controller drives at its head, and segment
/// k, at most 21, is what the k-th of the slots that work it drives. Source: Std 1014, chapters 3
/// and 4.
#[derive(Drop)]
pub struct Chain {
    slots: [u8; 21],
    length: u8,
    segments: [bool; 22],
    lows: u8,
    // for each slot, the number of the segment that it reads
    inputs: [u8; 22],
}

impl Model for Chain {
    ghost use Rattle.std.specs.Prelude.{◌≡◌, ◌≤◌, ◌<◌, ◌+◌, ℕ, take, get_or};
    ghost use Rattle.std.specs.List.{count_by};
    ghost use Rattle.vme_chain.specs.Segments.{Segments, input_number};

    ghost Value = { Segments };

    ghost view = { λ c. record {
      active = take c.length c.slots;
      low = take (c.length + 1) c.segments;
    } };

    ghost invariant = { λ c. (c.length ≤ 21)
        × (c.lows ≡ count_by (λ is_low. is_low) (take (c.length + 1) c.segments))
        × ((s : ℕ) → s < 22 → get_or c.inputs s 0 ≡ input_number (take c.length c.slots) s) };
}

/// The number of the segment that a slot reads.
fn input_number(active: &[u8], slot: u16) -> usize
    ensures { result ≡ input_number active.now slot }
{
    active
        .iter()
        .filter(|other| u16::from(**other) < slot)
        .count()
}

/// The number of the segment that each slot reads.
fn input_numbers(active: &[u8]) -> [u8; 22]
    requires { length active.now ≤ 21 }
    ensures { (s : ℕ) → s < 22 → get_or result s 0 ≡ input_number active.now s }
{
    let mut numbers = [0; 22];
    for slot in 0..22u16 {
        numbers[usize::from(slot)] = input_number(active, slot) as u8;
    }
    numbers
}

/// These slots, and zeros after them.
fn padded(active: &[u8]) -> [u8; 21]
    requires { length active.now ≤ 21 }
    ensures { take (length active.now) result ≡ active.now }
{
    let mut slots = [0; 21];
    for (at, slot) in active.iter().enumerate() {
        slots[at] = *slot;
    }
    slots
}

impl Chain {
    /// A chain that these slots work, in ascending order, and that is high everywhere. A backplane
    /// has at most 21 boards: only the first 21 of a longer list count.
    pub fn new(active: &[u8]) -> Chain
        ensures { result ≡ all_high (take 21 active.now) }
    {
        let active = &active[..active.len().min(MOST)];
        Chain {
            slots: padded(active),
            length: active.len() as u8,
            segments: [false; 22],
            lows: 0,
            inputs: input_numbers(active),
        }
    }

    /// Segment k falls: 0 is the controller's, and k that of the k-th active slot. The segment has
    /// to exist and to be high.
    #[tactic(auto, using(crate::proofs::Counts::one_more, crate::proofs::Counts::within, crate::proofs::Counts::moved))]
    pub fn fall(&mut self, k: u8)
        requires high { slice_get self.old.low k ≡ Some false }
        ensures { self.new ≡ record self.old { low = set self.old.low k true } }
    {
        self.segments[usize::from(k)] = true;
        self.lows += 1;
    }

    /// Segment k rises: 0 is the controller's, and k that of the k-th active slot. The segment has
    /// to exist and to be low.
    #[tactic(auto, using(crate::proofs::Counts::one_less, crate::proofs::Counts::within, crate::proofs::Counts::moved))]
    pub fn rise(&mut self, k: u8)
        requires low { slice_get self.old.low k ≡ Some true }
        ensures { self.new ≡ record self.old { low = set self.old.low k false } }
    {
        self.segments[usize::from(k)] = false;
        self.lows -= 1;
    }

    /// The number of the segment that an active slot drives: 1 for the first active slot.
    pub fn output_of(&self, slot: u8) -> u8
        ensures { result ≡ output_number self.now.active slot }
    {
        self.input_of(u16::from(slot) + 1)
    }

    /// The slots that work the chain.
    fn slots(&self) -> &[u8]
        ensures { result.now ≡ self.now.active }
    {
        &self.slots[..usize::from(self.length)]
    }

    /// The number of the segment that a slot reads.
    fn input_of(&self, slot: u16) -> u8
        ensures { result ≡ input_number self.now.active slot }
    {
        match self.inputs.get(usize::from(slot)) {
            Some(number) => *number,
            None => input_number(self.slots(), slot) as u8,
        }
    }

    /// Whether segment k is low.
    fn is_segment_low(&self, k: u8) -> bool
        requires { k ≤ length self.now.active }
        ensures { result ≡ get_or self.now.low k false }
    {
        self.segments[usize::from(k)]
    }

    /// Whether a slot's input is low: the segment of the greatest active slot below it, or the
    /// controller's if there is none. Source: Std 1014, chapters 3 and 4.
    #[tactic(auto, using(crate::proofs::Counts::at_most))]
    #[inline(always)]
    pub fn is_in_low(&self, slot: u8) -> bool
        ensures { result ≡ input self.now slot }
    {
        self.is_segment_low(self.input_of(u16::from(slot)))
    }

    /// How many segments are low, 0 to 22.
    pub fn low_count(&self) -> usize
        ensures { result ≡ low_count self.now }
    {
        usize::from(self.lows)
    }

    /// Whether every segment is high. S1 asks for it of the acknowledge chain.
    #[tactic(auto, using(crate::proofs::Counts::none_low))]
    pub fn is_clear(&self) -> bool
        ensures { result ≡ is_clear self.now }
    {
        self.lows == 0
    }

    /// Whether the last segment is low: every board that works the chain has passed it on. S2 and
    /// S3 ask for it.
    pub fn is_past_end(&self) -> bool
        ensures { result ≡ is_past_end self.now }
    {
        self.is_segment_low(self.length)
    }
}
