//! Sets of slots.
ghost use Rattle.std.specs.Prelude.{◌≡◌, ◌≢◌, ◌&&◌, ◌||◌, ◌^◌, ◌<◌, ℕ, not, false, true, if◌then◌else◌, nat_lt, MatchOption};

/// A set of slots, a bit for each.
#[repr(C)]
#[derive(Clone, Copy, PartialEq, Eq)]
pub struct SlotSet {
    bits: u32,
}

impl SlotSet {
    ghost use Rattle.vme_bus.specs.Sets.{has, HoldsNoneAbove, IsNextAbove};

    /// The set that holds no slot.
    pub const NONE: SlotSet = SlotSet { bits: 0 };

    /// The set of all slots that a backplane can have, and of 0.
    pub const SLOTS: SlotSet = SlotSet { bits: 0x3f_ffff };

    /// Whether it holds the slot; it holds none beyond 31.
    #[inline(always)]
    #[tactic(auto, using(crate::proofs::Masks::tested, crate::proofs::Masks::beyond))]
    pub fn has(self, slot: u8) -> bool
        ensures { result ≡ has self slot }
    {
        slot < 32 && self.bits & (1 << slot) != 0
    }

    /// With the slot, if it was not in it; and else without it.
    #[inline(always)]
    #[tactic(auto, using(crate::proofs::Masks::turned_same, crate::proofs::Masks::turned_other))]
    pub(crate) fn turned(self, slot: u8) -> SlotSet
        requires { slot < 32 }
        ensures same { has result slot ≡ not (has self slot) }
        ensures others { (s : ℕ) → s ≢ slot → has result s ≡ has self s }
    {
        SlotSet {
            bits: self.bits ^ (1 << slot),
        }
    }

    /// With the slot.
    #[inline(always)]
    #[tactic(auto, using(crate::proofs::Masks::with_same, crate::proofs::Masks::with_other))]
    pub fn with(self, slot: u8) -> SlotSet
        requires { slot < 32 }
        ensures same { has result slot ≡ true }
        ensures others { (s : ℕ) → s ≢ slot → has result s ≡ has self s }
    {
        SlotSet {
            bits: self.bits | (1 << slot),
        }
    }

    /// Without the slot.
    #[inline(always)]
    #[tactic(auto, using(crate::proofs::Masks::without_same, crate::proofs::Masks::without_other))]
    pub(crate) fn without(self, slot: u8) -> SlotSet
        requires { slot < 32 }
        ensures same { has result slot ≡ false }
        ensures others { (s : ℕ) → s ≢ slot → has result s ≡ has self s }
    {
        SlotSet {
            bits: self.bits & !(1 << slot),
        }
    }

    /// Of the slots that it holds, those that a backplane can have.
    #[inline(always)]
    #[tactic(auto, using(crate::proofs::Outputs::slots_are))]
    pub(crate) fn of_slots(self) -> SlotSet
        ensures { (s : ℕ) → has result s ≡ (has self s && nat_lt s 22) }
    {
        self.and(SlotSet::SLOTS)
    }

    /// The slots that both hold.
    #[inline(always)]
    #[tactic(auto, using(crate::proofs::Masks::and_bits))]
    pub fn and(self, other: SlotSet) -> SlotSet
        ensures { (s : ℕ) → has result s ≡ (has self s && has other s) }
    {
        SlotSet {
            bits: self.bits & other.bits,
        }
    }

    /// The slots that one of them holds.
    #[inline(always)]
    #[tactic(auto, using(crate::proofs::Masks::or_bits))]
    pub fn or(self, other: SlotSet) -> SlotSet
        ensures { (s : ℕ) → has result s ≡ (has self s || has other s) }
    {
        SlotSet {
            bits: self.bits | other.bits,
        }
    }

    /// The slots that it holds and the other does not.
    #[inline(always)]
    #[tactic(auto, using(crate::proofs::Masks::except_bits))]
    pub fn except(self, other: SlotSet) -> SlotSet
        ensures { (s : ℕ) → has result s ≡ (has self s && not (has other s)) }
    {
        SlotSet {
            bits: self.bits & !other.bits,
        }
    }

    /// The slots that just one of them holds.
    #[inline(always)]
    #[tactic(auto, using(crate::proofs::Masks::xor_bits))]
    pub(crate) fn xor(self, other: SlotSet) -> SlotSet
        ensures { (s : ℕ) → has result s
            ≡ (if has other s then not (has self s) else has self s) }
    {
        SlotSet {
            bits: self.bits ^ other.bits,
        }
    }

    /// The least slot above that one that it holds, if it holds any.
    #[inline(always)]
    pub fn next_after(self, slot: u8) -> Option<u8>
        requires { slot < 32 }
        ensures { MatchOption result (HoldsNoneAbove self slot) (IsNextAbove self slot) }
    {
        let above = self.bits & (!1 << slot);
        if above == 0 {
            None
        } else {
            Some(above.trailing_zeros() as u8)
        }
    }

    /// Whether it holds a slot.
    #[inline(always)]
    #[tactic(auto, using(crate::proofs::Masks::lowest, crate::proofs::Masks::some_bit))]
    pub fn is_some(self) -> bool
        ensures some { result ≡ true → (s : ℕ) × (has self s ≡ true) }
        ensures none { (s : ℕ) → has self s ≡ true → result ≡ true }
    {
        self.bits != 0
    }
}
