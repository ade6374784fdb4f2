//! What is asked of sets of slots.
ghost use Rattle.std.specs.Prelude.{◌≡◌, ◌≢◌, ◌&&◌, ◌<◌, ◌≤◌, ℕ, not, true, false};
ghost use Rattle.vme_bus.specs.Sets.{has};
ghost use Rattle.vme_standings.specs.Slots.{EachSlot, HasOther};

use vme_bus::SlotSet;

/// How many slots a set is looked at for: those that a backplane can have, and 0.
pub(crate) const SLOTS: u8 = 22;

/// The slots of a backplane that both hold.
pub(crate) fn both(a: SlotSet, b: SlotSet) -> SlotSet
    ensures within { (s : ℕ) → s < 22 → has result s ≡ (has a s && has b s) }
    ensures beyond { (s : ℕ) → 22 ≤ s → has result s ≡ false }
{
    let mut slots = SlotSet::NONE;
    for slot in 0..SLOTS {
        if a.has(slot) && b.has(slot) {
            slots = slots.with(slot);
        }
    }
    slots
}

/// The slots of a backplane that the first holds and the second does not.
pub(crate) fn except(a: SlotSet, b: SlotSet) -> SlotSet
    ensures within { (s : ℕ) → s < 22 → has result s ≡ (has a s && not (has b s)) }
    ensures beyond { (s : ℕ) → 22 ≤ s → has result s ≡ false }
{
    let mut slots = SlotSet::NONE;
    for slot in 0..SLOTS {
        if a.has(slot) && !b.has(slot) {
            slots = slots.with(slot);
        }
    }
    slots
}

/// All the slots that it holds, if it holds several; none otherwise.
pub(crate) fn several(slots: SlotSet) -> SlotSet
    ensures held { (s : ℕ) → has result s ≡ true → has slots s ≡ true }
    ensures other { EachSlot (λ s. has result s ≡ true → HasOther slots s) }
    ensures several { EachSlot (λ s. has slots s ≡ true → HasOther slots s
        → has result s ≡ true) }
{
    match slots.next_after(0) {
        Some(first) => match slots.next_after(first) {
            Some(_) => slots,
            None => SlotSet::NONE,
        },
        None => SlotSet::NONE,
    }
}
