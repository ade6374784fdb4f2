//! Laws: a set of phases holds no more than it has bits for.
ghost use Rattle.std.specs.Prelude.{◌≡◌, ◌<◌, ℕ, true};
ghost use Rattle.vme_bus.specs.Sets.{has};
ghost use Rattle.vme_standings.specs.declared.phases.GrantPhase.TheVariants.{Expired, Granting, Held};
ghost use Rattle.vme_standings.specs.Phases.{HoldsBits, has_bit, has_phase};

use crate::phases::GrantPhases;
use vme_bus::SlotSet;

/// A law: a set of slots holds none beyond its bits.
fn row_holds_bits(row: SlotSet)
    ensures { (t : ℕ) → has row t ≡ true → t < 32 }
{}

impl GrantPhases {
    /// A law: the set holds no phase beyond its bits.
    pub fn holds_bits(&self)
        ensures { HoldsBits self.now }
    {
        self.grants_hold_bits();
        self.holders_hold_bits();
        self.expired_hold_bits();
    }

    /// A law: the same of the grants that are under way.
    fn grants_hold_bits(&self)
        ensures { (c last : ℕ) → has_phase self.now (Granting c last) ≡ true
            → has_bit (Granting c last) ≡ true }
    {
        for level in 0..4_u8 {
            row_holds_bits(self.granting_row(level));
        }
    }

    /// A law: the same of the holders.
    fn holders_hold_bits(&self)
        ensures { (b first : ℕ) → has_phase self.now (Held b first) ≡ true
            → has_bit (Held b first) ≡ true }
    {
        for board in 0..22_u8 {
            row_holds_bits(self.held_row(board));
        }
    }

    /// A law: the same of the grants that nobody took.
    fn expired_hold_bits(&self)
        ensures { (c first : ℕ) → has_phase self.now (Expired c first) ≡ true
            → has_bit (Expired c first) ≡ true }
    {
        for level in 0..4_u8 {
            row_holds_bits(self.expired_row(level));
        }
    }
}
