//! How the grants and BBSY* stand, and sets of that.
ghost use Rattle.std.specs.Prelude.{◌≡◌, ◌==◌, ◌&&◌, ◌||◌, ◌<◌, ℕ, false, true, if◌then◌else◌, Some};
ghost use Rattle.vme_bus.specs.Sets.{has};
ghost use Rattle.vme_standings.specs.declared.phases.GrantPhase.{GrantPhase as PhaseValue};
ghost use Rattle.vme_standings.specs.declared.phases.GrantPhase.TheVariants.{Held};
ghost use Rattle.vme_standings.specs.Phases.{ChangesExpired, ChangesGranting, ChangesHeld, ChangesIdle, HasExactly, expired_row, granting_row, has_phase, held_row, is_held, is_held_by, is_idle_at, is_in_table, level_of};

use vme_bus::SlotSet;

/// How the grants and BBSY* stand. A segment of a chain is named by the slot of the board that
/// drives it; 0 names the controller's. Source: docs/SAFETY.md.
#[derive(Clone, Copy, PartialEq, Eq, Debug)]
pub enum GrantPhase {
    /// No grant is low, and nobody holds the bus. The level last granted, 0 to 3, is this one.
    Idle { level: u8 },
    /// Nobody holds the bus. The segments of this level's chain up to the last one are low.
    Granting { level: u8, last: u8 },
    /// The board of this slot holds the bus. The segments of its chain from the first one up to its
    /// own input are low; there are none if the first one is its own output.
    Held { board: u8, first: u8 },
    /// The second version alone: nobody took the grant of this level. The segments of its chain
    /// from the first one on are low.
    Expired { level: u8, first: u8 },
}

/// The set with the slot if it is to be in it.
pub(crate) fn with_if(slots: SlotSet, slot: u8, is_in: bool) -> SlotSet
    requires { slot < 32 }
    ensures { (s : ℕ) → has result s
        ≡ (if s == slot then (has slots s || is_in) else has slots s) }
{
    if is_in { slots.with(slot) } else { slots }
}

/// The row if it is to be there, or else an empty one.
pub(crate) fn row_if(is_there: bool, row: SlotSet) -> SlotSet
    ensures { (t : ℕ) → has result t ≡ (is_there && has row t) }
{
    if is_there { row } else { SlotSet::NONE }
}

/// A set of such phases, a bit for each.
#[derive(Clone, Copy, PartialEq, Eq)]
pub struct GrantPhases {
    /// By the level last granted.
    idle: [bool; 4],
    /// By the level, the last low segments.
    granting: [SlotSet; 4],
    /// By the slot of the holder, the first low segments.
    held: [SlotSet; 22],
    /// By the level, the first low segments.
    expired: [SlotSet; 4],
}

impl GrantPhases {
    /// The set without a phase.
    pub fn none() -> GrantPhases
        ensures { HasExactly result (λ q. false) }
    {
        GrantPhases {
            idle: [false; 4],
            granting: [SlotSet::NONE; 4],
            held: [SlotSet::NONE; 22],
            expired: [SlotSet::NONE; 4],
        }
    }

    /// The set of all phases for which it has a place.
    pub(crate) fn all() -> GrantPhases
        ensures { HasExactly result is_in_table }
    {
        GrantPhases {
            idle: [true; 4],
            granting: [SlotSet::SLOTS; 4],
            held: [SlotSet::SLOTS; 22],
            expired: [SlotSet::SLOTS; 4],
        }
    }

    /// Whether the bus may be idle with this level last granted. It is false for any level above 3.
    pub fn is_idle_at(&self, level: u8) -> bool
        ensures { result ≡ is_idle_at self.now level }
    {
        self.idle.get(usize::from(level)).copied().unwrap_or(false)
    }

    /// The last low segments of the grants of a level that are under way. There are none for any
    /// level above 3.
    pub(crate) fn granting_row(&self, level: u8) -> SlotSet
        ensures { result ≡ granting_row self.now level }
    {
        self.granting
            .get(usize::from(level))
            .copied()
            .unwrap_or(SlotSet::NONE)
    }

    /// The first low segments while the board of a slot holds the bus. There are none for any slot
    /// above 21.
    pub(crate) fn held_row(&self, board: u8) -> SlotSet
        ensures { result ≡ held_row self.now board }
    {
        self.held
            .get(usize::from(board))
            .copied()
            .unwrap_or(SlotSet::NONE)
    }

    /// The first low segments of the grants of a level that nobody took. There are none for any
    /// level above 3.
    pub(crate) fn expired_row(&self, level: u8) -> SlotSet
        ensures { result ≡ expired_row self.now level }
    {
        self.expired
            .get(usize::from(level))
            .copied()
            .unwrap_or(SlotSet::NONE)
    }

    /// Whether the phase is in the set.
    pub fn has(&self, phase: GrantPhase) -> bool
        ensures { result ≡ has_phase self.now phase }
    {
        match phase {
            GrantPhase::Idle { level } => self.is_idle_at(level),
            GrantPhase::Granting { level, last } => self.granting_row(level).has(last),
            GrantPhase::Held { board, first } => self.held_row(board).has(first),
            GrantPhase::Expired { level, first } => self.expired_row(level).has(first),
        }
    }

    /// Takes the idle phase of a level in, or out.
    pub(crate) fn set_idle(&mut self, level: u8, may_be: bool)
        requires { level < 4 }
        ensures { ChangesIdle level may_be self.old self.new }
    {
        self.idle[usize::from(level)] = may_be;
    }

    /// Puts other last low segments in the place of those of a level.
    pub(crate) fn set_granting_row(&mut self, level: u8, lasts: SlotSet)
        requires { level < 4 }
        ensures { ChangesGranting level lasts self.old self.new }
    {
        self.granting[usize::from(level)] = lasts;
    }

    /// Puts other first low segments in the place of those of a holder.
    pub(crate) fn set_held_row(&mut self, board: u8, firsts: SlotSet)
        requires { board < 22 }
        ensures { ChangesHeld board firsts self.old self.new }
    {
        self.held[usize::from(board)] = firsts;
    }

    /// Puts other first low segments in the place of those of a grant that nobody took.
    pub(crate) fn set_expired_row(&mut self, level: u8, firsts: SlotSet)
        requires { level < 4 }
        ensures { ChangesExpired level firsts self.old self.new }
    {
        self.expired[usize::from(level)] = firsts;
    }

    /// The boards that hold the bus in some phase of the set.
    pub fn holders(&self) -> SlotSet
        ensures some { (b : ℕ) → has result b ≡ true
            → (b < 22) × ((first : ℕ) × (has_phase self.now (Held b first) ≡ true)) }
        ensures all { (b first : ℕ) → b < 22 → has_phase self.now (Held b first) ≡ true
            → has result b ≡ true }
    {
        let mut holders = SlotSet::NONE;
        for board in 0..22_u8 {
            holders = with_if(holders, board, self.held_row(board).is_some());
        }
        holders
    }

    /// The phases in which one of these boards holds the bus.
    pub fn held_by(&self, boards: SlotSet) -> GrantPhases
        ensures { HasExactly result (λ q. is_held_by (has boards) q && has_phase self.now q) }
    {
        let mut kept = GrantPhases::none();
        for board in 0..22_u8 {
            kept.set_held_row(board, row_if(boards.has(board), self.held_row(board)));
        }
        kept
    }

    /// Whether the set has a phase in which nobody holds the bus.
    pub fn has_free(&self) -> bool
        ensures some { result ≡ true → (q : PhaseValue) × (has_phase self.now q ≡ true)
            × (is_held q ≡ false) }
        ensures all { (q : PhaseValue) → is_in_table q ≡ true → has_phase self.now q ≡ true
            → is_held q ≡ false → result ≡ true }
    {
        for level in 0..4_u8 {
            if self.has_free_at(level) {
                return true;
            }
        }
        false
    }

    /// Whether the set has a phase of this level in which nobody holds the bus.
    fn has_free_at(&self, level: u8) -> bool
        ensures some { result ≡ true → (q : PhaseValue) × (has_phase self.now q ≡ true)
            × (is_held q ≡ false) }
        ensures all { (q : PhaseValue) → level_of q ≡ Some level → has_phase self.now q ≡ true
            → result ≡ true }
    {
        if self.is_idle_at(level) {
            return true;
        }
        let lasts = self.granting_row(level);
        let is_granting = lasts.is_some();
        if is_granting {
            return true;
        }
        let firsts = self.expired_row(level);
        let is_expired = firsts.is_some();
        is_expired
    }
}
