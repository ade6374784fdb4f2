//! What is known of a bus of which one of two is known.
ghost use Rattle.std.specs.Prelude.{◌≡◌, ◌||◌};
ghost use Rattle.vme_standings.specs.Phases.{HasFree, has_phase};
ghost use Rattle.vme_standings.specs.Unions.{Unites, UnitesPhases};

use crate::phases::GrantPhases;
use crate::standings::Standings;

/// Whether one of them is so.
fn either(a: bool, b: bool) -> bool
    ensures { result ≡ (a || b) }
{
    a || b
}

impl GrantPhases {
    /// The phases that are in one of the two sets.
    pub(crate) fn union(&self, other: &GrantPhases) -> GrantPhases
        ensures { UnitesPhases self.now other.now result }
    {
        let mut union = self.free_union(other);
        for board in 0..22_u8 {
            let firsts = self.held_row(board).or(other.held_row(board));
            union.set_held_row(board, firsts);
        }
        union
    }

    /// Of these the phases in which nobody holds the bus.
    fn free_union(&self, other: &GrantPhases) -> GrantPhases
        ensures { HasFree result (λ q. has_phase self.now q || has_phase other.now q) }
    {
        let mut union = GrantPhases::none();
        for level in 0..4_u8 {
            let is_idle = either(self.is_idle_at(level), other.is_idle_at(level));
            let lasts = self.granting_row(level).or(other.granting_row(level));
            let firsts = self.expired_row(level).or(other.expired_row(level));
            union.set_level(level, is_idle, lasts, firsts);
        }
        union
    }
}

impl Standings {
    /// What is known of a bus of which one of the two is known. The probes saw the same of both.
    pub fn union(&self, other: &Standings) -> Standings
        ensures { Unites self.now other.now result }
    {
        Standings {
            phases: self.phases.union(&other.phases),
            addressers: self.addressers.or(other.addressers),
            answerers: self.answerers.or(other.answerers),
            fronts: self.fronts.union(&other.fronts),
            requests: self.requests.union(&other.requests),
            ..*self
        }
    }
}
