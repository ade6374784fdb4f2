//! Who may have made each change on a way to all changes of a set.
ghost use Rattle.std.specs.Prelude.{◌≡◌, ◌≢◌, ◌||◌, ◌<◌, ◌≤◌, ℕ, IsTrue, length};
ghost use Rattle.vme_samples.specs.declared.places.Places.{Places as Set};
ghost use Rattle.vme_samples.specs.Makers.{AreNoted, UnitesDrivers, by_at};
ghost use Rattle.vme_samples.specs.Samples.{are_changes};
ghost use Rattle.vme_samples.specs.Ways.{AreMakers, MakeNext, is_reaching, nobody, reaching_at};

use crate::places::Places;
use crate::samples::{MOST, SeenChange, comes_next};
use crate::ways::Ways;
use vme_bus::SlotSet;
use vme_slots::Plan;
use vme_standings::{Drivers, Probed};

/// Nobody.
const NOBODY: Drivers = Drivers {
    controller: false,
    boards: SlotSet::NONE,
};

/// Those who are one of the two.
fn either(a: Drivers, b: Drivers) -> Drivers
    ensures { UnitesDrivers a b result }
{
    Drivers {
        controller: a.controller || b.controller,
        boards: a.boards.or(b.boards),
    }
}

/// Whether one of the two is so.
fn is_either(a: bool, b: bool) -> bool
    ensures { result ≡ (a || b) }
{
    a || b
}

/// Who may have made each change of a sample, by its place.
#[derive(Clone, Copy)]
pub struct Makers {
    by: [Drivers; MOST],
}

impl Makers {
    /// Nobody made any.
    fn none() -> Makers
        ensures { (i : ℕ) → i < 12 → by_at result i ≡ nobody }
    {
        Makers { by: [NOBODY; MOST] }
    }

    /// Who may have made the change at a place.
    pub fn of(&self, place: usize) -> Drivers
        requires { place < 12 }
        ensures { result ≡ by_at self.now place }
    {
        self.by[place]
    }

    /// Takes some more in for the change at a place.
    fn note(&mut self, place: usize, drivers: Drivers)
        requires { place < 12 }
        ensures here { UnitesDrivers (by_at self.old place) drivers (by_at self.new place) }
        ensures others { (i : ℕ) → i ≢ place → by_at self.new i ≡ by_at self.old i }
    {
        self.by[place] = either(self.by[place], drivers);
    }
}

impl Ways {
    /// Whether all of the goal is reached from a set, as far as that was found out.
    fn is_reaching(&self, goal: Places, places: Places) -> bool
        ensures { result ≡ is_reaching self.now.reaching.items goal places }
    {
        places.number() <= goal.number()
            && self.reaching.get(places.number()).copied().unwrap_or(false)
    }

    /// Who may make the change at a place next behind a set, if all of the goal is reached then.
    fn makers_next(
        &self,
        plan: &Plan,
        probed: &Probed,
        sample: &[SeenChange],
        goal: Places,
        places: Places,
        place: usize,
    ) -> Drivers
        requires few { length sample.now ≤ 12 }
        requires changes { IsTrue (are_changes sample.now) }
        requires near { place < length sample.now }
        requires small { places.bits < 4096 }
        ensures { MakeNext plan.now probed.now sample.now self.now.known.items goal
            self.now.reaching.items places place result }
    {
        if !comes_next(sample, places, place) || !self.is_reaching(goal, places.with(place)) {
            return NOBODY;
        }
        match self.hidden_behind(places) {
            None => NOBODY,
            Some(hidden) => hidden.drivers(plan, probed, &sample[place].change),
        }
    }

    /// Takes in who may make each change next behind a set, if all of the goal is reached then. The
    /// result is whether it is reached by some change.
    fn note_next(
        &self,
        plan: &Plan,
        probed: &Probed,
        sample: &[SeenChange],
        goal: Places,
        places: Places,
        makers: &mut Makers,
    ) -> bool
        requires few { length sample.now ≤ 12 }
        requires changes { IsTrue (are_changes sample.now) }
        requires small { places.bits < 4096 }
        ensures { AreNoted plan.now probed.now sample.now self.now.known.items goal
            self.now.reaching.items places (length sample.now) makers.old makers.new result }
    {
        let mut is_some = false;
        for place in 0..sample.len() {
            let drivers = self.makers_next(plan, probed, sample, goal, places, place);
            makers.note(place, drivers);
            let is_nobody = drivers.is_nobody();
            is_some = is_either(is_some, !is_nobody);
        }
        is_some
    }

    /// Keeps whether all of the goal is reached from a set.
    fn set_reaching(&mut self, places: Places, is_reaching: bool)
        requires { places.bits < 4096 }
        ensures known { self.new.known ≡ self.old.known }
        ensures here { reaching_at self.new.reaching.items places ≡ is_reaching }
        ensures others { (other : Set) → other.bits ≢ places.bits
            → reaching_at self.new.reaching.items other
            ≡ reaching_at self.old.reaching.items other }
    {
        self.reaching[places.number()] = is_reaching;
    }

    /// Who may have made each change of a sample on the ways from none of its changes to all of a
    /// set.
    pub fn makers(
        &mut self,
        plan: &Plan,
        probed: &Probed,
        sample: &[SeenChange],
        goal: Places,
    ) -> Makers
        requires few { length sample.now ≤ 12 }
        requires changes { IsTrue (are_changes sample.now) }
        requires small { goal.bits < 4096 }
        ensures known { self.new.known ≡ self.old.known }
        ensures makers { AreMakers plan.now probed.now sample.now self.old.known.items goal
            (by_at result) }
    {
        let mut makers = Makers::none();
        for back in 0..goal.number() + 1 {
            let places = Places::numbered(goal.number() - back);
            let is_some = self.note_next(plan, probed, sample, goal, places, &mut makers);
            let is_reaching = is_either(is_some, back == 0);
            self.set_reaching(places, is_reaching);
        }
        makers
    }
}
