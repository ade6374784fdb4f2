//! What is known of the bus behind each set of the changes of a sample.
ghost use Rattle.std.specs.Prelude.{◌≡◌, ◌<◌, ◌≤◌, IsTrue, MatchOption, length, true};
ghost use Rattle.vme_captures.specs.Signals.{is_signal};
ghost use Rattle.vme_samples.specs.Samples.{are_changes};
ghost use Rattle.vme_samples.specs.Ways.{AreWays, CannotMake, Gathered, IsFarther, IsFurthest, Joins, Keeps, LedTo, Makes, hidden_behind};

use crate::places::Places;
use crate::samples::{MOST, SeenChange, comes_next};
use std::alloc::{AllocError, Global};
use vme_captures::Change;
use vme_slots::Plan;
use vme_standings::{Probed, Standings};

/// How many sets of places there are.
pub(crate) const SETS: usize = 1 << MOST;

/// What is known of the bus behind each set of the changes of a sample. The room for it is reserved
/// once.
#[derive(Drop)]
pub struct Ways {
    /// By the number of the set, with the edges that no probe sees; none if no order of its changes
    /// is possible.
    pub(crate) known: Vec<Option<Standings>>,
    ghost known_room: { length known.items ≡ 4096 },
    /// By the number of the set, whether all of another set is reached from it.
    pub(crate) reaching: Vec<bool>,
    ghost reaching_room: { length reaching.items ≡ 4096 },
}

/// What is known behind a change, if somebody may make it.
fn behind_change(
    plan: &Plan,
    probed: &Probed,
    hidden: &Standings,
    change: &Change,
) -> Option<Standings>
    requires { IsTrue (is_signal change.now.signal) }
    ensures { MatchOption result (CannotMake plan.now probed.now hidden.now change.now)
        (Makes plan.now probed.now hidden.now change.now) }
{
    if hidden.drivers(plan, probed, change).is_nobody() {
        return None;
    }
    Some(hidden.behind(plan, probed, change))
}

/// What is known if one of the two is, as far as there are.
fn joined(a: Option<Standings>, b: Option<Standings>) -> Option<Standings>
    ensures { Joins a b result }
{
    match (a, b) {
        (Some(a), Some(b)) => Some(a.union(&b)),
        (None, b) => b,
        (a, None) => a,
    }
}

impl Ways {
    /// Reserves the room.
    ///
    /// # Errors
    /// There is no memory for it.
    pub fn new(alloc: Global) -> Result<Ways, AllocError>
    {
        let mut known = Vec::new(alloc);
        known.resize(SETS, None)?;
        let mut reaching = Vec::new(alloc);
        reaching.resize(SETS, false)?;
        Ok(Ways { known, reaching })
    }

    /// What is known behind the changes of a set, with the edges that no probe sees.
    pub fn hidden_behind(&self, places: Places) -> Option<Standings>
        ensures { result ≡ hidden_behind self.now.known.items places }
    {
        match self.known.get(places.number()) {
            Some(known) => *known,
            None => None,
        }
    }

    /// What is known behind the changes of a set if the one at the place is the last of them.
    fn led_to(
        &self,
        plan: &Plan,
        probed: &Probed,
        sample: &[SeenChange],
        places: Places,
        last: usize,
    ) -> Option<Standings>
        requires few { length sample.now ≤ 12 }
        requires changes { IsTrue (are_changes sample.now) }
        requires near { last < length sample.now }
        ensures { LedTo plan.now probed.now sample.now self.now.known.items places last result }
    {
        if !places.has(last) {
            return None;
        }
        let before = places.without(last);
        if !comes_next(sample, before, last) {
            return None;
        }
        match self.hidden_behind(before) {
            None => None,
            Some(hidden) => behind_change(plan, probed, &hidden, &sample[last].change),
        }
    }

    /// What is known behind the changes of a set that is not empty, in whatever order. It is read
    /// from the sets with one change less.
    pub fn behind(
        &self,
        plan: &Plan,
        probed: &Probed,
        sample: &[SeenChange],
        places: Places,
    ) -> Option<Standings>
        requires few { length sample.now ≤ 12 }
        requires changes { IsTrue (are_changes sample.now) }
        ensures { Gathered plan.now probed.now sample.now self.now.known.items places
            (length sample.now) result }
    {
        let mut known = None;
        for last in 0..sample.len() {
            let one = self.led_to(plan, probed, sample, places, last);
            known = joined(known, one);
        }
        known
    }

    /// Keeps what is known behind a set of the changes, with the edges that no probe sees.
    fn keep(&mut self, plan: &Plan, probed: &Probed, places: Places, known: Option<Standings>)
        requires { places.bits < 4096 }
        ensures { Keeps plan.now probed.now places known self.old.known.items
            self.new.known.items }
    {
        self.known[places.number()] = match known {
            None => None,
            Some(known) => Some(known.with_hidden(plan, probed)),
        };
    }

    /// Finds what is known behind each set of the changes of a sample, given what is known before
    /// it.
    pub fn fill(&mut self, plan: &Plan, probed: &Probed, start: &Standings, sample: &[SeenChange])
        requires few { length sample.now ≤ 12 }
        requires changes { IsTrue (are_changes sample.now) }
        ensures { AreWays plan.now probed.now start.now sample.now self.new.known.items }
    {
        self.keep(plan, probed, Places::NONE, Some(*start));
        for number in 1..Places::first(sample.len()).number() + 1 {
            let places = Places::numbered(number);
            let known = self.behind(plan, probed, sample, places);
            self.keep(plan, probed, places, known);
        }
    }

    /// Whether something is known behind a set, and it has more places than another, or as many and
    /// its list is the lesser one.
    fn is_farther(&self, places: Places, other: Places) -> bool
        ensures farther { result ≡ true → IsFarther self.now.known.items places other }
        ensures not { IsFarther self.now.known.items places other → result ≡ true }
    {
        if self.hidden_behind(places).is_none() {
            return false;
        }
        let count = places.count();
        let others = other.count();
        others < count || (others == count && places.is_before(other))
    }

    /// Of the sets behind which something is known those with the most changes, and of these the
    /// one whose list of places is least.
    pub fn furthest(&self, count: usize) -> Places
        requires { count ≤ 12 }
        ensures { IsFurthest self.now.known.items count result }
    {
        let mut furthest = Places::NONE;
        for number in 1..Places::first(count).number() + 1 {
            let places = Places::numbered(number);
            if self.is_farther(places, furthest) {
                furthest = places;
            }
        }
        furthest
    }
}
