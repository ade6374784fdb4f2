//! The search for the longest legal beginning.
ghost use Rattle.std.specs.Prelude.{◌≡◌, ◌+◌, ◌<◌, ◌≤◌, ◌++◌, ◌∷◌, ℕ, [], All, Err, IfErr, IfOk, MatchOption, Ok, OnOk, length, reverse, take, true, false};
ghost use Rattle.vme_model.specs.Report.{trace_limit};
ghost use Rattle.vme_moments.specs.Orders.{AreInOrder, HasFarPlace, IsLongest};
ghost use Rattle.vme_order.specs.Searching.{IsBarren, IsFit, IsNextIn, IsTriedOut, IsUnderWay, LeadsTo, Task};

use crate::dead::{Dead, Kind};
use crate::free::next_free;
use crate::paths::Path;
use crate::taken::Taken;
use crate::{OrderFault, WINDOW};
use std::alloc::Global;
use vme_bus::BusState;
use vme_model::Version;
use vme_moments::{Seen, Slacks};
use vme_slots::Plan;

/// A search under way: depth first, the lesser place first.
#[derive(Drop)]
struct Search {
    path: Path,
    /// The places of the path.
    taken: Taken,
    /// The kinds of beginnings from which nothing longer comes than the longest so far.
    dead: Dead,
    /// The longest beginning so far, and of those of its length the least.
    longest: Vec<u32>,
    /// How many of its first places are those of the path.
    shared: usize,
}

impl Search {
    /// Before the first edge.
    fn new(alloc: Global, start: BusState, places: usize) -> Result<Search, OrderFault>
        ensures fit { IfOk result (IsFit places) }
        ensures under_way { (t : Task) → LeadsTo t [] start → places ≡ length t.seen
            → IfOk result (IsUnderWay t 0) }
        ensures fault { IfErr result (λ fault. fault ≡ OrderFault.NoMemory) }
    {
        Ok(Search {
            path: Path::new(alloc, start)?,
            taken: Taken::new(alloc, places)?,
            dead: Dead::new(alloc)?,
            longest: Vec::new(alloc),
            shared: 0,
        })
    }

    /// Keeps the path where it is longer than the longest so far.
    fn keep_longest(&mut self) -> Result<(), OrderFault>
        requires path { self.old.shared ≤ length self.old.path.places.items }
        requires longest { self.old.shared ≤ length self.old.longest.items }
        requires next { length self.old.path.places.items ≤ length self.old.longest.items + 1 }
        ensures path { self.new.path ≡ self.old.path }
        ensures taken { self.new.taken ≡ self.old.taken }
        ensures dead { self.new.dead ≡ self.old.dead }
        ensures kept { length self.old.path.places.items ≤ length self.old.longest.items
            → self.new ≡ self.old }
        ensures longer { length self.old.longest.items < length self.old.path.places.items
            → take self.old.shared self.old.longest.items
            ≡ take self.old.shared self.old.path.places.items
            → OnOk result ((self.new.longest.items ≡ self.old.path.places.items)
            × (self.new.shared ≡ length self.old.path.places.items)) }
        ensures fault { IfErr result (λ fault. fault ≡ OrderFault.NoMemory) }
    {
        if self.path.places().len() <= self.longest.len() {
            return Ok(());
        }
        self.longest.truncate(self.shared);
        for place in &self.path.places()[self.shared..] {
            if self.longest.push(*place).is_err() {
                return Err(OrderFault::NoMemory);
            }
        }
        self.shared = self.longest.len();
        Ok(())
    }

    /// Goes on with a place that can come next, where its edge is allowed and something longer may
    /// come of it.
    fn enter(&mut self, seen: &[Seen], place: usize) -> Result<bool, OrderFault>
        requires fit { IsFit (length seen.now) self.old }
        requires few { length seen.now ≤ trace_limit }
        requires within { place < length seen.now }
        requires least { self.old.taken.least ≤ place }
        ensures fit { OnOk result (IsFit (length seen.now) self.new) }
        ensures entered { (t : Task) (from : ℕ) → t.seen ≡ seen.now → IsUnderWay t from self.old
            → IsNextIn t from place self.old → result ≡ Ok true → IsUnderWay t 0 self.new }
        ensures passed { (t : Task) (from : ℕ) → t.seen ≡ seen.now → IsUnderWay t from self.old
            → IsNextIn t from place self.old → result ≡ Ok false
            → IsUnderWay t (place + 1) self.new }
        ensures grown { result ≡ Ok true
            → self.new.path.places.items ≡ self.old.path.places.items ++ place ∷ [] }
        ensures same { result ≡ Ok false
            → self.new.path.places.items ≡ self.old.path.places.items }
        ensures far { (t : Task) (from : ℕ) → t.seen ≡ seen.now → IsUnderWay t from self.old
            → IsNextIn t from place self.old → result ≡ Err OrderFault.TooManyOrders
            → HasFarPlace t.version t.plan t.slacks t.seen }
    {
        let mut state = *self.path.state();
        if state.step(seen[place].edge).is_err() {
            return Ok(false);
        }
        if place - self.taken.least() >= WINDOW {
            return Err(OrderFault::TooManyOrders);
        }
        self.taken.take(place);
        let count = self.path.places().len() + 1;
        if self.dead.has(&Kind::of(count, &self.taken, &state)) {
            self.taken.give_back(place);
            return Ok(false);
        }
        self.path.push(place, state)?;
        self.keep_longest()?;
        Ok(true)
    }

    /// Goes back by a place, of which nothing longer comes.
    fn leave(&mut self, seen: &[Seen]) -> Option<usize>
        requires { IsFit (length seen.now) self.old }
        ensures fit { IsFit (length seen.now) self.new }
        ensures longest { self.new.longest ≡ self.old.longest }
        ensures left { (t : Task) (from : ℕ) → t.seen ≡ seen.now → IsUnderWay t from self.old
            → IsTriedOut t from self.old
            → MatchOption result (IsBarren t (length self.new.longest.items) [])
            (λ place. IsUnderWay t (place + 1) self.new) }
        ensures places { MatchOption result (self.old.path.places.items ≡ [])
            (λ place. self.old.path.places.items ≡ self.new.path.places.items ++ place ∷ []) }
    {
        let count = self.path.places().len();
        let kind = Kind::of(count, &self.taken, self.path.state());
        self.dead.note(kind);
        let place = self.path.pop(seen)?;
        self.taken.give_back(place);
        self.shared = self.shared.min(self.path.places().len());
        Some(place)
    }

    /// Searches until a beginning has all places, or none is left that may be longer.
    fn run(&mut self, seen: &[Seen], slacks: &Slacks) -> Result<(), OrderFault>
        requires fit { IsFit (length seen.now) self.old }
        requires few { length seen.now ≤ trace_limit }
        requires ascending { AreInOrder seen.now }
        ensures within { OnOk result (All (λ p. p < length seen.now) self.new.longest.items) }
        ensures longest { (t : Task) → t.seen ≡ seen.now → t.slacks ≡ slacks.now
            → IsUnderWay t 0 self.old
            → IfOk result (λ _. IsLongest t.version t.plan t.slacks t.seen
            (reverse self.new.longest.items)) }
        ensures many { (t : Task) → t.seen ≡ seen.now → t.slacks ≡ slacks.now
            → IsUnderWay t 0 self.old
            → result ≡ Err OrderFault.TooManyOrders
            → HasFarPlace t.version t.plan t.slacks t.seen }
    {
        let mut from = 0;
        'places: while self.longest.len() < seen.len() {
            match next_free(seen, slacks, &self.taken, from) {
                Some(place) => {
                    if self.enter(seen, place)? {
                        from = self.taken.least();
                    } else {
                        from = place + 1;
                    }
                }
                None => match self.leave(seen) {
                    Some(place) => from = place + 1,
                    None => return Ok(()),
                },
            }
        }
        Ok(())
    }
}

/// The longest legal beginning, and of those of its length the least.
///
/// Errors: F5 where a legal beginning goes on legally with a place that is greater by 128 or more than
/// the least that is not in it; F3.
pub fn longest(
    alloc: Global,
    plan: &Plan,
    version: Version,
    seen: &[Seen],
    slacks: &Slacks,
) -> Result<Vec<u32>, OrderFault>
    requires few { length seen.now ≤ trace_limit }
    requires ascending { AreInOrder seen.now }
    ensures within { IfOk result (λ order. All (λ p. p < length seen.now) order.items) }
    ensures longest { IfOk result (λ order.
        IsLongest version plan.now slacks.now seen.now (reverse order.items)) }
    ensures many { result ≡ Err OrderFault.TooManyOrders
        → HasFarPlace version plan.now slacks.now seen.now }
{
    let mut search = Search::new(alloc, BusState::new(plan, version), seen.len())?;
    search.run(seen, slacks)?;
    Ok(search.longest)
}
