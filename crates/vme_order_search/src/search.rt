//! The search for the longest legal beginning: layer by layer, from the beginnings of one length
//! those with one place more.

ghost use Rattle.std.specs.Prelude.{◌≡◌, ◌≢◌, ◌⊎◌, ◌<◌, ◌≤◌, ◌+◌, [], ℕ, All, Err, IfErr, IfOk, Ok, OnOk, false, length, reverse, true};
ghost use Rattle.vme_model.specs.Report.{trace_limit};
ghost use Rattle.vme_moments.specs.Orders.{AreInOrder, AreNext, IsLongest};
ghost use Rattle.vme_order_search.specs.Places.{IsNarrow, number_limit};
ghost use Rattle.vme_order_search.specs.Searching.{GoesOn, HasEnded, HasGoneOn, HasLayer, HasLonger, HasTried, IsAnswer, IsAt, IsFit, IsGrown, IsNextOf, IsSameSearch, LeadsTo, Task};
ghost use Rattle.vme_order_search.specs.TooMany.{HasTooMany, most_sets};
ghost use Rattle.vme_order_search.specs.declared.search.Search.{Search as SearchValue};

use crate::free::{next_free, next_places};
use crate::layers::{Beginning, Layer, Match};
use crate::listening::OrderProgress;
use crate::taken::Taken;
use crate::trails::Trail;
use crate::{MOST_SETS, OrderFault, WINDOW};
use std::alloc::Global;
use std::mem;
use vme_bus::{BusKind, BusState};
use vme_model::Version;
use vme_moments::{Seen, Slacks};
use vme_slots::Plan;

/// How many sets of places of one length are kept, in one search after the other, before the last.
/// The first follows the least legal beginning alone, which often leads to an order.
const WIDTHS: [usize; 3] = [1, 32, 1_024];

/// How many steps a trail may have beside those of one beginning before they are dropped.
const SPARE_STEPS: usize = 65_536;

/// What was found of edges that were seen.
#[derive(Drop)]
pub struct Found {
    /// The places of the longest legal beginning, and of those of its length the least, in order.
    pub order: Vec<u32>,
    /// The places that can come next after it, ascending. There is none if it is an order.
    pub next: Vec<u32>,
}

/// Whether a search has room for what a step of it comes to.
#[derive(Clone, Copy, PartialEq, Eq, Debug)]
enum Room {
    /// It has, or nothing has to be kept.
    Enough,
    /// It has none, and leaves something out.
    Lacking,
}

/// A search that keeps the least beginnings of each length, one of each kind.
#[derive(Drop)]
struct Search {
    /// The most sets of places of one length.
    width: usize,
    trail: Trail,
    /// The bus of any beginning.
    state: BusState,
    /// The beginnings of one length, and those with one place more.
    layer: Layer,
    longer: Layer,
    /// How many sets of places those have.
    sets: usize,
    /// Whether greater beginnings than those that are kept were left out.
    is_cut: bool,
}

impl Search {
    /// Before the first edge.
    fn new(alloc: Global, start: BusState, width: usize) -> Result<Search, OrderFault>
        ensures fit { IfOk result IsFit }
        ensures layer { (t : Task) → LeadsTo t [] start → IfOk result (HasLayer t 0) }
        ensures some { IfOk result (λ s. 0 < length s.layer.kept.items) }
        ensures width { IfOk result (λ s. s.width ≡ width) }
        ensures fault { IfErr result (λ fault. fault ≡ OrderFault.NoMemory) }
    {
        let mut layer = Layer::new(alloc)?;
        let empty = Beginning {
            step: 0,
            taken: Taken::none(),
            bus: start.to_kind(),
        };
        layer.push(empty)?;
        Ok(Search {
            width,
            trail: Trail::new(alloc)?,
            state: start,
            layer,
            longer: Layer::new(alloc)?,
            sets: 0,
            is_cut: false,
        })
    }

    /// Adds a beginning that goes on from another with a place.
    fn push(
        &mut self,
        front: &Beginning,
        place: usize,
        taken: Taken,
        bus: BusKind,
    ) -> Result<(), OrderFault>
        requires fit { IsFit self.old }
        requires narrow { IsNarrow taken }
        requires few { place < number_limit }
        ensures fit { OnOk result (IsFit self.new) }
        ensures same { OnOk result (IsSameSearch self.old self.new) }
        ensures grown { OnOk result
            (IsGrown self.old self.new front.now.step place taken bus) }
        ensures fault { IfErr result (λ fault. fault ≡ OrderFault.NoMemory) }
    {
        let step = self.trail.push(front.step, place)?;
        self.longer.push(Beginning { step, taken, bus })?;
        Ok(())
    }

    /// Adds one whose places none has that is kept, if there is room.
    fn keep_new(
        &mut self,
        front: &Beginning,
        place: usize,
        taken: Taken,
        bus: BusKind,
    ) -> Result<Room, OrderFault>
        requires fit { IsFit self.old }
        requires narrow { IsNarrow taken }
        requires few { place < number_limit }
        ensures fit { OnOk result (IsFit self.new) }
        ensures same { OnOk result (IsSameSearch self.old self.new) }
        ensures grown { result ≡ Ok Room.Enough → (v : SearchValue)
            × IsGrown self.old v front.now.step place taken bus
            × (self.new ≡ record v { sets = v.sets + 1 }) }
        ensures full { result ≡ Ok Room.Lacking
            → (self.new ≡ self.old) × (self.old.width ≤ self.old.sets) }
        ensures fault { IfErr result (λ fault. fault ≡ OrderFault.NoMemory) }
    {
        if self.sets >= self.width {
            return Ok(Room::Lacking);
        }
        self.push(front, place, taken, bus)?;
        self.sets += 1;
        Ok(Room::Enough)
    }

    /// Keeps a beginning with one place more, whose edge led to the state, if none of its kind is
    /// kept, and there is room.
    fn keep(&mut self, front: &Beginning, place: usize) -> Result<Room, OrderFault>
        requires fit { IsFit self.old }
        requires narrow { IsNarrow front.now.taken }
        requires missing { front.now.taken.least ≤ place }
        requires near { place < front.now.taken.least + 128 }
        requires few { place < number_limit }
        ensures fit { OnOk result (IsFit self.new) }
        ensures same { OnOk result (IsSameSearch self.old self.new) }
        ensures kept { (t : Task) (n m : ℕ) → IsAt t n m place front.now self.old
            → GoesOn t front.now place self.old.state
            → IfOk result (HasTried t n m place self.new) }
        ensures fault { IfErr result (λ fault. fault ≡ OrderFault.NoMemory) }
    {
        let taken = front.taken.with(place);
        let bus = self.state.to_kind();
        match self.longer.find(&taken, &bus) {
            Match::Kind => Ok(Room::Enough),
            Match::Places => {
                self.push(front, place, taken, bus)?;
                Ok(Room::Enough)
            }
            Match::Nothing => self.keep_new(front, place, taken, bus),
        }
    }

    /// Tries a place that can come next after a beginning, and keeps what comes of it if there is
    /// room.
    fn try_place(
        &mut self,
        seen: &[Seen],
        front: &Beginning,
        place: usize,
    ) -> Result<Room, OrderFault>
        requires fit { IsFit self.old }
        requires narrow { IsNarrow front.now.taken }
        requires few { length seen.now < number_limit }
        requires missing { front.now.taken.least ≤ place }
        requires within { place < length seen.now }
        ensures fit { OnOk result (IsFit self.new) }
        ensures same { OnOk result (IsSameSearch self.old self.new) }
        ensures kept { (t : Task) (n m : ℕ) → t.seen ≡ seen.now
            → IsAt t n m place front.now self.old → IsNextOf t front.now place
            → IfOk result (HasTried t n m place self.new) }
        ensures fault { IfErr result (λ fault. fault ≡ OrderFault.NoMemory) }
    {
        self.state.set_kind(&front.bus);
        if self.state.step(seen[place].edge).is_err() {
            return Ok(Room::Enough);
        }
        if place - front.taken.least() >= WINDOW {
            return Ok(Room::Lacking);
        }
        self.keep(front, place)
    }

    /// Whether it looks for no more sets of places: it has as many as it keeps. A search of full
    /// width looks on, since there are too many orders only if there is one more.
    #[inline(always)]
    fn is_done(&self) -> bool
        ensures { result ≡ true → self.now.width ≢ most_sets }
    {
        self.width < MOST_SETS && self.sets >= self.width
    }

    /// Goes on from a beginning with each place that can come next, as long as there is room.
    fn go_on(
        &mut self,
        seen: &[Seen],
        slacks: &Slacks,
        front: &Beginning,
    ) -> Result<Room, OrderFault>
        requires fit { IsFit self.old }
        requires narrow { IsNarrow front.now.taken }
        requires few { length seen.now < number_limit }
        requires ascending { AreInOrder seen.now }
        ensures fit { OnOk result (IsFit self.new) }
        ensures same { OnOk result (IsSameSearch self.old self.new) }
        ensures kept { (t : Task) (n m : ℕ) → t.seen ≡ seen.now → t.slacks ≡ slacks.now
            → IsAt t n m 0 front.now self.old → IfOk result (HasGoneOn t n m self.new) }
        ensures fault { IfErr result (λ fault. fault ≡ OrderFault.NoMemory) }
    {
        let mut from = front.taken.least();
        'places: while !self.is_done() {
            let Some(place) = next_free(seen, slacks, &front.taken, from) else {
                return Ok(Room::Enough);
            };
            match self.try_place(seen, front, place)? {
                Room::Enough => from = place + 1,
                Room::Lacking => return Ok(Room::Lacking),
            }
        }
        Ok(Room::Lacking)
    }

    /// Finds the beginnings with one place more.
    fn lengthen(&mut self, seen: &[Seen], slacks: &Slacks) -> Result<(), OrderFault>
        requires fit { IsFit self.old }
        requires few { length seen.now < number_limit }
        requires ascending { AreInOrder seen.now }
        ensures fit { OnOk result (IsFit self.new) }
        ensures same { OnOk result (self.new.layer ≡ self.old.layer) }
        ensures layer { (t : Task) (n : ℕ) → t.seen ≡ seen.now → t.slacks ≡ slacks.now
            → HasLayer t n self.old → OnOk result (HasLayer t n self.new) }
        ensures longer { (t : Task) (n : ℕ) → t.seen ≡ seen.now → t.slacks ≡ slacks.now
            → HasLayer t n self.old → OnOk result (HasLonger t n self.new) }
        ensures width { OnOk result (self.new.width ≡ self.old.width) }
        ensures fault { IfErr result (λ fault. fault ≡ OrderFault.NoMemory) }
    {
        self.longer.clear();
        self.sets = 0;
        for index in 0..self.layer.len() {
            let front = self.layer.get(index);
            match self.go_on(seen, slacks, &front)? {
                Room::Enough => {}
                Room::Lacking => {
                    self.is_cut = true;
                    return Ok(());
                }
            }
        }
        Ok(())
    }

    /// Takes those with one place more in place of the others.
    fn advance(&mut self)
        requires fit { IsFit self.old }
        ensures fit { IsFit self.new }
        ensures layer { (t : Task) (n : ℕ) → HasLayer t n self.old → HasLonger t n self.old
            → HasLayer t (n + 1) self.new }
        ensures kept { self.new.layer ≡ self.old.longer }
        ensures width { self.new.width ≡ self.old.width }
    {
        mem::swap(&mut self.layer, &mut self.longer);
    }

    /// Drops how other beginnings came about, if one alone is kept, which has so many places, and
    /// most steps are not its own.
    fn drop_others(&mut self, alloc: Global, places: usize) -> Result<(), OrderFault>
        requires fit { IsFit self.old }
        requires few { places < number_limit }
        ensures fit { OnOk result (IsFit self.new) }
        ensures some { OnOk result (0 < length self.old.layer.kept.items
            → 0 < length self.new.layer.kept.items) }
        ensures layer { (t : Task) (n : ℕ) → HasLayer t n self.old
            → OnOk result (HasLayer t n self.new) }
        ensures width { OnOk result (self.new.width ≡ self.old.width) }
        ensures fault { IfErr result (λ fault. fault ≡ OrderFault.NoMemory) }
    {
        if self.layer.len() != 1 || self.trail.len() < 2 * places + SPARE_STEPS {
            return Ok(());
        }
        let only = self.layer.get(0);
        let (trail, step) = self.trail.alone(alloc, only.step)?;
        self.trail = trail;
        self.layer.clear();
        self.layer.push(Beginning { step, ..only })
    }

    /// Searches until no beginning can be made longer, and gives how many places the last ones
    /// have.
    fn run<P: OrderProgress>(
        &mut self,
        alloc: Global,
        seen: &[Seen],
        slacks: &Slacks,
        progress: &mut P,
    ) -> Result<usize, OrderFault>
        requires fit { IsFit self.old }
        requires some { 0 < length self.old.layer.kept.items }
        requires few { length seen.now < number_limit }
        requires ascending { AreInOrder seen.now }
        ensures fit { OnOk result (IsFit self.new) }
        ensures some { OnOk result (0 < length self.new.layer.kept.items) }
        ensures ended { (t : Task) → t.seen ≡ seen.now → t.slacks ≡ slacks.now
            → HasLayer t 0 self.old → IfOk result (λ n. HasEnded t n self.new) }
        ensures width { OnOk result (self.new.width ≡ self.old.width) }
        ensures fault { IfErr result (λ fault. fault ≡ OrderFault.NoMemory) }
    {
        for length in 0..seen.len() {
            progress.lengthening(length + 1, seen.len(), self.layer.len());
            self.lengthen(seen, slacks)?;
            if self.longer.is_empty() {
                return Ok(length);
            }
            self.advance();
            self.drop_others(alloc, length)?;
        }
        Ok(seen.len())
    }

    /// The longest beginning that was found.
    fn found(&self, alloc: Global, seen: &[Seen], slacks: &Slacks) -> Result<Found, OrderFault>
        requires fit { IsFit self.now }
        requires some { 0 < length self.now.layer.kept.items }
        requires few { length seen.now < number_limit }
        requires ascending { AreInOrder seen.now }
        ensures found { (t : Task) (n : ℕ) → t.seen ≡ seen.now → t.slacks ≡ slacks.now
            → HasEnded t n self.now → (self.now.is_cut ≡ false) ⊎ (n ≡ length seen.now)
            → IfOk result (IsAnswer t) }
        ensures fault { IfErr result (λ fault. fault ≡ OrderFault.NoMemory) }
    {
        let first = self.layer.get(0);
        Ok(Found {
            order: self.trail.beginning(alloc, first.step)?,
            next: next_places(alloc, seen, slacks, &first.taken)?,
        })
    }
}

/// The longest legal beginning, by a search that keeps so many sets of places of each length.
fn longest_within<P: OrderProgress>(
    alloc: Global,
    start: BusState,
    seen: &[Seen],
    slacks: &Slacks,
    width: usize,
    progress: &mut P,
) -> Result<Found, OrderFault>
    requires few { length seen.now < number_limit }
    requires ascending { AreInOrder seen.now }
    ensures found { (t : Task) → t.seen ≡ seen.now → t.slacks ≡ slacks.now → LeadsTo t [] start
        → IfOk result (IsAnswer t) }
    ensures many { (t : Task) → t.seen ≡ seen.now → t.slacks ≡ slacks.now → LeadsTo t [] start
        → width ≡ most_sets → result ≡ Err OrderFault.TooManyOrders
        → HasTooMany t.version t.plan t.slacks t.seen }
{
    let mut search = Search::new(alloc, start, width)?;
    let length = search.run(alloc, seen, slacks, progress)?;
    if search.is_cut && length < seen.len() {
        return Err(OrderFault::TooManyOrders);
    }
    search.found(alloc, seen, slacks)
}

/// The longest legal beginning, and of those of its length the least; and what can come next after
/// it. If it has all places, it is the least legal order, and otherwise there is none. `progress`
/// hears of each length before it is sought, and once more of each if a wider search follows.
///
/// # Errors
/// F5 if the legal beginnings of some length have more than 65,536 sets of places, or one goes on
/// legally with a place that is greater by 128 or more than the least that is not in it; F3.
pub fn longest<P: OrderProgress>(
    alloc: Global,
    plan: &Plan,
    version: Version,
    seen: &[Seen],
    slacks: &Slacks,
    progress: &mut P,
) -> Result<Found, OrderFault>
    requires few { length seen.now ≤ trace_limit }
    requires ascending { AreInOrder seen.now }
    ensures within { IfOk result (λ found. All (λ p. p < length seen.now) found.order.items) }
    ensures next_within { IfOk result (λ found. All (λ p. p < length seen.now) found.next.items) }
    ensures longest { IfOk result (λ found.
        IsLongest version plan.now slacks.now seen.now (reverse found.order.items)) }
    ensures next { IfOk result (λ found.
        AreNext slacks.now seen.now (reverse found.order.items) found.next.items) }
    ensures many { result ≡ Err OrderFault.TooManyOrders
        → HasTooMany version plan.now slacks.now seen.now }
{
    let start = BusState::new(plan, version);
    for width in WIDTHS {
        match longest_within(alloc, start, seen, slacks, width, progress) {
            Err(OrderFault::TooManyOrders) => {}
            found => return found,
        }
    }
    longest_within(alloc, start, seen, slacks, MOST_SETS, progress)
}
