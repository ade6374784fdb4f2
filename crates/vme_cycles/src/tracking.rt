//! A trace that is followed by its transactions, edge by edge.
ghost use Rattle.std.specs.Prelude.{◌≡◌, ◌+◌, ◌<◌, ◌^◌, ◌++◌, ◌∷◌, [], IsTrue, true};
ghost use Rattle.vme_model.specs.declared.signals.Wire.TheVariants.{Bbsy};
ghost use Rattle.vme_model.specs.declared.signals.Version.{Version};
ghost use Rattle.vme_model.specs.Plan.{Plan};
ghost use Rattle.vme_model.specs.Signals.{has_wire, is_well_formed};
ghost use Rattle.vme_model.specs.History.{cycles, shown};
ghost use Rattle.vme_model.specs.Numbered.{edges_in, numbered};
ghost use Rattle.vme_reading.specs.Outcomes.{bench};
ghost use Rattle.vme_cycles.specs.Transactions.{cycle_line as cycle_line_of, ended_line, last_on, request_of, tenure_line as tenure_line_of};
ghost use Rattle.vme_cycles.specs.Kept.{IsTracked, OfTracked, next_line};

use crate::lines::{Line, cycle_line, refused_line, tenure_line};
use crate::record::{LastCycle, LastTenure, Sight};
use arrayvec::ArrayVec;
use vme_bus::Bus;
use vme_explain::since;
use vme_following::Following;
use vme_model::{Driver, Edge, Wire};

/// A trace under way, with its last cycle and its last tenure.
#[derive(Drop)]
pub(crate) struct Tracking {
    pub(crate) following: Following,
    pub(crate) cycle: LastCycle,
    pub(crate) tenure: LastTenure,
}

impl Tracking {
    /// Before the first edge.
    pub(crate) fn new(bus: Bus) -> Tracking
        ensures judged { result.following.judged ≡ 0 }
        ensures tracked { (p : Plan) (v : Version) → bus ≡ bench p v → IsTracked p v [] result }
    {
        Tracking {
            following: Following::new(bus),
            cycle: LastCycle::new(),
            tenure: LastTenure::new(),
        }
    }

    /// The number of the driver's last edge on the wire; 0 if there was none.
    pub(crate) fn last_on(&self, driver: Driver, wire: Wire) -> u64
        ensures { OfTracked self.now (λ p v es. result
            ≡ last_on (numbered (bench p v) es) driver wire) }
    {
        since(&self.following.bus, &self.following.marks, driver, wire).unwrap_or(0)
    }

    /// The request that an edge meets, if it is a `bbsy-` or a `dtack-`.
    fn request_of(&self, edge: &Edge) -> u64
        ensures { OfTracked self.now (λ p v es. result
            ≡ request_of (numbered (bench p v) es) edge.now) }
    {
        if edge.wire.is_same(Wire::Bbsy) {
            return self.last_on(edge.driver, Wire::Br);
        }
        if edge.wire.is_same(Wire::Dtack) {
            return self.last_on(edge.driver, Wire::Irq);
        }
        0
    }

    /// What an edge meets that is about to be made.
    fn sight(&self, edge: &Edge) -> Sight
        ensures shown { OfTracked self.now (λ p v es. result.shown
            ≡ shown p (edges_in (numbered (bench p v) es))) }
        ensures request { OfTracked self.now (λ p v es. result.request
            ≡ request_of (numbered (bench p v) es) edge.now) }
    {
        Sight {
            shown: self.following.bus.shown(),
            request: self.request_of(edge),
        }
    }

    /// How many cycles a board began in its last tenure.
    fn made(&self, driver: Driver) -> u64
        requires { has_wire driver Bbsy ≡ true }
        ensures { OfTracked self.now (λ p v es. result
            ≡ cycles (edges_in (numbered (bench p v) es)) driver) }
    {
        self.following.bus.laws();
        match driver {
            Driver::Controller => 0,
            Driver::Slot(slot) => self.following.marks.made(slot),
        }
    }

    /// The line of the driver's last cycle, up to this edge.
    pub(crate) fn cycle_line(&self, driver: Driver, last: Option<u64>) -> Line
        ensures { OfTracked self.now (λ p v es. result.items
            ≡ cycle_line_of p last driver (numbered (bench p v) es)) }
    {
        let first = self.last_on(driver, Wire::AddressStrobe);
        cycle_line(first, last, driver, self.cycle.showed, self.cycle.answer)
    }

    /// The line of the driver's last tenure, up to this edge.
    pub(crate) fn tenure_line(&self, driver: Driver, last: Option<u64>) -> Line
        requires { has_wire driver Bbsy ≡ true }
        ensures { OfTracked self.now (λ p v es. result.items
            ≡ tenure_line_of last driver (numbered (bench p v) es)) }
    {
        let first = self.last_on(driver, Wire::Bbsy);
        tenure_line(first, last, driver, self.tenure.asked, self.made(driver))
    }

    /// The line of what an edge ends, the n-th, if it is accepted; nothing if it ends nothing.
    fn ended_line(&self, edge: &Edge, n: u64) -> Line
        requires { IsTrue (is_well_formed edge.now) }
        ensures { OfTracked self.now (λ p v es. result.items
            ≡ ended_line p n edge.now (numbered (bench p v) es)) }
    {
        if edge.fall {
            return ArrayVec::new();
        }
        if edge.wire.is_same(Wire::AddressStrobe) {
            return self.cycle_line(edge.driver, Some(n));
        }
        if edge.wire.is_same(Wire::Bbsy) {
            return self.tenure_line(edge.driver, Some(n));
        }
        ArrayVec::new()
    }

    /// Takes in the next edge. Gives its line, if it ends something or is refused.
    pub(crate) fn take_in(&mut self, edge: &Edge) -> Line
        requires room { self.old.following.judged + 1 < 2 ^ 64 }
        requires well_formed { IsTrue (is_well_formed edge.now) }
        ensures judged { self.new.following.judged ≡ self.old.following.judged + 1 }
        ensures tracked { OfTracked self.old (λ p v es.
            IsTracked p v (es ++ edge.now ∷ []) self.new) }
        ensures line { OfTracked self.old (λ p v es. result.items ≡ next_line p v es edge.now) }
    {
        let n = self.following.judged + 1;
        let ended = self.ended_line(edge, n);
        let sight = self.sight(edge);
        let answer = self.following.step(edge);
        self.following.judged += 1;
        match answer {
            Ok(sent) => {
                self.cycle.note(edge, n, &sight, sent);
                self.tenure.note(edge, &sight);
                ended
            }
            Err(_) => refused_line(n, edge, &answer),
        }
    }
}
