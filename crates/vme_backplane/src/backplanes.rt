//! A backplane, which takes its edges one by one.
ghost use Rattle.std.specs.Prelude.{◌≡◌, ◌==◌, ◌+◌, ◌%◌, ◌<◌, ◌≤◌, [], IfOk, Ok, Some, false, true, is_ok, length, slice_get};
ghost use Rattle.vme_model.specs.History.{in_order};
ghost use Rattle.vme_model.specs.Signals.{is_well_formed};
ghost use Rattle.vme_model.specs.Verdict.{verdict, verdict_but_full, made, after, kept, IsLegal};
ghost use Rattle.vme_model.specs.Safe.{IsSafe, IsOrderly};
ghost use Rattle.vme_model.specs.Views.{pins};
ghost use Rattle.vme_model.specs.Deliveries.{answer, delivered, delivery};
ghost use Rattle.vme_model.specs.Offers.{offered};
ghost use Rattle.vme_histories.specs.Offered.{offered_but_full};
ghost use Rattle.vme_wiring.specs.Waits.{is_waiting};
ghost use Rattle.vme_model.specs.Accepted.{IsAccepted};
ghost use Rattle.vme_model.specs.Report.{at_power_up, trace_limit};
ghost use Rattle.vme_histories.specs.Sound.{IsSound};

use crate::deliveries::deliveries;
use arrayvec::ArrayVec;
use std::alloc::{AllocError, Global};
use std::marker::Model;
use vme_histories::{Counts, by_wire, choice};
use vme_model::{Delivery, Driver, Edge, Pins, Refused, Version, Wire};
use vme_slots::Plan;
use vme_store::{Store, Trace};
use vme_wiring::Wiring;

/// A backplane: the version of its rules, its plan, and the edges that were made, with the wiring
/// to which they lead.
#[derive(Drop)]
pub struct Backplane<'r> {
    version: Version,
    plan: Plan,
    wiring: Wiring,
    store: Store<'r>,
}

impl<'r> Model for Backplane<'r> {
    ghost use Rattle.vme_model.specs.Verdict.{State};
    ghost use Rattle.vme_wiring.specs.Wired.{IsWiringOf};

    ghost Value = { State };

    ghost view = { λ b. record {
      version = b.version;
      plan = b.plan;
      history = b.store.history;
      max = b.store.max;
    } };

    ghost invariant = { λ b. IsWiringOf b.version b.plan b.store.history b.wiring };
}

impl<'r> Backplane<'r> {
    /// A backplane at power-up: no edge was made. It holds as many edges as the trace has room for.
    pub fn new(plan: Plan, trace: Trace<'r>, version: Version) -> Backplane<'r>
        ensures { result ≡ at_power_up version plan trace.entry }
    {
        let wiring = Wiring::new(&plan, version);
        Backplane {
            version,
            plan,
            wiring,
            store: Store::new(trace),
        }
    }

    /// A law: what holds for every backplane. The call costs nothing, and gives these facts to the
    /// prover.
    pub fn laws(&self)
        ensures accepted { IsAccepted self.now.plan }
        ensures legal { IsLegal self.now.version self.now.plan self.now.history }
        ensures fits { length self.now.history ≤ self.now.max }
        ensures bounded { self.now.max ≤ trace_limit }
    {
        self.store.laws();
    }

    /// A law: the history of every backplane is safe and orderly. The call costs nothing, and gives
    /// these facts to the prover. docs/SAFETY.md explains the claims.
    #[tactic(auto, using(vme_model::proofs::Safety::legal_is_safe, vme_model::proofs::Safety::legal_is_orderly))]
    pub fn safety(&self)
        ensures safe { IsSafe self.now.plan self.now.history }
        ensures orderly { IsOrderly self.now.version self.now.plan self.now.history }
    {
        self.laws();
    }

    /// The answer to an edge, without the end of the trace.
    #[inline(always)]
    fn judge(&self, edge: Edge) -> Result<(), Refused>
        ensures { result ≡ verdict_but_full self.now.version self.now.plan self.now.history edge }
    {
        self.wiring.judge(edge)
    }

    /// Whether the rules allow an edge now. Nothing is made. Source: docs/RULES.md, E1 to E5.
    ///
    /// # Errors
    /// The first of E1 to E5 that applies.
    #[tactic(auto, using(vme_histories::proofs::Judged::refused, vme_histories::proofs::Judged::passed))]
    #[inline(always)]
    pub fn verdict(&self, edge: Edge) -> Result<(), Refused>
        ensures { result ≡ verdict self.now edge }
    {
        match self.judge(edge) {
            Ok(()) => {
                if self.is_full() {
                    Err(Refused::TraceFull)
                } else {
                    Ok(())
                }
            }
            Err(refused) => Err(refused),
        }
    }

    /// Makes the edge if the rules allow it, and returns what it delivers. It asks for no memory.
    /// Source: docs/RULES.md.
    ///
    /// # Errors
    /// The first of E1 to E5 that applies. A refusal leaves everything as it was.
    pub fn step(&mut self, edge: Edge) -> Result<Option<Delivery>, Refused>
        ensures answer { result ≡ answer self.old edge }
        ensures accepted { is_ok result ≡ is_ok (verdict self.old edge) }
        ensures state { self.new ≡ after self.old edge }
        ensures sound { IsSound self.new }
    {
        let answer = self.step_by_wire(edge);
        self.laws();
        self.safety();
        answer
    }

    /// Makes the edge if the rules allow it, with an arm for each wire; `step` adds what follows
    /// for every history.
    #[inline(always)]
    fn step_by_wire(&mut self, edge: Edge) -> Result<Option<Delivery>, Refused>
        ensures answer { result ≡ answer self.old edge }
        ensures state { self.new ≡ after self.old edge }
    {
        by_wire!(edge => match self.verdict(edge) {
            Ok(()) => Ok(self.take(edge)),
            Err(refused) => Err(refused),
        })
    }

    /// Makes an edge that would be accepted, and returns what it delivers.
    #[inline(always)]
    fn take(&mut self, edge: Edge) -> Option<Delivery>
        requires { verdict self.old edge ≡ Ok tt }
        ensures delivery { result ≡ delivery self.old.plan self.old.history edge }
        ensures state { self.new ≡ made self.old edge }
    {
        let delivery = self.wiring.delivery(edge);
        self.make(edge);
        delivery
    }

    /// A law: what holds for an edge that would be accepted.
    #[inline(always)]
    fn accepted(&self, edge: Edge)
        requires { verdict self.now edge ≡ Ok tt }
        ensures room { (length self.now.history == self.now.max) ≡ false }
        ensures allowed { verdict_but_full self.now.version self.now.plan self.now.history edge
            ≡ Ok tt }
        ensures well_formed { is_well_formed edge ≡ true }
    {
        let _edge = edge;
    }

    /// Makes an edge for which `verdict` answers `Ok`.
    #[inline(always)]
    fn make(&mut self, edge: Edge)
        requires { verdict self.old edge ≡ Ok tt }
        ensures { self.new ≡ made self.old edge }
    {
        self.laws();
        self.accepted(edge);
        self.wiring.note(edge);
        self.store.push(edge);
    }

    /// Steps through all the edges. A refused edge changes nothing, and the run goes on after it.
    pub fn run(&mut self, edges: &[Edge]) -> Counts
        ensures state { self.new ≡ kept self.old edges.now }
        ensures sound { IsSound self.new }
        ensures accepted { length self.old.history + result.accepted ≡ length self.new.history }
        ensures refused { result.accepted + result.refused ≡ length edges.now }
    {
        let mut counts = Counts {
            accepted: 0,
            refused: 0,
        };
        for edge in edges {
            match self.step(*edge) {
                Ok(_) => counts.accepted += 1,
                Err(_) => counts.refused += 1,
            }
        }
        self.laws();
        self.safety();
        counts
    }

    /// What a driver reads on its pins. Source: profile.
    pub fn pins(&self, driver: Driver) -> Pins
        ensures { result ≡ pins self.now.plan self.now.history driver }
    {
        self.wiring.pins(driver)
    }

    /// The offers of a driver: those of the edges considered for it that would be accepted, in the
    /// order of its wires. At most one acknowledge and one access are considered. Source: profile.
    pub fn offers(&self, driver: Driver) -> ArrayVec<Edge, 16>
        ensures { result.items ≡ offered self.now driver }
    {
        if self.is_full() {
            return ArrayVec::new();
        }
        self.offers_but_full(driver)
    }

    /// The offers of a driver, without the end of the trace.
    fn offers_but_full(&self, driver: Driver) -> ArrayVec<Edge, 16>
        ensures { result.items
            ≡ offered_but_full self.now.version self.now.plan self.now.history driver }
    {
        self.wiring.offers(driver)
    }

    /// Whether the driver waits for an edge of another driver. If so, it has no offer. If it
    /// answers false, there may be no offer either.
    fn is_waiting(&self, driver: Driver) -> bool
        ensures waits { result ≡ is_waiting self.now.version self.now.plan self.now.history driver }
        ensures none { result ≡ true
            → offered_but_full self.now.version self.now.plan self.now.history driver ≡ [] }
    {
        self.wiring.is_waiting(driver)
    }

    /// The offer that the driver makes in a round, if it has any: of k offers the one at place
    /// `round mod k`, counted from 0. Source: profile.
    ///
    /// If the driver waits for another's edge, as most do, no edge is tried.
    #[inline(always)]
    pub fn offer(&self, driver: Driver, round: u32) -> Option<Edge>
        ensures { result
            ≡ slice_get (offered self.now driver) (round % length (offered self.now driver)) }
    {
        if self.is_waiting(driver) {
            return None;
        }
        choice(self.offers(driver).as_slice(), round)
    }

    /// What was delivered, in the order of time. Source: Std 1014, chapter 4.
    ///
    /// # Errors
    /// `AllocError` if memory runs out.
    pub fn deliveries(&self, alloc: Global) -> Result<Vec<Delivery>, AllocError>
        ensures { IfOk result (λ v. v.items ≡ delivered self.now.plan self.now.history) }
    {
        deliveries(alloc, self.version, &self.plan, &self.store)
    }

    /// The version of the backplane's rules.
    pub fn version(&self) -> Version
        ensures { result ≡ self.now.version }
    {
        self.version
    }

    /// The plan of the backplane.
    pub fn plan(&self) -> &Plan
        ensures { result.now ≡ self.now.plan }
    {
        &self.plan
    }

    /// How many edges were made, 0 to `max`.
    pub fn len(&self) -> u32
        ensures { result ≡ length self.now.history }
    {
        self.store.len()
    }

    /// Whether the trace can hold no further edge.
    fn is_full(&self) -> bool
        ensures { result ≡ (length self.now.history == self.now.max) }
    {
        self.len() == self.max()
    }

    /// How many edges can be made in all, at most 1,048,576.
    pub fn max(&self) -> u32
        ensures { result ≡ self.now.max }
    {
        self.store.max()
    }

    /// The edge at a place, counted from 0 in the order of time. The place has to be below `len`.
    pub fn edge_at(&self, place: u32) -> Edge
        requires { place < length self.now.history }
        ensures { slice_get (in_order self.now.history) place ≡ Some result }
    {
        self.store.edge_at(place)
    }
}
