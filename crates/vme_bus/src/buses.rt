//! A bus, which takes edges one by one and stores none of them.
ghost use Rattle.std.specs.Prelude.{◌≡◌, ◌==◌, ◌&&◌, ◌+◌, ◌≤◌, ◌↔◌, IsTrue, Ok, false, true, is_ok, length, map, take};
ghost use Rattle.vme_model.specs.Verdict.{verdict, verdict_but_full, made, after, kept, IsLegal};
ghost use Rattle.vme_model.specs.Failing.{tested, tested_but_full, unmet, unmet_but_full};
ghost use Rattle.vme_model.specs.Safe.{IsSafe, IsOrderly};
ghost use Rattle.vme_model.specs.Views.{pins};
ghost use Rattle.vme_model.specs.Deliveries.{answer};
ghost use Rattle.vme_model.specs.Signals.{is_well_formed};
ghost use Rattle.vme_model.specs.Locality.{AreWellFormed};
ghost use Rattle.vme_model.specs.declared.deliveries.Delivery.{Delivery as DeliveryValue};
ghost use Rattle.vme_bus.specs.Answers.{answer_in, answer_of, answers};
ghost use Rattle.vme_model.specs.Open.{open_edges, IsAllThatIsAllowed};
ghost use Rattle.vme_model.specs.Accepted.{IsAccepted};
ghost use Rattle.vme_model.specs.Report.{at_power_up, trace_limit};
ghost use Rattle.vme_histories.specs.Sound.{IsSound};
ghost use Rattle.vme_bus.specs.States.{IsStateOf};

use crate::answers::{ACCEPTED, AnswerRecord, is_accepted, refusal_number};
use crate::past::Past;
use crate::states::BusState;
use arrayvec::ArrayVec;
use std::marker::Model;
use vme_histories::{Counts, by_wire, open_edges_of};
use vme_model::{Condition, Delivery, Driver, Edge, Pins, Refused, TRACE_LIMIT, Version, Wire};
use vme_rules::Outcome;
use vme_slots::Plan;

/// A bus: the version of its rules, its plan, and the numbers that the edges so far lead to.
///
/// It answers like a backplane with room for 1,048,576 edges, but stores no edge and asks for no
/// memory.
#[derive(Drop)]
pub struct Bus {
    version: Version,
    plan: Plan,
    state: BusState,
    made: u32,
    max: u32,
    past: Past,
}

impl Model for Bus {
    ghost use Rattle.std.specs.Prelude.{◌≡◌, ◌≤◌, length};
    ghost use Rattle.vme_model.specs.Verdict.{State};
    ghost use Rattle.vme_model.specs.Report.{trace_limit};
    ghost use Rattle.vme_bus.specs.States.{IsStateOf};

    ghost Value = { State };

    ghost view = { λ b. record {
      version = b.version;
      plan = b.plan;
      history = b.past;
      max = b.max;
    } };

    ghost invariant = { λ b. IsStateOf b.version b.plan b.past b.state
        × (b.made ≡ length b.past) × (b.made ≤ b.max) × (b.max ≤ trace_limit) };
}

impl Bus {
    /// A bus at power-up: no edge was made.
    pub fn new(plan: Plan, version: Version) -> Bus
        ensures { result ≡ at_power_up version plan trace_limit }
    {
        let state = BusState::new(&plan, version);
        Bus {
            version,
            plan,
            state,
            made: 0,
            max: TRACE_LIMIT,
            past: Past::new(),
        }
    }

    /// Puts the bus back to power-up: no edge was made. The plan and the version stay.
    pub fn restart(&mut self)
        ensures { self.new ≡ at_power_up self.old.version self.old.plan trace_limit }
    {
        self.state = BusState::new(&self.plan, self.version);
        self.made = 0;
        self.max = TRACE_LIMIT;
        self.past = Past::new();
    }

    /// A law: what holds for every bus. The call costs nothing, and gives these facts to the
    /// prover.
    pub fn laws(&self)
        ensures accepted { IsAccepted self.now.plan }
        ensures legal { IsLegal self.now.version self.now.plan self.now.history }
        ensures fits { length self.now.history ≤ self.now.max }
        ensures bounded { self.now.max ≤ trace_limit }
    {
        let _state = &self.state;
    }

    /// Where the bus stands: what the edges so far lead to. It can be copied and kept.
    #[inline(always)]
    pub fn state(&self) -> &BusState
        ensures { IsStateOf self.now.version self.now.plan self.now.history result.now }
    {
        &self.state
    }

    /// A law: the history of every bus is safe and orderly. The call costs nothing, and gives these
    /// facts to the prover.
    #[tactic(auto, using(vme_model::proofs::Safety::legal_is_safe, vme_model::proofs::Safety::legal_is_orderly))]
    pub fn safety(&self)
        ensures safe { IsSafe self.now.plan self.now.history }
        ensures orderly { IsOrderly self.now.version self.now.plan self.now.history }
    {
        self.laws();
    }

    /// The answer to an edge, apart from E5, the end of the trace.
    #[inline(always)]
    fn judge(&self, edge: Edge) -> Result<(), Refused>
        ensures { result ≡ verdict_but_full self.now.version self.now.plan self.now.history edge }
    {
        self.state.judge(edge)
    }

    /// The answer to an edge, without what it delivers: the first of E1 to E5 that applies, or
    /// none.
    #[tactic(auto, using(vme_histories::proofs::Judged::refused, vme_histories::proofs::Judged::passed))]
    #[inline(always)]
    pub fn verdict(&self, edge: Edge) -> Result<(), Refused>
        ensures { result ≡ verdict self.now edge }
    {
        match self.judge(edge) {
            Ok(()) => {
                if self.is_full() {
                    Err(Refused::TraceFull)
                } else {
                    Ok(())
                }
            }
            Err(refused) => Err(refused),
        }
    }

    /// What `step` would return for an edge: what the edge delivers, or the first of E1 to E5 that
    /// applies. The bus stays as it is.
    pub fn answer(&self, edge: Edge) -> Result<Option<Delivery>, Refused>
        ensures { result ≡ answer self.now edge }
    {
        match self.verdict(edge) {
            Ok(()) => Ok(self.state.delivery(edge)),
            Err(refused) => Err(refused),
        }
    }

    /// Whether the edge is refused only because the trace is full, by E5.
    fn lacks_room(&self, edge: Edge) -> bool
        ensures { result ≡ ((length self.now.history == self.now.max)
            && is_ok (verdict_but_full self.now.version self.now.plan self.now.history edge)) }
    {
        self.is_full() && self.judge(edge).is_ok()
    }

    /// What is tested of an edge, apart from E5, the end of the trace.
    fn outcome_but_full<A: Outcome>(&self, edge: Edge) -> A
        ensures { A.reports result
            (tested_but_full self.now.version self.now.plan self.now.history edge) }
    {
        self.state.outcome(edge)
    }

    /// What is tested of an edge, up to its answer. If the answer is E1 or E2, that is the one
    /// condition that fails. Otherwise it is the conditions of the edge's rule, then, if they hold,
    /// the condition of its settling rule, and last, for E5, that the trace has room.
    pub fn outcome<A: Outcome>(&self, edge: Edge) -> A
        ensures { A.reports result (tested self.now edge) }
    {
        let tested: A = self.outcome_but_full(edge);
        if self.lacks_room(edge) {
            tested.and(A::asks(Condition::HasRoom, false))
        } else {
            tested
        }
    }

    /// The conditions that an edge fails, apart from E5, the end of the trace.
    fn failing_but_full(&self, edge: Edge) -> ArrayVec<Condition, 5>
        ensures { result.items
            ≡ unmet_but_full self.now.version self.now.plan self.now.history edge }
    {
        self.state.failing(edge)
    }

    /// The conditions that an edge fails, of the first of E1 to E5 that applies, in the order of
    /// its guard. There are none if `step` would accept the edge.
    pub fn failing(&self, edge: Edge) -> ArrayVec<Condition, 5>
        ensures { result.items ≡ unmet self.now edge }
    {
        let mut failed = ArrayVec::new();
        if self.lacks_room(edge) {
            failed.push(Condition::HasRoom);
            return failed;
        }
        self.failing_but_full(edge)
    }

    /// Makes the edge if the rules allow it, and returns what it delivers.
    ///
    /// A refusal is the first of E1 to E5 that applies, and leaves the bus as it was. No memory is
    /// asked for. `step_all` takes less time for many edges.
    pub fn step(&mut self, edge: Edge) -> Result<Option<Delivery>, Refused>
        ensures answer { result ≡ answer self.old edge }
        ensures accepted { is_ok result ≡ is_ok (verdict self.old edge) }
        ensures state { self.new ≡ after self.old edge }
        ensures sound { IsSound self.new }
    {
        self.laws();
        self.safety();
        if !edge.is_well_formed() {
            return Err(Refused::NoSuchDriver);
        }
        let mut kept = AnswerRecord::ACCEPTED;
        self.step_or_refuse(edge, &mut kept);
        self.laws();
        self.safety();
        kept.answer()
    }

    /// The number of the answer to an edge if the trace is full: the edge is refused.
    fn number_when_full(&self, edge: Edge) -> u8
        requires full { (length self.now.history == self.now.max) ≡ true }
        ensures { (d : DeliveryValue) → answer_in result d ≡ answer self.now edge }
    {
        match self.verdict(edge) {
            // Never: E5 is the last.
            Ok(()) => ACCEPTED,
            Err(refused) => refusal_number(refused),
        }
    }

    /// Makes a well-formed edge if the rules allow it, and keeps the answer. The trace has room.
    #[inline(always)]
    fn step_into(&mut self, edge: Edge, kept: &mut AnswerRecord)
        requires formed { is_well_formed edge ≡ true }
        requires room { (length self.old.history == self.old.max) ≡ false }
        ensures answer { answer_of kept.new ≡ answer self.old edge }
        ensures state { self.new ≡ after self.old edge }
        ensures few { length self.new.history ≤ length self.old.history + 1 }
        ensures max { self.new.max ≡ self.old.max }
    {
        self.laws();
        kept.number = self.state.step_formed(edge, &mut kept.delivery);
        if is_accepted(kept.number) {
            self.made += 1;
            self.past.note(edge);
        }
    }

    /// Steps through edges for which the trace has room, as `step_all` does.
    fn step_within(&mut self, edges: &[Edge], records: &mut [AnswerRecord])
        requires formed { AreWellFormed edges.now }
        requires fits { length self.old.history + length edges.now ≤ self.old.max }
        requires room { length edges.now ≤ length records.old }
        ensures answers { map answer_of (take (length edges.now) records.new)
            ≡ answers self.old edges.now }
        ensures room { length records.new ≡ length records.old }
        ensures state { self.new ≡ kept self.old edges.now }
    {
        let mut at = 0;
        for edge in edges {
            self.step_into(*edge, &mut records[at]);
            at += 1;
        }
    }

    /// Makes a well-formed edge if the rules allow it and the trace has room, and keeps the answer.
    fn step_or_refuse(&mut self, edge: Edge, kept: &mut AnswerRecord)
        requires formed { is_well_formed edge ≡ true }
        ensures answer { answer_of kept.new ≡ answer self.old edge }
        ensures state { self.new ≡ after self.old edge }
    {
        if self.is_full() {
            kept.number = self.number_when_full(edge);
            return;
        }
        self.laws();
        let mut one = [AnswerRecord::ACCEPTED; 1];
        self.step_within(&[edge], &mut one);
        *kept = one[0];
    }

    /// Steps through edges for which the trace may have no room, as `step_all` does.
    fn step_to_end(&mut self, edges: &[Edge], records: &mut [AnswerRecord])
        requires formed { AreWellFormed edges.now }
        requires room { length edges.now ≤ length records.old }
        ensures answers { map answer_of (take (length edges.now) records.new)
            ≡ answers self.old edges.now }
        ensures room { length records.new ≡ length records.old }
        ensures state { self.new ≡ kept self.old edges.now }
    {
        let mut at = 0;
        for edge in edges {
            self.step_or_refuse(*edge, &mut records[at]);
            at += 1;
        }
    }

    /// Whether the trace has room for this many more edges, even if all of them are accepted.
    fn has_room(&self, edges: usize) -> bool
        ensures { IsTrue result ↔ (length self.now.history + edges ≤ self.now.max) }
    {
        edges <= (self.max - self.made) as usize
    }

    /// Steps through all the edges, past those that are refused, and keeps the answers in the first
    /// records.
    ///
    /// The result is the same as that of a call of `step` with each edge in turn.
    pub fn step_all(&mut self, edges: &[Edge], records: &mut [AnswerRecord])
        requires formed { AreWellFormed edges.now }
        requires room { length edges.now ≤ length records.old }
        ensures answers { map answer_of (take (length edges.now) records.new)
            ≡ answers self.old edges.now }
        ensures room { length records.new ≡ length records.old }
        ensures state { self.new ≡ kept self.old edges.now }
        ensures sound { IsSound self.new }
    {
        if self.has_room(edges.len()) {
            self.step_within(edges, records);
        } else {
            self.step_to_end(edges, records);
        }
        self.laws();
        self.safety();
    }

    /// What holds of an edge that would be accepted.
    #[inline(always)]
    fn accepted(&self, edge: Edge)
        requires { verdict self.now edge ≡ Ok tt }
        ensures room { (length self.now.history == self.now.max) ≡ false }
        ensures allowed { verdict_but_full self.now.version self.now.plan self.now.history edge
            ≡ Ok tt }
    {
        let _edge = edge;
    }

    /// Makes an edge that would be accepted, as `verdict` says.
    #[inline(always)]
    pub fn make(&mut self, edge: Edge)
        requires { verdict self.old edge ≡ Ok tt }
        ensures { self.new ≡ made self.old edge }
    {
        self.laws();
        self.accepted(edge);
        self.state.note(edge);
        self.past.note(edge);
        self.made += 1;
    }

    /// Makes an edge that would be accepted, as `verdict` says, with an arm for each wire.
    #[inline(always)]
    pub(crate) fn make_by_wire(&mut self, edge: Edge)
        requires { verdict self.old edge ≡ Ok tt }
        ensures { self.new ≡ made self.old edge }
    {
        by_wire!(edge => self.make(edge))
    }

    /// Steps through all the edges, past those that are refused.
    pub fn run(&mut self, edges: &[Edge]) -> Counts
        ensures state { self.new ≡ kept self.old edges.now }
        ensures sound { IsSound self.new }
        ensures accepted { length self.old.history + result.accepted ≡ length self.new.history }
        ensures refused { result.accepted + result.refused ≡ length edges.now }
    {
        let mut counts = Counts {
            accepted: 0,
            refused: 0,
        };
        for edge in edges {
            match self.step(*edge) {
                Ok(_) => counts.accepted += 1,
                Err(_) => counts.refused += 1,
            }
        }
        self.laws();
        self.safety();
        counts
    }

    /// What a driver reads on its pins.
    pub fn pins(&self, driver: Driver) -> Pins
        ensures { result ≡ pins self.now.plan self.now.history driver }
    {
        self.state.pins(driver)
    }

    /// All edges that the driver can make: the edges of its wires that would be accepted, in the
    /// order of its wires. The address group can go on with each acknowledge, by level, and then
    /// with each access, by slot.
    ///
    /// Every edge is tried, whether or not a board would consider it.
    pub fn open_edges(&self, driver: Driver) -> ArrayVec<Edge, 36>
        ensures edges { result.items ≡ open_edges self.now driver }
        ensures all { IsAllThatIsAllowed self.now driver result.items }
    {
        if self.is_full() {
            ArrayVec::new()
        } else {
            open_edges_of(&self.state, driver)
        }
    }

    /// The version of its rules.
    pub fn version(&self) -> Version
        ensures { result ≡ self.now.version }
    {
        self.version
    }

    /// Its plan.
    pub fn plan(&self) -> &Plan
        ensures { result.now ≡ self.now.plan }
    {
        &self.plan
    }

    /// How many edges were made.
    pub fn len(&self) -> u32
        ensures { result ≡ length self.now.history }
    {
        self.made
    }

    /// Whether the trace is full, so that the bus takes no further edge.
    pub(crate) fn is_full(&self) -> bool
        ensures { result ≡ (length self.now.history == self.now.max) }
    {
        self.len() == self.max
    }
}
