//! What is left of the first trace.
ghost use Rattle.std.specs.Prelude.{◌≡◌, ◌≢◌, ◌⊎◌, ◌+◌, ◌-◌, ◌<◌, ◌++◌, ◌∷◌, [], IfErr, IfNone, IfSome, IsTrue, List, MatchOption, Ok, OnOk, Option, Some, drop, false, length, true};
ghost use Rattle.vme_model.specs.declared.signals.Version.{Version as VersionValue};
ghost use Rattle.vme_model.specs.Numbered.{Numbered, edges_in};
ghost use Rattle.vme_model.specs.Plan.{Plan as PlanValue};
ghost use Rattle.vme_model.specs.Signals.{is_well_formed};
ghost use Rattle.vme_model.specs.Verdict.{IsLegal, verdict_but_full};
ghost use Rattle.vme_bus.specs.States.{IsStateOf, OfHistory};
ghost use Rattle.vme_swaps.specs.Swaps.{IsFree};
ghost use Rattle.vme_swaps.specs.declared.stops.Stop.{Stop as StopValue};
ghost use Rattle.vme_swaps.specs.Stops.{is_formed};
ghost use Rattle.vme_swaps.specs.Stops.{Meets};
ghost use Rattle.vme_same.specs.declared.edges.Left.{Left as LeftValue};
ghost use Rattle.vme_same.specs.Comparing.{GoesBack, IsFirstOf, IsMissing};
ghost use Rattle.vme_same.specs.Formed.{is_formed_own};
ghost use Rattle.vme_same.specs.Kept.{IsAt, numbers};

use crate::edges::Left;
use std::alloc::Global;
use std::collections::VecDeque;
use vme_bus::BusState;
use vme_model::{Driver, Edge, Version};
use vme_swaps::Stop;
use vme_slots::Plan;
use vme_swaps::{StepBack, step_back};
use vme_trace::Fault;

/// What is left of the first trace, and the bus before it.
#[derive(Drop)]
pub(crate) struct Rest {
    /// The bus behind the edges that were taken.
    pub(crate) behind: BusState,
    /// The edges that are left, the newest first.
    pub(crate) edges: VecDeque<Left>,
}

/// Whether the two edges are the same.
pub(crate) fn is_same(edge: &Edge, other: &Edge) -> bool
    ensures same { result ≡ true → edge.now ≡ other.now }
    ensures apart { result ≡ false → edge.now ≢ other.now }
{
    edge.driver == other.driver
        && edge.wire == other.wire
        && edge.fall == other.fall
        && edge.value == other.value
}

/// Whether the edge is one of this driver.
pub(crate) fn is_of(edge: &Edge, driver: Driver) -> bool
    ensures same { result ≡ true → edge.now.driver ≡ driver }
    ensures apart { result ≡ false → edge.now.driver ≢ driver }
{
    edge.driver == driver
}

/// What stops an edge on its way back over these and one more, the newest of them. The state before
/// that one is left as it was.
fn go_over(state: &mut BusState, left: &Left, edge: &Edge, stop: Option<Stop>) -> Option<Stop>
    ensures back { OfHistory state.old (λ v p h. IsLegal v p (edge.now ∷ left.now.edge ∷ h)
        → (IsFree v p h left.now.edge edge.now × (result ≡ stop))
        ⊎ (¬ IsFree v p h left.now.edge edge.now × (met : StopValue) × (result ≡ Some met)
        × Meets v p edge.now left.now.number left.now.edge h met)) }
    ensures formed { IfSome stop (λ met. IsTrue (is_formed met))
        → IfSome result (λ met. IsTrue (is_formed met)) }
    ensures state { OfHistory state.old (λ v p h. IsStateOf v p h state.new) }
{
    let before = state.to_kind();
    let step = step_back(state, left.edge, *edge);
    state.set_kind(&before);
    match step {
        StepBack::Passes => stop,
        StepBack::Waits(refused) => Some(Stop::Waits {
            number: left.number,
            edge: left.edge,
            refused,
        }),
        StepBack::Races(outcome) => Some(Stop::Races {
            number: left.number,
            edge: left.edge,
            outcome,
        }),
    }
}

impl Rest {
    /// Before the first edge.
    pub(crate) fn new(alloc: Global, plan: &Plan, version: Version) -> Rest
        ensures edges { result.edges.items ≡ [] }
        ensures behind { IsStateOf version plan.now [] result.behind }
    {
        Rest {
            behind: BusState::new(plan, version),
            edges: VecDeque::new(alloc),
        }
    }

    /// The edge before which so many are left.
    fn at(&self, before: usize) -> &Left
        requires { before < length self.now.edges.items }
        ensures { drop (length self.now.edges.items - (before + 1)) self.now.edges.items
            ≡ result.now ∷ drop (length self.now.edges.items - before) self.now.edges.items }
    {
        &self.edges[self.edges.len() - 1 - before]
    }

    /// The first edge that is left. None if none is.
    pub(crate) fn front(&self) -> Option<&Left>
        ensures none { IfNone result (self.now.edges.items ≡ []) }
        ensures some { IfSome result (λ left.
            (behind : List LeftValue) × (self.now.edges.items ≡ behind ++ left.now ∷ [])) }
    {
        if self.edges.is_empty() {
            return None;
        }
        Some(self.at(0))
    }

    /// How many edges are left before the first that is this one. None if none is.
    pub(crate) fn find(&self, edge: &Edge) -> Option<usize>
        ensures { MatchOption result (IsMissing edge.now (numbers self.now.edges.items))
            (λ place. IsAt edge.now place self.now.edges.items) }
    {
        for place in 0..self.edges.len() {
            if is_same(&self.at(place).edge, edge) {
                return Some(place);
            }
        }
        None
    }

    /// The first edge of this driver that is left, with its number in the trace. None if none is.
    pub(crate) fn first_of(&self, driver: Driver) -> Option<(u64, Edge)>
        ensures first { IsFirstOf driver (numbers self.now.edges.items) result }
        ensures formed { IsTrue (is_formed_own result) }
    {
        for before in 0..self.edges.len() {
            let left = self.at(before);
            if is_of(&left.edge, driver) {
                return Some((left.number, left.edge));
            }
        }
        None
    }

    /// What stops the edge that is found at this place on its way to the front. None if nothing
    /// does.
    pub(crate) fn walk(&self, edge: &Edge, place: usize) -> Option<Stop>
        requires { place < length self.now.edges.items }
        ensures back { (v : VersionValue) (p : PlanValue) (taken : Numbered)
            (at : IsAt edge.now place self.now.edges.items)
            → IsStateOf v p (edges_in taken) self.now.behind
            → IsLegal v p (edges_in (numbers self.now.edges.items ++ taken))
            → GoesBack v p edge.now taken (numbers at.before) result }
        ensures formed { IfSome result (λ met. IsTrue (is_formed met)) }
    {
        // The most edges are at the front, and for them the state need not be copied.
        if place == 0 {
            return None;
        }
        let mut state = self.behind;
        let mut stop = None;
        for before in 0..place {
            let left = self.at(before);
            stop = go_over(&mut state, left, edge, stop);
            state.note(left.edge);
        }
        stop
    }

    /// Takes the edge out that is found at this place, which can come to the front.
    pub(crate) fn take(&mut self, edge: &Edge, place: usize)
        requires { place < length self.old.edges.items }
        ensures edges { (at : IsAt edge.now place self.old.edges.items)
            → self.new.edges.items ≡ at.behind ++ at.before }
        ensures state { OfHistory self.old.behind (λ v p h. verdict_but_full v p h edge.now ≡ Ok tt
            → IsStateOf v p (edge.now ∷ h) self.new.behind) }
    {
        let _ = self.edges.remove(self.edges.len() - 1 - place);
        self.behind.note(*edge);
    }

    /// Takes in the next edge of the trace.
    ///
    /// # Errors
    /// X6.
    pub(crate) fn push(&mut self, number: u64, edge: &Edge) -> Result<(), Fault>
        requires { is_well_formed edge.now ≡ true }
        ensures edges { OnOk result
            (numbers self.new.edges.items ≡ (number, edge.now) ∷ numbers self.old.edges.items) }
        ensures state { self.new.behind ≡ self.old.behind }
        ensures fault { IfErr result (λ fault. fault ≡ Fault.Memory) }
    {
        match self.edges.push_front(Left {
            number,
            edge: *edge,
        }) {
            Ok(()) => Ok(()),
            Err(_) => Err(Fault::Memory),
        }
    }
}
