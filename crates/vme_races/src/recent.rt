//! The last accepted edges of a trace, and how far the next one goes back through them.
ghost use Rattle.std.specs.Prelude.{◌≡◌, ◌∷◌, [], IfErr, IsTrue, OnOk, if◌then◌else◌};
ghost use Rattle.vme_model.specs.declared.signals.Version.{Version};
ghost use Rattle.vme_model.specs.Plan.{Plan};
ghost use Rattle.vme_model.specs.Numbered.{edges_in};
ghost use Rattle.vme_model.specs.Verdict.{IsLegal};
ghost use Rattle.vme_races.specs.Walks.{IsWalk};
ghost use Rattle.vme_swaps.specs.Stops.{is_formed};
ghost use Rattle.vme_races.specs.Kept.{AreLast, IsReady, OfLast};
ghost use Rattle.vme_races.specs.Kinds.{IsKindOf, IsOnPlan};

use crate::earlier::Earlier;
use crate::walks::Walk;
use std::alloc::Global;
use std::collections::VecDeque;
use vme_bus::BusState;
use vme_model::Edge;
use vme_swaps::Stop;
use vme_trace::Fault;

/// How many edges one passes at most.
const MOST_PASSED: usize = 200;

/// The last accepted edges, the newest first: at most [`MOST_PASSED`].
#[derive(Drop)]
pub(crate) struct Recent {
    pub(crate) edges: VecDeque<Earlier>,
    /// Whether there are more before them.
    pub(crate) has_more: bool,
}

impl Recent {
    /// Before the first edge.
    pub(crate) fn new(alloc: Global) -> Recent
        ensures { (v : Version) (p : Plan) → AreLast v p [] result }
    {
        Recent {
            edges: VecDeque::new(alloc),
            has_more: false,
        }
    }

    /// What stops an edge that has passed all of them.
    fn end(&self) -> Stop
        ensures { result ≡ (if self.now.has_more then Stop.Far else Stop.Begins) }
    {
        if self.has_more {
            Stop::Far
        } else {
            Stop::Begins
        }
    }

    /// How far back the next edge goes, if it is accepted. The state is one of the plan, which is
    /// set to that before each edge on the way.
    pub(crate) fn walk(&self, state: &mut BusState, edge: &Edge) -> Walk
        ensures walk { OfLast self.now (λ v p k. IsOnPlan v p state.old
            → IsLegal v p (edge.now ∷ edges_in k) → IsWalk v p edge.now k result) }
        ensures plan { OfLast self.now (λ v p k. IsOnPlan v p state.old
            → IsLegal v p (edge.now ∷ edges_in k) → IsOnPlan v p state.new) }
        ensures formed { IsTrue (is_formed result.stop) }
    {
        let mut since = None;
        for place in 0..self.edges.len() {
            let earlier = &self.edges[place];
            if let Some(stop) = earlier.stop(state, edge) {
                return Walk {
                    passed: place,
                    since,
                    stop,
                };
            }
            since = Some(earlier.number);
        }
        let stop = self.end();
        Walk {
            passed: self.edges.len(),
            since,
            stop,
        }
    }

    /// Lets the oldest edge go if there is no place for one more.
    fn make_room(&mut self)
        ensures { OfLast self.old (λ v p k. IsReady v p k self.new) }
    {
        if self.edges.len() < MOST_PASSED {
            return;
        }
        self.has_more = true;
        let _ = self.edges.pop_back();
    }

    /// Takes in the next accepted edge.
    ///
    /// # Errors
    /// X6.
    pub(crate) fn push(&mut self, earlier: Earlier) -> Result<(), Fault>
        ensures last { OnOk result (OfLast self.old (λ v p k.
            IsKindOf v p (edges_in k) earlier.before
            → AreLast v p ((earlier.number, earlier.edge) ∷ k) self.new)) }
        ensures fault { IfErr result (λ fault. fault ≡ Fault.Memory) }
    {
        self.make_room();
        match self.edges.push_front(earlier) {
            Ok(()) => Ok(()),
            Err(_) => Err(Fault::Memory),
        }
    }
}
