//! The edges of two traces without a refused edge, matched one by one.
ghost use Rattle.std.specs.Prelude.{◌≡◌, ◌+◌, ◌<◌, ◌≤◌, ◌^◌, ◌++◌, ◌∷◌, ◌&&◌, [], IfErr, IsTrue, List, OnOk, false, length, nat_le, not, true, ℕ};
ghost use Rattle.vme_model.specs.declared.signals.Edge.{Edge as EdgeValue};
ghost use Rattle.vme_model.specs.declared.signals.Version.{Version as VersionValue};
ghost use Rattle.vme_model.specs.Numbered.{Numbered, edges_in};
ghost use Rattle.vme_model.specs.Plan.{Plan as PlanValue};
ghost use Rattle.vme_model.specs.Signals.{is_well_formed};
ghost use Rattle.vme_model.specs.Verdict.{IsLegal};
ghost use Rattle.vme_swaps.specs.Stops.{most_passed};
ghost use Rattle.vme_same.specs.Comparing.{IsFirstOf, IsMissing, IsOutcome};
ghost use Rattle.vme_same.specs.Formed.{is_formed_found, is_formed_progress, is_formed_sought};
ghost use Rattle.vme_same.specs.Kept.{Goes, IsAmple, IsAt, IsGoing, IsIdle, IsOpen, Leads, OfGoing, edges_of};

use crate::comparisons::{Comparison, Why};
use crate::edges::Next;
use crate::progress::{Pairing, Progress, Sought};
use crate::rest::{Rest, is_same};
use std::alloc::Global;
use std::collections::VecDeque;
use vme_model::{Edge, Version};
use vme_swaps::Stop;
use vme_slots::Plan;
use vme_trace::Fault;

/// How many edges one passes at most.
const MOST_PASSED: usize = 200;

/// What is known of traces of these versions before their edges.
fn begin(first: Version, second: Version) -> Progress
    ensures same { first ≡ second → result ≡ Progress.Open }
    ensures other { ¬ (first ≡ second) → result ≡ Progress.Finds Comparison.OtherVersion }
{
    if first == second {
        Progress::Open
    } else {
        Progress::Finds(Comparison::OtherVersion)
    }
}

impl Pairing {
    /// Before the first edge of either trace.
    pub(crate) fn new(alloc: Global, plan: &Plan, first: Version, second: Version) -> Pairing
        ensures going { IsGoing plan.now first second [] [] result }
        ensures idle { IsIdle result }
        ensures ended { result.has_ended ≡ false }
        ensures over { result.is_over ≡ false }
    {
        Pairing {
            has_ended: false,
            is_over: false,
            rest: Rest::new(alloc, plan, first),
            waiting: VecDeque::new(alloc),
            taken: 0,
            progress: begin(first, second),
        }
    }

    /// Whether the first trace goes on, and at most 200 edges of it are left.
    pub(crate) fn wants_first(&self) -> bool
        ensures { result ≡ (not self.now.has_ended
            && nat_le (length self.now.rest.edges.items) most_passed) }
    {
        !self.has_ended && self.rest.edges.len() <= MOST_PASSED
    }

    /// Takes the edge that is found at this place if it comes to the front, as the edge of this
    /// number in the second trace.
    fn bring(&mut self, number: u64, edge: &Edge, place: usize) -> Progress
        requires place { place < length self.old.rest.edges.items }
        requires formed { is_well_formed edge.now ≡ true }
        ensures going { (p : PlanValue) (v w : VersionValue) (k : Numbered) (fs : List EdgeValue)
            (at : IsAt edge.now place self.old.rest.edges.items)
            → IsOpen p v w k fs (edge.now ∷ edges_of self.old.waiting.items) self.old.rest
            self.old.taken
            → number ≡ self.old.taken + 1 → place ≤ most_passed
            → Goes p v w k fs self.new result }
        ensures formed { is_formed_progress result ≡ true }
        ensures ended { self.new.has_ended ≡ self.old.has_ended }
        ensures over { self.new.is_over ≡ self.old.is_over }
        ensures waiting { self.new.waiting ≡ self.old.waiting }
    {
        match self.rest.walk(edge, place) {
            Some(stop) => Progress::Finds(Comparison::Differs {
                number,
                edge: *edge,
                why: Why::Stops(stop),
                own: self.rest.first_of(edge.driver),
            }),
            None => {
                self.rest.take(edge, place);
                self.taken = number;
                Progress::Open
            }
        }
    }

    /// What comes of an edge of the second trace that is none of those that are left.
    fn miss(&self, sought: &Sought) -> Progress
        requires { is_formed_sought sought.now ≡ true }
        ensures going { (p : PlanValue) (v w : VersionValue) (k : Numbered) (fs : List EdgeValue)
            (taken left : Numbered) (n : ℕ) (next : List EdgeValue) → sought.now.number ≡ n + 1
            → IsMissing sought.now.edge left
            → IsFirstOf sought.now.edge.driver left sought.now.own
            → Leads p v w k fs taken left n (sought.now.edge ∷ next)
            → (self.now.has_ended ≡ false → most_passed < length left)
            → Goes p v w k fs self.now result }
        ensures formed { is_formed_progress result ≡ true }
    {
        if self.has_ended {
            Progress::Finds(Comparison::Differs {
                number: sought.number,
                edge: sought.edge,
                why: Why::Missing,
                own: sought.own,
            })
        } else {
            Progress::Seeks(*sought)
        }
    }

    /// What comes of the next edge of the second trace.
    fn look_for(&mut self, edge: &Edge) -> Progress
        requires { is_well_formed edge.now ≡ true }
        ensures going { (p : PlanValue) (v w : VersionValue) (k : Numbered) (fs : List EdgeValue)
            → IsOpen p v w k fs (edge.now ∷ edges_of self.old.waiting.items) self.old.rest
            self.old.taken
            → IsAmple self.old → Goes p v w k fs self.new result }
        ensures formed { is_formed_progress result ≡ true }
        ensures ended { self.new.has_ended ≡ self.old.has_ended }
        ensures over { self.new.is_over ≡ self.old.is_over }
        ensures waiting { self.new.waiting ≡ self.old.waiting }
    {
        let number = self.taken.saturating_add(1);
        match self.rest.find(edge) {
            None => self.miss(&Sought {
                number,
                edge: *edge,
                own: self.rest.first_of(edge.driver),
            }),
            Some(place) => {
                if place > MOST_PASSED {
                    return Progress::Finds(Comparison::Differs {
                        number,
                        edge: *edge,
                        why: Why::Stops(Stop::Far),
                        own: self.rest.first_of(edge.driver),
                    });
                }
                self.bring(number, edge, place)
            }
        }
    }

    /// Whether the next edge of the second trace can be looked for.
    fn can_look(&self) -> bool
        ensures open { IsTrue result → self.now.progress ≡ Progress.Open }
        ensures some { IsTrue result → 0 < length self.now.waiting.items }
        ensures ample { IsTrue result → IsAmple self.now }
        ensures idle { result ≡ false → IsIdle self.now }
    {
        match self.progress {
            Progress::Open => !self.waiting.is_empty() && !self.wants_first(),
            Progress::Seeks(_) | Progress::Finds(_) => false,
        }
    }

    /// Looks for the next edge of the second trace.
    fn look(&mut self)
        requires open { self.old.progress ≡ Progress.Open }
        requires ample { IsAmple self.old }
        ensures going { OfGoing self.old (λ p v w k fs. IsGoing p v w k fs self.new) }
        ensures fewer { 0 < length self.old.waiting.items
            → length self.new.waiting.items < length self.old.waiting.items }
        ensures ended { self.new.has_ended ≡ self.old.has_ended }
        ensures over { self.new.is_over ≡ self.old.is_over }
    {
        if let Some(next) = self.waiting.pop_front() {
            self.progress = self.look_for(&next.edge);
        }
    }

    /// Looks for edges of the second trace, as far as it can.
    fn look_on(&mut self)
        ensures going { OfGoing self.old (λ p v w k fs. IsGoing p v w k fs self.new) }
        ensures idle { IsIdle self.new }
        ensures ended { self.new.has_ended ≡ self.old.has_ended }
        ensures over { self.new.is_over ≡ self.old.is_over }
    {
        'looks: while self.can_look() {
            self.look();
        }
    }

    /// If the second trace has ended, and all its edges came to the front, an edge that is left
    /// stays so.
    fn close(&mut self)
        ensures going { OfGoing self.old (λ p v w k fs. IsGoing p v w k fs self.new) }
        ensures idle { IsIdle self.old → IsIdle self.new }
        ensures ended { self.new.has_ended ≡ self.old.has_ended }
        ensures over { self.new.is_over ≡ self.old.is_over }
    {
        if !self.is_over || !self.waiting.is_empty() {
            return;
        }
        match self.progress {
            Progress::Open => {
                if let Some(left) = self.rest.front() {
                    self.progress = Progress::Finds(left.leaves());
                }
            }
            Progress::Seeks(_) | Progress::Finds(_) => {}
        }
    }

    /// Goes on as far as it can.
    pub(crate) fn advance(&mut self)
        ensures going { OfGoing self.old (λ p v w k fs. IsGoing p v w k fs self.new) }
        ensures idle { IsIdle self.new }
        ensures ended { self.new.has_ended ≡ self.old.has_ended }
        ensures over { self.new.is_over ≡ self.old.is_over }
    {
        self.look_on();
        self.close();
    }

    /// What comes of an edge of the first trace while an edge of the second one is looked for.
    fn seek(&self, number: u64, edge: &Edge, sought: &Sought) -> Progress
        requires formed { is_well_formed edge.now ≡ true }
        requires sought { is_formed_sought sought.now ≡ true }
        ensures going { (p : PlanValue) (v w : VersionValue) (k : Numbered) (fs : List EdgeValue)
            → Goes p v w k fs self.now (Progress.Seeks sought.now)
            → Goes p v w ((number, edge.now) ∷ k) fs self.now result }
        ensures formed { is_formed_progress result ≡ true }
    {
        let own = sought.own_with(number, edge);
        if is_same(edge, &sought.edge) {
            Progress::Finds(Comparison::Differs {
                number: sought.number,
                edge: sought.edge,
                why: Why::Stops(Stop::Far),
                own,
            })
        } else {
            Progress::Seeks(Sought {
                number: sought.number,
                edge: sought.edge,
                own,
            })
        }
    }

    /// Takes in the next edge of the first trace.
    ///
    /// # Errors
    /// X6.
    pub(crate) fn take_first(&mut self, number: u64, edge: &Edge) -> Result<(), Fault>
        requires { is_well_formed edge.now ≡ true }
        ensures going { OnOk result (OfGoing self.old (λ p v w k fs. self.old.has_ended ≡ false
            → IsLegal v p (edge.now ∷ edges_in k)
            → IsGoing p v w ((number, edge.now) ∷ k) fs self.new)) }
        ensures ended { self.new.has_ended ≡ self.old.has_ended }
        ensures over { self.new.is_over ≡ self.old.is_over }
        ensures fault { IfErr result (λ fault. fault ≡ Fault.Memory) }
    {
        match self.progress {
            Progress::Open => self.rest.push(number, edge),
            Progress::Seeks(sought) => {
                self.progress = self.seek(number, edge, &sought);
                Ok(())
            }
            Progress::Finds(_) => Ok(()),
        }
    }

    /// Takes in the next edge of the second trace.
    ///
    /// # Errors
    /// X6.
    pub(crate) fn take_second(&mut self, edge: &Edge) -> Result<(), Fault>
        requires { is_well_formed edge.now ≡ true }
        ensures going { OnOk result (OfGoing self.old (λ p v w k fs. self.old.is_over ≡ false
            → length fs + 1 < 2 ^ 64 → IsGoing p v w k (fs ++ edge.now ∷ []) self.new)) }
        ensures ended { self.new.has_ended ≡ self.old.has_ended }
        ensures over { self.new.is_over ≡ self.old.is_over }
        ensures fault { IfErr result (λ fault. fault ≡ Fault.Memory) }
    {
        match self.progress {
            Progress::Open => match self.waiting.push_back(Next { edge: *edge }) {
                Ok(()) => Ok(()),
                Err(_) => Err(Fault::Memory),
            },
            Progress::Seeks(_) => Ok(()),
            Progress::Finds(_) => Ok(()),
        }
    }

    /// Learns that the first trace has ended.
    pub(crate) fn end_first(&mut self)
        ensures going { OfGoing self.old (λ p v w k fs. IsGoing p v w k fs self.new) }
        ensures ended { self.new.has_ended ≡ true }
        ensures over { self.new.is_over ≡ self.old.is_over }
    {
        self.has_ended = true;
        match self.progress {
            Progress::Seeks(sought) => self.progress = self.miss(&sought),
            Progress::Open | Progress::Finds(_) => {}
        }
    }

    /// Learns that the second trace has ended.
    pub(crate) fn end_second(&mut self)
        ensures going { OfGoing self.old (λ p v w k fs. IsGoing p v w k fs self.new) }
        ensures ended { self.new.has_ended ≡ self.old.has_ended }
        ensures over { self.new.is_over ≡ true }
    {
        self.is_over = true;
    }

    /// What is found of two traces that have ended.
    pub(crate) fn found(&self) -> Comparison
        ensures found { OfGoing self.now (λ p v w k fs. IsIdle self.now
            → self.now.has_ended ≡ true → self.now.is_over ≡ true → IsOutcome p v w k fs result) }
        ensures formed { IsTrue (is_formed_found result) }
    {
        match self.progress {
            Progress::Finds(found) => found,
            // Never: the first trace has ended.
            Progress::Seeks(sought) => Comparison::Differs {
                number: sought.number,
                edge: sought.edge,
                why: Why::Missing,
                own: sought.own,
            },
            Progress::Open => match self.rest.front() {
                None => Comparison::Same { edges: self.taken },
                Some(left) => left.leaves(),
            },
        }
    }
}
