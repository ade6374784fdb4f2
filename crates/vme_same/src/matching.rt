//! Two traces that are matched.
ghost use Rattle.std.specs.Prelude.{◌≡◌, ◌+◌, ◌<◌, ◌^◌, ◌++◌, ◌∷◌, ◌||◌, [], Bool, IfErr, IsTrue, List, OnOk, false, is_some, length, true};
ghost use Rattle.vme_model.specs.declared.signals.Edge.{Edge as EdgeValue};
ghost use Rattle.vme_model.specs.declared.signals.Version.{Version as VersionValue};
ghost use Rattle.vme_model.specs.Locality.{AreWellFormed};
ghost use Rattle.vme_model.specs.Plan.{Plan as PlanValue};
ghost use Rattle.vme_model.specs.Signals.{is_well_formed};
ghost use Rattle.vme_same.specs.Comparing.{IsComparison};
ghost use Rattle.vme_same.specs.Formed.{is_formed_found};
ghost use Rattle.vme_same.specs.Kept.{Runs, Stands, lacks_first};

use crate::comparisons::Comparison;
use crate::progress::Pairing;
use crate::sides::Side;
use std::alloc::Global;
use vme_model::{Edge, Version};
use vme_slots::Plan;
use vme_trace::Fault;

/// Two traces that are matched: which of their edges are one another's, and what differs.
///
/// The edges of both come in pieces, in any order of pieces. It keeps the edges of the first trace
/// that are left, and those of the second one that wait for more of the first.
#[derive(Drop)]
pub(crate) struct Matching {
    pub(crate) first: Side,
    pub(crate) second: Side,
    pub(crate) pairing: Pairing,
}

impl Matching {
    /// Before the first edge of either trace, on the plan of both.
    pub(crate) fn new(alloc: Global, plan: &Plan, first: Version, second: Version) -> Matching
        ensures { Stands plan.now first second [] false [] false result }
    {
        Matching {
            first: Side::new(plan, first),
            second: Side::new(plan, second),
            pairing: Pairing::new(alloc, plan, first, second),
        }
    }

    /// Whether the next edges to take are those of the first trace: it goes on, and at most 200 of
    /// its edges are left.
    pub(crate) fn lacks_first(&self) -> bool
        ensures { result ≡ lacks_first self.now }
    {
        self.pairing.wants_first()
    }

    /// Whether an edge was refused.
    fn has_refusal(&self) -> bool
        ensures { result ≡ (is_some self.now.first.refusal || is_some self.now.second.refusal) }
    {
        self.first.refusal.is_some() || self.second.refusal.is_some()
    }

    /// Takes in the next edge of the first trace.
    ///
    /// # Errors
    /// X6.
    fn take_of_first(&mut self, edge: &Edge) -> Result<(), Fault>
        requires count { self.old.first.judged + 1 < 2 ^ 64 }
        requires formed { is_well_formed edge.now ≡ true }
        ensures judged { self.new.first.judged ≡ self.old.first.judged + 1 }
        ensures second { self.new.second ≡ self.old.second }
        ensures runs { OnOk result ((p : PlanValue) (v w : VersionValue) (es : List EdgeValue)
            (fs : List EdgeValue) (over : Bool) → Runs p v w es false fs over self.old
            → Runs p v w (es ++ edge.now ∷ []) false fs over self.new) }
        ensures fault { IfErr result (λ fault. fault ≡ Fault.Memory) }
    {
        self.first.take(*edge);
        if self.has_refusal() {
            return Ok(());
        }
        self.pairing.take_first(self.first.judged, edge)
    }

    /// Takes in the next edge of the second trace.
    ///
    /// # Errors
    /// X6.
    fn take_of_second(&mut self, edge: &Edge) -> Result<(), Fault>
        requires count { self.old.second.judged + 1 < 2 ^ 64 }
        requires formed { is_well_formed edge.now ≡ true }
        ensures judged { self.new.second.judged ≡ self.old.second.judged + 1 }
        ensures first { self.new.first ≡ self.old.first }
        ensures runs { OnOk result ((p : PlanValue) (v w : VersionValue) (es : List EdgeValue)
            (ended : Bool) (fs : List EdgeValue) → Runs p v w es ended fs false self.old
            → Runs p v w es ended (fs ++ edge.now ∷ []) false self.new) }
        ensures fault { IfErr result (λ fault. fault ≡ Fault.Memory) }
    {
        self.second.take(*edge);
        if self.has_refusal() {
            return Ok(());
        }
        self.pairing.take_second(edge)
    }

    /// Takes in the next edges of the first trace.
    ///
    /// # Errors
    /// X6.
    pub(crate) fn add_to_first(&mut self, edges: &[Edge]) -> Result<(), Fault>
        requires count { self.old.first.judged + length edges.now < 2 ^ 64 }
        requires formed { AreWellFormed edges.now }
        ensures judged { OnOk result
            (self.new.first.judged ≡ self.old.first.judged + length edges.now) }
        ensures second { OnOk result (self.new.second ≡ self.old.second) }
        ensures stands { OnOk result ((p : PlanValue) (v w : VersionValue) (es : List EdgeValue)
            (fs : List EdgeValue) (over : Bool) → Stands p v w es false fs over self.old
            → Stands p v w (es ++ edges.now) false fs over self.new) }
        ensures fault { IfErr result (λ fault. fault ≡ Fault.Memory) }
    {
        for edge in edges {
            self.take_of_first(edge)?;
        }
        self.pairing.advance();
        Ok(())
    }

    /// Takes in the next edges of the second trace.
    ///
    /// # Errors
    /// X6.
    pub(crate) fn add_to_second(&mut self, edges: &[Edge]) -> Result<(), Fault>
        requires count { self.old.second.judged + length edges.now < 2 ^ 64 }
        requires formed { AreWellFormed edges.now }
        ensures judged { OnOk result
            (self.new.second.judged ≡ self.old.second.judged + length edges.now) }
        ensures first { OnOk result (self.new.first ≡ self.old.first) }
        ensures stands { OnOk result ((p : PlanValue) (v w : VersionValue) (es : List EdgeValue)
            (ended : Bool) (fs : List EdgeValue) → Stands p v w es ended fs false self.old
            → Stands p v w es ended (fs ++ edges.now) false self.new) }
        ensures fault { IfErr result (λ fault. fault ≡ Fault.Memory) }
    {
        for edge in edges {
            self.take_of_second(edge)?;
        }
        self.pairing.advance();
        Ok(())
    }

    /// Learns that the first trace has ended.
    pub(crate) fn close_first(&mut self)
        ensures stands { (p : PlanValue) (v w : VersionValue) (es : List EdgeValue)
            (fs : List EdgeValue) (over : Bool) → Stands p v w es false fs over self.old
            → Stands p v w es true fs over self.new }
        ensures first { self.new.first ≡ self.old.first }
        ensures second { self.new.second ≡ self.old.second }
    {
        self.pairing.end_first();
        self.pairing.advance();
    }

    /// Learns that the second trace has ended.
    pub(crate) fn close_second(&mut self)
        ensures stands { (p : PlanValue) (v w : VersionValue) (es : List EdgeValue)
            (ended : Bool) (fs : List EdgeValue) → Stands p v w es ended fs false self.old
            → Stands p v w es ended fs true self.new }
        ensures first { self.new.first ≡ self.old.first }
        ensures second { self.new.second ≡ self.old.second }
    {
        self.pairing.end_second();
        self.pairing.advance();
    }

    /// What is found of the two traces, which have ended.
    pub(crate) fn outcome(&self) -> Comparison
        ensures found { (p : PlanValue) (v w : VersionValue) (es : List EdgeValue)
            (fs : List EdgeValue) → Stands p v w es true fs true self.now
            → IsComparison p v w es fs result }
        ensures formed { IsTrue (is_formed_found result) }
    {
        match (self.first.refusal, self.second.refusal) {
            (Some((number, refused)), _) => Comparison::Refuses {
                in_first: true,
                number,
                refused,
            },
            (None, Some((number, refused))) => Comparison::Refuses {
                in_first: false,
                number,
                refused,
            },
            (None, None) => self.pairing.found(),
        }
    }
}
