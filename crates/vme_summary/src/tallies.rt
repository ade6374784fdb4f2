//! The tally of a trace, moved at each edge.
ghost use Rattle.std.specs.Prelude.{◌≡◌, ◌+◌, ◌<◌, ◌^◌, ◌∷◌, [], IsTrue, length, set, slice_index_or};
ghost use Rattle.vme_model.specs.Signals.{is_well_formed};
ghost use Rattle.vme_model.specs.Verdict.{State};
ghost use Rattle.vme_events.specs.Events.{events_of};
ghost use Rattle.vme_summary.specs.Tally.{answered_edge, accepted, refused, passed_by, refused_for, times_met, first_met, board_tally};
ghost use Rattle.vme_summary.specs.Tallied.{IsNamed, boards_after, met_after, more, rule_number};

use crate::boards::{BoardTally, SLOTS};
use crate::counts::count;
use crate::met::Met;
use crate::refusals::Refusals;
use crate::rules::{RULES, rule_of};
use vme_goals::Event;
use vme_model::{Delivery, Driver, Edge, Refused};

/// What the edges of a trace came to: how many each rule let pass or refused, which situations
/// came, and what each board did.
///
/// It stands in places of fixed number, and an edge moves a few of them.
#[derive(Drop)]
pub struct Tally {
    pub(crate) edges: u64,
    pub(crate) accepted: u64,
    pub(crate) passed: [u64; RULES],
    pub(crate) refusals: Refusals,
    pub(crate) met: Met,
    pub(crate) boards: [BoardTally; SLOTS],
}

impl Tally {
    ghost use Rattle.vme_summary.specs.Tallied.{IsTallyOf, OfTally};

    /// That of a trace before its first edge.
    pub fn new() -> Tally
        ensures { IsTallyOf [] result }
    {
        Tally {
            edges: 0,
            accepted: 0,
            passed: [0; RULES],
            refusals: Refusals::new(),
            met: Met::new(),
            boards: [BoardTally::idle(); SLOTS],
        }
    }

    /// Takes in an accepted edge, the n-th of the trace, and whether it delivered a status byte.
    fn accept(&mut self, edge: &Edge, delivers: bool, events: &[Event])
        requires { IsTrue (is_well_formed edge.now) }
        ensures { self.new ≡ record self.old {
          accepted = more self.old.accepted 1;
          passed = set self.old.passed (rule_number edge.now.wire edge.now.fall)
              (more (slice_index_or self.old.passed (rule_number edge.now.wire edge.now.fall) 0) 1);
          met = met_after self.old.edges self.old.met events.now;
          boards = boards_after self.old.boards edge.now.driver edge.now self.old.edges delivers;
        } }
    {
        self.accepted = self.accepted.saturating_add(1);
        count(&mut self.passed, rule_of(edge.wire, edge.fall));
        self.met.note(events, self.edges);
        if let Driver::Slot(slot) = edge.driver {
            self.boards[usize::from(slot)].note(edge.wire, edge.fall, self.edges, delivers);
        }
    }

    /// Takes in the next edge of the trace, with the answer to it and the situations that it brings
    /// about if it is accepted. A count stays at 2^64 - 1.
    pub fn note(
        &mut self,
        edge: &Edge,
        answer: &Result<Option<Delivery>, Refused>,
        events: &[Event],
    )
        requires { IsTrue (is_well_formed edge.now) }
        ensures { OfTally self.old (λ t. (b : State) → length t + 1 < 2 ^ 64
            → answer.now ≡ (answered_edge b edge.now).answer
            → events.now ≡ events_of b.plan b.history edge.now
            → IsTallyOf (answered_edge b edge.now ∷ t) self.new) }
    {
        self.edges = self.edges.saturating_add(1);
        match answer {
            Ok(delivery) => self.accept(edge, delivery.is_some(), events),
            Err(refused) => self.refusals.note(*refused),
        }
    }

    /// How many edges there are.
    pub(crate) fn edges(&self) -> u64
        ensures { OfTally self.now (λ t. result ≡ length t) }
    {
        self.edges
    }

    /// How many were accepted.
    pub(crate) fn accepted(&self) -> u64
        ensures { OfTally self.now (λ t. result ≡ accepted t) }
    {
        self.accepted
    }

    /// How many edges were refused.
    pub fn refused(&self) -> u64
        ensures { OfTally self.now (λ t. result ≡ refused t) }
    {
        self.edges.saturating_sub(self.accepted)
    }

    /// How many edges a rule let pass, G1 to G26.
    pub(crate) fn passed_by(&self, rule: u8) -> u64
        requires { rule < 27 }
        ensures { OfTally self.now (λ t. result ≡ passed_by rule t) }
    {
        self.passed[usize::from(rule)]
    }

    /// How many edges were refused so.
    pub(crate) fn refused_for(&self, refused: Refused) -> u64
        requires { IsNamed refused }
        ensures { OfTally self.now (λ t. result ≡ refused_for refused t) }
    {
        self.refusals.how_often(refused)
    }

    /// How many accepted edges brought the situation about.
    pub(crate) fn times_met(&self, event: Event) -> u64
        ensures { OfTally self.now (λ t. result ≡ times_met event t) }
    {
        self.met.times(event)
    }

    /// The first of them.
    pub(crate) fn first_met(&self, event: Event) -> Option<u64>
        ensures { OfTally self.now (λ t. result ≡ first_met event t) }
    {
        self.met.first(event)
    }

    /// What the board of a slot below 22 did.
    pub(crate) fn board(&self, slot: u8) -> BoardTally
        requires { slot < 22 }
        ensures { OfTally self.now (λ t. result ≡ board_tally slot t) }
    {
        self.boards[usize::from(slot)]
    }
}
