//! A walk, whose next edge is drawn.
ghost use Rattle.std.specs.Prelude.{◌≡◌, IfSome, Ok, slice_get};
ghost use Rattle.vme_model.specs.Report.{at_power_up};
ghost use Rattle.vme_model.specs.Verdict.{verdict};
ghost use Rattle.vme_draws.specs.Kinds.{of_kind};
ghost use Rattle.vme_draws.specs.Walks.{at_start, chosen, drawn, next_edge, walked, with_edge};

use crate::chances::Chances;
use crate::kinds::Kind;
use crate::numbers::scaled;
use crate::opens::{OPEN_EDGES, all_open};
use crate::tallies::Tally;
use crate::weights::Weights;
use arrayvec::ArrayVec;
use rand_core::utils::NextWord;
use rand_pcg::Pcg32;
use std::marker::Model;
use vme_backplane::{Backplane, Trace};
use vme_model::{Edge, Version};
use vme_slots::Plan;

/// A walk: a backplane whose next edge is drawn among all that the rules allow, by the numbers of a
/// seed.
///
/// First a kind of edge is drawn, by the kinds' weights and how many of each were made, and then one
/// of its open edges.
#[derive(Drop)]
pub struct Walk<'r> {
    seed: u64,
    backplane: Backplane<'r>,
    numbers: Pcg32,
    weights: Weights,
    made: Tally,
    /// Room for the open edges, of whatever state they are.
    open: ArrayVec<Edge, OPEN_EDGES>,
}

impl<'r> Model for Walk<'r> {
    ghost use Rattle.std.specs.Prelude.{◌≡◌, slice_index};
    ghost use Rattle.vme_draws.specs.declared.kinds.Kind.{Kind as KindOf};
    ghost use Rattle.vme_draws.specs.Kinds.{number};
    ghost use Rattle.vme_draws.specs.Numbers.{generator};
    ghost use Rattle.vme_draws.specs.Choices.{weight};
    ghost use Rattle.vme_draws.specs.Tallies.{AreCounts};
    ghost use Rattle.vme_draws.specs.Walks.{Walk as WalkValue};

    ghost Value = { WalkValue };

    ghost view = { λ w. record { seed = w.seed; state = w.backplane; numbers = w.numbers } };

    ghost invariant = { λ w.
        ((k : KindOf) → slice_index w.weights.by_kind (number k) ≡ weight (generator w.seed) k)
        × AreCounts w.backplane.plan w.backplane.history w.made.counts };
}

/// Of the edges of a kind the one at a place.
fn edge_of(plan: &Plan, edges: &[Edge], kind: Kind, place: u32) -> Option<Edge>
    ensures { result ≡ slice_get (of_kind plan.now kind edges.now) place }
{
    let mut left = place;
    for edge in edges {
        if Kind::of(plan, edge).is_same(kind) {
            if left == 0 {
                return Some(*edge);
            }
            left -= 1;
        }
    }
    None
}

impl<'r> Walk<'r> {
    /// A walk before its first edge.
    pub fn new(plan: Plan, trace: Trace<'r>, version: Version, seed: u64) -> Walk<'r>
        ensures { result ≡ at_start (at_power_up version plan trace.entry) seed }
    {
        let mut numbers = Pcg32::new(seed, 0);
        let weights = Weights::draw(&mut numbers);
        Walk {
            seed,
            backplane: Backplane::new(plan, trace, version),
            numbers,
            weights,
            made: Tally::new(),
            open: ArrayVec::new(),
        }
    }

    /// The edge that two words choose: the first the kind, and the second one of its open edges.
    fn choice(&mut self, first: u32, second: u32) -> Option<Edge>
        ensures edge { result ≡ chosen self.old first second }
        ensures kept { self.new ≡ self.old }
    {
        all_open(&self.backplane, &mut self.open);
        let edges = self.open.as_slice();
        let plan = self.backplane.plan();
        let ready = Tally::of(plan, edges);
        let chances = Chances::new(&self.weights, &self.made, &ready);
        let kind = chances.kind_at(scaled(first, chances.sum()))?;
        let place = scaled(second, ready.count(kind));
        edge_of(plan, edges, kind, place)
    }

    /// Draws the next edge; none where none is open. It is not made yet.
    pub fn draw(&mut self) -> Option<Edge>
        ensures edge { result ≡ next_edge self.old }
        ensures state { self.new ≡ drawn self.old }
        ensures accepted { IfSome result (λ e. verdict self.new.state e ≡ Ok tt) }
    {
        let first = self.numbers.next_word();
        let second = self.numbers.next_word();
        self.choice(first, second)
    }

    /// Makes an edge that would be accepted.
    pub fn make(&mut self, edge: Edge)
        requires { verdict self.old.state edge ≡ Ok tt }
        ensures { self.new ≡ with_edge self.old edge }
    {
        self.backplane.laws();
        self.made.add(self.backplane.plan(), &edge);
        let _ = self.backplane.step(edge);
    }

    /// Draws edges and makes them, so many, or until none is open.
    pub fn take(&mut self, edges: u32)
        ensures { self.new ≡ walked edges self.old }
    {
        for _made in 0..edges {
            match self.draw() {
                Some(edge) => self.make(edge),
                None => return,
            }
        }
    }

    /// The backplane, with the edges that were made.
    pub fn backplane(&self) -> &Backplane<'r>
        ensures { result.now ≡ self.now.state }
    {
        &self.backplane
    }
}
