//! A random walk, whose next edge is drawn.
ghost use Rattle.std.specs.Prelude.{◌≡◌, IfSome, Ok};
ghost use Rattle.vme_model.specs.Report.{at_power_up, trace_limit};
ghost use Rattle.vme_model.specs.Verdict.{verdict};
ghost use Rattle.vme_seeds.specs.Walks.{at_start, drawn, next_edge, with_edge};

use crate::boards::boards_of;
use crate::draws::Draws;
use crate::opens::{OPEN_EDGES, all_open};
use arrayvec::ArrayVec;
use std::marker::Model;
use vme_bus::{Bus, SlotSet};
use vme_model::{Edge, Version};
use vme_slots::Plan;

/// A random walk: a bus whose next edge is drawn from all that the rules allow, by the numbers of a
/// seed.
///
/// First a kind of edge is drawn, by the kinds' weights and by how many edges of each kind were
/// made; then one of its open edges is drawn. Source: profile.
#[derive(Drop)]
pub struct Walk {
    seed: u64,
    bus: Bus,
    /// The slots of its plan that have a board.
    boards: SlotSet,
    draws: Draws,
    /// Room for the open edges of any state.
    open: ArrayVec<Edge, OPEN_EDGES>,
}

impl Model for Walk {
    ghost use Rattle.std.specs.Prelude.{◌≡◌};
    ghost use Rattle.vme_bus.specs.Sets.{has};
    ghost use Rattle.vme_seeds.specs.declared.kinds.Kind.{Kind as KindOf};
    ghost use Rattle.vme_seeds.specs.Kinds.{has_board};
    ghost use Rattle.vme_seeds.specs.Numbers.{generator};
    ghost use Rattle.vme_seeds.specs.Choices.{weight};
    ghost use Rattle.vme_seeds.specs.Draws.{numbers_of, weight_of};
    ghost use Rattle.vme_seeds.specs.Tallies.{AreCounts};
    ghost use Rattle.vme_seeds.specs.Walks.{Walk as WalkValue};

    ghost Value = { WalkValue };

    ghost view = { λ w. record {
      seed = w.seed;
      state = w.bus;
      numbers = numbers_of w.draws;
    } };

    ghost invariant = { λ w.
        ((k : KindOf) → weight_of w.draws k ≡ weight (generator w.seed) k)
        × AreCounts (has_board w.bus.plan) w.bus.history w.draws.made.counts
        × (has w.boards ≡ has_board w.bus.plan) };
}

impl Walk {
    /// A walk before its first edge. It can hold 1,048,576 edges.
    pub fn new(plan: Plan, version: Version, seed: u64) -> Walk
        ensures { result ≡ at_start (at_power_up version plan trace_limit) seed }
    {
        let boards = boards_of(&plan);
        Walk {
            seed,
            bus: Bus::new(plan, version),
            boards,
            draws: Draws::new(seed),
            open: ArrayVec::new(),
        }
    }

    /// Begins the walk anew, by the numbers of a seed: no edge was made. The plan and the version
    /// stay.
    pub fn restart(&mut self, seed: u64)
        ensures { self.new ≡ at_start (at_power_up self.old.state.version self.old.state.plan
            trace_limit) seed }
    {
        self.seed = seed;
        self.draws = Draws::new(seed);
        self.bus.restart();
    }

    /// Draws the next edge; none if no edge is open. The edge is not made yet.
    pub fn draw(&mut self) -> Option<Edge>
        ensures edge { result ≡ next_edge self.old }
        ensures state { self.new ≡ drawn self.old }
        ensures accepted { IfSome result (λ e. verdict self.new.state e ≡ Ok tt) }
    {
        all_open(&self.bus, &mut self.open);
        self.draws.draw(self.boards, self.open.as_slice())
    }

    /// Makes an edge that would be accepted.
    pub fn make(&mut self, edge: Edge)
        requires { verdict self.old.state edge ≡ Ok tt }
        ensures { self.new ≡ with_edge self.old edge }
    {
        self.bus.laws();
        self.draws.count(self.boards, &edge);
        let _ = self.bus.step(edge);
    }

    /// The bus, with the edges that were made.
    pub fn bus(&self) -> &Bus
        ensures { result.now ≡ self.now.state }
    {
        &self.bus
    }
}
