//! Edges, kept in the room of a trace.
ghost use Rattle.std.specs.Prelude.{◌≡◌, ◌<◌, ◌≤◌, [], ◌∷◌, Some, length, slice_get, true};
ghost use Rattle.vme_model.specs.History.{in_order};
ghost use Rattle.vme_model.specs.Report.{trace_limit};
ghost use Rattle.vme_model.specs.Signals.{is_well_formed};

use crate::pages::Page;
use crate::traces::{PAGE, Trace};
use std::marker::Model;
use vme_model::Edge;

/// The edges that were kept, in the order of time.
#[derive(Drop)]
pub struct Store<'r> {
    pages: Vec<Page<'r>>,
    len: u32,
    max: u32,
}

impl<'r> Model for Store<'r> {
    ghost use Rattle.std.specs.Prelude.{◌≤◌, reverse};
    ghost use Rattle.vme_model.specs.Report.{trace_limit};
    ghost use Rattle.vme_store.specs.Pages.{ArePages, Store, stored};

    ghost Value = { Store };

    ghost view = { λ s. record { history = reverse (stored s.pages.items); max = s.max } };

    ghost invariant = { λ s. ArePages s.max s.len s.pages.items
        × (s.len ≤ s.max) × (s.max ≤ trace_limit) };
}

impl<'r> Store<'r> {
    /// A store without edges, in the room of a trace.
    #[tactic(auto, using(crate::proofs::FilledPages::none_stored))]
    pub fn new(trace: Trace<'r>) -> Store<'r>
        ensures { result ≡ record { history = []; max = trace.entry } }
    {
        let max = trace.max();
        Store {
            pages: trace.into_pages(),
            len: 0,
            max,
        }
    }

    /// A law: a store holds no more edges than it has room for. The call costs nothing, and gives
    /// that fact to the prover.
    #[tactic(auto, using(crate::proofs::FilledPages::length_of))]
    pub fn laws(&self)
        ensures fits { length self.now.history ≤ self.now.max }
        ensures bounded { self.now.max ≤ trace_limit }
    {
        let _ = &self.pages;
    }

    /// How many edges can be kept in all, 0 to 1,048,576.
    pub fn max(&self) -> u32
        ensures { result ≡ self.now.max }
    {
        self.max
    }

    /// How many edges are kept, 0 to `max`.
    pub fn len(&self) -> u32
        ensures { result ≡ length self.now.history }
    {
        self.len
    }

    /// Keeps one more edge. The edge has to be well formed, and the store may not be full. It asks
    /// for no memory.
    #[inline(always)]
    pub fn push(&mut self, edge: Edge)
        requires well_formed { is_well_formed edge ≡ true }
        requires room { length self.old.history < self.old.max }
        ensures { self.new ≡ record { history = edge ∷ self.old.history; max = self.old.max } }
    {
        let page = self.len / PAGE;
        self.pages[page as usize].push(edge);
        self.len += 1;
    }

    /// The edge at a place, counted from 0 in the order of time. The place has to be below `len`.
    pub fn edge_at(&self, place: u32) -> Edge
        requires { place < length self.now.history }
        ensures { slice_get (in_order self.now.history) place ≡ Some result }
    {
        let page = &self.pages[(place / PAGE) as usize];
        page.edge_at((place % PAGE) as usize)
    }
}
