//! The edges that were made.
ghost use Rattle.std.specs.Prelude.{◌≡◌, ◌<◌, ◌≤◌, ◌++◌, ◌∷◌, [], Some, length};
ghost use Rattle.std.specs.List.{slice_get};
ghost use Rattle.vme_model.specs.Report.{trace_limit};

use crate::traces::Trace;
use std::marker::Model;
use vme_model::Edge;

/// The edges that were made, the oldest first, in the room of a trace. A contract sees the edges, and how many fit.
#[derive(Drop)]
pub struct Stored {
    edges: Vec<Edge>,
    max: u32,
}

impl Model for Stored {
    ghost use Rattle.std.specs.Prelude.{◌≤◌, ℕ, List, vec_len, vec_capacity};
    ghost use Rattle.vme_model.specs.declared.signals.Edge.{Edge};
    ghost use Rattle.vme_model.specs.Report.{trace_limit};

    ghost Value = { List Edge × ℕ };

    ghost view = { λ s. (s.edges.items, s.max) };

    ghost invariant = { λ s. (vec_len s.edges ≤ s.max) × (s.max ≤ vec_capacity s.edges) × (s.max ≤ trace_limit) };
}

impl Stored {
    /// No edge yet.
    pub fn new(trace: Trace) -> Stored
        ensures { result ≡ ([], trace) }
    {
        let max = trace.max();
        Stored {
            edges: trace.into_edges(),
            max,
        }
    }

    /// What holds of it.
    pub fn laws(&self)
        ensures fits { length self.now.0 ≤ self.now.1 }
        ensures bounded { self.now.1 ≤ trace_limit }
    {
        let _ = &self.max;
    }

    /// One more edge. No memory is asked for.
    pub fn push(&mut self, edge: Edge)
        requires { length self.old.0 < self.old.1 }
        ensures { self.new ≡ (self.old.0 ++ edge ∷ [], self.old.1) }
    {
        let fits = self.edges.push(edge).is_ok();
        prove!(fits);
    }

    /// How many edges there are.
    pub fn len(&self) -> u32
        ensures { result ≡ length self.now.0 }
    {
        prove!(self.edges.len() <= self.max as usize);
        self.edges.len() as u32
    }

    /// How many edges fit.
    pub fn max(&self) -> u32
        ensures { result ≡ self.now.1 }
    {
        self.max
    }

    /// The edge at a place, counted from 0 in the order of time.
    pub fn edge_at(&self, place: u32) -> Edge
        requires { place < length self.now.0 }
        ensures { slice_get self.now.0 place ≡ Some result }
    {
        self.edges[place as usize]
    }
}
