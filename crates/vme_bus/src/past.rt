//! A list of edges that takes no memory.
ghost use Rattle.std.specs.Prelude.{◌≡◌, List, [], ◌∷◌};
ghost use Rattle.std.specs.Borrow.{ftrue};
ghost use Rattle.vme_model.specs.declared.signals.Edge.{Edge as EdgeValue};

use std::marker::Model;
use vme_model::Edge;

/// The edges that were made, the newest first.
///
/// It is for a struct that keeps numbers of a history and not the history itself. Such a struct has
/// a `Past` as a field, and its invariant ties the numbers to the edges.
///
/// No edge is stored, so no code can read one. That `new` and `with` make the list which their
/// clauses name is proved by hand, by the choice of the ghost value. Everything else is proved from
/// these clauses.
#[derive(Drop)]
pub struct Past {
    // Only this module makes one.
    seal: (),
    ghost edges: { List EdgeValue },
}

impl Model for Past {
    ghost Value = { List EdgeValue };

    ghost view = { λ p. p.edges };

    // It owns nothing, but only a struct with this member can have a list in a ghost field.
    ghost also_owns = { λ _. ftrue };
}

impl Past {
    /// The past in which no edge was made.
    #[inline(always)]
    pub fn new() -> Past
        ensures { result ≡ [] }
    {
        Past { seal: () }
    }

    /// The past after one more edge.
    #[inline(always)]
    fn with(_past: &Past, _edge: &Edge) -> Past
        ensures { result ≡ _edge.now ∷ _past.now }
    {
        Self { seal: () }
    }

    /// Notes that an edge was made.
    #[inline(always)]
    pub fn note(&mut self, edge: Edge)
        ensures { self.new ≡ edge ∷ self.old }
    {
        *self = Past::with(self, &edge);
    }
}

// A struct with `also_owns` has neither `Send` nor `Sync` by itself. This one owns nothing.
unsafe impl Send for Past {}

unsafe impl Sync for Past {}
