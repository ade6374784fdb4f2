//! A list of edges that takes no memory.
ghost use Rattle.std.specs.Prelude.{◌≡◌, List, [], ◌∷◌};
ghost use Rattle.std.specs.Borrow.{ftrue};
ghost use Rattle.vme_model.specs.declared.signals.Edge.{Edge as EdgeValue};

use std::marker::Model;
use vme_model::Edge;

/// The edges that were made, the latest first.
///
/// It is for a struct that keeps numbers of a history and not the history itself. Such a struct has
/// a `Past` as a field, and its invariant ties the numbers to the edges.
///
/// No edge is stored, so no code can read one. The list is what `new` and `with` were proved to
/// make of it by hand: their clauses hold by that choice. All else is proved from these clauses.
#[derive(Drop)]
pub struct Past {
    // Only this module makes one.
    seal: (),
    ghost edges: { List EdgeValue },
}

impl Model for Past {
    ghost Value = { List EdgeValue };

    ghost view = { λ p. p.edges };

    // It owns nothing, but only a struct with this member can have a list in a ghost field.
    ghost also_owns = { λ _. ftrue };
}

impl Past {
    /// No edge was made.
    #[inline(always)]
    pub fn new() -> Past
        ensures { result ≡ [] }
    {
        Past { seal: () }
    }

    /// The past after one edge more.
    #[inline(always)]
    fn with(_past: &Past, _edge: &Edge) -> Past
        ensures { result ≡ _edge.now ∷ _past.now }
    {
        Self { seal: () }
    }

    /// An edge was made.
    #[inline(always)]
    pub fn note(&mut self, edge: Edge)
        ensures { self.new ≡ edge ∷ self.old }
    {
        *self = Past::with(self, &edge);
    }
}

// A struct with `also_owns` has neither by itself. This one owns nothing.
unsafe impl Send for Past {}

unsafe impl Sync for Past {}
