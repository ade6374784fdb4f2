//! The edges that are kept of the two traces.
ghost use Rattle.std.specs.Prelude.{◌≡◌, IsTrue, true};
ghost use Rattle.vme_model.specs.Signals.{is_well_formed};
ghost use Rattle.vme_same.specs.Formed.{is_formed_found};

use crate::comparisons::Comparison;
use vme_model::Edge;

/// An edge that is left of the first trace, with its number there.
#[derive(Clone, Copy)]
pub(crate) struct Left {
    pub(crate) number: u64,
    pub(crate) edge: Edge,
    ghost formed: { is_well_formed edge ≡ true },
}

/// An edge of the second trace that waits to be matched.
#[derive(Clone, Copy)]
pub(crate) struct Next {
    pub(crate) edge: Edge,
    ghost formed: { is_well_formed edge ≡ true },
}

impl Left {
    /// That the edge is left when the second trace is over.
    pub(crate) fn leaves(&self) -> Comparison
        ensures found { result ≡ Comparison.Leaves self.now.number self.now.edge }
        ensures formed { IsTrue (is_formed_found result) }
    {
        Comparison::Leaves {
            number: self.number,
            edge: self.edge,
        }
    }
}
