//! How far two traces were matched.
ghost use Rattle.std.specs.Prelude.{◌≡◌, ◌∷◌, IsTrue, true};
ghost use Rattle.vme_model.specs.Numbered.{Numbered};
ghost use Rattle.vme_model.specs.Signals.{is_well_formed};
ghost use Rattle.vme_same.specs.Comparing.{IsFirstOf};
ghost use Rattle.vme_same.specs.Formed.{is_formed_own, is_formed_progress};

use crate::comparisons::Comparison;
use crate::edges::Next;
use crate::rest::{Rest, is_of};
use std::collections::VecDeque;
use vme_model::Edge;

/// An edge of the second trace that is sought among the edges of the first one that come.
#[derive(Clone, Copy)]
pub(crate) struct Sought {
    /// Its number in the second trace.
    pub(crate) number: u64,
    pub(crate) edge: Edge,
    /// The first edge of its driver that is left of the first trace, with its number there.
    pub(crate) own: Option<(u64, Edge)>,
}

impl Sought {
    /// The first edge of its driver that is left if this edge of the first trace is, too, behind
    /// the others.
    pub(crate) fn own_with(&self, number: u64, edge: &Edge) -> Option<(u64, Edge)>
        requires own { IsTrue (is_formed_own self.now.own) }
        requires formed { IsTrue (is_well_formed edge.now) }
        ensures own { (left : Numbered) → IsFirstOf self.now.edge.driver left self.now.own
            → IsFirstOf self.now.edge.driver ((number, edge.now) ∷ left) result }
        ensures formed { IsTrue (is_formed_own result) }
    {
        match self.own {
            Some(_) => self.own,
            None => {
                if is_of(edge, self.edge.driver) {
                    Some((number, *edge))
                } else {
                    None
                }
            }
        }
    }
}

/// What is known of two traces so far.
#[derive(Clone, Copy)]
pub(crate) enum Progress {
    /// All edges of the second trace but those that wait came to the front.
    Open,
    /// More than 200 edges are left of the first trace, and none of them is this edge of the second
    /// one: it is far if it comes later, and otherwise it is missing.
    Seeks(Sought),
    /// Whatever comes, this is found.
    Finds(Comparison),
}

/// The edges of two traces without a refused edge, matched one by one.
#[derive(Drop)]
pub(crate) struct Pairing {
    /// Whether the first trace has ended.
    pub(crate) has_ended: bool,
    /// Whether the second one has.
    pub(crate) is_over: bool,
    /// What is left of the first trace.
    pub(crate) rest: Rest,
    /// The edges of the second trace that wait to be matched, the oldest first.
    pub(crate) waiting: VecDeque<Next>,
    /// How many edges were taken out of the first trace.
    pub(crate) taken: u64,
    pub(crate) progress: Progress,
    ghost formed: { is_formed_progress progress ≡ true },
}
