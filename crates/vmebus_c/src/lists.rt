//! A list of edges that is cheap to make.
ghost use Rattle.std.specs.Prelude.{◌≡◌, ◌≤◌, ◌<◌, ◌++◌, [], ◌∷◌, length};

use std::marker::Model;
use vme_model::{Driver, Edge, Wire};

/// What fills the array after the list's end. In memory it is zeros, so that the array is cleared
/// at once. Any other edge would be written into each place of an array that is then copied.
const BLANK: Edge = Edge {
    driver: Driver::Controller,
    wire: Wire::Bg(0),
    fall: false,
    value: None,
};

/// A list of at most `N` edges. An `ArrayVec` would fill its places with its default edge and move
/// them, which takes a fourth of the time of a draw.
#[derive(Drop)]
pub(crate) struct EdgeList<const N: usize> {
    room: [Edge; N],
    count: usize,
}

impl<const N: usize> Model for EdgeList<N> {
    ghost use Rattle.std.specs.Prelude.{◌≡◌, ◌≤◌, List, length, take};
    ghost use Rattle.vme_model.specs.declared.signals.Edge.{Edge as EdgeValue};

    ghost Value = { List EdgeValue };

    ghost view = { λ l. take l.count l.room };

    ghost invariant = { λ l. (l.count ≤ N) × (length l.room ≡ N) };
}

impl<const N: usize> EdgeList<N> {
    /// The list of no edge.
    #[inline(always)]
    pub(crate) fn new() -> EdgeList<N>
        ensures { result ≡ [] }
    {
        EdgeList {
            room: [BLANK; N],
            count: 0,
        }
    }

    /// Appends an edge.
    #[inline(always)]
    pub(crate) fn push(&mut self, edge: Edge)
        requires { length self.old < N }
        ensures { self.new ≡ self.old ++ edge ∷ [] }
    {
        let count = self.count;
        self.room[count] = edge;
        self.count = count + 1;
    }

    /// The edges.
    #[inline(always)]
    pub(crate) fn as_slice(&self) -> &[Edge]
        ensures edges { result.now ≡ self.now }
        ensures few { length result.now ≤ N }
    {
        &self.room[..self.count]
    }
}
