//! The last edge of each wire, and the last grant.
ghost use Rattle.std.specs.Prelude.{◌≡◌, ◌∷◌, [], IsTrue};
ghost use Rattle.vme_model.specs.Signals.{has_wire, is_well_formed};
ghost use Rattle.vme_model.specs.Numbered.{Numbered, since, granted_since};

use crate::places::{WIRES, place};
use vme_model::{Driver, Edge, Wire};

/// The last edge of each wire, by driver, and the last grant.
#[derive(Drop)]
pub(crate) struct Moves {
    pub(crate) wires: [Option<u64>; WIRES],
    pub(crate) grant: Option<u64>,
}

impl Moves {
    ghost use Rattle.vme_explain.specs.Marked.{IsMovesOf};

    /// The edges of a trace before its first one: none.
    pub(crate) fn new() -> Moves
        ensures { IsMovesOf [] result }
    {
        Moves {
            wires: [None; WIRES],
            grant: None,
        }
    }

    /// Takes in an accepted edge with its number in the trace.
    #[inline(always)]
    pub(crate) fn note(&mut self, edge: &Edge, n: u64)
        requires { IsTrue (is_well_formed edge.now) }
        ensures { (k : Numbered) → IsMovesOf k self.old → IsMovesOf ((n, edge.now) ∷ k) self.new }
    {
        self.wires[place(edge.driver, edge.wire)] = Some(n);
        if edge.is_grant() {
            self.grant = Some(n);
        }
    }

    /// The last edge of a driver's wire; none if it never moved.
    pub(crate) fn since(&self, driver: Driver, wire: Wire) -> Option<u64>
        requires { IsTrue (has_wire driver wire) }
        ensures { (k : Numbered) → IsMovesOf k self.now → result ≡ since k driver wire }
    {
        self.wires[place(driver, wire)]
    }

    /// The last grant.
    pub(crate) fn granted_since(&self) -> Option<u64>
        ensures { (k : Numbered) → IsMovesOf k self.now → result ≡ granted_since k }
    {
        let Moves { grant, .. } = self;
        *grant
    }
}
