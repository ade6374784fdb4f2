//! The last edge of each wire, how the wire is since then, and the last grant.
ghost use Rattle.std.specs.Prelude.{◌≡◌, ◌∷◌, [], IsTrue};
ghost use Rattle.vme_model.specs.Signals.{has_wire, is_well_formed};
ghost use Rattle.vme_model.specs.History.{drive, last_level};
ghost use Rattle.vme_model.specs.Numbered.{Numbered, edges_in, since, granted_since};

use crate::places::{WIRES, place};
use vme_model::{Driver, Edge, Wire};

/// The last edge of a wire, and whether the wire is low since then, or the address group on.
#[derive(Clone, Copy)]
pub(crate) struct Moved {
    pub(crate) at: Option<u64>,
    pub(crate) low: bool,
}

/// A wire that never moved.
const NEVER: Moved = Moved {
    at: None,
    low: false,
};

/// The wires by driver, the last grant and its level, 0 where there was none.
#[derive(Drop)]
pub(crate) struct Moves {
    pub(crate) wires: [Moved; WIRES],
    pub(crate) grant: Option<u64>,
    pub(crate) level: u8,
}

impl Moves {
    ghost use Rattle.vme_reasons.specs.Marked.{IsMovesOf};

    /// Those of a trace before its first edge.
    pub(crate) fn new() -> Moves
        ensures { IsMovesOf [] result }
    {
        Moves {
            wires: [NEVER; WIRES],
            grant: None,
            level: 0,
        }
    }

    /// Takes in an accepted edge with its number in the trace.
    #[inline(always)]
    pub(crate) fn note(&mut self, edge: &Edge, n: u64)
        requires { IsTrue (is_well_formed edge.now) }
        ensures { (k : Numbered) → IsMovesOf k self.old → IsMovesOf ((n, edge.now) ∷ k) self.new }
    {
        self.wires[place(edge.driver, edge.wire)] = Moved {
            at: Some(n),
            low: edge.fall,
        };
        if edge.is_grant() {
            self.grant = Some(n);
            self.level = edge.wire.grant_level();
        }
    }

    /// The last edge of a driver's wire; none where it never moved.
    pub(crate) fn since(&self, driver: Driver, wire: Wire) -> Option<u64>
        requires { IsTrue (has_wire driver wire) }
        ensures { (k : Numbered) → IsMovesOf k self.now → result ≡ since k driver wire }
    {
        self.wires[place(driver, wire)].at
    }

    /// Whether a driver's wire is low, or its address group on.
    pub(crate) fn is_low(&self, driver: Driver, wire: Wire) -> bool
        requires { IsTrue (has_wire driver wire) }
        ensures { (k : Numbered) → IsMovesOf k self.now → result ≡ drive (edges_in k) driver wire }
    {
        self.wires[place(driver, wire)].low
    }

    /// The last grant.
    pub(crate) fn granted_since(&self) -> Option<u64>
        ensures { (k : Numbered) → IsMovesOf k self.now → result ≡ granted_since k }
    {
        let Moves { grant, .. } = self;
        *grant
    }

    /// The level last granted, 0 where there was no grant.
    pub(crate) fn last_level(&self) -> u8
        ensures { (k : Numbered) → IsMovesOf k self.now → result ≡ last_level (edges_in k) }
    {
        let Moves { level, .. } = self;
        *level
    }
}
