//! The numbers, moved at each accepted edge.
ghost use Rattle.std.specs.Prelude.{◌≡◌, ◌<◌, ◌^◌, ◌∷◌, [], IsTrue};
ghost use Rattle.vme_model.specs.declared.signals.Driver.TheVariants.{Slot};
ghost use Rattle.vme_model.specs.declared.signals.Wire.TheVariants.{Dtack};
ghost use Rattle.vme_model.specs.Signals.{has_wire, is_well_formed};
ghost use Rattle.vme_model.specs.Plan.{Plan};
ghost use Rattle.vme_model.specs.History.{cycles, shown};
ghost use Rattle.vme_model.specs.Numbered.{edges_in, since, granted_since, served_since, strobed_at};

use crate::moves::Moves;
use crate::services::Services;
use vme_model::{Cycle, Driver, Edge, IrqKind, Wire};

/// Of the accepted edges of a trace the last of each wire, the last grant, and for each board the
/// edges that served its request and that strobed data, each by its number in the trace; and how
/// many cycles a board has begun in its tenure.
///
/// They stand in places of fixed number, and an edge moves a few of them. What is so since then,
/// the bus itself answers.
#[derive(Drop)]
pub struct Marks {
    pub(crate) moves: Moves,
    pub(crate) services: Services,
}

impl Marks {
    ghost use Rattle.vme_explain.specs.Marked.{IsMarksOf, OfNumbered};

    /// The marks of a trace before its first edge.
    pub fn new() -> Marks
        ensures { (p : Plan) → IsMarksOf p [] result }
    {
        Marks {
            moves: Moves::new(),
            services: Services::new(),
        }
    }

    /// Takes in an accepted edge with its number in the trace, and what is shown just before it,
    /// which only an edge of DTACK* needs.
    #[inline(always)]
    pub fn note(&mut self, edge: &Edge, n: u64, showing: Option<Cycle>)
        requires { IsTrue (is_well_formed edge.now) }
        ensures { OfNumbered self.old (λ p k.
            (edge.now.wire ≡ Dtack → showing ≡ shown p (edges_in k))
            → IsMarksOf p ((n, edge.now) ∷ k) self.new) }
    {
        self.moves.note(edge, n);
        self.services.note(edge, n, showing);
    }

    /// The last edge of a driver's wire; none if it never moved.
    pub(crate) fn since(&self, driver: Driver, wire: Wire) -> Option<u64>
        requires { IsTrue (has_wire driver wire) }
        ensures { OfNumbered self.now (λ _ k. result ≡ since k driver wire) }
    {
        self.moves.since(driver, wire)
    }

    /// The last grant.
    pub(crate) fn granted_since(&self) -> Option<u64>
        ensures { OfNumbered self.now (λ _ k. result ≡ granted_since k) }
    {
        self.moves.granted_since()
    }

    /// The first answer of a slot below 22, since its last `irq-`, that serves an interrupter of
    /// the kind.
    pub fn served_since(&self, slot: u8, kind: IrqKind) -> Option<u64>
        requires { slot < 22 }
        ensures { OfNumbered self.now (λ p k. result ≡ served_since p k (Slot slot) kind) }
    {
        self.services.served_since(slot, kind)
    }

    /// The last `ds-` of a slot below 22 since its last `as-`.
    pub(crate) fn strobed_at(&self, slot: u8) -> Option<u64>
        requires { slot < 22 }
        ensures { OfNumbered self.now (λ _ k. result ≡ strobed_at k (Slot slot)) }
    {
        self.services.strobed_at(slot)
    }

    /// How many cycles a slot below 22 began since its last `bbsy-`, if they are below 2^64.
    pub fn made(&self, slot: u8) -> u64
        requires { slot < 22 }
        ensures { OfNumbered self.now (λ _ k. cycles (edges_in k) (Slot slot) < 2 ^ 64
            → result ≡ cycles (edges_in k) (Slot slot)) }
    {
        self.services.made(slot)
    }
}
