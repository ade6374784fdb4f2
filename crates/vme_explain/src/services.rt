//! What each board's interrupter, strobes and cycles have come to.
ghost use Rattle.std.specs.Prelude.{◌≡◌, ◌<◌, ◌^◌, ◌∷◌, [], IsTrue, slice_index_or, set, None};
ghost use Rattle.vme_model.specs.declared.signals.Driver.TheVariants.{Slot};
ghost use Rattle.vme_model.specs.declared.signals.Wire.TheVariants.{Dtack};
ghost use Rattle.vme_model.specs.Signals.{is_well_formed};
ghost use Rattle.vme_model.specs.Plan.{Plan};
ghost use Rattle.vme_model.specs.History.{cycles, shown};
ghost use Rattle.vme_model.specs.Numbered.{Numbered, edges_in, served_since, strobed_at};
ghost use Rattle.vme_explain.specs.Marks.{strobe_after, served_after, made_after};

use vme_model::{Cycle, Driver, Edge, IrqKind, Wire};

/// Places for the controller and 21 slots.
const DRIVERS: usize = 22;

/// For each slot the edges that served its request and that strobed data, and how many cycles it
/// has begun in its tenure.
#[derive(Drop)]
pub(crate) struct Services {
    // the `ds-` since the last `as-`
    pub(crate) strobes: [Option<u64>; DRIVERS],
    // the first answer since the last `irq-` to an acknowledge, and to an access
    pub(crate) acknowledged: [Option<u64>; DRIVERS],
    pub(crate) accessed: [Option<u64>; DRIVERS],
    // the `as-` since the last `bbsy-`
    pub(crate) made: [u64; DRIVERS],
}

impl Services {
    ghost use Rattle.vme_explain.specs.Marked.{IsServicesOf};

    /// The services of a trace before its first edge: none.
    pub(crate) fn new() -> Services
        ensures { (p : Plan) → IsServicesOf p [] result }
    {
        Services {
            strobes: [None; DRIVERS],
            acknowledged: [None; DRIVERS],
            accessed: [None; DRIVERS],
            made: [0; DRIVERS],
        }
    }

    /// Takes in an answer: the first that serves the board's interrupter is kept.
    fn note_answer(&mut self, slot: usize, n: u64, showing: Option<Cycle>)
        requires { slot < 22 }
        ensures { self.new ≡ record self.old {
          acknowledged = set self.old.acknowledged slot
              (served_after IrqKind.Roak Dtack n showing
              (slice_index_or self.old.acknowledged slot None));
          accessed = set self.old.accessed slot
              (served_after IrqKind.Rora Dtack n showing
              (slice_index_or self.old.accessed slot None));
        } }
    {
        match showing {
            Some(Cycle::Acknowledge(_)) => {
                self.acknowledged[slot] = self.acknowledged[slot].or(Some(n))
            }
            Some(Cycle::Access(_)) => self.accessed[slot] = self.accessed[slot].or(Some(n)),
            None => {}
        }
    }

    /// Takes in a fall of a board's wire.
    #[inline(always)]
    fn note_fall(&mut self, slot: u8, wire: Wire, n: u64, showing: Option<Cycle>)
        requires { slot < 22 }
        ensures strobes { self.new.strobes ≡ set self.old.strobes slot
            (strobe_after wire n (slice_index_or self.old.strobes slot None)) }
        ensures acknowledged { self.new.acknowledged ≡ set self.old.acknowledged slot
            (served_after IrqKind.Roak wire n showing
            (slice_index_or self.old.acknowledged slot None)) }
        ensures accessed { self.new.accessed ≡ set self.old.accessed slot
            (served_after IrqKind.Rora wire n showing
            (slice_index_or self.old.accessed slot None)) }
        ensures made { self.new.made ≡ set self.old.made slot
            (made_after wire (slice_index_or self.old.made slot 0)) }
    {
        let slot = usize::from(slot);
        match wire {
            Wire::Bbsy => self.made[slot] = 0,
            Wire::AddressStrobe => {
                self.strobes[slot] = None;
                self.made[slot] = self.made[slot].saturating_add(1);
            }
            Wire::DataStrobe => self.strobes[slot] = Some(n),
            Wire::Irq => {
                self.acknowledged[slot] = None;
                self.accessed[slot] = None;
            }
            Wire::Dtack => self.note_answer(slot, n, showing),
            _ => {}
        }
    }

    /// Takes in an accepted edge with its number in the trace, and what is shown just before it,
    /// which only an edge of DTACK* needs.
    #[inline(always)]
    pub(crate) fn note(&mut self, edge: &Edge, n: u64, showing: Option<Cycle>)
        requires { IsTrue (is_well_formed edge.now) }
        ensures { (p : Plan) (k : Numbered) → IsServicesOf p k self.old
            → (edge.now.wire ≡ Dtack → showing ≡ shown p (edges_in k))
            → IsServicesOf p ((n, edge.now) ∷ k) self.new }
    {
        match edge.driver {
            Driver::Slot(slot) if edge.fall => self.note_fall(slot, edge.wire, n, showing),
            _ => {}
        }
    }

    /// The first answer of a slot below 22, since its last `irq-`, that serves an interrupter of
    /// the kind.
    pub(crate) fn served_since(&self, slot: u8, kind: IrqKind) -> Option<u64>
        requires { slot < 22 }
        ensures { (p : Plan) (k : Numbered) → IsServicesOf p k self.now
            → result ≡ served_since p k (Slot slot) kind }
    {
        match kind {
            IrqKind::Roak => self.acknowledged[usize::from(slot)],
            IrqKind::Rora => self.accessed[usize::from(slot)],
        }
    }

    /// The last `ds-` of a slot below 22 since its last `as-`.
    pub(crate) fn strobed_at(&self, slot: u8) -> Option<u64>
        requires { slot < 22 }
        ensures { (p : Plan) (k : Numbered) → IsServicesOf p k self.now
            → result ≡ strobed_at k (Slot slot) }
    {
        self.strobes[usize::from(slot)]
    }

    /// How many cycles a slot below 22 began since its last `bbsy-`, if they are below 2^64.
    pub(crate) fn made(&self, slot: u8) -> u64
        requires { slot < 22 }
        ensures { (p : Plan) (k : Numbered) → IsServicesOf p k self.now
            → cycles (edges_in k) (Slot slot) < 2 ^ 64
            → result ≡ cycles (edges_in k) (Slot slot) }
    {
        self.made[usize::from(slot)]
    }
}
