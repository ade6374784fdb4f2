//! The numbers, moved at each accepted edge.
ghost use Rattle.std.specs.Prelude.{◌≡◌, ◌<◌, ◌^◌, ◌∷◌, if◌then◌else◌, [], ℕ, Some, IsTrue, slice_index_or, set, None};
ghost use Rattle.vme_model.specs.declared.signals.Driver.TheVariants.{Slot};
ghost use Rattle.vme_model.specs.Signals.{grant_level, has_wire, is_grant, is_well_formed};
ghost use Rattle.vme_model.specs.Plan.{Plan};
ghost use Rattle.vme_model.specs.History.{cycles, drive, last_level, serves, shown};
ghost use Rattle.vme_model.specs.Numbered.{Numbered, edges_in, since, granted_since, served_since, strobed_at};
ghost use Rattle.vme_reasons.specs.Marks.{place, strobe_after, served_after, made_after};

use crate::places::{WIRES, place};
use vme_model::{Cycle, Driver, Edge, IrqKind, Wire};

/// Places for the controller and 21 slots.
const DRIVERS: usize = 22;

/// The last edge of a wire, and whether the wire is low since then, or the address group on.
#[derive(Clone, Copy)]
pub(crate) struct Moved {
    pub(crate) at: Option<u64>,
    pub(crate) low: bool,
}

/// A wire that never moved.
const NEVER: Moved = Moved {
    at: None,
    low: false,
};

/// Of the accepted edges of a trace the last of each wire, the last grant, and for each board the
/// edges that served its request and that strobed data, each by its number in the trace; how each
/// wire is since then, the level last granted, and how many cycles a board has begun in its tenure.
///
/// They stand in places of fixed number, and an edge moves a few of them.
#[derive(Drop)]
pub struct Marks {
    // by driver and wire
    pub(crate) moves: [Moved; WIRES],
    pub(crate) grant: Option<u64>,
    pub(crate) level: u8,
    // by slot, the `ds-` since the last `as-`
    pub(crate) strobes: [Option<u64>; DRIVERS],
    // by slot, the first answer since the last `irq-` to an acknowledge, and to an access
    pub(crate) acknowledged: [Option<u64>; DRIVERS],
    pub(crate) accessed: [Option<u64>; DRIVERS],
    // by slot, the `as-` since the last `bbsy-`
    pub(crate) made: [u64; DRIVERS],
}

/// The `ds-` of a board's cycle after a fall of one of its wires.
fn strobe_after(wire: Wire, n: u64, before: Option<u64>) -> Option<u64>
    ensures { result ≡ strobe_after wire n before }
{
    match wire {
        Wire::AddressStrobe => None,
        Wire::DataStrobe => Some(n),
        _ => before,
    }
}

/// Whether an answer while this is shown serves an interrupter of the kind.
fn serves(kind: IrqKind, shown: Option<Cycle>) -> bool
    ensures { result ≡ serves kind shown }
{
    matches!(
        (kind, shown),
        (IrqKind::Roak, Some(Cycle::Acknowledge(_))) | (IrqKind::Rora, Some(Cycle::Access(_)))
    )
}

/// The first answer that serves a board's interrupter after a fall of one of its wires.
fn served_after(
    kind: IrqKind,
    wire: Wire,
    n: u64,
    shown: Option<Cycle>,
    before: Option<u64>,
) -> Option<u64>
    ensures { result ≡ served_after kind wire n shown before }
{
    match (wire, before) {
        (Wire::Irq, _) => None,
        (Wire::Dtack, None) if serves(kind, shown) => Some(n),
        _ => before,
    }
}

/// The cycles of a board's tenure after a fall of one of its wires.
fn made_after(wire: Wire, before: u64) -> u64
    ensures { result ≡ made_after wire before }
{
    match wire {
        Wire::Bbsy => 0,
        Wire::AddressStrobe => before.saturating_add(1),
        _ => before,
    }
}

impl Marks {
    ghost use Rattle.vme_reasons.specs.Marked.{IsMarksOf, OfNumbered};

    /// Those of a trace before its first edge.
    pub fn new() -> Marks
        ensures { (p : Plan) → IsMarksOf p [] result }
    {
        Marks {
            moves: [NEVER; WIRES],
            grant: None,
            level: 0,
            strobes: [None; DRIVERS],
            acknowledged: [None; DRIVERS],
            accessed: [None; DRIVERS],
            made: [0; DRIVERS],
        }
    }

    /// Takes in a fall of a board's wire.
    fn note_fall(&mut self, slot: u8, wire: Wire, n: u64, showing: Option<Cycle>)
        requires { slot < 22 }
        ensures { self.new ≡ record self.old {
          strobes = set self.old.strobes slot
              (strobe_after wire n (slice_index_or self.old.strobes slot None));
          acknowledged = set self.old.acknowledged slot
              (served_after IrqKind.Roak wire n showing
              (slice_index_or self.old.acknowledged slot None));
          accessed = set self.old.accessed slot
              (served_after IrqKind.Rora wire n showing
              (slice_index_or self.old.accessed slot None));
          made = set self.old.made slot
              (made_after wire (slice_index_or self.old.made slot 0));
        } }
    {
        let slot = usize::from(slot);
        self.strobes[slot] = strobe_after(wire, n, self.strobes[slot]);
        self.acknowledged[slot] = served_after(
            IrqKind::Roak,
            wire,
            n,
            showing,
            self.acknowledged[slot],
        );
        self.accessed[slot] = served_after(IrqKind::Rora, wire, n, showing, self.accessed[slot]);
        self.made[slot] = made_after(wire, self.made[slot]);
    }

    /// Takes in how the edge's wire moves, and a grant.
    fn note_move(&mut self, edge: &Edge, n: u64)
        requires { IsTrue (is_well_formed edge.now) }
        ensures { self.new ≡ record self.old {
          moves = set self.old.moves (place edge.now.driver edge.now.wire)
              (record { at = Some n; low = edge.now.fall });
          grant = if is_grant edge.now then Some n else self.old.grant;
          level = if is_grant edge.now then grant_level edge.now.wire else self.old.level;
        } }
    {
        self.moves[place(edge.driver, edge.wire)] = Moved {
            at: Some(n),
            low: edge.fall,
        };
        if edge.is_grant() {
            self.grant = Some(n);
            self.level = edge.wire.grant_level();
        }
    }

    /// Takes in an accepted edge with its number in the trace, and what is shown just before it.
    pub fn note(&mut self, edge: &Edge, n: u64, showing: Option<Cycle>)
        requires { IsTrue (is_well_formed edge.now) }
        ensures { OfNumbered self.old (λ p k. showing ≡ shown p (edges_in k)
            → IsMarksOf p ((n, edge.now) ∷ k) self.new) }
    {
        self.note_move(edge, n);
        match edge.driver {
            Driver::Slot(slot) if edge.fall => self.note_fall(slot, edge.wire, n, showing),
            _ => {}
        }
    }

    /// The last edge of a driver's wire; none where it never moved.
    pub fn since(&self, driver: Driver, wire: Wire) -> Option<u64>
        requires { IsTrue (has_wire driver wire) }
        ensures { OfNumbered self.now (λ _ k. result ≡ since k driver wire) }
    {
        self.moves[place(driver, wire)].at
    }

    /// Whether a driver's wire is low, or its address group on.
    pub fn is_low(&self, driver: Driver, wire: Wire) -> bool
        requires { IsTrue (has_wire driver wire) }
        ensures { OfNumbered self.now (λ _ k. result ≡ drive (edges_in k) driver wire) }
    {
        self.moves[place(driver, wire)].low
    }

    /// The level last granted, 0 where there was no grant.
    pub fn last_level(&self) -> u8
        ensures { OfNumbered self.now (λ _ k. result ≡ last_level (edges_in k)) }
    {
        let Marks { level, .. } = self;
        *level
    }

    /// The last grant.
    pub fn granted_since(&self) -> Option<u64>
        ensures { OfNumbered self.now (λ _ k. result ≡ granted_since k) }
    {
        let Marks { grant, .. } = self;
        *grant
    }

    /// The first answer of a slot below 22, since its last `irq-`, that serves an interrupter of the
    /// kind.
    pub fn served_since(&self, slot: u8, kind: IrqKind) -> Option<u64>
        requires { slot < 22 }
        ensures { OfNumbered self.now (λ p k. result ≡ served_since p k (Slot slot) kind) }
    {
        match kind {
            IrqKind::Roak => self.acknowledged[usize::from(slot)],
            IrqKind::Rora => self.accessed[usize::from(slot)],
        }
    }

    /// The last `ds-` of a slot below 22 since its last `as-`.
    pub fn strobed_at(&self, slot: u8) -> Option<u64>
        requires { slot < 22 }
        ensures { OfNumbered self.now (λ _ k. result ≡ strobed_at k (Slot slot)) }
    {
        self.strobes[usize::from(slot)]
    }

    /// How many cycles a slot below 22 began since its last `bbsy-`, where they are below 2^64.
    pub fn made(&self, slot: u8) -> u64
        requires { slot < 22 }
        ensures { OfNumbered self.now (λ _ k. cycles (edges_in k) (Slot slot) < 2 ^ 64
            → result ≡ cycles (edges_in k) (Slot slot)) }
    {
        self.made[usize::from(slot)]
    }
}
