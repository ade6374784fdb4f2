//! The kinds of beginnings from which nothing longer comes than was found.
ghost use Rattle.std.specs.Prelude.{◌≡◌, ◌+◌, ◌<◌, ◌⊎◌, ℕ, List, true, length, IfErr, IfOk};
ghost use Rattle.vme_moments.specs.Orders.{has};
ghost use Rattle.vme_order.specs.declared.dead.Kind.{Kind as KindValue};
ghost use Rattle.vme_order.specs.Places.{AreTaken, IsCounted};
ghost use Rattle.vme_order.specs.Searching.{IsOfKind, Keeps, LeadsTo, Task};

use crate::taken::Taken;
use crate::{OrderFault, WINDOW};
use std::alloc::Global;
use vme_bus::{BusKind, BusState};

/// How many kinds are remembered.
const REMEMBERED: usize = 32_768;

/// The kind of a beginning: the places in it, and what its edges lead to.
#[derive(Clone, Copy, PartialEq, Eq)]
pub(crate) struct Kind {
    /// How many places are in it.
    count: usize,
    /// The least place that is not in it.
    least: usize,
    /// Which of the places from there on are. None behind them is.
    window: [bool; WINDOW],
    bus: BusKind,
}

impl Kind {
    /// That of a beginning with so many places, these, whose edges lead to this state.
    pub(crate) fn of(count: usize, taken: &Taken, state: &BusState) -> Kind
        requires { IsCounted taken.now }
        ensures { (t : Task) (places : List ℕ) → LeadsTo t places state.now
            → length places ≡ count → AreTaken t.seen places taken.now
            → ((i : ℕ) → has places i ≡ true → i < taken.now.least + 128)
            → IsOfKind t places result }
    {
        Kind {
            count,
            least: taken.least(),
            window: taken.window(),
            bus: state.to_kind(),
        }
    }

    /// A number that is the same for equal kinds, and seldom for others.
    fn to_number(&self) -> u64 {
        let mut number = self.bus.to_number() ^ self.least as u64;
        for is_taken in &self.window {
            number = number.rotate_left(1) ^ u64::from(*is_taken);
        }
        number.wrapping_mul(0x9e37_79b9_7f4a_7c15) >> 32
    }
}

/// Some kinds of beginnings from which nothing longer comes: a later one may take the place of an
/// earlier.
#[derive(Drop)]
pub(crate) struct Dead {
    kinds: Vec<Option<Kind>>,
}

impl Dead {
    /// None so far.
    pub(crate) fn new(alloc: Global) -> Result<Dead, OrderFault>
        ensures room { IfOk result (λ dead. length dead.kinds.items ≡ 32768) }
        ensures none { IfOk result (λ dead. (kind : KindValue) → ¬ (Keeps dead kind)) }
        ensures fault { IfErr result (λ fault. fault ≡ OrderFault.NoMemory) }
    {
        let mut kinds = Vec::new(alloc);
        match kinds.resize(REMEMBERED, None) {
            Ok(()) => Ok(Dead { kinds }),
            Err(_) => Err(OrderFault::NoMemory),
        }
    }

    /// Where a kind is remembered.
    fn place_of(&self, kind: &Kind) -> usize
        ensures { result < 32768 }
    {
        (kind.to_number() % REMEMBERED as u64) as usize
    }

    /// Whether the kind is remembered.
    pub(crate) fn has(&self, kind: &Kind) -> bool
        requires { length self.now.kinds.items ≡ 32768 }
        ensures { result ≡ true → Keeps self.now kind.now }
    {
        match &self.kinds[self.place_of(kind)] {
            Some(known) => *known == *kind,
            None => false,
        }
    }

    /// Remembers a kind.
    pub(crate) fn note(&mut self, kind: Kind)
        requires { length self.old.kinds.items ≡ 32768 }
        ensures room { length self.new.kinds.items ≡ 32768 }
        ensures kept { (other : KindValue) → Keeps self.new other
            → (other ≡ kind) ⊎ Keeps self.old other }
    {
        let place = self.place_of(&kind);
        self.kinds[place] = Some(kind);
    }
}
