//! Where a bus stands: which wires are low, who holds it, where a grant travels, and what is shown.
ghost use Rattle.std.specs.Prelude.{◌≡◌, ◌<◌, ℕ, true, option_map, IfSome, IsSomeAnd, IsTrue};
ghost use Rattle.std.specs.Option.{option_map_or, option_and_then};
ghost use Rattle.vme_model.specs.Signals.{has_wire, is_in_range, is_slot};
ghost use Rattle.vme_model.specs.Plan.{board, has_driver};
ghost use Rattle.vme_model.specs.History.{addressing, drive, last_level, shown};
ghost use Rattle.vme_model.specs.GrantSafety.{Travels};
ghost use Rattle.vme_model.specs.Stands.{grant_at, holder};
ghost use Rattle.vme_bus.specs.Steps.{is_stop};

use crate::buses::Bus;
use crate::records::slot_in;
use crate::states::BusState;
use vme_model::{Cycle, Driver, Wire};

/// The most slots of a backplane.
const MOST_SLOTS: u8 = 21;

impl BusState {
    ghost use Rattle.vme_bus.specs.States.{OfHistory};

    /// Whether it has as many slots as a backplane can have: false of a record that no bus was made
    /// in.
    #[inline(always)]
    pub fn is_bus(&self) -> bool
        ensures bus { OfHistory self.now (λ _ _ _. result ≡ true) }
        ensures slots { result ≡ is_slot self.now.layout.slots }
    {
        (1..=MOST_SLOTS).contains(&self.layout.slots)
    }

    /// The slot that holds the bus.
    pub fn holder(&self) -> Option<u8>
        ensures { OfHistory self.now (λ _ p h. result ≡ holder p h) }
    {
        for slot in 1..=self.layout.slots {
            if self.bbsy.has(slot) {
                return Some(slot);
            }
        }
        None
    }

    /// Whether a grant stands at the slot, whose board has neither passed it on nor taken the bus.
    fn is_stop(&self, slot: u8) -> bool
        ensures { OfHistory self.now (λ _ p h. result ≡ is_stop p h slot) }
    {
        self.granted.except(self.grants).except(self.bbsy).has(slot)
    }

    /// The slot at which a grant travels: its input is low, while its board has neither passed the
    /// grant on nor taken the bus (chapter 3 of the standard). There is one at most.
    pub fn grant_at(&self) -> Option<u8>
        ensures { OfHistory self.now (λ _ p h.
            result ≡ option_map (λ at. at.1) (grant_at p h)) }
    {
        for slot in 1..=self.layout.slots {
            if self.is_stop(slot) {
                return Some(slot);
            }
        }
        None
    }
}

/// A grant that travels, by where it stands.
#[derive(Clone, Copy, PartialEq, Eq, Debug)]
pub struct Grant {
    /// Its level, 0 to 3.
    pub level: u8,
    /// The slot that it stands at, 1 to 21.
    pub slot: u8,
}

impl Bus {
    /// Whether the plan has the driver, with such a wire.
    pub fn has_driver(&self, driver: Driver, wire: Wire) -> bool
        ensures has { result ≡ has_driver self.now.plan driver wire }
        ensures wire { result ≡ true → has_wire driver wire ≡ true }
    {
        self.laws();
        self.state().has_driver(driver, wire)
    }

    /// Whether a driver's wire is low, or its address group on; never one that the driver lacks.
    pub fn is_low(&self, driver: Driver, wire: Wire) -> bool
        ensures low { result ≡ drive self.now.history driver wire }
        ensures had { result ≡ true → has_wire driver wire ≡ true }
    {
        self.laws();
        self.state().is_driven_low(driver, wire)
    }

    /// The slot that holds the bus, 1 to 21.
    pub fn holder(&self) -> Option<u8>
        ensures slot { result ≡ holder self.now.plan self.now.history }
        ensures range { IfSome result (λ s. IsTrue (is_slot s)) }
    {
        self.laws();
        self.state().holder()
    }

    /// The grant level of the slot's requester; 0 if there is none.
    fn grant_level(&self, slot: u8) -> u8
        ensures { result ≡ option_map_or (λ q. q.level)
            (option_and_then (λ r. r.requester) (board self.now.plan slot)) 0 }
    {
        let requester = match self.plan().row(slot) {
            Some(row) => row.requester,
            None => None,
        };
        match requester {
            Some(requester) => requester.level,
            None => 0,
        }
    }

    /// The grant that travels: it stands at the slot whose input of its level is low, while the
    /// board there has neither passed it on nor taken the bus (chapter 3 of the standard). There is
    /// one at most.
    pub fn grant_at(&self) -> Option<Grant>
        ensures at { option_map (λ g. (g.level, g.slot)) result
            ≡ grant_at self.now.plan self.now.history }
        ensures range { IfSome result (λ g. (g.level < 4) × IsTrue (is_slot g.slot)) }
        ensures only { (n s : ℕ) → Travels self.now.plan self.now.history n s
            → IsSomeAnd result (λ g. (g.level ≡ n) × (g.slot ≡ s)) }
    {
        self.laws();
        self.safety();
        match self.state().grant_at() {
            Some(slot) => Some(Grant {
                level: self.grant_level(slot),
                slot,
            }),
            None => None,
        }
    }

    /// The slot whose address group is on, 1 to 21.
    pub fn addressing(&self) -> Option<u8>
        ensures slot { result ≡ addressing self.now.plan self.now.history }
        ensures range { IfSome result (λ s. IsTrue (is_slot s)) }
    {
        self.laws();
        slot_in(self.state().addressing)
    }

    /// What the address lines show: an acknowledge of level 1 to 7, or an access to slot 1 to 21.
    pub fn shown(&self) -> Option<Cycle>
        ensures cycle { result ≡ shown self.now.plan self.now.history }
        ensures range { IfSome result (λ c. IsTrue (is_in_range c)) }
    {
        self.laws();
        self.state().shown()
    }

    /// The level last granted, 0 if there was no grant.
    pub fn last_level(&self) -> u8
        ensures { result ≡ last_level self.now.history }
    {
        self.state().last_level
    }
}
