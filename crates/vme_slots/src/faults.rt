//! The tests that a plan has to pass, one function for each fault.
ghost use Rattle.std.specs.Prelude.{◌≡◌, ◌&&◌, length, filter, find, nat_lt};
ghost use Rattle.std.specs.List.{list_any};
ghost use Rattle.std.specs.Option.{option_copied};
ghost use Rattle.vme_model.specs.Sets.{has_level};
ghost use Rattle.vme_model.specs.Plan.{board, works};
ghost use Rattle.vme_model.specs.Accepted.{chains, plan_fault, too_many_slots, out_of_range, no_controller, slot_twice, namings, chain_broken, is_joined, is_broken, level_not_served, handler_twice, handler_without_requester};

use crate::boards::{handlers_of, jumpers_of, row_in, rows_of};
use crate::ranges::{jumpers_range, rows_range};
use bitflags::Flags;
use std::marker::Model;
use vme_model::{ArbiterKind, ChainId, Field, Jumper, PlanError, Row};

/// The greatest number of slots of a backplane. Source: Std 1014, chapter 7.
const MOST_SLOTS: u8 = 21;

const LEVELS: [u8; 7] = [1, 2, 3, 4, 5, 6, 7];

const CHAINS: [ChainId; 5] = [
    ChainId::Bg0,
    ChainId::Bg1,
    ChainId::Bg2,
    ChainId::Bg3,
    ChainId::Iack,
];

/// A plan that has not been tested yet.
#[derive(Drop)]
pub struct Draft<'a> {
    slots: u8,
    rows: &'a [Row],
    jumpers: &'a [Jumper],
    arbiter: ArbiterKind,
}

impl<'a> Model for Draft<'a> {
    ghost use Rattle.vme_model.specs.Plan.{Plan};

    ghost Value = { Plan };

    ghost view = { λ d. record {
      slots = d.slots;
      rows = d.rows.now;
      jumpers = d.jumpers.now;
      arbiter = d.arbiter;
    } };
}

impl<'a> Draft<'a> {
    /// The untested plan of these boards and jumpers.
    pub fn new(slots: u8, rows: &'a [Row], jumpers: &'a [Jumper], arbiter: ArbiterKind) -> Self
        ensures { result ≡
            record { slots = slots; rows = rows.now; jumpers = jumpers.now; arbiter = arbiter } }
    {
        Draft {
            slots,
            rows,
            jumpers,
            arbiter,
        }
    }

    /// The first fault, in the order of the tests: P2, P8, P1, P3, P4, P5, P6, P7. Source: profile
    /// (the order).
    pub fn fault(&self) -> Option<PlanError>
        ensures { result ≡ plan_fault self.now }
    {
        if let Some(fault) = self.too_many_slots() {
            return Some(fault);
        }
        if let Some(fault) = self.out_of_range() {
            return Some(fault);
        }
        if let Some(fault) = self.no_controller() {
            return Some(fault);
        }
        if let Some(fault) = self.slot_twice() {
            return Some(fault);
        }
        if let Some(fault) = self.chain_broken() {
            return Some(fault);
        }
        if let Some(fault) = self.level_not_served() {
            return Some(fault);
        }
        if let Some(fault) = self.handler_twice() {
            return Some(fault);
        }
        self.handler_without_requester()
    }

    /// P2: the plan has more slots than a backplane can have. Source: Std 1014, chapter 7.
    fn too_many_slots(&self) -> Option<PlanError>
        ensures { result ≡ too_many_slots self.now }
    {
        (self.slots > MOST_SLOTS).then_some(PlanError::TooManySlots { slots: self.slots })
    }

    /// P8: the first field that is out of range: the number of slots, then row by row, then jumper
    /// by jumper. Source: profile.
    fn out_of_range(&self) -> Option<PlanError>
        ensures { result ≡ out_of_range self.now }
    {
        if self.slots == 0 {
            return Some(PlanError::OutOfRange {
                field: Field::Slots,
            });
        }
        if let Some(field) = rows_range(self.slots, self.rows) {
            return Some(PlanError::OutOfRange { field });
        }
        jumpers_range(self.slots, self.jumpers).map(|field| PlanError::OutOfRange { field })
    }

    /// P1: no board stands in slot 1. Source: Std 1014, chapter 3 (the arbiter stands in slot 1).
    fn no_controller(&self) -> Option<PlanError>
        ensures { result ≡ no_controller self.now }
    {
        match self.board(1) {
            Some(_) => None,
            None => Some(PlanError::NoController),
        }
    }

    /// The board in a slot, if there is one.
    fn board(&self, slot: u8) -> Option<&Row>
        ensures { option_copied result ≡ board self.now slot }
    {
        row_in(self.rows, slot)
    }

    /// P3: the least slot that is named more than once. Source: profile.
    fn slot_twice(&self) -> Option<PlanError>
        ensures { result ≡ slot_twice self.now }
    {
        for slot in 1..=self.slots {
            if self.is_named_twice(slot) {
                return Some(PlanError::SlotTwice { slot });
            }
        }
        None
    }

    /// Whether more than one row or jumper names the slot.
    #[tactic(auto, using(crate::proofs::Slots::namings_are))]
    fn is_named_twice(&self, slot: u8) -> bool
        ensures { result ≡ nat_lt 1 (namings self.now slot) }
    {
        rows_of(self.rows, slot) + jumpers_of(self.jumpers, slot) > 1
    }

    /// P4: the least slot that breaks a chain, with the least chain that it breaks. Source: Std
    /// 1014, chapters 3 and 4.
    fn chain_broken(&self) -> Option<PlanError>
        ensures { result ≡ chain_broken self.now }
    {
        for slot in 1..=self.slots {
            if let Some(chain) = self.broken_among(slot, &CHAINS) {
                return Some(PlanError::ChainBroken { slot, chain });
            }
        }
        None
    }

    /// The first of these chains that the slot breaks.
    fn broken_among(&self, slot: u8, chains: &[ChainId]) -> Option<ChainId>
        ensures { result ≡ find (is_broken self.now slot) chains.now }
    {
        chains
            .iter()
            .copied()
            .find(|chain| self.is_broken(slot, *chain))
    }

    /// Whether the slot is empty and does not join a chain that a higher slot works.
    fn is_broken(&self, slot: u8, chain: ChainId) -> bool
        ensures { result ≡ is_broken self.now slot chain }
    {
        self.board(slot).is_none()
            && !self.is_joined(slot, chain)
            && self.is_worked_above(slot, chain)
    }

    /// Whether a jumper of the slot joins the chain.
    fn is_joined(&self, slot: u8, chain: ChainId) -> bool
        ensures { result ≡ is_joined self.now slot chain }
    {
        self.jumpers
            .iter()
            .any(|jumper| jumper.slot == slot && jumper.chains.has(chain))
    }

    /// Whether a board above the slot works the chain.
    fn is_worked_above(&self, slot: u8, chain: ChainId) -> bool
        ensures { result ≡ list_any (λ r. nat_lt slot r.slot && works chain r) self.now.rows }
    {
        self.rows
            .iter()
            .any(|row| slot < row.slot && row.works(chain))
    }

    /// P5: the first row whose requester SGL does not serve. Source: Std 1014, chapter 3 (SGL
    /// serves level 3 alone).
    fn level_not_served(&self) -> Option<PlanError>
        ensures { result ≡ level_not_served self.now }
    {
        let single = self.arbiter == ArbiterKind::Sgl;
        self.rows
            .iter()
            .find(|row| single && row.requester.is_some_and(|requester| requester.level != 3))
            .map(|row| PlanError::LevelNotServed { slot: row.slot })
    }

    /// P6: the least level that two rows handle. Source: Std 1014, chapter 4.
    fn handler_twice(&self) -> Option<PlanError>
        ensures { result ≡ handler_twice self.now }
    {
        self.handled_twice_among(&LEVELS)
            .map(|level| PlanError::HandlerTwice { level })
    }

    /// The first of these levels that more than one row handles.
    fn handled_twice_among(&self, levels: &[u8]) -> Option<u8>
        ensures { result ≡
            find (λ v. nat_lt 1 (length (filter (λ r. has_level r.handler v) self.now.rows)))
            levels.now }
    {
        levels
            .iter()
            .copied()
            .find(|level| handlers_of(self.rows, *level) > 1)
    }

    /// P7: the first row that has a handler and no requester. Source: profile.
    fn handler_without_requester(&self) -> Option<PlanError>
        ensures { result ≡ handler_without_requester self.now }
    {
        self.rows
            .iter()
            .find(|row| row.handler.bits() > 0 && row.requester.is_none())
            .map(|row| PlanError::HandlerWithoutRequester { slot: row.slot })
    }
}
