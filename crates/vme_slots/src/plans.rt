//! The plan, with the slots that work each daisy chain.
ghost use Rattle.std.specs.Prelude.{◌≡◌, ◌≢◌, IfOk, IfErr, is_some};
ghost use Rattle.std.specs.Option.{option_copied};
ghost use Rattle.vme_model.specs.Accepted.{IsAccepted};

use crate::boards::{active_slots, row_in};
use crate::faults::Draft;
use arrayvec::ArrayVec;
use std::alloc::{AllocError, Global};
use std::marker::Model;
use vme_model::{ArbiterKind, ChainId, Driver, Jumper, PlanError, Row};

/// The most drivers of a plan: the controller, and a board in each of 21 slots. Source: Std 1014,
/// chapter 7.
pub const DRIVERS: usize = 22;

/// An accepted plan: its slots, boards, jumpers and arbiter, and which slots work each daisy chain.
#[derive(Drop)]
pub struct Plan {
    slots: u8,
    rows: Vec<Row>,
    jumpers: Vec<Jumper>,
    arbiter: ArbiterKind,
    active: ActiveSlots,
}

/// The slots that work each chain, ascending.
#[derive(Drop)]
struct ActiveSlots {
    bg0: Vec<u8>,
    bg1: Vec<u8>,
    bg2: Vec<u8>,
    bg3: Vec<u8>,
    iack: Vec<u8>,
}

impl Model for Plan {
    ghost use Rattle.std.specs.Prelude.{◌≡◌};
    ghost use Rattle.vme_model.specs.Plan.{Plan as PlanValue, active as active_slots};
    ghost use Rattle.vme_model.specs.Accepted.{IsAccepted};
    ghost use Rattle.vme_model.specs.declared.sets.ChainId.TheVariants as chain;

    ghost Value = { PlanValue };

    ghost view = { λ a. record {
      slots = a.slots;
      rows = a.rows.items;
      jumpers = a.jumpers.items;
      arbiter = a.arbiter;
    } };

    ghost invariant = { λ a.
        let p : PlanValue = record {
          slots = a.slots;
          rows = a.rows.items;
          jumpers = a.jumpers.items;
          arbiter = a.arbiter;
        } in
        IsAccepted p
        × (a.active.bg0.items ≡ active_slots p chain.Bg0)
        × (a.active.bg1.items ≡ active_slots p chain.Bg1)
        × (a.active.bg2.items ≡ active_slots p chain.Bg2)
        × (a.active.bg3.items ≡ active_slots p chain.Bg3)
        × (a.active.iack.items ≡ active_slots p chain.Iack) };
}

impl Plan {
    ghost use Rattle.vme_model.specs.Plan.{active, upstream, last_active, board, drivers};
    ghost use Rattle.vme_model.specs.Accepted.{IsAccepted, plan_fault};

    /// The plan of these boards and jumpers.
    ///
    /// The boards stand in slots 1 to `slots`, at most 21, in any order. Source: P1 to P9 of the
    /// rules for plans; the order of the tests is profile.
    ///
    /// # Errors
    /// The first fault, in the order P2, P8, P1, P3, P4, P5, P6, P7. P9 only if the plan has no
    /// fault and memory runs out.
    pub fn new(
        alloc: Global,
        slots: u8,
        rows: &[Row],
        jumpers: &[Jumper],
        arbiter: ArbiterKind,
    ) -> Result<Plan, PlanError>
        ensures plan { IfOk result (λ p.
            p ≡
            record { slots = slots; rows = rows.now; jumpers = jumpers.now; arbiter = arbiter }) }
        ensures accepted { IfOk result (λ p. IsAccepted p) }
        ensures refused { IfErr result (λ e. e ≢ PlanError.Memory →
            plan_fault
            (record { slots = slots; rows = rows.now; jumpers = jumpers.now; arbiter = arbiter })
            ≡ Some e) }
        ensures memory { IfErr result (λ e. e ≡ PlanError.Memory →
            IsAccepted
            (record { slots = slots; rows = rows.now; jumpers = jumpers.now; arbiter = arbiter })) }
    {
        if let Some(fault) = Draft::new(slots, rows, jumpers, arbiter).fault() {
            return Err(fault);
        }
        accepted_plan(alloc, slots, rows, jumpers, arbiter).map_err(|_| PlanError::Memory)
    }

    /// A law: the plan has no fault. The call costs nothing, and gives that fact to the prover.
    pub fn accepted(&self)
        ensures { IsAccepted self.now }
    {
        let _slots = self.slots;
    }

    /// How many slots the backplane has, 1 to 21.
    pub fn slots(&self) -> u8
        ensures { result ≡ self.now.slots }
    {
        self.slots
    }

    /// The arbiter's policy.
    pub fn arbiter(&self) -> ArbiterKind
        ensures { result ≡ self.now.arbiter }
    {
        self.arbiter
    }

    /// The boards, in the order in which they were given.
    pub fn rows(&self) -> &[Row]
        ensures { result.now ≡ self.now.rows }
    {
        &self.rows
    }

    /// The jumpers, in the order in which they were given.
    pub fn jumpers(&self) -> &[Jumper]
        ensures { result.now ≡ self.now.jumpers }
    {
        &self.jumpers
    }

    /// The board in a slot, if there is one. It is none for slot 0 and for slots beyond the
    /// backplane.
    pub fn row(&self, slot: u8) -> Option<&Row>
        ensures { option_copied result ≡ board self.now slot }
    {
        row_in(self.rows(), slot)
    }

    /// Whether there is a board in the slot. It is false for slot 0 and for slots beyond the
    /// backplane.
    pub fn has_board(&self, slot: u8) -> bool
        ensures { result ≡ is_some (board self.now slot) }
    {
        self.row(slot).is_some()
    }

    /// The drivers of the backplane: the controller, then each board by slot.
    pub fn drivers(&self) -> ArrayVec<Driver, DRIVERS>
        ensures { result.items ≡ drivers self.now }
    {
        self.accepted();
        let mut drivers = ArrayVec::new();
        drivers.push(Driver::Controller);
        for below in 0..self.slots() {
            let slot = below + 1;
            if self.has_board(slot) {
                drivers.push(Driver::Slot(slot));
            }
        }
        drivers
    }

    /// The slots whose board works the chain, ascending. Source: Std 1014, chapters 3 and 4.
    pub fn active(&self, chain: ChainId) -> &[u8]
        ensures { result.now ≡ active self.now chain }
    {
        match chain {
            ChainId::Bg0 => &self.active.bg0,
            ChainId::Bg1 => &self.active.bg1,
            ChainId::Bg2 => &self.active.bg2,
            ChainId::Bg3 => &self.active.bg3,
            ChainId::Iack => &self.active.iack,
        }
    }

    /// The greatest slot below this one that works the chain. If there is none, the controller
    /// drives the slot's input. Source: Std 1014, chapters 3 and 4.
    pub fn upstream(&self, chain: ChainId, slot: u8) -> Option<u8>
        ensures { result ≡ upstream self.now chain slot }
    {
        self.active(chain)
            .iter()
            .rev()
            .copied()
            .find(|other| *other < slot)
    }

    /// The greatest slot that works the chain; none if no board works it.
    pub fn last_active(&self, chain: ChainId) -> Option<u8>
        ensures { result ≡ last_active self.now chain }
    {
        self.active(chain).last().copied()
    }
}

/// The plan of boards and jumpers that have no fault.
fn accepted_plan(
    alloc: Global,
    slots: u8,
    rows: &[Row],
    jumpers: &[Jumper],
    arbiter: ArbiterKind,
) -> Result<Plan, AllocError>
    requires { IsAccepted
        (record { slots = slots; rows = rows.now; jumpers = jumpers.now; arbiter = arbiter }) }
    ensures { IfOk result (λ p.
        p ≡ record { slots = slots; rows = rows.now; jumpers = jumpers.now; arbiter = arbiter }) }
{
    Ok(Plan {
        slots,
        rows: Vec::from_slice(alloc, rows)?,
        jumpers: Vec::from_slice(alloc, jumpers)?,
        arbiter,
        active: ActiveSlots {
            bg0: active_slots(alloc, slots, rows, ChainId::Bg0)?,
            bg1: active_slots(alloc, slots, rows, ChainId::Bg1)?,
            bg2: active_slots(alloc, slots, rows, ChainId::Bg2)?,
            bg3: active_slots(alloc, slots, rows, ChainId::Bg3)?,
            iack: active_slots(alloc, slots, rows, ChainId::Iack)?,
        },
    })
}
