//! Whether a driver may move one of its wires to the other state.
ghost use Rattle.std.specs.Prelude.{◌≡◌, true, false};
ghost use Rattle.vme_model.specs.declared.signals.Driver.TheVariants.{Controller, Slot};
ghost use Rattle.vme_model.specs.Offers.{turned};
ghost use Rattle.vme_model.specs.Open.{showing};
ghost use Rattle.vme_histories.specs.Offered.{is_open};
ghost use Rattle.vme_model.specs.declared.signals.Part.TheVariants as parts;
ghost use Rattle.vme_model.specs.Signals.{is_of};

use crate::states::BusState;
use vme_model::{Cycle, Driver, Edge, Wire};

/// The edge of a wire in that direction, without a value.
#[inline(always)]
fn edge_to(driver: Driver, wire: Wire, fall: bool) -> Edge
    ensures { result ≡ record { driver = driver; wire = wire; fall = fall; value = None } }
{
    Edge {
        driver,
        wire,
        fall,
        value: None,
    }
}

impl BusState {
    ghost use Rattle.vme_bus.specs.States.{OfHistory};

    /// Whether the rules allow the controller to move the wire to its other state, without a value.
    #[inline(always)]
    pub(crate) fn may_control(&self, wire: Wire) -> bool
        ensures { OfHistory self.now (λ version p h.
            result ≡ is_open version p h (turned h Controller wire)) }
    {
        let fall = !self.is_driven_low(Driver::Controller, wire);
        if !self.exists(edge_to(Driver::Controller, wire, fall)) {
            return false;
        }
        let (_rule, is_allowed): (u8, bool) = self.controller_rule(wire, fall);
        let (_number, settles): (u8, bool) = self.settling(wire, fall);
        is_allowed & settles
    }

    /// Whether the rules allow the slot's requester to move the wire to its other state, without a
    /// value.
    #[inline(always)]
    pub(crate) fn may_request(&self, slot: u8, wire: Wire) -> bool
        requires { is_of parts.Requester wire ≡ true }
        ensures { OfHistory self.now (λ version p h.
            result ≡ is_open version p h (turned h (Slot slot) wire)) }
    {
        // No board stands in a slot beyond 21.
        if slot > 21 {
            return false;
        }
        let fall = !self.is_driven_low(Driver::Slot(slot), wire);
        if !self.exists(edge_to(Driver::Slot(slot), wire, fall)) {
            return false;
        }
        let (_rule, is_allowed): (u8, bool) = self.requester_rule(slot, wire, fall);
        is_allowed
    }

    /// Whether the rules allow the slot's master to move the wire to its other state, without a
    /// value.
    #[inline(always)]
    pub(crate) fn may_transfer(&self, slot: u8, wire: Wire) -> bool
        requires { is_of parts.Master wire ≡ true }
        ensures { OfHistory self.now (λ version p h.
            result ≡ is_open version p h (turned h (Slot slot) wire)) }
    {
        // No board stands in a slot beyond 21.
        if slot > 21 {
            return false;
        }
        let fall = !self.is_driven_low(Driver::Slot(slot), wire);
        if !self.exists(edge_to(Driver::Slot(slot), wire, fall)) {
            return false;
        }
        let (_rule, is_allowed): (u8, bool) = self.master_rule(slot, wire, fall, None);
        let (_number, settles): (u8, bool) = self.settling(wire, fall);
        is_allowed & settles
    }

    /// Whether the rules allow the slot's interrupter, or what answers cycles, to move the wire to
    /// its other state, without a value.
    #[inline(always)]
    pub(crate) fn may_interrupt(&self, slot: u8, wire: Wire) -> bool
        requires { is_of parts.Interrupter wire ≡ true }
        ensures { OfHistory self.now (λ version p h.
            result ≡ is_open version p h (turned h (Slot slot) wire)) }
    {
        // No board stands in a slot beyond 21.
        if slot > 21 {
            return false;
        }
        let fall = !self.is_driven_low(Driver::Slot(slot), wire);
        if !self.exists(edge_to(Driver::Slot(slot), wire, fall)) {
            return false;
        }
        let (_rule, is_allowed): (u8, bool) = self.interrupter_rule(slot, wire, fall);
        is_allowed
    }

    /// Whether the rules allow the slot's address group to go on with the cycle.
    #[inline(always)]
    pub(crate) fn may_show(&self, slot: u8, cycle: Cycle) -> bool
        ensures { OfHistory self.now (λ version p h.
            result ≡ is_open version p h (showing (Slot slot) cycle)) }
    {
        let edge = Edge {
            driver: Driver::Slot(slot),
            wire: Wire::Addr,
            fall: true,
            value: Some(cycle),
        };
        edge.is_well_formed() && self.judge_master(edge).is_ok()
    }
}
