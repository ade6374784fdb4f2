//! What a state of the bus has to answer, in whatever form it is kept.
ghost use Rattle.std.specs.Prelude.{◌≡◌, List, true, option_map};
ghost use Rattle.vme_model.specs.declared.signals.Edge.{Edge as EdgeValue};
ghost use Rattle.vme_model.specs.declared.signals.Version.{Version as VersionValue};
ghost use Rattle.vme_model.specs.Plan.{Plan as PlanValue, board};
ghost use Rattle.vme_model.specs.History.{drive, interrupt_line};
ghost use Rattle.vme_model.specs.declared.signals.Driver.TheVariants.{Controller, Slot};
ghost use Rattle.vme_model.specs.Offers.{next_board, turned};
ghost use Rattle.vme_model.specs.Open.{showing};
ghost use Rattle.vme_model.specs.Sets.{irq_levels};
ghost use Rattle.vme_histories.specs.Offered.{is_open};
ghost use Rattle.vme_histories.specs.Judged.{OfState, may_grant};
ghost use Rattle.vme_model.specs.declared.signals.Part.TheVariants as parts;
ghost use Rattle.vme_model.specs.Signals.{is_of as is_wire_of};

use vme_model::{Cycle, Driver, Levels, Wire};

/// Parts of a board that wait for an edge of another driver. The rules then allow none of the edges
/// that are considered for their wires. Source: profile.
#[derive(Clone, Copy)]
pub struct Waiting {
    pub requester: bool,
    pub master: bool,
    /// The interrupter, and the wire by which the board answers cycles.
    pub interrupter: bool,
}

/// A state of the bus, to which its edges so far lead.
///
/// The offers of a driver and its open edges are made of these answers, once for all kinds of
/// state: by `put_controller`, `put_parts` and `open_edges_of`.
pub trait Judges {
    /// It is the state to which the history leads.
    ghost is_of: { VersionValue → PlanValue → List EdgeValue → Self → Type 0 };

    /// Whether the driver's own wire is low, or its address group on.
    fn is_low(&self, driver: Driver, wire: Wire) -> bool
        ensures { OfState is_of self.now (λ _ _ h. result ≡ drive h driver wire) };

    /// Whether the rules allow the controller's edge that has no value and moves the wire to its
    /// other state.
    fn may_control(&self, wire: Wire) -> bool
        ensures { OfState is_of self.now (λ version p h.
            result ≡ is_open version p h (turned h Controller wire)) };

    /// Whether the rules allow the edge of the slot's requester that has no value and moves the
    /// wire to its other state.
    fn may_request(&self, slot: u8, wire: Wire) -> bool
        requires { is_wire_of parts.Requester wire ≡ true }
        ensures { OfState is_of self.now (λ version p h.
            result ≡ is_open version p h (turned h (Slot slot) wire)) };

    /// Whether the rules allow the edge of the slot's master that has no value and moves the wire
    /// to its other state.
    fn may_transfer(&self, slot: u8, wire: Wire) -> bool
        requires { is_wire_of parts.Master wire ≡ true }
        ensures { OfState is_of self.now (λ version p h.
            result ≡ is_open version p h (turned h (Slot slot) wire)) };

    /// Whether the rules allow the edge of the slot's interrupter, or of its board's `dtack`, that
    /// has no value and moves the wire to its other state.
    fn may_interrupt(&self, slot: u8, wire: Wire) -> bool
        requires { is_wire_of parts.Interrupter wire ≡ true }
        ensures { OfState is_of self.now (λ version p h.
            result ≡ is_open version p h (turned h (Slot slot) wire)) };

    /// Whether the rules allow the slot's address group to go on with this cycle.
    fn may_show(&self, slot: u8, cycle: Cycle) -> bool
        ensures { OfState is_of self.now (λ version p h.
            result ≡ is_open version p h (showing (Slot slot) cycle)) };

    /// Whether the controller's grants are high, and the bus is free.
    fn may_grant(&self) -> bool
        ensures { OfState is_of self.now (λ _ p h. result ≡ may_grant p h) };

    /// The interrupt request lines that are low.
    fn low_interrupts(&self) -> Levels
        ensures { OfState is_of self.now (λ _ p h. result ≡ irq_levels (interrupt_line p h)) };

    /// The next slot above this one with a board. After the greatest slot the least follows.
    fn next_board(&self, slot: u8) -> Option<u8>
        ensures { OfState is_of self.now (λ _ p _. result ≡ next_board p slot) };

    /// The levels that the slot's board handles; none if there is no board.
    fn handled(&self, slot: u8) -> Option<Levels>
        ensures { OfState is_of self.now (λ _ p _. result
            ≡ option_map (λ r. r.handler) (board p slot)) };
}
