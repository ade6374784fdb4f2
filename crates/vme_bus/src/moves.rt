//! What an edge makes of a state.
ghost use Rattle.std.specs.Prelude.{◌≡◌, ◌==◌, ◌&&◌, ◌∷◌, ◌<◌, ℕ, Ok, true, false};
ghost use Rattle.vme_model.specs.declared.signals.Driver.TheVariants as driver;
ghost use Rattle.vme_model.specs.declared.signals.Part.TheVariants as parts;
ghost use Rattle.vme_model.specs.Signals.{grant_level, is_of};
ghost use Rattle.vme_model.specs.Plan.{board};
ghost use Rattle.vme_model.specs.History.{shown};
ghost use Rattle.vme_model.specs.Verdict.{verdict_but_full};
ghost use Rattle.vme_histories.specs.Shown.{addressing_after};
ghost use Rattle.vme_bus.specs.Sets.{has};
ghost use Rattle.vme_bus.specs.Records.{cycle_in, slot_in};
ghost use Rattle.vme_bus.specs.Layouts.{grant_head, set_at};
ghost use Rattle.vme_bus.specs.Moves.{MovesPlace, MovesSlots, turned_by, grant_turned_by, FollowsWire, FollowsGrants, served_by, strobed_by, cycles_by, shown_by, last_level_by, is_serving, release_of};

use crate::layouts::{ACKNOWLEDGE_HEAD, grant_head};
use crate::records::{CycleRecord, NO_SLOT};
use crate::sets::SlotSet;
use crate::states::{BUS_CLEAR, BUS_ERROR, BusState};
use vme_interrupter::serves;
use vme_master::one_more;
use vme_model::{Driver, Edge, Part, Release, Wire};

/// The set of the places whose own wire is low, after an edge of a wire of the place.
#[inline(always)]
fn low_after(set: SlotSet, own: Wire, place: u8, wire: Wire) -> SlotSet
    requires { place < 32 }
    ensures { FollowsWire own place wire set result }
{
    if wire.is_same(own) {
        set.turned(place)
    } else {
        set
    }
}

/// The low segments of the grant chains, after an edge of the controller's wire.
#[inline(always)]
fn grants_after(set: SlotSet, wire: Wire) -> SlotSet
    ensures { FollowsGrants wire set result }
{
    match wire {
        Wire::Bg(level) if level < 4 => set.turned(grant_head(level)),
        _ => set,
    }
}

/// The boards whose inputs are low, after an edge at a place that feeds some by its own wire.
#[inline(always)]
fn inputs_after(set: SlotSet, fed: SlotSet, own: Wire, wire: Wire) -> SlotSet
    ensures { MovesSlots (turned_by own wire) fed set result }
{
    if wire.is_same(own) { set.xor(fed) } else { set }
}

/// The boards whose grant inputs are low, after an edge of the controller's wire.
#[inline(always)]
fn granted_after(set: SlotSet, fed: &[SlotSet; 28], wire: Wire) -> SlotSet
    ensures { MovesSlots (grant_turned_by wire) (set_at fed.now (grant_head (grant_level wire)))
        set result }
{
    match wire {
        Wire::Bg(level) if level < 4 => set.xor(fed[usize::from(grant_head(level))]),
        _ => set,
    }
}

/// The set of the slot alone, or of none.
#[inline(always)]
fn slot_where(slot: u8, is_in: bool) -> SlotSet
    requires { slot < 32 }
    ensures { (s : ℕ) → has result s ≡ (is_in && slot == s) }
{
    if is_in {
        SlotSet::NONE.with(slot)
    } else {
        SlotSet::NONE
    }
}

/// The boards that were served, after an edge of the slot's board, whose answers serve it or not.
///
/// No branch asks whether they do, which no one can foretell.
#[inline(always)]
fn served_after(set: SlotSet, slot: u8, edge: Edge, serves: bool) -> SlotSet
    requires { slot < 32 }
    ensures { MovesPlace (served_by edge.wire edge.fall serves) slot set result }
{
    match (edge.wire, edge.fall) {
        (Wire::Irq, true) => set.without(slot),
        (Wire::Dtack, true) => set.or(slot_where(slot, serves)),
        _ => set,
    }
}

/// The boards whose cycle had its data strobe, after an edge of the slot's board.
#[inline(always)]
fn strobed_after(set: SlotSet, slot: u8, edge: Edge) -> SlotSet
    requires { slot < 32 }
    ensures { MovesPlace (strobed_by edge.wire edge.fall) slot set result }
{
    match (edge.wire, edge.fall) {
        (Wire::AddressStrobe, true) => set.without(slot),
        (Wire::DataStrobe, true) => set.with(slot),
        _ => set,
    }
}

/// The cycles of a board's tenure that count, after an edge of it.
#[inline(always)]
fn cycles_after(cycles: u8, release: Release, edge: Edge) -> u8
    ensures { result ≡ cycles_by edge.wire edge.fall release cycles }
{
    match (edge.wire, edge.fall) {
        (Wire::Bbsy, true) => 0,
        (Wire::AddressStrobe, true) => one_more(cycles, release),
        _ => cycles,
    }
}

/// What is shown, after an edge of a board.
#[inline(always)]
fn shown_after(shown: CycleRecord, edge: Edge) -> CycleRecord
    ensures { cycle_in result ≡ shown_by edge.wire edge.value (cycle_in shown) }
{
    match edge.wire {
        Wire::Addr => CycleRecord::of(edge.value),
        _ => shown,
    }
}

/// The level last granted, after an edge of the controller.
#[inline(always)]
fn last_level_after(last: u8, edge: Edge) -> u8
    ensures { result ≡ last_level_by edge last }
{
    if edge.is_grant() {
        edge.wire.grant_level()
    } else {
        last
    }
}

/// The slot whose address group is on, after an edge of a slot's board.
#[inline(always)]
fn addressing_after(addressing: u8, slot: u8, edge: Edge) -> u8
    requires { slot < 22 }
    ensures { slot_in result ≡ addressing_after (slot_in addressing) slot edge.wire edge.fall }
{
    match (edge.wire, edge.fall) {
        (Wire::Addr, true) => slot,
        (Wire::Addr, false) => NO_SLOT,
        _ => addressing,
    }
}

impl BusState {
    ghost use Rattle.vme_bus.specs.States.{IsStateOf, OfHistory};

    /// Whether an answer of the slot's board to what is shown serves its interrupter.
    #[inline(always)]
    fn is_serving(&self, slot: u8) -> bool
        ensures { OfHistory self.now (λ _ p h. result ≡ is_serving (board p slot) (shown p h)) }
    {
        match self.record(slot) {
            Some(seat) => match seat.interrupter.interrupter() {
                Some(interrupter) => serves(interrupter.kind, self.shown()),
                None => false,
            },
            None => false,
        }
    }

    /// When the requester of the slot's board gives up the bus; without one no cycle counts.
    #[inline(always)]
    pub(crate) fn release(&self, slot: u8) -> Release
        ensures { OfHistory self.now (λ _ p _. result ≡ release_of (board p slot)) }
    {
        match self.record(slot) {
            Some(seat) => match seat.requester.requester() {
                Some(requester) => requester.release,
                None => Release::Request,
            },
            None => Release::Request,
        }
    }

    /// Takes in an edge of the controller that is allowed after a history that the state is of.
    #[inline(always)]
    fn move_controller(&mut self, edge: Edge)
        ensures { OfHistory self.old (λ version p h. edge.driver ≡ driver.Controller
            → verdict_but_full version p h edge ≡ Ok tt
            → IsStateOf version p (edge ∷ h) self.new) }
    {
        self.last_level = last_level_after(self.last_level, edge);
        self.grants = grants_after(self.grants, edge.wire);
        self.granted = granted_after(self.granted, &self.layout.granted_by, edge.wire);
        self.acknowledged = inputs_after(
            self.acknowledged,
            self.layout.acknowledged_by[usize::from(ACKNOWLEDGE_HEAD)],
            Wire::Iack,
            edge.wire,
        );
        self.acknowledges = low_after(self.acknowledges, Wire::Iack, ACKNOWLEDGE_HEAD, edge.wire);
        let bus_clear = low_after(self.controls, Wire::Bclr, BUS_CLEAR, edge.wire);
        self.controls = low_after(bus_clear, Wire::Berr, BUS_ERROR, edge.wire);
    }

    /// Takes in an edge of the slot's requester that is allowed after a history that the state is
    /// of.
    #[inline(always)]
    fn move_requester(&mut self, slot: u8, edge: Edge)
        requires slot { slot < 22 }
        requires part { is_of parts.Requester edge.wire ≡ true }
        ensures { OfHistory self.old (λ version p h. edge.driver ≡ driver.Slot slot
            → verdict_but_full version p h edge ≡ Ok tt
            → IsStateOf version p (edge ∷ h) self.new) }
    {
        let wire = edge.wire;
        let place = usize::from(slot);
        self.br = low_after(self.br, Wire::Br, slot, wire);
        self.bbsy = low_after(self.bbsy, Wire::Bbsy, slot, wire);
        self.grants = low_after(self.grants, Wire::BgOut, slot, wire);
        let granted_by = self.layout.granted_by[place];
        self.granted = inputs_after(self.granted, granted_by, Wire::BgOut, wire);
        self.cycles[place] = cycles_after(self.cycles[place], Release::Request, edge);
    }

    /// Takes in an edge of the slot's master that is allowed after a history that the state is of.
    #[inline(always)]
    fn move_master(&mut self, slot: u8, edge: Edge)
        requires slot { slot < 22 }
        requires part { is_of parts.Master edge.wire ≡ true }
        ensures { OfHistory self.old (λ version p h. edge.driver ≡ driver.Slot slot
            → verdict_but_full version p h edge ≡ Ok tt
            → IsStateOf version p (edge ∷ h) self.new) }
    {
        let wire = edge.wire;
        let place = usize::from(slot);
        let release = self.release(slot);
        self.addr = low_after(self.addr, Wire::Addr, slot, wire);
        self.address_strobe = low_after(self.address_strobe, Wire::AddressStrobe, slot, wire);
        self.data_strobe = low_after(self.data_strobe, Wire::DataStrobe, slot, wire);
        self.strobed = strobed_after(self.strobed, slot, edge);
        self.cycles[place] = cycles_after(self.cycles[place], release, edge);
        self.shown = shown_after(self.shown, edge);
        self.addressing = addressing_after(self.addressing, slot, edge);
    }

    /// Takes in an edge of the slot's interrupter, or an answer of its board, that is allowed after
    /// a history that the state is of.
    #[inline(always)]
    fn move_interrupter(&mut self, slot: u8, edge: Edge)
        requires slot { slot < 22 }
        requires part { is_of parts.Interrupter edge.wire ≡ true }
        ensures { OfHistory self.old (λ version p h. edge.driver ≡ driver.Slot slot
            → verdict_but_full version p h edge ≡ Ok tt
            → IsStateOf version p (edge ∷ h) self.new) }
    {
        let wire = edge.wire;
        let place = usize::from(slot);
        let serves = self.is_serving(slot);
        self.irq = low_after(self.irq, Wire::Irq, slot, wire);
        self.dtack = low_after(self.dtack, Wire::Dtack, slot, wire);
        self.acknowledges = low_after(self.acknowledges, Wire::IackOut, slot, wire);
        let acknowledged_by = self.layout.acknowledged_by[place];
        self.acknowledged = inputs_after(self.acknowledged, acknowledged_by, Wire::IackOut, wire);
        self.served = served_after(self.served, slot, edge, serves);
    }

    /// Takes in an edge of the controller that the rules allow after a history that the state is
    /// of.
    #[inline(always)]
    pub(crate) fn note_controller(&mut self, edge: Edge)
        requires { is_of parts.Controller edge.wire ≡ true }
        ensures { OfHistory self.old (λ version p h. verdict_but_full version p h edge ≡ Ok tt
            → IsStateOf version p (edge ∷ h) self.new) }
    {
        match edge.driver {
            Driver::Controller => self.move_controller(edge),
            Driver::Slot(_) => {}
        }
    }

    /// Takes in an edge of a board's requester that the rules allow after a history that the state
    /// is of.
    #[inline(always)]
    pub(crate) fn note_requester(&mut self, edge: Edge)
        requires { is_of parts.Requester edge.wire ≡ true }
        ensures { OfHistory self.old (λ version p h. verdict_but_full version p h edge ≡ Ok tt
            → IsStateOf version p (edge ∷ h) self.new) }
    {
        match edge.driver {
            Driver::Controller => {}
            // No board stands in a slot beyond 21.
            Driver::Slot(slot) => {
                if slot < 22 {
                    self.move_requester(slot, edge);
                }
            }
        }
    }

    /// Takes in an edge of a board's master that the rules allow after a history that the state is
    /// of.
    #[inline(always)]
    pub(crate) fn note_master(&mut self, edge: Edge)
        requires { is_of parts.Master edge.wire ≡ true }
        ensures { OfHistory self.old (λ version p h. verdict_but_full version p h edge ≡ Ok tt
            → IsStateOf version p (edge ∷ h) self.new) }
    {
        match edge.driver {
            Driver::Controller => {}
            // No board stands in a slot beyond 21.
            Driver::Slot(slot) => {
                if slot < 22 {
                    self.move_master(slot, edge);
                }
            }
        }
    }

    /// Takes in an edge of a board's interrupter, or an answer, that the rules allow after a
    /// history that the state is of.
    #[inline(always)]
    pub(crate) fn note_interrupter(&mut self, edge: Edge)
        requires { is_of parts.Interrupter edge.wire ≡ true }
        ensures { OfHistory self.old (λ version p h. verdict_but_full version p h edge ≡ Ok tt
            → IsStateOf version p (edge ∷ h) self.new) }
    {
        match edge.driver {
            Driver::Controller => {}
            // No board stands in a slot beyond 21.
            Driver::Slot(slot) => {
                if slot < 22 {
                    self.move_interrupter(slot, edge);
                }
            }
        }
    }

    /// Takes in an edge that the rules allow after a history that the state is of.
    #[inline(always)]
    pub fn note(&mut self, edge: Edge)
        ensures { OfHistory self.old (λ version p h. verdict_but_full version p h edge ≡ Ok tt
            → IsStateOf version p (edge ∷ h) self.new) }
    {
        match edge.wire.part() {
            Part::Controller => self.note_controller(edge),
            Part::Requester => self.note_requester(edge),
            Part::Master => self.note_master(edge),
            Part::Interrupter => self.note_interrupter(edge),
        }
    }
}
