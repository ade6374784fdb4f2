//! The edges that are considered for a driver's offers.
ghost use Rattle.std.specs.Prelude.{◌≡◌, ◌≤◌, ◌+◌, ◌++◌, ◌&&◌, ◌∷◌, [], true, Some, find, length, nat_lt, is_some};
ghost use Rattle.std.specs.List.{flat_map};
ghost use Rattle.vme_model.specs.Plan.{board, up_to};
ghost use Rattle.vme_model.specs.Offers.{wires, wanted, next_board, going_on, turned, considered};

use crate::looks::Look;
use arrayvec::ArrayVec;
use vme_handler::Handler;
use vme_model::{Cycle, Driver, Edge, Row, Wire};
use vme_slots::Plan;

/// The controller's wires, in the order of its offers.
const CONTROLLER_WIRES: [Wire; 7] = [
    Wire::Bg(0),
    Wire::Bg(1),
    Wire::Bg(2),
    Wire::Bg(3),
    Wire::Bclr,
    Wire::Iack,
    Wire::Berr,
];

/// A board's wires, in the order of its offers.
const BOARD_WIRES: [Wire; 9] = [
    Wire::Br,
    Wire::BgOut,
    Wire::Bbsy,
    Wire::Addr,
    Wire::AddressStrobe,
    Wire::DataStrobe,
    Wire::Irq,
    Wire::IackOut,
    Wire::Dtack,
];

/// The driver's wires, in the order of its offers.
fn wires<'a>(driver: Driver) -> &'a [Wire]
    ensures { result.now ≡ wires driver }
{
    match driver {
        Driver::Controller => &CONTROLLER_WIRES,
        Driver::Slot(_) => &BOARD_WIRES,
    }
}

/// Whether the slot has a board and stands above that one.
fn is_board_above(plan: &Plan, other: u8, slot: u8) -> bool
    ensures { result ≡ (nat_lt slot other && is_some (board plan.now other)) }
{
    slot < other && plan.row(other).is_some()
}

/// The least slot with a board above that one.
#[tactic(auto, using(crate::proofs::Slots::find_up_to_none))]
fn board_above(plan: &Plan, slot: u8) -> Option<u8>
    ensures { result ≡ find (λ t. nat_lt slot t && is_some (board plan.now t)) (up_to plan.now.slots) }
{
    for other in 1..=plan.slots() {
        if is_board_above(plan, other, slot) {
            return Some(other);
        }
    }
    None
}

/// The next slot with a board, from the least again after the greatest.
#[tactic(auto, using(crate::proofs::Slots::find_above_zero))]
fn next_board(plan: &Plan, slot: u8) -> Option<u8>
    ensures { result ≡ next_board plan.now slot }
{
    board_above(plan, slot).or(board_above(plan, 0))
}

/// Puts the edges behind the others.
fn append(edges: &mut ArrayVec<Edge, 18>, more: &[Edge])
    requires { length edges.old.items + length more.now ≤ 18 }
    ensures { edges.new.items ≡ edges.old.items ++ more.now }
{
    for edge in more {
        edges.push(*edge);
    }
}

impl Look<'_> {
    ghost use Rattle.vme_backplane.specs.Looks.{history_of};

    /// The highest low level that the board handles.
    fn wanted(&self, board: &Row) -> Option<u8>
        ensures { result ≡ wanted self.now.plan.now (history_of self.now) board.now }
    {
        Handler::new(board.handler).wants(self.irqs())
    }

    /// The address group going on.
    fn showing(&self, cycle: Cycle) -> Edge
        ensures { result ≡ record { driver = self.now.driver; wire = Wire.Addr; fall = true; value = Some cycle } }
    {
        Edge {
            driver: self.driver,
            wire: Wire::Addr,
            fall: true,
            value: Some(cycle),
        }
    }

    /// What the driver's board considers to show: an acknowledge, and an access.
    fn going_on(&self) -> ArrayVec<Edge, 2>
        ensures { result.items ≡ going_on self.now.plan.now (history_of self.now) self.now.driver }
    {
        let mut edges = ArrayVec::new();
        let Driver::Slot(slot) = self.driver else {
            return edges;
        };
        let Some(board) = self.plan.row(slot) else {
            return edges;
        };
        if let Some(level) = self.wanted(board) {
            edges.push(self.showing(Cycle::Acknowledge(level)));
        }
        if let Some(target) = next_board(self.plan, board.slot) {
            edges.push(self.showing(Cycle::Access(target)));
        }
        edges
    }

    /// The edge without a value that moves the wire to its other state.
    fn turned(&self, wire: Wire) -> Edge
        ensures { result ≡ turned (history_of self.now) self.now.driver wire }
    {
        Edge {
            driver: self.driver,
            wire,
            fall: !self.own(wire),
            value: None,
        }
    }

    /// That edge alone.
    fn turning(&self, wire: Wire) -> ArrayVec<Edge, 2>
        ensures { result.items ≡ turned (history_of self.now) self.now.driver wire ∷ [] }
    {
        let mut edges = ArrayVec::new();
        edges.push(self.turned(wire));
        edges
    }

    /// The edges of a wire that are considered.
    fn considered(&self, wire: Wire) -> ArrayVec<Edge, 2>
        ensures { result.items ≡ considered self.now.plan.now (history_of self.now) self.now.driver wire }
    {
        match wire {
            Wire::Addr => {
                if self.own(Wire::Addr) {
                    self.turning(Wire::Addr)
                } else {
                    self.going_on()
                }
            }
            _ => self.turning(wire),
        }
    }

    /// All edges that are considered for the driver, in the order of its offers.
    #[tactic(auto, using(crate::proofs::Considered::at_most_ten))]
    pub fn all_considered(&self) -> ArrayVec<Edge, 18>
        ensures edges { result.items ≡ flat_map (considered self.now.plan.now (history_of self.now) self.now.driver) (wires self.now.driver) }
        ensures few { length result.items ≤ 10 }
    {
        let mut edges = ArrayVec::new();
        for wire in wires(self.driver) {
            append(&mut edges, &self.considered(*wire));
        }
        edges
    }
}
