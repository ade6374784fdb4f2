//! What the edges so far say of the wires, found by looking back through them.
ghost use Rattle.std.specs.Prelude.{◌≡◌, IfOk, reverse, find};
ghost use Rattle.std.specs.Option.{option_copied};
ghost use Rattle.vme_model.specs.Signals.{is_edge_of, is_grant};
ghost use Rattle.vme_model.specs.Plan.{board_of, has_driver};
ghost use Rattle.vme_model.specs.Deliveries.{delivery, delivered, delivered_by};
ghost use Rattle.vme_model.specs.History.{drive, line, request_line, interrupt_line, segment, input, is_past_end, last_level, last_value, cycles, has_strobed, addressing, shown, serves, served_since_request};

use std::alloc::{AllocError, Global};
use vme_model::{ChainId, Cycle, Delivery, Driver, Edge, IrqKind, Row, Wire};
use vme_slots::Plan;

/// Whether the backplane has the driver, with such a wire.
pub fn has_driver(plan: &Plan, driver: Driver, wire: Wire) -> bool
    ensures { result ≡ has_driver plan.now driver wire }
{
    match driver {
        Driver::Controller => wire.is_controllers(),
        Driver::Slot(slot) => plan.row(slot).is_some_and(|row| row.drives(wire)),
    }
}

/// The board that a driver stands on.
pub fn board_of(plan: &Plan, driver: Driver) -> Option<Row>
    ensures { result ≡ board_of plan.now driver }
{
    match driver {
        Driver::Controller => None,
        Driver::Slot(slot) => plan.row(slot).copied(),
    }
}

/// The driver's last edge on the wire.
fn last_edge(edges: &[Edge], driver: Driver, wire: Wire) -> Option<&Edge>
    ensures { option_copied result ≡ find (is_edge_of driver wire) (reverse edges.now) }
{
    edges.iter().rev().find(|edge| edge.is_of(driver, wire))
}

/// Whether the driver's last edge on the wire is a fall.
#[tactic(auto, using(crate::proofs::LastEdge::drive_find))]
pub fn drive(edges: &[Edge], driver: Driver, wire: Wire) -> bool
    ensures { result ≡ drive (reverse edges.now) driver wire }
{
    last_edge(edges, driver, wire).is_some_and(|edge| edge.fall)
}

/// The value of the driver's last edge on its address group.
#[tactic(auto, using(crate::proofs::LastEdge::last_value_find))]
fn last_value(edges: &[Edge], driver: Driver) -> Option<Cycle>
    ensures { result ≡ last_value (reverse edges.now) driver }
{
    last_edge(edges, driver, Wire::Addr).and_then(|edge| edge.value)
}

/// The last grant.
fn last_grant(edges: &[Edge]) -> Option<&Edge>
    ensures { option_copied result ≡ find is_grant (reverse edges.now) }
{
    edges.iter().rev().find(|edge| edge.is_grant())
}

/// The level last granted, 0 if there is none.
#[tactic(auto, using(crate::proofs::LastEdge::last_level_find))]
pub fn last_level(edges: &[Edge]) -> u8
    ensures { result ≡ last_level (reverse edges.now) }
{
    last_grant(edges).map_or(0, |edge| edge.wire.grant_level())
}

/// Whether an open-collector line that boards drive is low.
pub fn line(plan: &Plan, edges: &[Edge], wire: Wire) -> bool
    ensures { result ≡ line plan.now (reverse edges.now) wire }
{
    plan.rows().iter().any(|row| row.drives(wire) && drive(edges, Driver::Slot(row.slot), wire))
}

/// Whether the bus request line of a level is low.
pub fn request_line(plan: &Plan, edges: &[Edge], level: u8) -> bool
    ensures { result ≡ request_line plan.now (reverse edges.now) level }
{
    plan.rows().iter().any(|row| row.requests_on(level)
        && drive(edges, Driver::Slot(row.slot), Wire::Br))
}

/// Whether the interrupt request line of a level is low.
pub fn interrupt_line(plan: &Plan, edges: &[Edge], level: u8) -> bool
    ensures { result ≡ interrupt_line plan.now (reverse edges.now) level }
{
    plan.rows().iter().any(|row| row.interrupts_on(level)
        && drive(edges, Driver::Slot(row.slot), Wire::Irq))
}

/// Whether a segment of a chain is low: the controller's, or that of the active slot.
fn segment(edges: &[Edge], chain: ChainId, slot: Option<u8>) -> bool
    ensures { result ≡ segment (reverse edges.now) chain slot }
{
    match slot {
        None => drive(edges, Driver::Controller, chain.head_wire()),
        Some(slot) => drive(edges, Driver::Slot(slot), chain.out_wire()),
    }
}

/// A slot's input on a chain.
pub fn input(plan: &Plan, edges: &[Edge], chain: ChainId, slot: u8) -> bool
    ensures { result ≡ input plan.now (reverse edges.now) chain slot }
{
    segment(edges, chain, plan.upstream(chain, slot))
}

/// Whether the chain's last segment is low.
pub fn is_past_end(plan: &Plan, edges: &[Edge], chain: ChainId) -> bool
    ensures { result ≡ is_past_end plan.now (reverse edges.now) chain }
{
    segment(edges, chain, plan.last_active(chain))
}

/// The cycles that a board began since its last `bbsy-`.
pub fn cycles(edges: &[Edge], board: Driver) -> usize
    ensures { result ≡ cycles (reverse edges.now) board }
{
    let mut begun = 0;
    let mut rest = edges;
    while let Some((edge, before)) = rest.split_last() {
        if edge.is_fall_of(board, Wire::Bbsy) {
            break;
        }
        if edge.is_fall_of(board, Wire::AddressStrobe) {
            begun += 1;
        }
        rest = before;
    }
    begun
}

/// Whether the board made a `ds-` since its last `as-`.
pub fn has_strobed(edges: &[Edge], board: Driver) -> bool
    ensures { result ≡ has_strobed (reverse edges.now) board }
{
    let mut rest = edges;
    while let Some((edge, before)) = rest.split_last() {
        if edge.is_fall_of(board, Wire::AddressStrobe) {
            return false;
        }
        if edge.is_fall_of(board, Wire::DataStrobe) {
            return true;
        }
        rest = before;
    }
    false
}

/// The least slot whose address group is on.
#[tactic(auto, using(crate::proofs::Slots::find_up_to_none, crate::proofs::Slots::find_up_to_first))]
fn addressing(plan: &Plan, edges: &[Edge]) -> Option<u8>
    ensures { result ≡ addressing plan.now (reverse edges.now) }
{
    for slot in 1..=plan.slots() {
        if drive(edges, Driver::Slot(slot), Wire::Addr) {
            return Some(slot);
        }
    }
    None
}

/// The value of the address group that is on.
pub fn shown(plan: &Plan, edges: &[Edge]) -> Option<Cycle>
    ensures { result ≡ shown plan.now (reverse edges.now) }
{
    addressing(plan, edges).and_then(|slot| last_value(edges, Driver::Slot(slot)))
}

/// Whether an answer while this is shown serves an interrupter of the kind.
fn serves(kind: IrqKind, shown: Option<Cycle>) -> bool
    ensures { result ≡ serves kind shown }
{
    match (kind, shown) {
        (IrqKind::Roak, Some(Cycle::Acknowledge(_))) => true,
        (IrqKind::Rora, Some(Cycle::Access(_))) => true,
        _ => false,
    }
}

/// Whether since its last `irq-` the board gave an answer that serves an interrupter of the kind.
pub fn served_since_request(plan: &Plan, edges: &[Edge], board: Driver, kind: IrqKind) -> bool
    ensures { result ≡ served_since_request plan.now (reverse edges.now) board kind }
{
    let mut rest = edges;
    while let Some((edge, before)) = rest.split_last() {
        if edge.is_fall_of(board, Wire::Irq) {
            return false;
        }
        if edge.is_fall_of(board, Wire::Dtack) && serves(kind, shown(plan, before)) {
            return true;
        }
        rest = before;
    }
    false
}

/// What an answer delivers, by what is shown, the slot that shows it, and the board that answers.
fn delivered_by(
    shown: Option<Cycle>,
    addressing: Option<u8>,
    board: Option<Row>,
) -> Option<Delivery>
    ensures { result ≡ delivered_by shown addressing board }
{
    let (
        Some(Cycle::Acknowledge(level)),
        Some(handler),
        Some(
            Row {
                slot,
                interrupter: Some(interrupter),
                ..
            },
        ),
    ) = (shown, addressing, board)
    else {
        return None;
    };
    Some(Delivery {
        handler,
        level,
        answered_by: slot,
        status: interrupter.status,
    })
}

/// What an edge delivers.
pub fn delivery(plan: &Plan, edges: &[Edge], edge: Edge) -> Option<Delivery>
    ensures { result ≡ delivery plan.now (reverse edges.now) edge }
{
    if !(edge.fall && edge.wire.is_same(Wire::Dtack)) {
        return None;
    }
    delivered_by(
        shown(plan, edges),
        addressing(plan, edges),
        board_of(plan, edge.driver),
    )
}

/// What was delivered, in the order of time.
pub fn deliveries(alloc: Global, plan: &Plan, edges: &[Edge]) -> Result<Vec<Delivery>, AllocError>
    ensures { IfOk result (λ v. v.items ≡ delivered plan.now (reverse edges.now)) }
{
    let mut given = Vec::new(alloc);
    for (place, edge) in edges.iter().enumerate() {
        if let Some(delivery) = delivery(plan, &edges[..place], *edge) {
            given.push(delivery)?;
        }
    }
    Ok(given)
}
