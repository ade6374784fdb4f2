//! The two judges compared: a backplane, which keeps its edges, and a bus, which keeps only
//! numbers.
//!
//! Both are proved to answer as the rules define. Here the built code answers each edge that a line
//! of a trace can spell, at each state of random histories. The third judge is a step by the
//! numbers alone, which C calls.
use crate::asserts::assert_same;
use crate::boards::{board, fall, interrupter, requester, rise};
use bitflags::Flags;
use std::alloc::{AllocError, Global};
use std::process::Abort;
use std::test::Fail;
use vme_arena::Region;
use vme_backplane::{Backplane, Trace};
use vme_bus::{Bus, BusState};
use vme_model::{
    ArbiterKind, Chains, Cycle, Driver, Edge, InterrupterRow, IrqKind, Jumper, Levels, Release,
    RequesterRow, Row, Version, Wire,
};
use vme_slots::Plan;

/// How many edges a line can spell: 14 of the controller, and 45 of each of 21 slots.
const SPELLINGS: usize = 14 + 21 * 45;

const CONTROLLERS: [Wire; 7] = [
    Wire::Bg(0),
    Wire::Bg(1),
    Wire::Bg(2),
    Wire::Bg(3),
    Wire::Bclr,
    Wire::Iack,
    Wire::Berr,
];

/// The wires of a board whose edges have no value.
const PLAIN: [Wire; 8] = [
    Wire::Br,
    Wire::BgOut,
    Wire::Bbsy,
    Wire::AddressStrobe,
    Wire::DataStrobe,
    Wire::Irq,
    Wire::IackOut,
    Wire::Dtack,
];

/// How many edges each history gets.
const EDGES: u32 = 60;

/// The histories of each arbiter: the version of the rules, and the first number of the draws.
const HISTORIES: [(Version, u32); 2] = [(Version::One, 1), (Version::Two, 3)];

/// More arbiters than there are.
const MOST_ARBITERS: u32 = 16;

/// The arbiter after this one, in the order of their kinds; none after the last. A new kind is not
/// compiled until it has its place.
fn following(arbiter: ArbiterKind) -> Option<ArbiterKind> {
    match arbiter {
        ArbiterKind::Sgl => Some(ArbiterKind::Pri),
        ArbiterKind::Pri => Some(ArbiterKind::Rrs),
        ArbiterKind::Rrs => None,
    }
}

/// A level below 3 if the arbiter serves one, and otherwise 3.
fn served_level(arbiter: ArbiterKind) -> u8 {
    match arbiter {
        ArbiterKind::Sgl => 3,
        ArbiterKind::Pri | ArbiterKind::Rrs => 1,
    }
}

/// Appends both edges of each of these wires.
fn put_wires(edges: &mut Vec<Edge>, driver: Driver, wires: &[Wire]) -> Result<(), AllocError> {
    for wire in wires {
        edges.push(fall(driver, *wire))?;
        edges.push(rise(driver, *wire))?;
    }
    Ok(())
}

/// The edge by which the slot's address group goes on with the cycle.
fn shows(slot: u8, cycle: Cycle) -> Edge {
    Edge {
        value: Some(cycle),
        ..fall(Driver::Slot(slot), Wire::Addr)
    }
}

/// Appends the edges of the slot's address group.
fn put_cycles(edges: &mut Vec<Edge>, slot: u8) -> Result<(), AllocError> {
    edges.push(rise(Driver::Slot(slot), Wire::Addr))?;
    for level in 1..8_u8 {
        edges.push(shows(slot, Cycle::Acknowledge(level)))?;
    }
    for target in 1..22_u8 {
        edges.push(shows(slot, Cycle::Access(target)))?;
    }
    Ok(())
}

/// All edges that a line can spell.
fn spellings(alloc: Global) -> Result<Vec<Edge>, AllocError> {
    let mut edges = Vec::new(alloc);
    put_wires(&mut edges, Driver::Controller, &CONTROLLERS)?;
    for slot in 1..22_u8 {
        put_wires(&mut edges, Driver::Slot(slot), &PLAIN)?;
        put_cycles(&mut edges, slot)?;
    }
    Ok(edges)
}

/// A board in slot 1 that handles all levels, and gives the bus up when another board requests it.
fn first() -> Row {
    let release = Release::Request;
    Row {
        requester: Some(RequesterRow { level: 3, release }),
        handler: Levels::from_bits_retain(127),
        ..board(1)
    }
}

/// The row with an interrupter on that level, which an access serves (RORA).
fn interrupting(row: Row, level: u8) -> Row {
    Row {
        interrupter: Some(InterrupterRow {
            level,
            kind: IrqKind::Rora,
            status: 7,
        }),
        ..row
    }
}

/// Boards in five of six slots, and a jumper in the other.
fn six_slots(alloc: Global, arbiter: ArbiterKind) -> Result<Plan, Fail> {
    let rows = [
        first(),
        interrupting(requester(2, 3, 1), 4),
        requester(3, served_level(arbiter), 2),
        interrupter(4, 4, 65),
        interrupting(requester(6, 3, 4), 7),
    ];
    let jumper = Jumper {
        slot: 5,
        chains: Chains::from_bits_retain(0b1_1111),
    };
    Ok(Plan::new(alloc, 6, &rows, &[jumper], arbiter)?)
}

/// The next number of a linear congruential generator.
fn next(number: u32) -> u32 {
    number.wrapping_mul(1_664_525).wrapping_add(1_013_904_223)
}

/// Whether the edge may be drawn. Only some of the accesses may, since there are many.
fn may_be_drawn(edge: Edge, number: u32) -> bool {
    match edge.value {
        Some(Cycle::Access(target)) => u32::from(target) % 16 == number >> 28,
        _ => true,
    }
}

/// Asserts that all three answer the edge alike, and that a refused step leaves them unchanged. It
/// returns whether they accept the edge.
fn accept(
    rt: &impl Abort,
    backplane: &mut Backplane<'_>,
    bus: &mut Bus,
    numbers: &BusState,
    edge: Edge,
) -> bool {
    let answer = bus.answer(edge);
    assert_same(rt, backplane.verdict(edge).err(), answer.err());
    let mut copy = *numbers;
    assert_same(rt, copy.step(edge), answer);
    if answer.is_err() {
        assert_same(rt, backplane.step(edge), answer);
        assert_same(rt, bus.step(edge), answer);
    }
    answer.is_ok()
}

/// Asserts that all three answer each of the edges alike. It draws one of the edges that they
/// accept.
fn draw(
    rt: &impl Abort,
    backplane: &mut Backplane<'_>,
    bus: &mut Bus,
    numbers: &BusState,
    edges: &[Edge],
    first: u32,
) -> Option<Edge> {
    let mut number = first;
    let mut open = 0_u32;
    let mut drawn = None;
    for edge in edges {
        if accept(rt, backplane, bus, numbers, *edge) && may_be_drawn(*edge, first) {
            number = next(number);
            open = open.saturating_add(1);
            if (number >> 8) % open.max(1) == 0 {
                drawn = Some(*edge);
            }
        }
    }
    drawn
}

/// Makes the edge on all three, and asserts that they answer it alike.
fn take(
    rt: &impl Abort,
    backplane: &mut Backplane<'_>,
    bus: &mut Bus,
    numbers: &mut BusState,
    edge: Edge,
) {
    let answer = backplane.step(edge);
    assert!(rt; answer.is_ok());
    assert_same(rt, bus.step(edge), answer);
    assert_same(rt, numbers.step(edge), answer);
}

/// Asserts that all three answer all edges alike at each state of a random history.
fn assert_alike(
    rt: &impl Abort,
    backplane: &mut Backplane<'_>,
    bus: &mut Bus,
    edges: &[Edge],
    seed: u32,
) {
    let mut numbers = BusState::new(bus.plan(), bus.version());
    let mut number = seed;
    for _made in 0..EDGES {
        number = next(number);
        match draw(rt, backplane, bus, &numbers, edges, number) {
            Some(edge) => take(rt, backplane, bus, &mut numbers, edge),
            None => {}
        }
    }
    assert_same(rt, backplane.len(), EDGES);
}

fn judge(rt: &impl Abort, alloc: Global, edges: &[Edge], arbiter: ArbiterKind) -> Result<(), Fail> {
    for (version, seed) in HISTORIES {
        let mut region = Region::new(alloc, Trace::bytes(EDGES))?;
        let trace = Trace::on(alloc, &mut region.rest(), EDGES)?;
        let mut backplane = Backplane::new(six_slots(alloc, arbiter)?, trace, version);
        let mut bus = Bus::new(six_slots(alloc, arbiter)?, version);
        assert_alike(rt, &mut backplane, &mut bus, edges, seed);
    }
    Ok(())
}

#[test]
fn both_judges_answer_each_edge_alike(rt: HostRuntime) -> Result<(), Fail> {
    let edges = spellings(rt.alloc())?;
    assert_same(&rt, edges.len(), SPELLINGS);
    let mut next = Some(ArbiterKind::Sgl);
    for _judged in 0..MOST_ARBITERS {
        let Some(arbiter) = next else {
            return Ok(());
        };
        judge(&rt, rt.alloc(), edges.as_slice(), arbiter)?;
        next = following(arbiter);
    }
    assert!(rt; next.is_none());
    Ok(())
}
