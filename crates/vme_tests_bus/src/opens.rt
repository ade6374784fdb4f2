//! The open edges of boards in nine slots, worked out by hand from the rules.
use crate::boards::{FIRST, board, edge, fall, interrupter, requester, rise};
use bitflags::Flags;
use std::alloc::Global;
use std::process::Abort;
use std::test::Fail;
use vme_bus::Bus;
use vme_model::{
    ArbiterKind, Chains, Cycle, Driver, Edge, InterrupterRow, IrqKind, Jumper, Levels, Release,
    RequesterRow, Row, Version, Wire,
};
use vme_slots::Plan;

/// A driver, a wire of it, and whether it falls.
type Move = (Driver, Wire, bool);

/// A grant travels from slot 3, which requests after it has passed the grant on, to slot 8.
const GRANT_UNDER_WAY: [Move; 4] = [
    (Driver::Slot(8), Wire::Br, true),
    (Driver::Controller, Wire::Bg(3), true),
    (Driver::Slot(3), Wire::BgOut, true),
    (Driver::Slot(3), Wire::Br, true),
];

/// The wires that can fall then; none can rise. The grant stands at slot 4, which can pass it on,
/// or request the bus and take it.
const CAN_FALL: [(Driver, &[Wire]); 10] = [
    (Driver::Controller, &[]),
    (Driver::Slot(1), &[Wire::Br]),
    (Driver::Slot(2), &[]),
    (Driver::Slot(3), &[Wire::Irq]),
    (Driver::Slot(4), &[Wire::Br, Wire::BgOut, Wire::Irq]),
    (Driver::Slot(5), &[Wire::Br]),
    (Driver::Slot(6), &[]),
    (Driver::Slot(7), &[Wire::Irq]),
    (Driver::Slot(8), &[Wire::Irq]),
    (Driver::Slot(9), &[Wire::Irq]),
];

/// The first board holds the bus while another board requests it, and interrupts are pending at two
/// levels that it handles.
const HELD: [Move; 8] = [
    (Driver::Slot(1), Wire::Br, true),
    (Driver::Controller, Wire::Bg(1), true),
    (Driver::Slot(1), Wire::Bbsy, true),
    (Driver::Slot(1), Wire::Br, false),
    (Driver::Controller, Wire::Bg(1), false),
    (Driver::Slot(5), Wire::Br, true),
    (Driver::Slot(7), Wire::Irq, true),
    (Driver::Slot(8), Wire::Irq, true),
];

/// A board that gives the bus up when another board requests it.
fn on_request(slot: u8, level: u8) -> Row {
    let release = Release::Request;
    Row {
        requester: Some(RequesterRow { level, release }),
        ..board(slot)
    }
}

/// The row with an interrupter.
fn interrupting(row: Row, level: u8, kind: IrqKind, status: u8) -> Row {
    Row {
        interrupter: Some(InterrupterRow {
            level,
            kind,
            status,
        }),
        ..row
    }
}

/// The row with a handler of these levels.
fn handling(row: Row, levels: u8) -> Row {
    Row {
        handler: Levels::from_bits_retain(levels),
        ..row
    }
}

/// Boards in eight of nine slots, and a jumper in the other.
fn nine_slots(alloc: Global) -> Result<Plan, Fail> {
    let rows = [
        handling(on_request(1, 1), 0b000_1111),
        board(2),
        interrupting(requester(3, 3, 8), 3, IrqKind::Rora, 48),
        interrupting(on_request(4, 3), 4, IrqKind::Roak, 80),
        handling(requester(5, 1, 4), 0b111_0000),
        interrupter(7, 4, 96),
        interrupting(requester(8, 3, 2), 3, IrqKind::Roak, 112),
        interrupting(board(9), 6, IrqKind::Rora, 64),
    ];
    let jumper = Jumper {
        slot: 6,
        chains: Chains::from_bits_retain(0b1_1111),
    };
    Ok(Plan::new(alloc, 9, &rows, &[jumper], ArbiterKind::Pri)?)
}

/// Asserts that the edges are accepted.
fn assert_accepted(rt: &impl Abort, bus: &mut Bus, moves: &[Move]) {
    for (driver, wire, falls) in moves {
        assert!(rt; bus.step(edge(*driver, *wire, *falls)).is_ok());
    }
}

/// Asserts that these wires of the driver can fall, and that it can make no other edge.
fn assert_falls(rt: &impl Abort, bus: &Bus, driver: Driver, wires: &[Wire]) {
    let open = bus.open_edges(driver);
    assert!(rt; open.len() == wires.len());
    for (place, wire) in wires.iter().enumerate() {
        assert!(rt; open.as_slice().get(place).copied() == Some(fall(driver, *wire)));
    }
}

fn assert_grant_under_way(rt: &impl Abort, bus: &mut Bus) {
    assert_accepted(rt, bus, &GRANT_UNDER_WAY);
    for (driver, wires) in CAN_FALL {
        assert_falls(rt, bus, driver, wires);
    }
}

#[test]
fn a_board_that_a_grant_has_reached_can_pass_it_on(rt: HostRuntime) -> Result<(), Fail> {
    let mut bus = Bus::new(nine_slots(rt.alloc())?, Version::One);
    assert_grant_under_way(&rt, &mut bus);
    Ok(())
}

/// The edge by which the first board's address group goes on with the cycle.
fn shows(cycle: Cycle) -> Option<Edge> {
    Some(Edge {
        value: Some(cycle),
        ..fall(FIRST, Wire::Addr)
    })
}

/// Asserts that the first board can let the bus go, or show each pending level that it handles, and
/// then each slot.
fn assert_shows_all(rt: &impl Abort, open: &[Edge]) {
    assert!(rt; open.len() == 24);
    assert!(rt; open.first().copied() == Some(rise(FIRST, Wire::Bbsy)));
    assert!(rt; open.get(1).copied() == shows(Cycle::Acknowledge(3)));
    assert!(rt; open.get(2).copied() == shows(Cycle::Acknowledge(4)));
    for target in 1..22_u8 {
        assert!(rt; open.get(2 + usize::from(target)).copied() == shows(Cycle::Access(target)));
    }
}

fn assert_held(rt: &impl Abort, bus: &mut Bus) {
    assert_accepted(rt, bus, &HELD);
    assert_shows_all(rt, bus.open_edges(FIRST).as_slice());
}

#[test]
fn an_address_group_can_show_each_cycle(rt: HostRuntime) -> Result<(), Fail> {
    let mut bus = Bus::new(nine_slots(rt.alloc())?, Version::One);
    assert_held(&rt, &mut bus);
    Ok(())
}
