//! What no clause says: worked traces with what they deliver, and the end of a trace.
use crate::{Backplane, Trace};
use bitflags::Flags;
use std::process::Abort;
use std::test::*;
use vme_arena::Region;
use vme_model::{
    ArbiterKind, Cycle, Delivery, Driver, Edge, InterrupterRow, IrqKind, Levels, Refused, Release,
    RequesterRow, Row, Version, Wire,
};
use vme_slots::Plan;

const CONTROLLER: Driver = Driver::Controller;

const FIRST: Driver = Driver::Slot(1);

const SECOND: Driver = Driver::Slot(2);

const THIRD: Driver = Driver::Slot(3);

macro_rules! fall {
    ($driver:expr, $wire:expr) => {
        fall!($driver, $wire, None)
    };
    ($driver:expr, $wire:expr, $value:expr) => {
        Edge {
            driver: $driver,
            wire: $wire,
            fall: true,
            value: $value,
        }
    };
}

macro_rules! rise {
    ($driver:expr, $wire:expr) => {
        Edge {
            driver: $driver,
            wire: $wire,
            fall: false,
            value: None,
        }
    };
}

/// A board requests the bus, takes it and lets it go.
const TENURE: [Edge; 6] = [
    fall!(FIRST, Wire::Br),
    fall!(CONTROLLER, Wire::Bg(3)),
    fall!(FIRST, Wire::Bbsy),
    rise!(FIRST, Wire::Br),
    rise!(CONTROLLER, Wire::Bg(3)),
    rise!(FIRST, Wire::Bbsy),
];

/// The tenure's edges and one more, on a trace that they fill: which refusal comes before which.
const REFUSED_BEHIND_THE_TENURE: [(Edge, Refused); 4] = [
    (fall!(SECOND, Wire::Br), Refused::NoSuchDriver),
    (rise!(FIRST, Wire::Br), Refused::AlreadyThere),
    (fall!(FIRST, Wire::Bbsy), Refused::Rule(13)),
    (fall!(FIRST, Wire::Br), Refused::TraceFull),
];

/// A master accesses its own board's register.
const ACCESS: [Edge; 6] = [
    fall!(FIRST, Wire::Br),
    fall!(CONTROLLER, Wire::Bg(3)),
    fall!(FIRST, Wire::Bbsy),
    fall!(FIRST, Wire::Addr, Some(Cycle::Access(1))),
    fall!(FIRST, Wire::AddressStrobe),
    fall!(FIRST, Wire::DataStrobe),
];

/// The bus timer may not end a cycle that a board can answer.
const REFUSED_BEHIND_THE_ACCESS: [(Edge, Refused); 2] = [
    (fall!(CONTROLLER, Wire::Berr), Refused::NotSettled(2)),
    (fall!(FIRST, Wire::Dtack), Refused::TraceFull),
];

/// An acknowledge of a request on level 4, up to its answer.
const ACKNOWLEDGE: [Edge; 10] = [
    fall!(SECOND, Wire::Irq),
    fall!(FIRST, Wire::Br),
    fall!(CONTROLLER, Wire::Bg(3)),
    fall!(FIRST, Wire::Bbsy),
    rise!(FIRST, Wire::Br),
    rise!(CONTROLLER, Wire::Bg(3)),
    fall!(FIRST, Wire::Addr, Some(Cycle::Acknowledge(4))),
    fall!(FIRST, Wire::AddressStrobe),
    fall!(FIRST, Wire::DataStrobe),
    fall!(CONTROLLER, Wire::Iack),
];

/// The answer, and a second acknowledge of the request, which nobody answers: the bus timer ends it.
const ACKNOWLEDGE_AGAIN: [Edge; 16] = [
    fall!(SECOND, Wire::Dtack),
    rise!(FIRST, Wire::DataStrobe),
    rise!(SECOND, Wire::Dtack),
    rise!(FIRST, Wire::Addr),
    rise!(FIRST, Wire::AddressStrobe),
    rise!(CONTROLLER, Wire::Iack),
    fall!(FIRST, Wire::Addr, Some(Cycle::Acknowledge(4))),
    fall!(FIRST, Wire::AddressStrobe),
    fall!(FIRST, Wire::DataStrobe),
    fall!(CONTROLLER, Wire::Iack),
    fall!(SECOND, Wire::Dtack),
    fall!(CONTROLLER, Wire::Berr),
    fall!(SECOND, Wire::IackOut),
    fall!(CONTROLLER, Wire::Berr),
    rise!(FIRST, Wire::DataStrobe),
    rise!(CONTROLLER, Wire::Berr),
];

/// Two boards request on one level: the nearer answers first, and then the other.
const TWO_ACKNOWLEDGES: [Edge; 26] = [
    fall!(SECOND, Wire::Irq),
    fall!(THIRD, Wire::Irq),
    fall!(FIRST, Wire::Br),
    fall!(CONTROLLER, Wire::Bg(3)),
    fall!(FIRST, Wire::Bbsy),
    rise!(FIRST, Wire::Br),
    rise!(CONTROLLER, Wire::Bg(3)),
    fall!(FIRST, Wire::Addr, Some(Cycle::Acknowledge(4))),
    fall!(FIRST, Wire::AddressStrobe),
    fall!(FIRST, Wire::DataStrobe),
    fall!(CONTROLLER, Wire::Iack),
    fall!(THIRD, Wire::Dtack),
    fall!(SECOND, Wire::Dtack),
    rise!(FIRST, Wire::DataStrobe),
    rise!(SECOND, Wire::Dtack),
    rise!(SECOND, Wire::Irq),
    rise!(FIRST, Wire::Addr),
    rise!(FIRST, Wire::AddressStrobe),
    fall!(FIRST, Wire::Addr, Some(Cycle::Acknowledge(4))),
    fall!(FIRST, Wire::AddressStrobe),
    rise!(CONTROLLER, Wire::Iack),
    fall!(FIRST, Wire::AddressStrobe),
    fall!(FIRST, Wire::DataStrobe),
    fall!(CONTROLLER, Wire::Iack),
    fall!(SECOND, Wire::IackOut),
    fall!(THIRD, Wire::Dtack),
];

const FROM_THE_SECOND: Delivery = Delivery {
    handler: 1,
    level: 4,
    answered_by: 2,
    status: 65,
};

const FROM_THE_THIRD: Delivery = Delivery {
    handler: 1,
    level: 4,
    answered_by: 3,
    status: 66,
};

fn board(slot: u8) -> Row {
    Row {
        slot,
        requester: None,
        interrupter: None,
        handler: Levels::empty(),
    }
}

fn requester(slot: u8, level: u8) -> Row {
    let release = Release::Done { burst: 2 };
    Row {
        requester: Some(RequesterRow { level, release }),
        ..board(slot)
    }
}

fn interrupter(slot: u8, status: u8) -> Row {
    let kind = IrqKind::Roak;
    Row {
        interrupter: Some(InterrupterRow {
            level: 4,
            kind,
            status,
        }),
        ..board(slot)
    }
}

/// A master that handles level 4.
fn handler() -> Row {
    Row {
        handler: Levels::IRQ4,
        ..requester(1, 3)
    }
}

/// A backplane of a master and the boards behind it, at the front of a region.
fn backplane<'r>(
    rt: &impl AllocGlobal,
    region: &'r mut Region,
    rows: &[Row],
    max: u32,
) -> Result<Backplane<'r>, Fail> {
    let plan = Plan::new(rt.alloc(), 3, rows, &[], ArbiterKind::Sgl)?;
    let trace = Trace::on(rt.alloc(), &mut region.rest(), max)?;
    Ok(Backplane::new(plan, trace, Version::One))
}

/// Each edge is refused, for the reason beside it.
fn assert_refused(rt: &impl Abort, backplane: &mut Backplane<'_>, cases: &[(Edge, Refused)]) {
    for (edge, refused) in cases {
        assert!(rt; backplane.step(*edge) == Err(*refused));
    }
}

/// Whether no driver is offered anything.
fn offers_nothing(backplane: &Backplane<'_>) -> bool {
    for driver in [CONTROLLER, FIRST] {
        if !backplane.offers(driver).is_empty() {
            return false;
        }
    }
    true
}

#[test]
fn a_full_trace_refuses_last(rt: HostRuntime) -> Result<(), Fail> {
    let mut region = Region::new(rt.alloc(), Trace::bytes(6))?;
    let mut backplane = backplane(&rt, &mut region, &[requester(1, 3)], 6)?;
    assert!(rt; backplane.run(&TENURE).accepted == 6);
    assert_refused(&rt, &mut backplane, &REFUSED_BEHIND_THE_TENURE);
    assert!(rt; offers_nothing(&backplane));
    Ok(())
}

#[test]
fn a_settling_rule_refuses_before_a_full_trace(rt: HostRuntime) -> Result<(), Fail> {
    let mut region = Region::new(rt.alloc(), Trace::bytes(6))?;
    let mut backplane = backplane(&rt, &mut region, &[requester(1, 3)], 6)?;
    assert!(rt; backplane.run(&ACCESS).accepted == 6);
    assert_refused(&rt, &mut backplane, &REFUSED_BEHIND_THE_ACCESS);
    assert!(rt; offers_nothing(&backplane));
    Ok(())
}

#[test]
fn a_trace_of_no_edge_is_full(rt: HostRuntime) -> Result<(), Fail> {
    let mut region = Region::new(rt.alloc(), 0)?;
    let mut backplane = backplane(&rt, &mut region, &[requester(1, 3)], 0)?;
    assert!(rt; backplane.is_empty() && backplane.max() == 0);
    assert!(rt; backplane.step(TENURE[0]) == Err(Refused::TraceFull));
    Ok(())
}

#[test]
fn an_acknowledge_is_answered(rt: HostRuntime) -> Result<(), Fail> {
    let mut region = Region::new(rt.alloc(), Trace::bytes(100))?;
    let rows = [handler(), interrupter(2, 65)];
    let mut backplane = backplane(&rt, &mut region, &rows, 100)?;
    assert!(rt; backplane.run(&ACKNOWLEDGE).accepted == 10);
    assert!(rt; backplane.pins(SECOND).iack_in);
    let answer = ACKNOWLEDGE_AGAIN[0];
    assert!(rt; backplane.offers(SECOND).as_slice() == [answer].as_slice());
    assert!(rt; backplane.step(answer) == Ok(Some(FROM_THE_SECOND)));
    assert!(rt; backplane.len() == 11);
    assert!(rt; backplane.edge_at(10) == answer);
    Ok(())
}

#[test]
fn a_status_is_delivered_once(rt: HostRuntime) -> Result<(), Fail> {
    let mut region = Region::new(rt.alloc(), Trace::bytes(100))?;
    let rows = [handler(), interrupter(2, 65)];
    let mut backplane = backplane(&rt, &mut region, &rows, 100)?;
    assert!(rt; backplane.run(&ACKNOWLEDGE).accepted == 10);
    let counts = backplane.run(&ACKNOWLEDGE_AGAIN);
    assert!(rt; counts.accepted == 14 && counts.refused == 2);
    let deliveries = backplane.deliveries(rt.alloc())?;
    assert!(rt; deliveries.as_slice() == [FROM_THE_SECOND].as_slice());
    Ok(())
}

#[test]
fn two_statuses_are_delivered_in_turn(rt: HostRuntime) -> Result<(), Fail> {
    let mut region = Region::new(rt.alloc(), Trace::bytes(100))?;
    let rows = [handler(), interrupter(2, 65), interrupter(3, 66)];
    let mut backplane = backplane(&rt, &mut region, &rows, 100)?;
    let counts = backplane.run(&TWO_ACKNOWLEDGES);
    assert!(rt; counts.accepted == 24 && counts.refused == 2);
    let deliveries = backplane.deliveries(rt.alloc())?;
    assert!(rt; deliveries.as_slice() == [FROM_THE_SECOND, FROM_THE_THIRD].as_slice());
    Ok(())
}

/// A request, a grant and what follows, made in rounds: from place 43 on the same 22 edges come again and again.
///
/// So places 63 and 65,535 (2,976 times 22 further on) have the first of these, 64 and 65,536 the second, and 65,537 the
/// third.
const IN_ROUNDS: [Edge; 3] = [
    rise!(THIRD, Wire::Addr),
    fall!(Driver::Slot(7), Wire::Br),
    fall!(THIRD, Wire::Bbsy),
];

/// 21 boards that request on four levels.
fn full_backplane<'r>(
    rt: &impl AllocGlobal,
    region: &'r mut Region,
    max: u32,
) -> Result<Backplane<'r>, Fail> {
    let mut rows = Vec::new(rt.alloc());
    for slot in 1..22 {
        rows.push(requester(slot, slot % 4))?;
    }
    let plan = Plan::new(rt.alloc(), 21, &rows, &[], ArbiterKind::Pri)?;
    let trace = Trace::on(rt.alloc(), &mut region.rest(), max)?;
    Ok(Backplane::new(plan, trace, Version::One))
}

/// A driver with k offers makes the one at place `round mod k`.
fn take_turn(backplane: &mut Backplane<'_>, round: u32, driver: Driver) {
    let offers = backplane.offers(driver);
    let offers = offers.as_slice();
    if offers.is_empty() {
        return;
    }
    if let Some(edge) = offers.get(round as usize % offers.len()) {
        let _ = backplane.step(*edge);
    }
}

/// The controller's turn, and then each board's.
fn take_turns(backplane: &mut Backplane<'_>, round: u32) {
    take_turn(backplane, round, CONTROLLER);
    for slot in 1..22 {
        take_turn(backplane, round, Driver::Slot(slot));
    }
}

/// Rounds, until the trace is full.
fn take_rounds(backplane: &mut Backplane<'_>) {
    for round in 0..backplane.max() {
        if backplane.len() == backplane.max() {
            return;
        }
        take_turns(backplane, round);
    }
}

/// The edge at a place, if so many were made.
fn made_at(backplane: &Backplane<'_>, place: u32) -> Option<Edge> {
    if place < backplane.len() {
        Some(backplane.edge_at(place))
    } else {
        None
    }
}

#[test]
fn rounds_fill_a_short_lease(rt: HostRuntime) -> Result<(), Fail> {
    let mut region = Region::new(rt.alloc(), 256)?;
    let mut backplane = full_backplane(&rt, &mut region, 64)?;
    take_rounds(&mut backplane);
    assert!(rt; made_at(&backplane, 63) == Some(IN_ROUNDS[0]));
    assert_refused(&rt, &mut backplane, &[(IN_ROUNDS[1], Refused::TraceFull)]);
    Ok(())
}

#[test]
fn rounds_fill_two_pages(rt: HostRuntime) -> Result<(), Fail> {
    let mut region = Region::new(rt.alloc(), Trace::bytes(65_537))?;
    let mut backplane = full_backplane(&rt, &mut region, 65_537)?;
    take_rounds(&mut backplane);
    assert!(rt; made_at(&backplane, 65_535) == Some(IN_ROUNDS[0]));
    assert!(rt; made_at(&backplane, 65_536) == Some(IN_ROUNDS[1]));
    assert_refused(&rt, &mut backplane, &[(IN_ROUNDS[2], Refused::TraceFull)]);
    Ok(())
}
