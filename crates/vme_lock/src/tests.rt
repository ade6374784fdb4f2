//! A seat that made another number of edges than the history has of its driver: no call outside this crate makes one. The
//! other tests stand in `vme_tests`.
ghost use Rattle.std.specs.Prelude.{◌≡◌};

use super::*;
use std::alloc::Global;
use std::marker::Brand;
use std::process::Abort;
use std::sync::Wait;
use std::sync::ledger::Blank;
use std::test::*;
use vme_arena::{Region, Rest};
use vme_backplane::{Backplane, Trace};
use vme_model::{ArbiterKind, Driver, Edge, Levels, Release, RequesterRow, Row, Version, Wire};
use vme_slots::Plan;

const FIRST: Driver = Driver::Slot(1);

fn fall(driver: Driver, wire: Wire) -> Edge {
    Edge {
        driver,
        wire,
        fall: true,
        value: None,
    }
}

/// A backplane whose one board requests and withdraws as often as it likes.
fn backplane<'r>(alloc: Global, rest: &mut Rest<'r>) -> Result<Backplane<'r>, Fail> {
    let board = Row {
        slot: 1,
        requester: Some(RequesterRow {
            level: 3,
            release: Release::Request,
        }),
        interrupter: None,
        handler: Levels::of_lines([false; 7]),
    };
    let plan = Plan::new(alloc, 1, &[board], &[], ArbiterKind::Sgl)?;
    let trace = Trace::on(alloc, rest, 8)?;
    Ok(Backplane::new(plan, trace, Version::Two))
}

/// Works a seat for so many turns, and says how many edges it made and why it ended.
fn worked<L: Rig, R: Wait>(
    rt: &R,
    shared: &Shared<'_, L>,
    seat: Seat<L>,
    turns: u32,
    rest: &mut Rest<'_>,
) -> Result<(Seat<L>, u32, Spent), Fail> {
    let bounds = Bounds { turns, edges: 8 };
    let room = Room {
        scratch: rest.carve(2048)?,
        log: rest.carve(Trace::bytes(8))?,
    };
    let (seat, log, spent) = work_board(rt, shared, seat, &OpenGate, bounds, room);
    Ok((seat, log.len(), spent))
}

/// It sees nothing and makes no edge, and its worker ends.
fn see_nothing<L: Rig, R: Wait + Abort>(
    rt: &R,
    shared: &Shared<'_, L>,
    seat: Seat<L>,
    own: u32,
    rest: &mut Rest<'_>,
) -> Result<(), Fail> {
    let (mut seat, made, spent) = worked(rt, shared, seat, 1, rest)?;
    assert!(rt; made == 0 && spent == Spent::Lost);
    let lost = Lost { own };
    assert!(rt; shared.look(rt, &seat).err() == Some(lost));
    let others = fall(Driver::Controller, Wire::Bclr);
    assert!(rt; shared.edge(rt, &mut seat, others) == Err(EdgeRefused::NotYours));
    let refused = shared.edge(rt, &mut seat, fall(FIRST, Wire::Irq));
    assert!(rt; refused == Err(EdgeRefused::Lost(lost)));
    Ok(())
}

/// The board makes seven edges, and then the controller's share is made a seat of its.
fn lose<L: Rig, R: Wait + Abort>(
    rt: &R,
    alloc: Global,
    blank: Blank,
    backplane: Backplane<'_>,
    rest: &mut Rest<'_>,
) -> Result<(), Fail>
    requires blank { (blank.name ≡ L.name) × (blank.parts ≡ L.parts) × (blank.parts ≡ 22) }
    requires opened { L.opened ≡ backplane }
{
    let Ok((shared, mut seats)) = Shared::<'_, L>::new(alloc, blank, backplane) else {
        return Err("L2".into());
    };
    let first = seats.pop().ok_or("two seats")?;
    let controller = seats.pop().ok_or("two seats")?;
    let (_, made, _) = worked(rt, &shared, first, 7, rest)?;
    assert_eq!(rt; made, 7);
    let stray = Seat::new(FIRST, controller.made(), controller.into_share());
    see_nothing(rt, &shared, stray, 7, rest)
}

#[test]
fn a_seat_that_is_lost(rt: HostRuntime) -> Result<(), Fail> {
    let mut region = Region::new(rt.alloc(), 8192)?;
    let mut rest = region.rest();
    let backplane = backplane(rt.alloc(), &mut rest)?;
    lose::<Brand, _>(&rt, rt.alloc(), Blank::new(22), backplane, &mut rest)
}
