//! Workers without an offer: what ends their waiting, and that their sleep ends.
ghost use Rattle.std.specs.Prelude.{◌≡◌};

use crate::boards::fall;
use crate::gates::{Naps, Requests};
use crate::lock::{AMPLE, MEMORY, boards, is_log_of, open_one, room, run_in_rooms};
use std::alloc::Global;
use std::marker::Brand;
use std::process::Abort;
use std::sync::ledger::Blank;
use std::sync::{Mutex, Wait};
use std::test::*;
use vme_arena::Region;
use vme_backplane::Backplane;
use vme_lock::{Bounds, Rig, Room, Spent, work_board};
use vme_model::{Driver, Version, Wire};

/// The controller looks once and finds no offer, and waits for two turns. Then its gate makes slot
/// 1 request the bus, and the next turn grants it. The gate takes the lock after each turn.
fn grants_at_once<L: Rig, R: Wait + Abort>(
    rt: &R,
    alloc: Global,
    blank: Blank,
    backplane: Backplane<'_>,
    room: Room<'_>,
) -> Result<(), Fail>
    requires blank { (blank.name ≡ L.name) × (blank.parts ≡ L.parts) × (blank.parts ≡ 22) }
    requires opened { L.opened ≡ backplane }
{
    let (shared, controller, first) = open_one::<L>(alloc, blank, backplane)?;
    let gate = Requests {
        rt,
        shared: &shared,
        first: Mutex::new(first),
        after: 2,
    };
    let bounds = Bounds {
        turns: 4,
        edges: 1000,
    };
    let (_, log, spent) = work_board(rt, &shared, controller, &gate, bounds, room);
    assert!(rt; spent == Spent::Turns);
    assert!(rt; is_log_of(&log, &[fall(Driver::Controller, Wire::Bg(3))]));
    Ok(())
}

#[test]
fn an_edge_ends_the_waiting(rt: HostRuntime) -> Result<(), Fail> {
    let mut region = Region::new(rt.alloc(), MEMORY)?;
    let mut rest = region.rest();
    let backplane = boards(rt.alloc(), &mut rest, 1, Version::One)?;
    let room = room(&mut rest, (AMPLE, AMPLE))?;
    grants_at_once::<Brand, _>(&rt, rt.alloc(), Blank::new(22), backplane, room)
}

/// 2,000 turns without an offer take less than 1,000 naps of another thread, since a worker sleeps
/// in only 100 of them.
#[test]
fn naps_end(rt: HostRuntime) -> Result<(), Fail> {
    let gate = Naps::new(&rt, 2000, 1000);
    run_in_rooms(&rt, rt.alloc(), 1, &gate, 2000, &[(AMPLE, AMPLE); 2])?;
    assert!(rt; !gate.ran_out());
    Ok(())
}
