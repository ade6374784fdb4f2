//! Runs the boards of a backplane, each in a thread of its own.
ghost use Rattle.std.specs.Prelude.{◌≡◌, ◌≤◌, All, IfOk, MatchResult, length, min, vec_len};
ghost use Rattle.vme_arena.specs.Words.{region_size};
ghost use Rattle.vme_lock.specs.Seats.{drivers_of, seats_of};
ghost use Rattle.vme_model.specs.Accepted.{IsAccepted};
ghost use Rattle.vme_model.specs.Plan.{drivers};
ghost use Rattle.vme_model.specs.Report.{trace_limit};
ghost use Rattle.vme_model.specs.Verdict.{IsLegal};
ghost use Rattle.vme_run.specs.Rooms.{IsRoomFor, rooms_bytes};
ghost use Rattle.vme_run.specs.Between.{IsClosedWith, IsClosedApart, IsPlayed, IsNotPlayed};

use crate::RunFault;
use std::alloc::{AllocError, Global};
use std::marker::Brand;
use std::sync::Wait;
use std::sync::ledger::Blank;
use std::thread::Threads;
use vme_arena::{Region, Rest};
use vme_backplane::{Backplane, Trace};
use vme_lock::{
    Bounds, Closed, Log, LogMismatch, OpenGate, Rig, Room, Seats, Shared, log_bytes, run_boards,
};
use vme_reading::EngineFault;
use vme_slots::DRIVERS;

/// Memory for `boards` boards, each of which makes at most `edges` edges.
///
/// # Errors
/// `AllocError` if memory runs out.
fn region_for(alloc: Global, boards: usize, edges: u32) -> Result<Region, AllocError>
    requires edges { edges ≤ trace_limit }
    requires boards { boards ≤ 22 }
    ensures { IfOk result (λ r. region_size r ≡ rooms_bytes boards edges) }
{
    let room = log_bytes(edges) + Trace::bytes(edges);
    Region::new(alloc, room * boards)
}

/// A room for `edges` edges.
///
/// # Errors
/// `AllocError` if the rest is too short.
fn room<'r>(rest: &mut Rest<'r>, edges: u32) -> Result<Room<'r>, AllocError>
    requires { edges ≤ trace_limit }
    ensures { IfOk result (IsRoomFor edges) }
{
    match (
        rest.carve(log_bytes(edges)),
        rest.carve(Trace::bytes(edges)),
    ) {
        (Ok(scratch), Ok(log)) => Ok(Room { scratch, log }),
        _ => Err(AllocError),
    }
}

/// A room for each board.
///
/// # Errors
/// `AllocError` if memory runs out or the rest is too short.
fn rooms_for<'r>(
    alloc: Global,
    rest: &mut Rest<'r>,
    boards: usize,
    edges: u32,
) -> Result<Vec<Room<'r>>, AllocError>
    requires { edges ≤ trace_limit }
    ensures many { IfOk result (λ v. vec_len v ≡ boards) }
    ensures rooms { IfOk result (λ v. All (IsRoomFor edges) v.items) }
{
    let mut rooms = Vec::new(alloc);
    for _board in 0..boards {
        rooms.push(room(rest, edges)?)?;
    }
    Ok(rooms)
}

/// Runs all boards of a backplane, and returns it with the history that they made.
///
/// # Errors
/// F3 or L3 if memory runs out; L4 if a driver's edges in the history are not its log.
pub(crate) fn play<'r, R: Threads + Wait + Sync>(
    rt: &R,
    alloc: Global,
    backplane: Backplane<'r>,
    bounds: Bounds,
) -> Result<Backplane<'r>, RunFault>
    requires { bounds.edges ≤ trace_limit }
    ensures { MatchResult result
        (IsPlayed bounds.turns backplane.entry)
        (IsNotPlayed bounds.turns backplane.entry) }
{
    play_on::<Brand, R>(rt, alloc, Blank::new(DRIVERS as u64), backplane, bounds)
}

fn play_on<'r, L: Rig + Send + Sync, R: Threads + Wait + Sync>(
    rt: &R,
    alloc: Global,
    blank: Blank,
    backplane: Backplane<'r>,
    bounds: Bounds,
) -> Result<Backplane<'r>, RunFault>
    requires blank { (blank.name ≡ L.name) × (blank.parts ≡ L.parts) × (blank.parts ≡ 22) }
    requires opened { L.opened ≡ backplane }
    requires limit { bounds.edges ≤ trace_limit }
    ensures { MatchResult result
        (IsPlayed bounds.turns L.opened)
        (IsNotPlayed bounds.turns L.opened) }
{
    backplane.laws();
    let Ok((shared, seats)) = Shared::<L>::new(alloc, blank, backplane) else {
        return Err(RunFault::Engine(EngineFault::NoMemory));
    };
    let edges = bounds.turns.min(bounds.edges);
    let Ok(mut region) = region_for(alloc, seats.len(), edges) else {
        return Err(RunFault::Engine(EngineFault::NoMemory));
    };
    let Ok(rooms) = rooms_for(alloc, &mut region.rest(), seats.len(), edges) else {
        return Err(RunFault::Engine(EngineFault::NoMemory));
    };
    play_in(rt, alloc, shared, seats, bounds, rooms)
}

/// Runs the boards of a lock, each in its room, and closes the lock.
fn play_in<'r, L: Rig + Send + Sync, R: Threads + Wait + Sync>(
    rt: &R,
    alloc: Global,
    shared: Shared<'r, L>,
    seats: Seats<L>,
    bounds: Bounds,
    rooms: Vec<Room<'_>>,
) -> Result<Backplane<'r>, RunFault>
    requires parts { L.parts ≡ 22 }
    requires accepted { IsAccepted L.opened.plan }
    requires legal { IsLegal L.opened.version L.opened.plan L.opened.history }
    requires seats { seats.items ≡ seats_of L.opened }
    requires drivers { drivers_of seats.items ≡ drivers L.opened.plan }
    requires rooms { vec_len rooms ≡ vec_len seats }
    requires bytes { All (IsRoomFor (min bounds.turns bounds.edges)) rooms.items }
    ensures { MatchResult result
        (IsPlayed bounds.turns L.opened)
        (IsNotPlayed bounds.turns L.opened) }
{
    let Ok((seats, logs)) = run_boards(rt, alloc, &shared, seats, &OpenGate, bounds, rooms) else {
        return Err(RunFault::NotStarted);
    };
    close_boards(shared, seats, logs.as_slice())
}

/// Closes a lock, given the logs that its workers returned.
fn close_boards<'r, L: Rig>(
    shared: Shared<'r, L>,
    seats: Seats<L>,
    logs: &[Log<'_>],
) -> Result<Backplane<'r>, RunFault>
    requires parts { L.parts ≡ 22 }
    requires seats { drivers_of seats.items ≡ drivers L.opened.plan }
    requires logs { length logs.now ≡ vec_len seats }
    ensures { MatchResult result
        (IsClosedWith L.opened seats.items logs.now)
        (IsClosedApart L.opened seats.items logs.now) }
{
    match shared.close(seats, logs) {
        Ok(Closed { backplane }) => {
            backplane.laws();
            backplane.safety();
            Ok(backplane)
        }
        Err(
            LogMismatch {
                driver,
                at,
                backplane,
            },
        ) => {
            backplane.laws();
            backplane.safety();
            Err(RunFault::LogDiffers { driver, at })
        }
    }
}
