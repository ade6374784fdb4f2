//! One thread for each board.
ghost use Rattle.std.specs.Prelude.{◌≡◌, ◌≤◌, [], All, IfOk, vec_len, vec_capacity};
ghost use Rattle.std.specs.Thread.{IsSync};
ghost use Rattle.vme_lock.specs.Seats.{seat_after, AllWorked, IsWithin, drivers_of};

use crate::logs::{Log, Room};
use crate::seats::{Rig, Seat, Seats};
use crate::shared::Shared;
use crate::workers::{Bounds, Gate, Spent, work_board};
use std::alloc::Global;
use std::sync::Wait;
use std::thread::{Threads, join};
use thiserror::Error;

/// The boards were not started, since memory ran out (L3).
#[derive(Clone, Copy, PartialEq, Eq, Debug, Error)]
#[error("L3 the boards could not be started")]
pub struct NotStarted;

/// Works each seat in a thread of its own, in its room, and joins all threads. It may wait for the
/// lock and the gate. It returns the seats and their logs, in their order.
///
/// # Errors
/// L3 if memory runs out, before any board starts.
pub fn run_boards<'r, L: Rig + Send + Sync, G: Gate + Sync, R: Threads + Wait + Sync>(
    rt: &R,
    alloc: Global,
    shared: &Shared<'_, L>,
    seats: Seats<L>,
    gate: &G,
    bounds: Bounds,
    rooms: Vec<Room<'r>>,
) -> Result<(Seats<L>, Vec<Log<'r>>), NotStarted>
    requires rooms { vec_len rooms ≡ vec_len seats }
    ensures worked { IfOk result (λ r. AllWorked seats.items r.0.items r.1.items) }
    ensures drivers { IfOk result (λ r. drivers_of r.0.items ≡ drivers_of seats.items) }
    ensures logs { IfOk result (λ r. vec_len r.1 ≡ vec_len r.0) }
    ensures most { IfOk result (λ r. All (IsWithin bounds.turns bounds.edges) r.1.items) }
{
    let Ok(logs) = Vec::with_capacity(alloc, seats.len()) else {
        return Err(NotStarted);
    };
    Ok(run_all(rt, shared, seats, gate, bounds, rooms, logs))
}

/// Works the last seat in a new thread, and all seats before it in this one.
fn run_all<'r, L: Rig + Send + Sync, G: Gate + Sync, R: Threads + Wait + Sync>(
    rt: &R,
    shared: &Shared<'_, L>,
    mut seats: Seats<L>,
    gate: &G,
    bounds: Bounds,
    mut rooms: Vec<Room<'r>>,
    logs: Vec<Log<'r>>,
) -> (Seats<L>, Vec<Log<'r>>)
    requires rooms { vec_len rooms ≡ vec_len seats }
    requires logs { logs.items ≡ [] }
    requires reserved { vec_len seats ≤ vec_capacity logs }
    ensures worked { AllWorked seats.items result.0.items result.1.items }
    ensures len { (vec_len result.0 ≡ vec_len seats) × (vec_len result.1 ≡ vec_len seats) }
    ensures reserved { (vec_capacity result.0 ≡ vec_capacity seats)
        × (vec_capacity result.1 ≡ vec_capacity logs.entry) }
    ensures most { All (IsWithin bounds.turns bounds.edges) result.1.items }
{
    let Some(seat) = seats.pop() else {
        return (seats, logs);
    };
    let Some(room) = rooms.pop() else {
        return (seats, logs);
    };
    let ((seat, log, _), (mut seats, mut logs)) = join(
        rt,
        move || -> (Seat<L>, Log, Spent)
            ensures worked { result.0 ≡ seat_after seat result.1 }
            ensures most { IsWithin bounds.turns bounds.edges result.1 }
        { work_board(rt, shared, seat, gate, bounds, room) },
        move || -> (Seats<L>, Vec<Log>)
            requires here { IsSync R.row × IsSync L.row × IsSync G.row }
            requires rooms { vec_len rooms ≡ vec_len seats }
            requires logs { logs.items ≡ [] }
            requires reserved { vec_len seats ≤ vec_capacity logs }
            ensures worked { AllWorked seats.items result.0.items result.1.items }
            ensures len { (vec_len result.0 ≡ vec_len seats) × (vec_len result.1 ≡ vec_len seats) }
            ensures reserved { (vec_capacity result.0 ≡ vec_capacity seats)
                × (vec_capacity result.1 ≡ vec_capacity logs.entry) }
            ensures most { All (IsWithin bounds.turns bounds.edges) result.1.items }
        { run_all(rt, shared, seats, gate, bounds, rooms, logs) },
    );
    seats.push_reserved(seat);
    logs.push_reserved(log);
    (seats, logs)
}
