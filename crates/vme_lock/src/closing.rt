//! Taking the backplane from the lock.
ghost use Rattle.std.specs.Prelude.{◌≡◌, ◌+◌, ◌<◌, length, sum_by, vec_len, MatchResult, MatchOption};
ghost use Rattle.vme_model.specs.Plan.{drivers};
ghost use Rattle.vme_model.specs.Counts.{only};
ghost use Rattle.vme_lock.specs.Seats.{drivers_of};
ghost use Rattle.vme_lock.specs.Closing.{IsClosing, AreLogs, DiffersAt, FirstDiffers, IsFirstDifference};

use crate::following::{are_logs, stands_at};
use crate::held::Held;
use crate::logs::Log;
use crate::seats::{Rig, Seat, Seats};
use crate::shared::Shared;
use std::sync::ledger::{Book, Share};
use vme_backplane::Backplane;
use vme_model::Driver;

/// The result of closing a lock whose boards made the history that their logs have.
#[derive(Drop)]
pub struct Closed<'r> {
    pub backplane: Backplane<'r>,
}

/// The result of closing a lock whose history is not that of its boards' logs (L4).
#[derive(Drop)]
pub struct LogMismatch<'r> {
    /// The first driver whose edges in the history are not its log.
    pub driver: Driver,
    /// The first place where they differ, counted from 0 in the driver's edges.
    pub at: u32,
    pub backplane: Backplane<'r>,
}

impl<'r, L: Rig> Shared<'r, L> {
    /// Takes the backplane from the lock, if each driver's edges in its history are its log.
    ///
    /// `seats` are all seats of the lock, and there is one log for each, both in their order.
    ///
    /// # Errors
    /// L4: the first driver whose edges are not its log, and the first place where they differ. If
    /// one only goes on after the other, that place is the length of the shorter one.
    pub fn close(self, seats: Seats<L>, logs: &[Log<'_>]) -> Result<Closed<'r>, LogMismatch<'r>>
        requires parts { L.parts ≡ 22 }
        requires seats { drivers_of seats.items ≡ drivers L.opened.plan }
        requires logs { length logs.now ≡ vec_len seats }
        ensures history { MatchResult result
            (λ c. IsClosing L.opened seats.items c.backplane)
            (λ m. IsClosing L.opened seats.items m.backplane) }
        ensures logs { MatchResult result
            (λ c. AreLogs c.backplane.history (drivers L.opened.plan) logs.now)
            (λ m. FirstDiffers m.backplane.history (drivers L.opened.plan) logs.now m.driver m.at) }
    {
        let Shared { lock, news: _ } = self;
        let Held {
            backplane,
            counts: _,
            mut book,
            spare,
        } = lock.into_inner();
        backplane.laws();
        let found = find_difference(&backplane, seats.as_slice(), logs);
        count_all(&mut book, spare, seats);
        match found {
            None => Ok(Closed { backplane }),
            Some((driver, at)) => Err(LogMismatch {
                driver,
                at,
                backplane,
            }),
        }
    }
}

/// Adds up all seats: together they made as many edges as the book has.
fn count_all<L: Rig>(book: &mut Book<L>, spare: Share<L>, mut seats: Seats<L>)
    requires all { spare.parts + vec_len seats ≡ L.parts }
    requires spare { spare.amount ≡ 0 }
    ensures { book.old.total ≡ sum_by (λ s. s.made) seats.items }
{
    let mut all = spare;
    while let Some(seat) = seats.pop() {
        all.merge(seat.into_share());
    }
    book.audit(&mut all);
}

/// The first driver whose edges in the history are not its log, and the place where they differ. If
/// there is no such driver, one pass over the history is mostly enough.
fn find_difference<L: Rig>(
    backplane: &Backplane<'_>,
    seats: &[Seat<L>],
    logs: &[Log<'_>],
) -> Option<(Driver, u32)>
    requires { length logs.now ≡ length seats.now }
    ensures { IsFirstDifference backplane.now.history (drivers_of seats.now) logs.now result }
{
    if are_logs(backplane, seats, logs) {
        None
    } else {
        first_difference(backplane, seats, logs)
    }
}

/// The first driver whose edges in the history are not its log, and the place where they differ,
/// found by a pass for each driver.
fn first_difference<L: Rig>(
    backplane: &Backplane<'_>,
    seats: &[Seat<L>],
    logs: &[Log<'_>],
) -> Option<(Driver, u32)>
    requires { length logs.now ≡ length seats.now }
    ensures { IsFirstDifference backplane.now.history (drivers_of seats.now) logs.now result }
{
    match (seats, logs) {
        ([seat, seats @ ..], [log, logs @ ..]) => {
            let driver = seat.driver();
            match difference(backplane, driver, log) {
                Some(at) => Some((driver, at)),
                None => first_difference(backplane, seats, logs),
            }
        }
        _ => None,
    }
}

/// The first place where the driver's edges in the history are not the log; none if they are the
/// log.
fn difference(backplane: &Backplane<'_>, driver: Driver, log: &Log<'_>) -> Option<u32>
    ensures { MatchOption result
        (only backplane.now.history driver ≡ log.now)
        (λ at. DiffersAt (only backplane.now.history driver) log.now at) }
{
    let len = log.len();
    let mut at = 0;
    for place in 0..backplane.len() {
        let edge = backplane.edge_at(place);
        if edge.driver.is_same(driver) {
            if !stands_at(log, at, edge) {
                return Some(at);
            }
            at += 1;
        }
    }
    if at == len { None } else { Some(at) }
}
