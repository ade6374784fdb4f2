//! One pass over the history that follows all logs at once.
ghost use Rattle.std.specs.Prelude.{◌≡◌, ◌≢◌, IfSome, IsTrue, MatchBool, Some, length, slice_get};
ghost use Rattle.vme_model.specs.History.{in_order};
ghost use Rattle.vme_lock.specs.Closing.{AreLogs};
ghost use Rattle.vme_lock.specs.Following.{AreFronts, AreNumbered, AreWhole};
ghost use Rattle.vme_lock.specs.Logs.{is_same_edge, is_same_value};
ghost use Rattle.vme_lock.specs.Seats.{drivers_of};

use crate::logs::Log;
use crate::seats::{Rig, Seat, desk_of};
use vme_backplane::Backplane;
use vme_model::{Cycle, Edge};

/// Whether each driver's edges in the history are its log, found by one pass over the history. If
/// it answers false, the pass may only have been unable to decide.
pub(crate) fn are_logs<L: Rig>(
    backplane: &Backplane<'_>,
    seats: &[Seat<L>],
    logs: &[Log<'_>],
) -> bool
    requires { length logs.now ≡ length seats.now }
    ensures { IsTrue result → AreLogs backplane.now.history (drivers_of seats.now) logs.now }
{
    let Some(numbers) = numbers_of(seats) else {
        return false;
    };
    let Some(ends) = followed(backplane, &numbers, logs) else {
        return false;
    };
    are_whole(seats, logs, &ends)
}

/// At each driver's desk the number of its seat, and at any other desk no seat's number. It is none
/// if a driver has two seats.
fn numbers_of<L: Rig>(seats: &[Seat<L>]) -> Option<[usize; 22]>
    ensures { IfSome result (λ numbers. AreNumbered numbers (drivers_of seats.now)) }
{
    let nobody = seats.len();
    let mut numbers = [nobody; 22];
    for (number, seat) in seats.iter().enumerate() {
        let desk = seat.desk();
        if numbers[desk] != nobody {
            return None;
        }
        numbers[desk] = number;
    }
    Some(numbers)
}

/// At each driver's desk, how many of its edges the history has; these are the first edges of its
/// log. It is none if an edge belongs to no seat, or is not the next of its driver's log.
fn followed(backplane: &Backplane<'_>, numbers: &[usize; 22], logs: &[Log<'_>]) -> Option<[u32; 22]>
    ensures { IfSome result
        (λ ends. AreFronts (in_order backplane.now.history) numbers.now logs.now ends) }
{
    let mut ends = [0; 22];
    for place in 0..backplane.len() {
        let edge = backplane.edge_at(place);
        let desk = desk_of(edge.driver)?;
        let log = logs.get(numbers[desk])?;
        let at = ends[desk];
        if !stands_at(log, at, edge) {
            return None;
        }
        ends[desk] = at + 1;
    }
    Some(ends)
}

/// Whether each log ends at the place that its driver's desk holds.
fn are_whole<L: Rig>(seats: &[Seat<L>], logs: &[Log<'_>], ends: &[u32; 22]) -> bool
    requires { length logs.now ≡ length seats.now }
    ensures { IsTrue result → AreWhole (drivers_of seats.now) logs.now ends.now }
{
    match (seats, logs) {
        ([seat, seats @ ..], [log, logs @ ..]) => {
            ends[seat.desk()] == log.len() && are_whole(seats, logs, ends)
        }
        _ => true,
    }
}

/// Whether the two values are the same.
#[inline(always)]
fn is_same_value(value: Option<Cycle>, other: Option<Cycle>) -> bool
    ensures { result ≡ is_same_value value other }
{
    value == other
}

/// Whether the two edges are the same.
#[inline(always)]
fn is_same(edge: Edge, other: Edge) -> bool
    ensures { result ≡ is_same_edge edge other }
{
    edge.driver.is_same(other.driver)
        && edge.wire.is_same(other.wire)
        && edge.fall == other.fall
        && is_same_value(edge.value, other.value)
}

/// Whether the log has this edge at the place.
#[inline(always)]
pub(crate) fn stands_at(log: &Log<'_>, at: u32, edge: Edge) -> bool
    ensures { MatchBool result
        (slice_get log.now at ≡ Some edge)
        (slice_get log.now at ≢ Some edge) }
{
    at < log.len() && is_same(log.edge_at(at), edge)
}
