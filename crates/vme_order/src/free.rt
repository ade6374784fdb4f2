//! Which places can come next.
ghost use Rattle.std.specs.Prelude.{◌≡◌, ◌<◌, ◌≤◌, ℕ, List, true, All, IfErr, IfOk, IfSome, length, reverse};
ghost use Rattle.vme_model.specs.Report.{trace_limit};
ghost use Rattle.vme_moments.specs.Orders.{AreInOrder, AreNext, IsFree};
ghost use Rattle.vme_order.specs.Places.{AreTaken, AreUnfree, IsCounted, IsNextFree};
ghost use Rattle.vme_order.specs.declared.taken.Taken.{Taken as TakenValue};

use crate::OrderFault;
use crate::taken::Taken;
use std::alloc::Global;
use vme_moments::{Seen, Slacks, is_before};

/// Whether a place can come next: it was not taken, and all that came before it were.
fn is_free(seen: &[Seen], slacks: &Slacks, taken: &Taken, place: usize) -> bool
    requires ascending { AreInOrder seen.now }
    requires counted { IsCounted taken.now }
    requires within { place < length seen.now }
    ensures new { result ≡ true → taken.now.least ≤ place }
    ensures free { (places : List ℕ) → AreTaken seen.now places taken.now → result ≡ true
        → IsFree slacks.now seen.now places place }
    ensures all { (places : List ℕ) → AreTaken seen.now places taken.now
        → IsFree slacks.now seen.now places place → result ≡ true }
{
    if taken.has(place) {
        return false;
    }
    for other in taken.least()..place {
        if !taken.has(other) && is_before(slacks, &seen[other], &seen[place]) {
            return false;
        }
    }
    true
}

/// Whether the least place that was not taken came before all from that one on: no slack reaches back
/// from there.
fn is_out_of_reach(seen: &[Seen], slacks: &Slacks, least: usize, place: usize) -> bool
    requires ascending { AreInOrder seen.now }
    requires within { place < length seen.now }
    ensures { (places : List ℕ) (taken : TakenValue) → AreTaken seen.now places taken
        → taken.least ≡ least → result ≡ true
        → AreUnfree slacks.now seen.now places place (length seen.now) }
{
    least < place
        && seen[least].moment.saturating_add(slacks.greatest()) < seen[place].moment
}

/// The least place from that one on that can come next, if there is any.
pub(crate) fn next_free(
    seen: &[Seen],
    slacks: &Slacks,
    taken: &Taken,
    from: usize,
) -> Option<usize>
    requires ascending { AreInOrder seen.now }
    requires counted { IsCounted taken.now }
    requires room { length taken.now.flags.items ≡ length seen.now }
    ensures next { (places : List ℕ) → AreTaken seen.now places taken.now
        → IsNextFree slacks.now seen.now places from result }
    ensures behind { IfSome result (λ place. from ≤ place) }
    ensures within { IfSome result (λ place. place < length seen.now) }
    ensures least { IfSome result (λ place. taken.now.least ≤ place) }
{
    for place in from..seen.len() {
        if is_out_of_reach(seen, slacks, taken.least(), place) {
            return None;
        }
        if is_free(seen, slacks, taken, place) {
            return Some(place);
        }
    }
    None
}

/// The places that were taken, of an order.
fn taken_by(alloc: Global, seen: &[Seen], order: &[u32]) -> Result<Taken, OrderFault>
    requires within { All (λ place. place < length seen.now) order.now }
    ensures taken { IfOk result (AreTaken seen.now (reverse order.now)) }
    ensures fault { IfErr result (λ fault. fault ≡ OrderFault.NoMemory) }
{
    let mut taken = Taken::new(alloc, seen.len())?;
    for place in order {
        taken.take(*place as usize);
    }
    Ok(taken)
}

/// The places that can come next after a beginning, by place.
///
/// Errors: F3.
pub fn next_places(
    alloc: Global,
    seen: &[Seen],
    slacks: &Slacks,
    order: &[u32],
) -> Result<Vec<u32>, OrderFault>
    requires few { length seen.now ≤ trace_limit }
    requires ascending { AreInOrder seen.now }
    requires within { All (λ place. place < length seen.now) order.now }
    ensures next { IfOk result (λ next.
        AreNext slacks.now seen.now (reverse order.now) next.items) }
    ensures fault { IfErr result (λ fault. fault ≡ OrderFault.NoMemory) }
{
    let taken = taken_by(alloc, seen, order)?;
    let mut places = Vec::new(alloc);
    let mut from = 0;
    'places: while let Some(place) = next_free(seen, slacks, &taken, from) {
        if places.push(place as u32).is_err() {
            return Err(OrderFault::NoMemory);
        }
        from = place + 1;
    }
    Ok(places)
}
