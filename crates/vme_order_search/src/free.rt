//! Which places can come next.
ghost use Rattle.std.specs.Prelude.{◌≡◌, ◌<◌, ◌≤◌, ℕ, List, true, All, IfErr, IfOk, IfSome, length};
ghost use Rattle.vme_moments.specs.Orders.{AreInOrder, AreNext, IsFree};
ghost use Rattle.vme_order_search.specs.Places.{AreTaken, IsNarrow, IsNextFree, is_far, number_limit};

use crate::OrderFault;
use crate::taken::Taken;
use std::alloc::Global;
use vme_moments::{Seen, Slacks, is_before};

/// Whether a place can come next: it was not taken, and all that came before it were.
fn is_free(seen: &[Seen], slacks: &Slacks, taken: &Taken, place: usize) -> bool
    requires narrow { IsNarrow taken.now }
    requires ascending { AreInOrder seen.now }
    requires within { place < length seen.now }
    ensures new { result ≡ true → taken.now.least ≤ place }
    ensures free { (places : List ℕ) → AreTaken places taken.now → result ≡ true
        → IsFree slacks.now seen.now places place }
    ensures all { (places : List ℕ) → AreTaken places taken.now
        → IsFree slacks.now seen.now places place → result ≡ true }
{
    if taken.has(place) {
        return false;
    }
    for other in taken.least()..place {
        if !taken.has(other) && is_before(slacks, &seen[other], &seen[place]) {
            return false;
        }
    }
    true
}

/// Whether the least place that is missing came before all from that one on: no slack reaches back
/// from there. The greatest slack is `reach`.
#[inline(always)]
fn is_out_of_reach(seen: &[Seen], reach: u64, least: usize, place: usize) -> bool
    requires ascending { AreInOrder seen.now }
    requires within { place < length seen.now }
    ensures { result ≡ is_far seen.now reach least place }
{
    least < place && reach < seen[place].moment.saturating_sub(seen[least].moment)
}

/// The least place from that one on that can come next, if there is any.
pub(crate) fn next_free(seen: &[Seen], slacks: &Slacks, taken: &Taken, from: usize) -> Option<usize>
    requires narrow { IsNarrow taken.now }
    requires ascending { AreInOrder seen.now }
    ensures next { (places : List ℕ) → AreTaken places taken.now
        → IsNextFree slacks.now seen.now places from result }
    ensures behind { IfSome result (λ place. from ≤ place) }
    ensures within { IfSome result (λ place. place < length seen.now) }
    ensures least { IfSome result (λ place. taken.now.least ≤ place) }
{
    let reach = slacks.greatest();
    for place in from..seen.len() {
        if is_out_of_reach(seen, reach, taken.least(), place) {
            return None;
        }
        if is_free(seen, slacks, taken, place) {
            return Some(place);
        }
    }
    None
}

/// The places that can come next after a beginning with these, ascending.
pub(crate) fn next_places(
    alloc: Global,
    seen: &[Seen],
    slacks: &Slacks,
    taken: &Taken,
) -> Result<Vec<u32>, OrderFault>
    requires narrow { IsNarrow taken.now }
    requires few { length seen.now < number_limit }
    requires ascending { AreInOrder seen.now }
    ensures within { IfOk result (λ next. All (λ p. p < length seen.now) next.items) }
    ensures next { IfOk result (λ next. (places : List ℕ) → AreTaken places taken.now
        → AreNext slacks.now seen.now places next.items) }
    ensures fault { IfErr result (λ fault. fault ≡ OrderFault.NoMemory) }
{
    let mut places = Vec::new(alloc);
    let mut from = 0;
    'places: while let Some(place) = next_free(seen, slacks, taken, from) {
        match places.push(place as u32) {
            Ok(()) => {}
            Err(_) => return Err(OrderFault::NoMemory),
        }
        from = place + 1;
    }
    Ok(places)
}
