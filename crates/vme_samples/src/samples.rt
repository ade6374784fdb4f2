//! The changes of a sample.
ghost use Rattle.std.specs.Prelude.{◌≡◌, ◌&&◌, ◌<◌, ◌≤◌, ◌++◌, ◌∷◌, [], IsTrue, length, not, true, false};
ghost use Rattle.vme_captures.specs.Signals.{is_change, is_same_signal};
ghost use Rattle.vme_samples.specs.Places.{has_place};
ghost use Rattle.vme_samples.specs.Samples.{are_changes, comes_next, earlier_in, is_of, joins};

pub use crate::places::MOST;
use crate::places::Places;
use arrayvec::ArrayVec;
use vme_captures::{Change, Line, Signal};

/// A change, and the moment at which it was seen.
#[derive(Clone, Copy, PartialEq, Eq)]
pub struct SeenChange {
    pub moment: u64,
    pub change: Change,
}

/// What fills the room of a sample that is not used.
impl Default for SeenChange {
    fn default() -> SeenChange {
        SeenChange {
            moment: 0,
            change: Change {
                signal: Signal::Line(Line::Bbsy),
                fall: false,
                value: None,
            },
        }
    }
}

/// Whether the two are one line, or one pin.
fn is_same_signal(a: Signal, b: Signal) -> bool
    ensures { result ≡ is_same_signal a b }
{
    a == b
}

/// Whether the change at the place is of the line or pin, and is not in the set.
fn is_missing(sample: &[SeenChange], signal: Signal, places: Places, place: usize) -> bool
    requires few { length sample.now ≤ 12 }
    requires near { place < length sample.now }
    ensures { result ≡ (is_of sample.now signal place && not (has_place places place)) }
{
    is_same_signal(sample[place].change.signal, signal) && !places.has(place)
}

/// Whether the places of all earlier changes of the line or pin are in the set.
fn earlier_in(sample: &[SeenChange], signal: Signal, places: Places, place: usize) -> bool
    requires few { length sample.now ≤ 12 }
    requires near { place ≤ length sample.now }
    ensures { result ≡ earlier_in sample.now signal places place }
{
    let mut are_in = true;
    for earlier in 0..place {
        let is_missing = is_missing(sample, signal, places, earlier);
        are_in = are_in && !is_missing;
    }
    are_in
}

/// Whether the change at the place may come next behind those of a set: it is not in it, and all
/// earlier ones of its line or pin are.
pub fn comes_next(sample: &[SeenChange], places: Places, place: usize) -> bool
    requires few { length sample.now ≤ 12 }
    requires near { place < length sample.now }
    ensures { result ≡ comes_next sample.now places place }
{
    !places.has(place) && earlier_in(sample, sample[place].change.signal, places, place)
}

/// The changes of a sample as far as they were read, in the order of the capture: at most 12.
#[derive(Drop)]
pub struct Sample {
    changes: ArrayVec<SeenChange, MOST>,
    ghost formed: { are_changes changes.items ≡ true },
}

impl Sample {
    /// Without a change.
    pub fn new() -> Sample
        ensures { result.changes.items ≡ [] }
    {
        Sample {
            changes: ArrayVec::new(),
        }
    }

    /// Its changes, in the order of the capture.
    pub fn changes(&self) -> &[SeenChange]
        ensures is { result.now ≡ self.now.changes.items }
        ensures few { length result.now ≤ 12 }
        ensures changes { IsTrue (are_changes result.now) }
    {
        self.changes.as_slice()
    }

    /// Whether a change at this moment belongs to it: it has none, or its last one is at most so
    /// much before.
    pub fn joins(&self, skew: u64, moment: u64) -> bool
        ensures { result ≡ joins skew self.now.changes.items moment }
    {
        match self.changes.as_slice().last() {
            None => true,
            Some(last) => moment.saturating_sub(last.moment) <= skew,
        }
    }

    /// Takes one change more in. False if there is no room for it.
    pub fn push(&mut self, seen: SeenChange) -> bool
        requires { IsTrue (is_change seen.change) }
        ensures pushed { result ≡ true
            → self.new.changes.items ≡ self.old.changes.items ++ seen ∷ [] }
        ensures few { result ≡ true → length self.old.changes.items < 12 }
        ensures full { result ≡ false
            → (length self.old.changes.items ≡ 12) × (self.new ≡ self.old) }
    {
        self.changes.try_push(seen).is_ok()
    }

    /// Drops its changes.
    pub fn clear(&mut self)
        ensures { self.new.changes.items ≡ [] }
    {
        self.changes.clear();
    }
}
