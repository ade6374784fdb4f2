//! How many edges there are of each kind.
ghost use Rattle.std.specs.Prelude.{◌≡◌, ◌<◌, ◌≤◌, ◌^◌, ◌-◌, ℕ, Bool, [], length, slice_index};
ghost use Rattle.vme_bus.specs.Sets.{has};
ghost use Rattle.vme_seeds.specs.Kinds.{kind_of, number};
ghost use Rattle.vme_seeds.specs.Tallies.{AreCounts, CountsIn};

use crate::kinds::{KIND_COUNT, Kind};
use vme_bus::SlotSet;
use vme_model::Edge;

/// How many edges there are of each kind.
#[repr(C)]
#[derive(Clone, Copy)]
pub(crate) struct Tally {
    pub(crate) counts: [u32; KIND_COUNT],
}

impl Tally {
    /// The counts of no edges.
    pub(crate) fn new() -> Tally
        ensures { (boards : ℕ → Bool) → AreCounts boards [] result.counts }
    {
        Tally {
            counts: [0; KIND_COUNT],
        }
    }

    /// How many edges of a kind there are.
    pub(crate) fn count(&self, kind: Kind) -> u32
        ensures { result ≡ slice_index self.now.counts (number kind) }
    {
        self.counts[kind.number()]
    }

    /// Counts one more edge.
    pub(crate) fn add(&mut self, boards: SlotSet, edge: &Edge)
        requires { slice_index self.old.counts (number (kind_of (has boards) edge.now))
            < 2 ^ 32 - 1 }
        ensures { CountsIn (has boards) edge.now self.old.counts self.new.counts }
    {
        let place = Kind::of(boards, edge).number();
        self.counts[place] += 1;
    }

    /// The counts of these edges.
    pub(crate) fn of(boards: SlotSet, edges: &[Edge]) -> Tally
        requires { length edges.now ≤ 792 }
        ensures { AreCounts (has boards) edges.now result.counts }
    {
        let mut tally = Tally::new();
        for edge in edges {
            tally.add(boards, edge);
        }
        tally
    }
}
