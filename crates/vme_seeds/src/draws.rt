//! What a seed draws by, without a bus.
ghost use Rattle.std.specs.Prelude.{◌≡◌, ◌≤◌, ◌<◌, ◌+◌, ◌*◌, ◌^◌, ◌-◌, ℕ, Bool, [], length, slice_get, slice_index};
ghost use Rattle.vme_bus.specs.Sets.{has};
ghost use Rattle.vme_seeds.specs.declared.kinds.Kind.{Kind as KindOf};
ghost use Rattle.vme_seeds.specs.Choices.{chosen_by, weight};
ghost use Rattle.vme_seeds.specs.Draws.{draw_by, is_seeded, next_by, numbers_of, weight_of};
ghost use Rattle.vme_seeds.specs.Kinds.{kind_of, number, of_kind};
ghost use Rattle.vme_seeds.specs.Numbers.{after_words, generator};
ghost use Rattle.vme_seeds.specs.Tallies.{AreCounts, CountsIn};

use crate::chances::Chances;
use crate::kinds::Kind;
use crate::numbers::scaled;
use crate::tallies::Tally;
use crate::weights::Weights;
use rand_core::utils::NextWord;
use rand_pcg::Pcg32;
use vme_bus::SlotSet;
use vme_model::Edge;

/// The draws of a seed: its generator, the weight that it gives each kind, and how many edges of
/// each kind were counted.
///
/// It holds no bus, no memory but its own, and numbers alone, so that a program in C may keep it.
#[repr(C)]
#[derive(Clone, Copy)]
pub struct Draws {
    // the state of the generator
    low: u32,
    high: u32,
    weights: Weights,
    pub(crate) made: Tally,
}

/// The two halves of a word of 64 bits, the low one first.
fn halves(word: u64) -> (u32, u32)
    ensures { result.0 + result.1 * 2 ^ 32 ≡ word }
{
    let low = (word % 0x1_0000_0000) as u32;
    let high = (word / 0x1_0000_0000) as u32;
    (low, high)
}

/// The edge at a place among the edges of a kind.
fn edge_of(boards: SlotSet, edges: &[Edge], kind: Kind, place: u32) -> Option<Edge>
    ensures { result ≡ slice_get (of_kind (has boards) kind edges.now) place }
{
    let mut left = place;
    for edge in edges {
        if Kind::of(boards, edge).is_same(kind) {
            if left == 0 {
                return Some(*edge);
            }
            left -= 1;
        }
    }
    None
}

impl Draws {
    /// The draws of a seed before its first: no edge was counted.
    pub fn new(seed: u64) -> Draws
        ensures numbers { numbers_of result ≡ after_words 28 (generator seed) }
        ensures weights { (k : KindOf) → weight_of result k ≡ weight (generator seed) k }
        ensures made { (boards : ℕ → Bool) → AreCounts boards [] result.made.counts }
    {
        let mut numbers = Pcg32::new(seed, 0);
        let weights = Weights::draw(&mut numbers);
        let (low, high) = halves(numbers.state());
        Draws {
            low,
            high,
            weights,
            made: Tally::new(),
        }
    }

    /// Whether they are those of some seed: a seed gives each kind a weight, and zeros give none.
    pub fn is_seeded(&self) -> bool
        ensures { result ≡ is_seeded self.now }
    {
        self.weights.by_kind[0] > 0
    }

    /// The generator.
    fn numbers(&self) -> Pcg32
        ensures { result ≡ numbers_of self.now }
    {
        let high = u64::from(self.high) * 0x1_0000_0000;
        Pcg32::from_state(u64::from(self.low) + high, 0)
    }

    /// Which of these edges two words choose: the first word draws the kind, and the second one of
    /// its edges.
    fn choice(&self, boards: SlotSet, edges: &[Edge], first: u32, second: u32) -> Option<Edge>
        requires { length edges.now ≤ 792 }
        ensures { result ≡ chosen_by (draw_by self.now (has boards) edges.now) first second }
    {
        let ready = Tally::of(boards, edges);
        let chances = Chances::new(&self.weights, &self.made, &ready);
        let kind = chances.kind_at(scaled(first, chances.sum()))?;
        let place = scaled(second, ready.count(kind));
        edge_of(boards, edges, kind, place)
    }

    /// Draws one of these edges, if these slots have a board; none if there is no edge. It is not
    /// counted yet.
    pub fn draw(&mut self, boards: SlotSet, edges: &[Edge]) -> Option<Edge>
        requires { length edges.now ≤ 792 }
        ensures edge { result ≡ next_by self.old (has boards) edges.now }
        ensures numbers { numbers_of self.new ≡ after_words 2 (numbers_of self.old) }
        ensures weights { self.new.weights ≡ self.old.weights }
        ensures made { self.new.made ≡ self.old.made }
    {
        let mut numbers = self.numbers();
        let first = numbers.next_word();
        let second = numbers.next_word();
        let edge = self.choice(boards, edges, first, second);
        let (low, high) = halves(numbers.state());
        self.low = low;
        self.high = high;
        edge
    }

    /// Counts an edge, if these slots have a board. A count stops at 2^32 - 1.
    pub fn count(&mut self, boards: SlotSet, edge: &Edge)
        ensures counts { slice_index self.old.made.counts (number (kind_of (has boards) edge.now))
            < 2 ^ 32 - 1
            → CountsIn (has boards) edge.now self.old.made.counts self.new.made.counts }
        ensures full { slice_index self.old.made.counts (number (kind_of (has boards) edge.now))
            ≡ 2 ^ 32 - 1 → self.new ≡ self.old }
        ensures numbers { numbers_of self.new ≡ numbers_of self.old }
        ensures weights { self.new.weights ≡ self.old.weights }
    {
        if self.made.count(Kind::of(boards, edge)) < u32::MAX {
            self.made.add(boards, edge);
        }
    }
}
