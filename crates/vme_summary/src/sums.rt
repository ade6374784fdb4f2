//! What several traces come to together.
ghost use Rattle.std.specs.Prelude.{◌≡◌, ◌<◌, ◌∷◌, ℕ, [], length, slice_index_or};
ghost use Rattle.vme_summary.specs.Tally.{accepted, passed_by, refused, refused_for, times_met};
ghost use Rattle.vme_summary.specs.Tallied.{IsNamed, OfTally, idle};
ghost use Rattle.vme_summary.specs.Summed.{board_with};
ghost use Rattle.vme_summary.specs.Sums.{board_sums, total};

use crate::boards::{BoardTally, SLOTS};
use crate::counts::add_counts;
use crate::refusals::Refusals;
use crate::rules::RULES;
use crate::tallies::Tally;
use vme_goals::Event;
use vme_model::Refused;

/// What several traces come to together, each from power-up on: the sums of their numbers, and the
/// greatest waits and holds. A sum stays at 2^64 - 1.
#[derive(Drop)]
pub struct Sums {
    pub(crate) edges: u64,
    pub(crate) accepted: u64,
    pub(crate) refused: u64,
    pub(crate) passed: [u64; RULES],
    pub(crate) refusals: Refusals,
    pub(crate) met: [u64; Event::COUNT],
    pub(crate) boards: [BoardTally; SLOTS],
}

/// Adds to each board what the one in its slot did in another trace.
fn add_boards(boards: &mut [BoardTally], others: &[BoardTally])
    requires { length boards.old ≡ length others.now }
    ensures places { length boards.new ≡ length boards.old }
    ensures added { (s : ℕ) → s < length boards.old → slice_index_or boards.new s idle
        ≡ board_with (slice_index_or boards.old s idle) (slice_index_or others.now s idle) }
{
    for slot in 0..boards.len() {
        boards[slot] = boards[slot].with(&others[slot]);
    }
}

impl Sums {
    ghost use Rattle.vme_summary.specs.Summed.{AreSumsOf, OfSums};

    /// The sums of no trace.
    pub fn new() -> Sums
        ensures { AreSumsOf [] result }
    {
        Sums {
            edges: 0,
            accepted: 0,
            refused: 0,
            passed: [0; RULES],
            refusals: Refusals::new(),
            met: [0; Event::COUNT],
            boards: [BoardTally::idle(); SLOTS],
        }
    }

    /// Takes in what one more trace came to.
    pub fn add(&mut self, tally: &Tally)
        ensures { OfSums self.old (λ ts. OfTally tally.now (λ t. AreSumsOf (t ∷ ts) self.new)) }
    {
        self.edges = self.edges.saturating_add(tally.edges);
        self.accepted = self.accepted.saturating_add(tally.accepted);
        self.refused = self.refused.saturating_add(tally.refused());
        add_counts(&mut self.passed, &tally.passed);
        self.refusals.add(&tally.refusals);
        add_counts(&mut self.met, &tally.met.times);
        add_boards(&mut self.boards, &tally.boards);
    }

    /// How many edges were refused.
    pub fn refused(&self) -> u64
        ensures { OfSums self.now (λ ts. result ≡ total refused ts) }
    {
        self.refused
    }

    /// How many edges a rule let pass, G1 to G26.
    pub(crate) fn passed_by(&self, rule: u8) -> u64
        requires { rule < 27 }
        ensures { OfSums self.now (λ ts. result ≡ total (passed_by rule) ts) }
    {
        self.passed[usize::from(rule)]
    }

    /// How many edges were refused so.
    pub(crate) fn refused_for(&self, refused: Refused) -> u64
        requires { IsNamed refused }
        ensures { OfSums self.now (λ ts. result ≡ total (refused_for refused) ts) }
    {
        self.refusals.how_often(refused)
    }

    /// How many accepted edges brought the situation about.
    pub(crate) fn times_met(&self, event: Event) -> u64
        ensures { OfSums self.now (λ ts. result ≡ total (times_met event) ts) }
    {
        self.met[event.index()]
    }

    /// What the board of a slot below 22 did.
    pub(crate) fn board(&self, slot: u8) -> BoardTally
        requires { slot < 22 }
        ensures { OfSums self.now (λ ts. result ≡ board_sums slot ts) }
    {
        self.boards[usize::from(slot)]
    }
}
