//! What a board did in a trace.
ghost use Rattle.std.specs.Prelude.{◌≡◌, true, false};
ghost use Rattle.vme_summary.specs.Tallied.{idle, board_after, span};
ghost use Rattle.vme_summary.specs.Summed.{board_with};

use vme_model::Wire;

/// Places for the slots 1 to 21; there is no slot 0.
pub(crate) const SLOTS: usize = 22;

/// What a board did: its requests, tenures, cycles and answers, and how long it waited and held the
/// bus, in edges of the trace.
#[derive(Clone, Copy, PartialEq, Eq, Debug)]
pub struct BoardTally {
    /// Its `br-`.
    pub asked: u64,
    /// The sum of its waits, each from its last `br-` to its `bbsy-`.
    pub waited: u64,
    /// The longest of them; 0 if there is none.
    pub longest_wait: u64,
    /// Its `bbsy-`.
    pub tenures: u64,
    /// The sum of its holds, each from a `bbsy-` to the `bbsy+`.
    pub held: u64,
    /// The longest of them; 0 if there is none.
    pub longest_hold: u64,
    /// Its `as-`.
    pub cycles: u64,
    /// Its `dtack-`.
    pub answered: u64,
    /// How many of its `dtack-` delivered its status byte.
    pub delivered: u64,
    /// Its last `br-`, if its request stands and is not met.
    pub asks_since: Option<u64>,
    /// Its last `bbsy-`, if it holds the bus.
    pub holds_since: Option<u64>,
}

/// How many edges from one to the n-th; 0 if there is none.
fn span(n: u64, since: Option<u64>) -> u64
    ensures { result ≡ span n since }
{
    match since {
        Some(since) => n.saturating_sub(since),
        None => 0,
    }
}

impl BoardTally {
    /// A board that did nothing.
    pub(crate) const fn idle() -> BoardTally
        ensures { result ≡ idle }
    {
        BoardTally {
            asked: 0,
            waited: 0,
            longest_wait: 0,
            tenures: 0,
            held: 0,
            longest_hold: 0,
            cycles: 0,
            answered: 0,
            delivered: 0,
            asks_since: None,
            holds_since: None,
        }
    }

    /// What the board did in a trace and in another: no edge is named by its number any more.
    pub(crate) fn with(&self, other: &BoardTally) -> BoardTally
        ensures { result ≡ board_with self.now other.now }
    {
        BoardTally {
            asked: self.asked.saturating_add(other.asked),
            waited: self.waited.saturating_add(other.waited),
            longest_wait: self.longest_wait.max(other.longest_wait),
            tenures: self.tenures.saturating_add(other.tenures),
            held: self.held.saturating_add(other.held),
            longest_hold: self.longest_hold.max(other.longest_hold),
            cycles: self.cycles.saturating_add(other.cycles),
            answered: self.answered.saturating_add(other.answered),
            delivered: self.delivered.saturating_add(other.delivered),
            asks_since: None,
            holds_since: None,
        }
    }

    /// Takes in a `bbsy-`, the n-th edge: its wait is over, and its hold begins.
    fn take_bus(&mut self, n: u64)
        ensures { self.new ≡ board_after self.old Wire.Bbsy true n false }
    {
        let wait = span(n, self.asks_since);
        self.tenures = self.tenures.saturating_add(1);
        self.waited = self.waited.saturating_add(wait);
        self.longest_wait = self.longest_wait.max(wait);
        self.asks_since = None;
        self.holds_since = Some(n);
    }

    /// Takes in a `bbsy+`, the n-th edge: its hold is over.
    fn release_bus(&mut self, n: u64)
        ensures { self.new ≡ board_after self.old Wire.Bbsy false n false }
    {
        let hold = span(n, self.holds_since);
        self.held = self.held.saturating_add(hold);
        self.longest_hold = self.longest_hold.max(hold);
        self.holds_since = None;
    }

    /// Takes in an accepted edge of the board's own, the n-th of the trace, and whether it
    /// delivered a status byte.
    pub(crate) fn note(&mut self, wire: Wire, fall: bool, n: u64, delivers: bool)
        ensures { self.new ≡ board_after self.old wire fall n delivers }
    {
        match (wire, fall) {
            (Wire::Br, true) => {
                self.asked = self.asked.saturating_add(1);
                self.asks_since = Some(n);
            }
            (Wire::Br, false) => self.asks_since = None,
            (Wire::Bbsy, true) => self.take_bus(n),
            (Wire::Bbsy, false) => self.release_bus(n),
            (Wire::AddressStrobe, true) => self.cycles = self.cycles.saturating_add(1),
            (Wire::Dtack, true) => {
                self.answered = self.answered.saturating_add(1);
                if delivers {
                    self.delivered = self.delivered.saturating_add(1);
                }
            }
            _ => {}
        }
    }
}
