//! How the interrupt requests may stand.
//!
//! The sets that the calls are handed hold slots of boards with an interrupter: those of a line, or
//! those of a kind. The request of each of them is a set of its own.
ghost use Rattle.std.specs.Prelude.{◌≡◌, ◌&&◌, ◌||◌, ◌==◌, ◌<◌, ◌≤◌, ◌↔◌, ℕ, true, false, not, IsTrue, MatchOption};
ghost use Rattle.vme_bus.specs.Sets.{has};
ghost use Rattle.vme_standings.specs.Slots.{EachSlot};
ghost use Rattle.vme_standings.specs.RequestSets.{may_be, AllHigh, Unknown, MovesUnseen, Falls, Rises, MayRise, Accessed, AnyAccessed, Acknowledged, pulls, Passes, CannotPass};
ghost use Rattle.vme_standings.specs.Unions.{UnitesRequests};

use crate::sets::{both, except, several};
use vme_bus::SlotSet;

/// How the interrupt request of a board stands.
#[derive(Clone, Copy, PartialEq, Eq, Debug)]
pub enum Request {
    /// The board does not pull its line.
    High,
    /// It pulls it, and was not served since.
    Pending,
    /// It pulls it still, though it was served.
    Served,
}

/// How the interrupt request of each board may stand: for each way the slots of the boards whose
/// request may stand so.
#[derive(Clone, Copy)]
pub struct Requests {
    high: SlotSet,
    pending: SlotSet,
    served: SlotSet,
}

impl Requests {
    /// The requests of these boards before any edge.
    pub fn at_power_up(boards: SlotSet) -> Requests
        ensures { AllHigh boards result }
    {
        Requests {
            high: boards,
            pending: SlotSet::NONE,
            served: SlotSet::NONE,
        }
    }

    /// The requests of these boards on a bus that is running: those on a low line may stand in any
    /// way, but a board that has a low line alone pulls it.
    pub fn running(boards: SlotSet, low: SlotSet, shared: SlotSet) -> Requests
        ensures { Unknown boards low shared result }
    {
        Requests {
            high: except(boards, except(low, shared)),
            pending: low,
            served: low,
        }
    }

    /// Whether the request of the slot's board may stand so.
    pub fn may_be(&self, slot: u8, request: Request) -> bool
        ensures { result ≡ may_be self.now slot request }
    {
        match request {
            Request::High => self.high.has(slot),
            Request::Pending => self.pending.has(slot),
            Request::Served => self.served.has(slot),
        }
    }

    /// With the edges that no probe sees, while the lines of these boards are low: one that is
    /// served may rise under another of its line, and one that is high may fall.
    pub fn with_hidden(self, low: SlotSet, shared: SlotSet) -> Requests
        ensures { MovesUnseen low shared self result }
    {
        let high = self.high.or(both(self.served, both(low, shared)));
        Requests {
            high,
            pending: self.pending.or(both(high, low)),
            served: self.served,
        }
    }

    /// Which of these boards may pull their line.
    pub fn pulling(&self, boards: SlotSet) -> SlotSet
        ensures { (s : ℕ) → has result s ≡ pulls self.now boards s }
    {
        boards.and(self.pending.or(self.served))
    }

    /// How the requests may stand if they may by one of the two.
    pub(crate) fn union(&self, other: &Requests) -> Requests
        ensures { UnitesRequests self.now other.now result }
    {
        Requests {
            high: self.high.or(other.high),
            pending: self.pending.or(other.pending),
            served: self.served.or(other.served),
        }
    }

    /// The line of these boards falls: one of them requests.
    pub fn falls(self, boards: SlotSet) -> Requests
        ensures { Falls boards self result }
    {
        Requests {
            high: except(self.high, boards).or(several(boards)),
            pending: self.pending.or(boards),
            served: except(self.served, boards),
        }
    }

    /// Which of these boards may let their line rise: one that may be served, while all others of
    /// the line may be high.
    pub fn risers(self, boards: SlotSet) -> SlotSet
        ensures { EachSlot (λ s. IsTrue (has result s) ↔ MayRise boards self s) }
    {
        let unable = except(boards, self.high);
        let able = both(boards, self.served);
        match unable.next_after(0) {
            None => able,
            Some(first) => match unable.next_after(first) {
                None => both(able, SlotSet::NONE.with(first)),
                Some(_) => SlotSet::NONE,
            },
        }
    }

    /// The line of these boards rises: none of them requests.
    pub fn rises(self, boards: SlotSet) -> Requests
        ensures { Rises boards self result }
    {
        Requests {
            high: self.high.or(boards),
            pending: except(self.pending, boards),
            served: except(self.served, boards),
        }
    }

    /// The slot's board answers an access, which serves boards of these.
    pub fn accessed(self, slot: u8, rora: SlotSet) -> Requests
        requires { slot < 22 }
        ensures { Accessed slot rora self result }
    {
        let answering = both(rora, SlotSet::NONE.with(slot));
        Requests {
            high: self.high,
            pending: except(self.pending, answering),
            served: self.served.or(both(self.pending, answering)),
        }
    }

    /// Some board answers an access, which serves boards of these.
    pub fn any_accessed(self, rora: SlotSet) -> Requests
        ensures { AnyAccessed rora self result }
    {
        Requests {
            high: self.high,
            pending: self.pending,
            served: self.served.or(both(self.pending, rora)),
        }
    }

    /// Of the boards that the acknowledge has reached, those of these that may be pending.
    pub fn answering(self, reached: SlotSet, boards: SlotSet) -> SlotSet
        ensures within { (s : ℕ) → s < 22
            → has result s ≡ (has self.pending s && (has reached s && has boards s)) }
        ensures beyond { (s : ℕ) → 22 ≤ s → has result s ≡ false }
    {
        both(self.pending, both(reached, boards))
    }

    /// One of the answering boards answers an acknowledge, which serves boards of `roak`.
    pub fn acknowledged(self, answering: SlotSet, roak: SlotSet) -> Requests
        ensures { Acknowledged answering roak self result }
    {
        let alone = except(answering, several(answering));
        let served = both(answering, roak);
        Requests {
            high: except(self.high, alone),
            pending: except(self.pending, both(alone, roak)),
            served: except(self.served, except(alone, roak)).or(served),
        }
    }

    /// The slot's board passes an acknowledge of its level on, so it is not pending. None if it may
    /// not: it has to be pending, or nobody else of its level's boards could pull their line, which
    /// is low.
    pub fn passed(self, slot: u8, boards: SlotSet, low: bool) -> Option<Requests>
        requires { slot < 22 }
        ensures { MatchOption result (CannotPass slot boards low self)
            (Passes slot boards low self) }
    {
        if !self.high.or(self.served).has(slot) {
            return None;
        }
        let passed = Requests {
            high: self.high,
            pending: except(self.pending, SlotSet::NONE.with(slot)),
            served: self.served,
        };
        if passed.may_show(boards, low) {
            Some(passed)
        } else {
            None
        }
    }

    /// Whether the line of these boards may be at that level: if it is low, one of them may pull
    /// it.
    fn may_show(&self, boards: SlotSet, low: bool) -> bool
        ensures some { result ≡ true → low ≡ true
            → (s : ℕ) × (s < 22) × (pulls self.now boards s ≡ true) }
        ensures none { result ≡ false
            → (low ≡ true) × ((s : ℕ) → s < 22 → pulls self.now boards s ≡ false) }
    {
        !low || both(boards, self.pending.or(self.served)).is_some()
    }
}
