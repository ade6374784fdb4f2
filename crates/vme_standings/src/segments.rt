//! Sets of segments of the daisy chains.
ghost use Rattle.std.specs.Prelude.{◌≡◌, ◌==◌, ◌&&◌, ◌<◌, ℕ, false, if◌then◌else◌, unwrap_or};
ghost use Rattle.vme_bus.specs.Sets.{has};
ghost use Rattle.vme_captures.specs.Signals.{is_same_chain};
ghost use Rattle.vme_model.specs.declared.sets.ChainId.{ChainId as ChainName};
ghost use Rattle.vme_standings.specs.Segments.{has_segment, row_of};

use vme_bus::SlotSet;
use vme_captures::Segment;
use vme_model::ChainId;

/// A set of segments of the daisy chains. In each set of slots a segment is named by the slot of
/// the board that drives it, and 0 names the controller's.
#[derive(Clone, Copy, PartialEq, Eq)]
pub struct Segments {
    /// Of the grant chains, by level.
    pub grants: [SlotSet; 4],
    /// Of the acknowledge chain.
    pub acknowledge: SlotSet,
}

/// The set with the slot, or without it.
fn changed(slots: SlotSet, slot: u8, is_in: bool) -> SlotSet
    requires { slot < 32 }
    ensures { (s : ℕ) → has result s ≡ (if s == slot then is_in else has slots s) }
{
    let others = slots.except(SlotSet::NONE.with(slot));
    if is_in { others.with(slot) } else { others }
}

impl Segments {
    /// The set without a segment.
    pub fn none() -> Segments
        ensures { (c : ChainName) (place : ℕ) → has_segment result c place ≡ false }
    {
        Segments {
            grants: [SlotSet::NONE; 4],
            acknowledge: SlotSet::NONE,
        }
    }

    /// The places of its segments of a chain.
    pub fn of_chain(&self, chain: ChainId) -> SlotSet
        ensures { result ≡ row_of self.now chain }
    {
        match chain {
            ChainId::Bg0 => self.grants[0],
            ChainId::Bg1 => self.grants[1],
            ChainId::Bg2 => self.grants[2],
            ChainId::Bg3 => self.grants[3],
            ChainId::Iack => self.acknowledge,
        }
    }

    /// Whether the segment is in the set.
    pub fn has(&self, segment: Segment) -> bool
        ensures { result ≡ has_segment self.now segment.chain (unwrap_or segment.place 0) }
    {
        self.of_chain(segment.chain).has(segment.place.unwrap_or(0))
    }

    /// Takes the segment in, or out. Its place is below 32.
    pub fn set(&mut self, segment: Segment, is_in: bool)
        requires { unwrap_or segment.place 0 < 32 }
        ensures { (c : ChainName) (place : ℕ) → has_segment self.new c place
            ≡ (if is_same_chain c segment.chain && (place == unwrap_or segment.place 0) then is_in
            else has_segment self.old c place) }
    {
        let place = segment.place.unwrap_or(0);
        let row = changed(self.of_chain(segment.chain), place, is_in);
        match segment.chain {
            ChainId::Bg0 => self.grants[0] = row,
            ChainId::Bg1 => self.grants[1] = row,
            ChainId::Bg2 => self.grants[2] = row,
            ChainId::Bg3 => self.grants[3] = row,
            ChainId::Iack => self.acknowledge = row,
        }
    }
}
