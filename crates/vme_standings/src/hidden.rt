//! The edges that no probe sees, part by part.
ghost use Rattle.std.specs.Prelude.{◌≡◌, ◌<◌, ℕ, not};
ghost use Rattle.vme_bus.specs.Sets.{has};
ghost use Rattle.vme_standings.specs.Hidden.{ArePassing, AreUnseen, FrontsHidden, HidesFronts, HidesRequests, is_waited_for};

use crate::driving::may_pass;
use crate::fronts::Fronts;
use crate::interrupters::{Interrupters, on_low_lines, sharing};
use crate::phases::with_if;
use crate::requests::Requests;
use crate::sets::SLOTS;
use crate::standings::{Probed, Shown, Standings};
use vme_bus::SlotSet;
use vme_captures::{Levels, Line};
use vme_slots::Plan;

/// The interrupt requests: they rise and fall under a line that stays low.
pub(crate) fn requests_hidden(plan: &Plan, lines: &Levels, requests: Requests) -> Requests
    ensures { HidesRequests plan.now lines.now requests result }
{
    requests.with_hidden(on_low_lines(plan, lines), sharing(plan))
}

/// The places of segments without a probe.
fn unseen(probed: SlotSet) -> SlotSet
    ensures { AreUnseen probed result }
{
    let mut found = SlotSet::NONE;
    for place in 0..SLOTS {
        found = with_if(found, place, !probed.has(place));
    }
    found
}

/// The boards with an interrupter that may pass an acknowledge of the level on.
fn passing(plan: &Plan, lines: &Levels, level: u8, requests: Requests) -> SlotSet
    ensures { ArePassing plan.now lines.now level requests result }
{
    let interrupters = Interrupters::All.slots(plan);
    let boards = Interrupters::OnLevel(level).slots(plan);
    let low = on_low_lines(plan, lines);
    let mut found = SlotSet::NONE;
    for slot in 1..SLOTS {
        let may = may_pass(requests, boards, low, slot);
        found = with_if(found, slot, may);
    }
    found.and(interrupters)
}

impl Standings {
    /// Whether DS* is low and DTACK* is high.
    fn is_waited_for(&self) -> bool
        ensures { result ≡ is_waited_for self.now }
    {
        self.lines.is_low(Line::DataStrobe) && !self.lines.is_low(Line::Dtack)
    }

    /// How far an acknowledge of the level comes.
    fn acknowledge_hidden(&self, plan: &Plan, probed: &Probed, level: u8) -> Fronts
        ensures { HidesFronts plan.now probed.now self.now level self.now.fronts result }
    {
        let unseen = unseen(probed.segments.acknowledge);
        let passing = passing(plan, &self.lines, level, self.requests);
        self.fronts.with_hidden(plan, unseen, passing)
    }

    /// How far the acknowledge comes, if one is under way that nobody has answered.
    pub(crate) fn fronts_hidden(&self, plan: &Plan, probed: &Probed) -> Fronts
        ensures { FrontsHidden plan.now probed.now self.now self.now.shown
            (is_waited_for self.now) result }
    {
        let is_waited_for = self.is_waited_for();
        match (self.shown, is_waited_for) {
            (Some(Shown::Acknowledge(level)), true) => {
                self.acknowledge_hidden(plan, probed, level)
            }
            _ => self.fronts,
        }
    }
}
