//! What is known of the whole bus: of each part a set, but for what the probes see.
ghost use Rattle.std.specs.Prelude.{◌≡◌, ◌&&◌, ◌||◌, ℕ, IsTrue};
ghost use Rattle.vme_bus.specs.Sets.{has};
ghost use Rattle.vme_captures.specs.Signals.{is_signal};
ghost use Rattle.vme_standings.specs.Behind.{IsBehind};
ghost use Rattle.vme_standings.specs.declared.requests.Request.TheVariants.{Pending, Served};
ghost use Rattle.vme_standings.specs.Driving.{AreDrivers};
ghost use Rattle.vme_standings.specs.Hidden.{HasMoved};
ghost use Rattle.vme_standings.specs.Moving.{is_near};
ghost use Rattle.vme_standings.specs.Requests.{is_on_level};
ghost use Rattle.vme_standings.specs.RequestSets.{may_be};
ghost use Rattle.vme_standings.specs.Standings.{Drive, controller_drives, drives, is_nobody};

use crate::behind::{lines_behind, low_behind};
use crate::boards::{boards, requesters};
use crate::driving::board_at;
use crate::fronts::Fronts;
use crate::grants::boards_of_level;
use crate::hidden::requests_hidden;
use crate::interrupters::Interrupters;
use crate::moving::{Moved, asked, moved_by};
use crate::phases::GrantPhases;
use crate::requests::Requests;
use crate::segments::Segments;
use crate::unseen::with_unseen;
use vme_bus::SlotSet;
use vme_captures::{Change, Levels, Line, Signal};
use vme_model::Version;
use vme_slots::Plan;

/// Who may have made a change.
#[derive(Clone, Copy, PartialEq, Eq)]
pub struct Drivers {
    pub controller: bool,
    pub boards: SlotSet,
}

impl Drivers {
    /// Whether there is none: then no bus that keeps the rules shows the change.
    pub fn is_nobody(&self) -> bool
        ensures { result ≡ is_nobody self.now }
    {
        !self.controller && self.boards == SlotSet::NONE
    }
}

/// What AS* fell with.
#[derive(Clone, Copy, PartialEq, Eq)]
pub enum Shown {
    /// An access to a slot, 1 to 21, or to one that is not known.
    Access(Option<u8>),
    /// An acknowledge of a level, 1 to 7.
    Acknowledge(u8),
}

/// The version of the rules, and the segments of the daisy chains on which there is a probe.
#[derive(Clone, Copy)]
pub struct Probed {
    pub version: Version,
    pub segments: Segments,
}

/// What is known of the bus. Each part is a set, but for what a probe sees; all combinations count.
#[derive(Clone, Copy)]
pub struct Standings {
    /// The shared lines.
    pub lines: Levels,
    /// The probed segments that are low.
    pub low: Segments,
    /// What AS* fell with; none while it is high.
    pub shown: Option<Shown>,
    /// Whether DS* fell since AS* fell.
    pub strobed: bool,
    /// How the grants and BBSY* may stand.
    pub phases: GrantPhases,
    /// The boards that may drive AS* and DS*; none while AS* is high.
    pub addressers: SlotSet,
    /// The boards that may drive DTACK*; none while it is high.
    pub answerers: SlotSet,
    /// How far the acknowledge may have come. It says nothing while AS* is high.
    pub fronts: Fronts,
    /// How the interrupt requests may stand.
    pub requests: Requests,
}

impl Standings {
    /// With all edges that no probe sees.
    pub fn with_hidden(&self, plan: &Plan, probed: &Probed) -> Standings
        ensures { HasMoved plan.now probed.now self.now result }
    {
        let requests = requests_hidden(plan, &self.lines, self.requests);
        let asked = asked(&self.lines);
        let grants = &probed.segments.grants;
        let behind = Standings {
            requests,
            phases: with_unseen(plan, probed.version, asked, grants, &self.phases),
            ..*self
        };
        Standings {
            fronts: behind.fronts_hidden(plan, probed),
            ..behind
        }
    }

    /// Who may have made the change. Nobody, if a bus that keeps the rules cannot show it. The
    /// edges that no probe sees are in the standings before.
    pub fn drivers(&self, plan: &Plan, probed: &Probed, change: &Change) -> Drivers
        requires { IsTrue (is_signal change.now.signal) }
        ensures { AreDrivers plan.now probed.now self.now change.now result }
    {
        let moved = moved_by(plan, change.signal);
        let version = probed.version;
        Drivers {
            controller: self.is_by_controller(plan, version, moved, change.fall),
            boards: self.makers(plan, version, moved, change.fall, change.value),
        }
    }

    /// What is known behind the change, if somebody may have made it. The edges that no probe sees
    /// are in the standings before.
    pub fn behind(&self, plan: &Plan, probed: &Probed, change: &Change) -> Standings
        requires { IsTrue (is_signal change.now.signal) }
        ensures { IsBehind plan.now probed.now self.now change.now result }
    {
        let Change {
            signal,
            fall,
            value,
        } = *change;
        let moved = moved_by(plan, signal);
        let phases = self.phases_behind(plan, probed.version, moved, fall, value);
        phases.holds_bits();
        Standings {
            lines: lines_behind(self.lines, signal, fall),
            low: low_behind(plan, self.low, signal, fall),
            shown: self.shown_behind(moved, fall, value),
            strobed: self.strobed_behind(moved, fall),
            phases,
            addressers: self.addressers_behind(plan, moved, fall, value),
            answerers: self.answerers_behind(plan, moved, fall, value),
            fronts: self.fronts_behind(plan, moved, fall, value),
            requests: self.requests_behind(plan, moved, fall, value),
        }
    }

    /// The boards that may pull the interrupt line of a level: their request may be pending, or
    /// served.
    pub fn pullers(&self, plan: &Plan, level: u8) -> SlotSet
        ensures { (s : ℕ) → has result s ≡ (is_on_level plan.now level s
            && (may_be self.now.requests s Pending || may_be self.now.requests s Served)) }
    {
        self.requests
            .pulling(Interrupters::OnLevel(level).slots(plan))
    }
}

/// The boards that have the line, or drive the segment.
fn boards_that_drive(plan: &Plan, moved: Moved) -> SlotSet
    requires { IsTrue (is_near moved) }
    ensures { (s : ℕ) → has result s ≡ drives plan.now moved s }
{
    match moved {
        Moved::Line(Line::Br(level)) => boards_of_level(plan, level),
        Moved::Line(Line::Irq(level)) => Interrupters::OnLevel(level).slots(plan),
        Moved::Line(Line::Bbsy | Line::AddressStrobe | Line::DataStrobe) => requesters(plan),
        Moved::Line(Line::Dtack) => boards(plan),
        Moved::Line(Line::Berr | Line::Bclr) => SlotSet::NONE,
        Moved::Grant { place, .. } | Moved::Acknowledge { place } => board_at(place),
    }
}

/// Whether the controller has the line, or drives the segment.
fn controller_drives(moved: Moved) -> bool
    ensures { result ≡ controller_drives moved }
{
    match moved {
        Moved::Line(line) => matches!(line, Line::Berr | Line::Bclr),
        Moved::Grant { place, .. } | Moved::Acknowledge { place } => place == 0,
    }
}

/// Who has the line, or drives the wire of the pin.
pub fn drivers_of(plan: &Plan, signal: Signal) -> Drivers
    requires { IsTrue (is_signal signal) }
    ensures { Drive plan.now signal result }
{
    let moved = moved_by(plan, signal);
    Drivers {
        controller: controller_drives(moved),
        boards: boards_that_drive(plan, moved),
    }
}
