//! The requester of one board.
ghost use Rattle.std.specs.Prelude.{◌≡◌, ℕ, Bool, true, false, Err, [], ◌∷◌, List, Option as OptionValue};
ghost use Rattle.std.specs.List.{list_any};
ghost use Rattle.vme_model.specs.declared.boards.RequesterRow.{RequesterRow as RowValue};
ghost use Rattle.vme_model.specs.declared.pins.Pins.{Pins as PinsValue};
ghost use Rattle.vme_model.specs.declared.signals.Cycle.{Cycle as CycleValue};
ghost use Rattle.vme_model.specs.declared.signals.Version.{Version as VersionValue};
ghost use Rattle.vme_model.specs.declared.signals.Edge.{Edge as EdgeValue};
ghost use Rattle.vme_model.specs.declared.signals.Part.TheVariants as parts;
ghost use Rattle.vme_model.specs.Signals.{is_of};
ghost use Rattle.vme_model.specs.Sets.{has_bus_level};
ghost use Rattle.vme_model.specs.Rules.{bus_numbers, rule};
ghost use Rattle.vme_model.specs.Verdict.{ruling_on};
ghost use Rattle.vme_requester.specs.Local.{requester_of, low, local, answer_over};

use std::marker::Model;
use vme_model::{BusLevels, Driver, Edge, Pins, Refused, RequesterRow, Version, Wire};
use vme_rules::allowed;
use vme_rules::requesters::{
    bbsy_falls, bbsy_rises, bgout_falls, bgout_rises, br_falls, br_rises, released,
};

/// A requester, as what its own edges left: which of its wires are low. Source: Std 1014, chapter
/// 3.
#[derive(Clone, Copy, PartialEq, Eq, Debug)]
pub struct Requester {
    slot: u8,
    row: RequesterRow,
    version: Version,
    br: bool,
    bgout: bool,
    bbsy: bool,
}

impl Model for Requester {
    ghost use Rattle.vme_requester.specs.Local.{RequesterState};

    ghost Value = { RequesterState };

    ghost view = { λ r. record {
      slot = r.slot;
      row = r.row;
      version = r.version;
      br = r.br;
      bgout = r.bgout;
      bbsy = r.bbsy;
    } };

    ghost inverse = { λ s.
        record {
          slot = s.slot;
          row = s.row;
          version = s.version;
          br = s.br;
          bgout = s.bgout;
          bbsy = s.bbsy;
        } };
}

/// Whether one of BR0* to BR3* is low.
fn is_any(requests: BusLevels) -> bool
    ensures { result ≡ list_any (has_bus_level requests) bus_numbers }
{
    [0, 1, 2, 3].iter().any(|level| requests.has(*level))
}

impl Requester {
    /// The requester of the board in a slot, before any edge, under that version of the rules.
    pub fn new(slot: u8, row: RequesterRow, version: Version) -> Requester
        ensures { result ≡ requester_of slot row version [] }
    {
        Requester {
            slot,
            row,
            version,
            br: false,
            bgout: false,
            bbsy: false,
        }
    }

    /// Whether the requester drives the wire low. Only `br`, `bgout` and `bbsy` are its own; for
    /// any other wire the answer is false.
    #[inline(always)]
    pub fn is_low(&self, wire: Wire) -> bool
        ensures { result ≡ low self.now wire }
    {
        match wire {
            Wire::Br => self.br,
            Wire::BgOut => self.bgout,
            Wire::Bbsy => self.bbsy,
            _ => false,
        }
    }

    /// The number of the rule that names an edge of its `br`, and whether the rule's guard holds
    /// (G9, G10).
    #[inline(always)]
    fn request_rule(&self, fall: bool) -> (u8, bool)
        ensures { (pins : PinsValue) (is_address_free : Bool) (value : OptionValue CycleValue) →
            result ≡ rule self.now.version
            (local self.now pins is_address_free) Wire.Br fall value }
    {
        if fall {
            (9, br_falls(self.bbsy))
        } else {
            (10, br_rises(self.version, self.bbsy))
        }
    }

    /// The number of the rule that names an edge of its `bgout`, and whether the rule's guard holds
    /// (G11, G12).
    #[inline(always)]
    fn pass_rule(&self, fall: bool, grant_in: bool) -> (u8, bool)
        ensures { (pins : PinsValue) (is_address_free : Bool) (value : OptionValue CycleValue) →
            pins.grant_in ≡ grant_in →
            result ≡ rule self.now.version
            (local self.now pins is_address_free) Wire.BgOut fall value }
    {
        if fall {
            (11, bgout_falls(grant_in, self.br, self.bbsy))
        } else {
            (12, bgout_rises(grant_in))
        }
    }

    /// The number of the rule that names an edge of its `bbsy`, and whether the rule's guard holds
    /// (G13, G14).
    #[inline(always)]
    fn hold_rule(
        &self,
        fall: bool,
        pins: &Pins,
        grant_in: bool,
        is_address_free: bool,
    ) -> (u8, bool)
        ensures { (value : OptionValue CycleValue) →
            result ≡ rule self.now.version
            (local self.now (record pins.now { grant_in = grant_in }) is_address_free)
            Wire.Bbsy fall value }
    {
        if fall {
            return (13, bbsy_falls(grant_in, self.bgout, self.br));
        }
        let releasing = released(is_any(pins.requests), self.row.release);
        (
            14,
            bbsy_rises(self.br, grant_in, is_address_free, releasing),
        )
    }

    /// Whether the rules G9 and G10 allow an edge of its `br`. Source: profile.
    ///
    /// # Errors
    /// E2 if the wire is in that state already; otherwise E3 if the rule's guard fails.
    #[inline(always)]
    pub fn may_request(&self, fall: bool) -> Result<(), Refused>
        ensures { (pins : PinsValue) (is_address_free : Bool) (value : OptionValue CycleValue) →
            result ≡ ruling_on self.now.version
            (local self.now pins is_address_free) Wire.Br fall value }
    {
        if self.br == fall {
            return Err(Refused::AlreadyThere);
        }
        allowed(self.request_rule(fall))
    }

    /// Whether the rules G11 and G12 allow an edge of its `bgout`, given the input of its grant
    /// chain. Source: Std 1014, chapter 3, for G11; G12 is profile.
    ///
    /// # Errors
    /// E2 if the wire is in that state already; otherwise E3 if the rule's guard fails.
    #[inline(always)]
    pub fn may_pass(&self, fall: bool, grant_in: bool) -> Result<(), Refused>
        ensures { (pins : PinsValue) (is_address_free : Bool) (value : OptionValue CycleValue) →
            pins.grant_in ≡ grant_in →
            result ≡ ruling_on self.now.version
            (local self.now pins is_address_free) Wire.BgOut fall value }
    {
        if self.bgout == fall {
            return Err(Refused::AlreadyThere);
        }
        allowed(self.pass_rule(fall, grant_in))
    }

    /// Whether the rules G13 and G14 allow an edge of its `bbsy`. It is given its pins, the input
    /// of its grant chain, and whether its master's address group is off or the master's address
    /// strobe low. Source: Std 1014, chapter 3; docs/RULES.md says which conditions are profile.
    ///
    /// # Errors
    /// E2 if the wire is in that state already; otherwise E3 if the rule's guard fails.
    #[inline(always)]
    pub fn may_hold(
        &self,
        fall: bool,
        pins: &Pins,
        grant_in: bool,
        is_address_free: bool,
    ) -> Result<(), Refused>
        ensures { (value : OptionValue CycleValue) →
            result ≡ ruling_on self.now.version
            (local self.now (record pins.now { grant_in = grant_in }) is_address_free)
            Wire.Bbsy fall value }
    {
        if self.bbsy == fall {
            return Err(Refused::AlreadyThere);
        }
        allowed(self.hold_rule(fall, pins, grant_in, is_address_free))
    }

    /// Whether the rules G9 to G14 allow an edge of the requester's own wires. Source: G9 to G14 of
    /// docs/RULES.md.
    ///
    /// It is given its pins, and whether its master's address group is off or the master's address
    /// strobe low.
    ///
    /// # Errors
    /// E1 if the wire is not its own; otherwise E2 if the wire is in that state already; otherwise
    /// E3 if the rule's guard fails.
    #[inline(always)]
    pub fn may(&self, edge: Edge, pins: Pins, is_address_free: bool) -> Result<(), Refused>
        ensures other { is_of parts.Requester edge.wire ≡ false
            → result ≡ Err Refused.NoSuchDriver }
        ensures own { (noted : List EdgeValue) →
            self.now ≡ requester_of self.now.slot self.now.row self.now.version noted →
            is_of parts.Requester edge.wire ≡ true →
            result ≡ answer_over self.now.slot self.now.row self.now.version noted pins
            is_address_free edge }
    {
        match edge.wire {
            Wire::Br => self.may_request(edge.fall),
            Wire::BgOut => self.may_pass(edge.fall, pins.grant_in),
            Wire::Bbsy => self.may_hold(edge.fall, &pins, pins.grant_in, is_address_free),
            _ => Err(Refused::NoSuchDriver),
        }
    }

    /// Takes in an edge that was made. An edge of another driver or wire changes nothing.
    #[inline(always)]
    pub fn note(&mut self, edge: Edge)
        ensures { (s : ℕ) (row : RowValue) (version : VersionValue) (noted : List EdgeValue) →
            self.old ≡ requester_of s row version noted →
            self.new ≡ requester_of s row version (edge ∷ noted) }
    {
        if edge.driver.is_same(Driver::Slot(self.slot)) {
            match edge.wire {
                Wire::Br => self.br = edge.fall,
                Wire::BgOut => self.bgout = edge.fall,
                Wire::Bbsy => self.bbsy = edge.fall,
                _ => {}
            }
        }
    }
}
