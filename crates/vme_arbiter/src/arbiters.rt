//! The controller of slot 1: arbiter, IACK daisy-chain driver and bus timer.
ghost use Rattle.std.specs.Prelude.{◌≡◌, ◌==◌, ◌&&◌, ℕ, Bool, true, false, Some, is_ok, nat_lt, [], ◌∷◌, List};
ghost use Rattle.std.specs.List.{list_any};
ghost use Rattle.std.specs.Option.{option_map_or};
ghost use Rattle.vme_model.specs.declared.boards.ArbiterKind.{ArbiterKind as KindValue};
ghost use Rattle.vme_model.specs.declared.signals.Version.{Version as VersionValue};
ghost use Rattle.vme_model.specs.declared.signals.Wire.TheVariants.{Bg};
ghost use Rattle.vme_model.specs.declared.signals.Edge.{Edge as EdgeValue};
ghost use Rattle.vme_model.specs.Signals.{is_grant, grant_level, is_acknowledge, has_wire};
ghost use Rattle.vme_model.specs.Sets.{has_bus_level};
ghost use Rattle.vme_model.specs.Guards.{holds};
ghost use Rattle.vme_model.specs.History.{last_level};
ghost use Rattle.vme_model.specs.Rules.{bus_numbers, pick, is_pick, are_grants_high, is_bus_clear_due, bg_falls, iack_falls, rule};
ghost use Rattle.vme_model.specs.Verdict.{ruling};
ghost use Rattle.vme_arbiter.specs.Local.{controller_of, low, local, over, over_pick};

use crate::policies::Policy;
use std::marker::Model;
use vme_model::{ArbiterKind, BusLevels, Driver, Edge, Pins, Refused, Version, Wire};
use vme_rules::allowed;
use vme_rules::controllers::{
    bclr_falls, bclr_rises, berr_falls, berr_rises, bg_falls, bg_rises, iack_falls, iack_rises,
};

/// What a controller keeps of its own edges: which of its wires are low, and the level that it last
/// granted.
#[derive(Clone, Copy, PartialEq, Eq, Debug)]
pub struct Controller {
    pub kind: ArbiterKind,
    pub version: Version,
    pub bg0: bool,
    pub bg1: bool,
    pub bg2: bool,
    pub bg3: bool,
    pub bclr: bool,
    pub iack: bool,
    pub berr: bool,
    /// The level last granted, 0 to 3; 0 at power-up.
    pub last_level: u8,
}

impl Model for Controller {
    ghost use Rattle.vme_arbiter.specs.Local.{ControllerState};

    ghost Value = { ControllerState };

    ghost view = { λ c. record {
      kind = c.kind;
      version = c.version;
      bg0 = c.bg0;
      bg1 = c.bg1;
      bg2 = c.bg2;
      bg3 = c.bg3;
      bclr = c.bclr;
      iack = c.iack;
      berr = c.berr;
      last_level = c.last_level;
    } };

    ghost inverse = { λ s.
        record {
          kind = s.kind;
          version = s.version;
          bg0 = s.bg0;
          bg1 = s.bg1;
          bg2 = s.bg2;
          bg3 = s.bg3;
          bclr = s.bclr;
          iack = s.iack;
          berr = s.berr;
          last_level = s.last_level;
        } };
}

impl Controller {
    /// A controller before any edge.
    fn new(kind: ArbiterKind, version: Version) -> Controller
        ensures { result ≡ controller_of kind version [] }
    {
        Controller {
            kind,
            version,
            bg0: false,
            bg1: false,
            bg2: false,
            bg3: false,
            bclr: false,
            iack: false,
            berr: false,
            last_level: 0,
        }
    }

    /// Whether the controller drives the wire low. It is false for every wire that is not its own.
    #[inline(always)]
    fn is_low(&self, wire: Wire) -> bool
        ensures { result ≡ low self.now wire }
    {
        match wire {
            Wire::Bg(0) => self.bg0,
            Wire::Bg(1) => self.bg1,
            Wire::Bg(2) => self.bg2,
            Wire::Bg(3) => self.bg3,
            Wire::Bclr => self.bclr,
            Wire::Iack => self.iack,
            Wire::Berr => self.berr,
            _ => false,
        }
    }

    /// Whether each of the controller's grants is high.
    fn are_grants_high(&self, pins: Pins) -> bool
        ensures { result ≡ are_grants_high (local self.now pins) }
    {
        !(self.bg0 || self.bg1 || self.bg2 || self.bg3)
    }

    /// Whether a level above the one last granted is requested.
    fn is_outranked(&self, requests: BusLevels) -> bool
        ensures { result
            ≡ list_any (λ m. nat_lt self.now.last_level m && has_bus_level requests m) bus_numbers }
    {
        let last = self.last_level;
        [0, 1, 2, 3]
            .iter()
            .any(|level| last < *level && requests.has(*level))
    }

    /// Whether bus clear is due: it may fall then (G3), and may not rise (G4). It is due if the
    /// arbiter is PRI, BBSY* is low, all grants are high, and a higher level waits.
    #[inline(always)]
    fn is_bus_clear_due(&self, pins: Pins) -> bool
        ensures { result ≡ is_bus_clear_due (local self.now pins) }
    {
        let is_pri = matches!(self.kind, ArbiterKind::Pri);
        let is_outranked = self.is_outranked(pins.requests);
        bclr_falls(is_pri, pins.bbsy, self.are_grants_high(pins), is_outranked)
    }

    /// Whether the guard of a falling `iack` holds (G5).
    #[inline(always)]
    fn may_acknowledge(&self, pins: Pins) -> bool
        ensures { result ≡ holds
            (iack_falls pins.address_strobe pins.data_strobe (is_acknowledge pins.shown)) }
    {
        let is_acknowledged = pins.shown.is_some_and(|cycle| cycle.is_acknowledge());
        iack_falls(pins.address_strobe, pins.data_strobe, is_acknowledged)
    }

    /// The number of the rule that names an edge of the controller's own wires, and whether the
    /// rule's guard holds. `is_picked` says whether the policy picks the level of a grant.
    #[inline(always)]
    fn rule(&self, edge: Edge, pins: Pins, is_picked: bool) -> (u8, bool)
        ensures picked { is_grant edge ≡ true → result.1 ≡ holds
            (bg_falls (are_grants_high (local self.now pins)) pins.bbsy is_picked) }
        ensures rows { has_wire Driver.Controller edge.wire ≡ true →
            (is_grant edge ≡ true → is_picked ≡ is_pick self.now.kind (has_bus_level pins.requests)
            self.now.last_level (grant_level edge.wire)) →
            result ≡ rule self.now.version (local self.now pins) edge.wire edge.fall edge.value }
        ensures grants { (kind : KindValue) (request : ℕ → Bool) →
            has_wire Driver.Controller edge.wire ≡ true → is_grant edge ≡ true →
            is_picked ≡ is_pick kind request self.now.last_level (grant_level edge.wire) →
            result ≡ rule self.now.version
            (record (local self.now pins) { request = request; arbiter = kind })
            edge.wire edge.fall edge.value }
    {
        match (edge.wire, edge.fall) {
            (Wire::Bg(_), true) => (
                1,
                bg_falls(self.are_grants_high(pins), pins.bbsy, is_picked),
            ),
            (Wire::Bg(_), false) => (2, bg_rises(self.version, pins.bbsy)),
            (Wire::Bclr, true) => (3, self.is_bus_clear_due(pins)),
            (Wire::Bclr, false) => (4, bclr_rises(self.is_bus_clear_due(pins))),
            (Wire::Iack, true) => (5, self.may_acknowledge(pins)),
            (Wire::Iack, false) => (6, iack_rises(pins.address_strobe)),
            (_, true) => (7, berr_falls(pins.data_strobe, pins.dtack)),
            (_, false) => (8, berr_rises(pins.data_strobe)),
        }
    }

    /// The answer to an edge of the controller's own wires, by its fields. `is_picked` says whether
    /// the policy picks the level of a grant.
    #[inline(always)]
    fn judge(&self, edge: Edge, pins: Pins, is_picked: bool) -> Result<(), Refused>
        ensures picked { is_grant edge ≡ true → is_ok result ≡ true → is_picked ≡ true }
        ensures rows { has_wire Driver.Controller edge.wire ≡ true →
            (is_grant edge ≡ true → is_picked ≡ is_pick self.now.kind (has_bus_level pins.requests)
            self.now.last_level (grant_level edge.wire)) →
            result ≡ ruling self.now.version (local self.now pins) edge }
        ensures grants { (kind : KindValue) (request : ℕ → Bool) →
            has_wire Driver.Controller edge.wire ≡ true → is_grant edge ≡ true →
            is_picked ≡ is_pick kind request self.now.last_level (grant_level edge.wire) →
            result ≡ ruling self.now.version
            (record (local self.now pins) { request = request; arbiter = kind }) edge }
    {
        if self.is_low(edge.wire) == edge.fall {
            return Err(Refused::AlreadyThere);
        }
        allowed(self.rule(edge, pins, is_picked))
    }

    /// The level last granted, 0 at power-up.
    fn last_level(&self) -> u8
        ensures { result ≡ self.now.last_level }
    {
        self.last_level
    }

    /// Takes in an edge that was made.
    fn note(&mut self, edge: Edge)
        ensures { (kind : KindValue) (version : VersionValue) (noted : List EdgeValue)
            → self.old ≡ controller_of kind version noted
            → self.new ≡ controller_of kind version (edge ∷ noted) }
    {
        if edge.is_grant() {
            self.last_level = edge.wire.grant_level();
        }
        if edge.driver.is_same(Driver::Controller) {
            match edge.wire {
                Wire::Bg(0) => self.bg0 = edge.fall,
                Wire::Bg(1) => self.bg1 = edge.fall,
                Wire::Bg(2) => self.bg2 = edge.fall,
                Wire::Bg(3) => self.bg3 = edge.fall,
                Wire::Bclr => self.bclr = edge.fall,
                Wire::Iack => self.iack = edge.fall,
                Wire::Berr => self.berr = edge.fall,
                _ => {}
            }
        }
    }
}

/// An arbiter over a policy, with the controller's IACK daisy-chain driver and bus timer. Source:
/// Std 1014, chapters 2 to 4.
///
/// A clause sees it as a pair: its policy and its local state.
#[derive(Clone, Copy, PartialEq, Eq, Debug)]
pub struct Arbiter<P> {
    policy: P,
    controller: Controller,
}

impl<P> Model for Arbiter<P> {
    ghost use Rattle.vme_arbiter.specs.Local.{ControllerState};

    ghost Value = { P × ControllerState };

    ghost view = { λ a. (a.policy, a.controller) };

    ghost inverse = { λ v. record { policy = v.0; controller = v.1 } };
}

impl<P: Policy> Arbiter<P> {
    /// The arbiter over a policy before any edge, under that version of the rules. If `kind` is
    /// priority, it drives BCLR*; with any other kind it never does.
    pub fn new(policy: P, kind: ArbiterKind, version: Version) -> Arbiter<P>
        ensures { result ≡ (policy, controller_of kind version []) }
    {
        Arbiter {
            policy,
            controller: Controller::new(kind, version),
        }
    }

    /// Whether the controller drives the wire low. Only `bg0` to `bg3`, `bclr`, `iack` and `berr`
    /// are its own; for any other wire the answer is false.
    #[inline(always)]
    pub fn is_low(&self, wire: Wire) -> bool
        ensures { result ≡ low self.now.1 wire }
    {
        self.controller.is_low(wire)
    }

    /// Whether a grant may fall now if it is of the level that the policy picks (G1): all grants
    /// are high, and BBSY* is high. Source: profile.
    #[inline(always)]
    pub fn may_grant(&self, pins: Pins) -> bool
        ensures { result ≡ holds
            (bg_falls (are_grants_high (local self.now.1 pins)) pins.bbsy true) }
    {
        bg_falls(self.controller.are_grants_high(pins), pins.bbsy, true)
    }

    /// Whether an edge is a grant of the level that the policy picks from the requested levels.
    fn picks(&self, edge: Edge, requests: BusLevels) -> bool
        ensures { result ≡ (is_grant edge && option_map_or (λ m. m == grant_level edge.wire)
            (P.picked self.now.0 requests self.now.1.last_level) false) }
    {
        edge.is_grant() && self.is_pick(edge.wire.grant_level(), requests)
    }

    /// Whether the policy picks this level from the requested levels.
    fn is_pick(&self, level: u8, requests: BusLevels) -> bool
        ensures { result ≡ option_map_or (λ m. m == level)
            (P.picked self.now.0 requests self.now.1.last_level) false }
    {
        self.policy
            .pick(requests, self.controller.last_level())
            .is_some_and(|picked| picked == level)
    }

    /// Whether the rules G1 to G8 allow an edge of the controller's wires, given what the
    /// controller reads on its pins. The settling rules S2 to S4 are not tested here, since they
    /// look at boards.
    ///
    /// With any policy, an accepted grant is of the level that the policy picks. The answer to a
    /// grant is the table's answer with the policy's own pick in place of the pick of its kind. If
    /// the two picks are the same, every answer is the table's. Source: G1 to G8 of docs/RULES.md.
    ///
    /// # Errors
    /// E2 if the wire is in that state already; otherwise E3 if the rule's guard fails.
    #[inline(always)]
    pub fn may(&self, edge: Edge, pins: Pins) -> Result<(), Refused>
        ensures picked { is_grant edge ≡ true → is_ok result ≡ true →
            P.picked self.now.0 pins.requests self.now.1.last_level ≡ Some (grant_level edge.wire) }
        ensures rows { (kind : KindValue) (version : VersionValue) (noted : List EdgeValue) →
            self.now.1 ≡ controller_of kind version noted →
            has_wire Driver.Controller edge.wire ≡ true →
            (is_grant edge ≡ true → P.picked self.now.0 pins.requests (last_level noted)
            ≡ pick kind (has_bus_level pins.requests) (last_level noted)) →
            result ≡ ruling version (over kind noted pins) edge }
        ensures grants { (kind : KindValue) (version : VersionValue) (noted : List EdgeValue) →
            self.now.1 ≡ controller_of kind version noted →
            has_wire Driver.Controller edge.wire ≡ true → is_grant edge ≡ true →
            result ≡ ruling version
            (over_pick (P.picked self.now.0 pins.requests (last_level noted)) noted pins) edge }
    {
        let is_picked = self.picks(edge, pins.requests);
        self.controller.judge(edge, pins, is_picked)
    }

    /// Takes in an edge that was made. An edge of another driver changes no wire of the
    /// controller's.
    pub fn note(&mut self, edge: Edge)
        ensures policy { self.new.0 ≡ self.old.0 }
        ensures state { (kind : KindValue) (version : VersionValue) (noted : List EdgeValue)
            → self.old.1 ≡ controller_of kind version noted
            → self.new.1 ≡ controller_of kind version (edge ∷ noted) }
    {
        self.controller.note(edge);
    }
}
