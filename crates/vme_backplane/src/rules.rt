//! The guards of the rules, and the table of them.
ghost use Rattle.std.specs.Prelude.{◌≡◌, ◌<◌, ◌&&◌, IsTrue, None, true, false, nat_lt};
ghost use Rattle.std.specs.List.{list_any};
ghost use Rattle.vme_model.specs.Signals.{is_two, is_well_formed};
ghost use Rattle.vme_model.specs.Readings.{is_pending};
ghost use Rattle.vme_model.specs.Rules.{bus_numbers, pick, is_pick, are_grants_high, is_bus_clear_due, may_release, is_within_burst, may_show, is_passed_by, may_answer, rule};

use crate::looks::Look;
use crate::scans;
use vme_arbiter::{AnyPolicy, Policy};
use vme_model::{ArbiterKind, Cycle, Edge, Release, RequesterRow, Version, Wire};

/// Whether these are the rules of the second version.
pub fn is_two(version: Version) -> bool
    ensures { result ≡ is_two version }
{
    matches!(version, Version::Two)
}

impl Look<'_> {
    ghost use Rattle.vme_backplane.specs.Looks.{readings_of};

    /// Whether each grant of the controller is high.
    fn are_grants_high(&self) -> bool
        ensures { result ≡ are_grants_high (readings_of self.now) }
    {
        [0, 1, 2, 3].iter().all(|level| !self.own(Wire::Bg(*level)))
    }

    /// The policy's pick of the low request lines.
    #[tactic(auto, using(vme_model::proofs::PinSets::pick_of_pins))]
    fn pick(&self) -> Option<u8>
        ensures { let r = readings_of self.now in result ≡ pick r.arbiter r.request r.last_level }
    {
        AnyPolicy::from(self.plan.arbiter()).pick(self.requests(), self.last_level())
    }

    /// Whether the level, 0 to 3, is the policy's pick.
    #[tactic(auto, using(vme_model::proofs::Picks::one_pick))]
    fn is_pick(&self, level: u8) -> bool
        requires { level < 4 }
        ensures { let r = readings_of self.now in result ≡ is_pick r.arbiter r.request r.last_level level }
    {
        self.pick().is_some_and(|picked| picked == level)
    }

    /// Whether a level above the one last granted is requested.
    fn is_outranked(&self) -> bool
        ensures { let r = readings_of self.now in result ≡ list_any (λ m. nat_lt r.last_level m && r.request m) bus_numbers }
    {
        let last = self.last_level();
        [0, 1, 2, 3]
            .iter()
            .any(|level| last < *level && self.request(*level))
    }

    /// Whether the arbiter has the owner clear the bus.
    fn is_bus_clear_due(&self) -> bool
        ensures { result ≡ is_bus_clear_due (readings_of self.now) }
    {
        self.plan.arbiter() == ArbiterKind::Pri
            && self.line(Wire::Bbsy)
            && self.are_grants_high()
            && self.is_outranked()
    }

    /// Whether a bus request line is low.
    fn is_any_requested(&self) -> bool
        ensures { result ≡ list_any (readings_of self.now).request bus_numbers }
    {
        [0, 1, 2, 3].iter().any(|level| self.request(*level))
    }

    /// Whether the requester need not wait for another's request.
    fn may_release(&self) -> bool
        ensures { result ≡ may_release (readings_of self.now) }
    {
        match self.requester() {
            Some(
                RequesterRow {
                    release: Release::Request,
                    ..
                },
            ) => self.is_any_requested(),
            _ => true,
        }
    }

    /// Whether the board began fewer cycles than its burst.
    fn is_within_burst(&self) -> bool
        ensures { result ≡ is_within_burst (readings_of self.now) }
    {
        match self.requester() {
            Some(
                RequesterRow {
                    release: Release::Done { burst },
                    ..
                },
            ) => { scans::cycles(self.edges, self.driver) < usize::from(burst) }
            _ => true,
        }
    }

    /// Whether the board's interrupter asks at the level.
    fn is_pending(&self, level: u8) -> bool
        ensures { result ≡ is_pending (readings_of self.now) level }
    {
        self.interrupter()
            .is_some_and(|interrupter| interrupter.level == level)
            && self.own(Wire::Irq)
            && !self.is_served()
    }

    /// Whether the board may show the value.
    fn may_show(&self, value: Option<Cycle>) -> bool
        ensures { result ≡ may_show (readings_of self.now) value }
    {
        match value {
            Some(Cycle::Acknowledge(level)) => self.handles(level) && self.irq(level),
            _ => true,
        }
    }

    /// Whether an acknowledge is shown that the board does not answer.
    fn is_passed_by(&self) -> bool
        ensures { let r = readings_of self.now in result ≡ is_passed_by r r.shown }
    {
        match self.shown() {
            Some(Cycle::Acknowledge(level)) => !self.is_pending(level),
            _ => false,
        }
    }

    /// Whether the board answers what is shown.
    fn may_answer(&self) -> bool
        ensures { let r = readings_of self.now in result ≡ may_answer r r.shown }
    {
        match self.shown() {
            Some(Cycle::Acknowledge(level)) => {
                self.iack_in() && !self.own(Wire::IackOut) && self.is_pending(level)
            }
            Some(Cycle::Access(slot)) => self.board().is_some_and(|board| board.slot == slot),
            None => false,
        }
    }

    /// Whether the board made a `ds-` since its last `as-`.
    fn has_strobed(&self) -> bool
        ensures { result ≡ (readings_of self.now).has_strobed }
    {
        scans::has_strobed(self.edges, self.driver)
    }

    /// G1, but for the version's settling.
    fn may_grant(&self, level: u8) -> bool
        requires { level < 4 }
        ensures { result ≡ (rule self.now.version (readings_of self.now) (Wire.Bg level) true None).1 }
    {
        self.are_grants_high() && !self.line(Wire::Bbsy) && self.is_pick(level)
    }

    /// G2.
    fn may_end_grant(&self) -> bool
        ensures { result ≡ (rule self.now.version (readings_of self.now) (Wire.Bg 0) false None).1 }
    {
        is_two(self.version) || self.line(Wire::Bbsy)
    }

    /// G5.
    fn may_start_acknowledge(&self) -> bool
        ensures { result ≡ (rule self.now.version (readings_of self.now) Wire.Iack true None).1 }
    {
        self.line(Wire::AddressStrobe)
            && self.line(Wire::DataStrobe)
            && self.shown().is_some_and(|cycle| cycle.is_acknowledge())
    }

    /// G7.
    fn may_end_cycle(&self) -> bool
        ensures { result ≡ (rule self.now.version (readings_of self.now) Wire.Berr true None).1 }
    {
        self.line(Wire::DataStrobe) && !self.line(Wire::Dtack)
    }

    /// G10.
    fn may_end_request(&self) -> bool
        ensures { result ≡ (rule self.now.version (readings_of self.now) Wire.Br false None).1 }
    {
        is_two(self.version) || self.own(Wire::Bbsy)
    }

    /// G11.
    fn may_pass_grant(&self) -> bool
        ensures { result ≡ (rule self.now.version (readings_of self.now) Wire.BgOut true None).1 }
    {
        self.grant_in() && !self.own(Wire::Br) && !self.own(Wire::Bbsy)
    }

    /// G13.
    fn may_take_bus(&self) -> bool
        ensures { result ≡ (rule self.now.version (readings_of self.now) Wire.Bbsy true None).1 }
    {
        self.grant_in() && !self.own(Wire::BgOut) && self.own(Wire::Br)
    }

    /// G14.
    fn may_release_bus(&self) -> bool
        ensures { result ≡ (rule self.now.version (readings_of self.now) Wire.Bbsy false None).1 }
    {
        !self.own(Wire::Br)
            && !self.grant_in()
            && (!self.own(Wire::Addr) || self.own(Wire::AddressStrobe))
            && self.may_release()
    }

    /// G15.
    fn may_address(&self, value: Option<Cycle>) -> bool
        ensures { result ≡ (rule self.now.version (readings_of self.now) Wire.Addr true value).1 }
    {
        self.own(Wire::Bbsy)
            && !self.line(Wire::AddressStrobe)
            && self.is_within_burst()
            && self.may_show(value)
    }

    /// G16.
    fn may_begin_cycle(&self) -> bool
        ensures { result ≡ (rule self.now.version (readings_of self.now) Wire.AddressStrobe true None).1 }
    {
        self.own(Wire::Addr) && !self.line(Wire::AddressStrobe)
    }

    /// G17.
    fn may_strobe(&self) -> bool
        ensures { result ≡ (rule self.now.version (readings_of self.now) Wire.DataStrobe true None).1 }
    {
        self.own(Wire::AddressStrobe)
            && self.own(Wire::Addr)
            && !self.line(Wire::Dtack)
            && !self.controller(Wire::Berr)
            && !self.has_strobed()
    }

    /// G18.
    fn may_end_strobe(&self) -> bool
        ensures { result ≡ (rule self.now.version (readings_of self.now) Wire.DataStrobe false None).1 }
    {
        self.line(Wire::Dtack) || self.controller(Wire::Berr)
    }

    /// G19.
    fn may_end_address(&self) -> bool
        ensures { result ≡ (rule self.now.version (readings_of self.now) Wire.Addr false None).1 }
    {
        self.own(Wire::AddressStrobe) && !self.own(Wire::DataStrobe) && self.has_strobed()
    }

    /// G23.
    fn may_pass_acknowledge(&self) -> bool
        ensures { result ≡ (rule self.now.version (readings_of self.now) Wire.IackOut true None).1 }
    {
        self.iack_in()
            && !self.own(Wire::Dtack)
            && self.line(Wire::DataStrobe)
            && self.is_passed_by()
    }

    /// G25.
    fn may_acknowledge(&self) -> bool
        ensures { result ≡ (rule self.now.version (readings_of self.now) Wire.Dtack true None).1 }
    {
        self.line(Wire::DataStrobe) && self.line(Wire::AddressStrobe) && self.may_answer()
    }

    /// The number of the rule that names the edge, and whether its guard holds.
    #[tactic(auto, using(crate::proofs::Levels::granted_level))]
    pub fn rule(&self, edge: Edge) -> (u8, bool)
        requires { IsTrue (is_well_formed edge) }
        ensures { result ≡ rule self.now.version (readings_of self.now) edge.wire edge.fall edge.value }
    {
        match (edge.wire, edge.fall) {
            (Wire::Bg(level), true) => (1, self.may_grant(level)),
            (Wire::Bg(_), false) => (2, self.may_end_grant()),
            (Wire::Bclr, true) => (3, self.is_bus_clear_due()),
            (Wire::Bclr, false) => (4, !self.is_bus_clear_due()),
            (Wire::Iack, true) => (5, self.may_start_acknowledge()),
            (Wire::Iack, false) => (6, !self.line(Wire::AddressStrobe)),
            (Wire::Berr, true) => (7, self.may_end_cycle()),
            (Wire::Berr, false) => (8, !self.line(Wire::DataStrobe)),
            (Wire::Br, true) => (9, !self.own(Wire::Bbsy)),
            (Wire::Br, false) => (10, self.may_end_request()),
            (Wire::BgOut, true) => (11, self.may_pass_grant()),
            (Wire::BgOut, false) => (12, !self.grant_in()),
            (Wire::Bbsy, true) => (13, self.may_take_bus()),
            (Wire::Bbsy, false) => (14, self.may_release_bus()),
            (Wire::Addr, true) => (15, self.may_address(edge.value)),
            (Wire::AddressStrobe, true) => (16, self.may_begin_cycle()),
            (Wire::DataStrobe, true) => (17, self.may_strobe()),
            (Wire::DataStrobe, false) => (18, self.may_end_strobe()),
            (Wire::Addr, false) => (19, self.may_end_address()),
            (Wire::AddressStrobe, false) => (20, !self.own(Wire::Addr)),
            (Wire::Irq, true) => (21, true),
            (Wire::Irq, false) => (22, self.is_served()),
            (Wire::IackOut, true) => (23, self.may_pass_acknowledge()),
            (Wire::IackOut, false) => (24, !self.line(Wire::AddressStrobe)),
            (Wire::Dtack, true) => (25, self.may_acknowledge()),
            (Wire::Dtack, false) => (26, !self.line(Wire::DataStrobe)),
        }
    }
}
