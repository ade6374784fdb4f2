//! Where each condition of a rule comes from: a chapter of the standard, or the profile.
ghost use Rattle.std.specs.Prelude.{◌≡◌, ◌≤◌, ◌&&◌, length};
ghost use Rattle.vme_model.specs.Sources.{edge_rule, interrupters_sources, is_first_versions, is_ours, is_profile, is_profile_source, is_same_condition, masters_sources, profile_mark, reason_text, requesters_sources, rule_of, settling_of, settling_sources, sources};

use crate::conditions::Condition;
use crate::sentences::Rule;
use crate::signals::Wire;
use arrayvec::ArrayVec;
use vme_text::push_byte;

/// A chapter of the standard. Source: Std 1014.
#[derive(Clone, Copy, PartialEq, Eq, Debug)]
pub enum Chapter {
    /// Chapter 2.
    DataTransfer,
    /// Chapter 3.
    Arbitration,
    /// Chapter 4.
    Interrupts,
}

/// Why a condition is the profile's. Source: profile.
#[derive(Clone, Copy, PartialEq, Eq, Debug)]
pub enum Reason {
    /// The standard does not ask for all four.
    AllDrivers,
    /// The policies are chapter 3's; only the moment of the pick is ours.
    ThisMoment,
    /// BCLR* from an RRS arbiter is left out.
    RoundRobinLeftOut,
    /// Bus clear waits until the grants are high again.
    GrantsHighAgain,
    /// Bus clear also ends once no higher request is left.
    RequestGone,
    /// The owner does not need to request the bus.
    OwnerHasIt,
    /// No request is withdrawn.
    NotWithdrawn,
    /// A grant that was passed on cannot be taken.
    GrantPassedOn,
    /// An acknowledge that was passed on cannot be answered.
    AcknowledgePassedOn,
    /// The request must be visible on the board's own BR*.
    SeenOnItsWire,
    /// The owner has ended its own request by then.
    RequestOver,
    /// The grant that the owner took has ended by then.
    GrantGone,
    /// The scenario limits the cycles of a tenure.
    BoundedTenure,
    /// The interrupt is still requested when the cycle begins.
    StillRequested,
    /// Block and read-modify-write cycles are left out.
    BlocksLeftOut,
    /// The address goes off before AS* rises.
    AddressOffFirst,
    /// Address pipelining is left out.
    PipeliningLeftOut,
    /// Address-only cycles are left out.
    AddressOnlyLeftOut,
    /// The standard's bus timer measures time only.
    TimerCountsTime,
    /// It takes the place of a time of version 2.
    TimeOfVersionTwo,
}

/// Where a condition comes from. Source: profile (how it is printed).
#[derive(Clone, Copy, PartialEq, Eq, Debug)]
pub enum Source {
    /// A sentence of this chapter demands exactly this, apart from its times.
    Standard(Chapter),
    /// Chapter 2 asks for it in an access, and chapter 4 in an acknowledge.
    EachCycle,
    /// It takes the place of a minimum time of this chapter.
    LeastTime(Chapter),
    /// It is stricter than the standard, or says when.
    Profile(Reason),
}

/// A condition of a rule, and where it comes from. Source: profile.
#[derive(Clone, Copy, PartialEq, Eq, Debug)]
pub struct Sourced {
    /// The condition.
    pub condition: Condition,
    /// Where it comes from.
    pub source: Source,
}

/// The mark after a condition that is the profile's: at most 10 bytes, and empty if it is not.
pub fn profile_mark(ours: bool) -> &'static str
    ensures text { result.now ≡ profile_mark ours }
    ensures short { length result.now ≤ 10 }
{
    if ours { " (profile)" } else { "" }
}

/// A row of the table.
macro_rules! row {
    ($condition:ident, $source:ident($what:ident::$name:ident)) => {
        Sourced {
            condition: Condition::$condition,
            source: Source::$source($what::$name),
        }
    };
    ($condition:ident, $source:ident) => {
        Sourced {
            condition: Condition::$condition,
            source: Source::$source,
        }
    };
}

impl Reason {
    /// The reason in words, at most 70 bytes.
    pub fn text(self) -> &'static str
        ensures text { result.now ≡ reason_text self }
        ensures short { length result.now ≤ 70 }
    {
        match self {
            Reason::AllDrivers => "the standard does not ask for all four",
            Reason::ThisMoment => {
                "the policies are chapter 3's; only the moment of the pick is ours"
            }
            Reason::RoundRobinLeftOut => "BCLR* from an RRS arbiter is left out",
            Reason::GrantsHighAgain => "bus clear waits until the grants are high again",
            Reason::RequestGone => "bus clear also ends once no higher request is left",
            Reason::OwnerHasIt => "the owner does not need to request the bus",
            Reason::NotWithdrawn => "no request is withdrawn",
            Reason::GrantPassedOn => "a grant that was passed on cannot be taken",
            Reason::AcknowledgePassedOn => "an acknowledge that was passed on cannot be answered",
            Reason::SeenOnItsWire => "the request must be visible on the board's own BR*",
            Reason::RequestOver => "the owner has ended its own request by then",
            Reason::GrantGone => "the grant that the owner took has ended by then",
            Reason::BoundedTenure => "the scenario limits the cycles of a tenure",
            Reason::StillRequested => "the interrupt is still requested when the cycle begins",
            Reason::BlocksLeftOut => "block and read-modify-write cycles are left out",
            Reason::AddressOffFirst => "the address goes off before AS* rises",
            Reason::PipeliningLeftOut => "address pipelining is left out",
            Reason::AddressOnlyLeftOut => "address-only cycles are left out",
            Reason::TimerCountsTime => "the standard's bus timer measures time only",
            Reason::TimeOfVersionTwo => "it takes the place of a time of version 2",
        }
    }
}

impl Source {
    /// Whether it is the profile.
    pub fn is_profile(self) -> bool
        ensures { result ≡ is_profile_source self }
    {
        matches!(self, Source::Profile(_))
    }
}

impl Sourced {
    /// Whether it is this condition, and the profile's.
    fn is_profile_of(&self, condition: Condition) -> bool
        ensures { result ≡ (is_same_condition self.now.condition condition
            && is_profile_source self.now.source) }
    {
        self.condition == condition && self.source.is_profile()
    }
}

impl Rule {
    /// The conditions of the rule, in the order of its guard, each with its source. E1, E2 and E5
    /// have none, since they demand nothing of a bus.
    pub fn sources(self) -> &'static [Sourced]
        ensures { result.now ≡ sources self }
    {
        match self {
            Rule::G1 => &[
                row!(GrantsHigh, Profile(Reason::AllDrivers)),
                row!(BusyHigh, Standard(Chapter::Arbitration)),
                row!(Picked, Profile(Reason::ThisMoment)),
            ],
            Rule::G2 => &[row!(BusyLow, Standard(Chapter::Arbitration))],
            Rule::G3 => &[
                row!(ArbiterIsPri, Profile(Reason::RoundRobinLeftOut)),
                row!(BusyLow, Standard(Chapter::Arbitration)),
                row!(GrantsHigh, Profile(Reason::GrantsHighAgain)),
                row!(HigherAsked, Standard(Chapter::Arbitration)),
            ],
            Rule::G4 => &[row!(ClearNotDue, Profile(Reason::RequestGone))],
            Rule::G5 => &[
                row!(AddressStrobeLow, Standard(Chapter::Interrupts)),
                row!(DataStrobeLow, Standard(Chapter::Interrupts)),
                row!(AcknowledgeShown, Standard(Chapter::Interrupts)),
            ],
            Rule::G6 => &[row!(AddressStrobeHigh, Standard(Chapter::Interrupts))],
            Rule::G7 => &[
                row!(DataStrobeLow, Standard(Chapter::DataTransfer)),
                row!(DtackHigh, Standard(Chapter::DataTransfer)),
            ],
            Rule::G8 => &[row!(DataStrobeHigh, Standard(Chapter::DataTransfer))],
            _ => self.requesters_sources(),
        }
    }

    /// The conditions of a rule of requesters.
    fn requesters_sources(self) -> &'static [Sourced]
        ensures { result.now ≡ requesters_sources self }
    {
        match self {
            Rule::G9 => &[row!(OwnBusyHigh, Profile(Reason::OwnerHasIt))],
            Rule::G10 => &[row!(OwnBusyLow, Profile(Reason::NotWithdrawn))],
            Rule::G11 => &[
                row!(GrantInLow, Standard(Chapter::Arbitration)),
                row!(OwnRequestHigh, Standard(Chapter::Arbitration)),
                row!(OwnBusyHigh, Standard(Chapter::Arbitration)),
            ],
            Rule::G12 => &[row!(GrantInHigh, Standard(Chapter::Arbitration))],
            Rule::G13 => &[
                row!(GrantInLow, Standard(Chapter::Arbitration)),
                row!(OwnGrantOutHigh, Profile(Reason::GrantPassedOn)),
                row!(OwnRequestLow, Profile(Reason::SeenOnItsWire)),
            ],
            Rule::G14 => &[
                row!(OwnRequestHigh, Profile(Reason::RequestOver)),
                row!(GrantInHigh, Profile(Reason::GrantGone)),
                row!(AddressFree, Standard(Chapter::Arbitration)),
                row!(Asked, Standard(Chapter::Arbitration)),
            ],
            _ => self.masters_sources(),
        }
    }

    /// The conditions of a rule of masters.
    fn masters_sources(self) -> &'static [Sourced]
        ensures { result.now ≡ masters_sources self }
    {
        match self {
            Rule::G15 => &[
                row!(OwnBusyLow, Standard(Chapter::Arbitration)),
                row!(AddressStrobeHigh, Standard(Chapter::DataTransfer)),
                row!(WithinBurst, Profile(Reason::BoundedTenure)),
                row!(Handled, Standard(Chapter::Interrupts)),
                row!(InterruptLow, Profile(Reason::StillRequested)),
            ],
            Rule::G16 => &[
                row!(OwnAddressOn, Standard(Chapter::DataTransfer)),
                row!(AddressStrobeHigh, Standard(Chapter::DataTransfer)),
            ],
            Rule::G17 => &[
                row!(OwnAddressStrobeLow, Standard(Chapter::DataTransfer)),
                row!(OwnAddressOn, Standard(Chapter::DataTransfer)),
                row!(DtackHigh, Standard(Chapter::DataTransfer)),
                row!(BerrHigh, Standard(Chapter::DataTransfer)),
                row!(NotStrobed, Profile(Reason::BlocksLeftOut)),
            ],
            Rule::G18 => &[row!(Answered, Standard(Chapter::DataTransfer))],
            Rule::G19 => &[
                row!(OwnAddressStrobeLow, Profile(Reason::AddressOffFirst)),
                row!(OwnDataStrobeHigh, Profile(Reason::PipeliningLeftOut)),
                row!(Strobed, Profile(Reason::AddressOnlyLeftOut)),
            ],
            Rule::G20 => &[row!(OwnAddressOff, Profile(Reason::AddressOffFirst))],
            _ => self.interrupters_sources(),
        }
    }

    /// The conditions of a rule of interrupters.
    fn interrupters_sources(self) -> &'static [Sourced]
        ensures { result.now ≡ interrupters_sources self }
    {
        match self {
            Rule::G21 => &[],
            Rule::G22 => &[row!(Served, Standard(Chapter::Interrupts))],
            Rule::G23 => &[
                row!(AcknowledgeInLow, Standard(Chapter::Interrupts)),
                row!(OwnDtackHigh, Standard(Chapter::Interrupts)),
                row!(DataStrobeLow, Standard(Chapter::Interrupts)),
                row!(NotPending, Standard(Chapter::Interrupts)),
                row!(AcknowledgeShown, Standard(Chapter::Interrupts)),
            ],
            Rule::G24 => &[row!(AddressStrobeHigh, Standard(Chapter::Interrupts))],
            Rule::G25 => &[
                row!(DataStrobeLow, EachCycle),
                row!(AddressStrobeLow, Standard(Chapter::DataTransfer)),
                row!(AcknowledgeInLow, Standard(Chapter::Interrupts)),
                row!(OwnAcknowledgeOutHigh, Profile(Reason::AcknowledgePassedOn)),
                row!(Pending, Standard(Chapter::Interrupts)),
                row!(OwnSlotShown, Standard(Chapter::DataTransfer)),
                row!(CycleShown, Standard(Chapter::DataTransfer)),
            ],
            Rule::G26 => &[row!(DataStrobeHigh, Standard(Chapter::DataTransfer))],
            _ => self.settling_sources(),
        }
    }

    /// The condition of a settling rule.
    fn settling_sources(self) -> &'static [Sourced]
        ensures { result.now ≡ settling_sources self }
    {
        match self {
            Rule::S1 => &[row!(ChainHigh, LeastTime(Chapter::Interrupts))],
            Rule::S2 => &[row!(NobodyCanAnswer, Profile(Reason::TimerCountsTime))],
            Rule::S3 => &[row!(PassedTheLastBoard, Profile(Reason::TimeOfVersionTwo))],
            Rule::S4 => &[row!(GrantsThrough, Profile(Reason::TimeOfVersionTwo))],
            _ => &[],
        }
    }

    /// The edge rule of a fall or a rise of that wire.
    pub fn of_edge(wire: Wire, fall: bool) -> Rule
        ensures { result ≡ rule_of wire fall }
    {
        match (wire, fall) {
            (Wire::Bg(_), true) => Rule::G1,
            (Wire::Bg(_), false) => Rule::G2,
            (Wire::Bclr, true) => Rule::G3,
            (Wire::Bclr, false) => Rule::G4,
            (Wire::Iack, true) => Rule::G5,
            (Wire::Iack, false) => Rule::G6,
            (Wire::Berr, true) => Rule::G7,
            (Wire::Berr, false) => Rule::G8,
            (Wire::Br, true) => Rule::G9,
            (Wire::Br, false) => Rule::G10,
            (Wire::BgOut, true) => Rule::G11,
            (Wire::BgOut, false) => Rule::G12,
            (Wire::Bbsy, true) => Rule::G13,
            (Wire::Bbsy, false) => Rule::G14,
            (Wire::Addr, true) => Rule::G15,
            (Wire::AddressStrobe, true) => Rule::G16,
            (Wire::DataStrobe, true) => Rule::G17,
            (Wire::DataStrobe, false) => Rule::G18,
            (Wire::Addr, false) => Rule::G19,
            (Wire::AddressStrobe, false) => Rule::G20,
            (Wire::Irq, true) => Rule::G21,
            (Wire::Irq, false) => Rule::G22,
            (Wire::IackOut, true) => Rule::G23,
            (Wire::IackOut, false) => Rule::G24,
            (Wire::Dtack, true) => Rule::G25,
            (Wire::Dtack, false) => Rule::G26,
        }
    }

    /// The settling rule of a fall or a rise of that wire, if there is one.
    pub fn settling(wire: Wire, fall: bool) -> Option<Rule>
        ensures { result ≡ settling_of wire fall }
    {
        match (wire, fall) {
            (Wire::AddressStrobe, true) => Some(Rule::S1),
            (Wire::Berr, true) => Some(Rule::S2),
            (Wire::Bg(_), false) => Some(Rule::S3),
            (Wire::Bg(_), true) => Some(Rule::S4),
            _ => None,
        }
    }

    /// Whether the rule has conditions only in the first version.
    pub fn is_first_versions(self) -> bool
        ensures { result ≡ is_first_versions self }
    {
        matches!(self, Rule::G2 | Rule::G10)
    }

    /// Whether the condition is one of the rule, and the profile's.
    pub fn is_profile(self, condition: Condition) -> bool
        ensures { result ≡ is_profile self condition }
    {
        self.sources()
            .iter()
            .any(|sourced| sourced.is_profile_of(condition))
    }

    /// The edge rule of a number, 1 to 26; none for any other number.
    pub fn numbered(number: u8) -> Option<Rule>
        ensures { result ≡ edge_rule number }
    {
        let mut name: ArrayVec<u8, 4> = ArrayVec::new();
        name.push(b'G');
        push_byte(&mut name, number);
        Rule::named(name.as_slice())
    }
}

impl Condition {
    /// Whether the condition, which is tested for a fall or a rise of that wire, is the profile's.
    pub fn is_ours(self, wire: Wire, fall: bool) -> bool
        ensures { result ≡ is_ours wire fall self }
    {
        match Rule::settling(wire, fall) {
            Some(rule) => Rule::of_edge(wire, fall).is_profile(self) || rule.is_profile(self),
            None => Rule::of_edge(wire, fall).is_profile(self),
        }
    }
}
