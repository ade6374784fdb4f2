//! Events: situations of a bus that a trace can reach. docs/COMMANDS.md describes them.
ghost use Rattle.std.specs.Prelude.{◌≡◌, ◌<◌, ◌≤◌, length, Some};
ghost use Rattle.vme_goals.specs.Events.{event_index, event_text, has_event};

use std::fmt;
use vme_model::Version;

/// An event: a situation that an accepted edge brings about. The order is that in which events are
/// reported. Source: profile.
#[derive(Clone, Copy, PartialEq, Eq, Debug, Default)]
pub enum Event {
    /// A board passes on a grant that it does not want.
    #[default]
    GrantPassed,
    /// A board requests the bus after its grant has gone by.
    LateRequest,
    /// A board takes the bus while another board waits that requested it earlier.
    Overtaken,
    /// A board gives up the bus before its last cycle is over.
    EarlyRelease,
    /// A board takes the bus while an earlier cycle still runs.
    Overlap,
    /// A board begins the last cycle of a burst above 1.
    FullBurst,
    /// The arbiter asks for the bus to be cleared.
    BusClear,
    /// A board requests an interrupt while another is pending at its level.
    Rivals,
    /// An acknowledge is answered.
    Delivery,
    /// A board passes on an acknowledge that it does not answer.
    IackPassed,
    /// A board answers a further acknowledge after one request.
    AnsweredAgain,
    /// An acknowledge that nobody answers is timed out.
    Spurious,
    /// An access that nobody answers is timed out.
    BusError,
    /// A board withdraws its request, in the second version of the rules.
    Withdrawn,
    /// A grant that nobody took is timed out, in the second version of the rules.
    GrantTimeout,
}

impl Event {
    /// How many events there are.
    pub const COUNT: usize = 15;

    /// All events, in their order.
    pub const ALL: [Event; Event::COUNT] = [
        Event::GrantPassed,
        Event::LateRequest,
        Event::Overtaken,
        Event::EarlyRelease,
        Event::Overlap,
        Event::FullBurst,
        Event::BusClear,
        Event::Rivals,
        Event::Delivery,
        Event::IackPassed,
        Event::AnsweredAgain,
        Event::Spurious,
        Event::BusError,
        Event::Withdrawn,
        Event::GrantTimeout,
    ];

    /// The place of the event among all events, from 0.
    pub fn index(self) -> usize
        ensures at { result ≡ event_index self }
        ensures within { result < Event.COUNT }
    {
        self as usize
    }

    /// The name of the event, at most 14 bytes.
    pub fn name(self) -> &'static str
        ensures text { result.now ≡ event_text self }
        ensures short { length result.now ≤ 14 }
    {
        match self {
            Event::GrantPassed => "grant-passed",
            Event::LateRequest => "late-request",
            Event::Overtaken => "overtaken",
            Event::EarlyRelease => "early-release",
            Event::Overlap => "overlap",
            Event::FullBurst => "full-burst",
            Event::BusClear => "bus-clear",
            Event::Rivals => "rivals",
            Event::Delivery => "delivery",
            Event::IackPassed => "iack-passed",
            Event::AnsweredAgain => "answered-again",
            Event::Spurious => "spurious",
            Event::BusError => "bus-error",
            Event::Withdrawn => "withdrawn",
            Event::GrantTimeout => "grant-timeout",
        }
    }

    /// Whether the event can happen in that version of the rules.
    pub(crate) fn is_of(self, version: Version) -> bool
        ensures { result ≡ has_event version self }
    {
        match self {
            Event::Withdrawn | Event::GrantTimeout => version.is_two(),
            _ => true,
        }
    }
}

impl fmt::Display for Event {
    ghost output = { λ e. Some (event_text e) };

    fn fmt<W: fmt::Write>(&self, f: &mut fmt::Formatter<W>) -> fmt::Result {
        f.write_str(self.name())
    }
}
