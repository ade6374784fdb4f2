//! Goals: what a trace can be drawn to reach, by which driver, and after how many edges.
ghost use Rattle.std.specs.Prelude.{◌≡◌, ◌≤◌, ◌++◌, find};
ghost use Rattle.std.specs.Str.{bytes_eq};
ghost use Rattle.arrayvec.specs.ArrayVec.{array_vec_len};
ghost use Rattle.vme_goals.specs.Goals.{aim_mark, aim_of, aim_text, counts, has_aim, is_due, is_named};

use crate::events::Event;
use crate::misses::{Miss, WORDS};
use arrayvec::ArrayVec;
use vme_model::{Driver, Version};
use vme_text::push;

/// What a goal asks for: an event that an accepted edge brings about, or an edge that one condition
/// alone refuses. Source: profile.
#[derive(Clone, Copy, PartialEq, Eq, Debug)]
pub enum Aim {
    Event(Event),
    Miss(Miss),
}

/// A goal: an aim, of one driver or of any, behind some edges of the trace. Source: profile.
#[derive(Clone, Copy, PartialEq, Eq, Debug)]
pub struct Goal {
    /// What the edge brings about, or what alone refuses it.
    pub aim: Aim,
    /// The only driver whose edges count; all count if it is not given.
    pub driver: Option<Driver>,
    /// How many edges a trace has at least before one that counts.
    pub after: u64,
}

impl Goal {
    /// Whether an edge counts that has so many edges before it.
    pub fn is_due(self, before: u64) -> bool
        ensures { result ≡ is_due self before }
    {
        self.after <= before
    }
}

/// Whether an edge of that driver counts, if only those of this driver do, or if all do.
pub fn counts(only: Option<Driver>, driver: Driver) -> bool
    ensures { result ≡ counts only driver }
{
    match only {
        None => true,
        Some(only) => driver.is_same(only),
    }
}

impl Aim {
    /// Whether a trace can reach the aim in that version of the rules, as far as the version
    /// decides.
    pub(crate) fn is_of(self, version: Version) -> bool
        ensures { result ≡ has_aim version self }
    {
        match self {
            Aim::Event(event) => event.is_of(version),
            Aim::Miss(miss) => miss.is_of(version),
        }
    }

    /// The words of the aim, at most 53 bytes.
    pub fn text(self) -> ArrayVec<u8, WORDS>
        ensures items { result.items ≡ aim_text self }
        ensures short { array_vec_len result ≤ 53 }
    {
        match self {
            Aim::Event(event) => {
                let mut words = ArrayVec::new();
                push(&mut words, event.name().as_bytes());
                words
            }
            Aim::Miss(miss) => miss.text(),
        }
    }

    /// The words of the aim, and the mark that `explain` writes after its condition.
    fn marked_text(self) -> ArrayVec<u8, WORDS>
        ensures { result.items ≡ aim_text self ++ aim_mark self }
    {
        let mut words = self.text();
        if let Aim::Miss(miss) = self {
            push(&mut words, miss.mark().as_bytes());
        }
        words
    }

    /// Whether these are the words of the aim, with its mark or without it, and the version of the
    /// rules can reach it.
    fn is_named(self, words: &str, version: Version) -> bool
        ensures { result ≡ is_named words.now version self }
    {
        self.is_of(version)
            && (is_spelled(words, self.text().as_slice())
                || is_spelled(words, self.marked_text().as_slice()))
    }
}

/// Whether the words are this text.
fn is_spelled(words: &str, text: &[u8]) -> bool
    ensures { result ≡ bytes_eq words.now text.now }
{
    words.as_bytes() == text
}

/// The first of these events that the words name.
fn event_of(events: &[Event], words: &str, version: Version) -> Option<Event>
    ensures { result ≡ find (λ e. is_named words.now version (Aim.Event e)) events.now }
{
    events
        .iter()
        .copied()
        .find(|event| Aim::Event(*event).is_named(words, version))
}

/// The first of these misses that the words name.
fn miss_of(misses: &[Miss], words: &str, version: Version) -> Option<Miss>
    ensures { result ≡ find (λ m. is_named words.now version (Aim.Miss m)) misses.now }
{
    misses
        .iter()
        .copied()
        .find(|miss| Aim::Miss(*miss).is_named(words, version))
}

/// The aim that these words name: an event by its name, a condition such as `G13 own br is low`,
/// with N for a level and with the mark of `explain` or without it, a settling rule such as `S2`,
/// or a rule such as `G13` for any of its conditions. It is none if no aim has these words, or if
/// the version of the rules cannot reach it.
pub fn aim_of(words: &str, version: Version) -> Option<Aim>
    ensures { result ≡ aim_of words.now version }
{
    match event_of(&Event::ALL, words, version) {
        Some(event) => Some(Aim::Event(event)),
        None => Some(Aim::Miss(miss_of(&Miss::ALL, words, version)?)),
    }
}
