//! Misses: edges that one condition alone refuses.
ghost use Rattle.std.specs.Prelude.{◌≡◌, ◌≤◌, ◌+◌, ◌++◌, length};
ghost use Rattle.arrayvec.specs.ArrayVec.{array_vec_len};
ghost use Rattle.vme_goals.specs.Goals.{has_miss, is_withdrawal, miss_mark, miss_text};

use arrayvec::ArrayVec;
use vme_model::{Condition, IrqKind, Rule, Version, profile_mark};
use vme_text::{push, push_byte};

/// Room for the words of any goal, in bytes: the longest have 50.
pub(crate) const WORDS: usize = 80;

/// A miss: what alone refuses an edge. Source: profile.
#[derive(Clone, Copy, PartialEq, Eq, Debug)]
pub enum Miss {
    /// In the guard of this rule, G1 to G26, this condition fails, and no other does.
    Rule(u8, Condition),
    /// The only condition of G22 fails, for an interrupter of this kind.
    Unserved(IrqKind),
    /// The guard of the rule holds, and this settling rule, S1 to S4, does not.
    Settling(u8),
    /// In the guard of this edge rule one condition fails and no other does, whichever it is, or
    /// the guard holds and the edge's settling rule does not.
    AnyOf(Rule),
}

/// Whether this is the rule of a request that is withdrawn.
fn is_withdrawal(rule: Rule) -> bool
    ensures { result ≡ is_withdrawal rule }
{
    rule == Rule::G10
}

impl Miss {
    /// All misses that have words: the conditions of G1 to G26 in the order of their guards, then
    /// S1 to S4, and then G1 to G26 without a condition, but not G21, which asks for nothing.
    pub const ALL: [Miss; 91] = [
        Miss::Rule(1, Condition::GrantsHigh),
        Miss::Rule(1, Condition::BusyHigh),
        Miss::Rule(1, Condition::Picked),
        Miss::Rule(2, Condition::BusyLow),
        Miss::Rule(3, Condition::ArbiterIsPri),
        Miss::Rule(3, Condition::BusyLow),
        Miss::Rule(3, Condition::GrantsHigh),
        Miss::Rule(3, Condition::HigherAsked),
        Miss::Rule(4, Condition::ClearNotDue),
        Miss::Rule(5, Condition::AddressStrobeLow),
        Miss::Rule(5, Condition::DataStrobeLow),
        Miss::Rule(5, Condition::AcknowledgeShown),
        Miss::Rule(6, Condition::AddressStrobeHigh),
        Miss::Rule(7, Condition::DataStrobeLow),
        Miss::Rule(7, Condition::DtackHigh),
        Miss::Rule(8, Condition::DataStrobeHigh),
        Miss::Rule(9, Condition::OwnBusyHigh),
        Miss::Rule(10, Condition::OwnBusyLow),
        Miss::Rule(11, Condition::GrantInLow),
        Miss::Rule(11, Condition::OwnRequestHigh),
        Miss::Rule(11, Condition::OwnBusyHigh),
        Miss::Rule(12, Condition::GrantInHigh),
        Miss::Rule(13, Condition::GrantInLow),
        Miss::Rule(13, Condition::OwnGrantOutHigh),
        Miss::Rule(13, Condition::OwnRequestLow),
        Miss::Rule(14, Condition::OwnRequestHigh),
        Miss::Rule(14, Condition::GrantInHigh),
        Miss::Rule(14, Condition::AddressFree),
        Miss::Rule(14, Condition::Asked),
        Miss::Rule(15, Condition::OwnBusyLow),
        Miss::Rule(15, Condition::AddressStrobeHigh),
        Miss::Rule(15, Condition::WithinBurst),
        Miss::Rule(15, Condition::Handled),
        Miss::Rule(15, Condition::InterruptLow),
        Miss::Rule(16, Condition::OwnAddressOn),
        Miss::Rule(16, Condition::AddressStrobeHigh),
        Miss::Rule(17, Condition::OwnAddressStrobeLow),
        Miss::Rule(17, Condition::OwnAddressOn),
        Miss::Rule(17, Condition::DtackHigh),
        Miss::Rule(17, Condition::BerrHigh),
        Miss::Rule(17, Condition::NotStrobed),
        Miss::Rule(18, Condition::Answered),
        Miss::Rule(19, Condition::OwnAddressStrobeLow),
        Miss::Rule(19, Condition::OwnDataStrobeHigh),
        Miss::Rule(19, Condition::Strobed),
        Miss::Rule(20, Condition::OwnAddressOff),
        Miss::Unserved(IrqKind::Roak),
        Miss::Unserved(IrqKind::Rora),
        Miss::Rule(23, Condition::AcknowledgeInLow),
        Miss::Rule(23, Condition::OwnDtackHigh),
        Miss::Rule(23, Condition::DataStrobeLow),
        Miss::Rule(23, Condition::NotPending),
        Miss::Rule(23, Condition::AcknowledgeShown),
        Miss::Rule(24, Condition::AddressStrobeHigh),
        Miss::Rule(25, Condition::DataStrobeLow),
        Miss::Rule(25, Condition::AddressStrobeLow),
        Miss::Rule(25, Condition::AcknowledgeInLow),
        Miss::Rule(25, Condition::OwnAcknowledgeOutHigh),
        Miss::Rule(25, Condition::Pending),
        Miss::Rule(25, Condition::OwnSlotShown),
        Miss::Rule(25, Condition::CycleShown),
        Miss::Rule(26, Condition::DataStrobeHigh),
        Miss::Settling(1),
        Miss::Settling(2),
        Miss::Settling(3),
        Miss::Settling(4),
        Miss::AnyOf(Rule::G1),
        Miss::AnyOf(Rule::G2),
        Miss::AnyOf(Rule::G3),
        Miss::AnyOf(Rule::G4),
        Miss::AnyOf(Rule::G5),
        Miss::AnyOf(Rule::G6),
        Miss::AnyOf(Rule::G7),
        Miss::AnyOf(Rule::G8),
        Miss::AnyOf(Rule::G9),
        Miss::AnyOf(Rule::G10),
        Miss::AnyOf(Rule::G11),
        Miss::AnyOf(Rule::G12),
        Miss::AnyOf(Rule::G13),
        Miss::AnyOf(Rule::G14),
        Miss::AnyOf(Rule::G15),
        Miss::AnyOf(Rule::G16),
        Miss::AnyOf(Rule::G17),
        Miss::AnyOf(Rule::G18),
        Miss::AnyOf(Rule::G19),
        Miss::AnyOf(Rule::G20),
        Miss::AnyOf(Rule::G22),
        Miss::AnyOf(Rule::G23),
        Miss::AnyOf(Rule::G24),
        Miss::AnyOf(Rule::G25),
        Miss::AnyOf(Rule::G26),
    ];

    /// Whether the version of the rules has such a condition.
    pub(crate) fn is_of(self, version: Version) -> bool
        ensures { result ≡ has_miss version self }
    {
        match self {
            Miss::Rule(2 | 10, _) => !version.is_two(),
            Miss::Rule(..) | Miss::Unserved(_) => true,
            Miss::Settling(rule) => version.is_two() || rule <= 2,
            Miss::AnyOf(rule) => !(version.is_two() && is_withdrawal(rule)),
        }
    }

    /// Appends the words of the miss, at most 53 bytes.
    fn push_text(self, words: &mut ArrayVec<u8, WORDS>)
        requires { array_vec_len words.old + 53 ≤ 80 }
        ensures items { words.new.items ≡ words.old.items ++ miss_text self }
        ensures len { array_vec_len words.new ≤ array_vec_len words.old + 53 }
    {
        match self {
            Miss::Rule(rule, condition) => {
                push(words, b"G");
                push_byte(words, rule);
                push(words, b" ");
                push(words, condition.pattern().as_bytes());
            }
            Miss::Unserved(kind) => {
                push(words, b"G22 ");
                push(words, kind.service_text().as_bytes());
            }
            Miss::Settling(rule) => {
                push(words, b"S");
                push_byte(words, rule);
            }
            Miss::AnyOf(rule) => push(words, rule.name().as_bytes()),
        }
    }

    /// The words of the miss: a rule and the text of its condition, with N for a level, a settling
    /// rule, or an edge rule alone. At most 53 bytes.
    pub fn text(self) -> ArrayVec<u8, WORDS>
        ensures items { result.items ≡ miss_text self }
        ensures short { array_vec_len result ≤ 53 }
    {
        let mut words = ArrayVec::new();
        self.push_text(&mut words);
        words
    }

    /// The mark that `explain` writes after the condition, if it is the profile's; a rule alone has
    /// none.
    pub(crate) fn mark(self) -> &'static str
        ensures text { result.now ≡ miss_mark self }
        ensures short { length result.now ≤ 10 }
    {
        match self {
            Miss::Rule(number, condition) => match Rule::numbered(number) {
                Some(rule) => profile_mark(rule.is_profile(condition)),
                None => "",
            },
            Miss::Unserved(_) | Miss::Settling(_) | Miss::AnyOf(_) => "",
        }
    }
}
