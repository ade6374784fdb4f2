//! What the lines of a summary tell.
ghost use Rattle.std.specs.Prelude.{◌≡◌, ◌+◌, ◌≤◌, ◌++◌, length};
ghost use Rattle.arrayvec.specs.ArrayVec.{array_vec_len};
ghost use Rattle.vme_tallies.specs.Summary.{topics};

use arrayvec::ArrayVec;
use vme_events::Event;
use vme_model::Refused;

/// What a line of a summary tells. Slots are numbered from 1.
#[derive(Clone, Copy, PartialEq, Eq, Debug, Default)]
pub enum Topic {
    /// How many edges there are.
    #[default]
    Edges,
    /// How many a rule let pass and refused, G1 to G26.
    Rule(u8),
    /// How many were refused so.
    Refusal(Refused),
    /// The rules that let no edge pass.
    NeverAccepted,
    /// How often a situation came, and where first.
    Met(Event),
    /// The situations that never came.
    NeverMet,
    /// What the board of a slot did at the bus.
    Board(u8),
    /// What the board of a slot answered.
    Answered(u8),
}

use Topic::{Answered, Board, Met, Refusal, Rule};

/// How many topics there are.
pub(crate) const TOPICS: usize = 93;

/// The rules.
const RULES: [Topic; 26] = [
    Rule(1),
    Rule(2),
    Rule(3),
    Rule(4),
    Rule(5),
    Rule(6),
    Rule(7),
    Rule(8),
    Rule(9),
    Rule(10),
    Rule(11),
    Rule(12),
    Rule(13),
    Rule(14),
    Rule(15),
    Rule(16),
    Rule(17),
    Rule(18),
    Rule(19),
    Rule(20),
    Rule(21),
    Rule(22),
    Rule(23),
    Rule(24),
    Rule(25),
    Rule(26),
];

/// Refusals by settling rules, and by no rule.
const REFUSALS: [Topic; 7] = [
    Refusal(Refused::NotSettled(1)),
    Refusal(Refused::NotSettled(2)),
    Refusal(Refused::NotSettled(3)),
    Refusal(Refused::NotSettled(4)),
    Refusal(Refused::NoSuchDriver),
    Refusal(Refused::AlreadyThere),
    Refusal(Refused::TraceFull),
];

/// The situations, in their order.
const SITUATIONS: [Topic; 15] = [
    Met(Event::GrantPassed),
    Met(Event::LateRequest),
    Met(Event::Overtaken),
    Met(Event::EarlyRelease),
    Met(Event::Overlap),
    Met(Event::FullBurst),
    Met(Event::BusClear),
    Met(Event::Rivals),
    Met(Event::Delivery),
    Met(Event::IackPassed),
    Met(Event::AnsweredAgain),
    Met(Event::Spurious),
    Met(Event::BusError),
    Met(Event::Withdrawn),
    Met(Event::GrantTimeout),
];

/// The boards at the bus, by slot.
const BOARDS: [Topic; 21] = [
    Board(1),
    Board(2),
    Board(3),
    Board(4),
    Board(5),
    Board(6),
    Board(7),
    Board(8),
    Board(9),
    Board(10),
    Board(11),
    Board(12),
    Board(13),
    Board(14),
    Board(15),
    Board(16),
    Board(17),
    Board(18),
    Board(19),
    Board(20),
    Board(21),
];

/// The boards that answer, by slot.
const ANSWERS: [Topic; 21] = [
    Answered(1),
    Answered(2),
    Answered(3),
    Answered(4),
    Answered(5),
    Answered(6),
    Answered(7),
    Answered(8),
    Answered(9),
    Answered(10),
    Answered(11),
    Answered(12),
    Answered(13),
    Answered(14),
    Answered(15),
    Answered(16),
    Answered(17),
    Answered(18),
    Answered(19),
    Answered(20),
    Answered(21),
];

/// Appends topics to others that leave room for them.
fn add(topics: &mut ArrayVec<Topic, TOPICS>, more: &[Topic])
    requires { array_vec_len topics.old + length more.now ≤ 93 }
    ensures items { topics.new.items ≡ topics.old.items ++ more.now }
    ensures len { array_vec_len topics.new ≡ array_vec_len topics.old + length more.now }
{
    if topics.try_extend_from_slice(more).is_err() {
        unreachable!()
    }
}

/// The topics, in the order in which they are told.
pub(crate) fn topics() -> ArrayVec<Topic, TOPICS>
    ensures { result.items ≡ topics }
{
    let mut topics = ArrayVec::new();
    add(&mut topics, &[Topic::Edges]);
    add(&mut topics, &RULES);
    add(&mut topics, &REFUSALS);
    add(&mut topics, &[Topic::NeverAccepted]);
    add(&mut topics, &SITUATIONS);
    add(&mut topics, &[Topic::NeverMet]);
    add(&mut topics, &BOARDS);
    add(&mut topics, &ANSWERS);
    topics
}
