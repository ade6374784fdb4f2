//! What the lines of a summary report.
ghost use Rattle.std.specs.Prelude.{◌≡◌, ◌+◌, ◌≤◌, ◌++◌, length, map};
ghost use Rattle.arrayvec.specs.ArrayVec.{array_vec_len};
ghost use Rattle.vme_model.specs.Plan.{up_to};
ghost use Rattle.vme_goals.specs.Events.{all_events};
ghost use Rattle.vme_summary.specs.Summary.{topics};

use arrayvec::ArrayVec;
use vme_goals::Event;
use vme_model::Refused;

/// What a line of a summary reports. Slots are numbered from 1.
#[derive(Clone, Copy, PartialEq, Eq, Debug, Default)]
pub enum Topic {
    /// How many edges there are.
    #[default]
    Edges,
    /// How many a rule let pass and refused, G1 to G26.
    Rule(u8),
    /// How many were refused so.
    Refusal(Refused),
    /// The rules that let no edge pass.
    NeverAccepted,
    /// How often a situation came, and where first.
    Met(Event),
    /// The situations that never came.
    NeverMet,
    /// What the board of a slot did at the bus.
    Board(u8),
    /// What the board of a slot answered.
    Answered(u8),
}

use Topic::Refusal;

/// How many topics there are: the edges, the rules and other refusals, the situations, the boards
/// twice, and what was never accepted and never came.
const TOPICS: usize = 1 + 26 + REFUSALS.len() + Event::COUNT + 2 * 21 + 2;

/// Topics, in the order in which they are printed.
pub(crate) type Topics = ArrayVec<Topic, TOPICS>;

/// Refusals by settling rules, and by no rule.
const REFUSALS: [Topic; 7] = [
    Refusal(Refused::NotSettled(1)),
    Refusal(Refused::NotSettled(2)),
    Refusal(Refused::NotSettled(3)),
    Refusal(Refused::NotSettled(4)),
    Refusal(Refused::NoSuchDriver),
    Refusal(Refused::AlreadyThere),
    Refusal(Refused::TraceFull),
];

/// Appends topics to others that leave room for them.
fn add(topics: &mut Topics, more: &[Topic])
    requires { array_vec_len topics.old + length more.now ≤ TOPICS }
    ensures items { topics.new.items ≡ topics.old.items ++ more.now }
    ensures len { array_vec_len topics.new ≡ array_vec_len topics.old + length more.now }
{
    if topics.try_extend_from_slice(more).is_err() {
        unreachable!()
    }
}

/// Appends the rules, by number.
fn add_rules(topics: &mut Topics)
    requires { array_vec_len topics.old + 26 ≤ TOPICS }
    ensures items { topics.new.items ≡ topics.old.items ++ map (λ k. Topic.Rule k) (up_to 26) }
    ensures len { array_vec_len topics.new ≡ array_vec_len topics.old + 26 }
{
    for below in 0..26 {
        add(topics, &[Topic::Rule(below + 1)]);
    }
}

/// Appends the situations, in their order.
fn add_situations(topics: &mut Topics)
    requires { array_vec_len topics.old + Event.COUNT ≤ TOPICS }
    ensures items { topics.new.items ≡ topics.old.items ++ map (λ v. Topic.Met v) all_events }
    ensures len { array_vec_len topics.new ≡ array_vec_len topics.old + Event.COUNT }
{
    for event in &Event::ALL {
        add(topics, &[Topic::Met(*event)]);
    }
}

/// Appends what the boards did at the bus, by slot.
fn add_boards(topics: &mut Topics)
    requires { array_vec_len topics.old + 21 ≤ TOPICS }
    ensures items { topics.new.items ≡ topics.old.items ++ map (λ k. Topic.Board k) (up_to 21) }
    ensures len { array_vec_len topics.new ≡ array_vec_len topics.old + 21 }
{
    for below in 0..21 {
        add(topics, &[Topic::Board(below + 1)]);
    }
}

/// Appends what the boards answered, by slot.
fn add_answers(topics: &mut Topics)
    requires { array_vec_len topics.old + 21 ≤ TOPICS }
    ensures items { topics.new.items ≡ topics.old.items ++ map (λ k. Topic.Answered k) (up_to 21) }
    ensures len { array_vec_len topics.new ≡ array_vec_len topics.old + 21 }
{
    for below in 0..21 {
        add(topics, &[Topic::Answered(below + 1)]);
    }
}

/// The topics, in the order in which they are printed.
pub(crate) fn topics() -> Topics
    ensures { result.items ≡ topics }
{
    let mut topics = ArrayVec::new();
    add(&mut topics, &[Topic::Edges]);
    add_rules(&mut topics);
    add(&mut topics, &REFUSALS);
    add(&mut topics, &[Topic::NeverAccepted]);
    add_situations(&mut topics);
    add(&mut topics, &[Topic::NeverMet]);
    add_boards(&mut topics);
    add_answers(&mut topics);
    topics
}
