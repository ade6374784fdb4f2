//! What is said of an edge.
ghost use Rattle.std.specs.Prelude.{◌≡◌, ◌↔◌, IsTrue, Err};
ghost use Rattle.std.specs.List.{list_any};
ghost use Rattle.vme_model.specs.declared.refusals.Refused.TheVariants.{TraceFull};
ghost use Rattle.vme_shrink_search.specs.Alike.{is_same_answer, is_same_delivery, is_same_pick, is_same_refusal, is_same_reply};
ghost use Rattle.vme_shrink_search.specs.Replies.{is_pick, level_named, names_shown, pick_named};

use arrayvec::ArrayVec;
use std::marker::Model;
use vme_bus::Bus;
use vme_explain::level_picked;
use vme_goals::Event;
use vme_model::{Condition, Cycle, Delivery, Refused};

/// What is said of an edge: of a refused one the verdict and the conditions that it fails, with the
/// level that their texts name, and what the arbiter picks in place of a grant; of an accepted one
/// what it delivers and the situations that it brings about.
#[derive(Drop)]
pub(crate) struct Reply {
    pub(crate) answer: Result<Option<Delivery>, Refused>,
    pub(crate) failing: ArrayVec<Condition, 5>,
    /// The level of what is shown if the text of a condition names it, and otherwise 0.
    pub(crate) level: u8,
    /// The level that the arbiter picks if a condition speaks of it, and none if it picks none.
    pub(crate) pick: Option<u8>,
    pub(crate) events: ArrayVec<Event, 2>,
}

impl Model for Reply {
    ghost use Rattle.vme_shrink_search.specs.Replies.{Reply};

    ghost Value = { Reply };

    ghost view = { λ t. record {
      answer = t.answer;
      failing = t.failing.items;
      level = t.level;
      pick = t.pick;
      events = t.events.items;
    } };
}

/// Whether the text of the condition names the level of what is shown.
fn names_shown(condition: Condition) -> bool
    ensures { result ≡ names_shown condition }
{
    matches!(condition, Condition::Pending | Condition::NotPending)
}

/// Whether the text of any of the conditions names the level of what is shown.
fn any_names_shown(failing: &[Condition]) -> bool
    ensures { result ≡ list_any names_shown failing.now }
{
    failing.iter().any(|condition| names_shown(*condition))
}

/// The level of what is shown if the text of any of the conditions names it, and otherwise 0.
pub(crate) fn level_named(failing: &[Condition], shown: Option<Cycle>) -> u8
    ensures { result ≡ level_named failing.now shown }
{
    match shown {
        Some(Cycle::Acknowledge(level)) if any_names_shown(failing) => level,
        _ => 0,
    }
}

/// Whether the condition is that the arbiter picks the level of a grant.
fn is_pick(condition: Condition) -> bool
    ensures { result ≡ is_pick condition }
{
    matches!(condition, Condition::Picked)
}

/// Whether any of the conditions is that the arbiter picks the level of a grant.
fn any_is_pick(failing: &[Condition]) -> bool
    ensures { result ≡ list_any is_pick failing.now }
{
    failing.iter().any(|condition| is_pick(*condition))
}

/// The level that the arbiter picks, if it picks one and any of the conditions speaks of it.
pub(crate) fn pick_named(failing: &[Condition], bus: &Bus) -> Option<u8>
    ensures { result ≡ pick_named failing.now bus.now }
{
    if any_is_pick(failing) {
        level_picked(bus)
    } else {
        None
    }
}

/// Whether the same is refused.
fn is_same_refusal(refused: Refused, other: Refused) -> bool
    ensures { result ≡ is_same_refusal refused other }
{
    refused == other
}

/// Whether the same is delivered.
fn is_same_delivery(delivery: Option<Delivery>, other: Option<Delivery>) -> bool
    ensures { result ≡ is_same_delivery delivery other }
{
    delivery == other
}

/// Whether the answers are the same.
fn is_same_answer(
    answer: Result<Option<Delivery>, Refused>,
    other: Result<Option<Delivery>, Refused>,
) -> bool
    ensures { result ≡ is_same_answer answer other }
{
    match (answer, other) {
        (Ok(delivery), Ok(other)) => is_same_delivery(delivery, other),
        (Err(refused), Err(other)) => is_same_refusal(refused, other),
        _ => false,
    }
}

/// Whether the same is picked.
fn is_same_pick(pick: Option<u8>, other: Option<u8>) -> bool
    ensures { result ≡ is_same_pick pick other }
{
    pick == other
}

impl Reply {
    /// Whether exactly the same is said.
    pub(crate) fn is_same(&self, other: &Reply) -> bool
        ensures { result ≡ is_same_reply self.now other.now }
    {
        is_same_answer(self.answer, other.answer)
            && self.failing.as_slice() == other.failing.as_slice()
            && self.level == other.level
            && is_same_pick(self.pick, other.pick)
            && self.events.as_slice() == other.events.as_slice()
    }

    /// Whether the edge is refused since the trace is full.
    pub(crate) fn is_full(&self) -> bool
        ensures { IsTrue result ↔ (self.now.answer ≡ Err TraceFull) }
    {
        matches!(self.answer, Err(Refused::TraceFull))
    }
}
