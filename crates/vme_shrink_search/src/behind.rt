//! What is said of an edge behind the edges that were made on a bus.
ghost use Rattle.std.specs.Prelude.{◌≡◌, [], if◌then◌else◌, OnOk, is_ok};
ghost use Rattle.vme_model.specs.History.{in_order};
ghost use Rattle.vme_model.specs.Verdict.{after, kept};
ghost use Rattle.vme_events.specs.Events.{events_of};
ghost use Rattle.vme_events.specs.Places.{by_place};
ghost use Rattle.vme_explain.specs.Marked.{IsMarksOf};
ghost use Rattle.vme_shrink_search.specs.Leading.{LeadsTo};
ghost use Rattle.vme_shrink_search.specs.Replies.{reply_at};

use crate::replies::{Reply, level_named, pick_named};
use arrayvec::ArrayVec;
use std::alloc::AllocError;
use vme_bus::Bus;
use vme_events::events_of;
use vme_explain::{Marks, step_marked};
use vme_goals::Event;
use vme_model::Edge;
use vme_store::Code;

/// Makes the edge if it is accepted, and marks it then.
fn mark(bus: &mut Bus, marks: &mut Marks, edge: Edge)
    requires { IsMarksOf bus.old.plan (by_place bus.old.history) marks.old }
    ensures state { bus.new ≡ after bus.old edge }
    ensures marks { IsMarksOf bus.new.plan (by_place bus.new.history) marks.new }
{
    let place = u64::from(bus.len()) + 1;
    let _ = step_marked(bus, marks, place, &edge);
}

/// The marks of the edges that were made, which are made once more for them.
fn marks_of(bus: &mut Bus, made: &[Code]) -> Marks
    requires { LeadsTo made.now bus.old }
    ensures state { bus.new ≡ bus.old }
    ensures marks { IsMarksOf bus.new.plan (by_place bus.new.history) result }
{
    bus.restart();
    let mut marks = Marks::new();
    for code in made {
        mark(bus, &mut marks, code.edge());
    }
    marks
}

/// The situations that an edge brings about that is about to be made; none of one that is not
/// accepted.
fn events_behind(bus: &mut Bus, made: &[Code], edge: Edge, is_accepted: bool) -> ArrayVec<Event, 2>
    requires { LeadsTo made.now bus.old }
    ensures state { bus.new ≡ bus.old }
    ensures events { result.items
        ≡ (if is_accepted then events_of bus.old.plan bus.old.history edge else []) }
{
    if !is_accepted {
        return ArrayVec::new();
    }
    let marks = marks_of(bus, made);
    events_of(bus, &marks, &edge)
}

/// What is said of an edge that is about to come behind the edges that were made. Only for an
/// accepted one they are made once more.
pub(crate) fn reply_behind(bus: &mut Bus, made: &[Code], edge: Edge) -> Reply
    requires { LeadsTo made.now bus.old }
    ensures state { bus.new ≡ bus.old }
    ensures reply { result ≡ reply_at bus.old edge }
{
    let answer = bus.answer(edge);
    let failing = bus.failing(edge);
    let level = level_named(failing.as_slice(), bus.shown());
    let pick = pick_named(failing.as_slice(), bus);
    let events = events_behind(bus, made, edge, answer.is_ok());
    Reply {
        answer,
        failing,
        level,
        pick,
        events,
    }
}

/// Makes an edge if it is accepted, and puts it at the end of the list of those that were made.
fn take_in(bus: &mut Bus, made: &mut Vec<Code>, code: Code) -> Result<(), AllocError>
    requires { made.old.items ≡ in_order bus.old.history }
    ensures state { OnOk result (bus.new ≡ after bus.old code) }
    ensures made { OnOk result (made.new.items ≡ in_order bus.new.history) }
{
    if bus.step(code.edge()).is_ok() {
        made.push(code)?;
    }
    Ok(())
}

/// Goes on with edges, past those that are refused, and puts the others to the end of the list of
/// those that were made.
pub(crate) fn go_on(bus: &mut Bus, made: &mut Vec<Code>, edges: &[Code]) -> Result<(), AllocError>
    requires { made.old.items ≡ in_order bus.old.history }
    ensures state { OnOk result (bus.new ≡ kept bus.old edges.now) }
    ensures made { OnOk result (made.new.items ≡ in_order bus.new.history) }
{
    for code in edges {
        take_in(bus, made, *code)?;
    }
    Ok(())
}
