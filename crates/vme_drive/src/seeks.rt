//! A walk that seeks a goal.
ghost use Rattle.std.specs.Prelude.{◌≡◌, [], Ok, IfOk};
ghost use Rattle.vme_model.specs.Verdict.{verdict};
ghost use Rattle.vme_seeds.specs.Walks.{with_edge};
ghost use Rattle.vme_events.specs.Places.{by_place};
ghost use Rattle.vme_explain.specs.Marked.{IsMarksOf};
ghost use Rattle.vme_drive.specs.Seeking.{brings, ends_at, fulfils, is_counted, is_over, missed_by, missed_once_due, sought, turned};
ghost use Rattle.vme_reading.specs.Texts.{ListsOn};

use crate::drives::put_line;
use std::io::Write;
use vme_bus::Bus;
use vme_events::{comes, miss};
use vme_explain::Marks;
use vme_goals::{Aim, Goal, Miss, counts};
use vme_model::Edge;
use vme_seeds::Walk;
use vme_text::Text;
use vme_trace::Fault;

/// How a walk that seeks a goal ended.
#[derive(Clone, Copy, PartialEq, Eq, Debug)]
pub(crate) enum Ending {
    /// The goal did not come: enough edges were made, or nobody can make a further one.
    Over,
    /// The last edge brought it about.
    Came,
    /// The goal's condition alone refuses this edge.
    Missed(Edge),
}

impl Ending {
    /// Whether the goal did not come.
    pub(crate) fn is_over(self) -> bool
        ensures { result ≡ is_over self }
    {
        matches!(self, Ending::Over)
    }
}

/// The first edge that this alone refuses, of the driver that counts, once enough edges are made.
fn missed_once_due(bus: &Bus, goal: Goal, condition: Miss) -> Option<Edge>
    ensures { result ≡ missed_once_due goal condition bus.now }
{
    if goal.is_due(u64::from(bus.len())) {
        miss(bus, goal.driver, condition)
    } else {
        None
    }
}

/// The first edge that the goal's condition alone refuses and that counts, if the goal is one.
fn missed_by(bus: &Bus, goal: Goal) -> Option<Edge>
    ensures { result ≡ missed_by goal bus.now }
{
    match goal.aim {
        Aim::Event(_) => None,
        Aim::Miss(condition) => missed_once_due(bus, goal, condition),
    }
}

/// Whether the edge, which is about to be made, brings the aim about.
fn fulfils(walk: &Walk, marks: &Marks, edge: &Edge, aim: Aim) -> bool
    requires { IsMarksOf walk.now.state.plan (by_place walk.now.state.history) marks.now }
    ensures { result ≡ fulfils aim walk.now.state edge.now }
{
    match aim {
        Aim::Event(event) => comes(walk.bus(), marks, edge, event),
        Aim::Miss(_) => false,
    }
}

/// Whether an edge that is about to be made counts.
fn is_counted(walk: &Walk, edge: &Edge, goal: Goal) -> bool
    ensures { result ≡ is_counted goal walk.now.state edge.now }
{
    counts(goal.driver, edge.driver) && goal.is_due(u64::from(walk.bus().len()))
}

/// Whether the edge, which is about to be made, brings the goal about.
fn brings(walk: &Walk, marks: &Marks, edge: &Edge, goal: Goal) -> bool
    requires { IsMarksOf walk.now.state.plan (by_place walk.now.state.history) marks.now }
    ensures { result ≡ brings goal walk.now.state edge.now }
{
    is_counted(walk, edge, goal) && fulfils(walk, marks, edge, goal.aim)
}

/// Makes an edge that would be accepted, and marks it by its place.
fn make(walk: &mut Walk, marks: &mut Marks, edge: Edge)
    requires accepted { verdict walk.old.state edge ≡ Ok tt }
    requires marked { IsMarksOf walk.old.state.plan (by_place walk.old.state.history) marks.old }
    ensures walk { walk.new ≡ with_edge walk.old edge }
    ensures marks { IsMarksOf walk.new.state.plan (by_place walk.new.state.history) marks.new }
{
    let bus = walk.bus();
    let shown = bus.shown();
    let place = u64::from(bus.len()) + 1;
    marks.note(&edge, place, shown);
    walk.make(edge);
}

/// A turn: how it ends the walk, if it does. The line of an edge that is made is put to a text.
fn take_turn<W: Write>(
    walk: &mut Walk,
    marks: &mut Marks,
    goal: Goal,
    text: &mut Text,
    out: &mut W,
) -> Result<Option<Ending>, Fault>
    requires { IsMarksOf walk.old.state.plan (by_place walk.old.state.history) marks.old }
    ensures ending { IfOk result (λ ending. ending ≡ ends_at goal walk.old) }
    ensures walk { walk.new ≡ turned goal walk.old }
    ensures marks { IsMarksOf walk.new.state.plan (by_place walk.new.state.history) marks.new }
    ensures listed { ListsOn walk.old.state text.old (W.contents out.old) (W.contents out.new)
        (turned goal walk.old).state walk.new.state text.new result }
{
    match missed_by(walk.bus(), goal) {
        Some(edge) => return Ok(Some(Ending::Missed(edge))),
        None => {}
    }
    match walk.draw() {
        Some(edge) => {
            let has_come = brings(walk, marks, &edge, goal);
            make(walk, marks, edge);
            put_line(text, &edge, out)?;
            if has_come {
                Ok(Some(Ending::Came))
            } else {
                Ok(None)
            }
        }
        None => Ok(Some(Ending::Over)),
    }
}

/// Draws edges and makes them, so many, or until the goal has come, or none is open. The line of
/// each is put to a text, which is written whenever it has no room for the next.
pub(crate) fn seek<W: Write>(
    walk: &mut Walk,
    goal: Goal,
    edges: u32,
    text: &mut Text,
    out: &mut W,
) -> Result<Ending, Fault>
    requires { walk.old.state.history ≡ [] }
    ensures ending { IfOk result (λ ending. ending ≡ (sought goal edges walk.old).ending) }
    ensures listed { ListsOn walk.old.state text.old (W.contents out.old) (W.contents out.new)
        (sought goal edges walk.old).walk.state walk.new.state text.new result }
{
    let mut marks = Marks::new();
    for _made in 0..edges {
        match take_turn(walk, &mut marks, goal, text, out)? {
            Some(ending) => return Ok(ending),
            None => {}
        }
    }
    Ok(Ending::Over)
}
