//! A walk that seeks a goal.
ghost use Rattle.std.specs.Prelude.{◌≡◌, [], Ok};
ghost use Rattle.vme_model.specs.Verdict.{verdict};
ghost use Rattle.vme_draws.specs.Walks.{with_edge};
ghost use Rattle.vme_events.specs.Places.{by_place};
ghost use Rattle.vme_reasons.specs.Marked.{IsMarksOf};
ghost use Rattle.vme_engines.specs.Seeking.{brings, ends_at, is_over, missed_by, sought, turned};

use vme_backplane::Backplane;
use vme_draws::Walk;
use vme_events::{Goal, comes, miss};
use vme_model::{Driver, Edge};
use vme_reasons::Marks;

/// How a walk that seeks a goal ended.
#[derive(Clone, Copy, PartialEq, Eq, Debug)]
pub(crate) enum Ending {
    /// The goal did not come: enough edges were made, or nobody can make a further one.
    Over,
    /// The last edge brought it about.
    Came,
    /// The goal's condition alone refuses this edge.
    Missed(Edge),
}

impl Ending {
    /// Whether the goal did not come.
    pub(crate) fn is_over(self) -> bool
        ensures { result ≡ is_over self }
    {
        matches!(self, Ending::Over)
    }
}

/// The first edge that the goal's condition alone refuses, where the goal is one.
fn missed_by(backplane: &Backplane<'_>, goal: Goal) -> Option<Edge>
    ensures { result ≡ missed_by goal backplane.now }
{
    match goal {
        Goal::Event(_) => None,
        Goal::Miss(condition) => miss(backplane, condition),
    }
}

/// Whether the edge, which is about to be made, brings the goal about.
fn brings(walk: &Walk<'_>, marks: &Marks, edge: &Edge, goal: Goal) -> bool
    requires { IsMarksOf walk.now.state.plan (by_place walk.now.state.history) marks.now }
    ensures { result ≡ brings goal walk.now.state edge.now }
{
    match goal {
        Goal::Event(event) => comes(walk.backplane(), marks, edge, event),
        Goal::Miss(_) => false,
    }
}

/// Makes an edge that would be accepted, and marks it by its place.
fn make(walk: &mut Walk<'_>, marks: &mut Marks, edge: Edge)
    requires accepted { verdict walk.old.state edge ≡ Ok tt }
    requires marked { IsMarksOf walk.old.state.plan (by_place walk.old.state.history) marks.old }
    ensures walk { walk.new ≡ with_edge walk.old edge }
    ensures marks { IsMarksOf walk.new.state.plan (by_place walk.new.state.history) marks.new }
{
    let backplane = walk.backplane();
    let shown = backplane.pins(Driver::Controller).shown;
    let place = u64::from(backplane.len()) + 1;
    marks.note(&edge, place, shown);
    walk.make(edge);
}

/// A turn: how it ends the walk, if it does.
fn turn(walk: &mut Walk<'_>, marks: &mut Marks, goal: Goal) -> Option<Ending>
    requires { IsMarksOf walk.old.state.plan (by_place walk.old.state.history) marks.old }
    ensures ending { result ≡ ends_at goal walk.old }
    ensures walk { walk.new ≡ turned goal walk.old }
    ensures marks { IsMarksOf walk.new.state.plan (by_place walk.new.state.history) marks.new }
{
    match missed_by(walk.backplane(), goal) {
        Some(edge) => return Some(Ending::Missed(edge)),
        None => {}
    }
    match walk.draw() {
        Some(edge) => {
            let has_come = brings(walk, marks, &edge, goal);
            make(walk, marks, edge);
            if has_come { Some(Ending::Came) } else { None }
        }
        None => Some(Ending::Over),
    }
}

/// Draws edges and makes them, so many, or until the goal has come, or none is open.
pub(crate) fn seek(walk: &mut Walk<'_>, goal: Goal, edges: u32) -> Ending
    requires { walk.old.state.history ≡ [] }
    ensures ending { result ≡ (sought goal edges walk.old).ending }
    ensures walk { walk.new ≡ (sought goal edges walk.old).walk }
{
    let mut marks = Marks::new();
    for _made in 0..edges {
        match turn(walk, &mut marks, goal) {
            Some(ending) => return ending,
            None => {}
        }
    }
    Ending::Over
}
