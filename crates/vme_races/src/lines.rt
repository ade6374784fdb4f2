//! The lines that are written, each put together in a buffer.
ghost use Rattle.std.specs.Prelude.{◌≡◌, ◌+◌, ◌≤◌, ◌++◌, IsTrue};
ghost use Rattle.arrayvec.specs.ArrayVec.{array_vec_len};
ghost use Rattle.vme_model.specs.Signals.{is_well_formed};
ghost use Rattle.vme_races.specs.Lines.{counts_text, race_line as race_line_of, refused_line as refused_line_of, since_text, walk_line as walk_line_of};
ghost use Rattle.vme_swaps.specs.Stops.{is_formed};

use crate::walks::Walk;
use arrayvec::ArrayVec;
use vme_explain::texts::push_verdict;
use vme_model::{Edge, Refused};
use vme_swaps::{Line, Stop, push_edge, push_stop};
use vme_text::{push, push_number};

/// The line of an accepted edge: that of its race; empty if it has none.
pub(crate) fn race_line(number: u64, edge: &Edge, stop: &Stop) -> Line
    requires formed { IsTrue (is_well_formed edge.now) }
    requires met { IsTrue (is_formed stop.now) }
    ensures { result.items ≡ race_line_of number edge.now stop.now }
{
    let mut line = ArrayVec::new();
    if stop.is_race() {
        push_edge(&mut line, number, edge);
        push_stop(&mut line, stop);
        push(&mut line, b"\n");
    }
    line
}

/// The last line: how many edges were accepted, and how many of them race, wait and come back.
pub(crate) fn last_line(accepted: u64, races: u64, waits: u64, free: u64) -> Line
    ensures { result.items ≡ counts_text accepted races waits free }
{
    let mut line = ArrayVec::new();
    push(&mut line, b"accepted ");
    push_number(&mut line, accepted);
    push(&mut line, b" races ");
    push_number(&mut line, races);
    push(&mut line, b" waits ");
    push_number(&mut line, waits);
    push(&mut line, b" free ");
    push_number(&mut line, free);
    push(&mut line, b"\n");
    line
}

/// Appends since where an edge stands, if it came back: at most 32 bytes.
fn push_since(line: &mut Line, since: Option<u64>)
    requires { array_vec_len line.old + 32 ≤ 160 }
    ensures items { line.new.items ≡ line.old.items ++ since_text since }
    ensures len { array_vec_len line.new ≤ array_vec_len line.old + 32 }
{
    if let Some(number) = since {
        push(line, b" free since ");
        push_number(line, number);
    }
}

/// The line of an accepted edge: how far it goes back, and what stops it.
pub(crate) fn walk_line(number: u64, edge: &Edge, walk: &Walk) -> Line
    requires formed { IsTrue (is_well_formed edge.now) }
    requires met { IsTrue (is_formed walk.now.stop) }
    ensures { result.items ≡ walk_line_of number edge.now walk.now }
{
    let mut line = ArrayVec::new();
    push_edge(&mut line, number, edge);
    push_since(&mut line, walk.since);
    push_stop(&mut line, &walk.stop);
    push(&mut line, b"\n");
    line
}

/// The line of a refused edge.
pub(crate) fn refused_line(number: u64, edge: &Edge, refused: Refused) -> Line
    requires { IsTrue (is_well_formed edge.now) }
    ensures { result.items ≡ refused_line_of number edge.now refused }
{
    let mut line = ArrayVec::new();
    push_edge(&mut line, number, edge);
    push(&mut line, b" ");
    push_verdict(&mut line, &Err(refused));
    push(&mut line, b"\n");
    line
}
