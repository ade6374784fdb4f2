//! How an edge is written that goes back, and what stops it.
ghost use Rattle.std.specs.Prelude.{◌≡◌, ◌+◌, ◌≤◌, ◌++◌, Err, IsTrue};
ghost use Rattle.arrayvec.specs.ArrayVec.{array_vec_len};
ghost use Rattle.vme_model.specs.Signals.{is_well_formed};
ghost use Rattle.vme_model.specs.Report.{verdict_text};
ghost use Rattle.vme_swaps.specs.Stops.{is_formed};
ghost use Rattle.vme_swaps.specs.StopLines.{edge_text, outcome_text, races_text, stop_text, waits_text};

use crate::stops::Stop;
use arrayvec::ArrayVec;
use vme_explain::texts::push_verdict;
use vme_model::{Edge, Refused};
use vme_text::{push, push_number};
use vme_trace::spelling_of;

/// Room for any line: four numbers of at most 20 digits, or two edges with theirs.
const LINE: usize = 160;

/// A line, as far as it was put together.
pub type Line = ArrayVec<u8, LINE>;

/// Appends an edge by its number, and as it is spelled: at most 33 bytes.
pub fn push_edge(line: &mut Line, number: u64, edge: &Edge)
    requires room { array_vec_len line.old + 33 ≤ 160 }
    requires formed { IsTrue (is_well_formed edge.now) }
    ensures items { line.new.items ≡ line.old.items ++ edge_text number edge.now }
    ensures len { array_vec_len line.new ≤ array_vec_len line.old + 33 }
{
    push_number(line, number);
    push(line, b" ");
    push(line, spelling_of(edge).as_slice());
}

/// Appends what comes of the other order of a race: at most 37 bytes.
fn push_outcome(line: &mut Line, outcome: Result<(), Refused>)
    requires { array_vec_len line.old + 37 ≤ 160 }
    ensures items { line.new.items ≡ line.old.items ++ outcome_text outcome }
    ensures len { array_vec_len line.new ≤ array_vec_len line.old + 37 }
{
    match outcome {
        Ok(()) => push(line, b"other"),
        Err(refused) => push_verdict(line, &Err(refused)),
    }
}

/// Appends with which edge another races, and what comes of the other order: at most 78 bytes.
fn push_races(line: &mut Line, number: u64, edge: &Edge, outcome: Result<(), Refused>)
    requires room { array_vec_len line.old + 78 ≤ 160 }
    requires formed { IsTrue (is_well_formed edge.now) }
    ensures items { line.new.items ≡ line.old.items ++ races_text number edge.now outcome }
    ensures len { array_vec_len line.new ≤ array_vec_len line.old + 78 }
{
    push(line, b" races ");
    push_edge(line, number, edge);
    push(line, b" ");
    push_outcome(line, outcome);
}

/// Appends the verdict of a refused edge: at most 37 bytes.
fn push_refused(line: &mut Line, refused: Refused)
    requires { array_vec_len line.old + 37 ≤ 160 }
    ensures items { line.new.items ≡ line.old.items ++ verdict_text (Err refused) }
    ensures len { array_vec_len line.new ≤ array_vec_len line.old + 37 }
{
    push_verdict(line, &Err(refused));
}

/// Appends for which edge another waits, and what it gets in front of that one: at most 82 bytes.
fn push_waits(line: &mut Line, number: u64, edge: &Edge, refused: Refused)
    requires room { array_vec_len line.old + 82 ≤ 160 }
    requires formed { IsTrue (is_well_formed edge.now) }
    ensures items { line.new.items ≡ line.old.items ++ waits_text number edge.now refused }
    ensures len { array_vec_len line.new ≤ array_vec_len line.old + 82 }
{
    push(line, b" waits for ");
    push_edge(line, number, edge);
    push(line, b" ");
    push_refused(line, refused);
}

/// Appends what stops an edge: at most 82 bytes.
pub fn push_stop(line: &mut Line, stop: &Stop)
    requires room { array_vec_len line.old + 82 ≤ 160 }
    requires met { IsTrue (is_formed stop.now) }
    ensures items { line.new.items ≡ line.old.items ++ stop_text stop.now }
    ensures len { array_vec_len line.new ≤ array_vec_len line.old + 82 }
{
    match stop {
        Stop::Begins => push(line, b" begins"),
        Stop::Far => push(line, b" far"),
        Stop::Waits {
            number,
            edge,
            refused,
        } => push_waits(line, *number, edge, *refused),
        Stop::Races {
            number,
            edge,
            outcome,
        } => push_races(line, *number, edge, *outcome),
    }
}
