//! The lines that report what is found, each put together in a buffer.
ghost use Rattle.std.specs.Prelude.{◌≡◌, ◌+◌, ◌≤◌, ◌++◌, ◌∷◌, [], IsTrue};
ghost use Rattle.arrayvec.specs.ArrayVec.{array_vec_len};
ghost use Rattle.vme_same.specs.Formed.{is_formed_found, is_formed_own, is_formed_why};
ghost use Rattle.vme_same.specs.Lines.{found_text, own_text, second_line, why_text};

use crate::comparisons::{Comparison, Why};
use arrayvec::ArrayVec;
use vme_explain::texts::push_verdict;
use vme_model::Edge;
use vme_swaps::{Line, push_edge, push_stop};
use vme_text::{push, push_number};

/// Appends why an edge keeps two traces from being the same: at most 82 bytes.
fn push_why(line: &mut Line, why: &Why)
    requires room { array_vec_len line.old + 82 ≤ 160 }
    requires formed { IsTrue (is_formed_why why.now) }
    ensures items { line.new.items ≡ line.old.items ++ why_text why.now }
    ensures len { array_vec_len line.new ≤ array_vec_len line.old + 82 }
{
    match why {
        Why::Missing => push(line, b" missing"),
        Why::Stops(stop) => push_stop(line, stop),
    }
}

/// Appends what the first trace has of a driver: at most 33 bytes.
fn push_own(line: &mut Line, own: &Option<(u64, Edge)>)
    requires room { array_vec_len line.old + 33 ≤ 160 }
    requires formed { IsTrue (is_formed_own own.now) }
    ensures items { line.new.items ≡ line.old.items ++ own_text own.now }
    ensures len { array_vec_len line.new ≤ array_vec_len line.old + 33 }
{
    match own {
        None => push(line, b"none"),
        Some((number, edge)) => push_edge(line, *number, edge),
    }
}

/// Appends what is found, without the end of the first line.
fn push_found(line: &mut Line, found: &Comparison)
    requires room { array_vec_len line.old ≤ 0 }
    requires formed { IsTrue (is_formed_found found.now) }
    ensures items { line.new.items ≡ line.old.items ++ found_text found.now }
    ensures len { array_vec_len line.new ≤ 130 }
{
    match found {
        Comparison::Same { edges } => {
            push(line, b"same ");
            push_number(line, *edges);
        }
        Comparison::Refuses {
            in_first: _,
            number,
            refused,
        } => {
            push_number(line, *number);
            push(line, b" ");
            push_verdict(line, &Err(*refused));
        }
        Comparison::OtherVersion => push(line, b"differ version"),
        Comparison::Differs {
            number,
            edge,
            why,
            own: _,
        } => {
            push(line, b"differ ");
            push_edge(line, *number, edge);
            push_why(line, why);
        }
        Comparison::Leaves { number, edge } => {
            push(line, b"differ ");
            push_edge(line, *number, edge);
            push(line, b" left");
        }
    }
}

/// The first line that reports what is found of two traces. Of a refusal it is only what comes
/// behind the name of the file: the number of the edge, and its verdict.
pub(crate) fn first_line_of(found: &Comparison) -> Line
    requires { IsTrue (is_formed_found found.now) }
    ensures { result.items ≡ found_text found.now ++ 10 ∷ [] }
{
    let mut line = ArrayVec::new();
    push_found(&mut line, found);
    push(&mut line, b"\n");
    line
}

/// The second line: what the first trace has of the driver of the edge that differs. Empty if no
/// edge of the second one does.
pub(crate) fn second_line_of(found: &Comparison) -> Line
    requires { IsTrue (is_formed_found found.now) }
    ensures { result.items ≡ second_line found.now }
{
    let mut line = ArrayVec::new();
    if let Comparison::Differs { own, .. } = found {
        push(&mut line, b"    ");
        push_own(&mut line, own);
        push(&mut line, b"\n");
    }
    line
}
