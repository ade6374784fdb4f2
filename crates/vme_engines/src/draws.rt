//! Letting the edges of a backplane be drawn by the numbers of a seed.
ghost use Rattle.std.specs.Prelude.{◌≡◌, ◌++◌, [], OnOk, OnErr, IfErr};
ghost use Rattle.std.specs.Io.KnownBytes.{Appends, Keeps};
ghost use Rattle.vme_model.specs.History.{in_order};
ghost use Rattle.vme_model.specs.Text.{text, edge_lines};
ghost use Rattle.vme_trace.specs.Writing.{AppendsFront};
ghost use Rattle.vme_engines.specs.Outcomes.{Lent};
ghost use Rattle.vme_engines.specs.Drawing.{Draws, DrawsSafely, IsWellFormed, missed_of, status_to};
ghost use Rattle.vme_engines.specs.Seeking.{walk_to};

use crate::drives::{status_of, write_lines};
use crate::plans::{history_region, history_room, plan_of};
use crate::seeks::{Ending, seek};
use crate::{EngineFault, Status};
use std::alloc::Global;
use std::io::Write;
use vme_backplane::Backplane;
use vme_draws::Walk;
use vme_events::Goal;
use vme_model::Version;
use vme_trace::{Fault, flush, header_line, line_of, put};

/// Takes a walk to its goal, or so many edges.
pub(crate) fn walk_to(walk: &mut Walk<'_>, goal: Option<Goal>, edges: u32) -> Ending
    requires { walk.old.state.history ≡ [] }
    ensures ending { result ≡ (walk_to goal edges walk.old).ending }
    ensures walk { walk.new ≡ (walk_to goal edges walk.old).walk }
{
    match goal {
        Some(goal) => seek(walk, goal, edges),
        None => {
            walk.take(edges);
            Ending::Over
        }
    }
}

/// Writes the line of the edge that was missed, if one was.
fn write_missed<W: Write>(ending: Ending, out: &mut W) -> Result<(), Fault>
    requires { IsWellFormed ending }
    ensures ok { OnOk result
        (Appends (W.contents out.old) (W.contents out.new) (edge_lines (missed_of ending))) }
    ensures front { OnErr result
        (AppendsFront (W.contents out.old) (W.contents out.new) (edge_lines (missed_of ending))) }
    ensures fault { IfErr result (λ fault. fault ≡ Fault.Write) }
{
    match ending {
        Ending::Missed(edge) => put(out, line_of(&edge).as_slice()),
        Ending::Over | Ending::Came => Ok(()),
    }
}

/// Writes the lines of the edges that were made on a backplane, and of the one that was missed.
fn write_edges<W: Write>(
    backplane: &Backplane<'_>,
    ending: Ending,
    out: &mut W,
) -> Result<(), Fault>
    requires { IsWellFormed ending }
    ensures ok { OnOk result
        (Appends (W.contents out.old) (W.contents out.new)
        (edge_lines (in_order backplane.now.history ++ missed_of ending))) }
    ensures front { OnErr result
        (AppendsFront (W.contents out.old) (W.contents out.new)
        (edge_lines (in_order backplane.now.history ++ missed_of ending))) }
    ensures fault { IfErr result (λ fault. fault ≡ Fault.Write) }
{
    write_lines(backplane, out)?;
    write_missed(ending, out)
}

/// Writes the trace of the edges that were made on a backplane, and of the one that was missed.
///
/// Errors: X8 where the output cannot be written; a prefix of the trace was then written.
pub(crate) fn write_walk<W: Write>(
    backplane: &Backplane<'_>,
    ending: Ending,
    out: &mut W,
) -> Result<(), Fault>
    requires { IsWellFormed ending }
    ensures ok { OnOk result
        (Appends (W.contents out.old) (W.contents out.new)
        (text backplane.now.version (in_order backplane.now.history ++ missed_of ending))) }
    ensures front { OnErr result
        (AppendsFront (W.contents out.old) (W.contents out.new)
        (text backplane.now.version (in_order backplane.now.history ++ missed_of ending))) }
    ensures fault { IfErr result (λ fault. fault ≡ Fault.Write) }
{
    put(out, header_line(backplane.version()))?;
    write_edges(backplane, ending, out)?;
    flush(out)
}

/// The status of a walk that made so many edges, of so many that were asked for, and ended so.
fn status_to(goal: Option<Goal>, edges: u32, made: u32, ending: Ending) -> Status
    ensures { result ≡ status_to goal edges made ending }
{
    match (goal, ending) {
        (None, _) => status_of(made, edges),
        (Some(_), Ending::Over) => Status::Limit,
        (Some(_), Ending::Came | Ending::Missed(_)) => Status::Done,
    }
}

/// Draws edges of a scenario's backplane among all that the rules allow, by the numbers of a seed, and writes their
/// trace: at most `edges`, and with a goal up to the edge that brings it about. Where the goal is a condition, it ends
/// with the first edge that this condition alone refuses, which is written after the others and counts as one of them.
///
/// The status without a goal is `Limit` where `edges` of them were made, and else `Done`; with one it is `Done` where the
/// goal came, and else `Limit`.
///
/// Errors: F2, the faults of the scenario and F3, before anything is written; X8 where the output cannot be written.
pub fn drive_drawn<W: Write>(
    alloc: Global,
    scenario: &[u8],
    edges: u32,
    seed: u64,
    until: Option<Goal>,
    out: &mut W,
    version: Version,
) -> Result<Status, EngineFault>
    ensures outcome { Lent scenario.now
        (Keeps (W.contents out.old) (W.contents out.new))
        (Draws version seed edges until (W.contents out.old) (W.contents out.new))
        result }
    ensures safe { OnOk result (DrawsSafely scenario.now version seed edges until) }
{
    let plan = plan_of(alloc, scenario)?;
    let mut region = history_region(alloc)?;
    let room = history_room(alloc, &mut region)?;
    let mut walk = Walk::new(plan, room, version, seed);
    let ending = walk_to(&mut walk, until, edges);
    let backplane = walk.backplane();
    backplane.laws();
    backplane.safety();
    match write_walk(backplane, ending, out) {
        Ok(()) => Ok(status_to(until, edges, backplane.len(), ending)),
        Err(fault) => Err(EngineFault::Trace(fault)),
    }
}
