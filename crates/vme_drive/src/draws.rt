//! Letting the edges of a bus be drawn by the numbers of a seed.
ghost use Rattle.std.specs.Prelude.{◌≡◌, [], OnOk, OnErr, IfOk, IfErr};
ghost use Rattle.std.specs.Io.KnownBytes.{Appends, Keeps};
ghost use Rattle.vme_model.specs.Text.{edge_lines};
ghost use Rattle.vme_trace.specs.Writing.{AppendsFront};
ghost use Rattle.vme_seeds.specs.Walks.{at_start, walked};
ghost use Rattle.vme_reading.specs.Outcomes.{Lent, bench};
ghost use Rattle.vme_drive.specs.Drawing.{Draws, DrawsSafely, IsWellFormed, WalksSafely, ended_lines, ended_text, missed_of, status_to};
ghost use Rattle.vme_drive.specs.Seeking.{walk_to};
ghost use Rattle.vme_reading.specs.Texts.{ListsOn};

use crate::drives::{put_line, status_of};
use crate::seeks::{Ending, seek};
use std::alloc::Global;
use std::io::Write;
use vme_goals::Goal;
use vme_model::Version;
use vme_reading::{EngineFault, Status, hand_on, plan_of};
use vme_seeds::Walk;
use vme_slots::Plan;
use vme_text::Text;
use vme_trace::{Fault, flush, header_line, line_of, put};

/// Draws edges and makes them, so many, or until none is open. The line of each is put to a text,
/// which is written whenever it has no room for the next.
fn take<W: Write>(walk: &mut Walk, edges: u32, text: &mut Text, out: &mut W) -> Result<(), Fault>
    ensures { ListsOn walk.old.state text.old (W.contents out.old) (W.contents out.new)
        (walked edges walk.old).state walk.new.state text.new result }
{
    for _made in 0..edges {
        match walk.draw() {
            Some(edge) => {
                walk.make(edge);
                put_line(text, &edge, out)?;
            }
            None => return Ok(()),
        }
    }
    Ok(())
}

/// Draws edges and makes them, at most so many, up to a goal if there is one. Returns how the walk
/// ended.
fn walk_to<W: Write>(
    walk: &mut Walk,
    goal: Option<Goal>,
    edges: u32,
    text: &mut Text,
    out: &mut W,
) -> Result<Ending, Fault>
    requires { walk.old.state.history ≡ [] }
    ensures ending { IfOk result (λ ending. ending ≡ (walk_to goal edges walk.old).ending) }
    ensures listed { ListsOn walk.old.state text.old (W.contents out.old) (W.contents out.new)
        (walk_to goal edges walk.old).walk.state walk.new.state text.new result }
{
    match goal {
        Some(goal) => seek(walk, goal, edges, text, out),
        None => {
            take(walk, edges, text, out)?;
            Ok(Ending::Over)
        }
    }
}

/// Writes the line of the edge that was missed, if one was.
fn write_missed<W: Write>(ending: Ending, out: &mut W) -> Result<(), Fault>
    requires { IsWellFormed ending }
    ensures ok { OnOk result
        (Appends (W.contents out.old) (W.contents out.new) (edge_lines (missed_of ending))) }
    ensures front { OnErr result
        (AppendsFront (W.contents out.old) (W.contents out.new) (edge_lines (missed_of ending))) }
    ensures fault { IfErr result (λ fault. fault ≡ Fault.Write) }
{
    match ending {
        Ending::Missed(edge) => put(out, line_of(&edge).as_slice()),
        Ending::Over | Ending::Came => Ok(()),
    }
}

/// Writes the lines of the edges of a walk, as they are made, and of the one that is missed.
fn write_edges<W: Write>(
    walk: &mut Walk,
    goal: Option<Goal>,
    edges: u32,
    out: &mut W,
) -> Result<Ending, Fault>
    requires { walk.old.state.history ≡ [] }
    ensures ending { IfOk result (λ ending. ending ≡ (walk_to goal edges walk.old).ending) }
    ensures state { OnOk result
        (walk.new.state ≡ (walk_to goal edges walk.old).walk.state) }
    ensures ok { OnOk result
        (Appends (W.contents out.old) (W.contents out.new)
        (ended_lines (walk_to goal edges walk.old))) }
    ensures front { OnErr result
        (AppendsFront (W.contents out.old) (W.contents out.new)
        (ended_lines (walk_to goal edges walk.old))) }
    ensures fault { IfErr result (λ fault. fault ≡ Fault.Write) }
{
    let mut text = Text::new();
    let ending = walk_to(walk, goal, edges, &mut text, out)?;
    hand_on(&mut text, out)?;
    write_missed(ending, out)?;
    Ok(ending)
}

/// Writes the trace of a walk: the header line, and the line of each edge as it is made.
///
/// # Errors
/// X8 if the output cannot be written; a prefix of the trace was then written.
#[inline(never)]
pub(crate) fn write_walk<W: Write>(
    walk: &mut Walk,
    goal: Option<Goal>,
    edges: u32,
    out: &mut W,
) -> Result<Ending, Fault>
    requires { walk.old.state.history ≡ [] }
    ensures ending { IfOk result (λ ending. ending ≡ (walk_to goal edges walk.old).ending) }
    ensures state { OnOk result
        (walk.new.state ≡ (walk_to goal edges walk.old).walk.state) }
    ensures ok { OnOk result
        (Appends (W.contents out.old) (W.contents out.new)
        (ended_text walk.old.state.version (walk_to goal edges walk.old))) }
    ensures front { OnErr result
        (AppendsFront (W.contents out.old) (W.contents out.new)
        (ended_text walk.old.state.version (walk_to goal edges walk.old))) }
    ensures fault { IfErr result (λ fault. fault ≡ Fault.Write) }
{
    put(out, header_line(walk.bus().version()))?;
    let ending = write_edges(walk, goal, edges, out)?;
    flush(out)?;
    Ok(ending)
}

/// The status of a walk that made so many edges, of so many that were asked for, and ended so.
fn status_to(goal: Option<Goal>, edges: u32, made: u32, ending: Ending) -> Status
    ensures { result ≡ status_to goal edges made ending }
{
    match (goal, ending) {
        (None, _) => status_of(made, edges),
        (Some(_), Ending::Over) => Status::Limit,
        (Some(_), Ending::Came | Ending::Missed(_)) => Status::Done,
    }
}

/// Draws edges and makes them, at most so many and up to the goal, on a walk that has none, and
/// writes their trace.
///
/// # Errors
/// X8 if the output cannot be written.
pub(crate) fn draw_trace<W: Write>(
    walk: &mut Walk,
    edges: u32,
    until: Option<Goal>,
    out: &mut W,
) -> Result<Status, EngineFault>
    requires { walk.old
        ≡ at_start (bench walk.old.state.plan walk.old.state.version) walk.old.seed }
    ensures outcome { Draws walk.old.state.version walk.old.seed edges until
        (W.contents out.old) (W.contents out.new) walk.old.state.plan result }
    ensures safe { OnOk result
        (WalksSafely walk.old.state.plan walk.old.state.version walk.old.seed edges until) }
{
    match write_walk(walk, until, edges, out) {
        Ok(ending) => {
            let bus = walk.bus();
            bus.laws();
            bus.safety();
            Ok(status_to(until, edges, bus.len(), ending))
        }
        Err(fault) => Err(EngineFault::Trace(fault)),
    }
}

/// Draws edges on a plan by the numbers of a seed, at most so many and up to the goal, and writes
/// their trace. Its frame is large.
///
/// # Errors
/// X8 if the output cannot be written.
#[inline(never)]
fn draw_on<W: Write>(
    plan: Plan,
    edges: u32,
    seed: u64,
    until: Option<Goal>,
    out: &mut W,
    version: Version,
) -> Result<Status, EngineFault>
    ensures outcome { Draws version seed edges until (W.contents out.old) (W.contents out.new)
        plan result }
    ensures safe { OnOk result (WalksSafely plan version seed edges until) }
{
    let walk = &mut Walk::new(plan, version, seed);
    draw_trace(walk, edges, until, out)
}

/// Draws edges of a scenario's bus among all that the rules allow, by the numbers of a seed, and
/// writes their trace: at most `edges`, and with a goal up to the edge that brings it about. If the
/// goal is a condition, it ends with the first edge that this condition alone refuses, which is
/// written after the others and counts as one of them.
///
/// The status without a goal is `Limit` if `edges` of them were made, otherwise `Done`; with one it
/// is `Done` if the goal came, otherwise `Limit`.
///
/// The lines are written as the edges are made, and no edge is kept.
///
/// # Errors
/// F2 and the faults of the scenario, before anything is written; X8 if the output cannot be
/// written.
pub fn drive_drawn<W: Write>(
    alloc: Global,
    scenario: &[u8],
    edges: u32,
    seed: u64,
    until: Option<Goal>,
    out: &mut W,
    version: Version,
) -> Result<Status, EngineFault>
    ensures outcome { Lent scenario.now
        (Keeps (W.contents out.old) (W.contents out.new))
        (Draws version seed edges until (W.contents out.old) (W.contents out.new))
        result }
    ensures safe { OnOk result (DrawsSafely scenario.now version seed edges until) }
{
    let plan = plan_of(alloc, scenario)?;
    draw_on(plan, edges, seed, until, out, version)
}
