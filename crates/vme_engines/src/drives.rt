//! Letting the drivers of a backplane make edges in turn.
ghost use Rattle.std.specs.Prelude.{◌≡◌, ◌==◌, OnOk, OnErr, IfErr, length, if◌then◌else◌};
ghost use Rattle.std.specs.Io.KnownBytes.{Appends, Keeps};
ghost use Rattle.vme_model.specs.Plan.{drivers};
ghost use Rattle.vme_model.specs.History.{in_order};
ghost use Rattle.vme_model.specs.Offers.{turn, turns, rounds};
ghost use Rattle.vme_model.specs.Text.{text, edge_lines};
ghost use Rattle.vme_trace.specs.Writing.{AppendsFront};
ghost use Rattle.vme_engines.specs.Outcomes.{Lent};
ghost use Rattle.vme_engines.specs.declared.Status.TheVariants.{Done, Limit};
ghost use Rattle.vme_engines.specs.Driving.{Drives, DrivesSafely};

use crate::edges::push_edge;
use crate::lines::{hand_on, make_room};
use crate::plans::{history_region, history_room, plan_of};
use crate::{EngineFault, Status};
use std::alloc::Global;
use std::io::Write;
use vme_backplane::Backplane;
use vme_model::{Driver, Version};
use vme_text::Text;
use vme_trace::{Fault, flush, header_line, put};

/// A driver's turn: it makes an offer, unless there is none or enough edges were made.
fn take_turn(backplane: &mut Backplane, round: u32, edges: u32, driver: Driver)
    ensures { backplane.new ≡ turn round edges backplane.old driver }
{
    if backplane.len() == edges {
        return;
    }
    let _ = backplane.make_offer(driver, round);
}

/// A turn of each driver.
fn take_turns(backplane: &mut Backplane, round: u32, edges: u32, drivers: &[Driver])
    ensures { backplane.new ≡ turns round edges backplane.old drivers.now }
{
    for driver in drivers {
        take_turn(backplane, round, edges, *driver);
    }
}

/// Rounds, until enough edges were made or a round makes none.
fn take_rounds(backplane: &mut Backplane, edges: u32, all: &[Driver])
    requires { all.now ≡ drivers backplane.old.plan }
    ensures { backplane.new ≡ rounds backplane.old edges }
{
    for round in 0..edges {
        let before = backplane.len();
        take_turns(backplane, round, edges, all);
        if backplane.len() == before {
            return;
        }
    }
}

/// Writes the lines of the edges that were made.
pub(crate) fn write_lines<W: Write>(backplane: &Backplane, out: &mut W) -> Result<(), Fault>
    ensures ok { OnOk result
        (Appends (W.contents out.old) (W.contents out.new)
        (edge_lines (in_order backplane.now.history))) }
    ensures front { OnErr result
        (AppendsFront (W.contents out.old) (W.contents out.new)
        (edge_lines (in_order backplane.now.history))) }
    ensures fault { IfErr result (λ fault. fault ≡ Fault.Write) }
{
    backplane.laws();
    let mut text = Text::new();
    for place in 0..backplane.len() {
        make_room(&mut text, out)?;
        push_edge(&mut text, &backplane.edge_at(place));
    }
    hand_on(&mut text, out)
}

/// Writes the trace of the edges that were made on a backplane: the header line of its version and a line for each edge.
///
/// Errors: X8 where the output cannot be written; a prefix of the trace was then written.
pub fn write_history<W: Write>(backplane: &Backplane, out: &mut W) -> Result<(), Fault>
    ensures ok { OnOk result
        (Appends (W.contents out.old) (W.contents out.new)
        (text backplane.now.version (in_order backplane.now.history))) }
    ensures front { OnErr result
        (AppendsFront (W.contents out.old) (W.contents out.new)
        (text backplane.now.version (in_order backplane.now.history))) }
    ensures fault { IfErr result (λ fault. fault ≡ Fault.Write) }
{
    put(out, header_line(backplane.version()))?;
    write_lines(backplane, out)?;
    flush(out)
}

/// The status of an engine that made so many edges, of so many that were asked for.
pub fn status_of(made: u32, edges: u32) -> Status
    ensures { result ≡ (if made == edges then Limit else Done) }
{
    if made == edges {
        Status::Limit
    } else {
        Status::Done
    }
}

/// Lets the drivers of a scenario make edges in turn, at most `edges`, and writes their trace.
///
/// The status is `Limit` where `edges` of them were made, and else `Done`. A driver with k offers makes, in round r, the
/// one at place `r mod k`; a round that makes no edge is the last.
///
/// Errors: F2, the faults of the scenario and F3, before anything is written; X8 where the output cannot be written.
pub fn drive<W: Write>(
    alloc: Global,
    scenario: &[u8],
    edges: u32,
    out: &mut W,
    version: Version,
) -> Result<Status, EngineFault>
    ensures outcome { Lent scenario.now
        (Keeps (W.contents out.old) (W.contents out.new))
        (Drives version edges (W.contents out.old) (W.contents out.new))
        result }
    ensures safe { OnOk result (DrivesSafely scenario.now version edges) }
{
    let plan = plan_of(alloc, scenario)?;
    let mut region = history_region(alloc)?;
    let room = history_room(alloc, &mut region)?;
    let all = plan.drivers();
    let mut backplane = Backplane::new(plan, room, version);
    take_rounds(&mut backplane, edges, &all);
    backplane.laws();
    backplane.safety();
    match write_history(&backplane, out) {
        Ok(()) => Ok(status_of(backplane.len(), edges)),
        Err(fault) => Err(EngineFault::Trace(fault)),
    }
}
