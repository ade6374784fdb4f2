//! Letting the drivers of a backplane make edges in turn.
ghost use Rattle.std.specs.Prelude.{◌≡◌, ◌≤◌, ◌<◌, Ok, IfOk, IfErr, List, length};
ghost use Rattle.vme_model.specs.Plan.{drivers};
ghost use Rattle.vme_model.specs.History.{in_order};
ghost use Rattle.vme_model.specs.Offers.{turn, turns, rounds};
ghost use Rattle.vme_model.specs.Report.{trace_limit};
ghost use Rattle.vme_engines.specs.Streams.{WroteNothing, streams};
ghost use Rattle.vme_engines.specs.Outcomes.{Lent, Drives};

use crate::plans::{history_room, plan_of};
use crate::{EngineFault, Status};
use std::alloc::Global;
use std::io::Write;
use vme_backplane::Backplane;
use vme_model::{Driver, Edge, Version};
use vme_slots::Plan;
use vme_trace::write;

/// The drivers of a plan: the controller, then each board by slot.
fn drivers_of(alloc: Global, plan: &Plan) -> Result<Vec<Driver>, EngineFault>
    ensures ok { IfOk result (λ list. list.items ≡ drivers plan.now) }
    ensures fault { IfErr result (λ fault. fault ≡ EngineFault.NoMemory) }
{
    let mut list = Vec::new(alloc);
    if list.push(Driver::Controller).is_err() {
        return Err(EngineFault::NoMemory);
    }
    for slot in 1..=plan.slots() {
        if plan.row(slot).is_some() && list.push(Driver::Slot(slot)).is_err() {
            return Err(EngineFault::NoMemory);
        }
    }
    Ok(list)
}

/// A driver's turn: it makes the offer of the round, unless there is none or enough edges were made.
fn take_turn(backplane: &mut Backplane, round: u32, edges: u32, driver: Driver)
    ensures { backplane.new ≡ turn round edges backplane.old driver }
{
    if backplane.len() == edges {
        return;
    }
    let offers = backplane.offers(driver);
    if offers.is_empty() {
        return;
    }
    let place = round as usize % offers.len();
    let _ = backplane.step(offers[place]);
}

/// A turn of each driver.
fn take_turns(backplane: &mut Backplane, round: u32, edges: u32, drivers: &[Driver])
    ensures { backplane.new ≡ turns round edges backplane.old drivers.now }
{
    for driver in drivers {
        take_turn(backplane, round, edges, *driver);
    }
}

/// Rounds, until enough edges were made or a round made none.
fn take_rounds(backplane: &mut Backplane, edges: u32, list: &[Driver])
    requires { list.now ≡ drivers backplane.old.plan }
    ensures { backplane.new ≡ rounds backplane.old edges }
{
    for round in 0..edges {
        let before = backplane.len();
        take_turns(backplane, round, edges, list);
        if backplane.len() == before {
            return;
        }
    }
}

/// The edges that were made, in the order of time.
fn made(alloc: Global, backplane: &Backplane) -> Result<Vec<Edge>, EngineFault>
    ensures ok { IfOk result (λ list. list.items ≡ in_order backplane.now.history) }
    ensures fault { IfErr result (λ fault. fault ≡ EngineFault.NoMemory) }
{
    let mut list = Vec::new(alloc);
    for place in 0..backplane.len() {
        if list.push(backplane.edge_at(place)).is_err() {
            return Err(EngineFault::NoMemory);
        }
    }
    Ok(list)
}

/// Lets the drivers of a scenario make edges in turn, at most so many, and writes their trace.
///
/// The status is `Limit` where as many edges were made. Errors: F2, the faults of the scenario and F3, before anything
/// is written; X8 where the output cannot be written.
pub fn drive<W: Write>(
    alloc: Global,
    scenario: &[u8],
    edges: u32,
    version: Version,
    out: &mut W,
) -> Result<Status, EngineFault>
    requires { edges ≤ trace_limit }
    ensures { Lent scenario.now (Keeps (W.contents out.old) (W.contents out.new)) (Drives version edges (W.contents out.old) (W.contents out.new)) result }
{
    let plan = plan_of(alloc, scenario)?;
    let room = history_room(alloc)?;
    let list = drivers_of(alloc, &plan)?;
    let mut backplane = Backplane::new(plan, room, version);
    take_rounds(&mut backplane, edges, &list);
    let history = made(alloc, &backplane)?;
    write_history(&backplane, &history, out)?;
    Ok(status_of(backplane.len(), edges))
}
