//! A run, from a scenario to a trace.
ghost use Rattle.std.specs.Prelude.{◌≡◌, ◌≤◌, ◌+◌, ◌*◌, [], Ok, IfOk, IfErr, length, min};
ghost use Rattle.vme_model.specs.Report.{at_power_up, trace_limit};
ghost use Rattle.vme_run.specs.Between.{IsNotPlayed, IsPlayed, IsRead, IsUnread, IsWritten};
ghost use Rattle.vme_run.specs.Running.{Runs};

use crate::RunFault;
use crate::boards::play;
use crate::histories::write_history;
use std::alloc::Global;
use std::io::Write;
use std::sync::Wait;
use std::thread::Threads;
use vme_arena::{Region, Rest};
use vme_backplane::{Backplane, Trace, TraceError};
use vme_drive::status_of;
use vme_lock::Bounds;
use vme_model::Version;
use vme_reading::{EngineFault, Status, plan_of};
use vme_slots::Plan;

/// The plan of a scenario's text.
///
/// # Errors
/// F2 if the text is too long; otherwise the first fault of the scenario.
fn plan_for(alloc: Global, text: &[u8]) -> Result<Plan, RunFault>
    ensures ok { IfOk result (IsRead text.now) }
    ensures fault { IfErr result (IsUnread text.now) }
{
    match plan_of(alloc, text) {
        Ok(plan) => Ok(plan),
        Err(fault) => Err(RunFault::Engine(fault)),
    }
}

/// The same plan once more. Errors: F3.
fn plan_again(alloc: Global, plan: &Plan) -> Result<Plan, RunFault>
    ensures plan { IfOk result (λ again. again ≡ plan.now) }
    ensures fault { IfErr result (λ f. f ≡ RunFault.Engine EngineFault.NoMemory) }
{
    let (slots, arbiter) = (plan.slots(), plan.arbiter());
    match Plan::new(alloc, slots, plan.rows(), plan.jumpers(), arbiter) {
        Ok(again) => Ok(again),
        Err(_) => Err(RunFault::Engine(EngineFault::NoMemory)),
    }
}

/// A backplane at power-up, with room for `edges` edges.
fn backplane_on<'r>(
    alloc: Global,
    rest: &mut Rest<'r>,
    plan: Plan,
    edges: u32,
    version: Version,
) -> Result<Backplane<'r>, TraceError>
    ensures { IfOk result (λ b. b ≡ at_power_up version plan edges) }
{
    let trace = Trace::on(alloc, rest, edges)?;
    Ok(Backplane::new(plan, trace, version))
}

/// The most edges that can be made: one in each turn of the controller and of each slot, and no
/// more than are requested.
fn most_edges(plan: &Plan, edges: u32, turns: u32) -> u32
    ensures { result ≡ min edges (turns * (plan.now.slots + 1)) }
{
    edges.min(turns.saturating_mul(u32::from(plan.slots()) + 1))
}

/// Makes the edges of a closed history once more, on a second backplane. None of them is refused.
fn replay<'r>(closed: &Backplane<'_>, mut second: Backplane<'r>) -> Result<Backplane<'r>, RunFault>
    requires { second ≡ record closed.now { history = [] } }
    ensures { result ≡ Ok closed.now }
{
    closed.laws();
    for at in 0..closed.len() {
        if second.step(closed.edge_at(at)).is_err() {
            return Err(RunFault::NotReplayed { at });
        }
    }
    Ok(second)
}

/// Two backplanes of a plan at power-up. Errors: F3.
fn backplanes_on<'r>(
    alloc: Global,
    rest: &mut Rest<'r>,
    plan: Plan,
    edges: u32,
    version: Version,
) -> Result<(Backplane<'r>, Backplane<'r>), RunFault>
    ensures first { IfOk result (λ two. two.0 ≡ at_power_up version plan edges) }
    ensures second { IfOk result (λ two. two.1 ≡ at_power_up version plan edges) }
    ensures fault { IfErr result (λ f. f ≡ RunFault.Engine EngineFault.NoMemory) }
{
    let again = plan_again(alloc, &plan)?;
    let Ok(first) = backplane_on(alloc, rest, plan, edges, version) else {
        return Err(RunFault::Engine(EngineFault::NoMemory));
    };
    let Ok(second) = backplane_on(alloc, rest, again, edges, version) else {
        return Err(RunFault::Engine(EngineFault::NoMemory));
    };
    Ok((first, second))
}

/// What the boards of a plan made, after it was made once more on a second backplane.
fn made_twice<'r, R: Threads + Wait + Sync>(
    rt: &R,
    alloc: Global,
    rest: &mut Rest<'r>,
    plan: Plan,
    bounds: Bounds,
    version: Version,
) -> Result<Backplane<'r>, RunFault>
    requires { bounds.edges ≤ trace_limit }
    ensures made { IfOk result (IsPlayed bounds.turns (at_power_up version plan bounds.edges)) }
    ensures fault { IfErr result
        (IsNotPlayed bounds.turns (at_power_up version plan bounds.edges)) }
{
    match backplanes_on(alloc, rest, plan, bounds.edges, version) {
        Err(fault) => Err(fault),
        Ok((first, second)) => match play(rt, alloc, first, bounds) {
            Err(fault) => Err(fault),
            Ok(closed) => replay(&closed, second),
        },
    }
}

/// Writes the trace of what was made.
fn write_made<W: Write>(made: &Backplane<'_>, edges: u32, out: &mut W) -> Result<Status, RunFault>
    ensures { IsWritten made.now edges (W.contents out.old) (W.contents out.new) result }
{
    match write_history(made, out) {
        Ok(()) => Ok(status_of(made.len(), edges)),
        Err(fault) => Err(RunFault::Engine(EngineFault::Trace(fault))),
    }
}

/// Runs the boards of a scenario, each in a thread of its own for `turns` turns, and writes the
/// trace of their edges, at most `edges`. It may wait for other threads.
///
/// `edges` is 1 to 1,048,576, and `turns` is 1 to 1,000,000. The status is `Limit` if `edges` edges
/// were made, and otherwise `Done`. Before anything is written, what the boards made is made once
/// more on a second backplane.
///
/// # Errors
/// F2, the faults of the scenario, F3, L3 and L4: then nothing is written. X8 if the output cannot
/// be written: then a prefix of the trace is written. L6 never comes.
#[tactic(auto, using(crate::proofs::WhatIsLeft::runs_out))]
pub fn run<R: Threads + Wait + Sync, W: Write>(
    rt: &R,
    alloc: Global,
    scenario: &[u8],
    edges: u32,
    turns: u32,
    out: &mut W,
    version: Version,
) -> Result<Status, RunFault>
    requires limits { (edges ≤ trace_limit) × (turns ≤ 1000000) }
    ensures { Runs scenario.now version edges turns
        (W.contents out.old) (W.contents out.new) result }
{
    let plan = plan_for(alloc, scenario)?;
    let most = most_edges(&plan, edges, turns);
    let Ok(mut region) = Region::new(alloc, 2 * Trace::bytes(most)) else {
        return Err(RunFault::Engine(EngineFault::NoMemory));
    };
    let bounds = Bounds { turns, edges: most };
    match made_twice(rt, alloc, &mut region.rest(), plan, bounds, version) {
        Ok(made) => write_made(&made, edges, out),
        Err(fault) => Err(fault),
    }
}
