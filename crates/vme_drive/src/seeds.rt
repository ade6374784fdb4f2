//! Seeds, tried in order until the walk of one comes to a goal.
ghost use Rattle.std.specs.Prelude.{◌≡◌, ◌≤◌, [], IfErr, IfOk, IfSome, IsTrue, OnOk, false, not};
ghost use Rattle.std.specs.Io.KnownBytes.{Keeps};
ghost use Rattle.vme_reading.specs.Outcomes.{Lent};
ghost use Rattle.vme_drive.specs.Drawing.{DrawsSafely, WalksSafely};
ghost use Rattle.vme_drive.specs.Found.{Attempts, Finds, found_answer};
ghost use Rattle.vme_drive.specs.Seeking.{is_over, walk_to};

use crate::draws::{draw_trace, write_walk};
use crate::listening::{Listener, Progress};
use std::alloc::Global;
use std::io::Write;
use vme_goals::Goal;
use vme_model::Version;
use vme_reading::{EngineFault, plan_of};
use vme_seeds::Walk;
use vme_slots::Plan;
use vme_trace::Fault;

/// Whether a walk comes to the goal. Nothing is written of it.
fn comes_to<P: Progress>(
    walk: &mut Walk,
    edges: u32,
    seed: u64,
    goal: Goal,
    progress: &mut P,
) -> Result<bool, EngineFault>
    requires { walk.old.state.history ≡ [] }
    ensures answer { IfOk result (λ has_come.
        has_come ≡ not (is_over (walk_to (Some goal) edges walk.old).ending)) }
    ensures state { OnOk result
        (walk.new.state ≡ (walk_to (Some goal) edges walk.old).walk.state) }
    ensures fault { IfErr result (λ fault. fault ≡ EngineFault.Trace Fault.Write) }
{
    let listener = &mut Listener::new(progress, seed);
    match write_walk(walk, Some(goal), edges, listener) {
        Ok(ending) => Ok(!ending.is_over()),
        Err(fault) => Err(EngineFault::Trace(fault)),
    }
}

/// Whether the walk of a seed comes to the goal; its trace is then written.
///
/// It is drawn once to see that, and once to be written. The walk may have any edges before.
fn attempt<W: Write, P: Progress>(
    walk: &mut Walk,
    edges: u32,
    seed: u64,
    goal: Goal,
    out: &mut W,
    progress: &mut P,
) -> Result<bool, EngineFault>
    ensures outcome { Attempts walk.old.state.plan walk.old.state.version seed edges goal
        (W.contents out.old) (W.contents out.new) result }
    ensures safe { IfOk result (λ has_come. IsTrue has_come
        → WalksSafely walk.old.state.plan walk.old.state.version seed edges (Some goal)) }
    ensures kept { IfOk result (λ has_come. has_come ≡ false
        → (walk.new.state.plan ≡ walk.old.state.plan)
        × (walk.new.state.version ≡ walk.old.state.version)) }
{
    walk.restart(seed);
    if !comes_to(walk, edges, seed, goal, progress)? {
        return Ok(false);
    }
    walk.restart(seed);
    draw_trace(walk, edges, Some(goal), out)?;
    Ok(true)
}

/// Tries one seed after the other on a walk, from the first to the last, until one comes to the
/// goal: that seed, whose trace is then written. None if none does.
fn search<W: Write, P: Progress>(
    walk: &mut Walk,
    edges: u32,
    first_seed: u64,
    last_seed: u64,
    goal: Goal,
    out: &mut W,
    progress: &mut P,
) -> Result<Option<u64>, EngineFault>
    requires { first_seed ≤ last_seed }
    ensures outcome { Finds walk.old.state.version edges first_seed last_seed goal
        (W.contents out.old) (W.contents out.new) result walk.old.state.plan (found_answer result) }
    ensures safe { IfOk result (λ found. IfSome found (λ seed.
        WalksSafely walk.old.state.plan walk.old.state.version seed edges (Some goal))) }
{
    let mut seed = first_seed;
    loop {
        progress.trying(seed);
        let has_come = attempt(walk, edges, seed, goal, out, progress)?;
        if has_come {
            return Ok(Some(seed));
        }
        if seed == last_seed {
            return Ok(None);
        }
        seed += 1;
    }
}

/// Tries one seed after the other on a plan, from the first to the last, until one comes to the
/// goal: that seed, whose trace is then written. None if none does. Its frame is large.
#[inline(never)]
fn search_on<W: Write, P: Progress>(
    plan: Plan,
    edges: u32,
    first_seed: u64,
    last_seed: u64,
    goal: Goal,
    out: &mut W,
    version: Version,
    progress: &mut P,
) -> Result<Option<u64>, EngineFault>
    requires { first_seed ≤ last_seed }
    ensures outcome { Finds version edges first_seed last_seed goal
        (W.contents out.old) (W.contents out.new) result plan (found_answer result) }
    ensures safe { IfOk result (λ found. IfSome found (λ seed.
        WalksSafely plan version seed edges (Some goal))) }
{
    let walk = &mut Walk::new(plan, version, first_seed);
    search(walk, edges, first_seed, last_seed, goal, out, progress)
}

/// Draws edges of a scenario's bus by one seed after the other, from the first to the last, until
/// the walk of one reaches the goal within `edges`. Its trace is written, and the seed is answered.
/// If none reaches it, nothing is written, and the answer is none. The scenario is read once,
/// before the first seed. `progress` hears of each seed before it is tried, and while it is tried
/// of how many edges were drawn.
///
/// # Errors
/// F2 and the faults of the scenario, before a seed is tried; X8 if the output cannot be written.
pub fn drive_found<W: Write, P: Progress>(
    alloc: Global,
    scenario: &[u8],
    edges: u32,
    first_seed: u64,
    last_seed: u64,
    goal: Goal,
    out: &mut W,
    version: Version,
    progress: &mut P,
) -> Result<Option<u64>, EngineFault>
    requires { first_seed ≤ last_seed }
    ensures outcome { Lent scenario.now
        (Keeps (W.contents out.old) (W.contents out.new))
        (Finds version edges first_seed last_seed goal
        (W.contents out.old) (W.contents out.new) result)
        (found_answer result) }
    ensures safe { IfOk result (λ found. IfSome found (λ seed.
        DrawsSafely scenario.now version seed edges (Some goal))) }
{
    let plan = plan_of(alloc, scenario)?;
    search_on(
        plan, edges, first_seed, last_seed, goal, out, version, progress,
    )
}
