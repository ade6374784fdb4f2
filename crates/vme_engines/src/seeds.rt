//! Seeds, tried in order until the walk of one comes to a goal.
ghost use Rattle.std.specs.Prelude.{◌≡◌, ◌≤◌, ⊤, Some, IfOk, IfSome, IsTrue};
ghost use Rattle.std.specs.Io.KnownBytes.{Keeps};
ghost use Rattle.vme_engines.specs.Outcomes.{Lent};
ghost use Rattle.vme_engines.specs.Drawing.{DrawsSafely};
ghost use Rattle.vme_engines.specs.Found.{Attempts, Finds, Sees, found_answer, tried_answer};

use crate::EngineFault;
use crate::draws::{drive_drawn, write_walk};
use crate::plans::plan_of;
use std::alloc::Global;
use std::io::{Write, sink};
use vme_draws::Walk;
use vme_goals::Goal;
use vme_model::Version;

/// Who hears which seeds are tried.
pub trait Progress {
    /// This seed is tried next.
    fn trying(&mut self, seed: u64);
}

/// Whether the walk of a seed comes to the goal. Nothing is written of it.
fn comes_to(
    alloc: Global,
    scenario: &[u8],
    edges: u32,
    seed: u64,
    goal: Goal,
    version: Version,
) -> Result<bool, EngineFault>
    ensures { Lent scenario.now ⊤ (Sees version seed edges goal result) (tried_answer result) }
{
    let plan = plan_of(alloc, scenario)?;
    let mut walk = Walk::new(plan, version, seed);
    match write_walk(&mut walk, Some(goal), edges, &mut sink()) {
        Ok(ending) => Ok(!ending.is_over()),
        Err(fault) => Err(EngineFault::Trace(fault)),
    }
}

/// Whether the walk of a seed comes to the goal; its trace is then written.
///
/// It is drawn once to see that, and once to be written.
fn attempt<W: Write>(
    alloc: Global,
    scenario: &[u8],
    edges: u32,
    seed: u64,
    goal: Goal,
    out: &mut W,
    version: Version,
) -> Result<bool, EngineFault>
    ensures outcome { Lent scenario.now
        (Keeps (W.contents out.old) (W.contents out.new))
        (Attempts version seed edges goal (W.contents out.old) (W.contents out.new) result)
        (tried_answer result) }
    ensures safe { IfOk result (λ has_come. IsTrue has_come
        → DrawsSafely scenario.now version seed edges (Some goal)) }
{
    if !comes_to(alloc, scenario, edges, seed, goal, version)? {
        return Ok(false);
    }
    drive_drawn(alloc, scenario, edges, seed, Some(goal), out, version)?;
    Ok(true)
}

/// Draws edges of a scenario's bus by one seed after the other, from the first to the last, until the walk of one
/// comes to the goal within `edges`. Its trace is written, and the seed is answered. Where none comes to it, nothing is
/// written, and the answer is none. Each seed is told to `progress` before it is tried.
///
/// Errors: F2 and the faults of the scenario, before anything is written; X8 where the output cannot be written.
pub fn drive_found<W: Write, P: Progress>(
    alloc: Global,
    scenario: &[u8],
    edges: u32,
    first_seed: u64,
    last_seed: u64,
    goal: Goal,
    out: &mut W,
    version: Version,
    progress: &mut P,
) -> Result<Option<u64>, EngineFault>
    requires { first_seed ≤ last_seed }
    ensures outcome { Lent scenario.now
        (Keeps (W.contents out.old) (W.contents out.new))
        (Finds version edges first_seed last_seed goal
        (W.contents out.old) (W.contents out.new) result)
        (found_answer result) }
    ensures safe { IfOk result (λ found. IfSome found (λ seed.
        DrawsSafely scenario.now version seed edges (Some goal))) }
{
    let mut seed = first_seed;
    loop {
        progress.trying(seed);
        let has_come = attempt(alloc, scenario, edges, seed, goal, out, version)?;
        if has_come {
            return Ok(Some(seed));
        }
        if seed == last_seed {
            return Ok(None);
        }
        seed += 1;
    }
}
