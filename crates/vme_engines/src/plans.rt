//! What an engine makes of a scenario before it runs.
ghost use Rattle.std.specs.Prelude.{◌≡◌, ◌<◌, ◌≤◌, ◌*◌, Ok, IfOk, IfErr, length};
ghost use Rattle.vme_arena.specs.Stretch.{rounded};
ghost use Rattle.vme_arena.specs.Words.{region_size};
ghost use Rattle.vme_model.specs.Report.{trace_limit};
ghost use Rattle.vme_scenario.specs.Format.{scenario};
ghost use Rattle.vme_engines.specs.Outcomes.{scenario_limit};
ghost use Rattle.vme_engines.specs.Steps.{IsNoPlan};

use crate::{EngineFault, SCENARIO_LIMIT};
use std::alloc::Global;
use vme_arena::Region;
use vme_backplane::Trace;
use vme_model::TRACE_LIMIT;
use vme_slots::Plan;

/// The plan of a scenario's text.
///
/// Errors: F2 where the text has more than 1,048,576 bytes, else the first fault of the scenario.
pub fn plan_of(alloc: Global, text: &[u8]) -> Result<Plan, EngineFault>
    ensures ok { IfOk result
        (λ p. (length text.now ≤ scenario_limit) × (scenario text.now ≡ Ok p)) }
    ensures fault { IfErr result (IsNoPlan text.now) }
{
    if text.len() > SCENARIO_LIMIT {
        return Err(EngineFault::TooLong);
    }
    match vme_scenario::read(alloc, text) {
        Ok(scenario) => Ok(scenario.plan),
        Err(fault) => Err(EngineFault::Scenario(fault)),
    }
}

/// The memory of the longest history, no less and no more.
pub(crate) fn history_region(alloc: Global) -> Result<Region, EngineFault>
    ensures ok { IfOk result (λ region. region_size region ≡ rounded (4 * trace_limit)) }
    ensures fault { IfErr result (λ fault. fault ≡ EngineFault.NoMemory) }
{
    Region::new(alloc, Trace::bytes(TRACE_LIMIT)).map_err(|_| EngineFault::NoMemory)
}

/// Room for it.
pub(crate) fn history_room<'r>(
    alloc: Global,
    region: &'r mut Region,
) -> Result<Trace<'r>, EngineFault>
    ensures ok { IfOk result (λ room. room ≡ trace_limit) }
    ensures fault { IfErr result (λ fault. fault ≡ EngineFault.NoMemory) }
{
    Trace::on(alloc, &mut region.rest(), TRACE_LIMIT).map_err(|_| EngineFault::NoMemory)
}
