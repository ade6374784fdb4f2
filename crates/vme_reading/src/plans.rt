//! What an engine makes of a scenario before it runs.
ghost use Rattle.std.specs.Prelude.{◌≡◌, ◌≤◌, Ok, IfOk, IfErr, length};
ghost use Rattle.vme_scenario.specs.Format.{scenario};
ghost use Rattle.vme_reading.specs.Outcomes.{scenario_limit};
ghost use Rattle.vme_reading.specs.Steps.{IsNoPlan};

use crate::{EngineFault, SCENARIO_LIMIT};
use std::alloc::Global;
use vme_slots::Plan;

/// The plan of a scenario's text.
///
/// # Errors
/// F2 if the text has more than 1,048,576 bytes, else the first fault of the scenario.
#[inline(never)]
pub fn plan_of(alloc: Global, text: &[u8]) -> Result<Plan, EngineFault>
    ensures ok { IfOk result
        (λ p. (length text.now ≤ scenario_limit) × (scenario text.now ≡ Ok p)) }
    ensures fault { IfErr result (IsNoPlan text.now) }
{
    if text.len() > SCENARIO_LIMIT {
        return Err(EngineFault::TooLong);
    }
    match vme_scenario::read(alloc, text) {
        Ok(scenario) => Ok(scenario.plan),
        Err(fault) => Err(EngineFault::Scenario(fault)),
    }
}
