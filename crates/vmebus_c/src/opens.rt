//! Opening the plan of a scenario, and the faults that stand in its way: their numbers and lines.
ghost use Rattle.std.specs.Prelude.{◌≡◌, ◌<◌, ◌≤◌, Ok, Some, IfOk, IfErr, length};
ghost use Rattle.vme_scenario.specs.Format.{scenario};
ghost use Rattle.vmebus_c.specs.Named.{version_of_number};
ghost use Rattle.vmebus_c.specs.Faults.{open_number};
ghost use Rattle.vmebus_c.specs.Opened.{scenario_limit, plan_number, scenario_number, IsFault};
ghost use Rattle.vmebus_c.specs.Rooms.{HasShort, most_fault};

use crate::named::version_of;
use crate::rooms::write_text;
use std::alloc::Global;
use thiserror::Error;
use vme_escapes::OneLine;
use vme_model::{PlanError, Version};
use vme_scenario::ScenarioError;
use vme_slots::Plan;

/// The most bytes of a scenario.
const SCENARIO_LIMIT: usize = 1_048_576;

/// The most bytes of the line of a fault.
const MOST_LINE: usize = 1024;

/// Why no bus is opened.
#[derive(Debug, Drop, Error)]
pub(crate) enum OpenError {
    /// X1: there is no such version of the rules.
    #[error("X1 the version of the rules is neither 1 nor 2")]
    NoVersion,
    /// F2: the scenario has more than 1,048,576 bytes.
    #[error("F2 the scenario is too long")]
    TooLong,
    #[error("{0}")]
    Scenario(ScenarioError),
}

/// The number of a plan's fault: 1 to 9 for P1 to P9.
fn plan_number(fault: PlanError) -> u32
    ensures number { result ≡ plan_number fault }
    ensures some { 0 < result }
{
    match fault {
        PlanError::NoController => 1,
        PlanError::TooManySlots { .. } => 2,
        PlanError::SlotTwice { .. } => 3,
        PlanError::ChainBroken { .. } => 4,
        PlanError::LevelNotServed { .. } => 5,
        PlanError::HandlerTwice { .. } => 6,
        PlanError::HandlerWithoutRequester { .. } => 7,
        PlanError::OutOfRange { .. } => 8,
        PlanError::Memory => 9,
    }
}

/// The number of a scenario's fault: that of its plan, or 11 to 14 and 16 for Q1 to Q4 and Q6.
fn scenario_number(fault: &ScenarioError) -> u32
    ensures number { result ≡ scenario_number fault.now }
    ensures some { 0 < result }
{
    match fault {
        ScenarioError::NotToml => 11,
        ScenarioError::UnknownKey { .. } => 12,
        ScenarioError::Missing { .. } => 13,
        ScenarioError::BadValue { .. } => 14,
        ScenarioError::Plan(fault) => plan_number(*fault),
        ScenarioError::Memory => 16,
    }
}

/// The number of a fault: 31 for X1, 20 for F2, and otherwise that of the scenario.
pub(crate) fn fault_number(fault: &OpenError) -> u32
    ensures number { result ≡ open_number fault.now }
    ensures some { 0 < result }
{
    match fault {
        OpenError::NoVersion => 31,
        OpenError::TooLong => 20,
        OpenError::Scenario(fault) => scenario_number(fault),
    }
}

/// The version of a number, and the plan that a scenario describes.
///
/// # Errors
/// X1 if there is no such version; F2 if the scenario is too long; or the scenario's first fault.
pub(crate) fn opened(alloc: Global, version: u32, text: &[u8]) -> Result<(Version, Plan), OpenError>
    ensures version { IfOk result (λ x. version_of_number version ≡ Some x.0) }
    ensures short { IfOk result (λ x. length text.now ≤ scenario_limit) }
    ensures plan { IfOk result (λ x. scenario text.now ≡ Ok x.1) }
    ensures fault { IfErr result (λ e.
        IsFault (version_of_number version) text.now (open_number e)) }
{
    let Some(version) = version_of(version) else {
        return Err(OpenError::NoVersion);
    };
    if text.len() > SCENARIO_LIMIT {
        return Err(OpenError::TooLong);
    }
    match vme_scenario::read(alloc, text) {
        Ok(scenario) => Ok((version, scenario.plan)),
        Err(fault) => Err(OpenError::Scenario(fault)),
    }
}

/// Writes the line of a fault, and returns how many bytes it has. If there is no memory for it, it
/// is that of Q6.
pub(crate) fn write_fault(alloc: Global, fault: &OpenError, room: &mut [u8]) -> u32
    ensures few { HasShort most_fault result room.old room.new }
    ensures some { 0 < result }
{
    match format!(in alloc; "{}", OneLine(fault)) {
        Ok(line) if !line.is_empty() => write_line(line.as_bytes(), room),
        _ => write_line(b"Q6 no memory", room),
    }
}

/// Writes the line, or what it begins with if it has more than 1,024 bytes.
fn write_line(line: &[u8], room: &mut [u8]) -> u32
    requires { 0 < length line.now }
    ensures few { HasShort most_fault result room.old room.new }
    ensures some { 0 < result }
{
    let count = line.len().min(MOST_LINE);
    write_text(room, &line[..count]);
    count as u32
}
