//! Goals that the backplane of a scenario never reaches.
ghost use Rattle.std.specs.Prelude.{◌≡◌, IfErr, None, OnOk};
ghost use Rattle.vme_program.specs.CheckingFiles.{OnPlan};
ghost use Rattle.vme_program.specs.Reaching.{IsUnreached, hindrance_to};

use crate::faults::ProgramFault;
use crate::jobs::plan_in;
use vme_goals::Goal;
use vme_reach::hindrance_of;

/// Tests whether nothing hinders the goal on the backplane of a scenario, if there is a goal.
///
/// # Errors
/// The scenario's, or what hinders the goal.
pub(crate) fn test_goal<'a>(
    rt: &HostRuntime,
    name: &'a str,
    text: &[u8],
    until: Option<Goal>,
) -> Result<(), ProgramFault<'a>>
    ensures ok { OnOk result (OnPlan text.now (λ p. hindrance_to p until ≡ None)) }
    ensures fault { IfErr result (IsUnreached text.now name.entry until) }
{
    let goal = match until {
        Some(goal) => goal,
        None => return Ok(()),
    };
    let plan = plan_in(rt, name, text)?;
    match hindrance_of(&plan, goal) {
        Some(hindrance) => Err(ProgramFault::NeverComes(hindrance)),
        None => Ok(()),
    }
}
