//! Drives: edges that the drivers make one after another.
ghost use Rattle.std.specs.Prelude.{◌≡◌, IfErr};
ghost use Rattle.std.specs.Io.KnownBytes.{Keeps};
ghost use Rattle.vme_reading.specs.Outcomes.{Lent};
ghost use Rattle.vme_drive.specs.Found.{found_answer};
ghost use Rattle.vme_command_line.specs.Limits.{IsWithinChoice};
ghost use Rattle.vme_program.specs.Done.{DoesDrive, IsDone};
ghost use Rattle.vme_program.specs.Names.{IsFaultOf};
ghost use Rattle.vme_program.specs.Reaching.{goal_of};

use crate::faults::ProgramFault;
use crate::goals::test_goal;
use crate::jobs::answer_of;
use crate::reporters::Reporter;
use std::io::Write;
use vme_command_line::{Choice, Job, Work};
use vme_drive::{drive, drive_drawn, drive_found};
use vme_goals::Goal;
use vme_model::Version;
use vme_reading::{EngineFault, Status};

/// The goal with which the trace of a drive is to end, if there is one.
fn goal_of(choice: Choice) -> Option<Goal>
    ensures { result ≡ goal_of choice }
{
    match choice {
        Choice::InTurn => None,
        Choice::Drawn { until, .. } => until,
        Choice::Sought { goal, .. } => Some(goal),
    }
}

/// The answer of a search for a seed. It prints the seed that was found.
fn answer_of_seeds(
    rt: &HostRuntime,
    found: Result<Option<u64>, EngineFault>,
) -> Result<Status, EngineFault>
    ensures { result ≡ found_answer found }
{
    match found {
        Ok(Some(seed)) => {
            let _ = eprintln!(rt; "seed {seed}");
            Ok(Status::Done)
        }
        Ok(None) => {
            let _ = eprintln!(rt; "no seed");
            Ok(Status::Limit)
        }
        Err(fault) => Err(fault),
    }
}

/// Lets the drivers make edges on the scenario of this text.
#[inline(never)]
fn do_drive<W: Write>(
    rt: &HostRuntime,
    text: &[u8],
    edges: u32,
    version: Version,
    choice: Choice,
    out: &mut W,
) -> Result<Status, EngineFault>
    requires { IsWithinChoice choice }
    ensures { Lent text.now (Keeps (W.contents out.old) (W.contents out.new))
        (DoesDrive edges version choice (W.contents out.old) (W.contents out.new)) result }
{
    let alloc = rt.alloc();
    match choice {
        Choice::InTurn => drive(alloc, text, edges, out, version),
        Choice::Drawn { seed, until } => {
            drive_drawn(alloc, text, edges, seed, until, out, version)
        }
        Choice::Sought {
            first,
            last,
            goal,
            progress,
        } => {
            let reporter = &mut Reporter::new(rt, progress);
            let found = drive_found(
                alloc, text, edges, first, last, goal, out, version, reporter,
            );
            answer_of_seeds(rt, found)
        }
    }
}

/// Lets the drivers make edges on the scenario of this name and text, if nothing hinders the goal.
pub(crate) fn run_drive<'a, W: Write>(
    rt: &HostRuntime,
    scenario: &'a str,
    text: &[u8],
    edges: u32,
    version: Version,
    choice: Choice,
    out: &mut W,
) -> Result<Status, ProgramFault<'a>>
    requires { IsWithinChoice choice }
    ensures fault { IfErr result
        (IsFaultOf (Job.OnScenario scenario.entry (Work.Drive edges version choice))) }
    ensures done { IsDone (Job.OnScenario scenario.entry (Work.Drive edges version choice))
        (W.contents out.old) (W.contents out.new) result }
{
    test_goal(rt, scenario, text, goal_of(choice))?;
    answer_of(scenario, do_drive(rt, text, edges, version, choice, out))
}
