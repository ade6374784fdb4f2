//! The job for the name of a command.
//!
//! The names are in functions of a few each, since the proof of an arm takes longer the more arms
//! there are.
ghost use Rattle.std.specs.Prelude.{IfErr, IfOk};
ghost use Rattle.clap.specs.Words.{found_of, rows_of};
ghost use Rattle.vme_command_line.specs.Asked.{AsksFor, AsksForTask, AsksForWork};
ghost use Rattle.vme_command_line.specs.Limits.{IsWithin, IsWithinTask, IsWithinWork};
ghost use Rattle.vme_command_line.specs.Unfits.{IsUnfit};

use crate::probes::probe_of;
use crate::races::races_of;
use crate::same::same_of;
use crate::{
    Job, Task, Unfit, Work, check_of, drive_of, explain_of, file_of, order_of, replay_of, rules_of,
    run_of, show_of, shrink_of, state_of, summary_of,
};
use clap::ArgMatches;
use std::alloc::Global;

/// The task for the name of a command that shows what is in one trace.
fn showing_task<'a>(name: &str, operands: &ArgMatches<'a>) -> Result<Task, Unfit<'a>>
    ensures within { IfOk result IsWithinTask }
    ensures asked { IfOk result (AsksForTask name.now (rows_of (found_of operands.now))) }
    ensures unfit { IfErr result (IsUnfit name.now (rows_of (found_of operands.now))) }
{
    match name {
        "state" => state_of(operands),
        "show" => show_of(operands),
        "cycles" => Ok(Task::Cycles),
        _ => Err(Unfit::Missing),
    }
}

/// The task for the name of a command that takes one trace alone.
fn task_of<'a>(name: &str, operands: &ArgMatches<'a>) -> Result<Task, Unfit<'a>>
    ensures within { IfOk result IsWithinTask }
    ensures asked { IfOk result (AsksForTask name.now (rows_of (found_of operands.now))) }
    ensures unfit { IfErr result (IsUnfit name.now (rows_of (found_of operands.now))) }
{
    match name {
        "replay" => Ok(replay_of(operands)),
        "explain" => explain_of(operands),
        "shrink" => shrink_of(operands),
        _ => showing_task(name, operands),
    }
}

/// The work for the name of a command that takes one trace alone.
fn work_on_trace<'a>(name: &str, operands: &ArgMatches<'a>) -> Result<Work<'a>, Unfit<'a>>
    ensures within { IfOk result IsWithinWork }
    ensures asked { IfOk result (AsksForWork name.now (rows_of (found_of operands.now))) }
    ensures unfit { IfErr result (IsUnfit name.now (rows_of (found_of operands.now))) }
{
    Ok(Work::OnTrace {
        trace: file_of(operands, "TRACE")?,
        task: task_of(name, operands)?,
    })
}

/// The work for the name of a command that compares orders of edges, finds one, or says who may
/// have made changes, or of one that takes one trace alone.
fn comparing_work<'a>(name: &str, operands: &ArgMatches<'a>) -> Result<Work<'a>, Unfit<'a>>
    ensures within { IfOk result IsWithinWork }
    ensures asked { IfOk result (AsksForWork name.now (rows_of (found_of operands.now))) }
    ensures unfit { IfErr result (IsUnfit name.now (rows_of (found_of operands.now))) }
{
    match name {
        "races" => races_of(operands),
        "same" => same_of(operands),
        "order" => order_of(operands),
        "probe" => probe_of(operands),
        _ => work_on_trace(name, operands),
    }
}

/// The work for the name of a command that takes a scenario.
fn work_of<'a>(alloc: Global, name: &str, operands: &ArgMatches<'a>) -> Result<Work<'a>, Unfit<'a>>
    ensures within { IfOk result IsWithinWork }
    ensures asked { IfOk result (AsksForWork name.now (rows_of (found_of operands.now))) }
    ensures unfit { IfErr result (IsUnfit name.now (rows_of (found_of operands.now))) }
{
    match name {
        "check" => check_of(alloc, operands),
        "summary" => summary_of(alloc, operands),
        "drive" => drive_of(operands),
        "run" => run_of(operands),
        _ => comparing_work(name, operands),
    }
}

/// The job for the name of a command that takes a scenario, with its operands.
fn job_on_scenario<'a>(
    alloc: Global,
    name: &str,
    operands: &ArgMatches<'a>,
) -> Result<Job<'a>, Unfit<'a>>
    ensures within { IfOk result IsWithin }
    ensures asked { IfOk result (AsksFor name.now (rows_of (found_of operands.now))) }
    ensures unfit { IfErr result (IsUnfit name.now (rows_of (found_of operands.now))) }
{
    Ok(Job::OnScenario {
        scenario: file_of(operands, "SCENARIO")?,
        work: work_of(alloc, name, operands)?,
    })
}

/// The job for a command's name, with its operands.
pub(crate) fn job_of<'a>(
    alloc: Global,
    name: &str,
    operands: &ArgMatches<'a>,
) -> Result<Job<'a>, Unfit<'a>>
    ensures within { IfOk result IsWithin }
    ensures asked { IfOk result (AsksFor name.now (rows_of (found_of operands.now))) }
    ensures unfit { IfErr result (IsUnfit name.now (rows_of (found_of operands.now))) }
{
    match name {
        "rule" => rules_of(operands),
        _ => job_on_scenario(alloc, name, operands),
    }
}
