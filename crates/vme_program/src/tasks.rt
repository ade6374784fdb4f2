//! What is done with one trace.
ghost use Rattle.std.specs.Prelude.{◌≡◌, IfErr};
ghost use Rattle.vme_reading.specs.Outcomes.{LentAsking};
ghost use Rattle.vme_reading.specs.Streams.{ReadNothing, WroteNothing, streams};
ghost use Rattle.vme_command_line.specs.Limits.{IsWithinTask};
ghost use Rattle.vme_program.specs.Done.{DoesTask, IsDone};
ghost use Rattle.vme_program.specs.Names.{IsFaultOf, line_form};

use crate::faults::ProgramFault;
use crate::files::open;
use crate::jobs::answer_of;
use crate::reporters::Reporter;
use std::io::{Read, Write};
use vme_check::check;
use vme_command_line::{Job, Task, Work};
use vme_cycles::cycles;
use vme_following::{explain, state};
use vme_races::{races, walk_of_edge};
use vme_reading::{EngineFault, LineForm, Status};
use vme_replay::replay;
use vme_show::show;
use vme_shrink::shrink;
use vme_summary::summary;

/// What a replay writes of each edge, with `--full` and without.
fn line_form(full: bool) -> LineForm
    ensures { result ≡ line_form full }
{
    if full {
        LineForm::Full
    } else {
        LineForm::Short
    }
}

/// Does a task with a trace, on the scenario of this text.
#[inline(never)]
fn do_task<R: Read, W: Write>(
    rt: &HostRuntime,
    task: Task,
    scenario: &[u8],
    trace: &mut R,
    out: &mut W,
) -> Result<Status, EngineFault>
    requires { IsWithinTask task }
    ensures { let s = streams (R.remaining trace.old) (R.remaining trace.new)
        (W.contents out.old) (W.contents out.new) in
        LentAsking scenario.now (ReadNothing s × WroteNothing s) (DoesTask task s) result }
{
    let alloc = rt.alloc();
    match task {
        Task::Replay { full } => replay(alloc, scenario, trace, line_form(full), out),
        Task::Check => check(alloc, scenario, trace, out),
        Task::Explain { edge } => explain(alloc, scenario, trace, edge, out),
        Task::Shrink { edge, progress } => {
            let reporter = Reporter::new(rt, progress);
            shrink(alloc, scenario, trace, edge, out, reporter)
        }
        Task::State { after } => state(alloc, scenario, trace, after, out),
        Task::Show { from, to, color } => show(alloc, scenario, trace, from, to, color, out),
        Task::Cycles => cycles(alloc, scenario, trace, out),
        Task::Summary => summary(alloc, scenario, trace, out),
        Task::Races => races(alloc, scenario, trace, out),
        Task::Walk { edge } => walk_of_edge(alloc, scenario, trace, edge, out),
    }
}

/// Does a task with the trace of that name, on the scenario of this name and text.
pub(crate) fn run_on_trace<'a, W: Write>(
    rt: &HostRuntime,
    scenario: &'a str,
    text: &[u8],
    task: Task,
    trace: &'a str,
    out: &mut W,
) -> Result<Status, ProgramFault<'a>>
    requires { IsWithinTask task }
    ensures fault { IfErr result
        (IsFaultOf (Job.OnScenario scenario.entry (Work.OnTrace task trace.entry))) }
    ensures done { IsDone (Job.OnScenario scenario.entry (Work.OnTrace task trace.entry))
        (W.contents out.old) (W.contents out.new) result }
{
    let mut input = open(rt, trace)?;
    answer_of(scenario, do_task(rt, task, text, &mut input, out))
}
