//! What is done for `races`.
ghost use Rattle.std.specs.Prelude.{IfErr, IfOk, codes};
ghost use Rattle.clap.specs.Words.{found_of, rows_of};
ghost use Rattle.vme_command_line.specs.Asked.{AsksForWork};
ghost use Rattle.vme_command_line.specs.Limits.{IsWithinWork};
ghost use Rattle.vme_command_line.specs.Unfits.{IsUnfit};

use crate::{Task, Unfit, Work, file_of, whole_of};
use clap::ArgMatches;

/// The races of a trace; with `--edge` or `--other`, what is asked about one edge.
pub(crate) fn races_of<'a>(operands: &ArgMatches<'a>) -> Result<Work<'a>, Unfit<'a>>
    ensures within { IfOk result IsWithinWork }
    ensures asked { IfOk result
        (AsksForWork (codes "races") (rows_of (found_of operands.now))) }
    ensures unfit { IfErr result (IsUnfit (codes "races") (rows_of (found_of operands.now))) }
{
    let trace = file_of(operands, "TRACE")?;
    let edge = whole_of(operands, "edge", 1)?;
    let other = whole_of(operands, "other", 1)?;
    match (edge, other) {
        (None, None) => Ok(Work::OnTrace {
            task: Task::Races,
            trace,
        }),
        (Some(edge), None) => Ok(Work::OnTrace {
            task: Task::Walk { edge },
            trace,
        }),
        (None, Some(edge)) => Ok(Work::OtherOrder { trace, edge }),
        (Some(_), Some(_)) => Err(Unfit::TwoEdges),
    }
}
