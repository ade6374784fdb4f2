//! What is done for `probe`.
ghost use Rattle.std.specs.Prelude.{IfErr, IfOk, codes};
ghost use Rattle.clap.specs.Words.{found_of, rows_of};
ghost use Rattle.vme_command_line.specs.Asked.{AsksForWork};
ghost use Rattle.vme_command_line.specs.Limits.{IsWithinWork};
ghost use Rattle.vme_command_line.specs.Unfits.{IsUnfit};

use crate::{Unfit, Work, file_of, whole_of};
use clap::ArgMatches;

/// A judgement of what an analyser saw.
pub(crate) fn probe_of<'a>(operands: &ArgMatches<'a>) -> Result<Work<'a>, Unfit<'a>>
    ensures within { IfOk result IsWithinWork }
    ensures asked { IfOk result
        (AsksForWork (codes "probe") (rows_of (found_of operands.now))) }
    ensures unfit { IfErr result (IsUnfit (codes "probe") (rows_of (found_of operands.now))) }
{
    Ok(Work::Probe {
        capture: file_of(operands, "CAPTURE")?,
        skew: whole_of(operands, "skew", 0)?,
    })
}
