//! Printing at the edge of a trace that is asked for.
ghost use Rattle.vme_reading.specs.Outcomes.{LentAsking};
ghost use Rattle.vme_reading.specs.Streams.{streams, ReadNothing, WroteNothing};
ghost use Rattle.vme_following.specs.Printing.{PrintsInput};

use std::alloc::Global;
use std::io::{Read, Write};
use vme_check::{Finding, write_finding};
use vme_reading::{Asked, AtEdge, EngineFault, Found, Status, at_edge};

/// Reads a trace up to the edge that is asked for, on the plan of a scenario, and has a command
/// print at it. Without a number, if no edge is refused, it writes `legal N`. Behind that edge it
/// judges none. It makes at most 16,777,216 reads.
///
/// # Errors
/// F2, the faults of the scenario and F3, before anything is read or written; those of the trace
/// before the edge, and X9 if a trace without fault has fewer edges, or the number is 0: then
/// nothing is written; those of the command, and X8 if the output cannot be written.
pub fn print_at_edge<S: AtEdge<Answer = Status>, R: Read, W: Write>(
    alloc: Global,
    scenario: &[u8],
    asked: &Asked<S::Task>,
    trace: &mut R,
    out: &mut W,
) -> Result<Status, EngineFault>
    ensures { let s = streams (R.remaining trace.old) (R.remaining trace.new)
        (W.contents out.old) (W.contents out.new) in
        LentAsking scenario.now (ReadNothing s × WroteNothing s)
        (PrintsInput S.writes S.fails asked.now.edge s) result }
{
    match at_edge::<S, R, W>(alloc, scenario, asked, trace, out) {
        Ok(Found::At(status)) => Ok(status),
        Ok(Found::Legal(edges)) => match write_finding(Finding::Legal { edges }, out) {
            Ok(()) => Ok(Status::Done),
            Err(fault) => Err(EngineFault::Trace(fault)),
        },
        Ok(Found::Beyond(edges)) => Err(EngineFault::Beyond(edges)),
        Err(fault) => Err(fault),
    }
}
