//! Replaying a trace: a verdict on each edge, and the closing line.
ghost use Rattle.std.specs.Prelude.{◌≡◌, ◌+◌, ◌<◌, ◌^◌, [], Ok, true, length};
ghost use Rattle.vme_model.specs.Report.{trace_limit};
ghost use Rattle.vme_engines.specs.Streams.{streams, ReadNothing, WroteNothing};
ghost use Rattle.vme_engines.specs.Outcomes.{Lent, ReplaysInput, status_with};
ghost use Rattle.vme_engines.specs.Steps.{IsCounted, TakesPiece, ReplaysOn, traced};

use crate::lines::{close, flush, write_verdicts};
use crate::plans::{history_region, history_room, plan_of};
use crate::traces::open;
use crate::{EngineFault, Status};
use std::alloc::Global;
use std::io::{Read, Write};
use vme_backplane::{Backplane, Trace};
use vme_model::Edge;
use vme_slots::Plan;
use vme_trace::{Fault, Reader, pump};

/// The status of a replay with so many refused edges.
fn status_of(refused: u64) -> Status
    ensures { result ≡ status_with refused }
{
    if refused == 0 {
        Status::Done
    } else {
        Status::SomeRefused
    }
}

/// Writes the verdicts on the edges of a piece, and at the end of the trace the closing line.
///
/// `more` is what the read of the piece answered. None where the trace goes on.
fn take_piece<W: Write>(
    backplane: &mut Backplane,
    judged: &mut u64,
    edges: &[Edge],
    more: Result<bool, Fault>,
    out: &mut W,
) -> Result<Option<Status>, Fault>
    requires { judged.old + length edges.now < 2 ^ 64 }
    ensures { TakesPiece backplane.old judged.old edges.now more (W.contents out.old) (W.contents out.new) backplane.new judged.new result }
{
    write_verdicts(backplane, *judged, edges, out)?;
    *judged += edges.len() as u64;
    match more {
        Ok(true) => Ok(None),
        Ok(false) => {
            let accepted = u64::from(backplane.len());
            let refused = judged.saturating_sub(accepted);
            close(accepted, refused, out)?;
            Ok(Some(status_of(refused)))
        }
        Err(fault) => {
            flush(out)?;
            Err(fault)
        }
    }
}

/// Replays a trace whose first piece was read, with at most so many further reads.
pub(crate) fn replay_on<R: Read, W: Write>(
    mut backplane: Backplane,
    mut reader: Reader,
    mut edges: Vec<Edge>,
    first: Result<bool, Fault>,
    reads: u32,
    input: &mut R,
    out: &mut W,
) -> Result<Status, Fault>
    requires { first ≡ Ok true → IsCounted reader reads (length edges.items) }
    ensures { ReplaysOn backplane.entry reader edges.items first reads (R.remaining input.old) (R.remaining input.new) (W.contents out.old) (W.contents out.new) result }
{
    let mut judged = 0;
    match take_piece(&mut backplane, &mut judged, &edges, first, out)? {
        Some(status) => return Ok(status),
        None => {}
    }
    'reads: for _ in 0..reads {
        edges.clear();
        let more = pump(&mut reader, input, &mut edges);
        match take_piece(&mut backplane, &mut judged, &edges, more, out)? {
            Some(status) => return Ok(status),
            None => {}
        }
    }
    flush(out)?;
    Err(Fault::Read)
}

/// Replays a trace that stands alone, on a plan.
fn replay_trace<R: Read, W: Write>(
    alloc: Global,
    plan: Plan,
    room: Trace,
    trace: &mut R,
    out: &mut W,
) -> Result<Status, Fault>
    requires { room ≡ trace_limit }
    ensures { ReplaysInput (streams (R.remaining trace.old) (R.remaining trace.new) (W.contents out.old) (W.contents out.new)) plan (traced result) }
{
    let mut reader = Reader::new();
    let mut edges = Vec::new(alloc);
    let (first, reads) = open(&mut reader, trace, &mut edges);
    match reader.version() {
        Some(version) => {
            let backplane = Backplane::new(plan, room, version);
            replay_on(backplane, reader, edges, first, reads, trace, out)
        }
        None => match first {
            Ok(_) => Err(Fault::Read),
            Err(fault) => Err(fault),
        },
    }
}

/// Replays a trace on the plan of a scenario.
///
/// Writes `n VERDICT` for the n-th edge, past those that are refused, and at the end of the trace
/// `accepted A refused R`. It makes at most 16,777,216 reads.
///
/// Errors: F2 and the faults of the scenario and F3, before anything is read or written; those of the trace, behind
/// the verdicts on the edges before them; X8 where the output cannot be written.
pub fn replay<R: Read, W: Write>(
    alloc: Global,
    scenario: &[u8],
    trace: &mut R,
    out: &mut W,
) -> Result<Status, EngineFault>
    ensures { let s = streams (R.remaining trace.old) (R.remaining trace.new) (W.contents out.old) (W.contents out.new) in
        Lent scenario.now (ReadNothing s × WroteNothing s) (ReplaysInput s) result }
{
    let plan = plan_of(alloc, scenario)?;
    let mut region = history_region(alloc)?;
    let room = history_room(alloc, &mut region)?;
    match replay_trace(alloc, plan, room, trace, out) {
        Ok(status) => Ok(status),
        Err(fault) => Err(EngineFault::Trace(fault)),
    }
}
