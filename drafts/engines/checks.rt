//! Checking a trace: the first edge that is refused, or that all are legal.
ghost use Rattle.std.specs.Prelude.{◌≡◌, ◌+◌, ◌<◌, ◌^◌, Ok, Some, None, true, length, IfNone, OnOk, OnErr, IfErr};
ghost use Rattle.std.specs.Io.KnownBytes.{Appends};
ghost use Rattle.vme_model.specs.Verdict.{kept};
ghost use Rattle.vme_model.specs.Report.{trace_limit};
ghost use Rattle.vme_trace.specs.Writing.{AppendsFront};
ghost use Rattle.vme_engines.specs.Streams.{streams, ReadNothing, WroteNothing};
ghost use Rattle.vme_engines.specs.Outcomes.{Lent, ChecksInput, first_refusal, finding};
ghost use Rattle.vme_engines.specs.Steps.{IsCounted, ChecksPiece, ChecksOn, traced};

use crate::lines::write_finding;
use crate::plans::{history_room, plan_of};
use crate::traces::open;
use crate::{EngineFault, Status};
use std::alloc::Global;
use std::io::{Read, Write};
use vme_backplane::{Backplane, Trace};
use vme_model::{Edge, Refused};
use vme_slots::Plan;
use vme_trace::{Fault, Reader, pump};

/// Judges the edges behind the first `judged`, up to the first that is refused: its number, and why.
fn first_refused(backplane: &mut Backplane, judged: u64, edges: &[Edge]) -> Option<(u64, Refused)>
    requires { judged + length edges.now < 2 ^ 64 }
    ensures found { result ≡ first_refusal (judged + 1) backplane.old edges.now }
    ensures state { result ≡ None → backplane.new ≡ kept backplane.old edges.now }
{
    let mut n = judged;
    for edge in edges {
        n += 1;
        match backplane.step(*edge) {
            Ok(_) => {}
            Err(refused) => return Some((n, refused)),
        }
    }
    None
}

/// Judges the edges of a piece, and writes what was found once that is known.
///
/// `more` is what the read of the piece answered. None where the trace goes on.
fn check_piece<W: Write>(
    backplane: &mut Backplane,
    judged: &mut u64,
    edges: &[Edge],
    more: Result<bool, Fault>,
    out: &mut W,
) -> Result<Option<Status>, Fault>
    requires { judged.old + length edges.now < 2 ^ 64 }
    ensures { ChecksPiece backplane.old judged.old edges.now more (W.contents out.old) (W.contents out.new) backplane.new judged.new result }
{
    let found = first_refused(backplane, *judged, edges);
    *judged += edges.len() as u64;
    if found.is_some() {
        write_finding(found, *judged, out)?;
        return Ok(Some(Status::SomeRefused));
    }
    match more {
        Ok(true) => Ok(None),
        Ok(false) => {
            write_finding(None, *judged, out)?;
            Ok(Some(Status::Done))
        }
        Err(fault) => Err(fault),
    }
}

/// Checks a trace whose first piece was read, with at most so many further reads.
fn check_on<R: Read, W: Write>(
    mut backplane: Backplane,
    mut reader: Reader,
    mut edges: Vec<Edge>,
    first: Result<bool, Fault>,
    reads: u32,
    input: &mut R,
    out: &mut W,
) -> Result<Status, Fault>
    requires { first ≡ Ok true → IsCounted reader reads (length edges.items) }
    ensures { ChecksOn backplane reader edges.items first reads (R.remaining input.old) (R.remaining input.new) (W.contents out.old) (W.contents out.new) result }
{
    let mut judged = 0;
    match check_piece(&mut backplane, &mut judged, &edges, first, out)? {
        Some(status) => return Ok(status),
        None => {}
    }
    'reads: for _ in 0..reads {
        edges.clear();
        let more = pump(&mut reader, input, &mut edges);
        match check_piece(&mut backplane, &mut judged, &edges, more, out)? {
            Some(status) => return Ok(status),
            None => {}
        }
    }
    Err(Fault::Read)
}

/// Checks a trace that stands alone, on a plan.
fn check_trace<R: Read, W: Write>(
    alloc: Global,
    plan: Plan,
    room: Trace,
    trace: &mut R,
    out: &mut W,
) -> Result<Status, Fault>
    requires { room ≡ trace_limit }
    ensures { ChecksInput (streams (R.remaining trace.old) (R.remaining trace.new) (W.contents out.old) (W.contents out.new)) plan (traced result) }
{
    let mut reader = Reader::new();
    let mut edges = Vec::new(alloc);
    let (first, reads) = open(&mut reader, trace, &mut edges);
    match reader.version() {
        Some(version) => {
            let backplane = Backplane::new(plan, room, version);
            check_on(backplane, reader, edges, first, reads, trace, out)
        }
        None => Err(first.err().unwrap_or(Fault::Read)),
    }
}

/// Checks a trace on the plan of a scenario.
///
/// Writes `illegal N VERDICT` at the first edge that is refused, and reads no further, or `legal N` where all N edges
/// are accepted. It makes at most 16,777,216 reads.
///
/// Errors: F2 and the faults of the scenario and F3, before anything is read; those of the trace where no edge before
/// them is refused, and then nothing is written; X8 where the output cannot be written.
pub fn check<R: Read, W: Write>(
    alloc: Global,
    scenario: &[u8],
    trace: &mut R,
    out: &mut W,
) -> Result<Status, EngineFault>
    ensures { let s = streams (R.remaining trace.old) (R.remaining trace.new) (W.contents out.old) (W.contents out.new) in
        Lent scenario.now (ReadNothing s × WroteNothing s) (ChecksInput s) result }
{
    let plan = plan_of(alloc, scenario)?;
    let room = history_room(alloc)?;
    match check_trace(alloc, plan, room, trace, out) {
        Ok(status) => Ok(status),
        Err(fault) => Err(EngineFault::Trace(fault)),
    }
}
