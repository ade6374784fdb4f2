//! Checking a trace: the first edge that is refused, or that all of them are legal.
ghost use Rattle.std.specs.Prelude.{◌≡◌, ◌+◌, ◌<◌, ◌^◌, [], Ok, None, true, length};
ghost use Rattle.vme_model.specs.Verdict.{kept};
ghost use Rattle.vme_model.specs.Report.{trace_limit};
ghost use Rattle.vme_engines.specs.Streams.{streams, ReadNothing, WroteNothing};
ghost use Rattle.vme_engines.specs.Outcomes.{Lent};
ghost use Rattle.vme_engines.specs.Checking.{ChecksInput, first_refusal, finding_status};
ghost use Rattle.vme_engines.specs.Steps.{IsCounted, ChecksPiece, FindsOn, FindsInput};

use crate::lines::write_finding;
use crate::plans::{history_region, history_room, plan_of};
use crate::traces::open;
use crate::{EngineFault, Status};
use std::alloc::Global;
use std::io::{Read, Write};
use vme_backplane::{Backplane, Trace};
use vme_model::{Edge, Refused};
use vme_slots::Plan;
use vme_trace::{Fault, Reader, pump};

/// What a check finds in a trace.
#[derive(Clone, Copy, PartialEq, Eq, Debug)]
pub(crate) enum Finding {
    /// All edges are accepted: so many.
    Legal { edges: u64 },
    /// The n-th edge, counted from 1, is the first that is refused.
    Illegal { n: u64, refused: Refused },
}

impl Finding {
    /// The status of a check that finds this.
    fn status(self) -> Status
        ensures { result ≡ finding_status self }
    {
        match self {
            Finding::Legal { .. } => Status::Done,
            Finding::Illegal { .. } => Status::SomeRefused,
        }
    }
}

/// Judges the edges behind the first `judged`, up to the first that is refused: its number, and why.
fn first_refused(backplane: &mut Backplane, judged: u64, edges: &[Edge]) -> Option<(u64, Refused)>
    requires { judged + length edges.now < 2 ^ 64 }
    ensures found { result ≡ first_refusal (judged + 1) backplane.old edges.now }
    ensures state { result ≡ None → backplane.new ≡ kept backplane.old edges.now }
{
    let mut n = judged;
    for edge in edges {
        n += 1;
        match backplane.step(*edge) {
            Ok(_) => {}
            Err(refused) => return Some((n, refused)),
        }
    }
    None
}

/// Judges the edges of a piece, and says what is found once that is known.
///
/// `more` is what the read of the piece answered. None where the trace goes on.
fn check_piece(
    backplane: &mut Backplane,
    judged: &mut u64,
    edges: &[Edge],
    more: Result<bool, Fault>,
) -> Result<Option<Finding>, Fault>
    requires { judged.old + length edges.now < 2 ^ 64 }
    ensures { ChecksPiece backplane.old judged.old edges.now more backplane.new judged.new result }
{
    match first_refused(backplane, *judged, edges) {
        Some((n, refused)) => return Ok(Some(Finding::Illegal { n, refused })),
        None => {}
    }
    *judged += edges.len() as u64;
    match more {
        Ok(true) => Ok(None),
        Ok(false) => {
            backplane.laws();
            backplane.safety();
            Ok(Some(Finding::Legal { edges: *judged }))
        }
        Err(fault) => Err(fault),
    }
}

/// Checks a trace whose first piece was read, with at most so many further reads.
fn find_on<R: Read>(
    mut backplane: Backplane,
    mut reader: Reader,
    mut edges: Vec<Edge>,
    first: Result<bool, Fault>,
    reads: u32,
    input: &mut R,
) -> Result<Finding, Fault>
    requires { first ≡ Ok true → IsCounted reader reads (length edges.items) }
    ensures { FindsOn backplane.entry reader edges.items first reads (R.remaining input.old) (R.remaining input.new) result }
{
    let mut judged = 0;
    match check_piece(&mut backplane, &mut judged, &edges, first)? {
        Some(finding) => return Ok(finding),
        None => {}
    }
    'reads: for _ in 0..reads {
        edges.clear();
        let more = pump(&mut reader, input, &mut edges);
        match check_piece(&mut backplane, &mut judged, &edges, more)? {
            Some(finding) => return Ok(finding),
            None => {}
        }
    }
    Err(Fault::Read)
}

/// Checks a trace that stands alone, on a plan.
fn find<R: Read>(alloc: Global, plan: Plan, room: Trace, trace: &mut R) -> Result<Finding, Fault>
    requires { room ≡ trace_limit }
    ensures { FindsInput plan (R.remaining trace.old) (R.remaining trace.new) result }
{
    let mut reader = Reader::new();
    let mut edges = Vec::new(alloc);
    let (first, reads) = open(&mut reader, trace, &mut edges);
    match reader.version() {
        Some(version) => {
            let backplane = Backplane::new(plan, room, version);
            find_on(backplane, reader, edges, first, reads, trace)
        }
        None => match first {
            Ok(_) => Err(Fault::Read),
            Err(fault) => Err(fault),
        },
    }
}

/// Checks a trace on the plan of a scenario.
///
/// Writes `illegal N VERDICT` where the N-th edge is the first that is refused, and reads no further; or `legal N` where
/// all N edges are accepted, which are then a legal list and so a safe one. The status is `SomeRefused` or `Done`. It makes at most 16,777,216 reads.
///
/// Errors: F2 and the faults of the scenario and F3, before anything is read or written; those of the trace, where no
/// edge before them is refused, and then nothing is written; X8 where the output cannot be written.
pub fn check<R: Read, W: Write>(
    alloc: Global,
    scenario: &[u8],
    trace: &mut R,
    out: &mut W,
) -> Result<Status, EngineFault>
    ensures { let s = streams (R.remaining trace.old) (R.remaining trace.new) (W.contents out.old) (W.contents out.new) in
        Lent scenario.now (ReadNothing s × WroteNothing s) (ChecksInput s) result }
{
    let plan = plan_of(alloc, scenario)?;
    let mut region = history_region(alloc)?;
    let room = history_room(alloc, &mut region)?;
    let finding = match find(alloc, plan, room, trace) {
        Ok(finding) => finding,
        Err(fault) => return Err(EngineFault::Trace(fault)),
    };
    match write_finding(finding, out) {
        Ok(()) => Ok(finding.status()),
        Err(fault) => Err(EngineFault::Trace(fault)),
    }
}
