//! Checking a trace: the first edge that is refused, or that all of them are legal.
ghost use Rattle.std.specs.Prelude.{◌≡◌, ◌+◌, ◌<◌, ◌≤◌, ◌^◌, None, length, map, OnOk, OnErr, IfOk, IfErr};
ghost use Rattle.std.proofs.Common.{refl};
ghost use Rattle.std.specs.Io.KnownBytes.{Appends};
ghost use Rattle.vme_model.specs.Locality.{AreWellFormed};
ghost use Rattle.vme_model.specs.Verdict.{kept};
ghost use Rattle.vme_bus.specs.Answers.{answer_of, answers};
ghost use Rattle.vme_trace.specs.Writing.{AppendsFront};
ghost use Rattle.vme_reading.specs.Streams.{streams, ReadNothing, WroteNothing};
ghost use Rattle.vme_reading.specs.Outcomes.{LentAsking};
ghost use Rattle.vme_check.specs.Checking.{ChecksInput, Finds, finding_line, finding_status};
ghost use Rattle.vme_reading.specs.Refusals.{first_refusal, refusal_of};
ghost use Rattle.vme_check.specs.Unrefused.{first_refused_of, AreAccepted};
ghost use Rattle.vme_reading.specs.Readings.{ReadsInput, ReadsLent};
ghost use Rattle.vme_reading.specs.Unread.{stops_unread};

use crate::findings::write_finding;
use std::alloc::Global;
use std::io::{Read, Sink, Write, sink};
use vme_bus::{AnswerRecord, Bus};
use vme_model::{Edge, Refused};
use vme_reading::{EngineFault, JUDGED_AT_ONCE, Judge, Status, read};
use vme_trace::Fault;

/// What a check finds in a trace.
#[derive(Clone, Copy, PartialEq, Eq, Debug)]
pub enum Finding {
    /// All edges are accepted: so many.
    Legal { edges: u64 },
    /// The n-th edge, counted from 1, is the first that is refused.
    Illegal { n: u64, refused: Refused },
}

impl Finding {
    /// The status of a check that finds this.
    pub fn status(self) -> Status
        ensures { result ≡ finding_status self }
    {
        match self {
            Finding::Legal { .. } => Status::Done,
            Finding::Illegal { .. } => Status::SomeRefused,
        }
    }
}

/// The first refusal among the answers to edges after the first `judged`: the number of its edge,
/// and why.
fn first_refused_of(judged: u64, records: &[AnswerRecord]) -> Option<(u64, Refused)>
    requires { judged + length records.now < 2 ^ 64 }
    ensures { result ≡ first_refused_of (judged + 1) (map answer_of records.now) }
{
    let mut n = judged;
    for found in records {
        n += 1;
        if !found.is_ok() {
            match found.answer() {
                Ok(_) => {}
                Err(refused) => return Some((n, refused)),
            }
        }
    }
    None
}

/// Judges the edges of a chunk, which are those after the first `judged`, and gives the first
/// refusal among the answers.
///
/// If the trace grew by each of them, none was refused, and no answer is looked at.
fn first_refused_in(
    bus: &mut Bus,
    judged: u64,
    chunk: &[Edge],
    records: &mut [AnswerRecord],
) -> Option<(u64, Refused)>
    requires well_formed { AreWellFormed chunk.now }
    requires count { judged + length chunk.now < 2 ^ 64 }
    requires room { length chunk.now ≤ length records.old }
    ensures found { result ≡ first_refused_of (judged + 1) (answers bus.old chunk.now) }
    ensures state { bus.new ≡ kept bus.old chunk.now }
    ensures room { length records.new ≡ length records.old }
{
    let before = bus.len();
    bus.step_all(chunk, records);
    if bus.len().saturating_sub(before) as usize == chunk.len() {
        return None;
    }
    first_refused_of(judged, &records[..chunk.len()])
}

/// Judges the edges after the first `judged`, and answers the first that is refused: its number,
/// and why.
///
/// Those after it may be judged too.
fn first_refused(bus: &mut Bus, judged: u64, edges: &[Edge]) -> Option<(u64, Refused)>
    requires well_formed { AreWellFormed edges.now }
    requires count { judged + length edges.now < 2 ^ 64 }
    ensures found { result ≡ first_refusal (judged + 1) bus.old edges.now }
    ensures state { result ≡ None → bus.new ≡ kept bus.old edges.now }
{
    let mut n = judged;
    let mut records = [AnswerRecord::ACCEPTED; JUDGED_AT_ONCE];
    let mut rest = edges;
    while !rest.is_empty() {
        let (chunk, behind) = rest.split_at(rest.len().min(JUDGED_AT_ONCE));
        match first_refused_in(bus, n, chunk, &mut records) {
            Some(found) => return Some(found),
            None => {}
        }
        n += chunk.len() as u64;
        rest = behind;
    }
    None
}

/// Writes what a check finds, and has the writer hand on what it holds back. The status says
/// whether an edge is refused.
fn report<W: Write>(finding: Finding, out: &mut W) -> Result<Status, Fault>
    ensures status { IfOk result (λ status. status ≡ finding_status finding) }
    ensures ok { OnOk result
        (Appends (W.contents out.old) (W.contents out.new) (finding_line finding)) }
    ensures front { OnErr result
        (AppendsFront (W.contents out.old) (W.contents out.new) (finding_line finding)) }
    ensures fault { IfErr result (λ fault. fault ≡ Fault.Write) }
{
    write_finding(finding, out)?;
    Ok(finding.status())
}

/// A check under way.
#[derive(Drop)]
struct Checking {
    bus: Bus,
    /// How many edges were judged.
    judged: u64,
}

impl Judge for Checking {
    type Task = ();

    type Answer = Finding;

    ghost can = { λ _. Unit {0} };

    ghost count = { λ now. now.judged };

    ghost stands = { λ _ p v es old new now. AreAccepted p v es now.bus now.judged };

    ghost leaves = { λ _ p trace s answer. Finds p trace s answer };

    ghost unbegun = { λ task can p trace s f kept h.
        stops_unread (λ version es. refusal_of p version es ≡ None) refl trace s f h };

    fn begin(_task: &(), bus: Bus) -> Checking {
        Checking { bus, judged: 0 }
    }

    /// Judges the edges, up to the first that is refused. At the end of a trace without one, all
    /// are legal.
    fn take<W: Write>(
        &mut self,
        edges: &[Edge],
        more: Result<bool, Fault>,
        _paused: bool,
        _out: &mut W,
    ) -> Result<Option<Finding>, Fault> {
        match first_refused(&mut self.bus, self.judged, edges) {
            Some((n, refused)) => return Ok(Some(Finding::Illegal { n, refused })),
            None => {}
        }
        self.judged += edges.len() as u64;
        match more {
            Ok(true) => Ok(None),
            Ok(false) => {
                self.bus.laws();
                self.bus.safety();
                let edges = self.judged;
                Ok(Some(Finding::Legal { edges }))
            }
            Err(fault) => Err(fault),
        }
    }
}

/// What a check finds in a trace, on the plan of a scenario: the first edge that is refused, behind
/// which it reads no further, or that all are legal. It makes at most 16,777,216 reads.
///
/// # Errors
/// F2, the faults of the scenario and F3, before anything is read; those of the trace, if no edge
/// before them is refused.
pub fn finding_of<R: Read>(
    alloc: Global,
    scenario: &[u8],
    trace: &mut R,
) -> Result<Finding, EngineFault>
    ensures { let s = streams (R.remaining trace.old) (R.remaining trace.new) None None in
        ReadsLent scenario.now (ReadNothing s) (λ p. ReadsInput (Finds p) s) result }
{
    read::<Checking, R, Sink>(alloc, scenario, &(), trace, &mut sink())
}

/// Checks a trace on the plan of a scenario.
///
/// Writes `illegal N VERDICT` if the N-th edge is the first that is refused, and reads no further;
/// or `legal N` if all N edges are accepted, which are then a legal list and so a safe one. The
/// status is `SomeRefused` or `Done`. It makes at most 16,777,216 reads.
///
/// # Errors
/// F2, the faults of the scenario and F3, before anything is read or written; those of the trace,
/// if no edge before them is refused, and then nothing is written; X8 if the output cannot be
/// written.
pub fn check<R: Read, W: Write>(
    alloc: Global,
    scenario: &[u8],
    trace: &mut R,
    out: &mut W,
) -> Result<Status, EngineFault>
    ensures { let s = streams (R.remaining trace.old) (R.remaining trace.new)
        (W.contents out.old) (W.contents out.new) in
        LentAsking scenario.now (ReadNothing s × WroteNothing s) (ChecksInput s) result }
{
    let finding = finding_of(alloc, scenario, trace)?;
    match report(finding, out) {
        Ok(status) => Ok(status),
        Err(fault) => Err(EngineFault::Trace(fault)),
    }
}
