//! The one reading of a trace: a judge takes its edges piece by piece, until it has an answer.
ghost use Rattle.std.specs.Prelude.{◌≡◌, ◌+◌, ◌<◌, ◌^◌, ◌++◌, ℕ, List, [], Option, None, Result, Ok, Err, true, length};
ghost use Rattle.vme_model.specs.declared.signals.Edge.{Edge as EdgeValue};
ghost use Rattle.vme_model.specs.declared.signals.Version.{Version as VersionValue};
ghost use Rattle.vme_model.specs.Plan.{Plan as PlanValue};
ghost use Rattle.vme_model.specs.Locality.{AreWellFormed};
ghost use Rattle.vme_trace.specs.declared.Fault.{Fault as FaultValue};
ghost use Rattle.vme_reading.specs.Streams.{Streams, streams, ReadNothing, WroteNothing};
ghost use Rattle.vme_reading.specs.Outcomes.{bench};
ghost use Rattle.vme_reading.specs.Steps.{IsCounted, piece_size};
ghost use Rattle.vme_reading.specs.Waiting.{StopsWaiting};
ghost use Rattle.vme_reading.specs.Begun.{IsUnread};
ghost use Rattle.vme_reading.specs.Readings.{GoesOn, Takes, ReadsOn, ReadsInput, ReadsLent};

use crate::EngineFault;
use crate::pieces::{buffer_of, has_paused};
use crate::plans::plan_of;
use crate::traces::Input;
use std::alloc::Global;
use std::io::{Read, Write};
use vme_bus::Bus;
use vme_model::Edge;
use vme_slots::Plan;
use vme_trace::{Fault, Reader, pump_counted};

/// What a command does with the edges of a trace, in the order in which they come.
pub trait Judge: Drop {
    /// What is asked of it.
    type Task;

    /// What it answers.
    type Answer;

    /// Whether it can be asked that.
    ghost can: { Self.Task → Type 0 };

    /// How many edges it took.
    ghost count: { Self → ℕ };

    /// It was asked this, began on a plan for a trace of a version, and took these edges since;
    /// what the writer held then and holds.
    ghost stands: { Self.Task → PlanValue → VersionValue → List EdgeValue
        → Option (List ℕ) → Option (List ℕ) → Self → Type 0 };

    /// What it leaves of a trace on a plan, and answers.
    ghost leaves: { Self.Task → PlanValue → List ℕ → Streams → Result Self.Answer FaultValue
        → Type 0 };

    /// Begins on a bus without edges.
    fn begin(task: &Self::Task, bus: Bus) -> Self
        requires can { can task.now }
        ensures count { count result ≡ 0 }
        ensures stands { (p : PlanValue) (v : VersionValue) (old : Option (List ℕ))
            → bus ≡ bench p v → stands task.now p v [] old old result };

    /// Takes the edges of a piece. None if it has no answer yet, and the trace goes on.
    ///
    /// `more` is what the read of the piece answered. If whoever writes the trace has `paused`
    /// behind it, all that is written so far is to be handed on.
    fn take<W: Write>(
        &mut self,
        edges: &[Edge],
        more: Result<bool, Fault>,
        paused: bool,
        out: &mut W,
    ) -> Result<Option<Self::Answer>, Fault>
        requires count { count self.old + length edges.now < 2 ^ 64 }
        requires well_formed { AreWellFormed edges.now }
        ensures goes_on { GoesOn more (count self.new) (count self.old + length edges.now) result }
        ensures takes { (task : Self.Task) (p : PlanValue) (v : VersionValue) (es : List EdgeValue)
            (old : Option (List ℕ)) → stands task p v es old (W.contents out.old) self.old
            → Takes (stands task p v) (leaves task p) v (es ++ edges.now) more
            old (W.contents out.new) self.new result };

    /// A law: what is left of a trace without a header line.
    ghost unbegun: { (task : Self.Task) → can task → (p : PlanValue) (trace : List ℕ) (s : Streams)
        (f : FaultValue) → WroteNothing s
        → StopsWaiting IsUnread trace (streams s.from s.to None None) f
        → leaves task p trace s (Err f) };
}

/// Has a judge take the edges of a trace whose first piece was read, with at most so many further
/// reads, and gives what it answers.
///
/// Behind the first piece, and each one that is shorter than was asked for or ends with a whole
/// line, the judge hands on what it has written, since the next read may wait for whoever reads
/// that.
pub fn read_on<J: Judge, R: Read, W: Write>(
    judge: &mut J,
    reader: &mut Reader,
    edges: &mut Vec<Edge>,
    first: Result<bool, Fault>,
    reads: u32,
    buffer: &mut [u8],
    input: &mut R,
    out: &mut W,
) -> Result<J::Answer, Fault>
    requires room { length buffer.old ≡ piece_size }
    requires counted { first ≡ Ok true → IsCounted reader.old reads (length edges.old.items) }
    requires well_formed { AreWellFormed edges.old.items }
    requires begun { J.count judge.old ≡ 0 }
    ensures { (task : J.Task) (p : PlanValue) (v : VersionValue)
        → J.stands task p v [] (W.contents out.old) (W.contents out.old) judge.old
        → ReadsOn (J.leaves task p) v reader.old edges.old.items first reads
        (R.remaining input.old) (R.remaining input.new)
        (W.contents out.old) (W.contents out.new) result }
{
    match judge.take(edges, first, true, out)? {
        Some(answer) => return Ok(answer),
        None => {}
    }
    'reads: for _ in 0..reads {
        edges.clear();
        let (more, count) = pump_counted(reader, input, edges, buffer);
        let paused = has_paused(buffer, count);
        match judge.take(edges, more, paused, out)? {
            Some(answer) => return Ok(answer),
            None => {}
        }
    }
    match judge.take(&[], Err(Fault::Read), false, out)? {
        Some(answer) => Ok(answer),
        None => Err(Fault::Read),
    }
}

/// Reads a trace that stands alone by a judge, on a plan. Its frame is large.
#[inline(never)]
fn read_trace<J: Judge, R: Read, W: Write>(
    alloc: Global,
    plan: Plan,
    task: &J::Task,
    buffer: &mut [u8],
    trace: &mut R,
    out: &mut W,
) -> Result<J::Answer, Fault>
    requires room { length buffer.old ≡ piece_size }
    requires can { J.can task.now }
    ensures { ReadsInput (J.leaves task.now plan)
        (streams (R.remaining trace.old) (R.remaining trace.new)
        (W.contents out.old) (W.contents out.new)) result }
{
    let mut input = Input::new(alloc);
    let version = input.begin(buffer, trace)?;
    let mut judge = J::begin(task, Bus::new(plan, version));
    input.read_on(&mut judge, buffer, trace, out)
}

/// Reads a trace by a judge, on the plan of a scenario. It makes at most 16,777,216 reads.
///
/// # Errors
/// F2, the faults of the scenario and F3, before anything is read or written; those of the judge.
pub fn read<J: Judge, R: Read, W: Write>(
    alloc: Global,
    scenario: &[u8],
    task: &J::Task,
    trace: &mut R,
    out: &mut W,
) -> Result<J::Answer, EngineFault>
    requires can { J.can task.now }
    ensures { let s = streams (R.remaining trace.old) (R.remaining trace.new)
        (W.contents out.old) (W.contents out.new) in
        ReadsLent scenario.now (ReadNothing s × WroteNothing s)
        (λ p. ReadsInput (J.leaves task.now p) s) result }
{
    let plan = plan_of(alloc, scenario)?;
    let mut buffer = buffer_of(alloc)?;
    match read_trace::<J, R, W>(alloc, plan, task, &mut buffer, trace, out) {
        Ok(answer) => Ok(answer),
        Err(fault) => Err(EngineFault::Trace(fault)),
    }
}
