//! How far one edge of a trace goes back.
ghost use Rattle.std.specs.Prelude.{◌≡◌, ◌+◌, ◌<◌, ◌^◌, IfErr, IfNone, IfOk, IfSome, IsTrue, List, OnErr, OnSome, Some, length};
ghost use Rattle.std.specs.Io.KnownBytes.{Keeps};
ghost use Rattle.vme_model.specs.declared.signals.Edge.{Edge as EdgeValue};
ghost use Rattle.vme_model.specs.declared.signals.Version.{Version as VersionValue};
ghost use Rattle.vme_model.specs.Locality.{AreWellFormed};
ghost use Rattle.vme_model.specs.Plan.{Plan as PlanValue};
ghost use Rattle.vme_model.specs.Signals.{is_well_formed};
ghost use Rattle.vme_following.specs.Explaining.{IsUnasked};
ghost use Rattle.vme_reading.specs.Outcomes.{LentAsking};
ghost use Rattle.vme_reading.specs.Streams.{ReadNothing, WroteNothing, streams};
ghost use Rattle.vme_races.specs.Asked.{IsLineOf, PrintsWalk, PrintsWalkInput};
ghost use Rattle.vme_races.specs.Sought.{AreTaken, CutsLine, Seeks, WritesLine, printed_answer, printed_status};

use crate::lines::{refused_line, walk_line};
use crate::racing::Racing;
use std::alloc::Global;
use std::io::{Read, Write};
use vme_bus::Bus;
use vme_model::Edge;
use vme_reading::{EngineFault, Judge, Status, read};
use vme_swaps::Line;
use vme_trace::{Fault, flush, put};

/// What a command answers that prints one line.
#[derive(Clone, Copy, PartialEq, Eq, Debug)]
pub(crate) enum Printed {
    /// The line was written.
    Line(Status),
    /// The whole trace has so many edges, too few.
    Beyond(u64),
}

/// The edge that is asked for, by its number, and the memory for the edges before it.
#[derive(Clone, Copy)]
struct Asked {
    alloc: Global,
    edge: u64,
}

/// The answer of the command.
fn status_of(printed: Result<Printed, EngineFault>) -> Result<Status, EngineFault>
    ensures { result ≡ printed_status printed }
{
    match printed {
        Ok(Printed::Line(status)) => Ok(status),
        Ok(Printed::Beyond(count)) => Err(EngineFault::Beyond(count)),
        Err(fault) => Err(fault),
    }
}

impl Racing {
    /// Goes on with the edges up to the one that has this number, which it gives.
    ///
    /// # Errors
    /// X6.
    fn seek(&mut self, number: u64, edges: &[Edge]) -> Result<Option<Edge>, Fault>
        requires room { self.old.judged + length edges.now < 2 ^ 64 }
        requires formed { AreWellFormed edges.now }
        ensures judged { IfOk result (λ found. IfNone found
            (self.new.judged ≡ self.old.judged + length edges.now)) }
        ensures room { IfOk result (λ found. OnSome found (self.new.judged + 1 < 2 ^ 64)) }
        ensures formed { IfOk result (λ found. IfSome found (λ e. IsTrue (is_well_formed e))) }
        ensures sought { IfOk result (λ found. (p : PlanValue) (v : VersionValue)
            (es : List EdgeValue) → AreTaken p v es self.old
            → Seeks number p v es edges.now self.new found) }
        ensures fault { IfErr result (λ fault. fault ≡ Fault.Memory) }
    {
        for edge in edges {
            if self.judged + 1 == number {
                return Ok(Some(*edge));
            }
            let _ = self.take_in(edge)?;
        }
        Ok(None)
    }

    /// The line of the next edge, and the status with it.
    fn line_of(&self, edge: &Edge) -> (Line, Status)
        requires room { self.now.judged + 1 < 2 ^ 64 }
        requires formed { IsTrue (is_well_formed edge.now) }
        ensures { (p : PlanValue) (v : VersionValue) (es : List EdgeValue)
            → AreTaken p v es self.now → IsLineOf p v es edge.now result.1 result.0.items }
    {
        let number = self.judged + 1;
        let mut passing = self.passing;
        match self.bus.verdict(*edge) {
            Ok(()) => (
                walk_line(number, edge, &self.recent.walk(&mut passing, edge)),
                Status::Done,
            ),
            Err(refused) => (refused_line(number, edge, refused), Status::SomeRefused),
        }
    }

    /// Writes the line of the next edge, and has the writer hand on what it holds back.
    fn write_line_of<W: Write>(&self, edge: &Edge, out: &mut W) -> Result<Status, Fault>
        requires room { self.now.judged + 1 < 2 ^ 64 }
        requires formed { IsTrue (is_well_formed edge.now) }
        ensures writes { IfOk result (λ status. (p : PlanValue) (v : VersionValue)
            (es : List EdgeValue) → AreTaken p v es self.now
            → WritesLine p v es edge.now (W.contents out.old) (W.contents out.new) status) }
        ensures cuts { OnErr result ((p : PlanValue) (v : VersionValue)
            (es : List EdgeValue) → AreTaken p v es self.now
            → CutsLine p v es edge.now (W.contents out.old) (W.contents out.new)) }
        ensures fault { IfErr result (λ fault. fault ≡ Fault.Write) }
    {
        let (line, status) = self.line_of(edge);
        put(out, line.as_slice())?;
        flush(out)?;
        Ok(status)
    }
}

/// A trace under way, up to the edge that is asked for.
#[derive(Drop)]
struct Seeking {
    racing: Racing,
    edge: u64,
}

impl Judge for Seeking {
    type Task = Asked;

    type Answer = Printed;

    ghost can = { λ _. Unit {0} };

    ghost count = { λ now. now.racing.judged };

    ghost stands = { λ asked p v es old new now.
        (now.edge ≡ asked.edge) × Keeps old new × IsUnasked (Some asked.edge) p (Some v) es
        × AreTaken p v es now.racing };

    ghost leaves = { λ asked p trace s answer.
        PrintsWalk asked.edge p trace s (printed_answer answer) };

    fn begin(task: &Asked, bus: Bus) -> Seeking {
        Seeking {
            racing: Racing::new(task.alloc, bus),
            edge: task.edge,
        }
    }

    fn unbegun(_task: &Asked) {}

    /// Writes the line of the edge that is asked for, once it comes.
    fn take<W: Write>(
        &mut self,
        edges: &[Edge],
        more: Result<bool, Fault>,
        _paused: bool,
        out: &mut W,
    ) -> Result<Option<Printed>, Fault> {
        if let Some(edge) = self.racing.seek(self.edge, edges)? {
            let status = self.racing.write_line_of(&edge, out)?;
            return Ok(Some(Printed::Line(status)));
        }
        match more {
            Ok(true) => Ok(None),
            Ok(false) => Ok(Some(Printed::Beyond(self.racing.judged))),
            Err(fault) => Err(fault),
        }
    }
}

/// Writes how far an edge of a trace goes back, and what stops it, on the plan of a scenario: the
/// edge that has the number `edge`, counted from 1.
///
/// The status is `SomeRefused` if the edge is refused, and otherwise `Done`; of a refused edge it
/// writes the verdict. No edge behind that one is judged. It makes at most 16,777,216 reads.
///
/// # Errors
/// F2, the faults of the scenario and F3, before anything is read or written. Those of the trace
/// before the edge; X9 if a trace without fault has fewer edges, or the number is 0; X6 if there is
/// no memory for the last 200 edges: then nothing is written. X8 if the output cannot be written.
pub fn walk_of_edge<R: Read, W: Write>(
    alloc: Global,
    scenario: &[u8],
    trace: &mut R,
    edge: u64,
    out: &mut W,
) -> Result<Status, EngineFault>
    ensures { let s = streams (R.remaining trace.old) (R.remaining trace.new)
        (W.contents out.old) (W.contents out.new) in
        LentAsking scenario.now (ReadNothing s × WroteNothing s) (PrintsWalkInput edge s) result }
{
    let asked = Asked { alloc, edge };
    status_of(read::<Seeking, R, W>(alloc, scenario, &asked, trace, out))
}
