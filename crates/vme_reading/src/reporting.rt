//! A command that writes lines at each edge of a trace, and last lines at its end.
ghost use Rattle.std.specs.Prelude.{◌≡◌, ◌+◌, ◌<◌, ◌^◌, ◌++◌, ◌∷◌, ℕ, List, [], Option, Some, Result, IfErr, IfOk, IsTrue, OnErr, OnOk, length};
ghost use Rattle.vme_model.specs.declared.signals.Edge.{Edge as EdgeValue};
ghost use Rattle.vme_model.specs.declared.signals.Version.{Version as VersionValue};
ghost use Rattle.vme_model.specs.Plan.{Plan as PlanValue};
ghost use Rattle.vme_model.specs.Locality.{AreWellFormed};
ghost use Rattle.vme_model.specs.Signals.{is_well_formed};
ghost use Rattle.vme_trace.specs.declared.Fault.{Fault as FaultValue};
ghost use Rattle.vme_reading.specs.Streams.{streams, ReadNothing, WroteNothing};
ghost use Rattle.vme_reading.specs.Outcomes.{bench, refused_count, status_with};
ghost use Rattle.vme_reading.specs.Readings.{ReadsInput, ReadsLent};
ghost use Rattle.vme_reading.specs.Reporting.{HasWritten, HasWrittenFront, ReportsEach, StopsAmong, StopsAt};
ghost use Rattle.vme_reading.specs.Unread.{reports_unbegun};

use crate::readings::{Judge, read};
use crate::{EngineFault, Status};
use std::alloc::Global;
use std::io::{Read, Write};
use vme_bus::Bus;
use vme_model::Edge;
use vme_trace::{Fault, flush};

/// What a command writes at each edge of a trace, and at its end.
pub trait AtEach: Drop {
    /// What it is begun with.
    type Task;

    /// How many edges it took in.
    ghost count: { Self → ℕ };

    /// It was begun with this, took in these edges of a trace of a version, on a plan, and these
    /// bytes are its lines at them.
    ghost knows: { Self.Task → PlanValue → VersionValue → List EdgeValue → List ℕ → Self
        → Type 0 };

    /// These bytes are the lines at these edges.
    ghost lines: { Self.Task → PlanValue → VersionValue → List EdgeValue → List ℕ → Type 0 };

    /// These bytes are the lines at these edges of a whole trace, and the last lines.
    ghost text: { Self.Task → PlanValue → VersionValue → List EdgeValue → List ℕ → Type 0 };

    /// Its own faults, at which it writes nothing more.
    ghost fails: { FaultValue → Type 0 };

    /// A law: what it knows as its lines are the lines.
    ghost told: { (task : Self.Task) (p : PlanValue) (v : VersionValue) (es : List EdgeValue)
        (bytes : List ℕ) (now : Self) → knows task p v es bytes now → lines task p v es bytes };

    /// Begins on a bus without edges.
    fn begin(task: &Self::Task, bus: Bus) -> Self
        ensures count { count result ≡ 0 }
        ensures knows { (p : PlanValue) (v : VersionValue) → bus ≡ bench p v
            → knows task.now p v [] [] result };

    /// Takes in the next edge, and writes its lines.
    fn see<W: Write>(&mut self, edge: &Edge, out: &mut W) -> Result<(), Fault>
        requires room { count self.old + 1 < 2 ^ 64 }
        requires formed { IsTrue (is_well_formed edge.now) }
        ensures count { OnOk result (count self.new ≡ count self.old + 1) }
        ensures knows { OnOk result ((task : Self.Task) (p : PlanValue) (v : VersionValue)
            (es : List EdgeValue) (first : Option (List ℕ))
            → HasWritten (λ p v es bytes. knows task p v es bytes self.old) p v es first
            (W.contents out.old)
            → HasWritten (λ p v es bytes. knows task p v es bytes self.new) p v
            (es ++ edge.now ∷ []) first (W.contents out.new)) }
        ensures stops { IfErr result (λ fault. (task : Self.Task) (p : PlanValue)
            (v : VersionValue) (es : List EdgeValue) (first : Option (List ℕ))
            → HasWritten (λ p v es bytes. knows task p v es bytes self.old) p v es first
            (W.contents out.old)
            → StopsAt (lines task) fails p v es (es ++ edge.now ∷ []) first (W.contents out.new)
            fault) };

    /// Takes in the edges of a piece, and writes their lines. A command that can take in many at
    /// once has a body of its own.
    fn see_all<W: Write>(&mut self, edges: &[Edge], out: &mut W) -> Result<(), Fault>
        requires room { count self.old + length edges.now < 2 ^ 64 }
        requires formed { AreWellFormed edges.now }
        ensures count { OnOk result (count self.new ≡ count self.old + length edges.now) }
        ensures knows { OnOk result ((task : Self.Task) (p : PlanValue) (v : VersionValue)
            (es : List EdgeValue) (first : Option (List ℕ))
            → HasWritten (λ p v es bytes. knows task p v es bytes self.old) p v es first
            (W.contents out.old)
            → HasWritten (λ p v es bytes. knows task p v es bytes self.new) p v
            (es ++ edges.now) first (W.contents out.new)) }
        ensures stops { IfErr result (λ fault. (task : Self.Task) (p : PlanValue)
            (v : VersionValue) (es : List EdgeValue) (first : Option (List ℕ))
            → HasWritten (λ p v es bytes. knows task p v es bytes self.old) p v es first
            (W.contents out.old)
            → StopsAmong (lines task) fails p v es edges.now first (W.contents out.new) fault) }
    {
        for edge in edges {
            self.see(edge, out)?;
        }
        Ok(())
    }

    /// Writes the last lines, and has the writer hand on what it holds back. The status says
    /// whether some edge was refused.
    fn finish<W: Write>(&self, out: &mut W) -> Result<Status, Fault>
        ensures ends { IfOk result (λ status. (task : Self.Task) (p : PlanValue)
            (v : VersionValue) (es : List EdgeValue) (first : Option (List ℕ))
            → HasWritten (λ p v es bytes. knows task p v es bytes self.now) p v es first
            (W.contents out.old)
            → HasWritten (text task) p v es first (W.contents out.new)
            × (status ≡ status_with (refused_count p (Some v) es))) }
        ensures cut { OnErr result ((task : Self.Task) (p : PlanValue) (v : VersionValue)
            (es : List EdgeValue) (first : Option (List ℕ))
            → HasWritten (λ p v es bytes. knows task p v es bytes self.now) p v es first
            (W.contents out.old)
            → HasWrittenFront (text task) p v es first (W.contents out.new)) }
        ensures fault { IfErr result (λ fault. fault ≡ Fault.Write) };
}

/// A trace under way, as [`at_each`] reads it.
#[derive(Drop)]
pub struct Reporting<S> {
    at: S,
}

impl<S: AtEach> Judge for Reporting<S> {
    type Task = S::Task;

    type Answer = Status;

    ghost can = { λ _. Unit {0} };

    ghost count = { λ now. S.count now.at };

    ghost stands = { λ task p v es old new now.
        HasWritten (λ p v es bytes. S.knows task p v es bytes now.at) p v es old new };

    ghost leaves = { λ task p trace s answer.
        ReportsEach (S.lines task) (S.text task) S.fails p trace s answer };

    ghost unbegun = { λ task can p trace s f kept h.
        reports_unbegun (S.lines task) (S.text task) S.fails p trace s f kept h };

    fn begin(task: &S::Task, bus: Bus) -> Reporting<S> {
        Reporting {
            at: S::begin(task, bus),
        }
    }

    /// Writes the lines of the edges, and at the end of the trace the last lines.
    fn take<W: Write>(
        &mut self,
        edges: &[Edge],
        more: Result<bool, Fault>,
        paused: bool,
        out: &mut W,
    ) -> Result<Option<Status>, Fault> {
        self.at.see_all(edges, out)?;
        match more {
            Ok(true) => {
                if paused {
                    flush(out)?;
                }
                Ok(None)
            }
            Ok(false) => Ok(Some(self.at.finish(out)?)),
            Err(fault) => {
                flush(out)?;
                Err(fault)
            }
        }
    }
}

/// Reads a trace, on the plan of a scenario, and has a command write lines at each edge, and last
/// lines at the end. It makes at most 16,777,216 reads.
///
/// If a read gave fewer bytes than were asked for, the writer hands on what it holds back before
/// the next.
///
/// # Errors
/// F2, the faults of the scenario and F3, before anything is read or written; those of the trace,
/// and the command's own, after the lines at the edges before them; X8 if the output cannot be
/// written.
pub fn at_each<S: AtEach, R: Read, W: Write>(
    alloc: Global,
    scenario: &[u8],
    task: &S::Task,
    trace: &mut R,
    out: &mut W,
) -> Result<Status, EngineFault>
    ensures { let s = streams (R.remaining trace.old) (R.remaining trace.new)
        (W.contents out.old) (W.contents out.new) in
        ReadsLent scenario.now (ReadNothing s × WroteNothing s)
        (λ p. ReadsInput (ReportsEach (S.lines task.now) (S.text task.now) S.fails p) s) result }
{
    read::<Reporting<S>, R, W>(alloc, scenario, task, trace, out)
}
