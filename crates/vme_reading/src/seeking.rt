//! The edge of a trace that a command is asked for: the trace is read up to it, and no further.
ghost use Rattle.std.specs.Prelude.{◌≡◌, ◌+◌, ◌<◌, ◌^◌, ◌++◌, ◌∷◌, ℕ, List, [], Option, Some, Result, Ok, true, false, is_ok, length, IfErr, IfNone, IfOk, IfSome, IsTrue, OnOk, OnSome};
ghost use Rattle.vme_model.specs.declared.signals.Edge.{Edge as EdgeValue};
ghost use Rattle.vme_model.specs.declared.signals.Version.{Version as VersionValue};
ghost use Rattle.vme_model.specs.Plan.{Plan as PlanValue};
ghost use Rattle.vme_model.specs.Locality.{AreWellFormed};
ghost use Rattle.vme_model.specs.Signals.{is_well_formed};
ghost use Rattle.vme_model.specs.Verdict.{kept, verdict};
ghost use Rattle.vme_trace.specs.declared.Fault.{Fault as FaultValue};
ghost use Rattle.vme_reading.specs.Streams.{streams, ReadNothing, WroteNothing};
ghost use Rattle.vme_reading.specs.Outcomes.{bench};
ghost use Rattle.vme_reading.specs.Readings.{ReadsInput, ReadsLent};
ghost use Rattle.vme_reading.specs.Seeking.{SeeksEdge};
ghost use Rattle.vme_reading.specs.Unread.{seeks_unread};
ghost use Rattle.vme_reading.specs.Sought.{HasPassed, Meets, Seeks, ended};

use crate::EngineFault;
use crate::readings::{Judge, read};
use std::alloc::Global;
use std::io::{Read, Write};
use vme_bus::Bus;
use vme_model::Edge;
use vme_trace::Fault;

/// What a command does at one edge of a trace, and with the edges before it.
pub trait AtEdge: Drop {
    /// What it is begun with.
    type Task;

    /// What it answers at the edge.
    type Answer;

    /// How it stands behind these edges of a trace of a version, on a plan.
    ghost stands: { PlanValue → VersionValue → List EdgeValue → Self → Type 0 };

    /// What it writes at an edge behind these, from what the writer held to what it holds, and
    /// answers.
    ghost writes: { PlanValue → VersionValue → List EdgeValue → EdgeValue
        → Option (List ℕ) → Option (List ℕ) → Result Self.Answer FaultValue → Type 0 };

    /// The faults at which it gives up before the edge.
    ghost fails: { FaultValue → Type 0 };

    /// Begins on a bus without edges.
    fn begin(task: &Self::Task, bus: Bus) -> Self
        ensures { (p : PlanValue) (v : VersionValue) → bus ≡ bench p v → stands p v [] result };

    /// Makes the next edge, the n-th, if it is accepted, and says whether it is. A refused edge
    /// leaves it behind the same edges, too.
    fn pass(&mut self, n: u64, edge: &Edge) -> Result<bool, Fault>
        requires { IsTrue (is_well_formed edge.now) }
        ensures accepted { IfOk result (λ t. (p : PlanValue) (v : VersionValue)
            (es : List EdgeValue) → stands p v es self.old
            → t ≡ is_ok (verdict (kept (bench p v) es) edge.now)) }
        ensures passes { OnOk result ((p : PlanValue) (v : VersionValue) (es : List EdgeValue)
            → stands p v es self.old → n ≡ length es + 1
            → stands p v (es ++ edge.now ∷ []) self.new) }
        ensures stays { result ≡ Ok false → (p : PlanValue) (v : VersionValue)
            (es : List EdgeValue) → stands p v es self.old → stands p v es self.new }
        ensures fault { IfErr result fails };

    /// Writes what is asked for at the next edge, the n-th, and has the writer hand it on.
    fn write<W: Write>(&mut self, n: u64, edge: &Edge, out: &mut W) -> Result<Self::Answer, Fault>
        requires { IsTrue (is_well_formed edge.now) }
        ensures { (p : PlanValue) (v : VersionValue) (es : List EdgeValue)
            → stands p v es self.old → n ≡ length es + 1
            → writes p v es edge.now (W.contents out.old) (W.contents out.new) result };
}

/// What comes of an edge that is asked for.
#[derive(PartialEq, Eq, Debug, Drop)]
pub enum Found<A> {
    /// It came, and this is the answer at it.
    At(A),
    /// It is the first that is refused, and the whole trace has none: it has so many edges.
    Legal(u64),
    /// The whole trace has so many edges, too few.
    Beyond(u64),
}

/// An edge that is asked for, and what a command is begun with.
#[derive(Drop)]
pub struct Asked<T> {
    /// The number of the edge, counted from 1; without one, the first that is refused.
    pub edge: Option<u64>,
    pub task: T,
}

/// A trace under way, up to the edge that is asked for.
#[derive(Drop)]
struct Seeking<S> {
    at: S,
    edge: Option<u64>,
    /// How many edges were passed.
    judged: u64,
}

impl<S: AtEdge> Seeking<S> {
    /// Whether the next edge is the one that is asked for. Any other is passed.
    fn meets(&mut self, edge: &Edge) -> Result<bool, Fault>
        requires room { self.old.judged + 1 < 2 ^ 64 }
        requires formed { IsTrue (is_well_formed edge.now) }
        ensures edge { self.new.edge ≡ self.old.edge }
        ensures stays { result ≡ Ok true → self.new.judged ≡ self.old.judged }
        ensures counts { result ≡ Ok false → self.new.judged ≡ self.old.judged + 1 }
        ensures meets { IfOk result (λ t. (p : PlanValue) (v : VersionValue)
            (es : List EdgeValue)
            → HasPassed S.stands self.old.edge p v es self.old.judged self.old.at
            → Meets S.stands self.old.edge p v es edge.now self.new.judged self.new.at t) }
        ensures fault { IfErr result S.fails }
    {
        let n = self.judged + 1;
        match self.edge {
            Some(wanted) => {
                if wanted == n {
                    return Ok(true);
                }
                let _ = self.at.pass(n, edge)?;
            }
            None => {
                let is_accepted = self.at.pass(n, edge)?;
                if !is_accepted {
                    return Ok(true);
                }
            }
        }
        self.judged = n;
        Ok(false)
    }

    /// Goes on with the edges up to the one that is asked for, which it gives.
    fn seek(&mut self, edges: &[Edge]) -> Result<Option<Edge>, Fault>
        requires room { self.old.judged + length edges.now < 2 ^ 64 }
        requires formed { AreWellFormed edges.now }
        ensures edge { self.new.edge ≡ self.old.edge }
        ensures judged { IfOk result (λ found. IfNone found
            (self.new.judged ≡ self.old.judged + length edges.now)) }
        ensures room { IfOk result (λ found. OnSome found (self.new.judged + 1 < 2 ^ 64)) }
        ensures formed { IfOk result (λ found. IfSome found (λ e. IsTrue (is_well_formed e))) }
        ensures sought { IfOk result (λ found. (p : PlanValue) (v : VersionValue)
            (es : List EdgeValue)
            → HasPassed S.stands self.old.edge p v es self.old.judged self.old.at
            → Seeks S.stands self.old.edge p v es edges.now self.new.judged self.new.at found) }
        ensures fault { IfErr result S.fails }
    {
        for edge in edges {
            let is_met = self.meets(edge)?;
            if is_met {
                return Ok(Some(*edge));
            }
        }
        Ok(None)
    }

    /// What comes of the edge at the end of a trace.
    fn ended(&self) -> Found<S::Answer>
        ensures { result ≡ ended self.now.edge self.now.judged }
    {
        match self.edge {
            Some(_) => Found::Beyond(self.judged),
            None => Found::Legal(self.judged),
        }
    }
}

impl<S: AtEdge> Judge for Seeking<S> {
    type Task = Asked<S::Task>;

    type Answer = Found<S::Answer>;

    ghost can = { λ _. Unit {0} };

    ghost count = { λ now. now.judged };

    ghost stands = { λ asked p v es old new now.
        (now.edge ≡ asked.edge) × (new ≡ old)
        × HasPassed S.stands now.edge p v es now.judged now.at };

    ghost leaves = { λ asked p trace s answer.
        SeeksEdge (S.writes p) S.fails asked.edge p trace s answer };

    ghost unbegun = { λ asked can p trace s f kept h.
        seeks_unread (S.writes p) S.fails asked.edge p trace s f kept h };

    fn begin(task: &Asked<S::Task>, bus: Bus) -> Seeking<S> {
        Seeking {
            at: S::begin(&task.task, bus),
            edge: task.edge,
            judged: 0,
        }
    }

    /// Has the command write at the edge that is asked for, once it comes.
    fn take<W: Write>(
        &mut self,
        edges: &[Edge],
        more: Result<bool, Fault>,
        _paused: bool,
        out: &mut W,
    ) -> Result<Option<Found<S::Answer>>, Fault> {
        if let Some(edge) = self.seek(edges)? {
            let answer = self.at.write(self.judged + 1, &edge, out)?;
            return Ok(Some(Found::At(answer)));
        }
        match more {
            Ok(true) => Ok(None),
            Ok(false) => Ok(Some(self.ended())),
            Err(fault) => Err(fault),
        }
    }
}

/// Reads a trace up to the edge that is asked for, on the plan of a scenario, and has a command
/// write at it. Behind that edge it judges none. It makes at most 16,777,216 reads.
///
/// # Errors
/// F2, the faults of the scenario and F3, before anything is read or written; those of the trace
/// before the edge, and those of the command: if it gives up before the edge, nothing is written.
pub fn at_edge<S: AtEdge, R: Read, W: Write>(
    alloc: Global,
    scenario: &[u8],
    asked: &Asked<S::Task>,
    trace: &mut R,
    out: &mut W,
) -> Result<Found<S::Answer>, EngineFault>
    ensures { let s = streams (R.remaining trace.old) (R.remaining trace.new)
        (W.contents out.old) (W.contents out.new) in
        ReadsLent scenario.now (ReadNothing s × WroteNothing s)
        (λ p. ReadsInput (SeeksEdge (S.writes p) S.fails asked.now.edge p) s) result }
{
    read::<Seeking<S>, R, W>(alloc, scenario, asked, trace, out)
}
