//! Summing a trace up: what it exercised, and what each board did.
ghost use Rattle.std.specs.Prelude.{◌≡◌, ◌+◌, ◌<◌, ◌^◌, ◌++◌, ◌∷◌, [], length, refl, IsTrue, OnOk, OnErr, IfOk, IfErr};
ghost use Rattle.std.specs.Io.KnownBytes.{Appends};
ghost use Rattle.vme_model.specs.Signals.{is_well_formed};
ghost use Rattle.vme_model.specs.Locality.{AreWellFormed};
ghost use Rattle.vme_trace.specs.Writing.{AppendsFront};
ghost use Rattle.vme_summary.specs.Tally.{answered, refused};
ghost use Rattle.vme_summary.specs.Summary.{summary_text};
ghost use Rattle.vme_engines.specs.Streams.{streams, ReadNothing, WroteNothing};
ghost use Rattle.vme_engines.specs.Outcomes.{LentAsking, status_with};
ghost use Rattle.vme_engines.specs.Steps.{traced};
ghost use Rattle.vme_engines.specs.Summing.{SumsInput};
ghost use Rattle.vme_engines.specs.Summed.{IsSumOf, OfSum, SumsPiece};
ghost use Rattle.std.proofs.Common.{append-nil, arith, subst, sym, List};
ghost use Rattle.std.proofs.KnownBytes.{Keeps-refl};
ghost use Rattle.vme_model.specs.declared.signals.Edge.{Edge as EdgeValue};

use crate::following::Following;
use crate::pieces::{Judge, buffer_of};
use crate::plans::plan_of;
use crate::replays::status_of;
use crate::traces::Input;
use crate::{EngineFault, Status};
use std::alloc::Global;
use std::io::{Read, Write};
use vme_bus::Bus;
use vme_model::Edge;
use vme_slots::Plan;
use vme_summary::{Tally, write_summary};
use vme_trace::{Fault, flush};

/// A trace on the way to its end, with what its edges came to.
#[derive(Drop)]
pub(crate) struct Summing {
    pub(crate) following: Following,
    pub(crate) tally: Tally,
}

impl Summing {
    /// Takes in the next edge.
    fn take_edge(&mut self, edge: &Edge)
        requires room { self.old.following.judged + 1 < 2 ^ 64 }
        requires well_formed { IsTrue (is_well_formed edge.now) }
        ensures judged { self.new.following.judged ≡ self.old.following.judged + 1 }
        ensures sum { OfSum self.old (λ b es. IsSumOf b (es ++ edge.now ∷ []) self.new) }
    {
        let events = self.following.events(edge);
        let answer = self.following.step(edge);
        self.following.judged += 1;
        self.tally.note(edge, &answer, events.as_slice());
    }

    /// Takes in the next edges.
    pub(crate) fn take_edges(&mut self, edges: &[Edge])
        requires room { self.old.following.judged + length edges.now < 2 ^ 64 }
        requires well_formed { AreWellFormed edges.now }
        ensures judged { self.new.following.judged
            ≡ self.old.following.judged + length edges.now }
        ensures sum { OfSum self.old (λ b es. IsSumOf b (es ++ edges.now) self.new) }
    {
        for edge in edges {
            self.take_edge(edge);
        }
    }

    /// Writes what the edges came to, and has the writer hand on what it holds back. The status says
    /// whether some edge was refused.
    fn tell<W: Write>(&self, out: &mut W) -> Result<Status, Fault>
        ensures status { IfOk result (λ status. OfSum self.now (λ b es.
            status ≡ status_with (refused (answered b es)))) }
        ensures ok { OnOk result (OfSum self.now (λ b es.
            Appends (W.contents out.old) (W.contents out.new)
            (summary_text b.plan (answered b es)))) }
        ensures front { OnErr result (OfSum self.now (λ b es.
            AppendsFront (W.contents out.old) (W.contents out.new)
            (summary_text b.plan (answered b es)))) }
        ensures fault { IfErr result (λ fault. fault ≡ Fault.Write) }
    {
        write_summary(self.following.bus.plan(), &self.tally, out)?;
        flush(out)?;
        Ok(status_of(self.tally.refused()))
    }
}

/// Takes in the edges of a piece, and tells what all came to at the end of the trace.
///
/// `more` is what the read of the piece answered. None where the trace goes on.
fn sum_piece<W: Write>(
    summing: &mut Summing,
    edges: &[Edge],
    more: Result<bool, Fault>,
    out: &mut W,
) -> Result<Option<Status>, Fault>
    requires room { summing.old.following.judged + length edges.now < 2 ^ 64 }
    requires well_formed { AreWellFormed edges.now }
    ensures { SumsPiece summing.old edges.now more
        (W.contents out.old) (W.contents out.new) summing.new result }
{
    summing.take_edges(edges);
    match more {
        Ok(true) => Ok(None),
        Ok(false) => Ok(Some(summing.tell(out)?)),
        Err(fault) => Err(fault),
    }
}

impl Judge for Summing {
    type Answer = Status;

    ghost count = { λ now. now.following.judged };

    ghost takes = { λ first es more old new now answer.
        SumsPiece first es more old new now answer };

    fn take<W: Write>(
        &mut self,
        edges: &[Edge],
        more: Result<bool, Fault>,
        _paused: bool,
        out: &mut W,
    ) -> Result<Option<Status>, Fault> {
        sum_piece(self, edges, more, out)
    }

    ghost begins = { λ first old. (
      refl,
      Keeps-refl old,
      omega arith,
      λ b es is. subst (λ (l : List EdgeValue). IsSumOf b l first) (sym (append-nil es)) is,
    ) };

    ghost goes_on = { λ first es more old new now h. (h.0, h.2) };
}

/// Sums up a trace that stands alone, on a plan.
#[inline(never)]
fn summary_of_trace<R: Read, W: Write>(
    alloc: Global,
    plan: Plan,
    buffer: &mut [u8],
    trace: &mut R,
    out: &mut W,
) -> Result<Status, Fault>
    requires room { length buffer.old ≡ 69632 }
    ensures { SumsInput
        (streams (R.remaining trace.old) (R.remaining trace.new)
        (W.contents out.old) (W.contents out.new))
        plan (traced result) }
{
    let mut input = Input::new(alloc);
    let version = input.begin(buffer, trace)?;
    let following = Following::new(Bus::new(plan, version));
    let tally = Tally::new();
    let mut summing = Summing { following, tally };
    input.read_on(&mut summing, buffer, trace, out)
}

/// Sums a trace up, on the plan of a scenario.
///
/// Writes at its end how many edges were accepted and refused, and by which rules; which rules let
/// none pass; which situations came, and which never; how long each board waited for the bus and held
/// it, and how many cycles and answers it made. The status is that of a replay. It makes at most
/// 16,777,216 reads.
///
/// Errors: F2, the faults of the scenario and F3, before anything is read or written; those of the
/// trace, and then nothing is written; X8 where the output cannot be written.
pub fn summary<R: Read, W: Write>(
    alloc: Global,
    scenario: &[u8],
    trace: &mut R,
    out: &mut W,
) -> Result<Status, EngineFault>
    ensures { let s = streams (R.remaining trace.old) (R.remaining trace.new)
        (W.contents out.old) (W.contents out.new) in
        LentAsking scenario.now (ReadNothing s × WroteNothing s) (SumsInput s) result }
{
    let plan = plan_of(alloc, scenario)?;
    let mut buffer = buffer_of(alloc)?;
    match summary_of_trace(alloc, plan, &mut buffer, trace, out) {
        Ok(status) => Ok(status),
        Err(fault) => Err(EngineFault::Trace(fault)),
    }
}
