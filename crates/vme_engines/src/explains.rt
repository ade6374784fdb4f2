//! Explaining an edge of a trace: why it is accepted or refused.
ghost use Rattle.std.specs.Prelude.{◌≡◌, ◌+◌, ◌<◌, ◌^◌, length, refl, IsTrue, OnOk, OnErr, IfOk, IfErr};
ghost use Rattle.std.specs.Io.KnownBytes.{Appends};
ghost use Rattle.vme_model.specs.Signals.{is_well_formed};
ghost use Rattle.vme_model.specs.Locality.{AreWellFormed};
ghost use Rattle.vme_model.specs.Deliveries.{answer};
ghost use Rattle.vme_model.specs.Why.{why_text};
ghost use Rattle.vme_trace.specs.Writing.{AppendsFront};
ghost use Rattle.vme_engines.specs.Streams.{streams, ReadNothing, WroteNothing};
ghost use Rattle.vme_engines.specs.Outcomes.{LentAsking};
ghost use Rattle.vme_engines.specs.Explaining.{ExplainsInput, edge_status};
ghost use Rattle.vme_engines.specs.Followed.{EndsMissing, ExplainsPiece, told_answer};
ghost use Rattle.vme_explain.specs.Traced.{OfTrace};
ghost use Rattle.std.proofs.Common.{arith};
ghost use Rattle.std.proofs.KnownBytes.{Keeps-refl};

use crate::checks::Finding;
use crate::following::{Following, Found, Told, answer_of};
use crate::lines::write_finding;
use crate::pieces::{Judge, buffer_of};
use crate::plans::plan_of;
use crate::traces::Input;
use crate::{EngineFault, Status};
use std::alloc::Global;
use std::io::{Read, Write};
use vme_bus::Bus;
use vme_explain::write_why;
use vme_model::Edge;
use vme_slots::Plan;
use vme_trace::{Fault, flush};

/// Writes the block of the edge that was found, and has the writer hand on what it holds back. The status says whether
/// the edge is refused.
fn tell_edge<W: Write>(following: &Following, found: &Found, out: &mut W) -> Result<Status, Fault>
    requires room { following.now.judged + 1 < 2 ^ 64 }
    requires well_formed { IsTrue (is_well_formed found.now.edge) }
    requires answered { found.now.answer ≡ answer following.now.bus found.now.edge }
    ensures status { IfOk result
        (λ status. status ≡ edge_status following.now.bus found.now.edge) }
    ensures ok { OnOk result (OfTrace following.now.bus following.now.marks
        (λ k. Appends (W.contents out.old) (W.contents out.new)
        (why_text (following.now.judged + 1) following.now.bus k found.now.edge))) }
    ensures front { OnErr result (OfTrace following.now.bus following.now.marks
        (λ k. AppendsFront (W.contents out.old) (W.contents out.new)
        (why_text (following.now.judged + 1) following.now.bus k found.now.edge))) }
    ensures fault { IfErr result (λ fault. fault ≡ Fault.Write) }
{
    write_why(
        following.judged + 1,
        &following.bus,
        &following.marks,
        &found.edge,
        &found.answer,
        out,
    )?;
    flush(out)?;
    match found.answer {
        Ok(_) => Ok(Status::Done),
        Err(_) => Ok(Status::SomeRefused),
    }
}

/// Ends a trace of so many edges that has not the one that is asked for: where that is the first that is refused, all
/// are legal, and that is written.
fn end<W: Write>(edge: Option<u64>, edges: u64, out: &mut W) -> Result<Told, Fault>
    ensures { EndsMissing edge edges (W.contents out.old) (W.contents out.new) result }
{
    match edge {
        Some(_) => Ok(Told::Beyond(edges)),
        None => {
            write_finding(Finding::Legal { edges }, out)?;
            Ok(Told::Block(Status::Done))
        }
    }
}

/// Follows the edges of a piece, and tells of the one that is asked for once it comes, before it is made.
///
/// `more` is what the read of the piece answered. None where the trace goes on.
fn explain_piece<W: Write>(
    following: &mut Following,
    edge: Option<u64>,
    edges: &[Edge],
    more: Result<bool, Fault>,
    out: &mut W,
) -> Result<Option<Told>, Fault>
    requires room { following.old.judged + length edges.now < 2 ^ 64 }
    requires well_formed { AreWellFormed edges.now }
    ensures { ExplainsPiece edge following.old edges.now more
        (W.contents out.old) (W.contents out.new) following.new result }
{
    if let Some(found) = following.follow_to(edge, edges) {
        let status = tell_edge(following, &found, out)?;
        return Ok(Some(Told::Block(status)));
    }
    match more {
        Ok(true) => Ok(None),
        Ok(false) => Ok(Some(end(edge, following.judged, out)?)),
        Err(fault) => Err(fault),
    }
}

/// An explanation under way.
#[derive(Drop)]
struct Explaining {
    following: Following,
    /// The number of the edge that is asked for; without one the first that is refused.
    edge: Option<u64>,
}

impl Judge for Explaining {
    type Answer = Told;

    ghost count = { λ now. now.following.judged };

    ghost takes = { λ first es more old new now answer.
        (now.edge ≡ first.edge)
        × ExplainsPiece first.edge first.following es more old new now.following answer };

    fn take<W: Write>(
        &mut self,
        edges: &[Edge],
        more: Result<bool, Fault>,
        _paused: bool,
        out: &mut W,
    ) -> Result<Option<Told>, Fault> {
        explain_piece(&mut self.following, self.edge, edges, more, out)
    }

    ghost begins = { λ first old. (
      refl,
      (
        refl,
        Keeps-refl old,
        (λ asked is low. omega arith, λ none. refl),
        record { bus = refl; judged = omega arith; marks = λ k is of. of },
      ),
    ) };

    ghost goes_on = { λ first es more old new now h. (h.1.0, h.1.3.judged) };
}

/// Explains an edge of a trace that stands alone, on a plan.
#[inline(never)]
fn explain_trace<R: Read, W: Write>(
    alloc: Global,
    plan: Plan,
    buffer: &mut [u8],
    trace: &mut R,
    edge: Option<u64>,
    out: &mut W,
) -> Result<Told, Fault>
    requires room { length buffer.old ≡ 69632 }
    ensures { ExplainsInput edge
        (streams (R.remaining trace.old) (R.remaining trace.new)
        (W.contents out.old) (W.contents out.new))
        plan (told_answer result) }
{
    let mut input = Input::new(alloc);
    let version = input.begin(buffer, trace)?;
    let following = Following::new(Bus::new(plan, version));
    let mut explanation = Explaining { following, edge };
    input.read_on(&mut explanation, buffer, trace, out)
}

/// Explains an edge of a trace on the plan of a scenario: the one with the number `edge`, counted from 1, or without one
/// the first that is refused.
///
/// Writes the edge with its verdict, and the conditions of its rule, each with whether it holds and since when. The
/// status is `SomeRefused` where the edge is refused, and else `Done`. Without a number, where no edge is refused, it
/// writes `legal N`. Behind that edge it judges none. It makes at most 16,777,216 reads.
///
/// Errors: F2, the faults of the scenario and F3, before anything is read or written; those of the trace before the
/// edge, and X9 where a trace without fault has fewer edges, or the number is 0: then nothing is written; X8 where the
/// output cannot be written.
pub fn explain<R: Read, W: Write>(
    alloc: Global,
    scenario: &[u8],
    trace: &mut R,
    edge: Option<u64>,
    out: &mut W,
) -> Result<Status, EngineFault>
    ensures { let s = streams (R.remaining trace.old) (R.remaining trace.new)
        (W.contents out.old) (W.contents out.new) in
        LentAsking scenario.now (ReadNothing s × WroteNothing s) (ExplainsInput edge s) result }
{
    let plan = plan_of(alloc, scenario)?;
    let mut buffer = buffer_of(alloc)?;
    answer_of(explain_trace(alloc, plan, &mut buffer, trace, edge, out))
}
