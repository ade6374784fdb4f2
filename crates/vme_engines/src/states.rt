//! Telling where the bus stands after a trace, or after a prefix of it.
ghost use Rattle.std.specs.Prelude.{◌≡◌, ◌+◌, ◌<◌, ◌^◌, length, refl, OnOk, OnErr, IfOk, IfErr};
ghost use Rattle.std.specs.Io.KnownBytes.{Appends};
ghost use Rattle.vme_model.specs.Stands.{stands_text};
ghost use Rattle.vme_trace.specs.Writing.{AppendsFront};
ghost use Rattle.vme_engines.specs.Streams.{streams, ReadNothing, WroteNothing};
ghost use Rattle.vme_engines.specs.Outcomes.{LentAsking};
ghost use Rattle.vme_engines.specs.Stating.{StatesInput};
ghost use Rattle.vme_engines.specs.Followed.{EndsBehind, StatesPiece, told_answer};
ghost use Rattle.vme_explain.specs.Traced.{OfTrace};
ghost use Rattle.std.proofs.Common.{arith};
ghost use Rattle.std.proofs.KnownBytes.{Keeps-refl};

use crate::following::{Following, Told, answer_of};
use crate::pieces::{Judge, buffer_of};
use crate::plans::plan_of;
use crate::traces::Input;
use crate::{EngineFault, Status};
use std::alloc::Global;
use std::io::{Read, Write};
use vme_bus::Bus;
use vme_explain::write_stands;
use vme_model::Edge;
use vme_slots::Plan;
use vme_trace::{Fault, flush};

/// Writes where the bus stands, and has the writer hand on what it holds back.
fn tell_place<W: Write>(following: &Following, out: &mut W) -> Result<Told, Fault>
    ensures told { IfOk result (λ told. told ≡ Told.Block Status.Done) }
    ensures ok { OnOk result (OfTrace following.now.bus following.now.marks
        (λ k. Appends (W.contents out.old) (W.contents out.new)
        (stands_text following.now.judged following.now.bus k))) }
    ensures front { OnErr result (OfTrace following.now.bus following.now.marks
        (λ k. AppendsFront (W.contents out.old) (W.contents out.new)
        (stands_text following.now.judged following.now.bus k))) }
    ensures fault { IfErr result (λ fault. fault ≡ Fault.Write) }
{
    write_stands(following.judged, &following.bus, &following.marks, out)?;
    flush(out)?;
    Ok(Told::Block(Status::Done))
}

/// Ends a trace that was followed and has not the place that is asked for; where that is its end, where the bus stands is
/// told.
fn end<W: Write>(following: &Following, after: Option<u64>, out: &mut W) -> Result<Told, Fault>
    ensures { EndsBehind after following.now
        (W.contents out.old) (W.contents out.new) result }
{
    match after {
        Some(_) => Ok(Told::Beyond(following.judged)),
        None => tell_place(following, out),
    }
}

/// Follows the edges of a piece, and tells where the bus stands once the place that is asked for is reached.
///
/// `more` is what the read of the piece answered. None where the trace goes on.
fn state_piece<W: Write>(
    following: &mut Following,
    after: Option<u64>,
    edges: &[Edge],
    more: Result<bool, Fault>,
    out: &mut W,
) -> Result<Option<Told>, Fault>
    requires { following.old.judged + length edges.now < 2 ^ 64 }
    ensures { StatesPiece after following.old edges.now more
        (W.contents out.old) (W.contents out.new) following.new result }
{
    match following.follow_through(after, edges) {
        Some(_) => return Ok(Some(tell_place(following, out)?)),
        None => {}
    }
    match more {
        Ok(true) => Ok(None),
        Ok(false) => Ok(Some(end(following, after, out)?)),
        Err(fault) => Err(fault),
    }
}

/// A trace on the way to the place that is asked for.
#[derive(Drop)]
struct Stating {
    following: Following,
    /// How many edges stand before it; without a number all.
    after: Option<u64>,
}

impl Judge for Stating {
    type Answer = Told;

    ghost count = { λ now. now.following.judged };

    ghost takes = { λ first es more old new now answer.
        (now.after ≡ first.after)
        × StatesPiece first.after first.following es more old new now.following answer };

    fn take<W: Write>(
        &mut self,
        edges: &[Edge],
        more: Result<bool, Fault>,
        _paused: bool,
        out: &mut W,
    ) -> Result<Option<Told>, Fault> {
        state_piece(&mut self.following, self.after, edges, more, out)
    }

    ghost begins = { λ first old. (
      refl,
      (
        refl,
        Keeps-refl old,
        λ wanted is low. omega arith,
        record { bus = refl; judged = omega arith; marks = λ k is of. of },
      ),
    ) };

    ghost goes_on = { λ first es more old new now h. (h.1.0, h.1.3.judged) };
}

/// Tells where the bus stands after a trace that stands alone, on a plan.
#[inline(never)]
fn state_trace<R: Read, W: Write>(
    alloc: Global,
    plan: Plan,
    buffer: &mut [u8],
    trace: &mut R,
    after: Option<u64>,
    out: &mut W,
) -> Result<Told, Fault>
    requires room { length buffer.old ≡ 69632 }
    ensures { StatesInput after
        (streams (R.remaining trace.old) (R.remaining trace.new)
        (W.contents out.old) (W.contents out.new))
        plan (told_answer result) }
{
    let mut input = Input::new(alloc);
    let version = input.begin(buffer, trace)?;
    let following = Following::new(Bus::new(plan, version));
    let mut state = Stating { following, after };
    input.read_on(&mut state, buffer, trace, out)
}

/// Tells where the bus stands after the first `after` edges of a trace, or after all, on the plan of a scenario.
///
/// Writes how many edges were accepted, who holds the bus, where the grant stands, what is shown, who asks, which
/// interrupts are pending, which wires are low and which edges are open. The status is `Done`. Behind the first `after`
/// edges it judges none. It makes at most 16,777,216 reads.
///
/// Errors: F2, the faults of the scenario and F3, before anything is read or written; those of the trace up to that
/// place, and X9 where a trace without fault ends before it: then nothing is written; X8 where the output cannot be
/// written.
pub fn state<R: Read, W: Write>(
    alloc: Global,
    scenario: &[u8],
    trace: &mut R,
    after: Option<u64>,
    out: &mut W,
) -> Result<Status, EngineFault>
    ensures { let s = streams (R.remaining trace.old) (R.remaining trace.new)
        (W.contents out.old) (W.contents out.new) in
        LentAsking scenario.now (ReadNothing s × WroteNothing s) (StatesInput after s) result }
{
    let plan = plan_of(alloc, scenario)?;
    let mut buffer = buffer_of(alloc)?;
    answer_of(state_trace(alloc, plan, &mut buffer, trace, after, out))
}
