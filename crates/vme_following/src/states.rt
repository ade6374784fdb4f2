//! Telling where the bus stands after a trace, or after a prefix of it.
ghost use Rattle.std.specs.Prelude.{◌≡◌, Some, None, OnOk, OnErr, IfOk, IfErr};
ghost use Rattle.std.proofs.Common.{inl};
ghost use Rattle.std.specs.Io.KnownBytes.{Appends, Keeps};
ghost use Rattle.vme_model.specs.Stands.{stands_text};
ghost use Rattle.vme_trace.specs.Writing.{AppendsFront};
ghost use Rattle.vme_reading.specs.Streams.{streams, ReadNothing, WroteNothing};
ghost use Rattle.vme_reading.specs.Outcomes.{LentAsking};
ghost use Rattle.vme_following.specs.Stating.{IsAhead, States, StatesInput};
ghost use Rattle.vme_following.specs.Followed.{IsAfter, IsNotBefore, OfAfter, printed_answer, printed_behind};
ghost use Rattle.vme_reading.specs.Unread.{stops_unread};

use crate::following::{Following, Printed, status_of};
use std::alloc::Global;
use std::io::{Read, Write};
use vme_bus::Bus;
use vme_explain::write_stands;
use vme_model::Edge;
use vme_reading::{EngineFault, Judge, Status, read};
use vme_trace::{Fault, flush};

/// Writes where the bus stands, and has the writer hand on what it holds back.
fn write_place<W: Write>(following: &Following, out: &mut W) -> Result<Printed, Fault>
    ensures printed { IfOk result (λ printed. printed ≡ Printed.Block Status.Done) }
    ensures ok { OnOk result (OfAfter following.now (λ p v es.
        Appends (W.contents out.old) (W.contents out.new) (printed_behind stands_text p v es))) }
    ensures front { OnErr result (OfAfter following.now (λ p v es.
        AppendsFront (W.contents out.old) (W.contents out.new)
        (printed_behind stands_text p v es))) }
    ensures fault { IfErr result (λ fault. fault ≡ Fault.Write) }
{
    write_stands(following.judged, &following.bus, &following.marks, out)?;
    flush(out)?;
    Ok(Printed::Block(Status::Done))
}

/// A trace on the way to the place that is asked for.
#[derive(Drop)]
struct Stating {
    following: Following,
    /// How many edges stand before it; without a number all.
    after: Option<u64>,
}

impl Judge for Stating {
    type Task = Option<u64>;

    type Answer = Printed;

    ghost can = { λ _. Unit {0} };

    ghost count = { λ now. now.following.judged };

    ghost stands = { λ after p v es old new now.
        (now.after ≡ after) × Keeps old new
        × IsNotBefore after es × IsAfter p v es now.following };

    ghost leaves = { λ after p trace s answer. States after p trace s (printed_answer answer) };

    ghost unbegun = { λ after can p trace s f kept h.
        inl (
          stops_unread (IsAhead after) (elim after [ Some n ↦ tt | None ↦ tt ]) trace s f h,
          kept,
        ) };

    fn begin(task: &Option<u64>, bus: Bus) -> Stating {
        let following = Following::new(bus);
        Stating {
            following,
            after: *task,
        }
    }

    /// Prints where the bus stands once the place that is asked for is reached.
    fn take<W: Write>(
        &mut self,
        edges: &[Edge],
        more: Result<bool, Fault>,
        _paused: bool,
        out: &mut W,
    ) -> Result<Option<Printed>, Fault> {
        match self.following.follow_through(self.after, edges) {
            Some(_) => return Ok(Some(write_place(&self.following, out)?)),
            None => {}
        }
        match (more, self.after) {
            (Ok(true), _) => Ok(None),
            (Ok(false), Some(_)) => Ok(Some(Printed::Beyond(self.following.judged))),
            (Ok(false), None) => Ok(Some(write_place(&self.following, out)?)),
            (Err(fault), _) => Err(fault),
        }
    }
}

/// Prints where the bus stands after the first `after` edges of a trace, or after all, on the plan
/// of a scenario.
///
/// Writes how many edges were accepted, who holds the bus, where the grant stands, what is shown,
/// who asks, which interrupts are pending, which wires are low and which edges are open. The status
/// is `Done`. Behind the first `after` edges it judges none. It makes at most 16,777,216 reads.
///
/// # Errors
/// F2, the faults of the scenario and F3, before anything is read or written; those of the trace up
/// to that place, and X9 if a trace without fault ends before it: then nothing is written; X8 if
/// the output cannot be written.
pub fn state<R: Read, W: Write>(
    alloc: Global,
    scenario: &[u8],
    trace: &mut R,
    after: Option<u64>,
    out: &mut W,
) -> Result<Status, EngineFault>
    ensures { let s = streams (R.remaining trace.old) (R.remaining trace.new)
        (W.contents out.old) (W.contents out.new) in
        LentAsking scenario.now (ReadNothing s × WroteNothing s) (StatesInput after s) result }
{
    status_of(read::<Stating, R, W>(alloc, scenario, &after, trace, out))
}
