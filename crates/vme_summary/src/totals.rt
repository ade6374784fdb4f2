//! Adding up what several traces come to, each from power-up on.
ghost use Rattle.std.specs.Prelude.{◌≡◌, None, IfErr};
ghost use Rattle.vme_reading.specs.Outcomes.{LentAsking};
ghost use Rattle.vme_reading.specs.Streams.{streams, ReadNothing};
ghost use Rattle.vme_summary.specs.Summing.{IsWaiting};
ghost use Rattle.vme_summary.specs.TraceSums.{IsSumOf, Tallies};
ghost use Rattle.vme_summary.specs.Totals.{AddsInput};
ghost use Rattle.vme_reading.specs.Unread.{stops_unread};

use crate::summing::Summing;
use crate::sums::Sums;
use crate::tallies::Tally;
use std::alloc::Global;
use std::io::{Read, Sink, Write, sink};
use std::mem::replace;
use vme_bus::Bus;
use vme_model::Edge;
use vme_reading::{EngineFault, Judge, Status, read};
use vme_slots::Plan;
use vme_trace::Fault;

/// A trace on the way to its end, where it gives its tally away.
#[derive(Drop)]
pub(crate) struct Tallying {
    pub(crate) summing: Summing,
}

impl Judge for Tallying {
    type Task = ();

    type Answer = Tally;

    ghost can = { λ _. Unit {0} };

    ghost count = { λ now. now.summing.following.judged };

    ghost stands = { λ _ p v es old new now. IsSumOf p v es now.summing };

    ghost leaves = { λ _ p trace s answer. Tallies p trace s answer };

    ghost unbegun = { λ task can p trace s f kept h. stops_unread IsWaiting tt trace s f h };

    fn begin(task: &(), bus: Bus) -> Tallying {
        Tallying {
            summing: Summing::begin(task, bus),
        }
    }

    /// Takes in the edges, and gives what all came to at the end of the trace.
    fn take<W: Write>(
        &mut self,
        edges: &[Edge],
        more: Result<bool, Fault>,
        _paused: bool,
        _out: &mut W,
    ) -> Result<Option<Tally>, Fault> {
        self.summing.take_edges(edges);
        match more {
            Ok(true) => Ok(None),
            Ok(false) => Ok(Some(replace(&mut self.summing.tally, Tally::new()))),
            Err(fault) => Err(fault),
        }
    }
}

/// Adds what a trace comes to, on the plan of a scenario, to the sums of those before it.
///
/// The trace begins at power-up, whatever was added before. The status says whether some edge of it
/// was refused. It makes at most 16,777,216 reads.
///
/// # Errors
/// F2, the faults of the scenario and F3, before anything is read; those of the trace. Nothing is
/// added then.
pub fn add_trace<R: Read>(
    alloc: Global,
    scenario: &[u8],
    trace: &mut R,
    sums: &mut Sums,
) -> Result<Status, EngineFault>
    ensures adds { let s = streams (R.remaining trace.old) (R.remaining trace.new) None None in
        LentAsking scenario.now (ReadNothing s) (AddsInput s sums.old sums.new) result }
    ensures kept { IfErr result (λ _. sums.new ≡ sums.old) }
{
    let tally = read::<Tallying, R, Sink>(alloc, scenario, &(), trace, &mut sink())?;
    sums.add(&tally);
    Ok(Status::of_refused(tally.refused()))
}
