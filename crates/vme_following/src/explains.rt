//! Explaining an edge of a trace: why it is accepted or refused.
ghost use Rattle.vme_reading.specs.Outcomes.{LentAsking};
ghost use Rattle.vme_reading.specs.Streams.{streams, ReadNothing, WroteNothing};
ghost use Rattle.vme_following.specs.Explaining.{ExplainsInput, WritesWhy};
ghost use Rattle.vme_following.specs.Followed.{IsOn};

use crate::printing::print_at_edge;
use std::alloc::Global;
use std::io::{Read, Write};
use vme_bus::Bus;
use vme_explain::{Marks, step_marked, write_why};
use vme_model::Edge;
use vme_reading::{Asked, AtEdge, EngineFault, Status};
use vme_trace::{Fault, flush};

/// An explanation under way: the bus, and the numbers of the edges that it accepted.
#[derive(Drop)]
struct Explaining {
    bus: Bus,
    marks: Marks,
}

impl AtEdge for Explaining {
    type Task = ();

    type Answer = Status;

    ghost stands = { λ p v es now. IsOn p v es now.bus now.marks };

    ghost writes = { WritesWhy };

    ghost fails = { λ _. ⊥ };

    fn begin(_task: &(), bus: Bus) -> Explaining {
        Explaining {
            bus,
            marks: Marks::new(),
        }
    }

    fn pass(&mut self, n: u64, edge: &Edge) -> Result<bool, Fault> {
        Ok(step_marked(&mut self.bus, &mut self.marks, n, edge).is_ok())
    }

    /// Writes the block of the edge. The status says whether it is refused.
    fn write<W: Write>(&mut self, n: u64, edge: &Edge, out: &mut W) -> Result<Status, Fault> {
        let answer = self.bus.answer(*edge);
        write_why(n, &self.bus, &self.marks, edge, &answer, out)?;
        flush(out)?;
        match answer {
            Ok(_) => Ok(Status::Done),
            Err(_) => Ok(Status::SomeRefused),
        }
    }
}

/// Explains an edge of a trace on the plan of a scenario: the one with the number `edge`, counted
/// from 1, or without one the first that is refused.
///
/// Writes the edge with its verdict, and the conditions of its rule, each with whether it holds and
/// since when. The status is `SomeRefused` if the edge is refused, otherwise `Done`. Without a
/// number, if no edge is refused, it writes `legal N`. Behind that edge it judges none. It makes at
/// most 16,777,216 reads.
///
/// # Errors
/// F2, the faults of the scenario and F3, before anything is read or written; those of the trace
/// before the edge, and X9 if a trace without fault has fewer edges, or the number is 0: then
/// nothing is written; X8 if the output cannot be written.
pub fn explain<R: Read, W: Write>(
    alloc: Global,
    scenario: &[u8],
    trace: &mut R,
    edge: Option<u64>,
    out: &mut W,
) -> Result<Status, EngineFault>
    ensures { let s = streams (R.remaining trace.old) (R.remaining trace.new)
        (W.contents out.old) (W.contents out.new) in
        LentAsking scenario.now (ReadNothing s × WroteNothing s) (ExplainsInput edge s) result }
{
    let asked = Asked { edge, task: () };
    print_at_edge::<Explaining, R, W>(alloc, scenario, &asked, trace, out)
}
