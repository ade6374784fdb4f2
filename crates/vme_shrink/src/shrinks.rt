//! Shrinking a trace: few edges, and behind them an edge that is answered as before.
ghost use Rattle.std.specs.Prelude.{◌≡◌, Some};
ghost use Rattle.vme_model.specs.Verdict.{kept};
ghost use Rattle.vme_trace.specs.declared.Fault.TheVariants.{Memory};
ghost use Rattle.vme_reading.specs.Outcomes.{LentAsking, bench};
ghost use Rattle.vme_reading.specs.Streams.{streams, ReadNothing, WroteNothing};
ghost use Rattle.vme_shrink.specs.Shrinking.{ShrinksInput, WritesStory};

use crate::fronts::write_story;
use std::alloc::Global;
use std::io::{Read, Write};
use vme_bus::Bus;
use vme_following::print_at_edge;
use vme_model::Edge;
use vme_reading::{Asked, AtEdge, EngineFault, Status};
use vme_shrink_search::{Front, StoryProgress};
use vme_trace::Fault;

/// What a search for a story needs: the memory for it, and who hears how far it came.
#[derive(Clone, Copy)]
struct Search<P> {
    alloc: Global,
    progress: P,
}

/// A trace under way. Once the edge that is asked for has come, there is no front.
#[derive(Drop)]
struct Shrinking<P> {
    search: Search<P>,
    front: Option<Front>,
}

impl<P: StoryProgress + Copy + Drop> AtEdge for Shrinking<P> {
    type Task = Search<P>;

    type Answer = Status;

    ghost stands = { λ p v es now. now.front ≡ Some (kept (bench p v) es) };

    ghost writes = { WritesStory };

    ghost fails = { λ fault. fault ≡ Memory };

    fn begin(task: &Search<P>, bus: Bus) -> Shrinking<P> {
        let front = Front::new(task.alloc, bus);
        Shrinking {
            search: *task,
            front: Some(front),
        }
    }

    fn pass(&mut self, _n: u64, edge: &Edge) -> Result<bool, Fault> {
        match &mut self.front {
            Some(front) => match front.step(*edge) {
                Ok(is_accepted) => Ok(is_accepted),
                Err(_) => Err(Fault::Memory),
            },
            // Never: no edge comes behind the one that is asked for.
            None => Err(Fault::Memory),
        }
    }

    /// Writes the trace of a story of the edge.
    fn write<W: Write>(&mut self, _n: u64, edge: &Edge, out: &mut W) -> Result<Status, Fault> {
        match self.front.take() {
            Some(front) => {
                let search = &mut self.search;
                write_story(front, search.alloc, edge, out, &mut search.progress)
            }
            // Never: it writes once.
            None => Err(Fault::Failed),
        }
    }
}

/// Shrinks a trace on the plan of a scenario: writes a trace that ends with the edge that has the
/// number `edge`, counted from 1, or without one with the first that is refused.
///
/// The edges before it are a story of it and of what was kept of the edges before it
/// (`vme_shrink_search::story`), so it is answered as before. The status is `SomeRefused` if it is
/// refused, and otherwise `Done`. Without a number, if no edge is refused, it writes `legal N`. No
/// edge behind that one is judged. It makes at most 16,777,216 reads. `progress` hears of each
/// stretch of edges before it is left out to see whether the answer stays the same.
///
/// # Errors
/// F2, the faults of the scenario and F3, before anything is read or written. Those of the trace
/// before the edge; X9 if a trace without fault has fewer edges, or the number is 0; X6 if there is
/// no memory for two lists of the edges: then nothing is written. X8 if the output cannot be
/// written.
pub fn shrink<R: Read, W: Write, P: StoryProgress + Copy + Drop>(
    alloc: Global,
    scenario: &[u8],
    trace: &mut R,
    edge: Option<u64>,
    out: &mut W,
    progress: P,
) -> Result<Status, EngineFault>
    ensures { let s = streams (R.remaining trace.old) (R.remaining trace.new)
        (W.contents out.old) (W.contents out.new) in
        LentAsking scenario.now (ReadNothing s × WroteNothing s) (ShrinksInput edge s) result }
{
    let asked = Asked {
        edge,
        task: Search { alloc, progress },
    };
    print_at_edge::<Shrinking<P>, R, W>(alloc, scenario, &asked, trace, out)
}
