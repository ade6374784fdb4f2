//! The trace of the other order of a race.
ghost use Rattle.std.specs.Prelude.{◌≡◌, ◌++◌, ◌∷◌, [], All, IfErr, IsTrue, List, OnErr, OnOk};
ghost use Rattle.std.specs.Io.KnownBytes.{Appends};
ghost use Rattle.vme_model.specs.declared.signals.Edge.{Edge as EdgeValue};
ghost use Rattle.vme_model.specs.declared.signals.Version.{Version as VersionValue};
ghost use Rattle.vme_model.specs.Plan.{Plan as PlanValue};
ghost use Rattle.vme_model.specs.Signals.{is_well_formed};
ghost use Rattle.vme_model.specs.Text.{text};
ghost use Rattle.vme_trace.specs.Writing.{AppendsFront};
ghost use Rattle.vme_trace.specs.declared.Fault.TheVariants.{Memory};
ghost use Rattle.vme_reading.specs.Readings.{ReadsInput, ReadsLent};
ghost use Rattle.vme_reading.specs.Streams.{ReadNothing, WroteNothing, streams};
ghost use Rattle.vme_races.specs.Listed.{AreListed, before_met};
ghost use Rattle.vme_races.specs.Other.{Orders, WritesOrder};

use crate::racing::Racing;
use std::alloc::Global;
use std::io::{Read, Write};
use vme_bus::Bus;
use vme_model::Edge;
use vme_reading::{Asked, AtEdge, EngineFault, Found, at_edge, write_trace};
use vme_store::Code;
use vme_swaps::Stop;
use vme_trace::Fault;

/// What came of the other order of a race.
#[derive(Clone, Copy, PartialEq, Eq, Debug)]
pub enum OtherOrder {
    /// Its trace was written.
    Written,
    /// There is none: the edge is refused, or does not race.
    NoRace,
    /// The whole trace has so many edges, too few.
    Beyond(u64),
}

/// A trace under way, with its accepted edges in the order of time.
#[derive(Drop)]
struct Reordering {
    racing: Racing,
    edges: Vec<Code>,
    ghost formed: { All (λ e. IsTrue (is_well_formed e)) edges.items },
}

impl Reordering {
    /// Writes the accepted edges before the one that is met, behind which so many are passed, and
    /// then the two in the other order.
    fn write_order<W: Write>(
        &self,
        passed: usize,
        edge: &Edge,
        met: &Edge,
        out: &mut W,
    ) -> Result<(), Fault>
        requires edge { IsTrue (is_well_formed edge.now) }
        requires met { IsTrue (is_well_formed met.now) }
        ensures ok { OnOk result (Appends (W.contents out.old) (W.contents out.new)
            (text self.now.racing.bus.version
            (before_met self.now.edges.items passed ++ edge.now ∷ met.now ∷ []))) }
        ensures front { OnErr result (AppendsFront (W.contents out.old) (W.contents out.new)
            (text self.now.racing.bus.version
            (before_met self.now.edges.items passed ++ edge.now ∷ met.now ∷ []))) }
        ensures fault { IfErr result (λ fault. fault ≡ Fault.Write) }
    {
        let version = self.racing.bus.version();
        let count = self.edges.len().saturating_sub(passed.saturating_add(1));
        let last = [Code::of(*edge), Code::of(*met)];
        write_trace(version, &self.edges[..count], &last, out)
    }

    /// Writes the other order of the race of the next edge, if it has one.
    fn write_race<W: Write>(&self, edge: &Edge, out: &mut W) -> Result<OtherOrder, Fault>
        requires { IsTrue (is_well_formed edge.now) }
        ensures { (p : PlanValue) (v : VersionValue) (es : List EdgeValue)
            → AreListed p v es self.now.racing self.now.edges.items
            → WritesOrder p v es edge.now (W.contents out.old) (W.contents out.new) result }
    {
        if self.racing.bus.verdict(*edge).is_err() {
            return Ok(OtherOrder::NoRace);
        }
        let mut passing = self.racing.passing;
        let walk = self.racing.recent.walk(&mut passing, edge);
        let Stop::Races { edge: met, .. } = walk.stop else {
            return Ok(OtherOrder::NoRace);
        };
        self.write_order(walk.passed, edge, &met, out)?;
        Ok(OtherOrder::Written)
    }
}

impl AtEdge for Reordering {
    type Task = Global;

    type Answer = OtherOrder;

    ghost stands = { λ p v es now. AreListed p v es now.racing now.edges.items };

    ghost writes = { WritesOrder };

    ghost fails = { λ fault. fault ≡ Memory };

    fn begin(task: &Global, bus: Bus) -> Reordering {
        Reordering {
            racing: Racing::new(*task, bus),
            edges: Vec::new(*task),
        }
    }

    /// Keeps the edge if it is accepted.
    fn pass(&mut self, n: u64, edge: &Edge) -> Result<bool, Fault> {
        let stop = self.racing.take_in(n, edge)?;
        if stop.is_none() {
            return Ok(false);
        }
        match self.edges.push(Code::of(*edge)) {
            Ok(()) => Ok(true),
            Err(_) => Err(Fault::Memory),
        }
    }

    /// Writes the other order of the race of the edge, if it has one.
    fn write<W: Write>(&mut self, _n: u64, edge: &Edge, out: &mut W) -> Result<OtherOrder, Fault> {
        self.write_race(edge, out)
    }
}

/// Writes the trace of the other order of a race, on the plan of a scenario: that of the edge that
/// has the number `edge`, counted from 1, and of the edge that stops it.
///
/// It has the accepted edges before the edge that is met, then the edge itself, and then the one
/// that is met. It is legal, but for its last edge if that is refused
/// ([`laws`](crate::laws::the_other_order_is_legal_but_for_its_last_edge)). Nothing is written if
/// the edge is refused or does not race, if a trace without fault has fewer edges, or if the number
/// is 0. No edge behind the one that is asked for is judged. It makes at most 16,777,216 reads.
///
/// # Errors
/// F2, the faults of the scenario and F3, before anything is read or written. Those of the trace
/// before the edge; X6 if there is no memory for the accepted edges: then nothing is written. X8 if
/// the output cannot be written.
pub fn other_order<R: Read, W: Write>(
    alloc: Global,
    scenario: &[u8],
    trace: &mut R,
    edge: u64,
    out: &mut W,
) -> Result<OtherOrder, EngineFault>
    ensures { let s = streams (R.remaining trace.old) (R.remaining trace.new)
        (W.contents out.old) (W.contents out.new) in
        ReadsLent scenario.now (ReadNothing s × WroteNothing s)
        (λ p. ReadsInput (Orders edge p) s) result }
{
    let asked = Asked {
        edge: Some(edge),
        task: alloc,
    };
    match at_edge::<Reordering, R, W>(alloc, scenario, &asked, trace, out) {
        Ok(Found::At(order)) => Ok(order),
        // Never all are legal: an edge is asked for by its number.
        Ok(Found::Beyond(edges) | Found::Legal(edges)) => Ok(OtherOrder::Beyond(edges)),
        Err(fault) => Err(fault),
    }
}
