//! Reading a trace, and writing which of its edges race.
ghost use Rattle.std.specs.Prelude.{◌≡◌, IfErr, IfSome, IsTrue, OnErr, OnOk, Some};
ghost use Rattle.std.specs.Io.KnownBytes.{Appends};
ghost use Rattle.vme_model.specs.Signals.{is_well_formed};
ghost use Rattle.vme_trace.specs.declared.Fault.TheVariants.{Memory};
ghost use Rattle.vme_trace.specs.Writing.{AppendsFront};
ghost use Rattle.vme_reading.specs.Streams.{ReadNothing, WroteNothing, streams};
ghost use Rattle.vme_reading.specs.Outcomes.{LentAsking};
ghost use Rattle.vme_swaps.specs.Stops.{is_formed};
ghost use Rattle.vme_races.specs.Kept.{IsKnown, taken_line};
ghost use Rattle.vme_races.specs.Outcomes.{AreLines, IsText, ReportsInput};

use crate::lines::{last_line, race_line};
use crate::racing::Racing;
use std::alloc::Global;
use std::io::{Read, Write};
use vme_bus::Bus;
use vme_model::Edge;
use vme_reading::{AtEach, EngineFault, Status, at_each};
use vme_swaps::Stop;
use vme_trace::{Fault, flush, put};

/// A trace under way, of which so many edges were judged.
#[derive(Drop)]
struct Reporting {
    racing: Racing,
    judged: u64,
}

/// Writes the line of the n-th edge, which was taken in, if it is accepted and races.
fn write_taken<W: Write>(n: u64, edge: &Edge, stop: Option<Stop>, out: &mut W) -> Result<(), Fault>
    requires well_formed { IsTrue (is_well_formed edge.now) }
    requires met { IfSome stop (λ s. IsTrue (is_formed s)) }
    ensures ok { OnOk result (Appends (W.contents out.old) (W.contents out.new)
        (taken_line n edge.now stop)) }
    ensures front { OnErr result (AppendsFront (W.contents out.old) (W.contents out.new)
        (taken_line n edge.now stop)) }
    ensures fault { IfErr result (λ fault. fault ≡ Fault.Write) }
{
    let Some(stop) = stop else {
        return Ok(());
    };
    if !stop.is_race() {
        return Ok(());
    }
    put(out, race_line(n, edge, &stop).as_slice())
}

impl AtEach for Reporting {
    type Task = Global;

    ghost count = { λ now. now.judged };

    ghost knows = { λ _. IsKnown };

    ghost lines = { λ _ p v. AreLines p (Some v) };

    ghost text = { λ _ p v. IsText p (Some v) };

    ghost fails = { λ fault. fault ≡ Memory };

    ghost told = { λ _ p v es bytes now known. (known.0, known.1.walked, known.3) };

    fn begin(task: &Global, bus: Bus) -> Reporting {
        Reporting {
            racing: Racing::new(*task, bus),
            judged: 0,
        }
    }

    /// Writes the line of an edge that races.
    fn see<W: Write>(&mut self, edge: &Edge, out: &mut W) -> Result<(), Fault> {
        self.judged += 1;
        let stop = self.racing.take_in(self.judged, edge)?;
        write_taken(self.judged, edge, stop, out)?;
        Ok(())
    }

    /// Writes the last line.
    fn finish<W: Write>(&self, out: &mut W) -> Result<Status, Fault> {
        let accepted = u64::from(self.racing.bus.len());
        let refused = self.judged.saturating_sub(accepted);
        let counts = self.racing.counts;
        let line = last_line(accepted, counts.races, counts.waits, counts.free);
        put(out, line.as_slice())?;
        flush(out)?;
        Ok(Status::of_refused(refused))
    }
}

/// Writes a line for each accepted edge of a trace that races with one before it, on the plan of a
/// scenario.
///
/// Each accepted edge goes back by free swaps with the edge before it, past at most 200. It races
/// with the edge that stops it if it would be accepted in front of that one too; the line says what
/// that one would be answered behind it. At the end of the trace it writes how many edges were
/// accepted, how many of them race, how many wait for the edge that stops them, and how many come
/// back over one edge at the least. The status is that of a replay. It makes at most 16,777,216
/// reads. If one gave fewer bytes than were asked for, the writer hands on what it holds back
/// before the next.
///
/// # Errors
/// F2, the faults of the scenario and F3, before anything is read or written; those of the trace,
/// and X6 if there is no memory for the last 200 edges, after the lines of the edges before them;
/// X8 if the output cannot be written.
pub fn races<R: Read, W: Write>(
    alloc: Global,
    scenario: &[u8],
    trace: &mut R,
    out: &mut W,
) -> Result<Status, EngineFault>
    ensures { let s = streams (R.remaining trace.old) (R.remaining trace.new)
        (W.contents out.old) (W.contents out.new) in
        LentAsking scenario.now (ReadNothing s × WroteNothing s) (ReportsInput s) result }
{
    at_each::<Reporting, R, W>(alloc, scenario, &alloc, trace, out)
}
