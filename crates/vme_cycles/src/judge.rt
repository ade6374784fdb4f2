//! Reading a trace, and writing what its transactions are.
ghost use Rattle.std.specs.Prelude.{◌≡◌, ◌++◌, IfErr, OnErr, OnOk, Some};
ghost use Rattle.std.specs.Io.KnownBytes.{Appends};
ghost use Rattle.vme_model.specs.Numbered.{numbered};
ghost use Rattle.vme_trace.specs.Writing.{AppendsFront};
ghost use Rattle.vme_reading.specs.Streams.{ReadNothing, WroteNothing, streams};
ghost use Rattle.vme_reading.specs.Outcomes.{LentAsking, bench, refused_count};
ghost use Rattle.vme_cycles.specs.Transactions.{cycle_begun, open_cycle_line, open_lines, open_tenure_line, tenure_begun};
ghost use Rattle.vme_cycles.specs.Outcomes.{ReportsInput};
ghost use Rattle.vme_cycles.specs.Kept.{AreLines, IsKnown, IsText, OfTracked};

use crate::lines::{Line, totals_line};
use crate::tracking::Tracking;
use arrayvec::ArrayVec;
use std::alloc::Global;
use std::io::{Read, Write};
use vme_bus::Bus;
use vme_model::{Driver, Edge, Wire};
use vme_reading::{AtEach, EngineFault, Status, at_each};
use vme_trace::{Fault, flush, put};

/// Writes two lines.
fn write_both<W: Write>(first: &Line, second: &Line, out: &mut W) -> Result<(), Fault>
    ensures ok { OnOk result (Appends (W.contents out.old) (W.contents out.new)
        (first.now.items ++ second.now.items)) }
    ensures front { OnErr result (AppendsFront (W.contents out.old) (W.contents out.new)
        (first.now.items ++ second.now.items)) }
    ensures fault { IfErr result (λ fault. fault ≡ Fault.Write) }
{
    put(out, first.as_slice())?;
    put(out, second.as_slice())
}

impl Tracking {
    /// How many edges were refused.
    fn refused(&self) -> u64
        ensures { OfTracked self.now (λ p v es. result ≡ refused_count p (Some v) es) }
    {
        let accepted = u64::from(self.following.bus.len());
        self.following.judged.saturating_sub(accepted)
    }

    /// The line of the cycle that is under way, if one is.
    fn open_cycle(&self) -> Line
        ensures { OfTracked self.now (λ p v es. result.items
            ≡ open_cycle_line p (numbered (bench p v) es)) }
    {
        match self.cycle.of {
            Some(driver) => self.cycle_line(driver, None),
            None => ArrayVec::new(),
        }
    }

    /// The line of the tenure that is under way, if one is.
    fn open_tenure(&self) -> Line
        ensures { OfTracked self.now (λ p v es. result.items
            ≡ open_tenure_line p (numbered (bench p v) es)) }
    {
        match self.following.bus.holder() {
            Some(slot) => self.tenure_line(Driver::Slot(slot), None),
            None => ArrayVec::new(),
        }
    }

    /// The edge that began the cycle that is under way; 0 if none is.
    fn cycle_begun(&self) -> u64
        ensures { OfTracked self.now (λ p v es. result ≡ cycle_begun (numbered (bench p v) es)) }
    {
        match self.cycle.of {
            Some(driver) => self.last_on(driver, Wire::AddressStrobe),
            None => 0,
        }
    }

    /// The edge that began the tenure that is under way; 0 if none is.
    fn tenure_begun(&self) -> u64
        ensures { OfTracked self.now (λ p v es. result ≡ tenure_begun p (numbered (bench p v) es)) }
    {
        match self.following.bus.holder() {
            Some(slot) => self.last_on(Driver::Slot(slot), Wire::Bbsy),
            None => 0,
        }
    }

    /// Writes what is under way, in the order in which it began.
    fn write_open<W: Write>(&self, out: &mut W) -> Result<(), Fault>
        ensures ok { OnOk result (OfTracked self.now (λ p v es.
            Appends (W.contents out.old) (W.contents out.new)
            (open_lines p (numbered (bench p v) es)))) }
        ensures front { OnErr result (OfTracked self.now (λ p v es.
            AppendsFront (W.contents out.old) (W.contents out.new)
            (open_lines p (numbered (bench p v) es)))) }
        ensures fault { IfErr result (λ fault. fault ≡ Fault.Write) }
    {
        let cycle = self.open_cycle();
        let tenure = self.open_tenure();
        if self.tenure_begun() < self.cycle_begun() {
            write_both(&tenure, &cycle, out)
        } else {
            write_both(&cycle, &tenure, out)
        }
    }
}

impl AtEach for Tracking {
    type Task = ();

    ghost count = { λ now. now.following.judged };

    ghost knows = { λ _. IsKnown };

    ghost lines = { λ _. AreLines };

    ghost text = { λ _. IsText };

    ghost fails = { λ _. ⊥ };

    ghost told = { λ _ p v es bytes now knows. knows.1 };

    fn begin(_task: &(), bus: Bus) -> Tracking {
        Tracking::new(bus)
    }

    /// Writes the line of an edge that ends something or is refused.
    fn see<W: Write>(&mut self, edge: &Edge, out: &mut W) -> Result<(), Fault> {
        let line = self.take_in(edge);
        put(out, line.as_slice())?;
        Ok(())
    }

    /// Writes what is under way and the last line.
    fn finish<W: Write>(&self, out: &mut W) -> Result<Status, Fault> {
        let refused = self.refused();
        self.write_open(out)?;
        put(
            out,
            totals_line(self.cycle.ended, self.tenure.ended, refused).as_slice(),
        )?;
        flush(out)?;
        Ok(Status::of_refused(refused))
    }
}

/// Writes a line for each cycle and each tenure of a trace, at the edge that ends it, and for each
/// refused edge, on the plan of a scenario.
///
/// At the end of the trace it writes what is still under way, and how many cycles and tenures ended
/// and how many edges were refused. The status is that of a replay. It makes at most 16,777,216
/// reads. If one gave fewer bytes than were asked for, the writer hands on what it holds back
/// before the next.
///
/// # Errors
/// F2, the faults of the scenario and F3, before anything is read or written; those of the trace,
/// after the lines at the edges before them; X8 if the output cannot be written.
pub fn cycles<R: Read, W: Write>(
    alloc: Global,
    scenario: &[u8],
    trace: &mut R,
    out: &mut W,
) -> Result<Status, EngineFault>
    ensures { let s = streams (R.remaining trace.old) (R.remaining trace.new)
        (W.contents out.old) (W.contents out.new) in
        LentAsking scenario.now (ReadNothing s × WroteNothing s) (ReportsInput s) result }
{
    at_each::<Tracking, R, W>(alloc, scenario, &(), trace, out)
}
