//! Reading a capture, and writing what it says of the bus.
ghost use Rattle.std.specs.Prelude.{◌≡◌, ◌++◌, ◌∷◌, [], ℕ, List, Option, None, Some, IfErr, IsTrue, OnOk};
ghost use Rattle.std.specs.Io.KnownBytes.{Keeps};
ghost use Rattle.vme_model.specs.declared.signals.Version.{Version as VersionValue};
ghost use Rattle.vme_captures.specs.declared.signals.Entry.{Entry as EntryValue};
ghost use Rattle.vme_captures.specs.Feeding.{HasRead};
ghost use Rattle.vme_captures.specs.Signals.{is_change};
ghost use Rattle.vme_captures.specs.Spelling.{is_entry};
ghost use Rattle.vme_reading.specs.Streams.{ReadNothing, WroteNothing, streams};
ghost use Rattle.vme_probe.specs.Ends.{are_slots};
ghost use Rattle.vme_probe.specs.Faults.{capture_fault, engine_fault, output_fault};
ghost use Rattle.vme_probe.specs.Probing.{LentText, ProbesInput, ProbesText};
ghost use Rattle.vme_probe.specs.Reads.{EndTaken, IsAt, IsNew, ReadTaken, ReadsSome, ReadsTo, Taken, skew_of, waiting_in};
ghost use Rattle.vme_probe.specs.Steps.{EntryTaken, HeadEnded, HeadTaken, NextTaken, Stands, WholeWritten};

use crate::judging::{Known, known_at_head, write_no_beginning};
use crate::samplings::{Sampling, judge_last, sampling_of};
use std::alloc::Global;
use std::io::{Read, Write};
use thiserror::Error;
use vme_captures::{CaptureFault, Change, Entry, Reader};
use vme_reading::{EngineFault, Status, TOO_MANY_ORDERS, has_paused, plan_of};
use vme_samples::SeenChange;
use vme_slots::Plan;
use vme_trace::{Fault, flush, read_piece};

/// The most reads of a capture: more than any input can give.
const READS: u64 = u64::MAX;

/// How many bytes of a capture are asked for at once.
const PIECE: usize = 512;

/// Why a capture cannot be judged, by the numbers that users see.
#[derive(PartialEq, Eq, Debug, Drop, Error)]
pub enum ProbeFault {
    /// A fault of the scenario, of the output, or of memory.
    #[error("{0}")]
    Engine(EngineFault),
    /// A fault of the capture.
    #[error("{0}")]
    Capture(CaptureFault),
    /// F5: a sample has too many orders: it has more than 12 changes.
    #[error("{}", TOO_MANY_ORDERS)]
    TooManyOrders,
}

impl From<EngineFault> for ProbeFault {
    ghost from_gives = { λ fault given. given ≡ engine_fault fault };

    fn from(fault: EngineFault) -> Self {
        ProbeFault::Engine(fault)
    }
}

impl From<CaptureFault> for ProbeFault {
    ghost from_gives = { λ fault given. given ≡ capture_fault fault };

    fn from(fault: CaptureFault) -> Self {
        ProbeFault::Capture(fault)
    }
}

impl From<Fault> for ProbeFault {
    ghost from_gives = { λ fault given. given ≡ output_fault fault };

    fn from(fault: Fault) -> Self {
        ProbeFault::Engine(EngineFault::Trace(fault))
    }
}

/// A capture, as it is judged.
#[derive(Drop)]
struct Judging {
    reader: Reader,
    /// What is known of the bus, once the head has ended.
    known: Option<Known>,
    /// The changes that wait, with `--skew`.
    sampling: Option<Sampling>,
}

impl Judging {
    /// What is known when the head of the capture has ended. If no bus that keeps the rules has its
    /// levels, that is written, and the result is none.
    ///
    /// # Errors
    /// X8 if that failed; a prefix of the line was written then.
    fn begin<W: Write>(&self, plan: &Plan, out: &mut W) -> Result<Option<Known>, Fault>
        ensures { (version : VersionValue) (bytes : List ℕ) (said : List EntryValue)
            → self.now.reader.version ≡ Some version
            → HasRead plan.now self.now.reader bytes said
            → HeadEnded plan.now version said (W.contents out.old) (W.contents out.new) result }
    {
        let Some(version) = self.reader.version() else {
            return Ok(None);
        };
        match known_at_head(plan, version, &self.reader) {
            Some(known) => Ok(Some(known)),
            None => {
                write_no_beginning(out)?;
                Ok(None)
            }
        }
    }

    /// Takes the head of the capture for ended at the moment that was read. If no bus that keeps
    /// the rules has its levels, the result is the status.
    ///
    /// # Errors
    /// X8 if that failed; a prefix of the line was written then.
    fn end_head<W: Write>(&mut self, plan: &Plan, out: &mut W) -> Result<Option<Status>, Fault>
        ensures reader { self.new.reader ≡ self.old.reader }
        ensures sampling { self.new.sampling ≡ self.old.sampling }
        ensures ended { (version : VersionValue) (bytes : List ℕ) (said : List EntryValue)
            → self.old.reader.version ≡ Some version
            → HasRead plan.now self.old.reader bytes said
            → HeadTaken plan.now version said self.new.known
            (W.contents out.old) (W.contents out.new) result }
    {
        let known = self.begin(plan, out)?;
        self.known = known;
        match known {
            Some(_) => Ok(None),
            None => Ok(Some(Status::SomeRefused)),
        }
    }

    /// Takes in a moment, which the reader has read: at the first one the head has ended. If no bus
    /// that keeps the rules has its levels, the result is the status.
    ///
    /// # Errors
    /// X8 if that failed; a prefix of the line was written then.
    fn take_moment<W: Write>(
        &mut self,
        plan: &Plan,
        out: &mut W,
    ) -> Result<Option<Status>, ProbeFault>
        ensures reader { self.new.reader ≡ self.old.reader }
        ensures skew { skew_of self.new.sampling ≡ skew_of self.old.sampling }
        ensures taken { (moment : ℕ) (version : VersionValue) (bytes : List ℕ)
            (said : List EntryValue) (from : Option (List ℕ))
            → self.old.reader.version ≡ Some version
            → HasRead plan.now self.old.reader bytes (EntryValue.Moment moment ∷ said)
            → Stands plan.now (skew_of self.old.sampling) version said self.old.known
            (waiting_in self.old.sampling) from (W.contents out.old)
            → EntryTaken plan.now (skew_of self.old.sampling) version said
            (EntryValue.Moment moment) self.new.known (waiting_in self.new.sampling)
            from (W.contents out.new) result }
    {
        match self.known {
            Some(_) => Ok(None),
            None => Ok(self.end_head(plan, out)?),
        }
    }

    /// Takes in a change, which the reader has read. If the capture is impossible there, the result
    /// is the status.
    ///
    /// # Errors
    /// F5; X8 if a text could not be written, and a prefix of it was written then.
    fn take_change<W: Write>(
        &mut self,
        plan: &Plan,
        change: &Change,
        out: &mut W,
    ) -> Result<Option<Status>, ProbeFault>
        requires { IsTrue (is_entry (EntryValue.Change change.now)) }
        ensures reader { self.new.reader ≡ self.old.reader }
        ensures skew { skew_of self.new.sampling ≡ skew_of self.old.sampling }
        ensures taken { (version : VersionValue) (bytes : List ℕ) (said : List EntryValue)
            (from : Option (List ℕ)) → self.old.reader.version ≡ Some version
            → HasRead plan.now self.old.reader bytes (EntryValue.Change change.now ∷ said)
            → Stands plan.now (skew_of self.old.sampling) version said self.old.known
            (waiting_in self.old.sampling) from (W.contents out.old)
            → EntryTaken plan.now (skew_of self.old.sampling) version said
            (EntryValue.Change change.now) self.new.known (waiting_in self.new.sampling)
            from (W.contents out.new) result }
    {
        let seen = SeenChange {
            moment: self.reader.moment().unwrap_or(0),
            change: *change,
        };
        let Some(mut known) = self.known else {
            return Ok(None);
        };
        let status = take_seen(&mut self.sampling, plan, &mut known, seen, out)?;
        self.known = Some(known);
        Ok(status)
    }

    /// Judges what a line says, which the reader has read. If the capture is impossible there, the
    /// result is the status.
    ///
    /// # Errors
    /// F5; X8 if a text could not be written, and a prefix of it was written then.
    fn take_entry<W: Write>(
        &mut self,
        plan: &Plan,
        entry: &Entry,
        out: &mut W,
    ) -> Result<Option<Status>, ProbeFault>
        requires { IsTrue (is_entry entry.now) }
        ensures reader { self.new.reader ≡ self.old.reader }
        ensures skew { skew_of self.new.sampling ≡ skew_of self.old.sampling }
        ensures taken { (version : VersionValue) (bytes : List ℕ) (said : List EntryValue)
            (from : Option (List ℕ)) → self.old.reader.version ≡ Some version
            → HasRead plan.now self.old.reader bytes (entry.now ∷ said)
            → Stands plan.now (skew_of self.old.sampling) version said self.old.known
            (waiting_in self.old.sampling) from (W.contents out.old)
            → EntryTaken plan.now (skew_of self.old.sampling) version said entry.now
            self.new.known (waiting_in self.new.sampling) from (W.contents out.new) result }
    {
        match entry {
            Entry::Moment(_) => self.take_moment(plan, out),
            Entry::Change(change) => self.take_change(plan, change, out),
            _ => Ok(None),
        }
    }

    /// Takes in the next byte of the capture. If the capture is impossible there, the result is the
    /// status.
    ///
    /// # Errors
    /// The faults of the capture; F5; X8.
    fn take_byte<W: Write>(
        &mut self,
        plan: &Plan,
        byte: u8,
        out: &mut W,
    ) -> Result<Option<Status>, ProbeFault>
        requires { ReadsSome plan.now self.old }
        ensures reads { OnOk result (ReadsSome plan.now self.new) }
        ensures taken { (skew : Option ℕ) (bytes : List ℕ) (from : Option (List ℕ))
            → IsAt plan.now skew self.old bytes from (W.contents out.old)
            → Taken plan.now skew (bytes ++ byte ∷ []) from (W.contents out.new) self.new result }
    {
        match self.reader.take(plan, byte)? {
            None => Ok(None),
            Some(entry) => self.take_entry(plan, &entry, out),
        }
    }

    /// Takes in a piece of the capture. If the capture is impossible there, the result is the
    /// status.
    ///
    /// # Errors
    /// The faults of the capture; F5; X8.
    fn take_piece<W: Write>(
        &mut self,
        plan: &Plan,
        piece: &[u8],
        out: &mut W,
    ) -> Result<Option<Status>, ProbeFault>
        requires { ReadsSome plan.now self.old }
        ensures reads { OnOk result (ReadsSome plan.now self.new) }
        ensures taken { (skew : Option ℕ) (bytes : List ℕ) (from : Option (List ℕ))
            → IsAt plan.now skew self.old bytes from (W.contents out.old)
            → Taken plan.now skew (bytes ++ piece.now) from (W.contents out.new) self.new result }
    {
        for at in 0..piece.len() {
            if let Some(status) = self.take_byte(plan, piece[at], out)? {
                return Ok(Some(status));
            }
        }
        Ok(None)
    }

    /// Judges the sample that waits, and writes how the bus stands at the end of a capture without
    /// a fault.
    ///
    /// # Errors
    /// X8 if that failed; a prefix of the text was written then.
    fn write_end<W: Write>(&mut self, plan: &Plan, out: &mut W) -> Result<Status, Fault>
        requires { IsTrue (are_slots self.old.reader.probes.items) }
        ensures reader { self.new.reader ≡ self.old.reader }
        ensures written { (skew : Option ℕ) (version : VersionValue) (bytes : List ℕ)
            (said : List EntryValue) (from : Option (List ℕ))
            → self.old.reader.version ≡ Some version
            → HasRead plan.now self.old.reader bytes said
            → Stands plan.now skew version said self.old.known (waiting_in self.old.sampling)
            from (W.contents out.old)
            → WholeWritten plan.now skew version said from (W.contents out.new) result }
    {
        let Some(mut known) = self.known else {
            return self.write_head(plan, out);
        };
        if let Some(status) = judge_last(&mut self.sampling, plan, &mut known, out)? {
            return Ok(status);
        }
        known.finish(plan, self.reader.probes(), out)
    }

    /// The same if the head ends with the capture.
    ///
    /// # Errors
    /// X8 if that failed; a prefix of the text was written then.
    fn write_head<W: Write>(&self, plan: &Plan, out: &mut W) -> Result<Status, Fault>
        requires { IsTrue (are_slots self.now.reader.probes.items) }
        ensures { (skew : Option ℕ) (version : VersionValue) (bytes : List ℕ)
            (said : List EntryValue) (from : Option (List ℕ))
            → self.now.reader.version ≡ Some version
            → HasRead plan.now self.now.reader bytes said
            → Stands plan.now skew version said None (waiting_in self.now.sampling)
            from (W.contents out.old)
            → WholeWritten plan.now skew version said from (W.contents out.new) result }
    {
        match self.begin(plan, out)? {
            Some(known) => known.finish(plan, self.reader.probes(), out),
            None => Ok(Status::SomeRefused),
        }
    }

    /// Takes what was read for the whole capture.
    ///
    /// # Errors
    /// The faults of the capture; X8.
    fn finish<W: Write>(&mut self, plan: &Plan, out: &mut W) -> Result<Status, ProbeFault>
        requires { ReadsSome plan.now self.old }
        ensures reader { self.new.reader ≡ self.old.reader }
        ensures taken { (skew : Option ℕ) (bytes : List ℕ) (from : Option (List ℕ))
            → IsAt plan.now skew self.old bytes from (W.contents out.old)
            → EndTaken plan.now skew bytes from (W.contents out.new) result }
    {
        self.reader.finish()?;
        Ok(self.write_end(plan, out)?)
    }

    /// Reads the capture once, and judges what came. The status is there at the end of the capture,
    /// or if it is impossible.
    ///
    /// # Errors
    /// The faults of the capture; F5; X8.
    fn take_read<R: Read, W: Write>(
        &mut self,
        plan: &Plan,
        buffer: &mut [u8; PIECE],
        capture: &mut R,
        out: &mut W,
    ) -> Result<Option<Status>, ProbeFault>
        requires { ReadsSome plan.now self.old }
        ensures reads { OnOk result (ReadsSome plan.now self.new) }
        ensures taken { (skew : Option ℕ) (from out_from : Option (List ℕ))
            → ReadsTo plan.now skew self.old from (R.remaining capture.old)
            out_from (W.contents out.old)
            → ReadTaken plan.now skew self.new from (R.remaining capture.new)
            out_from (W.contents out.new) result }
    {
        let count = match read_piece(capture, buffer) {
            Ok(count) => count,
            Err(fault) => return Err(ProbeFault::Capture(CaptureFault::Trace(fault))),
        };
        if count == 0 {
            return Ok(Some(self.finish(plan, out)?));
        }
        if let Some(status) = self.take_piece(plan, &buffer[..count], out)? {
            return Ok(Some(status));
        }
        flush_if(has_paused(buffer, count), out)?;
        Ok(None)
    }

    /// Reads the capture to its end, or to a change that is impossible.
    ///
    /// # Errors
    /// The faults of the capture; F5; X8.
    fn read_all<R: Read, W: Write>(
        &mut self,
        plan: &Plan,
        capture: &mut R,
        out: &mut W,
    ) -> Result<Status, ProbeFault>
        requires { IsNew (skew_of self.old.sampling) self.old }
        ensures { ProbesInput (skew_of self.old.sampling)
            (streams (R.remaining capture.old) (R.remaining capture.new)
            (W.contents out.old) (W.contents out.new)) plan.now result }
    {
        let mut buffer = [0u8; PIECE];
        'reads: for _ in 0..READS {
            if let Some(status) = self.take_read(plan, &mut buffer, capture, out)? {
                return Ok(status);
            }
        }
        Err(ProbeFault::Capture(CaptureFault::Trace(Fault::Read)))
    }

    /// Does what [`Judging::read_all`] does. At a fault, the writer hands on what it holds back.
    ///
    /// # Errors
    /// The faults of the capture; F5; X8.
    fn judge<R: Read, W: Write>(
        &mut self,
        plan: &Plan,
        capture: &mut R,
        out: &mut W,
    ) -> Result<Status, ProbeFault>
        requires { IsNew (skew_of self.old.sampling) self.old }
        ensures { ProbesInput (skew_of self.old.sampling)
            (streams (R.remaining capture.old) (R.remaining capture.new)
            (W.contents out.old) (W.contents out.new)) plan.now result }
    {
        match self.read_all(plan, capture, out) {
            Ok(status) => Ok(status),
            Err(fault) => {
                flush(out)?;
                Err(fault)
            }
        }
    }
}

/// Has the writer hand on what it holds back, if whoever writes the capture may wait.
///
/// # Errors
/// X8 if that failed.
fn flush_if<W: Write>(paused: bool, out: &mut W) -> Result<(), Fault>
    ensures kept { Keeps (W.contents out.old) (W.contents out.new) }
    ensures fault { IfErr result (λ fault. fault ≡ Fault.Write) }
{
    if paused { flush(out) } else { Ok(()) }
}

/// Takes in a change: with `--skew` it waits for its sample, and without it is judged.
///
/// # Errors
/// F5; X8 if a text could not be written, and a prefix of it was written then.
fn take_seen<W: Write>(
    sampling: &mut Option<Sampling>,
    plan: &Plan,
    known: &mut Known,
    seen: SeenChange,
    out: &mut W,
) -> Result<Option<Status>, ProbeFault>
    requires { IsTrue (is_change seen.change) }
    ensures skew { skew_of sampling.new ≡ skew_of sampling.old }
    ensures taken { NextTaken plan.now (skew_of sampling.old) (waiting_in sampling.old) seen
        known.old known.new (waiting_in sampling.new)
        (W.contents out.old) (W.contents out.new) result }
{
    match sampling {
        None => Ok(known.take(plan, seen.moment, &seen.change, out)?),
        Some(sampling) => sampling.take(plan, known, seen, out),
    }
}

/// Judges a capture on a plan.
///
/// # Errors
/// F3; the faults of the capture; F5; X8.
fn probe_on<R: Read, W: Write>(
    alloc: Global,
    plan: &Plan,
    skew: Option<u64>,
    capture: &mut R,
    out: &mut W,
) -> Result<Status, ProbeFault>
    ensures { ProbesText skew (streams (R.remaining capture.old) (R.remaining capture.new)
        (W.contents out.old) (W.contents out.new)) plan.now result }
{
    let mut judging = Judging {
        reader: Reader::new(alloc),
        known: None,
        sampling: sampling_of(alloc, skew)?,
    };
    judging.judge(plan, capture, out)
}

/// Writes a line for each change of a capture that is possible, and then how the bus stands, or
/// what stands in the way, on the plan of a scenario.
///
/// Without `skew` the changes happened in the order of their lines. With it a change that is at
/// most so much later than the one before it belongs to the same sample, and the changes of a
/// sample have no order but those of one line or pin.
///
/// The status is `Done` if the capture is possible, and `SomeRefused` if it is not. Behind a sample
/// that is impossible nothing is read but the change that completed it. If a read gave fewer bytes
/// than were asked for, the writer hands on what it holds back before the next.
///
/// # Errors
/// F2 and the faults of the scenario, and F3, before anything is read or written; those of the
/// capture and F5, after the lines of the changes that were judged before; X8 if the output cannot
/// be written.
pub fn probe<R: Read, W: Write>(
    alloc: Global,
    scenario: &[u8],
    skew: Option<u64>,
    capture: &mut R,
    out: &mut W,
) -> Result<Status, ProbeFault>
    ensures { let s = streams (R.remaining capture.old) (R.remaining capture.new)
        (W.contents out.old) (W.contents out.new) in
        LentText scenario.now (ReadNothing s × WroteNothing s) (ProbesText skew s) result }
{
    let plan = plan_of(alloc, scenario)?;
    probe_on(alloc, &plan, skew, capture, out)
}
