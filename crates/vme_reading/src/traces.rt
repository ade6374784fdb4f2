//! A trace that stands alone: it is read up to its header line, and from there piece by piece.
ghost use Rattle.std.specs.Prelude.{◌≡◌, ◌≢◌, ◌++◌, ◌-◌, ◌<◌, ℕ, List, Option, [], Ok, None, true, false, length, OnOk, IfOk, IfErr};
ghost use Rattle.vme_model.specs.declared.signals.Edge.{Edge as EdgeValue};
ghost use Rattle.vme_model.specs.declared.signals.Version.{Version as VersionValue};
ghost use Rattle.vme_trace.specs.Reading.{HasRead};
ghost use Rattle.vme_reading.specs.Streams.{streams};
ghost use Rattle.vme_reading.specs.Steps.{Opens, piece_size};
ghost use Rattle.vme_reading.specs.Readings.{ReadsInput};
ghost use Rattle.vme_model.specs.Plan.{Plan as PlanValue};
ghost use Rattle.vme_reading.specs.Begun.{IsUntouched, IsReady, HasCome, HasBegun, IsUnbegun};
ghost use Rattle.vme_reading.specs.Pairs.{IsReadWhole, MeetsFault};
ghost use Rattle.vme_reading.specs.Sides.{goes_on, turns_left};

use crate::READS;
use crate::readings::{Judge, read_on};
use std::alloc::Global;
use std::io::{Read, Write};
use vme_model::{Edge, Version};
use vme_trace::{Fault, Reader, pump_with};

/// A trace that stands alone, as it is read.
#[derive(Drop)]
pub(crate) struct Input {
    reader: Reader,
    /// The edges of the last piece.
    pub(crate) edges: Vec<Edge>,
    /// What the last read answered.
    pub(crate) more: Result<bool, Fault>,
    /// How many reads are left after it.
    reads: u32,
}

impl Input {
    /// Before the first read.
    pub(crate) fn new(alloc: Global) -> Input
        ensures { IsUntouched result }
    {
        Input {
            reader: Reader::new(),
            edges: Vec::new(alloc),
            more: Ok(true),
            reads: 0,
        }
    }

    /// Reads up to the header line into the buffer of a piece, and gives the version that it names.
    ///
    /// # Errors
    /// The faults of the trace up to there.
    pub(crate) fn begin<R: Read>(
        &mut self,
        buffer: &mut [u8],
        trace: &mut R,
    ) -> Result<Version, Fault>
        requires room { length buffer.old ≡ piece_size }
        requires untouched { IsUntouched self.old }
        ensures ready { OnOk result (IsReady self.new) }
        ensures begun { IfOk result (λ version.
            HasBegun (R.remaining trace.old) (R.remaining trace.new) version self.new) }
        ensures unbegun { IfErr result (IsUnbegun (R.remaining trace.old) (R.remaining trace.new)) }
    {
        let (first, reads) = open(&mut self.reader, trace, &mut self.edges, buffer);
        self.more = first;
        self.reads = reads;
        match self.reader.version() {
            Some(version) => Ok(version),
            None => match first {
                Ok(_) => Err(Fault::Read),
                Err(fault) => Err(fault),
            },
        }
    }

    /// Has a judge take the edges of the trace, piece by piece, and gives what it answers.
    pub(crate) fn read_on<J: Judge, R: Read, W: Write>(
        &mut self,
        judge: &mut J,
        buffer: &mut [u8],
        trace: &mut R,
        out: &mut W,
    ) -> Result<J::Answer, Fault>
        requires room { length buffer.old ≡ piece_size }
        requires ready { IsReady self.old }
        requires begun { J.count judge.old ≡ 0 }
        ensures { (task : J.Task) (p : PlanValue) (v : VersionValue) (from : Option (List ℕ))
            → J.stands task p v [] (W.contents out.old) (W.contents out.old) judge.old
            → HasBegun from (R.remaining trace.old) v self.old
            → ReadsInput (J.leaves task p)
            (streams from (R.remaining trace.new) (W.contents out.old) (W.contents out.new))
            result }
    {
        read_on(
            judge,
            &mut self.reader,
            &mut self.edges,
            self.more,
            self.reads,
            buffer,
            trace,
            out,
        )
    }

    /// Whether more of the trace may come.
    pub(crate) fn goes_on(&self) -> bool
        ensures { result ≡ goes_on self.now.more }
    {
        match self.more {
            Ok(more) => more,
            Err(_) => false,
        }
    }

    /// Reads the next piece of the trace into the buffer of a piece. The edges are then those of
    /// this piece alone.
    pub(crate) fn read_piece<R: Read>(&mut self, buffer: &mut [u8], trace: &mut R)
        requires room { length buffer.old ≡ piece_size }
        requires goes_on { self.old.more ≡ Ok true }
        ensures comes { (from : Option (List ℕ)) (v : VersionValue) (es : List EdgeValue)
            → HasCome from (R.remaining trace.old) v es self.old
            → HasCome from (R.remaining trace.new) v (es ++ self.new.edges.items) self.new }
        ensures fewer { turns_left self.new.more self.new.reads
            < turns_left self.old.more self.old.reads }
        ensures counts { self.new.reads ≡ self.old.reads - 1 }
    {
        self.edges.clear();
        if self.reads == 0 {
            self.more = Err(Fault::Read);
            return;
        }
        self.reads -= 1;
        self.more = pump_with(&mut self.reader, trace, &mut self.edges, buffer);
    }

    /// Reads the rest of the trace, for its fault.
    pub(crate) fn read_out<R: Read>(
        &mut self,
        buffer: &mut [u8],
        trace: &mut R,
    ) -> Result<(), Fault>
        requires room { length buffer.old ≡ piece_size }
        ensures whole { OnOk result ((from : Option (List ℕ)) (v : VersionValue)
            (es : List EdgeValue) → HasCome from (R.remaining trace.old) v es self.old
            → (fs : List EdgeValue)
            × IsReadWhole (streams from (R.remaining trace.new) None None) v fs) }
        ensures fault { IfErr result (λ fault. (from : Option (List ℕ)) (v : VersionValue)
            (es : List EdgeValue) → HasCome from (R.remaining trace.old) v es self.old
            → MeetsFault (streams from (R.remaining trace.new) None None) fault) }
    {
        'reads: while self.goes_on() {
            self.read_piece(buffer, trace);
        }
        match self.more {
            Ok(_) => Ok(()),
            Err(fault) => Err(fault),
        }
    }
}

/// Reads until the header line was read, or to a fault or the end.
///
/// Gives what the last read answered, and how many reads are left.
fn open<R: Read>(
    reader: &mut Reader,
    input: &mut R,
    edges: &mut Vec<Edge>,
    buffer: &mut [u8],
) -> (Result<bool, Fault>, u32)
    requires room { length buffer.old ≡ piece_size }
    requires reader { HasRead reader.old [] [] }
    requires empty { edges.old.items ≡ [] }
    ensures { Opens (R.remaining input.old) (R.remaining input.new)
        reader.new edges.new.items result }
{
    'reads: for done in 0..READS {
        let more = pump_with(reader, input, edges, buffer);
        if is_settled(more, reader) {
            return (more, READS - 1 - done);
        }
    }
    (Err(Fault::Read), 0)
}

/// Whether the version of a trace is known, or will not be.
fn is_settled(more: Result<bool, Fault>, reader: &Reader) -> bool
    ensures settled { result ≡ true → more ≡ Ok true → reader.now.version ≢ None }
    ensures goes_on { result ≡ false → (more ≡ Ok true) × (reader.now.version ≡ None) }
{
    match more {
        Ok(true) => reader.version().is_some(),
        _ => true,
    }
}
