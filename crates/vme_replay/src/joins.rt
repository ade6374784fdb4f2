//! A scenario and a trace in one input.
ghost use Rattle.std.specs.Prelude.{◌≡◌, ◌+◌, ◌<◌, ◌≤◌, ◌++◌, ◌∷◌, ℕ, List, [], length, take, drop, Some, None, Ok, Err, OnOk};
ghost use Rattle.vme_model.specs.Text.{header};
ghost use Rattle.vme_trace.specs.Reading.{HasRead};
ghost use Rattle.vme_reading.specs.Streams.{streams};
ghost use Rattle.vme_reading.specs.Steps.{piece_size};
ghost use Rattle.vme_replay.specs.Joining.{Joins};
ghost use Rattle.vme_replay.specs.Front.{header_line, IsHeld, IsFront, IsTextOf, Takes, Finds, Starts, JoinsBehind, ReplaysBehind};

use crate::replays::Replaying;
use arrayvec::ArrayVec;
use std::alloc::{AllocError, Global};
use std::io::{Read, Write};
use vme_bus::Bus;
use vme_model::{Edge, Version};
use vme_reading::{
    EngineFault, Judge, LineForm, READS, Reporting, SCENARIO_LIMIT, Status, buffer_of, plan_of,
    read_on,
};
use vme_slots::Plan;
use vme_trace::{Fault, Reader, header_line, header_of, read_piece};

/// How many bytes are held before a trace: those of the greatest scenario and a header line.
const HELD: usize = SCENARIO_LIMIT + 6;

/// The input before its trace.
#[derive(Drop)]
struct Front {
    /// The bytes so far, up to `HELD`.
    held: Vec<u8>,
    /// The first bytes of the line that is not complete. A line of six bytes is no header line.
    line: ArrayVec<u8, 6>,
}

/// A header line that was found.
#[derive(Clone, Copy, PartialEq, Eq, Debug)]
struct Found {
    /// The version that it names.
    version: Version,
    /// How many bytes of the piece were taken, up to its end.
    taken: usize,
}

impl Front {
    /// Before the first byte.
    fn new(alloc: Global) -> Front
        ensures { IsFront result [] }
    {
        Front {
            held: Vec::new(alloc),
            line: ArrayVec::new(),
        }
    }

    /// Holds a byte, unless enough are held.
    fn hold(&mut self, byte: u8) -> Result<(), AllocError>
        ensures line { self.new.line ≡ self.old.line }
        ensures held { OnOk result ((bytes : List ℕ)
            → IsHeld self.old.held.items bytes
            → IsHeld self.new.held.items (bytes ++ byte ∷ [])) }
    {
        if self.held.len() < HELD {
            self.held.push(byte)?;
        }
        Ok(())
    }

    /// Follows the line by a byte that does not end it.
    fn follow(&mut self, byte: u8)
        ensures held { self.new.held ≡ self.old.held }
        ensures line { (part : List ℕ) → self.old.line.items ≡ take 6 part
            → self.new.line.items ≡ take 6 (part ++ byte ∷ []) }
    {
        if !self.line.is_full() {
            self.line.push(byte);
        }
    }

    /// Takes the next byte. If it ends a header line, returns the version that the line names.
    fn take(&mut self, byte: u8) -> Result<Option<Version>, AllocError>
        ensures { (bytes : List ℕ) → IsFront self.old bytes → Takes bytes byte self.new result }
    {
        if byte != b'\n' {
            self.hold(byte)?;
            self.follow(byte);
            return Ok(None);
        }
        match header_of(&self.line) {
            Some(version) => return Ok(Some(version)),
            None => {}
        }
        self.hold(byte)?;
        self.line.clear();
        Ok(None)
    }

    /// Takes the bytes of a piece, up to the end of a header line.
    fn find(&mut self, piece: &[u8]) -> Result<Option<Found>, AllocError>
        ensures { (bytes : List ℕ) → IsFront self.old bytes
            → Finds bytes piece.now self.new result }
    {
        for (place, byte) in piece.iter().enumerate() {
            match self.take(*byte)? {
                Some(version) => {
                    let taken = place + 1;
                    return Ok(Some(Found { version, taken }));
                }
                None => {}
            }
        }
        Ok(None)
    }

    /// The text before the header line that was found.
    fn into_text(self) -> Vec<u8>
        ensures { (before : List ℕ) (version : Version)
            → IsHeld self.held.items (before ++ header version) → IsTextOf before result.items }
    {
        let mut text = self.held;
        text.truncate(text.len().saturating_sub(5));
        text
    }
}

/// What stands in a piece behind what was taken of it.
fn behind(piece: &[u8], taken: usize) -> &[u8]
    requires { taken ≤ length piece.now }
    ensures rest { result.now ≡ drop taken piece.now }
    ensures len { length result.now ≤ length piece.now }
{
    &piece[taken..]
}

/// Feeds the header line of a trace and what was read after it, and answers as a read does.
fn start(
    reader: &mut Reader,
    version: Version,
    rest: &[u8],
    edges: &mut Vec<Edge>,
) -> Result<bool, Fault>
    requires reader { HasRead reader.old [] [] }
    requires empty { edges.old.items ≡ [] }
    ensures version { reader.new.version ≡ Some version }
    ensures starts { Starts (header_line version ++ rest.now) reader.new edges.new.items result }
{
    reader.feed(header_line(version), edges)?;
    reader.feed(rest, edges)?;
    Ok(true)
}

/// Replays a trace whose header line and a piece after it were read, on a plan. Its frame is large.
#[inline(never)]
fn replay_rest<R: Read, W: Write>(
    alloc: Global,
    plan: Plan,
    version: Version,
    rest: &[u8],
    reads: u32,
    buffer: &mut [u8],
    input: &mut R,
    out: &mut W,
) -> Result<Status, Fault>
    requires room { length buffer.old ≡ piece_size }
    requires rest { length rest.now ≤ 512 }
    requires reads { reads < 16777216 }
    ensures { ReplaysBehind plan version rest.now
        (R.remaining input.old) (R.remaining input.new)
        (W.contents out.old) (W.contents out.new) result }
{
    let mut reader = Reader::new();
    let mut edges = Vec::new(alloc);
    let first = start(&mut reader, version, rest, &mut edges);
    let mut replay = Reporting::<Replaying>::begin(&LineForm::Short, Bus::new(plan, version));
    read_on(
        &mut replay,
        &mut reader,
        &mut edges,
        first,
        reads,
        buffer,
        input,
        out,
    )
}

/// Replays a trace whose header line and a piece after it were read, on the scenario before it.
fn replay_behind<R: Read, W: Write>(
    alloc: Global,
    front: Front,
    version: Version,
    rest: &[u8],
    reads: u32,
    input: &mut R,
    out: &mut W,
) -> Result<Status, EngineFault>
    requires rest { length rest.now ≤ 512 }
    requires reads { reads < 16777216 }
    ensures { JoinsBehind front version rest.now
        (R.remaining input.old) (R.remaining input.new)
        (W.contents out.old) (W.contents out.new) result }
{
    let text = front.into_text();
    let plan = plan_of(alloc, &text)?;
    let mut buffer = buffer_of(alloc)?;
    match replay_rest(alloc, plan, version, rest, reads, &mut buffer, input, out) {
        Ok(status) => Ok(status),
        Err(fault) => Err(EngineFault::Trace(fault)),
    }
}

/// Replays what stands in one input: a scenario, and from the first header line on a trace.
///
/// Writes and answers what [`replay`](crate::replay) does in the short form.
///
/// # Errors
/// X1 if no line is a header line; F1 if a read fails before one was read; F2 if more than
/// 1,048,576 bytes stand before it.
pub fn joined<R: Read, W: Write>(
    alloc: Global,
    input: &mut R,
    out: &mut W,
) -> Result<Status, EngineFault>
    ensures { Joins
        (streams (R.remaining input.old) (R.remaining input.new)
        (W.contents out.old) (W.contents out.new))
        result }
{
    let mut front = Front::new(alloc);
    let mut buffer = [0u8; 512];
    'reads: for done in 0..READS {
        let count = match read_piece(input, &mut buffer) {
            Ok(count) => count,
            Err(_) => return Err(EngineFault::CannotRead),
        };
        if count == 0 {
            return Err(EngineFault::Trace(Fault::Header));
        }
        let piece = &buffer[..count];
        match front.find(piece) {
            Err(_) => return Err(EngineFault::NoMemory),
            Ok(Some(found)) => {
                let rest = behind(piece, found.taken);
                let reads = READS - 1 - done;
                return replay_behind(alloc, front, found.version, rest, reads, input, out);
            }
            Ok(None) => {}
        }
    }
    Err(EngineFault::Trace(Fault::Read))
}
