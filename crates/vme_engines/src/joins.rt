//! A scenario and a trace in one input.
ghost use Rattle.std.specs.Prelude.{◌≡◌, ◌+◌, ◌<◌, ◌≤◌, ◌++◌, ◌∷◌, ℕ, List, [], length, take, Some, None, Ok, Err, IfOk, IfErr, OnOk, OnErr, true};
ghost use Rattle.std.specs.Io.KnownBytes.{Keeps};
ghost use Rattle.vme_model.specs.Text.{version_of};
ghost use Rattle.vme_engines.specs.Streams.{streams};
ghost use Rattle.vme_engines.specs.Joining.{Joins};
ghost use Rattle.vme_engines.specs.Front.{IsFront, EndsFront, Takes, Finds, Begins, ReadsPiece, JoinsBehind};
ghost use Rattle.vme_engines.specs.Steps.{};

use crate::plans::{history_room, plan_of};
use crate::replays::replay_on;
use crate::{EngineFault, READS, SCENARIO_LIMIT, Status};
use arrayvec::ArrayVec;
use std::alloc::{AllocError, Global};
use std::io::{ErrorKind, Read, Write};
use vme_backplane::Backplane;
use vme_model::{Edge, Version};
use vme_trace::{Fault, Reader};

/// How many bytes of an input are held before its trace: the greatest scenario and a header line.
const HELD: usize = SCENARIO_LIMIT + 6;

/// How often a read is tried while it is interrupted.
const TRIES: u32 = 65_536;

/// The input before its trace.
#[derive(Drop)]
struct Front {
    /// The bytes read, as far as they are held.
    held: Vec<u8>,
    /// The first bytes of the line that is not complete: a line of six bytes is no header line.
    line: ArrayVec<u8, 6>,
    /// Some byte was not held.
    is_too_long: bool,
}

/// The version that a header line names.
fn header_of(line: &[u8]) -> Option<Version>
    ensures { result ≡ version_of line.now }
{
    if line == b"vme 1".as_slice() {
        Some(Version::One)
    } else if line == b"vme 2".as_slice() {
        Some(Version::Two)
    } else {
        None
    }
}

/// The header line of a version.
fn header_line(version: Version) -> &'static [u8]
    ensures { result.now ≡ header version ++ 10 ∷ [] }
{
    match version {
        Version::One => b"vme 1\n",
        Version::Two => b"vme 2\n",
    }
}

impl Front {
    /// Before the first byte.
    fn new(alloc: Global) -> Front
        ensures { IsFront result [] }
    {
        Front {
            held: Vec::new(alloc),
            line: ArrayVec::new(),
            is_too_long: false,
        }
    }

    /// Holds a byte, unless enough are held.
    fn hold(&mut self, byte: u8) -> Result<(), AllocError>
        ensures line { self.new.line ≡ self.old.line }
        ensures { OnOk result (Holds self.old byte self.new) }
    {
        if self.held.len() < HELD {
            self.held.push(byte)?;
        } else {
            self.is_too_long = true;
        }
        Ok(())
    }

    /// Follows the line by a byte.
    fn follow(&mut self, byte: u8)
        ensures { Follows self.old byte self.new }
    {
        if byte == b'\n' {
            self.line.clear();
        } else if !self.line.is_full() {
            self.line.push(byte);
        }
    }

    /// Takes the next byte. Where it ends a header line, its version.
    fn take(&mut self, byte: u8) -> Result<Option<Version>, AllocError>
        ensures { (bytes : List ℕ) → IsFront self.old bytes → Takes self.old bytes byte self.new result }
    {
        if byte == b'\n' {
            if let Some(version) = header_of(&self.line) {
                return Ok(Some(version));
            }
        }
        self.hold(byte)?;
        self.follow(byte);
        Ok(None)
    }

    /// Takes the bytes of a piece up to the end of a header line. Where there is one, its version, and how many bytes
    /// were taken with it.
    fn find(&mut self, piece: &[u8]) -> Result<Option<(Version, usize)>, AllocError>
        ensures { (bytes : List ℕ) → IsFront self.old bytes → Finds self.old bytes piece.now self.new result }
    {
        for (place, byte) in piece.iter().enumerate() {
            if let Some(version) = self.take(*byte)? {
                return Ok(Some((version, place + 1)));
            }
        }
        Ok(None)
    }
}
