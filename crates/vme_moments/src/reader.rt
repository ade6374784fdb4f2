//! Reading moments.
ghost use Rattle.std.specs.Prelude.{◌≡◌, ◌≤◌, ◌∷◌, [], ℕ, List, All, IfOk, IsTrue, None, length};
ghost use Rattle.vme_model.specs.Signals.{is_well_formed};
ghost use Rattle.vme_model.specs.Text.{edge_of, next_number};
ghost use Rattle.vme_trace.specs.Reading.{IsPart};
ghost use Rattle.vme_moments.specs.Consumed.{FeedsAll, IsNew};
ghost use Rattle.vme_moments.specs.Moments.{at_edge, at_moment, line_says, seen_limit};
ghost use Rattle.vme_moments.specs.Orders.{AreInOrder};
ghost use Rattle.vme_moments.specs.Reading.{ReadsMoments};
ghost use Rattle.vme_moments.specs.Taking.{Ends, IsSound, Says, Takes, rest_of};

use crate::numbers::moment_of;
use crate::{MomentsFault, SEEN_LIMIT, Seen};
use arrayvec::ArrayVec;
use std::alloc::Global;
use std::io::Read;
use vme_model::Version;
use vme_trace::{Fault, edge_of, header_of, read_piece};

/// Room for a part of a line: as many bytes as a line may have.
const PART: usize = 64;

/// The most reads of moments.
const READS: u32 = 16_777_216;

/// What moments say.
#[derive(Drop)]
pub struct Moments {
    /// The version of the rules.
    pub version: Version,
    /// The edges, by place.
    pub seen: Vec<Seen>,
}

/// A reader of moments that come in pieces of any size.
#[derive(Drop)]
struct Reader {
    version: Option<Version>,
    /// The number of the line that is not complete yet, and its bytes so far.
    line: u64,
    part: ArrayVec<u8, PART>,
    /// The last moment.
    last: Option<u64>,
    seen: Vec<Seen>,
}

impl Reader {
    /// Before the first byte.
    fn new(alloc: Global) -> Reader
        ensures { IsNew result }
    {
        Reader {
            version: None,
            line: 1,
            part: ArrayVec::new(),
            last: None,
            seen: Vec::new(alloc),
        }
    }

    /// Takes the line of a moment.
    fn take_moment(&mut self, moment: u64) -> Result<(), MomentsFault>
        ensures { Says (at_moment self.old.line self.old.last moment) self.old self.new result }
    {
        match self.last {
            Some(last) if moment < last => Err(MomentsFault::Earlier { n: self.line }),
            _ => {
                self.last = Some(moment);
                Ok(())
            }
        }
    }

    /// Takes the line of an edge, or one that spells none.
    fn take_edge(&mut self) -> Result<(), MomentsFault>
        ensures { Says (at_edge self.old.line self.old.last (edge_of self.old.part.items))
            self.old self.new result }
    {
        let Some(edge) = edge_of(self.part.as_slice()) else {
            return Err(MomentsFault::Trace(Fault::Line { n: self.line }));
        };
        let Some(moment) = self.last else {
            return Err(MomentsFault::Momentless { n: self.line });
        };
        if self.seen.len() >= SEEN_LIMIT {
            return Err(MomentsFault::TooMany);
        }
        let line = self.line;
        match self.seen.push(Seen { edge, moment, line }) {
            Ok(()) => Ok(()),
            Err(_) => Err(MomentsFault::Trace(Fault::Memory)),
        }
    }

    /// Takes a line after the header.
    fn take_other(&mut self) -> Result<(), MomentsFault>
        requires { IsPart self.old.part.items }
        ensures { Says (line_says self.old.line self.old.last self.old.part.items)
            self.old self.new result }
    {
        match moment_of(self.part.as_slice()) {
            Some(moment) => self.take_moment(moment),
            None => self.take_edge(),
        }
    }

    /// Goes on to the next line.
    fn go_on(&mut self)
        ensures part { self.new.part.items ≡ [] }
        ensures line { self.new.line ≡ next_number self.old.line }
        ensures version { self.new.version ≡ self.old.version }
        ensures last { self.new.last ≡ self.old.last }
        ensures seen { self.new.seen.items ≡ self.old.seen.items }
    {
        self.part.clear();
        self.line = self.line.saturating_add(1);
    }

    /// Takes the header line.
    fn take_header(&mut self) -> Result<(), MomentsFault>
        requires sound { IsSound self.old }
        requires unnamed { self.old.version ≡ None }
        ensures { Takes self.old (10 ∷ []) self.new result }
    {
        match header_of(self.part.as_slice()) {
            Some(version) => {
                self.version = Some(version);
                self.go_on();
                Ok(())
            }
            None => Err(MomentsFault::Trace(Fault::Header)),
        }
    }

    /// Takes the line whose bytes stand in the part.
    fn take_line(&mut self) -> Result<(), MomentsFault>
        requires { IsSound self.old }
        ensures { Takes self.old (10 ∷ []) self.new result }
    {
        if self.version.is_none() {
            return self.take_header();
        }
        self.take_other()?;
        self.go_on();
        Ok(())
    }

    /// Takes a byte.
    fn take(&mut self, byte: u8) -> Result<(), MomentsFault>
        requires { IsSound self.old }
        ensures { Takes self.old (byte ∷ []) self.new result }
    {
        if byte == b'\n' {
            return self.take_line();
        }
        match self.part.try_push(byte) {
            Ok(()) => Ok(()),
            Err(_) => Err(MomentsFault::Trace(Fault::TooLong { n: self.line })),
        }
    }

    /// Takes a piece.
    fn feed(&mut self, piece: &[u8]) -> Result<(), MomentsFault>
        requires { IsSound self.old }
        ensures { Takes self.old piece.now self.new result }
    {
        for byte in piece {
            self.take(*byte)?;
        }
        Ok(())
    }

    /// Takes what was read for the whole text.
    fn finish(self) -> Result<Moments, MomentsFault>
        requires { IsSound self }
        ensures { Ends (rest_of self []) result }
    {
        if !self.part.is_empty() {
            return Err(MomentsFault::Trace(Fault::CutOff));
        }
        match self.version {
            Some(version) => Ok(Moments {
                version,
                seen: self.seen,
            }),
            None => Err(MomentsFault::Trace(Fault::Header)),
        }
    }
}

/// Feeds the input to a new reader. The result is whether it was read to its end. Otherwise it was
/// read as often as moments may be.
fn feed_all<R: Read>(reader: &mut Reader, input: &mut R) -> Result<bool, MomentsFault>
    requires { IsNew reader.old }
    ensures { FeedsAll (R.remaining input.old) (R.remaining input.new) reader.new result }
{
    let mut buffer = [0u8; 512];
    'reads: for done in 0..READS {
        let count = match read_piece(input, &mut buffer) {
            Ok(count) => count,
            Err(fault) => return Err(MomentsFault::Trace(fault)),
        };
        if count == 0 {
            return Ok(true);
        }
        reader.feed(&buffer[..count])?;
    }
    Ok(false)
}

/// Reads moments to their end.
fn read_all<R: Read>(alloc: Global, input: &mut R) -> Result<Moments, MomentsFault>
    ensures { ReadsMoments (R.remaining input.old) (R.remaining input.new) result }
{
    let mut reader = Reader::new(alloc);
    if feed_all(&mut reader, input)? {
        reader.finish()
    } else {
        Err(MomentsFault::Trace(Fault::Read))
    }
}

/// Reads moments to their end. Their edges stand in the order of their lines, so their moments do
/// not fall. docs/TRACES.md describes the text.
///
/// # Errors
/// The first fault of the text, which is X1 to X4, X10, X17 or F6. X5 if a read failed, or after
/// 16,777,216 reads. X6 if memory runs out.
pub fn read_moments<R: Read>(alloc: Global, input: &mut R) -> Result<Moments, MomentsFault>
    ensures reads { ReadsMoments (R.remaining input.old) (R.remaining input.new) result }
    ensures ordered { IfOk result (λ m. AreInOrder m.seen.items) }
    ensures formed { IfOk result (λ m. All (λ s. IsTrue (is_well_formed s.edge)) m.seen.items) }
    ensures few { IfOk result (λ m. length m.seen.items ≤ seen_limit) }
{
    read_all(alloc, input)
}
