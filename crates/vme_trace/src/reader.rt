//! A reader to which a trace is fed in pieces.
ghost use Rattle.std.specs.Prelude.{◌≡◌, ◌≢◌, ◌↔◌, IsTrue, ◌+◌, ◌<◌, ◌≤◌, ◌++◌, ◌∷◌, [], ℕ, List, length, slice_index, None, Some, Err, Ok, OnOk, IfOk, IfErr, IsSome, option_map};
ghost use Rattle.vme_model.specs.declared.signals.Edge.{Edge};
ghost use Rattle.vme_model.specs.declared.signals.Version.{Version};
ghost use Rattle.vme_model.specs.Text.{read_of, next_number};
ghost use Rattle.vme_trace.specs.Reading.{IsOneLine, IsPart, HasRead, Fed, answer_of, fault_of};
ghost use Rattle.vme_trace.specs.Taking.{Leads, Fails, place};

use crate::Fault;
use crate::front::{edge_at, edge_of};
use crate::headers::header_of;
use crate::known::Known;
use arrayvec::ArrayVec;
use memchr::memchr;
use std::alloc::Allocator;
use std::marker::Model;
use vme_model::{Edge, Version};

/// Room for a part of a line, in bytes: as many as a line may have.
const PART: usize = 64;

/// Reads a trace that comes in pieces, cut anywhere. docs/TRACES.md describes the text.
///
/// It keeps at most one unfinished line. After a fault or the end it is used up, and each call
/// returns `Fault::Failed` (X7).
#[derive(Drop)]
pub struct Reader {
    version: Option<Version>,
    line: u64,
    part: ArrayVec<u8, PART>,
    used_up: bool,
    known: Known,
}

impl Model for Reader {
    ghost use Rattle.std.specs.Prelude.{Some, None, if◌then◌else◌};
    ghost use Rattle.vme_trace.specs.Reading.{IsPart, ReaderState};
    ghost use Rattle.vme_trace.specs.Taking.{place};

    ghost Value = { ReaderState };

    ghost view = { λ r. record {
      version = r.version;
      place = if r.used_up then None else Some (place r.line r.part.items);
    } };

    ghost invariant = { λ r. IsPart r.part.items };
}

impl Reader {
    /// A reader before the first byte of a trace.
    #[inline(always)]
    pub fn new() -> Reader
        ensures { HasRead result [] [] }
    {
        Reader {
            version: None,
            line: 1,
            part: ArrayVec::new(),
            used_up: false,
            known: Known::new(),
        }
    }

    /// The version that the header line names; none before that line was read. A fault or the end
    /// leaves it unchanged.
    pub fn version(&self) -> Option<Version>
        ensures { result ≡ self.now.version }
    {
        self.version
    }

    /// Reads the next piece of the trace, and appends the edges of the lines that it completes.
    ///
    /// # Errors
    /// X1 to X3, the first fault of the trace, as soon as it stands in the bytes read; the edges of
    /// the lines before it are appended. X6 if memory runs out for the list. X7 after a fault or
    /// the end.
    pub fn feed<A: Allocator>(
        &mut self,
        piece: &[u8],
        edges: &mut Vec<Edge, A>,
    ) -> Result<(), Fault>
        ensures reads { (bytes : List ℕ) (es : List Edge) → HasRead self.old bytes es
            → Fed (bytes ++ piece.now) es edges.old.items edges.new.items self.new result }
        ensures failed { self.old.place ≡ None → result ≡ Err Fault.Failed }
        ensures unchanged { self.old.place ≡ None → self.new ≡ self.old }
        ensures none_appended { self.old.place ≡ None → edges.new.items ≡ edges.old.items }
    {
        if self.used_up {
            return Err(Fault::Failed);
        }
        let result = take(
            &mut self.known,
            &mut self.version,
            &mut self.line,
            &mut self.part,
            piece,
            edges,
        );
        if result.is_err() {
            self.used_up = true;
        }
        result
    }

    /// Takes the bytes read so far as the whole trace.
    ///
    /// # Errors
    /// X4 if the last line has no line feed; X1 if there is no line; X7 after a fault or the end.
    pub fn finish(&mut self) -> Result<(), Fault>
        ensures ends { (bytes : List ℕ) (es : List Edge) → HasRead self.old bytes es
            → result ≡ answer_of (read_of bytes).fault }
        ensures named { OnOk result (IsSome self.new.version) }
        ensures used_up { self.new.place ≡ None }
        ensures version { self.new.version ≡ self.old.version }
        ensures failed { self.old.place ≡ None → result ≡ Err Fault.Failed }
    {
        if self.used_up {
            return Err(Fault::Failed);
        }
        self.used_up = true;
        if !self.part.is_empty() {
            return Err(Fault::CutOff);
        }
        if self.version.is_none() {
            return Err(Fault::Header);
        }
        Ok(())
    }

    /// Whether a fault or the end was met.
    pub(crate) fn is_used_up(&self) -> bool
        ensures { IsTrue result ↔ (self.now.place ≡ None) }
    {
        self.used_up
    }

    /// Ends the trace where it stands, without testing it.
    pub(crate) fn give_up(&mut self)
        ensures { self.new ≡ record { version = self.old.version; place = None } }
    {
        self.used_up = true;
    }
}

/// Reads a whole trace, and appends its edges up to its first fault.
///
/// # Errors
/// X1 to X4, the first fault of the trace; X6 if memory runs out for the list.
pub fn parse<A: Allocator>(bytes: &[u8], edges: &mut Vec<Edge, A>) -> Result<Version, Fault>
    ensures version { IfOk result (λ version. (read_of bytes.now).version ≡ Some version) }
    ensures whole { OnOk result ((read_of bytes.now).fault ≡ None) }
    ensures fault { IfErr result (λ fault. fault ≢ Fault.Memory
        → option_map fault_of (read_of bytes.now).fault ≡ Some fault) }
    ensures edges { result ≢ Err Fault.Memory
        → edges.new.items ≡ edges.old.items ++ (read_of bytes.now).edges }
    ensures front { (front : List Edge) × (others : List Edge)
        × ((read_of bytes.now).edges ≡ front ++ others)
        × (edges.new.items ≡ edges.old.items ++ front) }
{
    let mut reader = Reader::new();
    reader.feed(bytes, edges)?;
    reader.finish()?;
    reader.version().ok_or(Fault::Header)
}

/// The place at which the first line of the text ends: its line feed, or the text's end.
fn line_end(text: &[u8]) -> usize
    ensures bound { result ≤ length text.now }
    ensures clean { (k : ℕ) → k < result → slice_index text.now k ≢ 10 }
    ensures stops { result < length text.now → slice_index text.now result ≡ 10 }
{
    memchr(b'\n', text).unwrap_or(text.len())
}

/// The number of the next line; it stays at its greatest value.
fn next_number(n: u64) -> u64
    ensures { result ≡ next_number n }
{
    n.saturating_add(1)
}

/// Reads the n-th line, which is complete.
fn take_line<A: Allocator>(
    version: &mut Option<Version>,
    n: &mut u64,
    line: &[u8],
    edges: &mut Vec<Edge, A>,
) -> Result<(), Fault>
    requires { IsOneLine line.now }
    ensures ok { OnOk result
        (Leads version.old (place n.old []) (line.now ++ 10 ∷ [])
        edges.old.items edges.new.items version.new (place n.new [])) }
    ensures fault { IfErr result
        (Fails version.old (place n.old []) (line.now ++ 10 ∷ [])
        edges.old.items edges.new.items version.new) }
{
    if line.len() > 64 {
        return Err(Fault::TooLong { n: *n });
    }
    match *version {
        None => {
            let Some(named) = header_of(line) else {
                return Err(Fault::Header);
            };
            *version = Some(named);
        }
        Some(_) => {
            let Some(edge) = edge_of(line) else {
                return Err(Fault::Line { n: *n });
            };
            if edges.push(edge).is_err() {
                return Err(Fault::Memory);
            }
        }
    }
    *n = next_number(*n);
    Ok(())
}

/// Reads the n-th line, which begins with `part` and ends with `tail`.
fn take_joined<A: Allocator>(
    version: &mut Option<Version>,
    n: &mut u64,
    part: &mut ArrayVec<u8, PART>,
    tail: &[u8],
    edges: &mut Vec<Edge, A>,
) -> Result<(), Fault>
    requires part { IsPart part.old.items }
    requires tail { IsOneLine tail.now }
    ensures part { IsPart part.new.items }
    ensures ok { OnOk result
        (Leads version.old (place n.old part.old.items) (tail.now ++ 10 ∷ [])
        edges.old.items edges.new.items version.new (place n.new part.new.items)) }
    ensures fault { IfErr result
        (Fails version.old (place n.old part.old.items) (tail.now ++ 10 ∷ [])
        edges.old.items edges.new.items version.new) }
{
    if part.is_empty() {
        return take_line(version, n, tail, edges);
    }
    if part.try_extend_from_slice(tail).is_err() {
        return Err(Fault::TooLong { n: *n });
    }
    let result = take_line(version, n, part.as_slice(), edges);
    part.clear();
    result
}

/// Reads the beginning of the piece, one line or all of it, and returns the rest.
fn take_front<'a, A: Allocator>(
    version: &mut Option<Version>,
    n: &mut u64,
    part: &mut ArrayVec<u8, PART>,
    piece: &'a [u8],
    edges: &mut Vec<Edge, A>,
) -> Result<&'a [u8], Fault>
    requires part { IsPart part.old.items }
    requires some { 0 < length piece.now }
    ensures part { IsPart part.new.items }
    ensures shorter { IfOk result (λ rest. length rest.now < length piece.now) }
    ensures ok { IfOk result (λ rest. (taken : List ℕ) × (piece.now ≡ taken ++ rest.now)
        × Leads version.old (place n.old part.old.items) taken
        edges.old.items edges.new.items version.new (place n.new part.new.items)) }
    ensures fault { IfErr result
        (Fails version.old (place n.old part.old.items) piece.now
        edges.old.items edges.new.items version.new) }
{
    let end = line_end(piece);
    if end < piece.len() {
        take_joined(version, n, part, &piece[..end], edges)?;
        return Ok(&piece[end + 1..]);
    }
    if part.try_extend_from_slice(piece).is_err() {
        return Err(Fault::TooLong { n: *n });
    }
    Ok(&piece[end..])
}

/// Reads the lines at the front of a piece in place, as long as each spells an edge, and returns
/// the rest. A line that is cut off or faulty is left for `take_front`.
///
/// # Errors
/// X6 if memory runs out.
fn take_edges<'a, A: Allocator>(
    known: &mut Known,
    n: &mut u64,
    piece: &'a [u8],
    edges: &mut Vec<Edge, A>,
) -> Result<&'a [u8], Fault>
    ensures shorter { IfOk result (λ rest. length rest.now ≤ length piece.now) }
    ensures ok { IfOk result (λ rest. (version : Version)
        → (taken : List ℕ) × (piece.now ≡ taken ++ rest.now)
        × Leads (Some version) (place n.old []) taken
        edges.old.items edges.new.items (Some version) (place n.new [])) }
    ensures fault { IfErr result (λ fault. (version : Version)
        → Fails (Some version) (place n.old []) piece.now
        edges.old.items edges.new.items (Some version) fault) }
{
    let first = *n;
    let before = edges.len();
    let mut rest = known.take_blocks(piece, edges)?;
    'lines: while let Some((edge, behind)) = edge_at(rest) {
        if edges.push(edge).is_err() {
            return Err(Fault::Memory);
        }
        rest = behind;
    }
    *n = first.saturating_add((edges.len() - before) as u64);
    Ok(rest)
}

/// Reads a piece.
fn take<A: Allocator>(
    known: &mut Known,
    version: &mut Option<Version>,
    n: &mut u64,
    part: &mut ArrayVec<u8, PART>,
    piece: &[u8],
    edges: &mut Vec<Edge, A>,
) -> Result<(), Fault>
    requires { IsPart part.old.items }
    ensures part { IsPart part.new.items }
    ensures ok { OnOk result
        (Leads version.old (place n.old part.old.items) piece.now
        edges.old.items edges.new.items version.new (place n.new part.new.items)) }
    ensures fault { IfErr result
        (Fails version.old (place n.old part.old.items) piece.now
        edges.old.items edges.new.items version.new) }
{
    let mut rest = piece;
    'lines: while !rest.is_empty() {
        rest = take_front(version, n, part, rest, edges)?;
        if part.is_empty() && version.is_some() {
            rest = take_edges(known, n, rest, edges)?;
        }
    }
    Ok(())
}
