//! The one loop over a trace: an engine takes its edges piece by piece, until it has an answer.
ghost use Rattle.std.specs.Prelude.{◌≡◌, ◌+◌, ◌<◌, ◌^◌, ◌++◌, ℕ, List, [], Option, None, Bool, Result, Ok, true, length, IfOk, IfErr};
ghost use Rattle.vme_model.specs.declared.signals.Edge.{Edge};
ghost use Rattle.vme_model.specs.Locality.{AreWellFormed};
ghost use Rattle.vme_trace.specs.declared.Fault.{Fault};
ghost use Rattle.vme_engines.specs.Steps.{IsCounted};
ghost use Rattle.vme_engines.specs.Pieces.{ReadsOn};

use crate::{EngineFault, PIECE};
use std::alloc::Global;
use std::io::{Read, Write};
use vme_model::Edge;
use vme_trace::{Fault, Reader, pump_counted};

/// How many edges of a piece are judged before their answers are looked at: so few that the answers stay at hand.
pub(crate) const JUDGED_AT_ONCE: usize = 512;

/// The buffer of a piece, on the heap. An engine asks for it once the scenario has its plan, and lends it to each read.
///
/// Errors: F3 where its memory is refused. An engine that reads a trace asks for no other memory by that name.
pub(crate) fn buffer_of(alloc: Global) -> Result<Vec<u8>, EngineFault>
    ensures room { IfOk result (λ buffer. length buffer.items ≡ 69632) }
    ensures fault { IfErr result (λ fault. fault ≡ EngineFault.NoMemory) }
{
    let mut buffer = Vec::new(alloc);
    match buffer.resize(PIECE, 0u8) {
        Ok(()) => Ok(buffer),
        Err(_) => Err(EngineFault::NoMemory),
    }
}

/// Whether whoever writes the trace may wait behind a read that gave so many bytes: nothing else was waiting, or they
/// end with a whole line.
fn has_paused(buffer: &[u8], count: usize) -> bool {
    count < buffer.len() || buffer.ends_with(b"\n")
}

/// What an engine does with the edges of a trace, in the order in which they come.
pub(crate) trait Judge {
    /// What it answers.
    type Answer;

    /// How many edges it took.
    ghost count: { Self → ℕ };

    /// What it did with the edges since it began, where the last read answered so: what the writer held and holds, what
    /// became of it, and its answer.
    ghost takes: { Self → List Edge → Result Bool Fault → Option (List ℕ) → Option (List ℕ)
        → Self → Result (Option Self.Answer) Fault → Type 0 };

    /// Takes the edges of a piece. None where it has no answer yet, and the trace goes on.
    ///
    /// `more` is what the read of the piece answered. Where whoever writes the trace has `paused` behind it, all that is
    /// written so far is to be handed on.
    fn take<W: Write>(
        &mut self,
        edges: &[Edge],
        more: Result<bool, Fault>,
        paused: bool,
        out: &mut W,
    ) -> Result<Option<Self::Answer>, Fault>
        requires count { count self.old + length edges.now < 2 ^ 64 }
        requires well_formed { AreWellFormed edges.now }
        ensures { (first : Self) (es : List Edge) (old : Option (List ℕ))
            → takes first es (Ok true) old (W.contents out.old) self.old (Ok None)
            → takes first (es ++ edges.now) more old (W.contents out.new) self.new result };

    /// At its beginning it has taken nothing and written nothing.
    ghost begins: { (first : Self) (old : Option (List ℕ))
        → takes first [] (Ok true) old old first (Ok None) };

    /// It has no answer only where the trace goes on, and then it has counted all edges.
    ghost goes_on: { (first : Self) (es : List Edge) (more : Result Bool Fault)
        (old new : Option (List ℕ)) (now : Self)
        → takes first es more old new now (Ok None)
        → (more ≡ Ok true) × (count now ≡ count first + length es) };
}

/// Reads a trace on whose first piece was read, with at most so many further reads, and gives what the engine answers.
///
/// Behind the first piece, and each one that is shorter than was asked for or ends with a whole line, the engine hands on
/// what it has written, since the next read may wait for whoever reads that.
pub(crate) fn read_on<J: Judge, R: Read, W: Write>(
    judge: &mut J,
    reader: &mut Reader,
    edges: &mut Vec<Edge>,
    first: Result<bool, Fault>,
    reads: u32,
    buffer: &mut [u8],
    input: &mut R,
    out: &mut W,
) -> Result<J::Answer, Fault>
    requires room { length buffer.old ≡ 69632 }
    requires counted { first ≡ Ok true → IsCounted reader.old reads (length edges.old.items) }
    requires well_formed { AreWellFormed edges.old.items }
    requires begun { J.count judge.old ≡ 0 }
    ensures { ReadsOn (J.takes judge.old) reader.old edges.old.items first reads
        (R.remaining input.old) (R.remaining input.new)
        (W.contents out.old) (W.contents out.new) result }
{
    match judge.take(edges, first, true, out)? {
        Some(answer) => return Ok(answer),
        None => {}
    }
    'reads: for _ in 0..reads {
        edges.clear();
        let (more, count) = pump_counted(reader, input, edges, buffer);
        let paused = has_paused(buffer, count);
        match judge.take(edges, more, paused, out)? {
            Some(answer) => return Ok(answer),
            None => {}
        }
    }
    match judge.take(&[], Err(Fault::Read), false, out)? {
        Some(answer) => Ok(answer),
        None => Err(Fault::Read),
    }
}
