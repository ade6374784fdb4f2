//! The pieces in which a trace is read.
ghost use Rattle.std.specs.Prelude.{◌≡◌, ◌<◌, ◌-◌, ◌⊎◌, ◌↔◌, Some, IsTrue, length, slice_get, IfOk, IfErr};
ghost use Rattle.vme_reading.specs.Steps.{piece_size};

use crate::{EngineFault, PIECE};
use std::alloc::Global;

/// How many edges of a piece are judged before their answers are looked at: so few that the answers
/// stay at hand.
pub const JUDGED_AT_ONCE: usize = 512;

/// The buffer of a piece, on the heap. An engine asks for it once the scenario has its plan, and
/// lends it to each read.
///
/// # Errors
/// F3 if its memory is refused. An engine that reads a trace asks for no other memory by that name.
pub fn buffer_of(alloc: Global) -> Result<Vec<u8>, EngineFault>
    ensures room { IfOk result (λ buffer. length buffer.items ≡ piece_size) }
    ensures fault { IfErr result (λ fault. fault ≡ EngineFault.NoMemory) }
{
    let mut buffer = Vec::new(alloc);
    match buffer.resize(PIECE, 0u8) {
        Ok(()) => Ok(buffer),
        Err(_) => Err(EngineFault::NoMemory),
    }
}

/// Whether whoever writes the trace may wait behind a read that gave so many bytes: nothing else
/// was waiting, or they end with a whole line.
pub fn has_paused(buffer: &[u8], count: usize) -> bool
    ensures paused { IsTrue result ↔ ((count < length buffer.now)
        ⊎ (slice_get buffer.now (length buffer.now - 1) ≡ Some 10)) }
{
    count < buffer.len() || matches!(buffer.last(), Some(b'\n'))
}
