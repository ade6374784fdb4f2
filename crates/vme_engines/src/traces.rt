//! Reading a trace up to its header line.
ghost use Rattle.std.specs.Prelude.{◌≡◌, ◌≢◌, [], Ok, None, true, false};
ghost use Rattle.vme_trace.specs.Reading.{HasRead};
ghost use Rattle.vme_engines.specs.Steps.{Opens};

use crate::{PIECE, READS};
use std::io::Read;
use vme_model::Edge;
use vme_trace::{Fault, Reader, pump_with};

/// Reads until the header line was read, or to a fault or the end.
///
/// Gives what the last read answered, and how many reads are left.
pub(crate) fn open<R: Read>(
    reader: &mut Reader,
    input: &mut R,
    edges: &mut Vec<Edge>,
) -> (Result<bool, Fault>, u32)
    requires reader { HasRead reader.old [] [] }
    requires empty { edges.old.items ≡ [] }
    ensures { Opens (R.remaining input.old) (R.remaining input.new)
        reader.new edges.new.items result }
{
    let mut buffer = [0u8; PIECE];
    'reads: for done in 0..READS {
        let more = pump_with(reader, input, edges, &mut buffer);
        if is_settled(more, reader) {
            return (more, READS - 1 - done);
        }
    }
    (Err(Fault::Read), 0)
}

/// Whether the version of a trace is known, or will not be.
fn is_settled(more: Result<bool, Fault>, reader: &Reader) -> bool
    ensures settled { result ≡ true → more ≡ Ok true → reader.now.version ≢ None }
    ensures goes_on { result ≡ false → (more ≡ Ok true) × (reader.now.version ≡ None) }
{
    match more {
        Ok(true) => reader.version().is_some(),
        _ => true,
    }
}
