//! Reading a trace from a reader of bytes.
ghost use Rattle.std.specs.Prelude.{◌≡◌, ◌<◌, ℕ, List, None, Ok, Err, true, false, IfOk, IfErr, length};
ghost use Rattle.std.specs.Io.KnownBytes.{Keeps};
ghost use Rattle.vme_model.specs.declared.signals.Edge.{Edge};
ghost use Rattle.vme_trace.specs.Pieces.{PumpedUpTo, ReadsUpTo};
ghost use Rattle.vme_trace.specs.Reading.{HasRead, Pumped, ReadsPiece};

use crate::Fault;
use crate::patience::read_patiently;
use crate::reader::Reader;
use std::alloc::Allocator;
use std::io::Read;
use vme_model::Edge;

/// Reads the input once, up to 512 bytes, and feeds them to the reader. The result is false at the
/// end of the input; the reader is finished then.
///
/// # Errors
/// The errors of `Reader::feed` and `Reader::finish`; X5 if the read failed. A read that was
/// interrupted is tried again, at most 65,535 times. If the reader is used up, nothing is read.
pub fn pump<R: Read, A: Allocator>(
    reader: &mut Reader,
    input: &mut R,
    edges: &mut Vec<Edge, A>,
) -> Result<bool, Fault>
    ensures reads { (bytes : List ℕ) (es : List Edge) → HasRead reader.old bytes es
        → Pumped (R.remaining input.old) (R.remaining input.new) bytes es
        edges.old.items edges.new.items reader.new result }
    ensures failed { reader.old.place ≡ None → result ≡ Err Fault.Failed }
    ensures unchanged { reader.old.place ≡ None → reader.new ≡ reader.old }
    ensures none_appended { reader.old.place ≡ None → edges.new.items ≡ edges.old.items }
    ensures none_read { reader.old.place ≡ None → input.new ≡ input.old }
{
    let mut buffer = [0u8; 512];
    pump_with(reader, input, edges, &mut buffer)
}

/// Reads the input once, up to as many bytes as a buffer has room for, and feeds them to the
/// reader. The result is false at the end of the input; the reader is finished then. A line costs
/// less in a large buffer.
///
/// # Errors
/// The errors of [`pump`]. If the reader is used up, nothing is read.
pub fn pump_with<R: Read, A: Allocator>(
    reader: &mut Reader,
    input: &mut R,
    edges: &mut Vec<Edge, A>,
    buffer: &mut [u8],
) -> Result<bool, Fault>
    requires { 0 < length buffer.old }
    ensures reads { (bytes : List ℕ) (es : List Edge) → HasRead reader.old bytes es
        → PumpedUpTo (length buffer.old) (R.remaining input.old) (R.remaining input.new)
        bytes es edges.old.items edges.new.items reader.new result }
    ensures failed { reader.old.place ≡ None → result ≡ Err Fault.Failed }
    ensures unchanged { reader.old.place ≡ None → reader.new ≡ reader.old }
    ensures none_appended { reader.old.place ≡ None → edges.new.items ≡ edges.old.items }
    ensures none_read { reader.old.place ≡ None → input.new ≡ input.old }
{
    pump_counted(reader, input, edges, buffer).0
}

/// Does what [`pump_with`] does and returns its result, and how many bytes the read gave. They are
/// the first bytes of the buffer.
///
/// If they are fewer than the buffer has room for, no more input was waiting: its writer pauses, or
/// the input ends. The number is 0 if the read failed, or if there was no read.
pub fn pump_counted<R: Read, A: Allocator>(
    reader: &mut Reader,
    input: &mut R,
    edges: &mut Vec<Edge, A>,
    buffer: &mut [u8],
) -> (Result<bool, Fault>, usize)
    requires { 0 < length buffer.old }
    ensures reads { (bytes : List ℕ) (es : List Edge) → HasRead reader.old bytes es
        → PumpedUpTo (length buffer.old) (R.remaining input.old) (R.remaining input.new)
        bytes es edges.old.items edges.new.items reader.new result.0 }
    ensures count { IfOk result.0 (λ _. ReadsUpTo (length buffer.old)
        (R.remaining input.old) (R.remaining input.new) buffer.new result.1) }
    ensures some { result.0 ≡ Ok true → 0 < result.1 }
    ensures none { result.0 ≡ Ok false → result.1 ≡ 0 }
    ensures failed { reader.old.place ≡ None → result ≡ (Err Fault.Failed, 0) }
    ensures unchanged { reader.old.place ≡ None → reader.new ≡ reader.old }
    ensures none_appended { reader.old.place ≡ None → edges.new.items ≡ edges.old.items }
    ensures none_read { reader.old.place ≡ None → input.new ≡ input.old }
{
    if reader.is_used_up() {
        return (Err(Fault::Failed), 0);
    }
    let Ok(count) = read_patiently(input, buffer) else {
        reader.give_up();
        return (Err(Fault::Read), 0);
    };
    if count == 0 {
        return match reader.finish() {
            Ok(()) => (Ok(false), 0),
            Err(fault) => (Err(fault), 0),
        };
    }
    match reader.feed(&buffer[..count], edges) {
        Ok(()) => (Ok(true), count),
        Err(fault) => (Err(fault), count),
    }
}

/// Reads the input once, up to 512 bytes, and returns how many bytes the read gave. The number is 0
/// only at the end of the input. A read that was interrupted is tried again.
///
/// # Errors
/// X5 if the read failed, or was interrupted 65,536 times.
pub fn read_piece<R: Read>(input: &mut R, buffer: &mut [u8; 512]) -> Result<usize, Fault>
    ensures ok { IfOk result
        (ReadsPiece (R.remaining input.old) (R.remaining input.new) buffer.new) }
    ensures err { IfErr result (λ fault. Keeps (R.remaining input.old) (R.remaining input.new)) }
    ensures fault { IfErr result (λ fault. fault ≡ Fault.Read) }
{
    match read_patiently(input, buffer) {
        Ok(count) => Ok(count),
        Err(_) => Err(Fault::Read),
    }
}
