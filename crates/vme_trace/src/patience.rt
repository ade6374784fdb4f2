//! Calls that a signal may interrupt, tried again, but not for ever.
ghost use Rattle.std.specs.Prelude.{◌≢◌, IfErr};
ghost use Rattle.std.specs.Io.{ReadsAtMost, WritesAtMost};
ghost use Rattle.std.specs.Io.KnownBytes.{Keeps, ReadConsumes, WriteAppends};
ghost use Rattle.std.specs.IoError.{error_kind};

use std::io::{Error, ErrorKind, Read, Result, Write};

/// How often a call is tried while it is interrupted, so that it ends even if signals never stop.
const TRIES: u32 = 65_536;

/// Reads. A read that was interrupted is tried again, at most 65,535 times.
///
/// # Errors
/// The errors of the reader, except for an interruption; a timeout if the last try was interrupted.
pub(crate) fn read_patiently<R: Read>(input: &mut R, buffer: &mut [u8]) -> Result<usize>
    ensures bound { ReadsAtMost result buffer.new }
    ensures bytes { ReadConsumes (R.remaining input.old) (R.remaining input.new) result buffer.new }
    ensures retried { IfErr result (λ e. error_kind e ≢ ErrorKind.Interrupted) }
{
    for _ in 0..TRIES {
        match input.read(buffer) {
            Ok(count) => return Ok(count),
            Err(error) if error.kind() == ErrorKind::Interrupted => {}
            Err(error) => return Err(error),
        }
    }
    Err(Error::from(ErrorKind::TimedOut))
}

/// Writes. A write that was interrupted is tried again, at most 65,535 times.
///
/// # Errors
/// The errors of the writer, except for an interruption; a timeout if the last try was interrupted.
pub(crate) fn write_patiently<W: Write>(out: &mut W, bytes: &[u8]) -> Result<usize>
    ensures bound { WritesAtMost result bytes.now }
    ensures bytes { WriteAppends (W.contents out.old) (W.contents out.new) result bytes.now }
    ensures retried { IfErr result (λ e. error_kind e ≢ ErrorKind.Interrupted) }
{
    for _ in 0..TRIES {
        match out.write(bytes) {
            Ok(count) => return Ok(count),
            Err(error) if error.kind() == ErrorKind::Interrupted => {}
            Err(error) => return Err(error),
        }
    }
    Err(Error::from(ErrorKind::TimedOut))
}

/// Flushes. A flush that was interrupted is tried again, at most 65,535 times.
///
/// # Errors
/// The errors of the writer, except for an interruption; a timeout if the last try was interrupted.
pub(crate) fn flush_patiently<W: Write>(out: &mut W) -> Result<()>
    ensures bytes { Keeps (W.contents out.old) (W.contents out.new) }
    ensures retried { IfErr result (λ e. error_kind e ≢ ErrorKind.Interrupted) }
{
    for _ in 0..TRIES {
        match out.flush() {
            Ok(()) => return Ok(()),
            Err(error) if error.kind() == ErrorKind::Interrupted => {}
            Err(error) => return Err(error),
        }
    }
    Err(Error::from(ErrorKind::TimedOut))
}

/// A reader or writer whose calls are tried again while they are interrupted, each at most 65,535
/// times. So what is built on it, such as a buffer or a read to the end, meets no interruption, and
/// ends.
#[derive(Drop)]
pub struct Patient<T>(pub T);

impl<R: Read> Read for Patient<R> {
    ghost remaining = { λ p. R.remaining p.0 };

    fn read(&mut self, buf: &mut [u8]) -> Result<usize>
        ensures bound { ReadsAtMost result buf.new }
        ensures bytes { ReadConsumes (R.remaining self.old.0) (R.remaining self.new.0)
            result buf.new }
        ensures retried { IfErr result (λ e. error_kind e ≢ ErrorKind.Interrupted) }
    {
        read_patiently(&mut self.0, buf)
    }
}

impl<W: Write> Write for Patient<W> {
    ghost contents = { λ p. W.contents p.0 };

    fn write(&mut self, buf: &[u8]) -> Result<usize>
        ensures bound { WritesAtMost result buf.now }
        ensures bytes { WriteAppends (W.contents self.old.0) (W.contents self.new.0)
            result buf.now }
        ensures retried { IfErr result (λ e. error_kind e ≢ ErrorKind.Interrupted) }
    {
        write_patiently(&mut self.0, buf)
    }

    fn flush(&mut self) -> Result<()>
        ensures bytes { Keeps (W.contents self.old.0) (W.contents self.new.0) }
        ensures retried { IfErr result (λ e. error_kind e ≢ ErrorKind.Interrupted) }
    {
        flush_patiently(&mut self.0)
    }
}
