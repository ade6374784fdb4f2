//! What a run reads and writes, much at once.
use crate::faults::ProgramFault;
use std::io::{BufReader, BufWriter, Read, Stdout};
use vme_engines::EngineFault;

/// How many bytes are read or written at once.
const BUFFER: usize = 65_536;

/// A reader that reads much at once.
pub fn buffered<R: Read + Drop>(
    rt: &HostRuntime,
    input: R,
) -> Result<BufReader<R>, ProgramFault<'static>> {
    match BufReader::with_capacity(rt.alloc(), BUFFER, input) {
        Ok(reader) => Ok(reader),
        Err(_) => Err(ProgramFault::Engine(EngineFault::NoMemory)),
    }
}

/// Standard output, written much at once.
pub fn output(rt: &HostRuntime) -> Result<BufWriter<Stdout>, ProgramFault<'static>> {
    match BufWriter::with_capacity(rt.alloc(), BUFFER, rt.stdout()) {
        Ok(out) => Ok(out),
        Err(_) => Err(ProgramFault::Engine(EngineFault::NoMemory)),
    }
}
