//! The files of a run, and its output.
use crate::faults::ProgramFault;
use std::fs::File;
use std::io::{BufReader, BufWriter, ErrorKind, Read, Stdout};
use vme_engines::{EngineFault, SCENARIO_LIMIT};

/// How many bytes are read or written at once.
const BUFFER: usize = 65_536;

/// Opens a file.
pub fn open<'a>(rt: &HostRuntime, name: &'a str) -> Result<File, ProgramFault<'a>> {
    match File::open(rt, name) {
        Ok(file) => Ok(file),
        Err(_) => Err(ProgramFault::CannotRead(name)),
    }
}

/// The whole text of a scenario.
pub fn read_scenario<'a>(rt: &HostRuntime, name: &'a str) -> Result<Vec<u8>, ProgramFault<'a>> {
    let file = open(rt, name)?;
    let mut text = Vec::new(rt.alloc());
    match file.take(SCENARIO_LIMIT as u64 + 1).read_to_end(&mut text) {
        Ok(_) if text.len() > SCENARIO_LIMIT => Err(ProgramFault::TooLong(name)),
        Ok(_) => Ok(text),
        Err(error) if error.kind() == ErrorKind::OutOfMemory => {
            Err(ProgramFault::Engine(EngineFault::NoMemory))
        }
        Err(_) => Err(ProgramFault::CannotRead(name)),
    }
}

/// A reader that reads much at once.
pub fn buffered<R: Read + Drop>(rt: &HostRuntime, input: R) -> Result<BufReader<R>, ProgramFault<'static>> {
    match BufReader::with_capacity(rt.alloc(), BUFFER, input) {
        Ok(reader) => Ok(reader),
        Err(_) => Err(ProgramFault::Engine(EngineFault::NoMemory)),
    }
}

/// Standard output, written much at once.
pub fn output(rt: &HostRuntime) -> Result<BufWriter<Stdout>, ProgramFault<'static>> {
    match BufWriter::with_capacity(rt.alloc(), BUFFER, rt.stdout()) {
        Ok(out) => Ok(out),
        Err(_) => Err(ProgramFault::Engine(EngineFault::NoMemory)),
    }
}
