//! What a run reads and writes.
ghost use Rattle.std.specs.Prelude.{◌≡◌, ◌<◌, ◌≤◌, ◌⊎◌, IfOk, IfErr, IfSome, [], length};
ghost use Rattle.std.specs.Io.Buffered.{reader_inner, reader_buffer, reader_capacity, writer_buffer, writer_capacity};
ghost use Rattle.vme_engines.specs.Outcomes.{scenario_limit};

use crate::faults::ProgramFault;
use std::alloc::Global;
use std::fs::File;
use std::io::{BufReader, BufWriter, Read, Stdout};
use vme_engines::{EngineFault, SCENARIO_LIMIT};

/// How many bytes are read or written at once.
const BUFFER: usize = 65_536;

/// Opens a file. Errors: F1 where it does not open.
pub fn open<'a>(rt: &HostRuntime, name: &'a str) -> Result<File, ProgramFault<'a>>
    ensures { IfErr result (λ fault. (fault ≡ ProgramFault.CannotRead name.entry) ⊎ (fault ≡ ProgramFault.Engine EngineFault.NoMemory)) }
{
    File::open(rt, name).map_err(|error| ProgramFault::of_file(name, &error))
}

/// The text of a scenario, which is read to its end, or until it is too long.
///
/// Errors: F1 where a read fails, F2 where there are more than 1,048,576 bytes, and F3.
fn scenario_text<'a, R: Read + Drop>(
    alloc: Global,
    name: &'a str,
    input: R,
) -> Result<Vec<u8>, ProgramFault<'a>>
    ensures whole { IfOk result (λ text. IfSome (R.remaining input) (λ bytes. text.items ≡ bytes)) }
    ensures short { IfOk result (λ text. length text.items ≤ scenario_limit) }
    ensures fault { IfErr result (λ fault. (fault ≡ ProgramFault.CannotRead name.entry) ⊎ (fault ≡ ProgramFault.Engine EngineFault.NoMemory)
        ⊎ ((fault ≡ ProgramFault.TooLong name.entry) × IfSome (R.remaining input) (λ bytes. scenario_limit < length bytes))) }
{
    let mut text = Vec::new(alloc);
    match input.take(SCENARIO_LIMIT as u64 + 1).read_to_end(&mut text) {
        Ok(_) if text.len() > SCENARIO_LIMIT => Err(ProgramFault::TooLong(name)),
        Ok(_) => Ok(text),
        Err(error) => Err(ProgramFault::of_file(name, &error)),
    }
}

/// The text of the scenario in the file of this name. Errors: F1, F2 and F3.
pub fn read_scenario<'a>(rt: &HostRuntime, name: &'a str) -> Result<Vec<u8>, ProgramFault<'a>>
    ensures short { IfOk result (λ text. length text.items ≤ scenario_limit) }
    ensures fault { IfErr result (λ fault. (fault ≡ ProgramFault.CannotRead name.entry) ⊎ (fault ≡ ProgramFault.TooLong name.entry) ⊎ (fault ≡ ProgramFault.Engine EngineFault.NoMemory)) }
{
    scenario_text(rt.alloc(), name, open(rt, name)?)
}

/// A reader that reads much at once.
pub fn buffered<R: Read + Drop>(
    rt: &HostRuntime,
    input: R,
) -> Result<BufReader<R>, ProgramFault<'static>>
    ensures reader { IfOk result (λ reader. (reader_inner reader ≡ input) × (reader_buffer reader ≡ []) × (reader_capacity reader ≡ 65536)) }
    ensures fault { IfErr result (λ fault. fault ≡ ProgramFault.Engine EngineFault.NoMemory) }
{
    match BufReader::with_capacity(rt.alloc(), BUFFER, input) {
        Ok(reader) => Ok(reader),
        Err(_) => Err(ProgramFault::Engine(EngineFault::NoMemory)),
    }
}

/// Standard output, written much at once.
pub fn output(rt: &HostRuntime) -> Result<BufWriter<Stdout>, ProgramFault<'static>>
    ensures writer { IfOk result (λ writer. (writer_buffer writer ≡ []) × (writer_capacity writer ≡ 65536)) }
    ensures fault { IfErr result (λ fault. fault ≡ ProgramFault.Engine EngineFault.NoMemory) }
{
    match BufWriter::with_capacity(rt.alloc(), BUFFER, rt.stdout()) {
        Ok(out) => Ok(out),
        Err(_) => Err(ProgramFault::Engine(EngineFault::NoMemory)),
    }
}
