//! The files that a job reads, and its output.
ghost use Rattle.std.specs.Prelude.{◌≡◌, ◌<◌, ◌≤◌, Err, IfOk, IfErr, IfSome, [], length};
ghost use Rattle.std.specs.Io.Buffered.{reader_inner, reader_buffer, reader_capacity, writer_buffer, writer_capacity};
ghost use Rattle.vme_program.specs.Buffers.{read_size, written_size};
ghost use Rattle.vme_reading.specs.Outcomes.{scenario_limit};
ghost use Rattle.vme_program.specs.Names.{IsFileFault, IsScenarioFault};

use crate::faults::ProgramFault;
use std::alloc::Global;
use std::fs::File;
use std::io::{BufReader, BufWriter, Read, Stdout};
use vme_reading::{EngineFault, SCENARIO_LIMIT};
use vme_trace::Patient;

/// The size of the buffer for an input that is read in small pieces, in bytes.
const READ: usize = 65_536;

/// The size of the output buffer, in bytes. With it a write of a long report has at least 262,144
/// bytes, since an engine puts in up to 8,192 bytes at once; only the bytes behind a piece that
/// ends with a whole line make a shorter write.
const WRITTEN: usize = 270_336;

/// Opens a file.
///
/// # Errors
/// F1 if it does not open.
pub fn open<'a>(rt: &HostRuntime, name: &'a str) -> Result<File, ProgramFault<'a>>
    ensures { IfErr result (IsFileFault name.entry) }
{
    File::open(rt, name).map_err(|error| ProgramFault::of_file(name, &error))
}

/// The text of a scenario. It is read to its end, or until it is too long.
///
/// # Errors
/// F1 if a read fails or is interrupted 65,536 times; F2 if there are more than 1,048,576 bytes; F3
/// if memory runs out.
fn scenario_text<'a, R: Read + Drop>(
    alloc: Global,
    name: &'a str,
    input: R,
) -> Result<Vec<u8>, ProgramFault<'a>>
    ensures whole { IfOk result (λ text.
        IfSome (R.remaining input) (λ bytes. text.items ≡ bytes)) }
    ensures short { IfOk result (λ text. length text.items ≤ scenario_limit) }
    ensures fault { IfErr result (IsScenarioFault name.entry) }
    ensures long { result ≡ Err (ProgramFault.TooLong name.entry)
        → IfSome (R.remaining input) (λ bytes. scenario_limit < length bytes) }
{
    let mut text = Vec::new(alloc);
    let mut input = Patient(input).take(SCENARIO_LIMIT as u64 + 1);
    match input.read_to_end(&mut text) {
        Ok(_) if text.len() > SCENARIO_LIMIT => Err(ProgramFault::TooLong(name)),
        Ok(_) => Ok(text),
        Err(error) => Err(ProgramFault::of_file(name, &error)),
    }
}

/// The text of the scenario in the file of this name.
///
/// # Errors
/// F1, F2 and F3.
pub fn read_scenario<'a>(rt: &HostRuntime, name: &'a str) -> Result<Vec<u8>, ProgramFault<'a>>
    ensures short { IfOk result (λ text. length text.items ≤ scenario_limit) }
    ensures fault { IfErr result (IsScenarioFault name.entry) }
{
    scenario_text(rt.alloc(), name, open(rt, name)?)
}

/// A reader with a large buffer.
///
/// # Errors
/// F3 if memory runs out.
pub fn buffered<R: Read + Drop>(
    rt: &HostRuntime,
    input: R,
) -> Result<BufReader<R>, ProgramFault<'static>>
    ensures inner { IfOk result (λ reader. reader_inner reader ≡ input) }
    ensures empty { IfOk result (λ reader. reader_buffer reader ≡ []) }
    ensures room { IfOk result (λ reader. reader_capacity reader ≡ read_size) }
    ensures fault { IfErr result (λ fault. fault ≡ ProgramFault.Engine EngineFault.NoMemory) }
{
    match BufReader::with_capacity(rt.alloc(), READ, input) {
        Ok(reader) => Ok(reader),
        Err(_) => Err(ProgramFault::Engine(EngineFault::NoMemory)),
    }
}

/// Standard output, with a large buffer.
///
/// # Errors
/// F3 if memory runs out.
pub fn output(rt: &HostRuntime) -> Result<BufWriter<Patient<Stdout>>, ProgramFault<'static>>
    ensures empty { IfOk result (λ writer. writer_buffer writer ≡ []) }
    ensures room { IfOk result (λ writer. writer_capacity writer ≡ written_size) }
    ensures fault { IfErr result (λ fault. fault ≡ ProgramFault.Engine EngineFault.NoMemory) }
{
    match BufWriter::with_capacity(rt.alloc(), WRITTEN, Patient(rt.stdout())) {
        Ok(out) => Ok(out),
        Err(_) => Err(ProgramFault::Engine(EngineFault::NoMemory)),
    }
}
