//! What is found of two traces, as the line and the status of a job.
ghost use Rattle.std.specs.Prelude.{◌≡◌, IfErr, IfOk, IsTrue, OnErr, OnOk};
ghost use Rattle.std.specs.Io.KnownBytes.{Appends};
ghost use Rattle.vme_trace.specs.Writing.{AppendsFront};
ghost use Rattle.vme_same.specs.Formed.{is_formed_found};
ghost use Rattle.vme_program.specs.Comparisons.{beginning_of, comparison_lines, comparison_status, refused_in};

use crate::escapes::write_escaped;
use crate::faults::ProgramFault;
use std::io::Write;
use vme_reading::{EngineFault, Status};
use vme_same::{Comparison, write_found};
use vme_trace::{Fault, put};

/// Writes how the line of a refused edge begins: with the name of its file.
fn write_refused_in<W: Write>(name: &str, out: &mut W) -> Result<(), Fault>
    ensures ok { OnOk result (Appends (W.contents out.old) (W.contents out.new)
        (refused_in name.now)) }
    ensures front { OnErr result (AppendsFront (W.contents out.old) (W.contents out.new)
        (refused_in name.now)) }
    ensures fault { IfErr result (λ fault. fault ≡ Fault.Write) }
{
    put(out, b"refused ")?;
    write_escaped(name, out)?;
    put(out, b" ")
}

/// Writes how the line of what is found begins, given the names of both files.
fn write_beginning<W: Write>(
    first: &str,
    second: &str,
    found: &Comparison,
    out: &mut W,
) -> Result<(), Fault>
    ensures ok { OnOk result (Appends (W.contents out.old) (W.contents out.new)
        (beginning_of first.now second.now found.now)) }
    ensures front { OnErr result (AppendsFront (W.contents out.old) (W.contents out.new)
        (beginning_of first.now second.now found.now)) }
    ensures fault { IfErr result (λ fault. fault ≡ Fault.Write) }
{
    match found {
        Comparison::Refuses { in_first: true, .. } => write_refused_in(first, out),
        Comparison::Refuses { .. } => write_refused_in(second, out),
        _ => Ok(()),
    }
}

/// Writes what is found of the traces in the files of these names, and makes the writer pass on
/// what it has buffered.
fn write_comparison<W: Write>(
    first: &str,
    second: &str,
    found: Comparison,
    out: &mut W,
) -> Result<(), Fault>
    requires { IsTrue (is_formed_found found) }
    ensures ok { OnOk result (Appends (W.contents out.old) (W.contents out.new)
        (comparison_lines first.now second.now found)) }
    ensures front { OnErr result (AppendsFront (W.contents out.old) (W.contents out.new)
        (comparison_lines first.now second.now found)) }
    ensures fault { IfErr result (λ fault. fault ≡ Fault.Write) }
{
    write_beginning(first, second, &found, out)?;
    write_found(found, out)
}

/// The status of a comparison.
fn status_of(found: &Comparison) -> Status
    ensures { result ≡ comparison_status found.now }
{
    match found {
        Comparison::Same { .. } => Status::Done,
        _ => Status::SomeRefused,
    }
}

/// Prints what is found of the traces in the files of these names.
pub(crate) fn report_comparison<'a, W: Write>(
    first: &str,
    second: &str,
    found: Comparison,
    out: &mut W,
) -> Result<Status, ProgramFault<'a>>
    requires { IsTrue (is_formed_found found) }
    ensures ok { IfOk result (λ status. (status ≡ comparison_status found)
        × Appends (W.contents out.old) (W.contents out.new)
        (comparison_lines first.now second.now found)) }
    ensures front { OnErr result (AppendsFront (W.contents out.old) (W.contents out.new)
        (comparison_lines first.now second.now found)) }
    ensures fault { IfErr result (λ fault.
        fault ≡ ProgramFault.Engine (EngineFault.Trace Fault.Write)) }
{
    let status = status_of(&found);
    match write_comparison(first, second, found, out) {
        Ok(()) => Ok(status),
        Err(fault) => Err(ProgramFault::Engine(EngineFault::Trace(fault))),
    }
}
