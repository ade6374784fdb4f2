//! The trace of what was made on a backplane.
ghost use Rattle.std.specs.Prelude.{◌≡◌, OnOk, OnErr, IfErr};
ghost use Rattle.std.specs.Io.KnownBytes.{Appends};
ghost use Rattle.vme_model.specs.History.{in_order};
ghost use Rattle.vme_model.specs.Text.{text, edge_lines};
ghost use Rattle.vme_trace.specs.Writing.{AppendsFront};

use std::io::Write;
use vme_backplane::Backplane;
use vme_trace::{Fault, flush, header_line, put, write_line};

/// Writes the lines of the edges that were made.
fn write_lines<W: Write>(backplane: &Backplane, out: &mut W) -> Result<(), Fault>
    ensures ok { OnOk result
        (Appends (W.contents out.old) (W.contents out.new)
        (edge_lines (in_order backplane.now.history))) }
    ensures front { OnErr result
        (AppendsFront (W.contents out.old) (W.contents out.new)
        (edge_lines (in_order backplane.now.history))) }
    ensures fault { IfErr result (λ fault. fault ≡ Fault.Write) }
{
    backplane.laws();
    for place in 0..backplane.len() {
        write_line(&backplane.edge_at(place), out)?;
    }
    Ok(())
}

/// Writes the trace of the edges that were made on a backplane: the header line of its version and
/// a line for each edge.
///
/// # Errors
/// X8 if the output cannot be written. Then a prefix of the trace is written.
pub(crate) fn write_history<W: Write>(backplane: &Backplane, out: &mut W) -> Result<(), Fault>
    ensures ok { OnOk result
        (Appends (W.contents out.old) (W.contents out.new)
        (text backplane.now.version (in_order backplane.now.history))) }
    ensures front { OnErr result
        (AppendsFront (W.contents out.old) (W.contents out.new)
        (text backplane.now.version (in_order backplane.now.history))) }
    ensures fault { IfErr result (λ fault. fault ≡ Fault.Write) }
{
    put(out, header_line(backplane.version()))?;
    write_lines(backplane, out)?;
    flush(out)
}
