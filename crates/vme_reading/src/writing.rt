//! Writing a trace of edges that were kept.
ghost use Rattle.std.specs.Prelude.{◌≡◌, ◌++◌, All, IfErr, IsTrue, OnErr, OnOk};
ghost use Rattle.std.specs.Io.KnownBytes.{Appends};
ghost use Rattle.vme_model.specs.Signals.{is_well_formed};
ghost use Rattle.vme_model.specs.Text.{edge_lines, text};
ghost use Rattle.vme_trace.specs.Writing.{AppendsFront};

use std::io::Write;
use vme_model::Version;
use vme_store::Code;
use vme_trace::{Fault, flush, header_line, put, write_line};

/// Writes the lines of the edges.
fn write_lines<W: Write>(edges: &[Code], out: &mut W) -> Result<(), Fault>
    requires { All (λ e. IsTrue (is_well_formed e)) edges.now }
    ensures ok { OnOk result
        (Appends (W.contents out.old) (W.contents out.new) (edge_lines edges.now)) }
    ensures front { OnErr result
        (AppendsFront (W.contents out.old) (W.contents out.new) (edge_lines edges.now)) }
    ensures fault { IfErr result (λ fault. fault ≡ Fault.Write) }
{
    for code in edges {
        write_line(&code.edge(), out)?;
    }
    Ok(())
}

/// Writes the trace of the edges and of the last ones behind them, and has the writer hand on what
/// it holds back. All of them have to be well formed.
///
/// # Errors
/// X8 if a write failed or took no byte; a prefix of the trace was written then.
pub fn write_trace<W: Write>(
    version: Version,
    edges: &[Code],
    last: &[Code],
    out: &mut W,
) -> Result<(), Fault>
    requires edges { All (λ e. IsTrue (is_well_formed e)) edges.now }
    requires last { All (λ e. IsTrue (is_well_formed e)) last.now }
    ensures ok { OnOk result (Appends (W.contents out.old) (W.contents out.new)
        (text version (edges.now ++ last.now))) }
    ensures front { OnErr result (AppendsFront (W.contents out.old) (W.contents out.new)
        (text version (edges.now ++ last.now))) }
    ensures fault { IfErr result (λ fault. fault ≡ Fault.Write) }
{
    put(out, header_line(version))?;
    write_lines(edges, out)?;
    write_lines(last, out)?;
    flush(out)
}
