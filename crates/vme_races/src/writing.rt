//! Writing the other order of a race.
ghost use Rattle.std.specs.Prelude.{◌≡◌, ◌++◌, ◌∷◌, [], All, IfErr, IsTrue, OnErr, OnOk};
ghost use Rattle.std.specs.Io.KnownBytes.{Appends};
ghost use Rattle.vme_model.specs.Signals.{is_well_formed};
ghost use Rattle.vme_model.specs.Text.{edge_lines, text};
ghost use Rattle.vme_trace.specs.Writing.{AppendsFront};

use std::io::Write;
use vme_model::{Edge, Version};
use vme_store::Code;
use vme_trace::{Fault, flush, header_line, put, write_line};

/// Writes the lines of the edges.
fn write_lines<W: Write>(edges: &[Code], out: &mut W) -> Result<(), Fault>
    requires { All (λ e. IsTrue (is_well_formed e)) edges.now }
    ensures ok { OnOk result
        (Appends (W.contents out.old) (W.contents out.new) (edge_lines edges.now)) }
    ensures front { OnErr result
        (AppendsFront (W.contents out.old) (W.contents out.new) (edge_lines edges.now)) }
    ensures fault { IfErr result (λ fault. fault ≡ Fault.Write) }
{
    for code in edges {
        write_line(&code.edge(), out)?;
    }
    Ok(())
}

/// Writes the lines of the edges, and then those of two more.
fn write_edges<W: Write>(edges: &[Code], edge: &Edge, met: &Edge, out: &mut W) -> Result<(), Fault>
    requires edges { All (λ e. IsTrue (is_well_formed e)) edges.now }
    requires edge { IsTrue (is_well_formed edge.now) }
    requires met { IsTrue (is_well_formed met.now) }
    ensures ok { OnOk result (Appends (W.contents out.old) (W.contents out.new)
        (edge_lines (edges.now ++ edge.now ∷ met.now ∷ []))) }
    ensures front { OnErr result (AppendsFront (W.contents out.old) (W.contents out.new)
        (edge_lines (edges.now ++ edge.now ∷ met.now ∷ []))) }
    ensures fault { IfErr result (λ fault. fault ≡ Fault.Write) }
{
    write_lines(edges, out)?;
    write_line(edge, out)?;
    write_line(met, out)
}

/// Writes the trace of the edges and of two more, and has the writer hand on what it holds back.
pub(crate) fn write_trace<W: Write>(
    version: Version,
    edges: &[Code],
    edge: &Edge,
    met: &Edge,
    out: &mut W,
) -> Result<(), Fault>
    requires edges { All (λ e. IsTrue (is_well_formed e)) edges.now }
    requires edge { IsTrue (is_well_formed edge.now) }
    requires met { IsTrue (is_well_formed met.now) }
    ensures ok { OnOk result (Appends (W.contents out.old) (W.contents out.new)
        (text version (edges.now ++ edge.now ∷ met.now ∷ []))) }
    ensures front { OnErr result (AppendsFront (W.contents out.old) (W.contents out.new)
        (text version (edges.now ++ edge.now ∷ met.now ∷ []))) }
    ensures fault { IfErr result (λ fault. fault ≡ Fault.Write) }
{
    put(out, header_line(version))?;
    write_edges(edges, edge, met, out)?;
    flush(out)
}
