//! Stand-ins.
ghost use Rattle.std.specs.Prelude.{◌≡◌, IsTrue, IfErr, OnOk, OnErr};
ghost use Rattle.std.specs.Io.KnownBytes.{Appends};
ghost use Rattle.vme_model.specs.Signals.{is_well_formed};
ghost use Rattle.vme_model.specs.Why.{why_text};
ghost use Rattle.vme_model.specs.Stands.{stands_text};
ghost use Rattle.vme_trace.specs.Writing.{AppendsFront};
ghost use Rattle.vme_engines.specs.Traced.{OfTrace};

use std::io::Write;
use vme_backplane::Backplane;
use vme_model::Edge;
use vme_reasons::Marks;
use vme_trace::Fault;

/// Writes the block of an edge.
pub(crate) fn write_why<W: Write>(
    _n: u64,
    _backplane: &Backplane,
    _marks: &Marks,
    _edge: &Edge,
    _out: &mut W,
) -> Result<(), Fault>
    requires { IsTrue (is_well_formed _edge.now) }
    ensures ok { OnOk result (OfTrace _backplane.now _marks.now
        (λ k. Appends (W.contents _out.old) (W.contents _out.new)
        (why_text _n _backplane.now k _edge.now))) }
    ensures front { OnErr result (OfTrace _backplane.now _marks.now
        (λ k. AppendsFront (W.contents _out.old) (W.contents _out.new)
        (why_text _n _backplane.now k _edge.now))) }
    ensures fault { IfErr result (λ fault. fault ≡ Fault.Write) }
{
    Ok(())
}

/// Writes where the bus stands.
pub(crate) fn write_stands<W: Write>(
    _n: u64,
    _backplane: &Backplane,
    _marks: &Marks,
    _out: &mut W,
) -> Result<(), Fault>
    ensures ok { OnOk result (OfTrace _backplane.now _marks.now
        (λ k. Appends (W.contents _out.old) (W.contents _out.new)
        (stands_text _n _backplane.now k))) }
    ensures front { OnErr result (OfTrace _backplane.now _marks.now
        (λ k. AppendsFront (W.contents _out.old) (W.contents _out.new)
        (stands_text _n _backplane.now k))) }
    ensures fault { IfErr result (λ fault. fault ≡ Fault.Write) }
{
    Ok(())
}
