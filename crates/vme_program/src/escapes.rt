//! Names on one line, whatever they hold.
ghost use Rattle.std.specs.Prelude.{◌≡◌, IfErr, OnErr, OnOk};
ghost use Rattle.std.specs.Io.KnownBytes.{Appends};
ghost use Rattle.vme_trace.specs.Writing.{AppendsFront};
ghost use Rattle.vme_escapes.specs.Shown as spec;

use std::io::Write;
use vme_escapes::escape_of;
use vme_trace::{Fault, put};

/// Writes a character as a line shows it.
fn write_shown<W: Write>(c: char, out: &mut W) -> Result<(), Fault>
    ensures ok { OnOk result (Appends (W.contents out.old) (W.contents out.new) (spec.shown c)) }
    ensures front { OnErr result
        (AppendsFront (W.contents out.old) (W.contents out.new) (spec.shown c)) }
    ensures fault { IfErr result (λ fault. fault ≡ Fault.Write) }
{
    match escape_of(c) {
        Some(escape) => put(out, escape.as_slice()),
        None => {
            let mut room = [0; 4];
            put(out, c.encode_utf8(&mut room).as_bytes())
        }
    }
}

/// Writes a name as a line shows it.
///
/// # Errors
/// X8 if the output cannot be written; then a prefix of it was written.
pub(crate) fn write_escaped<W: Write>(name: &str, out: &mut W) -> Result<(), Fault>
    ensures ok { OnOk result
        (Appends (W.contents out.old) (W.contents out.new) (spec.escaped name.now)) }
    ensures front { OnErr result
        (AppendsFront (W.contents out.old) (W.contents out.new) (spec.escaped name.now)) }
    ensures fault { IfErr result (λ fault. fault ≡ Fault.Write) }
{
    for c in name.chars() {
        write_shown(c, out)?;
    }
    Ok(())
}
