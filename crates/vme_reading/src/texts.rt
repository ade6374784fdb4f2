//! A text that is put together before it is written.
ghost use Rattle.std.specs.Prelude.{◌≡◌, ◌+◌, ◌≤◌, [], length, IfErr, OnOk, OnErr};
ghost use Rattle.std.specs.Io.KnownBytes.{Appends};
ghost use Rattle.vme_trace.specs.Writing.{AppendsFront};
ghost use Rattle.vme_reading.specs.Texts.{HandsOn};

use std::io::Write;
use vme_text::Text;
use vme_trace::{Fault, put};

/// Has a text written, and forgets it.
///
/// # Errors
/// X8 if that failed; a prefix of the text was then written.
#[inline(never)]
pub fn hand_on<W: Write>(text: &mut Text, out: &mut W) -> Result<(), Fault>
    ensures empty { OnOk result (text.new ≡ []) }
    ensures ok { OnOk result (Appends (W.contents out.old) (W.contents out.new) text.old) }
    ensures front { OnErr result
        (AppendsFront (W.contents out.old) (W.contents out.new) text.old) }
    ensures fault { IfErr result (λ fault. fault ≡ Fault.Write) }
{
    put(out, text.as_slice())?;
    text.clear();
    Ok(())
}

/// Has a text written if it has no room for ten further lines.
///
/// # Errors
/// X8 if that failed; a prefix of the text was then written.
#[inline(always)]
pub fn make_room<W: Write>(text: &mut Text, out: &mut W) -> Result<(), Fault>
    ensures room { OnOk result (length text.new + 640 ≤ 8192) }
    ensures ok { OnOk result
        (HandsOn (W.contents out.old) (W.contents out.new) text.old text.new) }
    ensures front { OnErr result
        (AppendsFront (W.contents out.old) (W.contents out.new) text.old) }
    ensures fault { IfErr result (λ fault. fault ≡ Fault.Write) }
{
    if text.is_nearly_full() {
        return hand_on(text, out);
    }
    Ok(())
}
