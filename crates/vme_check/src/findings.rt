//! The line of what a check finds.
ghost use Rattle.std.specs.Prelude.{◌≡◌, IfErr, OnOk, OnErr};
ghost use Rattle.std.specs.Io.KnownBytes.{Appends};
ghost use Rattle.vme_trace.specs.Writing.{AppendsFront};
ghost use Rattle.vme_check.specs.Checking.{finding_line};

use crate::checks::Finding;
use arrayvec::ArrayVec;
use std::io::Write;
use vme_explain::texts::push_verdict;
use vme_text::{push, push_number};
use vme_trace::{Fault, flush, put};

/// Room for the line: a number of at most 20 digits, a verdict, and a word.
const LINE: usize = 80;

/// The line of a finding.
fn finding_line(finding: Finding) -> ArrayVec<u8, LINE>
    ensures { result.items ≡ finding_line finding }
{
    let mut line = ArrayVec::new();
    match finding {
        Finding::Legal { edges } => {
            push(&mut line, b"legal ");
            push_number(&mut line, edges);
        }
        Finding::Illegal { n, refused } => {
            push(&mut line, b"illegal ");
            push_number(&mut line, n);
            push(&mut line, b" ");
            push_verdict(&mut line, &Err(refused));
        }
    }
    push(&mut line, b"\n");
    line
}

/// Writes the line of a finding, and has the writer hand on what it holds back.
pub fn write_finding<W: Write>(finding: Finding, out: &mut W) -> Result<(), Fault>
    ensures ok { OnOk result
        (Appends (W.contents out.old) (W.contents out.new) (finding_line finding)) }
    ensures front { OnErr result
        (AppendsFront (W.contents out.old) (W.contents out.new) (finding_line finding)) }
    ensures fault { IfErr result (λ fault. fault ≡ Fault.Write) }
{
    put(out, finding_line(finding).as_slice())?;
    flush(out)
}
