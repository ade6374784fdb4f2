//! The summary of a trace, and that of several.
ghost use Rattle.std.specs.Prelude.{◌≡◌, IfErr, OnOk, OnErr};
ghost use Rattle.std.specs.List.{All, flat_map};
ghost use Rattle.std.specs.Io.KnownBytes.{Appends};
ghost use Rattle.vme_trace.specs.Writing.{AppendsFront};
ghost use Rattle.vme_summary.specs.Tallied.{IsTopic, OfTally};
ghost use Rattle.vme_summary.specs.Summary.{line_text, summary_text};
ghost use Rattle.vme_summary.specs.Summed.{OfSums};
ghost use Rattle.vme_summary.specs.Sums.{sums_line, sums_text};

use crate::lines::{line, sums_line};
use crate::sums::Sums;
use crate::tallies::Tally;
use crate::topics::{Topic, topics};
use std::io::Write;
use vme_slots::Plan;
use vme_trace::{Fault, put};

/// Writes what is printed about the topics.
fn write_topics<W: Write>(
    topics: &[Topic],
    plan: &Plan,
    tally: &Tally,
    out: &mut W,
) -> Result<(), Fault>
    requires { All IsTopic topics.now }
    ensures ok { OnOk result (OfTally tally.now (λ t.
        Appends (W.contents out.old) (W.contents out.new)
        (flat_map (line_text plan.now t) topics.now))) }
    ensures front { OnErr result (OfTally tally.now (λ t.
        AppendsFront (W.contents out.old) (W.contents out.new)
        (flat_map (line_text plan.now t) topics.now))) }
    ensures fault { IfErr result (λ fault. fault ≡ Fault.Write) }
{
    for topic in topics {
        put(out, line(plan, tally, *topic).as_slice())?;
    }
    Ok(())
}

/// Writes what the edges of a trace on a plan came to: how many were accepted and refused, and so
/// by rule; which rules let none pass; which situations came, and which never; what each board with
/// a requester did at the bus, by slot, and what each board answered.
///
/// # Errors
/// X8 if a write failed or took no byte; a prefix of the summary was then written.
pub fn write_summary<W: Write>(plan: &Plan, tally: &Tally, out: &mut W) -> Result<(), Fault>
    ensures ok { OnOk result (OfTally tally.now (λ t.
        Appends (W.contents out.old) (W.contents out.new) (summary_text plan.now t))) }
    ensures front { OnErr result (OfTally tally.now (λ t.
        AppendsFront (W.contents out.old) (W.contents out.new) (summary_text plan.now t))) }
    ensures fault { IfErr result (λ fault. fault ≡ Fault.Write) }
{
    let topics = topics();
    write_topics(topics.as_slice(), plan, tally, out)
}

/// Writes what is printed about the topics of several traces together.
fn write_sums_of<W: Write>(
    topics: &[Topic],
    plan: &Plan,
    sums: &Sums,
    out: &mut W,
) -> Result<(), Fault>
    requires { All IsTopic topics.now }
    ensures ok { OnOk result (OfSums sums.now (λ ts.
        Appends (W.contents out.old) (W.contents out.new)
        (flat_map (sums_line plan.now ts) topics.now))) }
    ensures front { OnErr result (OfSums sums.now (λ ts.
        AppendsFront (W.contents out.old) (W.contents out.new)
        (flat_map (sums_line plan.now ts) topics.now))) }
    ensures fault { IfErr result (λ fault. fault ≡ Fault.Write) }
{
    for topic in topics {
        put(out, sums_line(plan, sums, *topic).as_slice())?;
    }
    Ok(())
}

/// Writes what the edges of several traces on a plan came to together, in the lines of a summary.
/// The rules and situations that never came are those that came in no trace; no edge is named by
/// its number.
///
/// # Errors
/// X8 if a write failed or took no byte; a prefix of the sums was then written.
pub fn write_sums<W: Write>(plan: &Plan, sums: &Sums, out: &mut W) -> Result<(), Fault>
    ensures ok { OnOk result (OfSums sums.now (λ ts.
        Appends (W.contents out.old) (W.contents out.new) (sums_text plan.now ts))) }
    ensures front { OnErr result (OfSums sums.now (λ ts.
        AppendsFront (W.contents out.old) (W.contents out.new) (sums_text plan.now ts))) }
    ensures fault { IfErr result (λ fault. fault ≡ Fault.Write) }
{
    let topics = topics();
    write_sums_of(topics.as_slice(), plan, sums, out)
}
