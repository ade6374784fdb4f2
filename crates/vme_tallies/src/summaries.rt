//! The summary of a trace.
ghost use Rattle.std.specs.Prelude.{◌≡◌, IfErr, OnOk, OnErr};
ghost use Rattle.std.specs.List.{All, flat_map};
ghost use Rattle.std.specs.Io.KnownBytes.{Appends};
ghost use Rattle.vme_trace.specs.Writing.{AppendsFront};
ghost use Rattle.vme_tallies.specs.Tallied.{IsTopic, OfTally};
ghost use Rattle.vme_tallies.specs.Summary.{line_text, summary_text};

use crate::lines::line;
use crate::tallies::Tally;
use crate::topics::{Topic, topics};
use std::io::Write;
use vme_slots::Plan;
use vme_trace::{Fault, put};

/// Writes what is told of the topics.
fn write_topics<W: Write>(
    topics: &[Topic],
    plan: &Plan,
    tally: &Tally,
    out: &mut W,
) -> Result<(), Fault>
    requires { All IsTopic topics.now }
    ensures ok { OnOk result (OfTally tally.now (λ t.
        Appends (W.contents out.old) (W.contents out.new)
        (flat_map (line_text plan.now t) topics.now))) }
    ensures front { OnErr result (OfTally tally.now (λ t.
        AppendsFront (W.contents out.old) (W.contents out.new)
        (flat_map (line_text plan.now t) topics.now))) }
    ensures fault { IfErr result (λ fault. fault ≡ Fault.Write) }
{
    for topic in topics {
        put(out, line(plan, tally, *topic).as_slice())?;
    }
    Ok(())
}

/// Writes what the edges of a trace on a plan came to: how many were accepted and refused, and so
/// by rule; which rules let none pass; which situations came, and which never; what each board with
/// a requester did at the bus, by slot, and what each board answered.
///
/// Errors: X8 where a write failed or took no byte; a prefix of the summary was then written.
pub fn write_summary<W: Write>(plan: &Plan, tally: &Tally, out: &mut W) -> Result<(), Fault>
    ensures ok { OnOk result (OfTally tally.now (λ t.
        Appends (W.contents out.old) (W.contents out.new) (summary_text plan.now t))) }
    ensures front { OnErr result (OfTally tally.now (λ t.
        AppendsFront (W.contents out.old) (W.contents out.new) (summary_text plan.now t))) }
    ensures fault { IfErr result (λ fault. fault ≡ Fault.Write) }
{
    let topics = topics();
    write_topics(topics.as_slice(), plan, tally, out)
}
