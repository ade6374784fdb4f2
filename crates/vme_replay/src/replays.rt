//! Replaying a trace: a verdict on each edge, and the closing line.
ghost use Rattle.std.specs.Prelude.{◌≡◌, ◌+◌, ◌<◌, ◌^◌, ◌++◌, ℕ, List, Option, IfErr, OnOk, length};
ghost use Rattle.vme_model.specs.declared.signals.Edge.{Edge as EdgeValue};
ghost use Rattle.vme_model.specs.declared.signals.Version.{Version as VersionValue};
ghost use Rattle.vme_model.specs.Plan.{Plan as PlanValue};
ghost use Rattle.vme_model.specs.Locality.{AreWellFormed};
ghost use Rattle.vme_reading.specs.Streams.{streams, ReadNothing, WroteNothing};
ghost use Rattle.vme_reading.specs.Outcomes.{LentAsking, ReplaysInput};
ghost use Rattle.vme_reading.specs.Reporting.{HasWritten, HasWrittenFront};
ghost use Rattle.vme_replay.specs.Replayed.{AreLines, IsKnown, IsText};

use crate::forms::write_form;
use crate::lines::close;
use std::alloc::Global;
use std::io::{Read, Write};
use vme_bus::Bus;
use vme_model::Edge;
use vme_reading::{AtEach, EngineFault, LineForm, Status, at_each};
use vme_text::Text;
use vme_trace::Fault;

/// A replay under way.
#[derive(Drop)]
pub(crate) struct Replaying {
    form: LineForm,
    bus: Bus,
    /// How many edges were judged.
    judged: u64,
    /// Where lines are put together.
    text: Text,
}

impl Replaying {
    /// Judges the next edges, and writes their lines.
    fn judge<W: Write>(&mut self, edges: &[Edge], out: &mut W) -> Result<(), Fault>
        requires room { self.old.judged + length edges.now < 2 ^ 64 }
        requires formed { AreWellFormed edges.now }
        ensures judged { OnOk result (self.new.judged ≡ self.old.judged + length edges.now) }
        ensures knows { OnOk result ((form : LineForm) (p : PlanValue) (v : VersionValue)
            (es : List EdgeValue) (first : Option (List ℕ))
            → HasWritten (λ p v es bytes. IsKnown form p v es bytes self.old) p v es first
            (W.contents out.old)
            → HasWritten (λ p v es bytes. IsKnown form p v es bytes self.new) p v
            (es ++ edges.now) first (W.contents out.new)) }
        ensures stops { IfErr result (λ fault. (fault ≡ Fault.Write)
            × ((form : LineForm) (p : PlanValue) (v : VersionValue) (es : List EdgeValue)
            (first : Option (List ℕ))
            → HasWritten (λ p v es bytes. IsKnown form p v es bytes self.old) p v es first
            (W.contents out.old)
            → HasWrittenFront (AreLines form) p v (es ++ edges.now) first
            (W.contents out.new))) }
    {
        write_form(
            self.form,
            &mut self.bus,
            self.judged,
            edges,
            &mut self.text,
            out,
        )?;
        self.judged += edges.len() as u64;
        Ok(())
    }
}

impl AtEach for Replaying {
    type Task = LineForm;

    ghost count = { λ now. now.judged };

    ghost knows = { IsKnown };

    ghost lines = { AreLines };

    ghost text = { IsText };

    ghost fails = { λ _. ⊥ };

    ghost told = { λ form p v es bytes now known. known.lines };

    fn begin(task: &LineForm, bus: Bus) -> Replaying {
        Replaying {
            form: *task,
            bus,
            judged: 0,
            text: Text::new(),
        }
    }

    fn see<W: Write>(&mut self, edge: &Edge, out: &mut W) -> Result<(), Fault> {
        self.judge(&[*edge], out)
    }

    /// Judges the edges together, which takes less work.
    fn see_all<W: Write>(&mut self, edges: &[Edge], out: &mut W) -> Result<(), Fault> {
        self.judge(edges, out)
    }

    /// Writes the closing line.
    fn finish<W: Write>(&self, out: &mut W) -> Result<Status, Fault> {
        let accepted = u64::from(self.bus.len());
        let refused = self.judged.saturating_sub(accepted);
        close(accepted, refused, out)?;
        Ok(Status::of_refused(refused))
    }
}

/// Replays a trace on the plan of a scenario.
///
/// Writes a line for each edge, past those that are refused, and at the end of the trace
/// `accepted A refused R`. The line of the n-th edge is `n VERDICT`, or in the full form
/// `n EDGE VERDICT`, which takes more time. It makes at most 16,777,216 reads. If one gave fewer
/// bytes than were asked for, the writer hands on what it holds back before the next.
///
/// # Errors
/// F2, the faults of the scenario and F3, before anything is read or written; those of the trace,
/// after the verdicts on the edges before them; X8 if the output cannot be written.
pub fn replay<R: Read, W: Write>(
    alloc: Global,
    scenario: &[u8],
    trace: &mut R,
    form: LineForm,
    out: &mut W,
) -> Result<Status, EngineFault>
    ensures { let s = streams (R.remaining trace.old) (R.remaining trace.new)
        (W.contents out.old) (W.contents out.new) in
        LentAsking scenario.now (ReadNothing s × WroteNothing s) (ReplaysInput form s) result }
{
    at_each::<Replaying, R, W>(alloc, scenario, &form, trace, out)
}
