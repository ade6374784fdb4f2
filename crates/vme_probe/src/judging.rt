//! What is known of the bus behind the changes of a capture.
ghost use Rattle.std.specs.Prelude.{◌≡◌, ◌++◌, ℕ, List, None, IfErr, IfOk, IsTrue, MatchOption, OnErr, OnOk};
ghost use Rattle.std.specs.Io.KnownBytes.{Appends};
ghost use Rattle.vme_captures.specs.declared.signals.Entry.{Entry as EntryValue};
ghost use Rattle.vme_captures.specs.Feeding.{HasRead, probes_of};
ghost use Rattle.vme_captures.specs.Reading.{is_running};
ghost use Rattle.vme_captures.specs.Signals.{is_change};
ghost use Rattle.vme_trace.specs.Writing.{AppendsFront};
ghost use Rattle.vme_probe.specs.Ends.{are_slots};
ghost use Rattle.vme_probe.specs.Knowing.{Begins, CannotBegin, CannotStart, Ends, StartsWith, is_low_by, no_beginning};
ghost use Rattle.vme_probe.specs.Steps.{ChangeTaken, EndWritten};
ghost use Rattle.vme_probe.specs.Stopped.{stopped_text};
ghost use Rattle.vme_standings.specs.declared.standings.Drivers.{Drivers as DriversValue};
ghost use Rattle.vme_standings.specs.Standings.{Drive};

use crate::answers::{push_end, push_stopped};
use crate::lines::{Report, change_line};
use crate::pins::segments_of;
use arrayvec::ArrayVec;
use std::io::Write;
use vme_captures::{Change, Probe, Reader};
use vme_model::Version;
use vme_reading::Status;
use vme_slots::Plan;
use vme_standings::{Probed, Standings, drivers_of};
use vme_trace::{Fault, flush, put};

/// What is known of the bus behind the changes that were judged.
#[derive(Clone, Copy)]
pub(crate) struct Known {
    pub(crate) probed: Probed,
    pub(crate) standings: Standings,
    /// How many changes were judged; the number stays at its maximum.
    pub(crate) changes: u64,
}

/// What is known before the first change; none if no bus that keeps the rules has the levels that
/// the head says.
fn standings_at_head(plan: &Plan, probed: &Probed, reader: &Reader) -> Option<Standings>
    ensures { (bytes : List ℕ) (said : List EntryValue) → HasRead plan.now reader.now bytes said
        → MatchOption result
        (CannotStart plan.now (probes_of plan.now said) (is_low_by said) probed.now
        (is_running said))
        (StartsWith plan.now (probes_of plan.now said) (is_low_by said) probed.now
        (is_running said)) }
{
    if reader.is_running() {
        let low = segments_of(reader.probes(), true);
        Standings::running(plan, probed, reader.lines(), low)
    } else {
        Some(Standings::at_power_up(plan))
    }
}

/// What is known at the end of a capture's head; none if no bus that keeps the rules has the levels
/// that it says.
pub(crate) fn known_at_head(plan: &Plan, version: Version, reader: &Reader) -> Option<Known>
    ensures { (bytes : List ℕ) (said : List EntryValue) → HasRead plan.now reader.now bytes said
        → MatchOption result (CannotBegin plan.now version said) (Begins plan.now version said) }
{
    let probed = Probed {
        version,
        segments: segments_of(reader.probes(), false),
    };
    match standings_at_head(plan, &probed, reader) {
        Some(standings) => Some(Known {
            probed,
            standings,
            changes: 0,
        }),
        None => None,
    }
}

/// Writes a text, and has the writer hand on what it holds back.
///
/// # Errors
/// X8 if that failed; a prefix of the text was written then.
pub(crate) fn write_last<W: Write>(text: &[u8], out: &mut W) -> Result<(), Fault>
    ensures ok { OnOk result (Appends (W.contents out.old) (W.contents out.new) text.now) }
    ensures front { OnErr result
        (AppendsFront (W.contents out.old) (W.contents out.new) text.now) }
    ensures fault { IfErr result (λ fault. fault ≡ Fault.Write) }
{
    put(out, text)?;
    flush(out)
}

/// Writes that no bus that keeps the rules has the levels of the head.
///
/// # Errors
/// X8 if that failed; a prefix of the line was written then.
pub(crate) fn write_no_beginning<W: Write>(out: &mut W) -> Result<(), Fault>
    ensures ok { OnOk result (Appends (W.contents out.old) (W.contents out.new) no_beginning) }
    ensures front { OnErr result
        (AppendsFront (W.contents out.old) (W.contents out.new) no_beginning) }
    ensures fault { IfErr result (λ fault. fault ≡ Fault.Write) }
{
    write_last(b"impossible running\n", out)
}

impl Known {
    /// The text of a change at a moment that nobody may have made, with what is known before it.
    fn stopped(&self, plan: &Plan, before: &Standings, moment: u64, change: &Change) -> Report
        requires { IsTrue (is_change change.now) }
        ensures { (owners : DriversValue) × Drive plan.now change.now.signal owners
            × (result.items ≡ stopped_text plan.now self.now.probed.version before.now moment
            change.now owners) }
    {
        let mut report: Report = ArrayVec::new();
        let owners = drivers_of(plan, change.signal);
        push_stopped(
            &mut report,
            plan,
            &self.probed,
            before,
            moment,
            change,
            owners,
        );
        report
    }

    /// Judges a change at a moment. If somebody may have made it, its line is written. If nobody
    /// may, what stands in the way is written, and the result is the status.
    ///
    /// # Errors
    /// X8 if that failed; a prefix of the text was written then.
    pub(crate) fn take<W: Write>(
        &mut self,
        plan: &Plan,
        moment: u64,
        change: &Change,
        out: &mut W,
    ) -> Result<Option<Status>, Fault>
        requires { IsTrue (is_change change.now) }
        ensures { ChangeTaken plan.now moment change.now self.old self.new
            (W.contents out.old) (W.contents out.new) result }
    {
        let before = self.standings.with_hidden(plan, &self.probed);
        let drivers = before.drivers(plan, &self.probed, change);
        if drivers.is_nobody() {
            let report = self.stopped(plan, &before, moment, change);
            write_last(report.as_slice(), out)?;
            return Ok(Some(Status::SomeRefused));
        }
        self.standings = before.behind(plan, &self.probed, change);
        self.changes = self.changes.saturating_add(1);
        put(out, change_line(moment, change, drivers).as_slice())?;
        Ok(None)
    }

    /// The text of the end of a capture with these probes.
    fn end(&self, plan: &Plan, probes: &[Probe]) -> Report
        requires { IsTrue (are_slots probes.now) }
        ensures { Ends plan.now self.now probes.now result.items }
    {
        let standings = self.standings.with_hidden(plan, &self.probed);
        let mut report: Report = ArrayVec::new();
        push_end(
            &mut report,
            plan,
            &self.probed,
            &standings,
            probes,
            self.changes,
        );
        report
    }

    /// Writes how the bus stands at the end of a capture with these probes.
    ///
    /// # Errors
    /// X8 if that failed; a prefix of the text was written then.
    pub(crate) fn finish<W: Write>(
        &self,
        plan: &Plan,
        probes: &[Probe],
        out: &mut W,
    ) -> Result<Status, Fault>
        requires { IsTrue (are_slots probes.now) }
        ensures { EndWritten plan.now self.now probes.now
            (W.contents out.old) (W.contents out.new) result }
    {
        let report = self.end(plan, probes);
        write_last(report.as_slice(), out)?;
        Ok(Status::Done)
    }
}
