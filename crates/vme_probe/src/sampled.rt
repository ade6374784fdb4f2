//! What is known of the bus behind the changes of a sample, and what is written of them.
ghost use Rattle.std.specs.Prelude.{◌≡◌, ◌+◌, ◌≤◌, ◌<◌, ◌++◌, [], ℕ, List, IsTrue, Some, length};
ghost use Rattle.arrayvec.specs.ArrayVec.{array_vec_len};
ghost use Rattle.vme_captures.specs.Signals.{is_change};
ghost use Rattle.vme_samples.specs.Samples.{are_changes};
ghost use Rattle.vme_probe.specs.Rooms.{change_width, refused_width, report_room, sample_width, stopped_width};
ghost use Rattle.vme_probe.specs.Sampled.{AddsRefused, Refuses, placed_line, placed_lines};
ghost use Rattle.vme_probe.specs.Steps.{IsOfStopped, SampleTaken, SeveralTaken};

use crate::answers::{either, push_refused};
use crate::judging::{Known, write_last};
use crate::lines::{Report, change_line, push_impossible};
use arrayvec::ArrayVec;
use std::io::Write;
use vme_reading::Status;
use vme_samples::{Makers, Places, SeenChange, Ways, comes_next};
use vme_slots::Plan;
use vme_standings::{Drivers, Probed, Standings, drivers_of};
use vme_text::push;
use vme_trace::{Fault, put};

/// Appends the line of a change with those who may have made it, if it is to be there: at most 160
/// bytes.
fn push_line(report: &mut Report, is_there: bool, seen: &SeenChange, drivers: Drivers)
    requires room { array_vec_len report.old + change_width ≤ report_room }
    requires change { IsTrue (is_change seen.now.change) }
    ensures items { report.new.items
        ≡ report.old.items ++ placed_line (Some seen.now) is_there drivers }
    ensures len { array_vec_len report.new ≤ array_vec_len report.old + change_width }
{
    if is_there {
        push(
            report,
            change_line(seen.moment, &seen.change, drivers).as_slice(),
        );
    }
}

/// Appends the lines of the changes of a sample that are in a set, with those who may have made
/// them: at most 160 bytes each.
fn push_placed(report: &mut Report, sample: &[SeenChange], places: Places, makers: &Makers)
    requires empty { report.old.items ≡ [] }
    requires few { length sample.now ≤ 12 }
    requires changes { IsTrue (are_changes sample.now) }
    ensures items { report.new.items
        ≡ placed_lines sample.now places makers.now (length sample.now) }
    ensures len { array_vec_len report.new ≤ sample_width }
{
    for place in 0..sample.len() {
        let is_there = places.has(place);
        push_line(report, is_there, &sample[place], makers.of(place));
    }
}

/// Appends what stands in the way of a change, if it is to be there: at most 2,326 bytes. The
/// result is whether some of that is a condition of our own rules alone.
fn push_refused_if(
    report: &mut Report,
    plan: &Plan,
    probed: &Probed,
    before: &Standings,
    is_there: bool,
    seen: &SeenChange,
) -> bool
    requires room { array_vec_len report.old + refused_width ≤ report_room }
    requires change { IsTrue (is_change seen.now.change) }
    ensures adds { (text : List ℕ) × (report.new.items ≡ report.old.items ++ text)
        × Refuses plan.now probed.now.version before.now (Some seen.now) is_there text result }
    ensures len { array_vec_len report.new ≤ array_vec_len report.old + refused_width }
{
    if !is_there {
        return false;
    }
    let owners = drivers_of(plan, seen.change.signal);
    push_refused(
        report,
        plan,
        probed,
        before,
        seen.moment,
        &seen.change,
        owners,
    )
}

/// Appends what stands in the way of each change of a sample that may come next behind a set. The
/// result is whether some of that is a condition of our own rules alone.
fn push_refused_next(
    report: &mut Report,
    plan: &Plan,
    probed: &Probed,
    before: &Standings,
    sample: &[SeenChange],
    places: Places,
) -> bool
    requires room { array_vec_len report.old ≤ sample_width }
    requires few { length sample.now ≤ 12 }
    requires changes { IsTrue (are_changes sample.now) }
    ensures adds { AddsRefused plan.now probed.now.version before.now sample.now places
        (length sample.now) report.old.items report.new.items result }
    ensures len { array_vec_len report.new ≤ stopped_width }
{
    let mut is_ours = false;
    for place in 0..sample.len() {
        let is_next = comes_next(sample, places, place);
        let here = push_refused_if(report, plan, probed, before, is_next, &sample[place]);
        is_ours = either(is_ours, here);
    }
    is_ours
}

impl Known {
    /// The text of a sample of which no order is possible.
    // Out of line, as is the next one: each has texts of 32 KiB, which share no room in one frame.
    #[inline(never)]
    fn stopped_in(&self, plan: &Plan, sample: &[SeenChange], ways: &mut Ways) -> Report
        requires few { length sample.now ≤ 12 }
        requires some { 0 < length sample.now }
        requires changes { IsTrue (are_changes sample.now) }
        ensures { IsOfStopped plan.now self.now sample.now ways.old.known.items result.items }
    {
        let furthest = ways.furthest(sample.len());
        let makers = ways.makers(plan, &self.probed, sample, furthest);
        let mut report: Report = ArrayVec::new();
        push_placed(&mut report, sample, furthest, &makers);
        let Some(before) = ways.hidden_behind(furthest) else {
            return report;
        };
        let is_ours = push_refused_next(&mut report, plan, &self.probed, &before, sample, furthest);
        push_impossible(&mut report, sample[0].moment, is_ours);
        report
    }

    /// Judges a sample of several changes. If some order of them is possible, their lines are
    /// written. If none is, what stands in the way is written, and the result is the status.
    ///
    /// # Errors
    /// X8 if that failed; a prefix of the text was written then.
    #[inline(never)]
    fn take_several<W: Write>(
        &mut self,
        plan: &Plan,
        sample: &[SeenChange],
        ways: &mut Ways,
        out: &mut W,
    ) -> Result<Option<Status>, Fault>
        requires few { length sample.now ≤ 12 }
        requires several { 1 < length sample.now }
        requires changes { IsTrue (are_changes sample.now) }
        ensures { SeveralTaken plan.now sample.now self.old self.new
            (W.contents out.old) (W.contents out.new) result }
    {
        ways.fill(plan, &self.probed, &self.standings, sample);
        let all = Places::first(sample.len());
        let Some(standings) = ways.behind(plan, &self.probed, sample, all) else {
            let report = self.stopped_in(plan, sample, ways);
            write_last(report.as_slice(), out)?;
            return Ok(Some(Status::SomeRefused));
        };
        let makers = ways.makers(plan, &self.probed, sample, all);
        let mut report: Report = ArrayVec::new();
        push_placed(&mut report, sample, all, &makers);
        self.standings = standings;
        self.changes = self.changes.saturating_add(sample.len() as u64);
        put(out, report.as_slice())?;
        Ok(None)
    }

    /// Judges a sample. If some order of its changes is possible, their lines are written. If none
    /// is, what stands in the way is written, and the result is the status. A sample of one change
    /// has one order, so nothing is gathered for it.
    ///
    /// # Errors
    /// X8 if that failed; a prefix of the text was written then.
    pub(crate) fn take_sample<W: Write>(
        &mut self,
        plan: &Plan,
        sample: &[SeenChange],
        ways: &mut Ways,
        out: &mut W,
    ) -> Result<Option<Status>, Fault>
        requires few { length sample.now ≤ 12 }
        requires changes { IsTrue (are_changes sample.now) }
        ensures { SampleTaken plan.now sample.now self.old self.new
            (W.contents out.old) (W.contents out.new) result }
    {
        match sample {
            [] => Ok(None),
            [seen] => self.take(plan, seen.moment, &seen.change, out),
            _ => self.take_several(plan, sample, ways, out),
        }
    }
}
