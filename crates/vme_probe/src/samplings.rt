//! The changes of a sample that wait until it is complete.
ghost use Rattle.std.specs.Prelude.{◌≡◌, [], ℕ, IfErr, IfOk, IsTrue, Some};
ghost use Rattle.vme_captures.specs.Signals.{is_change};
ghost use Rattle.vme_probe.specs.Reads.{skew_of, waiting_in};
ghost use Rattle.vme_probe.specs.Steps.{Pushed, SampleTaken, SeenTaken};

use crate::judging::Known;
use crate::probes::ProbeFault;
use std::alloc::Global;
use std::io::Write;
use vme_reading::{EngineFault, Status};
use vme_samples::{Sample, SeenChange, Ways};
use vme_slots::Plan;
use vme_trace::Fault;

/// With `--skew`: the changes of a sample that is not complete, and the room to judge it.
#[derive(Drop)]
pub(crate) struct Sampling {
    /// How much later than the change before it a change of the same sample may be.
    skew: u64,
    sample: Sample,
    ways: Ways,
}

impl Sampling {
    /// Before the first change.
    ///
    /// # Errors
    /// F3.
    fn new(alloc: Global, skew: u64) -> Result<Sampling, EngineFault>
        ensures new { IfOk result (λ s. (s.skew ≡ skew) × (s.sample.changes.items ≡ [])) }
        ensures fault { IfErr result (λ fault. fault ≡ EngineFault.NoMemory) }
    {
        match Ways::new(alloc) {
            Ok(ways) => Ok(Sampling {
                skew,
                sample: Sample::new(),
                ways,
            }),
            Err(_) => Err(EngineFault::NoMemory),
        }
    }

    /// Judges the sample as far as it has come.
    ///
    /// # Errors
    /// X8 if its text could not be written; a prefix of it was written then.
    fn judge<W: Write>(
        &mut self,
        plan: &Plan,
        known: &mut Known,
        out: &mut W,
    ) -> Result<Option<Status>, Fault>
        ensures skew { self.new.skew ≡ self.old.skew }
        ensures sample { self.new.sample ≡ self.old.sample }
        ensures taken { SampleTaken plan.now self.old.sample.changes.items known.old known.new
            (W.contents out.old) (W.contents out.new) result }
    {
        known.take_sample(plan, self.sample.changes(), &mut self.ways, out)
    }

    /// Takes one change more into the sample.
    ///
    /// # Errors
    /// F5 if it is the 13th.
    fn push(&mut self, seen: SeenChange) -> Result<Option<Status>, ProbeFault>
        requires { IsTrue (is_change seen.change) }
        ensures skew { self.new.skew ≡ self.old.skew }
        ensures pushed { Pushed seen self.old.sample.changes.items self.new.sample.changes.items
            result }
    {
        if self.sample.push(seen) {
            Ok(None)
        } else {
            Err(ProbeFault::TooManyOrders)
        }
    }

    /// Takes in the next change. If it is not of the sample, that one is complete and is judged.
    ///
    /// # Errors
    /// F5 if it is the 13th of the sample; X8 if a text could not be written, and a prefix of it
    /// was written then.
    pub(crate) fn take<W: Write>(
        &mut self,
        plan: &Plan,
        known: &mut Known,
        seen: SeenChange,
        out: &mut W,
    ) -> Result<Option<Status>, ProbeFault>
        requires { IsTrue (is_change seen.change) }
        ensures skew { self.new.skew ≡ self.old.skew }
        ensures taken { SeenTaken plan.now self.old.skew self.old.sample.changes.items seen
            known.old known.new self.new.sample.changes.items
            (W.contents out.old) (W.contents out.new) result }
    {
        if self.sample.joins(self.skew, seen.moment) {
            return self.push(seen);
        }
        if let Some(status) = self.judge(plan, known, out)? {
            return Ok(Some(status));
        }
        self.sample.clear();
        self.push(seen)
    }
}

/// What `--skew` asks for, if it is given.
///
/// # Errors
/// F3.
pub(crate) fn sampling_of(alloc: Global, skew: Option<u64>) -> Result<Option<Sampling>, EngineFault>
    ensures skew { IfOk result (λ s. skew_of s ≡ skew) }
    ensures empty { IfOk result (λ s. waiting_in s ≡ []) }
    ensures fault { IfErr result (λ fault. fault ≡ EngineFault.NoMemory) }
    ensures given { IfErr result (λ fault. (n : ℕ) × (skew ≡ Some n)) }
{
    match skew {
        None => Ok(None),
        Some(skew) => Ok(Some(Sampling::new(alloc, skew)?)),
    }
}

/// Judges the sample that waits, if there is one.
///
/// # Errors
/// X8 if its text could not be written; a prefix of it was written then.
pub(crate) fn judge_last<W: Write>(
    sampling: &mut Option<Sampling>,
    plan: &Plan,
    known: &mut Known,
    out: &mut W,
) -> Result<Option<Status>, Fault>
    ensures { SampleTaken plan.now (waiting_in sampling.old) known.old known.new
        (W.contents out.old) (W.contents out.new) result }
{
    match sampling {
        None => Ok(None),
        Some(sampling) => sampling.judge(plan, known, out),
    }
}
