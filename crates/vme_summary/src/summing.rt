//! Summing a trace up: what it exercised, and what each board did.
ghost use Rattle.std.specs.Prelude.{◌≡◌, ◌+◌, ◌<◌, ◌^◌, ◌++◌, ◌∷◌, [], length, IsTrue, OnOk, OnErr, IfOk, IfErr};
ghost use Rattle.std.proofs.Common.{inl};
ghost use Rattle.std.specs.Io.KnownBytes.{Appends, Keeps};
ghost use Rattle.vme_model.specs.Signals.{is_well_formed};
ghost use Rattle.vme_model.specs.Locality.{AreWellFormed};
ghost use Rattle.vme_trace.specs.Writing.{AppendsFront};
ghost use Rattle.vme_summary.specs.Tally.{answered, refused};
ghost use Rattle.vme_reading.specs.Streams.{streams, ReadNothing, WroteNothing};
ghost use Rattle.vme_reading.specs.Outcomes.{LentAsking, bench, status_with};
ghost use Rattle.vme_reading.specs.Steps.{traced};
ghost use Rattle.vme_summary.specs.Summing.{IsWaiting, Sums, SumsInput};
ghost use Rattle.vme_summary.specs.TraceSums.{IsSumOf, OfSum, sum_text};
ghost use Rattle.vme_reading.specs.Unread.{stops_unread};

use crate::summaries::write_summary;
use crate::tallies::Tally;
use std::alloc::Global;
use std::io::{Read, Write};
use vme_bus::Bus;
use vme_following::Following;
use vme_model::Edge;
use vme_reading::{EngineFault, Judge, Status, read};
use vme_trace::{Fault, flush};

/// A trace on the way to its end, with what its edges came to.
#[derive(Drop)]
pub(crate) struct Summing {
    pub(crate) following: Following,
    pub(crate) tally: Tally,
}

impl Summing {
    /// Takes in the next edge.
    fn take_edge(&mut self, edge: &Edge)
        requires room { self.old.following.judged + 1 < 2 ^ 64 }
        requires well_formed { IsTrue (is_well_formed edge.now) }
        ensures judged { self.new.following.judged ≡ self.old.following.judged + 1 }
        ensures sum { OfSum self.old (λ p v es. IsSumOf p v (es ++ edge.now ∷ []) self.new) }
    {
        let events = self.following.events(edge);
        let answer = self.following.step(edge);
        self.following.judged += 1;
        self.tally.note(edge, &answer, events.as_slice());
    }

    /// Takes in the next edges.
    pub(crate) fn take_edges(&mut self, edges: &[Edge])
        requires room { self.old.following.judged + length edges.now < 2 ^ 64 }
        requires well_formed { AreWellFormed edges.now }
        ensures judged { self.new.following.judged
            ≡ self.old.following.judged + length edges.now }
        ensures sum { OfSum self.old (λ p v es. IsSumOf p v (es ++ edges.now) self.new) }
    {
        for edge in edges {
            self.take_edge(edge);
        }
    }

    /// Writes what the edges came to, and has the writer hand on what it holds back. The status
    /// says whether some edge was refused.
    fn print_summary<W: Write>(&self, out: &mut W) -> Result<Status, Fault>
        ensures status { IfOk result (λ status. OfSum self.now (λ p v es.
            status ≡ status_with (refused (answered (bench p v) es)))) }
        ensures ok { OnOk result (OfSum self.now (λ p v es.
            Appends (W.contents out.old) (W.contents out.new)
            (sum_text p v es))) }
        ensures front { OnErr result (OfSum self.now (λ p v es.
            AppendsFront (W.contents out.old) (W.contents out.new)
            (sum_text p v es))) }
        ensures fault { IfErr result (λ fault. fault ≡ Fault.Write) }
    {
        write_summary(self.following.bus.plan(), &self.tally, out)?;
        flush(out)?;
        Ok(Status::of_refused(self.tally.refused()))
    }
}

impl Judge for Summing {
    type Task = ();

    type Answer = Status;

    ghost can = { λ _. Unit {0} };

    ghost count = { λ now. now.following.judged };

    ghost stands = { λ _ p v es old new now. Keeps old new × IsSumOf p v es now };

    ghost leaves = { λ _ p trace s answer. Sums p trace s (traced answer) };

    ghost unbegun = { λ task can p trace s f kept h.
        inl (stops_unread IsWaiting tt trace s f h, kept) };

    fn begin(_task: &(), bus: Bus) -> Summing {
        let following = Following::new(bus);
        let tally = Tally::new();
        Summing { following, tally }
    }

    /// Takes in the edges, and prints the summary at the end of the trace.
    fn take<W: Write>(
        &mut self,
        edges: &[Edge],
        more: Result<bool, Fault>,
        _paused: bool,
        out: &mut W,
    ) -> Result<Option<Status>, Fault> {
        self.take_edges(edges);
        match more {
            Ok(true) => Ok(None),
            Ok(false) => Ok(Some(self.print_summary(out)?)),
            Err(fault) => Err(fault),
        }
    }
}

/// Sums a trace up, on the plan of a scenario.
///
/// Writes at its end how many edges were accepted and refused, and by which rules; which rules let
/// none pass; which situations came, and which never; how long each board waited for the bus and
/// held it, and how many cycles and answers it made. The status is that of a replay. It makes at
/// most 16,777,216 reads.
///
/// # Errors
/// F2, the faults of the scenario and F3, before anything is read or written; those of the trace,
/// and then nothing is written; X8 if the output cannot be written.
pub fn summary<R: Read, W: Write>(
    alloc: Global,
    scenario: &[u8],
    trace: &mut R,
    out: &mut W,
) -> Result<Status, EngineFault>
    ensures { let s = streams (R.remaining trace.old) (R.remaining trace.new)
        (W.contents out.old) (W.contents out.new) in
        LentAsking scenario.now (ReadNothing s × WroteNothing s) (SumsInput s) result }
{
    read::<Summing, R, W>(alloc, scenario, &(), trace, out)
}
