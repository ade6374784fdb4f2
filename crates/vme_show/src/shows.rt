//! Showing a stretch of a trace as a picture.
ghost use Rattle.std.specs.Prelude.{◌≡◌, ◌+◌, ◌-◌, ◌<◌, ◌≤◌, ◌++◌, ◌∷◌, [], List, length, min, IfErr, OnOk, OnErr};
ghost use Rattle.std.proofs.Common.{inl};
ghost use Rattle.std.specs.Io.KnownBytes.{Appends, Keeps};
ghost use Rattle.vme_model.specs.declared.signals.Edge.{Edge as EdgeValue};
ghost use Rattle.vme_model.specs.Verdict.{State};
ghost use Rattle.vme_trace.specs.Writing.{AppendsFront};
ghost use Rattle.vme_reading.specs.Streams.{streams, ReadNothing, Wrote, WroteNothing};
ghost use Rattle.vme_reading.specs.Outcomes.{LentAsking, bench};
ghost use Rattle.vme_reading.specs.Readings.{GoesOn};
ghost use Rattle.vme_show.specs.Showing.{Shows, ShowsInput, shown_text};
ghost use Rattle.vme_show.specs.Stretches.{IsStretch};
ghost use Rattle.vme_show.specs.Shown.{Ends, EndsStretch, IsBefore, IsFresh, IsShown, status_to, stretch_text};
ghost use Rattle.vme_following.specs.Followed.{printed_answer};
ghost use Rattle.vme_reading.specs.Unread.{stops_unread};
ghost use Rattle.vme_reading.proofs.WrittenLines.{appends_behind};
ghost use Rattle.std.proofs.KnownBytes.{Appends-nil};
ghost use Rattle.std.proofs.Math.Nat.{le_trans};

use crate::windows::Window;
use std::alloc::Global;
use std::io::{Read, Write};
use std::marker::Model;
use vme_bus::Bus;
use vme_following::{Printed, status_of};
use vme_model::Edge;
use vme_reading::{EngineFault, Judge, Status, read};
use vme_trace::{Fault, flush};

/// How many of the next `len` edges of a trace, of which `judged` came before, have a number of at
/// most `last`.
fn numbered_within(last: u64, judged: u64, len: usize) -> usize
    ensures { result ≡ min (last - judged) len }
{
    last.saturating_sub(judged).min(len as u64) as usize
}

/// Which edges of a trace are shown, by their numbers, and whether in color.
#[derive(Clone, Copy, PartialEq, Eq, Debug)]
struct Stretch {
    from: u64,
    to: u64,
    color: bool,
}

/// A trace under way to the end of a stretch.
#[derive(Drop)]
struct Showing {
    bus: Bus,
    stretch: Stretch,
    /// How many edges were judged.
    judged: u64,
    /// What is kept of the stretch, from its first edge on.
    window: Option<Window>,
}

impl Model for Showing {
    ghost use Rattle.vme_show.specs.Stretches.{IsOpened, Stage};

    ghost Value = { Stage };

    ghost view = { λ s. record {
      bus = s.bus;
      stretch = s.stretch;
      judged = s.judged;
      window = s.window;
    } };

    ghost invariant = { λ s. IsOpened s.stretch s.judged s.window };
}

impl Showing {
    /// Before the first edge.
    fn new(bus: Bus, stretch: Stretch) -> Showing
        requires { IsStretch stretch }
        ensures bus { result.bus ≡ bus }
        ensures stretch { result.stretch ≡ stretch }
        ensures fresh { IsFresh result }
    {
        Showing {
            bus,
            stretch,
            judged: 0,
            window: None,
        }
    }

    /// Steps through edges before the stretch.
    fn skip(&mut self, edges: &[Edge])
        requires before { IsBefore self.old (length edges.now) }
        requires to { self.old.judged + length edges.now ≤ self.old.stretch.to }
        ensures stretch { self.new.stretch ≡ self.old.stretch }
        ensures judged { self.new.judged ≡ self.old.judged + length edges.now }
        ensures shown { (b : State) (es : List EdgeValue)
            → IsShown b es self.old → IsShown b (es ++ edges.now) self.new }
    {
        self.bus.run(edges);
        self.judged += edges.len() as u64;
    }

    /// Steps by the next edge of the stretch, and keeps what is drawn of it.
    fn keep(&mut self, edge: Edge)
        requires from { self.old.stretch.from ≤ self.old.judged + 1 }
        requires to { self.old.judged < self.old.stretch.to }
        ensures stretch { self.new.stretch ≡ self.old.stretch }
        ensures judged { self.new.judged ≡ self.old.judged + 1 }
        ensures shown { (b : State) (es : List EdgeValue)
            → IsShown b es self.old → IsShown b (es ++ edge ∷ []) self.new }
    {
        self.judged += 1;
        match &mut self.window {
            Some(window) => window.step(&mut self.bus, edge),
            None => {
                let mut window = Window::new(self.stretch.from, &self.bus);
                window.step(&mut self.bus, edge);
                self.window = Some(window);
            }
        }
    }

    /// Steps by edges of the stretch, and keeps what is drawn of them.
    fn keep_all(&mut self, edges: &[Edge])
        requires from { 0 < length edges.now → self.old.stretch.from ≤ self.old.judged + 1 }
        requires to { self.old.judged + length edges.now ≤ self.old.stretch.to }
        ensures stretch { self.new.stretch ≡ self.old.stretch }
        ensures judged { self.new.judged ≡ self.old.judged + length edges.now }
        ensures shown { (b : State) (es : List EdgeValue)
            → IsShown b es self.old → IsShown b (es ++ edges.now) self.new }
    {
        for edge in edges {
            self.keep(*edge);
        }
    }

    /// Steps by edges up to the end of the stretch.
    fn take_in(&mut self, edges: &[Edge])
        requires { self.old.judged + length edges.now ≤ self.old.stretch.to }
        ensures stretch { self.new.stretch ≡ self.old.stretch }
        ensures judged { self.new.judged ≡ self.old.judged + length edges.now }
        ensures shown { (b : State) (es : List EdgeValue)
            → IsShown b es self.old → IsShown b (es ++ edges.now) self.new }
    {
        let before = numbered_within(self.stretch.from - 1, self.judged, edges.len());
        self.skip(&edges[..before]);
        self.keep_all(&edges[before..]);
    }

    /// Writes the picture of what is kept of the stretch, if anything, and has the writer hand on
    /// what it holds back.
    fn draw<W: Write>(&self, out: &mut W) -> Result<(), Fault>
        ensures ok { OnOk result ((b : State) (es : List EdgeValue) → IsShown b es self.now
            → Appends (W.contents out.old) (W.contents out.new)
            (stretch_text self.now.stretch b es)) }
        ensures front { OnErr result ((b : State) (es : List EdgeValue) → IsShown b es self.now
            → AppendsFront (W.contents out.old) (W.contents out.new)
            (stretch_text self.now.stretch b es)) }
        ensures fault { IfErr result (λ fault. fault ≡ Fault.Write) }
    {
        match &self.window {
            Some(window) => {
                window.draw(self.stretch.color, out)?;
                flush(out)
            }
            None => Ok(()),
        }
    }

    /// The status: whether an edge was refused.
    fn status(&self) -> Status
        ensures { (b : State) (es : List EdgeValue)
            → IsShown b es self.now → result ≡ status_to self.now.stretch.to b es }
    {
        let accepted = u64::from(self.bus.len());
        Status::of_refused(self.judged.saturating_sub(accepted))
    }

    /// Ends a stretch, or a trace: what is kept of the stretch is drawn, unless the trace ends
    /// before it.
    fn end<W: Write>(&self, out: &mut W) -> Result<Printed, Fault>
        ensures { (b : State) (es : List EdgeValue) → IsShown b es self.now
            → EndsStretch self.now.stretch b es (W.contents out.old) (W.contents out.new) result }
    {
        if self.window.is_none() {
            return Ok(Printed::Beyond(self.judged));
        }
        self.draw(out)?;
        Ok(Printed::Block(self.status()))
    }

    /// Takes the edges of a piece, and draws the stretch once its end is reached, or the trace's.
    ///
    /// `more` is what the read of the piece answered. None if the trace goes on.
    fn take_piece<W: Write>(
        &mut self,
        edges: &[Edge],
        more: Result<bool, Fault>,
        out: &mut W,
    ) -> Result<Option<Printed>, Fault>
        ensures stretch { self.new.stretch ≡ self.old.stretch }
        ensures goes_on { GoesOn more self.new.judged (self.old.judged + length edges.now) result }
        ensures ends { (b : State) (es : List EdgeValue)
            → IsShown b es self.old → length es < self.old.stretch.to
            → Ends self.old.stretch b (es ++ edges.now) more
            (W.contents out.old) (W.contents out.new) self.new result }
    {
        let count = numbered_within(self.stretch.to, self.judged, edges.len());
        self.take_in(&edges[..count]);
        if self.judged == self.stretch.to {
            return Ok(Some(self.end(out)?));
        }
        match more {
            Ok(true) => Ok(None),
            Ok(false) => Ok(Some(self.end(out)?)),
            Err(fault) => {
                self.draw(out)?;
                Err(fault)
            }
        }
    }
}

impl Judge for Showing {
    type Task = Stretch;

    type Answer = Printed;

    ghost can = { λ stretch. IsStretch stretch };

    ghost count = { λ now. now.judged };

    ghost stands = { λ stretch p v es old new now.
        (now.stretch ≡ stretch) × IsStretch stretch × Keeps old new
        × (length es < stretch.to) × IsShown (bench p v) es now };

    ghost leaves = { λ stretch p trace s answer.
        Shows stretch.from stretch.to stretch.color p trace s (printed_answer answer) };

    ghost unbegun = { λ stretch is p trace s f kept h.
        inl (stops_unread (λ version es. (length es < stretch.to)
        × Wrote s (shown_text stretch.color stretch.from stretch.to p version es)) (
          le_trans is.some is.order,
          appends_behind s.old s.new s.new [] kept (Appends-nil s.new),
        ) trace s f h) };

    fn begin(task: &Stretch, bus: Bus) -> Showing {
        Showing::new(bus, *task)
    }

    fn take<W: Write>(
        &mut self,
        edges: &[Edge],
        more: Result<bool, Fault>,
        _paused: bool,
        out: &mut W,
    ) -> Result<Option<Printed>, Fault> {
        self.take_piece(edges, more, out)
    }
}

/// Shows the edges with the numbers `from` to `to` of a trace, on the plan of a scenario, as a
/// picture: a row for each wire that moves among them, a column for each edge.
///
/// Writes the picture of those of them that the trace has. With `color` each `x` of a refused edge
/// is red, and each `!` of a delivery green. The status is `SomeRefused` if an edge up to the last
/// of them is refused, otherwise `Done`. After that edge it judges none. It makes at most
/// 16,777,216 reads.
///
/// # Errors
/// F2, the faults of the scenario and F3, before anything is read or written; those of the trace up
/// to the edge `to`, after the picture of the edges before them; X9 if a trace without fault has
/// fewer than `from` edges: then nothing is written; X8 if the output cannot be written.
pub fn show<R: Read, W: Write>(
    alloc: Global,
    scenario: &[u8],
    trace: &mut R,
    from: u64,
    to: u64,
    color: bool,
    out: &mut W,
) -> Result<Status, EngineFault>
    requires some { 1 ≤ from }
    requires order { from ≤ to }
    requires few { to < from + 200 }
    ensures { let s = streams (R.remaining trace.old) (R.remaining trace.new)
        (W.contents out.old) (W.contents out.new) in
        LentAsking scenario.now (ReadNothing s × WroteNothing s)
        (ShowsInput from to color s) result }
{
    let stretch = Stretch { from, to, color };
    status_of(read::<Showing, R, W>(alloc, scenario, &stretch, trace, out))
}
