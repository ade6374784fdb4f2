//! Letting the drivers of a bus make edges in turn.
ghost use Rattle.std.specs.Prelude.{◌≡◌, ◌==◌, ◌++◌, [], OnOk, OnErr, IfErr, IsTrue, if◌then◌else◌};
ghost use Rattle.std.specs.Io.KnownBytes.{Appends, Keeps};
ghost use Rattle.vme_model.specs.Plan.{drivers};
ghost use Rattle.vme_model.specs.Safe.{IsSafe};
ghost use Rattle.vme_model.specs.declared.signals.Driver.TheVariants.{Slot};
ghost use Rattle.vme_model.specs.Offers.{turn, turns, rounds};
ghost use Rattle.vme_model.specs.Text.{text};
ghost use Rattle.vme_model.specs.Signals.{is_well_formed};
ghost use Rattle.vme_trace.specs.Writing.{AppendsFront, edge_line};
ghost use Rattle.vme_reading.specs.Texts.{HandsOn, ListsOn, trace_made};
ghost use Rattle.vme_reading.specs.Outcomes.{Lent};
ghost use Rattle.vme_reading.specs.declared.Status.TheVariants.{Done, Limit};
ghost use Rattle.vme_drive.specs.Driving.{boards, driven, Drives, DrivesSafely};
ghost use Rattle.vme_reading.specs.Steps.{traced};

use crate::edges::push_edge;
use std::alloc::Global;
use std::io::Write;
use vme_bus::{Bus, Turns};
use vme_model::{Driver, Edge, Version};
use vme_reading::{EngineFault, Status, hand_on, make_room, plan_of};
use vme_slots::Plan;
use vme_text::Text;
use vme_trace::{Fault, flush, header_line, put, write_line};

/// A drive under way.
#[derive(Drop)]
struct Driving {
    bus: Turns,
    /// Of the lines of its edges those that are not yet written.
    text: Text,
}

impl Driving {
    /// Before the first edge.
    fn new(bus: Bus) -> Driving
        ensures bus { result.bus ≡ bus }
        ensures text { result.text ≡ [] }
    {
        Driving {
            bus: Turns::new(bus),
            text: Text::new(),
        }
    }

    /// A driver's turn: it makes an offer, unless there is none or enough edges were made.
    #[inline(always)]
    fn take_turn<W: Write>(
        &mut self,
        round: u32,
        edges: u32,
        driver: Driver,
        out: &mut W,
    ) -> Result<(), Fault>
        ensures { ListsOn self.old.bus self.old.text (W.contents out.old) (W.contents out.new)
            (turn round edges self.old.bus driver) self.new.bus self.new.text result }
    {
        if self.bus.len() == edges {
            return Ok(());
        }
        match self.bus.make_offer(driver, round) {
            Some(edge) => put_line(&mut self.text, &edge, out),
            None => Ok(()),
        }
    }

    /// A turn of each board, by slot. Those that may not move are passed over: they have no offer.
    fn take_slots<W: Write>(&mut self, round: u32, edges: u32, out: &mut W) -> Result<(), Fault>
        ensures { ListsOn self.old.bus self.old.text (W.contents out.old) (W.contents out.new)
            (turns round edges self.old.bus (boards self.old.bus.plan))
            self.new.bus self.new.text result }
    {
        self.bus.laws();
        let mut last = 0;
        while let Some(slot) = self.bus.movers().next_after(last) {
            self.take_turn(round, edges, Driver::Slot(slot), out)?;
            last = slot;
        }
        Ok(())
    }

    /// A turn of each driver.
    fn take_turns<W: Write>(&mut self, round: u32, edges: u32, out: &mut W) -> Result<(), Fault>
        ensures { ListsOn self.old.bus self.old.text (W.contents out.old) (W.contents out.new)
            (turns round edges self.old.bus (drivers self.old.bus.plan))
            self.new.bus self.new.text result }
    {
        self.take_turn(round, edges, Driver::Controller, out)?;
        self.take_slots(round, edges, out)
    }

    /// Rounds, until enough edges were made or a round makes none.
    fn take_rounds<W: Write>(&mut self, edges: u32, out: &mut W) -> Result<(), Fault>
        ensures { ListsOn self.old.bus self.old.text (W.contents out.old) (W.contents out.new)
            (rounds self.old.bus edges) self.new.bus self.new.text result }
    {
        for round in 0..edges {
            let before = self.bus.len();
            self.take_turns(round, edges, out)?;
            if self.bus.len() == before {
                return Ok(());
            }
        }
        Ok(())
    }

    /// Writes the trace of the edges that all the drivers make.
    fn write<W: Write>(&mut self, edges: u32, out: &mut W) -> Result<(), Fault>
        requires start { self.old.bus.history ≡ [] }
        requires empty { self.old.text ≡ [] }
        ensures state { OnOk result (self.new.bus ≡ rounds self.old.bus edges) }
        ensures ok { OnOk result
            (Appends (W.contents out.old) (W.contents out.new)
            (trace_made (rounds self.old.bus edges))) }
        ensures front { OnErr result
            (AppendsFront (W.contents out.old) (W.contents out.new)
            (trace_made (rounds self.old.bus edges))) }
        ensures fault { IfErr result (λ fault. fault ≡ Fault.Write) }
    {
        put(out, header_line(self.bus.version()))?;
        self.take_rounds(edges, out)?;
        hand_on(&mut self.text, out)?;
        flush(out)
    }
}

/// Puts the line of an edge to a text, which is written first if it has no room for it.
///
/// # Errors
/// X8 if that failed; a prefix of the text was then written.
#[inline(always)]
pub(crate) fn put_line<W: Write>(text: &mut Text, edge: &Edge, out: &mut W) -> Result<(), Fault>
    requires { IsTrue (is_well_formed edge.now) }
    ensures ok { OnOk result
        (HandsOn (W.contents out.old) (W.contents out.new)
        (text.old ++ edge_line edge.now) text.new) }
    ensures front { OnErr result
        (AppendsFront (W.contents out.old) (W.contents out.new) text.old) }
    ensures fault { IfErr result (λ fault. fault ≡ Fault.Write) }
{
    make_room(text, out)?;
    push_edge(text, edge);
    Ok(())
}

/// The status of an engine that made so many edges, of so many that were asked for.
pub fn status_of(made: u32, edges: u32) -> Status
    ensures { result ≡ (if made == edges then Limit else Done) }
{
    if made == edges {
        Status::Limit
    } else {
        Status::Done
    }
}

/// Lets the drivers of a plan make edges in turn, at most `edges`, and writes their trace. Its
/// frame is large.
#[inline(never)]
fn drive_on<W: Write>(
    plan: Plan,
    edges: u32,
    out: &mut W,
    version: Version,
) -> Result<Status, Fault>
    ensures outcome { Drives version edges (W.contents out.old) (W.contents out.new)
        plan (traced result) }
    ensures safe { OnOk result (IsSafe plan (driven plan version edges)) }
{
    let mut drive = Driving::new(Bus::new(plan, version));
    drive.write(edges, out)?;
    drive.bus.laws();
    drive.bus.safety();
    Ok(status_of(drive.bus.len(), edges))
}

/// Lets the drivers of a scenario make edges in turn, at most `edges`, and writes their trace.
///
/// The status is `Limit` if `edges` of them were made, otherwise `Done`. A driver with k offers
/// makes, in round r, the one at place `r mod k`; a round that makes no edge is the last.
///
/// The lines are written as the edges are made, and no edge is kept.
///
/// # Errors
/// F2 and the faults of the scenario, before anything is written; X8 if the output cannot be
/// written.
pub fn drive<W: Write>(
    alloc: Global,
    scenario: &[u8],
    edges: u32,
    out: &mut W,
    version: Version,
) -> Result<Status, EngineFault>
    ensures outcome { Lent scenario.now
        (Keeps (W.contents out.old) (W.contents out.new))
        (Drives version edges (W.contents out.old) (W.contents out.new))
        result }
    ensures safe { OnOk result (DrivesSafely scenario.now version edges) }
{
    let plan = plan_of(alloc, scenario)?;
    match drive_on(plan, edges, out, version) {
        Ok(status) => Ok(status),
        Err(fault) => Err(EngineFault::Trace(fault)),
    }
}
