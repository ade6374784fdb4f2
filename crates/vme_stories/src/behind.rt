//! A bus behind a list of edges.
ghost use Rattle.std.specs.Prelude.{◌≡◌, ◌++◌, OnOk, is_ok};
ghost use Rattle.vme_model.specs.Report.{at_power_up, trace_limit};
ghost use Rattle.vme_model.specs.declared.signals.Wire.TheVariants.{Dtack};
ghost use Rattle.vme_model.specs.History.{in_order, shown};
ghost use Rattle.vme_model.specs.Verdict.{verdict, after, kept};
ghost use Rattle.vme_events.specs.Events.{events_of};
ghost use Rattle.vme_stories.specs.Replies.{reply_at};

use crate::replies::{Reply, level_named};
use arrayvec::ArrayVec;
use std::alloc::AllocError;
use std::marker::Model;
use vme_bus::Bus;
use vme_events::events_of;
use vme_explain::Marks;
use vme_goals::Event;
use vme_model::{Cycle, Edge, Refused, Version, Wire};
use vme_store::Code;

/// A bus with the marks of its edges, which are numbered by their places. A contract sees it as the
/// bus.
#[derive(Drop)]
pub(crate) struct Behind {
    bus: Bus,
    marks: Marks,
}

impl Model for Behind {
    ghost use Rattle.vme_model.specs.Verdict.{State};
    ghost use Rattle.vme_explain.specs.Marked.{IsMarksOf};
    ghost use Rattle.vme_events.specs.Places.{by_place};

    ghost Value = { State };

    ghost view = { λ b. b.bus };

    ghost invariant = { λ b. IsMarksOf b.bus.plan (by_place b.bus.history) b.marks };
}

impl Behind {
    /// A bus, put back to power-up.
    pub(crate) fn new(mut bus: Bus) -> Behind
        ensures { result ≡ at_power_up bus.version bus.plan trace_limit }
    {
        bus.restart();
        Behind {
            bus,
            marks: Marks::new(),
        }
    }

    /// Puts the bus back to power-up: no edge was made.
    pub(crate) fn restart(&mut self)
        ensures { self.new ≡ at_power_up self.old.version self.old.plan trace_limit }
    {
        self.bus.restart();
        self.marks = Marks::new();
    }

    /// What is shown, if the edge is one of DTACK*: no other needs it.
    fn shown_at(&self, edge: Edge) -> Option<Cycle>
        ensures { edge.wire ≡ Dtack → result ≡ shown self.now.plan self.now.history }
    {
        match edge.wire {
            Wire::Dtack => self.bus.shown(),
            _ => None,
        }
    }

    /// The version of the bus.
    pub(crate) fn version(&self) -> Version
        ensures { result ≡ self.now.version }
    {
        self.bus.version()
    }

    /// The answer to an edge that is about to come, but for what it delivers.
    pub(crate) fn verdict(&self, edge: Edge) -> Result<(), Refused>
        ensures { result ≡ verdict self.now edge }
    {
        self.bus.verdict(edge)
    }

    /// Makes the edge if it is accepted, and returns whether it is.
    pub(crate) fn step(&mut self, edge: Edge) -> bool
        ensures accepted { result ≡ is_ok (verdict self.old edge) }
        ensures state { self.new ≡ after self.old edge }
    {
        // An edge of DTACK* does not change what is shown.
        let shown = self.shown_at(edge);
        if self.bus.step(edge).is_err() {
            return false;
        }
        self.marks.note(&edge, u64::from(self.bus.len()), shown);
        true
    }

    /// The situations that an edge brings about that is about to be made.
    fn events(&self, edge: Edge) -> ArrayVec<Event, 2>
        ensures { result.items ≡ events_of self.now.plan self.now.history edge }
    {
        events_of(&self.bus, &self.marks, &edge)
    }

    /// What is said of an edge that is about to come.
    pub(crate) fn reply(&self, edge: Edge) -> Reply
        ensures { result ≡ reply_at self.now edge }
    {
        let answer = self.bus.answer(edge);
        let events = match answer {
            Ok(_) => self.events(edge),
            Err(_) => ArrayVec::new(),
        };
        let failing = self.bus.failing(edge);
        let level = level_named(failing.as_slice(), self.bus.shown());
        Reply {
            answer,
            failing,
            level,
            events,
        }
    }
}

/// Makes an edge if it is accepted, and puts it at the end of the list of those that were made.
fn take_in(behind: &mut Behind, made: &mut Vec<Code>, code: Code) -> Result<(), AllocError>
    requires { made.old.items ≡ in_order behind.old.history }
    ensures state { OnOk result (behind.new ≡ after behind.old code) }
    ensures made { OnOk result (made.new.items ≡ in_order behind.new.history) }
{
    if behind.step(code.edge()) {
        made.push(code)?;
    }
    Ok(())
}

/// Goes on with edges, past those that are refused, and puts the others to the end of the list of
/// those that were made.
pub(crate) fn go_on(
    behind: &mut Behind,
    made: &mut Vec<Code>,
    edges: &[Code],
) -> Result<(), AllocError>
    requires { made.old.items ≡ in_order behind.old.history }
    ensures state { OnOk result (behind.new ≡ kept behind.old edges.now) }
    ensures made { OnOk result (made.new.items ≡ in_order behind.new.history) }
{
    for code in edges {
        take_in(behind, made, *code)?;
    }
    Ok(())
}
