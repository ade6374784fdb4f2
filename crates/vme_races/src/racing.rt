//! A trace whose accepted edges go back, edge by edge.
ghost use Rattle.std.specs.Prelude.{◌≡◌, ◌+◌, ◌<◌, ◌^◌, ◌++◌, ◌∷◌, [], IfErr, IfOk, IfSome, IsTrue, List, Ok, OnErr, OnOk, Option, length, ℕ};
ghost use Rattle.std.specs.Io.KnownBytes.{Appends};
ghost use Rattle.vme_model.specs.declared.signals.Edge.{Edge as EdgeValue};
ghost use Rattle.vme_model.specs.declared.signals.Version.{Version as VersionValue};
ghost use Rattle.vme_model.specs.Locality.{AreWellFormed};
ghost use Rattle.vme_model.specs.Plan.{Plan as PlanValue};
ghost use Rattle.vme_model.specs.Signals.{is_well_formed};
ghost use Rattle.vme_trace.specs.Writing.{AppendsFront};
ghost use Rattle.vme_swaps.specs.Stops.{is_formed};
ghost use Rattle.vme_reading.specs.Outcomes.{bench};
ghost use Rattle.vme_races.specs.declared.walks.Walk.{Walk as WalkValue};
ghost use Rattle.vme_model.specs.Numbered.{numbered};
ghost use Rattle.vme_model.specs.Verdict.{kept, made, verdict};
ghost use Rattle.vme_races.specs.Lines.{count_if};
ghost use Rattle.vme_races.specs.Kept.{Advances, AreLast, Breaks, IsCounted, IsKept, Stands, taken_line};

use crate::earlier::Earlier;
use crate::lines::race_line;
use crate::recent::Recent;
use crate::walks::Walk;
use std::alloc::Global;
use std::io::Write;
use vme_bus::{Bus, BusState};
use vme_histories::by_wire;
use vme_model::{Edge, Refused, Wire};
use vme_swaps::Stop;
use vme_trace::{Fault, put};

/// How many edges went back, and how.
#[derive(Clone, Copy)]
pub(crate) struct Counts {
    /// How many race.
    pub(crate) races: u64,
    /// How many wait.
    pub(crate) waits: u64,
    /// How many come back over one edge at the least.
    pub(crate) free: u64,
}

/// A trace under way.
#[derive(Drop)]
pub(crate) struct Racing {
    pub(crate) bus: Bus,
    /// How many edges were judged.
    pub(crate) judged: u64,
    pub(crate) recent: Recent,
    /// A bus of the plan, which is set to that before each edge that another may pass.
    pub(crate) passing: BusState,
    pub(crate) counts: Counts,
}

/// A count, with one more if the test holds.
fn counted(count: u64, test: bool) -> u64
    ensures { count + 1 < 2 ^ 64 → result ≡ count + count_if test }
{
    if test { count.saturating_add(1) } else { count }
}

impl Counts {
    /// Of no edges.
    fn new() -> Counts
        ensures { IsCounted [] result }
    {
        Counts {
            races: 0,
            waits: 0,
            free: 0,
        }
    }

    /// Counts the walk of the next edge.
    fn note(&mut self, walk: &Walk)
        ensures { (walks : List WalkValue) → length walks + 1 < 2 ^ 64
            → IsCounted walks self.old → IsCounted (walk.now ∷ walks) self.new }
    {
        self.races = counted(self.races, walk.stop.is_race());
        self.waits = counted(self.waits, walk.stop.is_wait());
        self.free = counted(self.free, walk.is_back());
    }
}

/// The answer to an edge, in an arm for each wire.
fn verdict(bus: &Bus, edge: Edge) -> Result<(), Refused>
    ensures { result ≡ verdict bus.now edge }
{
    by_wire!(edge => bus.verdict(edge))
}

/// Makes an edge that would be accepted, in an arm for each wire.
fn make(bus: &mut Bus, edge: Edge)
    requires { verdict bus.old edge ≡ Ok tt }
    ensures { bus.new ≡ made bus.old edge }
{
    by_wire!(edge => bus.make(edge))
}

impl Racing {
    /// Before the first edge.
    pub(crate) fn new(alloc: Global, bus: Bus) -> Racing
        ensures judged { result.judged ≡ 0 }
        ensures kept { (p : PlanValue) (v : VersionValue) → bus ≡ bench p v
            → IsKept p v [] [] result }
    {
        let passing = *bus.state();
        Racing {
            bus,
            judged: 0,
            recent: Recent::new(alloc),
            passing,
            counts: Counts::new(),
        }
    }

    /// Makes the next edge, which is accepted and has this number, and keeps it.
    ///
    /// # Errors
    /// X6.
    fn keep(&mut self, number: u64, edge: &Edge) -> Result<(), Fault>
        requires formed { IsTrue (is_well_formed edge.now) }
        requires accepted { verdict self.old.bus edge.now ≡ Ok tt }
        ensures bus { OnOk result (self.new.bus ≡ made self.old.bus edge.now) }
        ensures last { OnOk result ((p : PlanValue) (v : VersionValue) (es : List EdgeValue)
            → self.old.bus ≡ kept (bench p v) es
            → AreLast v p (numbered (bench p v) es) self.old.recent
            → AreLast v p ((number, edge.now) ∷ numbered (bench p v) es) self.new.recent) }
        ensures judged { self.new.judged ≡ self.old.judged }
        ensures counts { self.new.counts ≡ self.old.counts }
        ensures passing { self.new.passing ≡ self.old.passing }
        ensures fault { IfErr result (λ fault. fault ≡ Fault.Memory) }
    {
        self.recent.push(Earlier {
            number,
            edge: *edge,
            before: self.bus.state().to_kind(),
        })?;
        make(&mut self.bus, *edge);
        Ok(())
    }

    /// Takes in the next edge. Gives what stops it, if it is accepted.
    ///
    /// # Errors
    /// X6.
    pub(crate) fn take_in(&mut self, edge: &Edge) -> Result<Option<Stop>, Fault>
        requires room { self.old.judged + 1 < 2 ^ 64 }
        requires well_formed { IsTrue (is_well_formed edge.now) }
        ensures judged { OnOk result (self.new.judged ≡ self.old.judged + 1) }
        ensures line { IfOk result (λ stop. (p : PlanValue) (v : VersionValue)
            (es : List EdgeValue) (walks : List WalkValue) → IsKept p v es walks self.old
            → Advances p v es walks edge.now (taken_line self.new.judged edge.now stop) self.new) }
        ensures formed { IfOk result (λ stop. IfSome stop (λ s. IsTrue (is_formed s))) }
        ensures fault { IfErr result (λ fault. fault ≡ Fault.Memory) }
    {
        self.judged += 1;
        if verdict(&self.bus, *edge).is_err() {
            return Ok(None);
        }
        let walk = self.recent.walk(&mut self.passing, edge);
        let number = self.judged;
        self.keep(number, edge)?;
        self.counts.note(&walk);
        Ok(Some(walk.stop))
    }

    /// Writes the line of the edge that was taken in last, if it is accepted and races.
    fn write_taken<W: Write>(
        &self,
        edge: &Edge,
        stop: Option<Stop>,
        out: &mut W,
    ) -> Result<(), Fault>
        requires well_formed { IsTrue (is_well_formed edge.now) }
        requires met { IfSome stop (λ s. IsTrue (is_formed s)) }
        ensures ok { OnOk result (Appends (W.contents out.old) (W.contents out.new)
            (taken_line self.now.judged edge.now stop)) }
        ensures front { OnErr result (AppendsFront (W.contents out.old) (W.contents out.new)
            (taken_line self.now.judged edge.now stop)) }
        ensures fault { IfErr result (λ fault. fault ≡ Fault.Write) }
    {
        let Some(stop) = stop else {
            return Ok(());
        };
        if !stop.is_race() {
            return Ok(());
        }
        put(out, race_line(self.judged, edge, &stop).as_slice())
    }

    /// Takes in the next edges, and writes their lines.
    ///
    /// # Errors
    /// X6, and the lines of the edges before were written then; X8, and a prefix of the lines was.
    pub(crate) fn take_edges<W: Write>(&mut self, edges: &[Edge], out: &mut W) -> Result<(), Fault>
        requires room { self.old.judged + length edges.now < 2 ^ 64 }
        requires well_formed { AreWellFormed edges.now }
        ensures judged { OnOk result (self.new.judged ≡ self.old.judged + length edges.now) }
        ensures stands { OnOk result ((p : PlanValue) (v : VersionValue) (es : List EdgeValue)
            (first : Option (List ℕ)) → Stands p v es first (W.contents out.old) self.old
            → Stands p v (es ++ edges.now) first (W.contents out.new) self.new) }
        ensures breaks { IfErr result (λ fault. (p : PlanValue) (v : VersionValue)
            (es : List EdgeValue) (first : Option (List ℕ))
            → Stands p v es first (W.contents out.old) self.old
            → Breaks p v es edges.now first (W.contents out.new) fault) }
    {
        for edge in edges {
            let stop = self.take_in(edge)?;
            self.write_taken(edge, stop, out)?;
        }
        Ok(())
    }
}
