//! A stretch of a trace, and its picture.
ghost use Rattle.std.specs.Prelude.{◌≡◌, ◌+◌, ◌<◌, ◌≤◌, ◌^◌, [], List, length, IfErr, OnOk, OnErr};
ghost use Rattle.std.specs.Io.KnownBytes.{Appends};
ghost use Rattle.vme_model.specs.declared.signals.Edge.{Edge as EdgeValue};
ghost use Rattle.vme_model.specs.Verdict.{State, after};
ghost use Rattle.vme_trace.specs.Writing.{AppendsFront};
ghost use Rattle.vme_show.specs.Picture.{picture};
ghost use Rattle.vme_show.specs.Columns.{HasWords, IsWindowOf, column_of, head_text, is_moved, topics_text, with_column, wires_text};

use crate::columns::{Column, Topic};
use crate::lines::{ones_line, tens_line, title, topic_line, wire_line};
use crate::wires::{PlanWire, WIRES, plan_wires};
use arrayvec::ArrayVec;
use std::io::Write;
use std::marker::Model;
use vme_bus::Bus;
use vme_model::Edge;
use vme_trace::{Fault, put};

/// The most columns of a picture.
pub const COLUMNS: usize = 200;

/// What is printed below the wires, row by row.
const TOPICS: [Topic; 4] = [Topic::GrantAt, Topic::Holder, Topic::Shown, Topic::Verdict];

/// A stretch of at most 200 edges of a trace, as far as its picture needs it.
///
/// It keeps the wires as they were before the first edge, and of each edge what became of it and
/// what is so after it.
#[derive(Drop)]
pub struct Window {
    /// The number of the first edge.
    first: u64,
    wires: ArrayVec<PlanWire, WIRES>,
    columns: ArrayVec<Column, COLUMNS>,
}

impl Model for Window {
    ghost use Rattle.vme_show.specs.Columns.{Seen};

    ghost Value = { Seen };

    ghost view = { λ w. record {
      first = w.first;
      wires = w.wires.items;
      columns = w.columns.items;
    } };
}

impl Window {
    /// Before an edge of a trace, with this number, that the bus is about to be stepped by.
    pub fn new(first: u64, bus: &Bus) -> Window
        ensures { IsWindowOf bus.now first [] result }
    {
        Window {
            first,
            wires: plan_wires(bus),
            columns: ArrayVec::new(),
        }
    }

    /// How many edges it has.
    pub fn len(&self) -> usize
        ensures len { result ≡ length self.now.columns }
        ensures few { result ≤ 200 }
    {
        self.columns.len()
    }

    /// Steps a bus by the next edge, which is refused or accepted, and keeps what is drawn of it.
    pub fn step(&mut self, bus: &mut Bus, edge: Edge)
        requires room { length self.old.columns < 200 }
        ensures window { self.new ≡ with_column self.old (column_of (bus.old, edge)) }
        ensures bus { bus.new ≡ after bus.old edge }
    {
        self.columns.push(Column::step(bus, edge));
    }

    /// Whether an edge is of the wire, accepted or refused.
    fn is_drawn(&self, wire: &PlanWire) -> bool
        ensures { result ≡ is_moved self.now.columns wire.now }
    {
        self.columns
            .iter()
            .any(|column| column.is_of(wire.driver, wire.wire))
    }

    /// Writes the first three lines.
    fn write_head<W: Write>(&self, out: &mut W) -> Result<(), Fault>
        requires some { 0 < length self.now.columns }
        requires fits { self.now.first + length self.now.columns ≤ 2 ^ 64 }
        ensures ok { OnOk result
            (Appends (W.contents out.old) (W.contents out.new) (head_text self.now)) }
        ensures front { OnErr result
            (AppendsFront (W.contents out.old) (W.contents out.new) (head_text self.now)) }
        ensures fault { IfErr result (λ fault. fault ≡ Fault.Write) }
    {
        let columns = self.len();
        put(out, title(self.first, columns).as_slice())?;
        put(out, tens_line(self.first, columns).as_slice())?;
        put(out, ones_line(self.first, columns).as_slice())
    }

    /// Writes a row for each wire that an edge is of.
    fn write_wires<W: Write>(&self, color: bool, out: &mut W) -> Result<(), Fault>
        ensures ok { OnOk result
            (HasWords self.now.wires
            → Appends (W.contents out.old) (W.contents out.new) (wires_text color self.now)) }
        ensures front { OnErr result
            (HasWords self.now.wires
            → AppendsFront (W.contents out.old) (W.contents out.new)
            (wires_text color self.now)) }
        ensures fault { IfErr result (λ fault. fault ≡ Fault.Write) }
    {
        let columns = self.columns.as_slice();
        for wire in self.wires.as_slice() {
            if self.is_drawn(wire) {
                put(out, wire_line(wire, color, columns).as_slice())?;
            }
        }
        Ok(())
    }

    /// Writes the rows of what is so after each edge.
    fn write_topics<W: Write>(&self, color: bool, out: &mut W) -> Result<(), Fault>
        ensures ok { OnOk result
            (Appends (W.contents out.old) (W.contents out.new) (topics_text color self.now)) }
        ensures front { OnErr result
            (AppendsFront (W.contents out.old) (W.contents out.new) (topics_text color self.now)) }
        ensures fault { IfErr result (λ fault. fault ≡ Fault.Write) }
    {
        let columns = self.columns.as_slice();
        for topic in &TOPICS {
            put(out, topic_line(*topic, color, columns).as_slice())?;
        }
        Ok(())
    }

    /// Writes the picture of its edges, of which there is one at least.
    ///
    /// With `color` each `x` of a refused edge is red and each `!` of a delivery green, by the
    /// sequences of ISO 6429.
    ///
    /// # Errors
    /// X8 if a write failed or took no byte; a prefix of the picture was then written.
    pub fn draw<W: Write>(&self, color: bool, out: &mut W) -> Result<(), Fault>
        requires some { 0 < length self.now.columns }
        requires fits { self.now.first + length self.now.columns ≤ 2 ^ 64 }
        ensures ok { OnOk result ((b : State) (es : List EdgeValue)
            → IsWindowOf b self.now.first es self.now
            → Appends (W.contents out.old) (W.contents out.new)
            (picture color self.now.first b es)) }
        ensures front { OnErr result ((b : State) (es : List EdgeValue)
            → IsWindowOf b self.now.first es self.now
            → AppendsFront (W.contents out.old) (W.contents out.new)
            (picture color self.now.first b es)) }
        ensures fault { IfErr result (λ fault. fault ≡ Fault.Write) }
    {
        self.write_head(out)?;
        self.write_wires(color, out)?;
        self.write_topics(color, out)
    }
}
