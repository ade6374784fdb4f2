//! Reading a capture.
ghost use Rattle.std.specs.Prelude.{◌≡◌, ◌++◌, ◌∷◌, [], ℕ, List, IsTrue, map};
ghost use Rattle.std.specs.List.{list_any};
ghost use Rattle.vme_model.specs.Plan.{Plan as PlanValue};
ghost use Rattle.vme_captures.specs.declared.signals.Entry.{Entry as EntryValue};
ghost use Rattle.vme_captures.specs.Feeding.{Ended, Fed, HasRead, Took};
ghost use Rattle.vme_captures.specs.Reading.{read_of};
ghost use Rattle.vme_captures.specs.Signals.{is_same_segment, is_signal};
ghost use Rattle.vme_captures.specs.Spelling.{is_entry};
ghost use Rattle.vme_captures.specs.Taking.{GoesOn, Notes, SetsLow, TakesEntry, TakesHeader, fault_in, level_fault, level_in, pin_fault, probe_on, with_low};

use crate::CaptureFault;
use crate::levels::Levels;
use crate::signals::{Entry, Pin, Segment, Signal};
use crate::wires::{has_pin, wire_of};
use crate::words::entry_of;
use arrayvec::ArrayVec;
use std::alloc::Global;
use vme_model::Version;
use vme_slots::Plan;
use vme_trace::{Fault, header_of};

/// Room for a part of a line: as many bytes as a line may have.
const PART: usize = 64;

/// A pin that is probed.
#[derive(Clone, Copy, PartialEq, Eq, Debug)]
pub struct Probe {
    pub pin: Pin,
    /// The wire on which the pin lies.
    pub wire: Segment,
    /// Whether it is low, behind what was read.
    pub low: bool,
}

/// Reads a capture that comes in pieces, cut anywhere. `specs/Spelling.antt` has the text.
///
/// It keeps at most one unfinished line, the pins, and what is low, whatever the length of the
/// capture. After a fault it is not to be used.
#[derive(Drop)]
pub struct Reader {
    version: Option<Version>,
    /// The number of the line that is not complete yet, and its bytes so far.
    line: u64,
    part: ArrayVec<u8, PART>,
    is_running: bool,
    /// The last moment.
    last: Option<u64>,
    probes: Vec<Probe>,
    lines: Levels,
}

impl Reader {
    /// Before the first byte.
    pub fn new(alloc: Global) -> Reader
        ensures { (plan : PlanValue) → HasRead plan result [] [] }
    {
        Reader {
            version: None,
            line: 1,
            part: ArrayVec::new(),
            is_running: false,
            last: None,
            probes: Vec::new(alloc),
            lines: Levels::high(),
        }
    }

    /// The version of the rules, once the header line was read.
    pub fn version(&self) -> Option<Version>
        ensures { result ≡ self.now.version }
    {
        self.version
    }

    /// Whether the bus was running when the capture began, as far as it was read.
    pub fn is_running(&self) -> bool
        ensures { result ≡ self.now.is_running }
    {
        self.is_running
    }

    /// The last moment.
    pub fn moment(&self) -> Option<u64>
        ensures { result ≡ self.now.last }
    {
        self.last
    }

    /// The pins that are probed, in the order of their lines.
    pub fn probes(&self) -> &[Probe]
        ensures { result.now ≡ self.now.probes.items }
    {
        &self.probes
    }

    /// Which of the shared lines are low, behind what was read.
    pub fn lines(&self) -> Levels
        ensures { result ≡ self.now.lines }
    {
        self.lines
    }

    /// The probe on a pin.
    fn probe(&self, pin: Pin) -> Option<Probe>
        ensures { result ≡ probe_on self.now.probes.items pin }
    {
        self.probes.iter().copied().find(|probe| pin == probe.pin)
    }

    /// Whether a pin on this wire is probed.
    fn has_wire(&self, wire: Segment) -> bool
        ensures { result ≡ list_any (λ r. is_same_segment r.wire wire) self.now.probes.items }
    {
        self.probes.iter().any(|probe| probe.wire == wire)
    }

    /// Whether a line or pin is low; none for a pin that is not probed.
    fn level(&self, signal: Signal) -> Option<bool>
        requires { IsTrue (is_signal signal) }
        ensures { result ≡ level_in self.now.lines self.now.probes.items signal }
    {
        match signal {
            Signal::Line(line) => Some(self.lines.is_low(line)),
            Signal::Pin(pin) => self.probe(pin).map(|probe| probe.low),
        }
    }

    /// The fault of a line that moves a line or pin to a level, or says that it was low at the
    /// beginning.
    fn level_fault(&self, signal: Signal, low: bool) -> Option<CaptureFault>
        requires { IsTrue (is_signal signal) }
        ensures { result ≡ level_fault self.now signal low }
    {
        let n = self.line;
        match self.level(signal) {
            None => Some(CaptureFault::NotProbed { n }),
            Some(before) if before == low => Some(CaptureFault::NoChange { n }),
            Some(_) => None,
        }
    }

    /// The fault of the line of a pin.
    fn pin_fault(&self, plan: &Plan, pin: Pin) -> Option<CaptureFault>
        ensures { result ≡ pin_fault plan.now self.now pin }
    {
        let n = self.line;
        if self.is_running || self.last.is_some() {
            Some(CaptureFault::NoLine { n })
        } else if !has_pin(plan, pin) {
            Some(CaptureFault::NoPin { n })
        } else if self.has_wire(wire_of(plan, pin)) {
            Some(CaptureFault::SameWire { n })
        } else {
            None
        }
    }

    /// The fault of a line that says this, if it has one.
    fn fault(&self, plan: &Plan, entry: Entry) -> Option<CaptureFault>
        requires { IsTrue (is_entry entry) }
        ensures { result ≡ fault_in plan.now self.now entry }
    {
        let n = self.line;
        let in_head = self.last.is_none();
        match entry {
            Entry::Pin(pin) => self.pin_fault(plan, pin),
            Entry::Running if self.is_running || !in_head => Some(CaptureFault::NoLine { n }),
            Entry::Running => None,
            Entry::Low(signal) if self.is_running && in_head => self.level_fault(signal, true),
            Entry::Low(_) => Some(CaptureFault::NoLine { n }),
            Entry::Moment(moment) if self.last.is_some_and(|last| moment < last) => {
                Some(CaptureFault::Earlier { n })
            }
            Entry::Moment(_) => None,
            Entry::Change(_) if in_head => Some(CaptureFault::NoLine { n }),
            Entry::Change(change) => self.level_fault(change.signal, change.fall),
        }
    }

    /// Takes a line or pin for low, or for high.
    fn set(&mut self, signal: Signal, low: bool)
        requires { IsTrue (is_signal signal) }
        ensures { SetsLow signal low self.old self.new }
    {
        match signal {
            Signal::Line(line) => self.lines.set(line, low),
            Signal::Pin(pin) => set_low(&mut self.probes, pin, low),
        }
    }

    /// Takes in what a line says.
    ///
    /// # Errors
    /// X6 if memory runs out for a pin.
    fn note(&mut self, plan: &Plan, entry: Entry) -> Result<(), CaptureFault>
        requires { IsTrue (is_entry entry) }
        ensures { Notes plan.now entry self.old self.new result }
    {
        match entry {
            Entry::Pin(pin) => {
                let wire = wire_of(plan, pin);
                let probe = Probe {
                    pin,
                    wire,
                    low: false,
                };
                return match self.probes.push(probe) {
                    Ok(()) => Ok(()),
                    Err(_) => Err(CaptureFault::Trace(Fault::Memory)),
                };
            }
            Entry::Running => self.is_running = true,
            Entry::Low(signal) => self.set(signal, true),
            Entry::Moment(moment) => self.last = Some(moment),
            Entry::Change(change) => self.set(change.signal, change.fall),
        }
        Ok(())
    }

    /// Goes on to the next line.
    fn go_on(&mut self)
        ensures { GoesOn self.old self.new }
    {
        self.part.clear();
        self.line = self.line.saturating_add(1);
    }

    /// Takes the header line.
    fn take_header(&mut self) -> Result<(), CaptureFault>
        ensures { TakesHeader self.old self.new result }
    {
        match header_of(self.part.as_slice()) {
            Some(version) => {
                self.version = Some(version);
                self.go_on();
                Ok(())
            }
            None => Err(CaptureFault::Trace(Fault::Header)),
        }
    }

    /// Takes a line below the header line, and returns what it says.
    fn take_entry(&mut self, plan: &Plan) -> Result<Entry, CaptureFault>
        ensures { TakesEntry plan.now self.old self.new result }
    {
        let Some(entry) = entry_of(self.part.as_slice()) else {
            return Err(CaptureFault::NoLine { n: self.line });
        };
        if let Some(fault) = self.fault(plan, entry) {
            return Err(fault);
        }
        self.note(plan, entry)?;
        self.go_on();
        Ok(entry)
    }

    /// Takes the line whose bytes stand in the part.
    fn take_line(&mut self, plan: &Plan) -> Result<Option<Entry>, CaptureFault>
        ensures { (bytes : List ℕ) (said : List EntryValue) → HasRead plan.now self.old bytes said
            → Took plan.now (bytes ++ 10 ∷ []) said self.new result }
    {
        if self.version.is_none() {
            self.take_header()?;
            return Ok(None);
        }
        Ok(Some(self.take_entry(plan)?))
    }

    /// Takes the next byte of the capture. The result is what the line says that it completes, if
    /// it completes one below the header line.
    ///
    /// # Errors
    /// The first fault of the capture, as soon as it stands in the bytes read: X1, X3, X10 or X12
    /// to X16. X6 if memory runs out for a pin.
    pub fn take(&mut self, plan: &Plan, byte: u8) -> Result<Option<Entry>, CaptureFault>
        ensures { (bytes : List ℕ) (said : List EntryValue) → HasRead plan.now self.old bytes said
            → Took plan.now (bytes ++ byte ∷ []) said self.new result }
    {
        if byte == b'\n' {
            return self.take_line(plan);
        }
        match self.part.try_push(byte) {
            Ok(()) => Ok(None),
            Err(_) => Err(CaptureFault::Trace(Fault::TooLong { n: self.line })),
        }
    }

    /// Takes the next piece of the capture, up to the end of the first line that says something.
    /// The result is what it says, and the rest of the piece; nothing, and no rest, if no such line
    /// ends in the piece.
    ///
    /// # Errors
    /// Those of [`Reader::take`].
    pub fn feed<'a>(
        &mut self,
        plan: &Plan,
        piece: &'a [u8],
    ) -> Result<(Option<Entry>, &'a [u8]), CaptureFault>
        ensures { (bytes : List ℕ) (said : List EntryValue) → HasRead plan.now self.old bytes said
            → Fed plan.now bytes piece.now said self.new result }
    {
        for at in 0..piece.len() {
            if let Some(entry) = self.take(plan, piece[at])? {
                return Ok((Some(entry), &piece[at + 1..]));
            }
        }
        Ok((None, &piece[piece.len()..]))
    }

    /// Takes the bytes read so far as the whole capture.
    ///
    /// # Errors
    /// X4 if the last line has no line feed; X1 if there is no line.
    pub fn finish(&self) -> Result<(), CaptureFault>
        ensures { (plan : PlanValue) (bytes : List ℕ) (said : List EntryValue)
            → HasRead plan self.now bytes said → Ended (read_of plan bytes) said result }
    {
        if !self.part.is_empty() {
            return Err(CaptureFault::Trace(Fault::CutOff));
        }
        if self.version.is_none() {
            return Err(CaptureFault::Trace(Fault::Header));
        }
        Ok(())
    }
}

/// The probe, taken for low or for high if it is on the pin.
fn with_low(probe: Probe, pin: Pin, low: bool) -> Probe
    ensures { result ≡ with_low pin low probe }
{
    if pin == probe.pin {
        Probe { low, ..probe }
    } else {
        probe
    }
}

/// Takes a pin for low, or for high.
fn set_low(probes: &mut [Probe], pin: Pin, low: bool)
    ensures { probes.new ≡ map (with_low pin low) probes.old }
{
    for at in 0..probes.len() {
        probes[at] = with_low(probes[at], pin, low);
    }
}
