//! The interrupter of one board.
ghost use Rattle.std.specs.Prelude.{◌≡◌, ◌==◌, ◌&&◌, ◌||◌, not, if◌then◌else◌, ℕ, true, false, Err, Option as OptionValue, [], ◌∷◌, List};
ghost use Rattle.std.specs.Option.{option_map_or};
ghost use Rattle.vme_model.specs.History.{serves};
ghost use Rattle.vme_model.specs.declared.boards.InterrupterRow.{InterrupterRow as RowValue};
ghost use Rattle.vme_model.specs.declared.pins.Pins.{Pins as PinsValue};
ghost use Rattle.vme_model.specs.declared.signals.Cycle.{Cycle as CycleValue};
ghost use Rattle.vme_model.specs.declared.signals.Version.{Version};
ghost use Rattle.vme_model.specs.declared.signals.Version.TheVariants.{One};
ghost use Rattle.vme_model.specs.Readings.{is_pending};
ghost use Rattle.vme_model.specs.Rules.{rule};
ghost use Rattle.vme_model.specs.Verdict.{ruling, ruling_on};
ghost use Rattle.vme_model.specs.declared.signals.Part.TheVariants as parts;
ghost use Rattle.vme_model.specs.Signals.{is_of};
ghost use Rattle.vme_interrupter.specs.Local.{Noted, interrupter_of, serves_board, low, local, over};
ghost use Rattle.vme_interrupter.specs.Address.{asks_at, is_accessed};

use std::marker::Model;
use vme_model::{Cycle, Driver, Edge, InterrupterRow, IrqKind, Pins, Refused, Wire};
use vme_rules::allowed;
use vme_rules::interrupters::{
    answers, dtack_falls, dtack_rises, iackout_falls, iackout_rises, irq_falls, irq_rises, passes,
};

/// A board's interrupter with its data transfer acknowledge, as what its own edges left: which of
/// its wires are low, and whether its request was served. Source: Std 1014, chapters 2 and 4.
#[derive(Clone, Copy, PartialEq, Eq, Debug)]
pub struct Interrupter {
    slot: u8,
    row: Option<InterrupterRow>,
    irq: bool,
    iackout: bool,
    dtack: bool,
    is_served: bool,
}

impl Model for Interrupter {
    ghost use Rattle.vme_interrupter.specs.Local.{InterrupterState};

    ghost Value = { InterrupterState };

    ghost view = { λ i. record {
      slot = i.slot;
      row = i.row;
      irq = i.irq;
      iackout = i.iackout;
      dtack = i.dtack;
      is_served = i.is_served;
    } };

    ghost inverse = { λ s. record {
      slot = s.slot;
      row = s.row;
      irq = s.irq;
      iackout = s.iackout;
      dtack = s.dtack;
      is_served = s.is_served;
    } };
}

/// Whether an answer while this is shown serves an interrupter of this kind: an acknowledge serves
/// ROAK, and an access serves RORA. Source: Std 1014, chapter 4.
#[inline(always)]
pub fn serves(kind: IrqKind, shown: Option<Cycle>) -> bool
    ensures { result ≡ serves kind shown }
{
    match (kind, shown) {
        (IrqKind::Roak, Some(Cycle::Acknowledge(_))) => true,
        (IrqKind::Rora, Some(Cycle::Access(_))) => true,
        _ => false,
    }
}

impl Interrupter {
    /// The interrupter of the board in a slot, before any edge. Without a row the board has no
    /// interrupter, and answers accesses alone.
    pub fn new(slot: u8, row: Option<InterrupterRow>) -> Interrupter
        ensures { result ≡ interrupter_of slot row [] }
    {
        Interrupter {
            slot,
            row,
            irq: false,
            iackout: false,
            dtack: false,
            is_served: false,
        }
    }

    /// Whether the interrupter drives the wire low. Only `irq`, `iackout` and `dtack` are its own;
    /// for any other wire the answer is false.
    #[inline(always)]
    pub fn is_low(&self, wire: Wire) -> bool
        ensures { result ≡ low self.now wire }
    {
        match wire {
            Wire::Irq => self.irq,
            Wire::IackOut => self.iackout,
            Wire::Dtack => self.dtack,
            _ => false,
        }
    }

    /// Whether the interrupter is pending at the level: it has that level, its request is low, and
    /// since then it gave no answer that serves it. Source: profile.
    pub fn is_pending(&self, level: u8) -> bool
        ensures { (noted : List Noted) (pins : PinsValue) →
            self.now ≡ interrupter_of self.now.slot self.now.row noted →
            result ≡ is_pending (over self.now.slot self.now.row noted pins) level }
    {
        self.asks(level)
    }

    /// Whether the interrupter is pending at the level, by its fields.
    fn asks(&self, level: u8) -> bool
        ensures { result ≡ (option_map_or (λ i. i.level == level) self.now.row false
            && self.now.irq && not self.now.is_served) }
    {
        self.has_level(level) && self.irq && !self.is_served
    }

    /// Whether the interrupter has that level.
    fn has_level(&self, level: u8) -> bool
        ensures { result ≡ option_map_or (λ i. i.level == level) self.now.row false }
    {
        self.row
            .is_some_and(|interrupter| interrupter.level == level)
    }

    /// Whether the interrupter is pending at the level of the acknowledge that is shown.
    #[inline(always)]
    fn asks_at(&self, shown: Option<Cycle>) -> bool
        ensures { result ≡ asks_at self.now shown }
    {
        match shown {
            Some(Cycle::Acknowledge(level)) => self.asks(level),
            _ => false,
        }
    }

    /// Whether an access to the board's slot is shown.
    #[inline(always)]
    fn is_accessed(&self, shown: Option<Cycle>) -> bool
        ensures { result ≡ is_accessed self.now shown }
    {
        match shown {
            Some(Cycle::Access(slot)) => self.slot == slot,
            _ => false,
        }
    }

    /// The number of the rule that names an edge of its `irq`, and whether the rule's guard holds
    /// (G21, G22).
    #[inline(always)]
    fn request_rule(&self, fall: bool) -> (u8, bool)
        ensures { (pins : PinsValue) (value : OptionValue CycleValue) →
            result ≡ rule One (local self.now pins) Wire.Irq fall value }
    {
        if fall {
            (21, irq_falls())
        } else {
            (22, irq_rises(self.is_served))
        }
    }

    /// The number of the rule that names an edge of its `iackout`, and whether the rule's guard
    /// holds (G23, G24).
    #[inline(always)]
    fn pass_rule(&self, fall: bool, pins: &Pins, iack_in: bool) -> (u8, bool)
        ensures { (value : OptionValue CycleValue) → result
            ≡ rule One (local self.now (record pins.now { iack_in = iack_in }))
            Wire.IackOut fall value }
    {
        if !fall {
            return (24, iackout_rises(pins.address_strobe));
        }
        let passing = passes(self.asks_at(pins.shown), pins.shown);
        let guard = iackout_falls(iack_in, self.dtack, pins.data_strobe, passing);
        (23, guard)
    }

    /// The number of the rule that names an edge of its `dtack`, and whether the rule's guard holds
    /// (G25, G26).
    #[inline(always)]
    fn answer_rule(&self, fall: bool, pins: &Pins, iack_in: bool) -> (u8, bool)
        ensures { (value : OptionValue CycleValue) → result
            ≡ rule One (local self.now (record pins.now { iack_in = iack_in }))
            Wire.Dtack fall value }
    {
        if !fall {
            return (26, dtack_rises(pins.data_strobe));
        }
        let shown = pins.shown;
        let is_pending = self.asks_at(shown);
        let is_accessed = self.is_accessed(shown);
        let answering = answers(iack_in, self.iackout, is_pending, is_accessed, shown);
        let guard = dtack_falls(pins.data_strobe, pins.address_strobe, answering);
        (25, guard)
    }

    /// Whether the rules G21 and G22 allow an edge of its `irq`. Source: Std 1014, chapter 4.
    ///
    /// # Errors
    /// E2 if the wire is in that state already; otherwise E3 if the rule's guard fails.
    #[inline(always)]
    pub fn may_request(&self, fall: bool) -> Result<(), Refused>
        ensures { (pins : PinsValue) (value : OptionValue CycleValue) →
            result ≡ ruling_on One (local self.now pins) Wire.Irq fall value }
    {
        if self.irq == fall {
            return Err(Refused::AlreadyThere);
        }
        allowed(self.request_rule(fall))
    }

    /// Whether the rules G23 and G24 allow an edge of its `iackout`, given its pins and the input
    /// of the acknowledge chain. Source: Std 1014, chapter 4.
    ///
    /// # Errors
    /// E2 if the wire is in that state already; otherwise E3 if the rule's guard fails.
    #[inline(always)]
    pub fn may_pass(&self, fall: bool, pins: &Pins, iack_in: bool) -> Result<(), Refused>
        ensures { (value : OptionValue CycleValue) → result
            ≡ ruling_on One (local self.now (record pins.now { iack_in = iack_in }))
            Wire.IackOut fall value }
    {
        if self.iackout == fall {
            return Err(Refused::AlreadyThere);
        }
        allowed(self.pass_rule(fall, pins, iack_in))
    }

    /// Whether the rules G25 and G26 allow an edge of its `dtack`, given its pins and the input of
    /// the acknowledge chain. Source: Std 1014, chapters 2 and 4; that every board has a register
    /// is profile.
    ///
    /// # Errors
    /// E2 if the wire is in that state already; otherwise E3 if the rule's guard fails.
    #[inline(always)]
    pub fn may_answer(&self, fall: bool, pins: &Pins, iack_in: bool) -> Result<(), Refused>
        ensures { (value : OptionValue CycleValue) → result
            ≡ ruling_on One (local self.now (record pins.now { iack_in = iack_in }))
            Wire.Dtack fall value }
    {
        if self.dtack == fall {
            return Err(Refused::AlreadyThere);
        }
        allowed(self.answer_rule(fall, pins, iack_in))
    }

    /// Whether the rules G21 to G26 allow an edge of the interrupter's own wires, given its pins.
    /// Source: G21 to G26 of docs/RULES.md.
    ///
    /// # Errors
    /// E1 if the wire is not its own; otherwise E2 if the wire is in that state already; otherwise
    /// E3 if the rule's guard fails.
    #[inline(always)]
    pub fn may(&self, edge: Edge, pins: Pins) -> Result<(), Refused>
        ensures other { is_of parts.Interrupter edge.wire ≡ false
            → result ≡ Err Refused.NoSuchDriver }
        ensures own { (version : Version) (noted : List Noted) →
            self.now ≡ interrupter_of self.now.slot self.now.row noted →
            is_of parts.Interrupter edge.wire ≡ true →
            result ≡ ruling version (over self.now.slot self.now.row noted pins) edge }
    {
        match edge.wire {
            Wire::Irq => self.may_request(edge.fall),
            Wire::IackOut => self.may_pass(edge.fall, &pins, pins.iack_in),
            Wire::Dtack => self.may_answer(edge.fall, &pins, pins.iack_in),
            _ => Err(Refused::NoSuchDriver),
        }
    }

    /// Whether an answer while this is shown serves the board's interrupter.
    fn is_served_by(&self, shown: Option<Cycle>) -> bool
        ensures { result ≡ serves_board self.now.row shown }
    {
        self.row
            .is_some_and(|interrupter| serves(interrupter.kind, shown))
    }

    /// Takes in an edge that was made, with what was shown just before it. An edge of another
    /// driver or wire changes nothing.
    #[inline(always)]
    pub fn note(&mut self, edge: Edge, shown: Option<Cycle>)
        ensures { (s : ℕ) (row : OptionValue RowValue) (noted : List Noted) →
            self.old ≡ interrupter_of s row noted →
            self.new ≡ interrupter_of s row ((edge, shown) ∷ noted) }
    {
        if edge.driver.is_same(Driver::Slot(self.slot)) {
            match (edge.wire, edge.fall) {
                (Wire::Irq, fall) => self.request(fall),
                (Wire::IackOut, fall) => self.iackout = fall,
                (Wire::Dtack, true) => self.answer(shown),
                (Wire::Dtack, false) => self.dtack = false,
                _ => {}
            }
        }
    }

    /// Its request falls or rises.
    fn request(&mut self, fall: bool)
        ensures { self.new ≡ record self.old {
          irq = fall;
          is_served = if fall then false else self.old.is_served;
        } }
    {
        self.irq = fall;
        self.is_served = !fall && self.is_served;
    }

    /// It answers while this is shown.
    fn answer(&mut self, shown: Option<Cycle>)
        ensures { self.new ≡ record self.old {
          dtack = true;
          is_served = serves_board self.old.row shown || self.old.is_served;
        } }
    {
        self.dtack = true;
        self.is_served = self.is_served_by(shown) || self.is_served;
    }
}
