//! The master of one board.
ghost use Rattle.std.specs.Prelude.{◌≡◌, ◌+◌, ◌||◌, ℕ, Bool, Err, Option as OptionValue, true, false, if◌then◌else◌, nat_lt, [], ◌∷◌, List};
ghost use Rattle.vme_model.specs.declared.boards.RequesterRow.{RequesterRow as RowValue};
ghost use Rattle.vme_model.specs.declared.sets.Levels.{Levels as LevelsValue};
ghost use Rattle.vme_model.specs.declared.signals.Version.{Version};
ghost use Rattle.vme_model.specs.declared.signals.Version.TheVariants.{One};
ghost use Rattle.vme_model.specs.declared.signals.Cycle.{Cycle as CycleValue};
ghost use Rattle.vme_model.specs.declared.signals.Edge.{Edge as EdgeValue};
ghost use Rattle.vme_model.specs.Rules.{rule};
ghost use Rattle.vme_model.specs.Verdict.{ruling, ruling_on};
ghost use Rattle.vme_model.specs.declared.signals.Part.TheVariants as parts;
ghost use Rattle.vme_model.specs.Signals.{is_of};
ghost use Rattle.vme_master.specs.Local.{master_of, most_cycles, low, local, over};

use std::marker::Model;
use vme_model::{Cycle, Driver, Edge, Levels, Pins, Refused, Release, RequesterRow, Wire};
use vme_rules::allowed;
use vme_rules::masters::{
    addr_goes_off, addr_goes_on, addr_is_free, as_falls, as_rises, below_burst, ds_falls, ds_rises,
    shows,
};

/// A master, as what its own edges left: which of its wires are low, and how far its cycle and its
/// tenure have come. Source: Std 1014, chapter 2.
#[derive(Clone, Copy, PartialEq, Eq, Debug)]
pub struct Master {
    slot: u8,
    row: RequesterRow,
    handler: Levels,
    addr: bool,
    address_strobe: bool,
    data_strobe: bool,
    cycles: u8,
    has_strobed: bool,
}

impl Model for Master {
    ghost use Rattle.vme_master.specs.Local.{MasterState};

    ghost Value = { MasterState };

    ghost view = { λ m. record {
      slot = m.slot;
      row = m.row;
      handler = m.handler;
      addr = m.addr;
      address_strobe = m.address_strobe;
      data_strobe = m.data_strobe;
      cycles = m.cycles;
      has_strobed = m.has_strobed;
    } };

    ghost inverse = { λ s. record {
      slot = s.slot;
      row = s.row;
      handler = s.handler;
      addr = s.addr;
      address_strobe = s.address_strobe;
      data_strobe = s.data_strobe;
      cycles = s.cycles;
      has_strobed = s.has_strobed;
    } };
}

/// The most cycles that are counted in a tenure.
#[inline(always)]
fn most_cycles(release: Release) -> u8
    ensures { result ≡ most_cycles release }
{
    match release {
        Release::Done { burst } => burst,
        Release::Request => 0,
    }
}

/// The cycles of a tenure after one more. They are counted up to an RWD requester's burst, 1 to
/// 255, and not at all for ROR. Source: profile.
#[inline(always)]
pub fn one_more(cycles: u8, release: Release) -> u8
    ensures { result
        ≡ (if nat_lt cycles (most_cycles release) then cycles + 1 else cycles) }
{
    if cycles < most_cycles(release) {
        cycles + 1
    } else {
        cycles
    }
}

impl Master {
    /// The master of the board in a slot, before any edge. It is given its requester's row and the
    /// interrupt levels that the board handles.
    pub fn new(slot: u8, row: RequesterRow, handler: Levels) -> Master
        ensures { result ≡ master_of slot row handler [] }
    {
        Master {
            slot,
            row,
            handler,
            addr: false,
            address_strobe: false,
            data_strobe: false,
            cycles: 0,
            has_strobed: false,
        }
    }

    /// Whether the master drives the wire low, or its address group on. Only `addr`, `as` and `ds`
    /// are its own; for any other wire the answer is false.
    #[inline(always)]
    pub fn is_low(&self, wire: Wire) -> bool
        ensures { result ≡ low self.now wire }
    {
        match wire {
            Wire::Addr => self.addr,
            Wire::AddressStrobe => self.address_strobe,
            Wire::DataStrobe => self.data_strobe,
            _ => false,
        }
    }

    /// The number of the rule that names an edge of its address group, and whether the rule's guard
    /// holds (G15, G19).
    #[inline(always)]
    fn address_rule(
        &self,
        fall: bool,
        value: Option<Cycle>,
        pins: &Pins,
        holds_bus: bool,
    ) -> (u8, bool)
        ensures { result ≡ rule One (local self.now pins.now holds_bus) Wire.Addr fall value }
    {
        if !fall {
            let guard = addr_goes_off(self.address_strobe, self.data_strobe, self.has_strobed);
            return (19, guard);
        }
        let bursting = below_burst(self.cycles, self.row.release);
        let showing = shows(self.handler, pins.irq, value);
        let free = addr_is_free(holds_bus, pins.address_strobe);
        let guard = addr_goes_on(free, bursting, showing);
        (15, guard)
    }

    /// The number of the rule that names an edge of its address strobe, and whether the rule's
    /// guard holds (G16, G20).
    #[inline(always)]
    fn address_strobe_rule(&self, fall: bool, pins: &Pins) -> (u8, bool)
        ensures { (holds_bus : Bool) (value : OptionValue CycleValue) →
            result ≡ rule One (local self.now pins.now holds_bus) Wire.AddressStrobe fall value }
    {
        if fall {
            (16, as_falls(self.addr, pins.address_strobe))
        } else {
            (20, as_rises(self.addr))
        }
    }

    /// The number of the rule that names an edge of its data strobe, and whether the rule's guard
    /// holds (G17, G18).
    #[inline(always)]
    fn data_strobe_rule(&self, fall: bool, pins: &Pins) -> (u8, bool)
        ensures { (holds_bus : Bool) (value : OptionValue CycleValue) →
            result ≡ rule One (local self.now pins.now holds_bus) Wire.DataStrobe fall value }
    {
        if !fall {
            return (18, ds_rises(pins.dtack, pins.berr));
        }
        let own_strobe = self.address_strobe;
        let guard = ds_falls(
            own_strobe,
            self.addr,
            pins.dtack,
            pins.berr,
            self.has_strobed,
        );
        (17, guard)
    }

    /// Whether the rules G15 and G19 allow an edge of its address group. It is given its pins, and
    /// whether its board drives BBSY* low. Source: Std 1014, chapters 2 and 4; docs/RULES.md says
    /// which conditions are profile.
    ///
    /// # Errors
    /// E2 if the group is in that state already; otherwise E3 if the rule's guard fails.
    #[inline(always)]
    pub fn may_address(
        &self,
        fall: bool,
        value: Option<Cycle>,
        pins: &Pins,
        holds_bus: bool,
    ) -> Result<(), Refused>
        ensures { result ≡ ruling_on One (local self.now pins.now holds_bus) Wire.Addr fall value }
    {
        if self.addr == fall {
            return Err(Refused::AlreadyThere);
        }
        allowed(self.address_rule(fall, value, pins, holds_bus))
    }

    /// Whether the rules G16 and G20 allow an edge of its address strobe, given its pins. Source:
    /// Std 1014, chapter 2, for G16; G20 is profile.
    ///
    /// # Errors
    /// E2 if the wire is in that state already; otherwise E3 if the rule's guard fails.
    #[inline(always)]
    pub fn may_strobe_address(&self, fall: bool, pins: &Pins) -> Result<(), Refused>
        ensures { (holds_bus : Bool) (value : OptionValue CycleValue) →
            result ≡
            ruling_on One (local self.now pins.now holds_bus) Wire.AddressStrobe fall value }
    {
        if self.address_strobe == fall {
            return Err(Refused::AlreadyThere);
        }
        allowed(self.address_strobe_rule(fall, pins))
    }

    /// Whether the rules G17 and G18 allow an edge of its data strobe, given its pins. Source: Std
    /// 1014, chapter 2; one strobe a cycle is profile.
    ///
    /// # Errors
    /// E2 if the wire is in that state already; otherwise E3 if the rule's guard fails.
    #[inline(always)]
    pub fn may_strobe_data(&self, fall: bool, pins: &Pins) -> Result<(), Refused>
        ensures { (holds_bus : Bool) (value : OptionValue CycleValue) →
            result ≡ ruling_on One (local self.now pins.now holds_bus) Wire.DataStrobe fall value }
    {
        if self.data_strobe == fall {
            return Err(Refused::AlreadyThere);
        }
        allowed(self.data_strobe_rule(fall, pins))
    }

    /// Whether the rules G15 to G20 allow an edge of the master's own wires. S1, that the
    /// acknowledge chain is clear at an `as-`, is not tested here, since it looks at other boards.
    /// Source: G15 to G20 of docs/RULES.md.
    ///
    /// It is given its pins, and whether its board drives BBSY* low.
    ///
    /// # Errors
    /// E1 if the wire is not its own; otherwise E2 if the wire is in that state already; otherwise
    /// E3 if the rule's guard fails.
    #[inline(always)]
    pub fn may(&self, edge: Edge, pins: Pins, holds_bus: bool) -> Result<(), Refused>
        ensures other { is_of parts.Master edge.wire ≡ false → result ≡ Err Refused.NoSuchDriver }
        ensures own { (version : Version) (noted : List EdgeValue) →
            self.now ≡ master_of self.now.slot self.now.row self.now.handler noted →
            is_of parts.Master edge.wire ≡ true →
            result ≡ ruling version
            (over self.now.slot self.now.row self.now.handler noted pins holds_bus) edge }
    {
        match edge.wire {
            Wire::Addr => self.may_address(edge.fall, edge.value, &pins, holds_bus),
            Wire::AddressStrobe => self.may_strobe_address(edge.fall, &pins),
            Wire::DataStrobe => self.may_strobe_data(edge.fall, &pins),
            _ => Err(Refused::NoSuchDriver),
        }
    }

    /// Takes in an edge that was made: its own, or its board's `bbsy-`, which begins a tenure. Any
    /// other edge changes nothing.
    #[tactic(auto, using(crate::proofs::Counts::one_more))]
    #[inline(always)]
    pub fn note(&mut self, edge: Edge)
        ensures { (s : ℕ) (row : RowValue) (handler : LevelsValue) (noted : List EdgeValue) →
            self.old ≡ master_of s row handler noted →
            self.new ≡ master_of s row handler (edge ∷ noted) }
    {
        if edge.driver.is_same(Driver::Slot(self.slot)) {
            match (edge.wire, edge.fall) {
                (Wire::Addr, fall) => self.addr = fall,
                (Wire::AddressStrobe, true) => self.begin_cycle(),
                (Wire::AddressStrobe, false) => self.address_strobe = false,
                (Wire::DataStrobe, fall) => self.strobe(fall),
                (Wire::Bbsy, true) => self.cycles = 0,
                _ => {}
            }
        }
    }

    /// Its address strobe falls.
    fn begin_cycle(&mut self)
        ensures { self.new ≡ record self.old {
          address_strobe = true;
          cycles = if nat_lt self.old.cycles (most_cycles self.old.row.release)
              then self.old.cycles + 1 else self.old.cycles;
          has_strobed = false;
        } }
    {
        self.cycles = one_more(self.cycles, self.row.release);
        self.address_strobe = true;
        self.has_strobed = false;
    }

    /// Its data strobe falls or rises.
    fn strobe(&mut self, fall: bool)
        ensures { self.new ≡ record self.old {
          data_strobe = fall;
          has_strobed = fall || self.old.has_strobed;
        } }
    {
        self.data_strobe = fall;
        self.has_strobed = fall || self.has_strobed;
    }
}
