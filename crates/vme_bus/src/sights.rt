//! What a driver sees of a bus.
ghost use Rattle.std.specs.Prelude.{◌≡◌, ◌&&◌, ◌<◌, ◌≤◌, ℕ, Some, find, is_some, nat_lt, option_map};
ghost use Rattle.std.specs.Option.{option_copied};
ghost use Rattle.vme_model.specs.declared.signals.Driver.TheVariants as driver;
ghost use Rattle.vme_model.specs.declared.signals.Wire.TheVariants as wire;
ghost use Rattle.vme_model.specs.declared.signals.Cycle.TheVariants.{Acknowledge};
ghost use Rattle.vme_model.specs.History.{drive, line, request_line, interrupt_line, shown, addressing};
ghost use Rattle.vme_model.specs.Sets.{bus_levels, irq_levels, has_level};
ghost use Rattle.vme_model.specs.Plan.{board, board_of, up_to};
ghost use Rattle.vme_model.specs.Views.{pins};
ghost use Rattle.vme_model.specs.Deliveries.{delivery, delivered_by};
ghost use Rattle.vme_bus.specs.Layouts.{seat};
ghost use Rattle.vme_bus.specs.Records.{version_in, cycle_in, seat_of_record};

use crate::records::{Seat, SeatRecord, slot_in, version_in};
use crate::states::{BUS_CLEAR, BUS_ERROR, BusState};
use bitflags::Flags;
use vme_histories::delivered_by;
use vme_model::{BusLevels, Cycle, Delivery, Driver, Edge, Levels, Pins, Row, Version, Wire};

impl BusState {
    ghost use Rattle.vme_bus.specs.States.{OfHistory, OfBoard};

    /// The board of a slot, with the places of its inputs.
    #[inline]
    pub(crate) fn seat(&self, slot: u8) -> Option<Seat>
        ensures { result ≡ seat self.now.layout.seats slot }
    {
        match self.layout.seats.get(usize::from(slot)) {
            Some(record) => record.seat(),
            None => None,
        }
    }

    /// The board of a slot, as numbers.
    #[inline(always)]
    pub(crate) fn record(&self, slot: u8) -> Option<&SeatRecord>
        ensures { option_map seat_of_record (option_copied result)
            ≡ seat self.now.layout.seats slot }
    {
        match self.layout.seats.get(usize::from(slot)) {
            Some(record) => {
                if record.stands == 0 {
                    None
                } else {
                    Some(record)
                }
            }
            None => None,
        }
    }

    /// The least slot with a board above that one.
    #[inline(always)]
    pub(crate) fn board_above(&self, slot: u8) -> Option<u8>
        ensures { OfHistory self.now (λ _ p _. result
            ≡ find (λ t. nat_lt slot t && is_some (board p t)) (up_to p.slots)) }
    {
        if slot < 32 {
            self.layout.boards.next_after(slot)
        } else {
            None
        }
    }

    /// The levels that the slot's board handles; none if there is no board.
    #[inline(always)]
    pub(crate) fn handler(&self, slot: u8) -> Levels
        ensures { OfBoard self.now slot (λ _ _ _ r. result ≡ r.handler) }
    {
        match self.record(slot) {
            Some(seat) => seat.handler(),
            None => Levels::from_bits_retain(0),
        }
    }

    /// The version of the rules.
    #[inline(always)]
    pub(crate) fn version(&self) -> Version
        ensures { result ≡ version_in self.now.version }
    {
        version_in(self.version)
    }

    /// What is shown.
    #[inline(always)]
    pub(crate) fn shown(&self) -> Option<Cycle>
        ensures { result ≡ cycle_in self.now.shown }
    {
        self.shown.cycle()
    }

    /// Whether BBSY* is low.
    #[inline(always)]
    pub(crate) fn bbsy(&self) -> bool
        ensures { OfHistory self.now (λ _ p h. result ≡ line p h wire.Bbsy) }
    {
        self.bbsy.is_some()
    }

    /// Whether AS* is low.
    #[inline(always)]
    pub(crate) fn address_strobe(&self) -> bool
        ensures { OfHistory self.now (λ _ p h. result ≡ line p h wire.AddressStrobe) }
    {
        self.address_strobe.is_some()
    }

    /// Whether DS0* is low.
    #[inline(always)]
    pub(crate) fn data_strobe(&self) -> bool
        ensures { OfHistory self.now (λ _ p h. result ≡ line p h wire.DataStrobe) }
    {
        self.data_strobe.is_some()
    }

    /// Whether DTACK* is low.
    #[inline(always)]
    pub(crate) fn dtack(&self) -> bool
        ensures { OfHistory self.now (λ _ p h. result ≡ line p h wire.Dtack) }
    {
        self.dtack.is_some()
    }

    /// Whether BERR* is low.
    #[inline(always)]
    pub(crate) fn berr(&self) -> bool
        ensures { OfHistory self.now (λ _ _ h. result ≡ drive h driver.Controller wire.Berr) }
    {
        self.controls.has(BUS_ERROR)
    }

    /// Whether the bus request line of a level is low.
    #[inline(always)]
    pub(crate) fn request(&self, level: u8) -> bool
        requires { level < 4 }
        ensures { OfHistory self.now (λ _ p h. result ≡ request_line p h level) }
    {
        self.br
            .and(self.layout.requests[usize::from(level)])
            .is_some()
    }

    /// Whether the interrupt request line of a level is low.
    #[inline(always)]
    fn interrupt(&self, level: u8) -> bool
        requires { level < 8 }
        ensures { OfHistory self.now (λ _ p h. result ≡ interrupt_line p h level) }
    {
        self.irq
            .and(self.layout.interrupts[usize::from(level)])
            .is_some()
    }

    /// The bus request lines that are low.
    #[inline(always)]
    pub(crate) fn requests(&self) -> BusLevels
        ensures { OfHistory self.now (λ _ p h. result ≡ bus_levels (request_line p h)) }
    {
        BusLevels::of_lines([
            self.request(0),
            self.request(1),
            self.request(2),
            self.request(3),
        ])
    }

    /// The interrupt request lines that are low.
    #[inline(always)]
    pub(crate) fn interrupts(&self) -> Levels
        ensures { OfHistory self.now (λ _ p h. result ≡ irq_levels (interrupt_line p h)) }
    {
        Levels::of_lines([
            self.interrupt(1),
            self.interrupt(2),
            self.interrupt(3),
            self.interrupt(4),
            self.interrupt(5),
            self.interrupt(6),
            self.interrupt(7),
        ])
    }

    /// The interrupt request line of a level, if it is low.
    #[inline(always)]
    fn interrupt_at(&self, level: u8) -> Levels
        ensures { OfHistory self.now (λ _ p h. 1 ≤ level → level ≤ 7
            → has_level result level ≡ interrupt_line p h level) }
    {
        if (level < 1) | (level > 7) {
            return Levels::from_bits_retain(0);
        }
        if self.interrupt(level) {
            Levels::of(level)
        } else {
            Levels::from_bits_retain(0)
        }
    }

    /// The interrupt request line of the level that is to be acknowledged, if it is low.
    #[inline(always)]
    pub(crate) fn interrupt_asked(&self, value: Option<Cycle>) -> Levels
        ensures { OfHistory self.now (λ _ p h. (level : ℕ) → 1 ≤ level → level ≤ 7
            → value ≡ Some (Acknowledge level)
            → has_level result level ≡ interrupt_line p h level) }
    {
        match value {
            Some(Cycle::Acknowledge(level)) => self.interrupt_at(level),
            _ => Levels::from_bits_retain(0),
        }
    }

    /// What the controller reads on its pins: the lines that all boards share.
    #[inline(always)]
    pub(crate) fn shared(&self) -> Pins
        ensures { OfHistory self.now (λ _ p h. result ≡ pins p h driver.Controller) }
    {
        Pins {
            requests: self.requests(),
            bbsy: self.bbsy(),
            bclr: self.controls.has(BUS_CLEAR),
            address_strobe: self.address_strobe(),
            data_strobe: self.data_strobe(),
            dtack: self.dtack(),
            berr: self.berr(),
            irq: self.interrupts(),
            shown: self.shown(),
            grant_in: false,
            iack_in: false,
        }
    }

    /// What a board reads on its pins.
    #[inline(always)]
    fn pins_at(&self, slot: u8) -> Pins
        ensures { OfHistory self.now (λ _ p h. result ≡ pins p h (driver.Slot slot)) }
    {
        let mut pins = self.shared();
        pins.grant_in = self.grant_in(slot);
        pins.iack_in = self.iack_in(slot);
        pins
    }

    /// What a driver reads on its pins.
    #[inline(always)]
    pub fn pins(&self, driver: Driver) -> Pins
        ensures { OfHistory self.now (λ _ p h. result ≡ pins p h driver) }
    {
        match driver {
            Driver::Controller => self.shared(),
            Driver::Slot(slot) => self.pins_at(slot),
        }
    }

    /// The row of the driver's board: none for the controller, and for a slot without a board.
    #[inline]
    pub fn row(&self, driver: Driver) -> Option<Row>
        ensures { OfHistory self.now (λ _ p _. result ≡ board_of p driver) }
    {
        match driver {
            Driver::Controller => None,
            Driver::Slot(slot) => match self.seat(slot) {
                Some(seat) => Some(seat.row),
                None => None,
            },
        }
    }

    /// What an answer to an acknowledge delivers.
    #[inline(never)]
    fn delivered(&self, driver: Driver) -> Option<Delivery>
        ensures { OfHistory self.now (λ _ p h. result
            ≡ delivered_by (shown p h) (addressing p h) (board_of p driver)) }
    {
        let row = self.row(driver);
        delivered_by(self.shown(), slot_in(self.addressing), row.as_ref())
    }

    /// What an edge delivers.
    #[inline(always)]
    pub(crate) fn delivery(&self, edge: Edge) -> Option<Delivery>
        ensures { OfHistory self.now (λ _ p h. result ≡ delivery p h edge) }
    {
        if !(edge.fall && edge.wire.is_same(Wire::Dtack)) {
            return None;
        }
        match self.shown() {
            Some(Cycle::Acknowledge(_)) => self.delivered(edge.driver),
            _ => None,
        }
    }
}
