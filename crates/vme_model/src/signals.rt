//! Drivers, wires and edges.
ghost use Rattle.std.specs.Prelude.{◌≡◌, ◌<◌, ◌≤◌, length, Some};
ghost use Rattle.vme_model.specs.Signals.{is_two, is_same_driver, is_same_wire, is_grant, is_grant_wire, grant_level, has_wire, part_of, driver_number, wire_number, is_slot, is_level, is_acknowledge, is_in_range, is_well_formed};
ghost use Rattle.vme_model.specs.Offers.{wires};
ghost use Rattle.vme_model.specs.Spoken.{state_text};
ghost use Rattle.vme_model.specs.Text.{HasWord, wire_text};

/// The version of the rules that a backplane keeps. Source: profile.
///
/// In the second version a request may be withdrawn, and a grant that nobody took may time out.
#[derive(Clone, Copy, PartialEq, Eq, Debug)]
pub enum Version {
    One,
    Two,
}

/// Who drives a wire: the controller in slot 1, or the board of a slot. Source: profile.
#[derive(Clone, Copy, PartialEq, Eq, Debug, Default)]
pub enum Driver {
    #[default]
    Controller,
    /// Slots are numbered from 1 to 21.
    Slot(u8),
}

/// A wire, named by what drives it at that place. Source: Std 1014, chapters 2 to 4; that an
/// address group is one wire is profile.
#[derive(Clone, Copy, PartialEq, Eq, Debug, Default)]
pub enum Wire {
    /// The controller's bus grant of a level, 0 to 3.
    Bg(u8),
    /// The controller's bus clear.
    Bclr,
    /// The controller's start of the acknowledge daisy chain.
    Iack,
    /// The controller's bus error, driven by its bus timer.
    Berr,
    /// A board's bus request, at its requester's level.
    #[default]
    Br,
    /// A board's bus grant out, on its requester's chain.
    BgOut,
    /// A board's bus busy.
    Bbsy,
    /// A board's address group: address lines, IACK* and target.
    Addr,
    /// A board's address strobe.
    AddressStrobe,
    /// A board's data strobe.
    DataStrobe,
    /// A board's interrupt request, at its interrupter's level.
    Irq,
    /// A board's acknowledge out.
    IackOut,
    /// A board's data transfer acknowledge.
    Dtack,
}

/// What drives a wire: the controller, or one of the three parts of a board. Source: Std 1014,
/// chapters 2 to 4; that what slot 1 adds is one part is profile.
#[derive(Clone, Copy, PartialEq, Eq, Debug)]
pub enum Part {
    /// What slot 1 adds: the arbiter, the head of the acknowledge chain and the bus timer.
    Controller,
    /// A board's requester.
    Requester,
    /// A board's master.
    Master,
    /// A board's interrupter, with what answers at a read or an acknowledge.
    Interrupter,
}

/// The controller's wires, in the order of its offers.
const CONTROLLERS: [Wire; 7] = [
    Wire::Bg(0),
    Wire::Bg(1),
    Wire::Bg(2),
    Wire::Bg(3),
    Wire::Bclr,
    Wire::Iack,
    Wire::Berr,
];

/// A board's wires, in that order.
const BOARDS: [Wire; 9] = [
    Wire::Br,
    Wire::BgOut,
    Wire::Bbsy,
    Wire::Addr,
    Wire::AddressStrobe,
    Wire::DataStrobe,
    Wire::Irq,
    Wire::IackOut,
    Wire::Dtack,
];

/// What an address group that is on shows. Source: Std 1014, chapters 2 and 4.
#[derive(Clone, Copy, PartialEq, Eq, Debug)]
pub enum Cycle {
    /// An interrupt acknowledge of a level, 1 to 7.
    Acknowledge(u8),
    /// An access to the register of a slot, 1 to 21.
    Access(u8),
}

/// One edge of one driver: the atomic step of a backplane. Source: profile.
///
/// A fall is a wire going low, or the address group going on. A rise is a wire going high, or the
/// group going off.
#[derive(Clone, Copy, PartialEq, Eq, Debug, Default)]
pub struct Edge {
    pub driver: Driver,
    pub wire: Wire,
    pub fall: bool,
    /// What the address group shows if this is its fall; none for every other edge.
    pub value: Option<Cycle>,
}

/// Whether a backplane can have a slot of this number: 1 to 21. Source: Std 1014, chapter 7.
fn is_slot(slot: u8) -> bool
    ensures { result ≡ is_slot slot }
{
    (1..=21).contains(&slot)
}

/// Whether there is such an interrupt level, 1 to 7. Source: Std 1014, chapter 4.
fn is_level(level: u8) -> bool
    ensures { result ≡ is_level level }
{
    (1..=7).contains(&level)
}

impl Version {
    /// Whether this is the second version of the rules. Source: profile.
    #[inline(always)]
    pub fn is_two(self) -> bool
        ensures { result ≡ is_two self }
    {
        matches!(self, Version::Two)
    }
}

impl Driver {
    /// Whether this is the same driver as the other.
    pub fn is_same(self, other: Driver) -> bool
        ensures { result ≡ is_same_driver self other }
    {
        self == other
    }

    /// The driver's number: 0 for the controller, and otherwise its slot. Source: profile.
    #[inline(always)]
    pub fn number(self) -> u8
        ensures { result ≡ driver_number self }
    {
        match self {
            Driver::Controller => 0,
            Driver::Slot(slot) => slot,
        }
    }

    /// The driver's wires, in the order of its offers: the controller has 7, a board 9. Source:
    /// profile.
    #[inline]
    pub fn wires(self) -> &'static [Wire]
        ensures { result.now ≡ wires self }
    {
        match self {
            Driver::Controller => &CONTROLLERS,
            Driver::Slot(_) => &BOARDS,
        }
    }

    /// Whether such a driver has such a wire on some backplane. The slot's number and a grant's
    /// level are tested too.
    #[inline(always)]
    pub fn has_wire(self, wire: Wire) -> bool
        ensures { result ≡ has_wire self wire }
    {
        match self {
            Driver::Controller => wire.is_controllers(),
            Driver::Slot(slot) => !matches!(wire.part(), Part::Controller) && is_slot(slot),
        }
    }
}

impl Wire {
    /// Whether this is the same wire as the other. The grants of two levels are two wires.
    pub fn is_same(self, wire: Wire) -> bool
        ensures { result ≡ is_same_wire self wire }
    {
        self == wire
    }

    /// The part that drives the wire. Source: Std 1014, chapters 2 to 4.
    #[inline(always)]
    pub fn part(self) -> Part
        ensures { result ≡ part_of self }
    {
        match self {
            Wire::Bg(_) | Wire::Bclr | Wire::Iack | Wire::Berr => Part::Controller,
            Wire::Br | Wire::BgOut | Wire::Bbsy => Part::Requester,
            Wire::Addr | Wire::AddressStrobe | Wire::DataStrobe => Part::Master,
            Wire::Irq | Wire::IackOut | Wire::Dtack => Part::Interrupter,
        }
    }

    /// The wire's place among all wires, from 0: `bg0` to `bg3`, `bclr`, `iack`, `berr`, `br` and
    /// so on to `dtack`, which has 15. A grant has the number of its level, which should be 0 to 3.
    /// Source: profile.
    #[inline(always)]
    pub fn number(self) -> u8
        ensures place { result ≡ wire_number self }
        ensures within { HasWord self → result < 16 }
    {
        // A level is added and not chosen, so that the number is found without a branch.
        let after_grants = match self {
            Wire::Bg(_) => 0,
            Wire::Bclr => 4,
            Wire::Iack => 5,
            Wire::Berr => 6,
            Wire::Br => 7,
            Wire::BgOut => 8,
            Wire::Bbsy => 9,
            Wire::Addr => 10,
            Wire::AddressStrobe => 11,
            Wire::DataStrobe => 12,
            Wire::Irq => 13,
            Wire::IackOut => 14,
            Wire::Dtack => 15,
        };
        after_grants + self.grant_level()
    }

    /// Whether this is one of the controller's grants.
    pub fn is_grant(self) -> bool
        ensures { result ≡ is_grant_wire self }
    {
        matches!(self, Wire::Bg(_))
    }

    /// Whether the controller has such a wire.
    pub fn is_controllers(self) -> bool
        ensures { result ≡ has_wire Driver.Controller self }
    {
        match self {
            Wire::Bg(level) => level < 4,
            Wire::Bclr | Wire::Iack | Wire::Berr => true,
            _ => false,
        }
    }

    /// The level of a grant, or 0 for any other wire.
    #[inline(always)]
    pub fn grant_level(self) -> u8
        ensures { result ≡ grant_level self }
    {
        match self {
            Wire::Bg(level) => level,
            _ => 0,
        }
    }

    /// The word that traces use for the wire. If it is a grant, its level has to be 0 to 3.
    pub fn word(self) -> &'static str
        requires { HasWord self }
        ensures text { result.now ≡ wire_text self }
        ensures short { length result.now ≤ 7 }
    {
        match self {
            Wire::Bg(0) => "bg0",
            Wire::Bg(1) => "bg1",
            Wire::Bg(2) => "bg2",
            Wire::Bg(_) => "bg3",
            Wire::Bclr => "bclr",
            Wire::Iack => "iack",
            Wire::Berr => "berr",
            Wire::Br => "br",
            Wire::BgOut => "bgout",
            Wire::Bbsy => "bbsy",
            Wire::Addr => "addr",
            Wire::AddressStrobe => "as",
            Wire::DataStrobe => "ds",
            Wire::Irq => "irq",
            Wire::IackOut => "iackout",
            Wire::Dtack => "dtack",
        }
    }

    /// The word for the wire's state: low or high, or for an address group on or off.
    pub fn state(self, low: bool) -> &'static str
        ensures text { result.now ≡ state_text self low }
        ensures short { length result.now ≤ 4 }
    {
        match (self, low) {
            (Wire::Addr, true) => "on",
            (Wire::Addr, false) => "off",
            (_, true) => "low",
            (_, false) => "high",
        }
    }
}

impl Cycle {
    /// Whether this is an acknowledge, of any level.
    pub fn is_acknowledge(self) -> bool
        ensures { result ≡ is_acknowledge (Some self) }
    {
        matches!(self, Cycle::Acknowledge(_))
    }

    /// Whether the acknowledge's level is 1 to 7, or the accessed slot 1 to 21.
    fn is_in_range(self) -> bool
        ensures { result ≡ is_in_range self }
    {
        match self {
            Cycle::Acknowledge(level) => is_level(level),
            Cycle::Access(slot) => is_slot(slot),
        }
    }
}

impl Edge {
    /// Whether this is a fall of one of the controller's grants.
    pub fn is_grant(&self) -> bool
        ensures { result ≡ is_grant self.now }
    {
        self.fall && self.wire.is_grant()
    }

    /// Whether the edge is well formed: the driver can have such a wire, slots and levels are in
    /// range, and the edge has a value exactly if it is a fall of the address group. Source:
    /// profile.
    #[inline(always)]
    pub fn is_well_formed(&self) -> bool
        ensures { result ≡ is_well_formed self.now }
    {
        let has_value = match (self.wire, self.fall, self.value) {
            (Wire::Addr, true, Some(cycle)) => cycle.is_in_range(),
            (Wire::Addr, true, None) => false,
            (_, _, value) => value.is_none(),
        };
        self.driver.has_wire(self.wire) && has_value
    }
}
