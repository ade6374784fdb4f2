//! What a probe sees: the shared lines and the pins of the daisy chains, and what it says of them.
use vme_model::{ChainId, Cycle};

/// A line that boards share. Source: Std 1014, chapters 2 to 4.
#[derive(Clone, Copy, PartialEq, Eq, Debug)]
pub enum Line {
    /// BR0* to BR3*.
    Br(u8),
    /// IRQ1* to IRQ7*.
    Irq(u8),
    Bbsy,
    AddressStrobe,
    /// DS0* or DS1*: it is low while one of them is.
    DataStrobe,
    Dtack,
    Berr,
    Bclr,
}

/// Where a daisy chain enters and leaves a slot. Source: Std 1014, chapters 3 and 4.
#[derive(Clone, Copy, PartialEq, Eq, Debug)]
pub enum Side {
    In,
    Out,
}

/// A pin of a slot on a daisy chain: BG0IN* to BG3IN*, BG0OUT* to BG3OUT*, IACKIN* or IACKOUT*.
/// Source: Std 1014, chapters 3 and 4.
#[derive(Clone, Copy, PartialEq, Eq, Debug)]
pub struct Pin {
    /// From 1 to 21.
    pub slot: u8,
    pub chain: ChainId,
    pub side: Side,
}

/// A wire of a daisy chain: the controller's, at its head, or the output of a board that works it.
/// Source: Std 1014, chapters 3 and 4.
#[derive(Clone, Copy, PartialEq, Eq, Debug)]
pub struct Segment {
    pub chain: ChainId,
    /// The slot of the board that drives it; none if the controller does.
    pub place: Option<u8>,
}

/// What a probe is on: a shared line, or a pin.
#[derive(Clone, Copy, PartialEq, Eq, Debug)]
pub enum Signal {
    Line(Line),
    Pin(Pin),
}

/// What is seen with a fall of AS* or DTACK*.
#[derive(Clone, Copy, PartialEq, Eq, Debug)]
pub enum Value {
    /// AS* fell, and this was shown.
    Shown(Cycle),
    /// AS* fell, and an access was shown, of a slot that is not known.
    Access,
    /// DTACK* fell in an acknowledge, with this status byte.
    Status(u8),
}

/// The fall or rise of a line or pin. Nothing in it says who drove it.
#[derive(Clone, Copy, PartialEq, Eq, Debug)]
pub struct Change {
    pub signal: Signal,
    pub fall: bool,
    /// What is seen with it. A fall of AS* has what was shown, and one of DTACK* may have a status
    /// byte; all other changes have none.
    pub value: Option<Value>,
}

/// What a line of a capture says, below its header line.
#[derive(Clone, Copy, PartialEq, Eq, Debug)]
pub enum Entry {
    /// A pin is probed.
    Pin(Pin),
    /// The bus was running when the capture began.
    Running,
    /// A line or pin was low then.
    Low(Signal),
    /// What follows was seen at this moment.
    Moment(u64),
    Change(Change),
}
