//! What a driver reads on its pins.
use crate::sets::{BusLevels, Levels};
use crate::signals::Cycle;

/// The lines and inputs that a driver sees. True means low, and a set holds the low lines. Source:
/// profile.
#[derive(Clone, Copy, PartialEq, Eq, Debug)]
pub struct Pins {
    /// BR0* to BR3*.
    pub requests: BusLevels,
    pub bbsy: bool,
    pub bclr: bool,
    pub address_strobe: bool,
    pub data_strobe: bool,
    pub dtack: bool,
    pub berr: bool,
    /// IRQ1* to IRQ7*.
    pub irq: Levels,
    /// The value of the address group that is on.
    pub shown: Option<Cycle>,
    /// The input of the board's own grant chain; false if the board has no requester.
    pub grant_in: bool,
    /// The input of the acknowledge chain; false if the board has no interrupter.
    pub iack_in: bool,
}
