//! The readings of a condition.

use crate::signals::{Cycle, Driver, Wire};

/// A reading of a condition: a wire as it is before the edge, or what the condition counts. Source:
/// profile.
///
/// An edge is given by its number in the trace, from 1.
#[derive(Clone, Copy, PartialEq, Eq, Debug)]
pub enum Witness {
    /// A driver's wire.
    Wire {
        driver: Driver,
        wire: Wire,
        /// Whether the wire is low, or the address group on.
        low: bool,
        /// What the address group shows, if it is on.
        value: Option<Cycle>,
        /// The level of the board's requester or interrupter, if the condition asks for levels.
        level: Option<u8>,
        /// The number of the wire's last edge; none if it never moved.
        since: Option<u64>,
    },
    /// The level last granted, 0 to 3, and the number of its grant. The level is 0 if there was no
    /// grant.
    Granted {
        level: u8,
        since: Option<u64>,
    },
    /// The level that the arbiter's policy picks from the requested levels.
    Picks {
        level: Option<u8>,
    },
    /// How many cycles a board began in this tenure, and its burst.
    Cycles {
        driver: Driver,
        made: u64,
        burst: u8,
    },
    /// The board's first answer since its `irq-` that serves its interrupter.
    Served {
        driver: Driver,
        since: u64,
    },
    /// The board's `ds-` of this cycle.
    Strobed {
        driver: Driver,
        at: u64,
    },
}

impl Default for Witness {
    fn default() -> Witness {
        Witness::Picks { level: None }
    }
}
