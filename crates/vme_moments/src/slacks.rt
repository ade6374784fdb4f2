//! How many moments before it was seen an edge may have taken effect.
ghost use Rattle.std.specs.Prelude.{◌≡◌, ◌≢◌, ◌≤◌, false, true};
ghost use Rattle.vme_model.specs.declared.signals.Driver.{Driver as DriverValue};
ghost use Rattle.vme_moments.specs.Before.{IsKnown, names, slack_of};

use vme_model::Driver;

/// How many places there are for slots. That of slot 0 is not used.
const PLACES: usize = 22;

/// By how many moments at most the edges of each driver were seen later than they took effect. A
/// slack is for all drivers, or is named for one of them.
#[derive(Clone, Copy, PartialEq, Eq, Debug)]
pub struct Slacks {
    controller: u64,
    boards: [u64; PLACES],
    /// Whether the controller is named with a slack of its own, and the slots whose boards are.
    is_named: bool,
    are_named: [bool; PLACES],
}

impl Slacks {
    /// One slack for all drivers. None of them is named.
    pub fn all(slack: u64) -> Slacks
        ensures all { (d : DriverValue) → IsKnown d → slack_of result d ≡ slack }
        ensures unnamed { (d : DriverValue) → names result d ≡ false }
    {
        Slacks {
            controller: slack,
            boards: [slack; PLACES],
            is_named: false,
            are_named: [false; PLACES],
        }
    }

    /// The slack of a driver. It is 0 for a slot from 22 on.
    #[inline(always)]
    pub(crate) fn of(&self, driver: Driver) -> u64
        ensures { result ≡ slack_of self.now driver }
    {
        match driver {
            Driver::Controller => self.controller,
            Driver::Slot(slot) if usize::from(slot) < PLACES => self.boards[usize::from(slot)],
            Driver::Slot(_) => 0,
        }
    }

    /// The greatest slack of all drivers.
    pub fn greatest(&self) -> u64
        ensures all { (d : DriverValue) → slack_of self.now d ≤ result }
        ensures some { (d : DriverValue) × IsKnown d × (slack_of self.now d ≡ result) }
    {
        let mut greatest = self.controller;
        for slack in &self.boards {
            greatest = greatest.max(*slack);
        }
        greatest
    }

    /// Names a driver with a slack of its own. The slot of a board is 21 at most.
    pub fn set(&mut self, driver: Driver, slack: u64)
        requires { IsKnown driver }
        ensures slack { slack_of self.new driver ≡ slack }
        ensures others { (d : DriverValue) → d ≢ driver
            → slack_of self.new d ≡ slack_of self.old d }
        ensures named { names self.new driver ≡ true }
        ensures kept { (d : DriverValue) → d ≢ driver → names self.new d ≡ names self.old d }
    {
        match driver {
            Driver::Controller => {
                self.controller = slack;
                self.is_named = true;
            }
            Driver::Slot(slot) if usize::from(slot) < PLACES => {
                self.boards[usize::from(slot)] = slack;
                self.are_named[usize::from(slot)] = true;
            }
            Driver::Slot(_) => {}
        }
    }

    /// Whether a driver is named with a slack of its own.
    pub fn names(&self, driver: Driver) -> bool
        ensures { result ≡ names self.now driver }
    {
        match driver {
            Driver::Controller => self.is_named,
            Driver::Slot(slot) if usize::from(slot) < PLACES => self.are_named[usize::from(slot)],
            Driver::Slot(_) => false,
        }
    }
}
