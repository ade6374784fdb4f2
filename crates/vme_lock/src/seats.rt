//! The seats of a lock.
ghost use Rattle.std.specs.Prelude.{◌≡◌, ◌<◌, true, if◌then◌else◌, Some, None};
ghost use Rattle.vme_lock.specs.Seats.{Place, nowhere, can_sit, desk};

use std::marker::{Brand, Model};
use std::sync::ledger::{Ledger, Share};
use vme_model::Driver;

/// The ledger of one lock, and the backplane that was opened under it. Each program that calls this
/// crate chooses both.
pub trait Rig: Ledger {
    ghost use Rattle.vme_model.specs.Verdict.{State};

    /// The backplane that was passed in.
    ghost opened: { State };
}

impl Rig for Brand {
    ghost opened = { nowhere };
}

/// The right to make the edges of one driver, with the number of the edges that were made.
#[derive(Drop)]
pub struct Seat<L: Rig> {
    pub(crate) driver: Driver,
    pub(crate) made: u32,
    pub(crate) share: Share<L>,
}

/// The controller's seat, then each board's by slot.
pub type Seats<L> = Vec<Seat<L>>;

impl<L: Rig> Model for Seat<L> {
    ghost use Rattle.std.specs.Prelude.{◌≡◌, true};
    ghost use Rattle.vme_lock.specs.Seats.{Place, can_sit};

    ghost Value = { Place };

    ghost view = { λ s. record { driver = s.driver; made = s.made } };

    ghost invariant = { λ s.
        (s.share.amount ≡ s.made) × (s.share.parts ≡ 1) × (can_sit s.driver ≡ true) };
}

impl<L: Rig> Seat<L> {
    /// The seat of a driver with `made` edges, as the share counts them.
    pub(crate) fn new(driver: Driver, made: u32, share: Share<L>) -> Seat<L>
        requires share { (share.amount ≡ made) × (share.parts ≡ 1) }
        requires driver { can_sit driver ≡ true }
        ensures { result ≡ record { driver = driver; made = made } }
    {
        Seat {
            driver,
            made,
            share,
        }
    }

    /// The driver whose edges the seat makes.
    pub fn driver(&self) -> Driver
        ensures { result ≡ self.now.driver }
    {
        self.driver
    }

    /// How many edges the seat's driver made, including those that the backplane had when it was
    /// passed in.
    pub fn made(&self) -> u32
        ensures { result ≡ self.now.made }
    {
        self.made
    }

    /// The desk of the seat's driver: its place among the counts of all drivers.
    pub(crate) fn desk(&self) -> usize
        ensures sits { can_sit self.now.driver ≡ true }
        ensures place { result ≡ desk self.now.driver }
        ensures within { result < 22 }
    {
        desk(self.driver)
    }

    /// The share that the ledger has of the seat.
    pub(crate) fn into_share(self) -> Share<L>
        ensures { (result.amount ≡ self.made) × (result.parts ≡ 1) }
    {
        let Seat {
            driver: _,
            made: _,
            share,
        } = self;
        share
    }
}

/// The desk of a driver: its place among the counts of all drivers.
pub(crate) fn desk(driver: Driver) -> usize
    requires { can_sit driver ≡ true }
    ensures place { result ≡ desk driver }
    ensures within { result < 22 }
{
    match driver {
        Driver::Controller => 0,
        Driver::Slot(slot) => usize::from(slot),
    }
}

/// The desk of a driver, its place among the counts of all drivers, if some plan has that driver.
pub(crate) fn desk_of(driver: Driver) -> Option<usize>
    ensures { result ≡ (if can_sit driver then Some (desk driver) else None) }
{
    match driver {
        Driver::Controller => Some(0),
        Driver::Slot(slot @ 1..=21) => Some(usize::from(slot)),
        Driver::Slot(_) => None,
    }
}
