//! Locking a backplane.
ghost use Rattle.std.specs.Prelude.{◌≡◌, ◌+◌, ◌<◌, ◌≤◌, [], ◌∷◌, ◌++◌, length, vec_len, vec_capacity, MatchResult, IfOk, true};
ghost use Rattle.vme_model.specs.Plan.{drivers};
ghost use Rattle.vme_lock.specs.Seats.{AreCounts, can_sit, seats_of, drivers_of};

use crate::held::Held;
use crate::news::News;
use crate::seats::{Rig, Seat, Seats, desk, desk_of};
use crate::shared::Shared;
use std::alloc::Global;
use std::sync::Mutex;
use std::sync::ledger::{Blank, Book, Share};
use vme_backplane::Backplane;
use vme_model::Driver;
use vme_slots::DRIVERS;

impl<'r, L: Rig> Shared<'r, L> {
    /// Puts the backplane under a lock, and returns the lock with the seats at it.
    ///
    /// # Errors
    /// The backplane, if and only if memory runs out (L2). The blank is used up then.
    pub fn new(
        alloc: Global,
        blank: Blank,
        backplane: Backplane<'r>,
    ) -> Result<(Shared<'r, L>, Seats<L>), Backplane<'r>>
        requires blank { (blank.name ≡ L.name) × (blank.parts ≡ L.parts) × (blank.parts ≡ 22) }
        requires opened { L.opened ≡ backplane }
        ensures seats { MatchResult result
            (λ r. r.1.items ≡ seats_of backplane.entry)
            (λ b. b ≡ backplane.entry) }
        ensures drivers { IfOk result (λ r. drivers_of r.1.items ≡ drivers backplane.entry.plan) }
    {
        let Ok(seats) = Vec::with_capacity(alloc, DRIVERS) else {
            return Err(backplane);
        };
        backplane.laws();
        let counts = counts_of(&backplane);
        let news = News::new(backplane.len());
        let (book, rest) = blank.open::<L>();
        let mut room = Opening { seats, book, rest };
        room.seat_all(&backplane, &counts);
        let Opening { seats, book, rest } = room;
        let held = Held {
            backplane,
            counts,
            book,
            spare: rest,
        };
        let shared = Shared {
            lock: Mutex::new(held),
            news,
        };
        Ok((shared, seats))
    }
}

/// The seats that were given so far, and the parts of the ledger that are left.
#[derive(Drop)]
struct Opening<L: Rig> {
    seats: Seats<L>,
    book: Book<L>,
    rest: Share<L>,
}

impl<L: Rig> Opening<L> {
    /// Gives a seat to a driver that made `made` edges.
    fn seat(&mut self, driver: Driver, made: u32)
        requires driver { can_sit driver ≡ true }
        requires room { vec_len self.old.seats < vec_capacity self.old.seats }
        requires rest { (0 < self.old.rest.parts) × (self.old.rest.amount ≡ 0) }
        ensures seats { self.new.seats.items
            ≡ self.old.seats.items ++ record { driver = driver; made = made } ∷ [] }
        ensures room { vec_capacity self.new.seats ≡ vec_capacity self.old.seats }
        ensures total { self.new.book.total ≡ self.old.book.total + made }
        ensures rest { (self.new.rest.parts + 1 ≡ self.old.rest.parts)
            × (self.new.rest.amount ≡ 0) }
    {
        let mut share = self.rest.split_off(1, 0);
        self.book.add(&mut share, u64::from(made));
        self.seats.push_reserved(Seat::new(driver, made, share));
    }

    /// Gives a seat to each driver.
    fn seat_all(&mut self, backplane: &Backplane<'_>, counts: &[u32; 22])
        requires counts { AreCounts counts.now backplane.now.history }
        requires empty { (self.old.seats.items ≡ []) × (22 ≤ vec_capacity self.old.seats)
            × (self.old.book.total ≡ 0) }
        requires rest { (self.old.rest.parts ≡ 22) × (self.old.rest.amount ≡ 0) }
        ensures seats { self.new.seats.items ≡ seats_of backplane.now }
        ensures total { self.new.book.total ≡ length backplane.now.history }
        ensures rest { (self.new.rest.parts + length (drivers backplane.now.plan) ≡ 22)
            × (self.new.rest.amount ≡ 0) }
    {
        backplane.laws();
        let all = backplane.plan().drivers();
        for driver in all.as_slice() {
            self.seat(*driver, counts[desk(*driver)]);
        }
    }
}

/// The number of edges of each driver.
fn counts_of(backplane: &Backplane<'_>) -> [u32; 22]
    ensures { AreCounts result backplane.now.history }
{
    backplane.laws();
    let mut counts = [0; 22];
    for place in 0..backplane.len() {
        let driver = backplane.edge_at(place).driver;
        match desk_of(driver) {
            Some(desk) => counts[desk] += 1,
            None => {}
        }
    }
    counts
}
