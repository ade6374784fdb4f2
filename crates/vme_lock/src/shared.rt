//! The lock that the seats share.
ghost use Rattle.std.specs.Prelude.{◌≡◌, ◌≢◌, ◌≤◌, MatchResult, OnOk, true};
ghost use Rattle.vme_model.specs.Signals.{is_well_formed};
ghost use Rattle.vme_lock.specs.Seats.{one_more};
ghost use Rattle.vme_lock.specs.Holds.{look_answer, turn_answer, edge_answer, OfSome};

use crate::held::Held;
use crate::laws::{edge_in, look_in, turn_in};
use crate::news::News;
use crate::seats::{Rig, Seat};
use crate::views::{EdgeRefused, Lost, Turn, View};
use std::sync::{Mutex, Wait};
use vme_model::{Delivery, Edge};

/// A backplane under one lock. Each board has a seat at it.
#[derive(Drop)]
pub struct Shared<'r, L: Rig> {
    pub(crate) lock: Mutex<Held<'r, L>>,
    pub(crate) news: News,
}

impl<'r, L: Rig> Shared<'r, L> {
    /// What the seat's driver sees now. It may wait for the lock.
    ///
    /// # Errors
    /// `Lost` (L5) if the history has another number of the driver's edges than its seat made.
    pub fn look<R: Wait>(&self, rt: &R, seat: &Seat<L>) -> Result<View, Lost>
        ensures answer { OfSome L.opened (λ b. result ≡ look_answer b seat.now) }
        ensures own { MatchResult result
            (λ v. (v.own ≡ seat.now.made) × (v.own ≤ v.total))
            (λ lost. lost.own ≢ seat.now.made) }
    {
        let held = self.lock.lock(rt);
        look_in(&*held, seat)
    }

    /// What the seat's driver may do in a turn, counted from 0: of k offers the one at place
    /// `turn mod k`. It may wait for the lock.
    ///
    /// # Errors
    /// `Lost` (L5) if the history has another number of the driver's edges than its seat made.
    pub fn turn<R: Wait>(&self, rt: &R, seat: &Seat<L>, turn: u32) -> Result<Turn, Lost>
        ensures answer { OfSome L.opened (λ b. result ≡ turn_answer b seat.now turn) }
        ensures own { MatchResult result
            (λ t. seat.now.made ≤ t.total)
            (λ lost. lost.own ≢ seat.now.made) }
    {
        let held = self.lock.lock(rt);
        turn_in(&*held, seat, turn)
    }

    /// Makes the edge if it is the seat's and the rules allow it, and returns what it delivers. It
    /// may wait for the lock.
    ///
    /// # Errors
    /// L1, L5, or the backplane's refusal, tested in this order. Then nothing changes.
    pub fn edge<R: Wait>(
        &self,
        rt: &R,
        seat: &mut Seat<L>,
        edge: Edge,
    ) -> Result<Option<Delivery>, EdgeRefused>
        ensures answer { OfSome L.opened (λ b. result ≡ edge_answer b seat.old edge) }
        ensures seat { MatchResult result
            (λ _. seat.new ≡ one_more seat.old)
            (λ _. seat.new ≡ seat.old) }
        ensures well_formed { OnOk result (is_well_formed edge ≡ true) }
        ensures driver { seat.new.driver ≡ seat.old.driver }
    {
        let mut held = self.lock.lock(rt);
        let answer = edge_in(&mut *held, seat, edge);
        if answer.is_ok() {
            self.news.post_edges(&*held);
        }
        drop(held);
        if answer.is_ok() {
            self.news.wake();
        }
        answer
    }
}
