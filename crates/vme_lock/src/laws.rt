//! What each hold of the lock does to the locked value that it borrows, and what holds for that
//! value.
ghost use Rattle.std.specs.Prelude.{◌≡◌, Err, MatchResult, OnOk, true};
ghost use Rattle.vme_model.specs.Deliveries.{answer};
ghost use Rattle.vme_model.specs.Signals.{is_well_formed};
ghost use Rattle.vme_model.specs.Verdict.{IsLegal};
ghost use Rattle.vme_model.specs.Safe.{IsSafe, IsOrderly};
ghost use Rattle.vme_lock.specs.Seats.{IsHeld, kept_more, one_more};
ghost use Rattle.vme_lock.specs.Holds.{IsOwn, look_answer, turn_answer, edge_answer};

use crate::held::Held;
use crate::seats::{Rig, Seat, desk};
use crate::views::{EdgeRefused, Lost, Turn, View};
use vme_model::{Delivery, Edge, Refused};

/// A law: what holds for the locked value whenever the lock is free. The call costs nothing, and
/// gives these facts to the prover.
pub fn whenever_free<L: Rig>(held: &Held<'_, L>)
    ensures held { IsHeld L.opened held.now }
    ensures legal { IsLegal held.now.board.version held.now.board.plan held.now.board.history }
    ensures safe { IsSafe held.now.board.plan held.now.board.history }
    ensures orderly { IsOrderly held.now.board.version held.now.board.plan held.now.board.history }
{
    held.backplane.laws();
    held.backplane.safety();
}

/// A hold that makes no edge: what the seat's driver sees.
///
/// # Errors
/// `Lost` (L5) if the history has another number of the driver's edges than its seat made.
pub fn look_in<L: Rig>(held: &Held<'_, L>, seat: &Seat<L>) -> Result<View, Lost>
    ensures answer { result ≡ look_answer held.now.board seat.now }
    ensures held { IsHeld L.opened held.now }
    ensures legal { IsLegal held.now.board.version held.now.board.plan held.now.board.history }
{
    held.backplane.laws();
    let driver = seat.driver;
    let own = held.counts[desk(driver)];
    if own != seat.made {
        return Err(Lost { own });
    }
    Ok(View {
        pins: held.backplane.pins(driver),
        offers: held.backplane.offers(driver),
        own,
        total: held.backplane.len(),
    })
}

/// A hold that makes no edge: what the seat's driver may do in a turn, counted from 0.
///
/// # Errors
/// `Lost` (L5) if the history has another number of the driver's edges than its seat made.
pub fn turn_in<L: Rig>(held: &Held<'_, L>, seat: &Seat<L>, turn: u32) -> Result<Turn, Lost>
    ensures answer { result ≡ turn_answer held.now.board seat.now turn }
    ensures held { IsHeld L.opened held.now }
    ensures legal { IsLegal held.now.board.version held.now.board.plan held.now.board.history }
{
    held.backplane.laws();
    let made = held.counts[desk(seat.driver)];
    if made != seat.made {
        return Err(Lost { own: made });
    }
    let offer = held.backplane.offer(seat.driver, turn);
    let total = held.backplane.len();
    Ok(Turn { offer, total })
}

/// The tests before an edge: the edge is the seat's, and the seat made all edges of its driver.
fn is_own<L: Rig>(held: &Held<'_, L>, seat: &Seat<L>, edge: Edge) -> Result<(), EdgeRefused>
    ensures { MatchResult result
        (λ _. IsOwn held.now.board seat.now edge)
        (λ refused. Err refused ≡ edge_answer held.now.board seat.now edge) }
{
    if !edge.driver.is_same(seat.driver) {
        return Err(EdgeRefused::NotYours);
    }
    let count = held.counts[desk(seat.driver)];
    if count != seat.made {
        return Err(EdgeRefused::Lost(Lost { own: count }));
    }
    Ok(())
}

/// Makes an edge of the seat's driver, if the rules allow it, and counts it.
fn step_in<L: Rig>(
    held: &mut Held<'_, L>,
    seat: &mut Seat<L>,
    edge: Edge,
) -> Result<Option<Delivery>, Refused>
    requires { IsOwn held.old.board seat.old edge }
    ensures answer { result ≡ answer held.old.board edge }
    ensures held { MatchResult result
        (λ _. held.new ≡ kept_more held.old edge seat.old.driver)
        (λ _. held.new ≡ held.old) }
    ensures seat { MatchResult result
        (λ _. seat.new ≡ one_more seat.old)
        (λ _. seat.new ≡ seat.old) }
{
    let Held {
        backplane,
        counts,
        book,
        spare: _,
    } = held;
    let Seat {
        driver,
        made,
        share,
    } = seat;
    backplane.laws();
    match backplane.step(edge) {
        Err(refused) => Err(refused),
        Ok(delivery) => {
            let desk = desk(*driver);
            counts[desk] += 1;
            *made += 1;
            book.add(share, 1);
            Ok(delivery)
        }
    }
}

/// A hold that makes the edge, if it is the seat's and the rules allow it. It returns what the edge
/// delivers.
///
/// # Errors
/// L1, L5, or the backplane's refusal, tested in this order. Then nothing changes.
pub fn edge_in<L: Rig>(
    held: &mut Held<'_, L>,
    seat: &mut Seat<L>,
    edge: Edge,
) -> Result<Option<Delivery>, EdgeRefused>
    ensures answer { result ≡ edge_answer held.old.board seat.old edge }
    ensures held { MatchResult result
        (λ _. held.new ≡ kept_more held.old edge seat.old.driver)
        (λ _. held.new ≡ held.old) }
    ensures seat { MatchResult result
        (λ _. seat.new ≡ one_more seat.old)
        (λ _. seat.new ≡ seat.old) }
    ensures well_formed { OnOk result (is_well_formed edge ≡ true) }
    ensures before { IsHeld L.opened held.old }
    ensures legal { IsLegal held.old.board.version held.old.board.plan held.old.board.history }
{
    whenever_free(held);
    match is_own(held, seat, edge) {
        Err(refused) => Err(refused),
        Ok(()) => match step_in(held, seat, edge) {
            Err(refused) => Err(EdgeRefused::Step(refused)),
            Ok(delivery) => Ok(delivery),
        },
    }
}
