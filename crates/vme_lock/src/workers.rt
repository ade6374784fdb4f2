//! A worker: the turns of one driver. In each turn it asks for one offer and makes at most one
//! edge.
ghost use Rattle.std.specs.Prelude.{◌≡◌, ℕ, ◌+◌, ◌<◌, ◌≤◌, [], IfErr, IfOk, IfSome, MatchBool, None, OnOk, length, min, true};
ghost use Rattle.vme_lock.specs.Seats.{seat_after, IsWithin};
ghost use Rattle.vme_lock.specs.Holds.{OfSome, ending, turn_answer};
ghost use Rattle.vme_lock.specs.Endings.{EndsIn, HasNoOffer, IsEnded, IsSpent};

use crate::logs::{Log, Pages, Room};
use crate::news::Idle;
use crate::seats::{Rig, Seat};
use crate::shared::Shared;
use crate::views::{EdgeRefused, Turn};
use std::sync::Wait;
use vme_model::{Driver, Edge};

/// What lets a worker begin and end its turns. No lock is held while it is asked.
pub trait Gate {
    ghost use Rattle.std.specs.Prelude.{ℕ, Bool};
    ghost use Rattle.vme_model.specs.declared.signals.Driver.{Driver};

    /// What the gate may answer to a driver before a turn.
    ghost answers: { Self → Driver → ℕ → Bool → Type 0 };

    /// Whether the driver takes this turn, counted from 0.
    fn before(&self, driver: Driver, turn: u32) -> bool
        ensures { answers self.now driver turn result };

    /// Called at the end of a turn, with whether the driver made an edge in it.
    fn after(&self, driver: Driver, turn: u32, accepted: bool);
}

/// A gate that is always open.
#[derive(Clone, Copy, Drop)]
pub struct OpenGate;

impl Gate for OpenGate {
    ghost use Rattle.std.specs.Prelude.{◌≡◌, true};

    ghost answers = { λ gate driver turn answer. answer ≡ true };

    fn before(&self, _driver: Driver, _turn: u32) -> bool
        ensures { result ≡ true }
    {
        true
    }

    fn after(&self, _driver: Driver, _turn: u32, _accepted: bool) {}
}

/// How many turns a worker has, and at how many edges in the history it ends.
#[derive(Clone, Copy, PartialEq, Eq, Debug)]
pub struct Bounds {
    pub turns: u32,
    pub edges: u32,
}

impl Bounds {
    /// The most edges that a worker can make.
    fn most(self) -> u32
        ensures { result ≡ min self.turns self.edges }
    {
        self.turns.min(self.edges)
    }
}

/// Why a worker ended.
#[derive(Clone, Copy, PartialEq, Eq, Debug)]
pub enum Spent {
    /// It took all its turns.
    Turns,
    /// The history has as many edges as the bounds allow.
    Edges,
    /// The gate let it take no further turn.
    Gate,
    /// Its log had no room.
    NoRoom,
    /// L5: the history has another number of its driver's edges than its seat made.
    Lost,
}

/// Makes room for an edge, and then makes the edge. False if the backplane refuses it.
fn make_edge<L: Rig, R: Wait>(
    rt: &R,
    shared: &Shared<'_, L>,
    seat: &mut Seat<L>,
    pages: &mut Pages<'_, '_>,
    edge: Edge,
) -> Result<bool, Spent>
    ensures driver { seat.new.driver ≡ seat.old.driver }
    ensures made { seat.new.made + length pages.old.edges ≡ seat.old.made + length pages.new.edges }
    ensures one { length pages.new.edges ≤ length pages.old.edges + 1 }
    ensures accepted { IfOk result (λ accepted. MatchBool accepted
        (seat.new.made ≡ seat.old.made + 1)
        (seat.new.made ≡ seat.old.made)) }
    ensures ended { IfErr result (λ spent. (edges : ℕ) → IsEnded L.opened edges seat.new spent) }
{
    if pages.make_room().is_err() {
        return Err(Spent::NoRoom);
    }
    match shared.edge(rt, seat, edge) {
        Ok(_) => {
            pages.push(edge);
            Ok(true)
        }
        Err(EdgeRefused::Lost(_)) => Err(Spent::Lost),
        Err(_) => Ok(false),
    }
}

/// What a turn shows to the seat's driver.
///
/// # Errors
/// `Lost` (L5) if the history has another number of the driver's edges than its seat made.
fn see_turn<L: Rig, R: Wait>(
    rt: &R,
    shared: &Shared<'_, L>,
    seat: &Seat<L>,
    turn: u32,
) -> Result<Turn, Spent>
    ensures answer { OfSome L.opened (λ b. result ≡ ending (turn_answer b seat.now turn)) }
    ensures own { IfOk result (λ t. seat.now.made ≤ t.total) }
    ensures ended { IfErr result (λ spent. (edges : ℕ) → IsEnded L.opened edges seat.now spent) }
{
    match shared.turn(rt, seat, turn) {
        Ok(seen) => Ok(seen),
        Err(_) => Err(Spent::Lost),
    }
}

/// What a look led to.
#[derive(Clone, Copy)]
struct Tried {
    /// Whether an edge was made. If not, there was no offer, or the offer was refused, since
    /// another driver made an edge first.
    made: bool,
    /// The wait that begins, if there was no offer.
    idle: Option<Idle>,
}

/// Looks up what the seat's driver may do in a turn, and tries it.
fn try_offer<L: Rig, R: Wait>(
    rt: &R,
    shared: &Shared<'_, L>,
    seat: &mut Seat<L>,
    bounds: Bounds,
    turn: u32,
    pages: &mut Pages<'_, '_>,
) -> Result<Tried, Spent>
    requires logged { length pages.old.edges ≤ seat.old.made }
    requires most { length pages.old.edges ≤ bounds.edges }
    ensures driver { seat.new.driver ≡ seat.old.driver }
    ensures made { seat.new.made + length pages.old.edges ≡ seat.old.made + length pages.new.edges }
    ensures one { length pages.new.edges ≤ length pages.old.edges + 1 }
    ensures most { length pages.new.edges ≤ bounds.edges }
    ensures accepted { IfOk result (λ t. MatchBool t.made
        (seat.new.made ≡ seat.old.made + 1)
        (seat.new.made ≡ seat.old.made)) }
    ensures idle { IfOk result (λ t.
        IfSome t.idle (λ i. HasNoOffer L.opened seat.new.driver i.seen)) }
    ensures ended { IfErr result (IsEnded L.opened bounds.edges seat.new) }
{
    let seen = see_turn(rt, shared, seat, turn)?;
    if seen.total >= bounds.edges {
        return Err(Spent::Edges);
    }
    match seen.offer {
        None => {
            let idle = Some(Idle::since(seen.total));
            Ok(Tried { made: false, idle })
        }
        Some(edge) => match make_edge(rt, shared, seat, pages, edge) {
            Ok(made) => Ok(Tried { made, idle: None }),
            Err(spent) => Err(spent),
        },
    }
}

/// Calls the gate at the end of a turn, before which the seat had made `before` edges.
fn notify_gate<L: Rig, G: Gate>(gate: &G, seat: &Seat<L>, turn: u32, before: u32, accepted: bool)
    requires { MatchBool accepted (seat.now.made ≡ before + 1) (seat.now.made ≡ before) }
{
    gate.after(seat.driver(), turn, accepted);
}

/// What a worker has done so far.
#[derive(Drop)]
struct Work<'s, 'r> {
    /// How many turns it took to their end.
    turns: u32,
    pages: Pages<'s, 'r>,
    /// The wait, if its last look found no offer.
    idle: Option<Idle>,
}

/// Takes the next turn.
///
/// The worker does not take the lock if the history has as many edges as at a look that found no
/// offer, since it would find none again.
///
/// # Errors
/// Why the worker ends, if it does.
fn take_turn<L: Rig, G: Gate, R: Wait>(
    rt: &R,
    shared: &Shared<'_, L>,
    seat: &mut Seat<L>,
    gate: &G,
    bounds: Bounds,
    work: &mut Work<'_, '_>,
) -> Result<(), Spent>
    requires turns { work.old.turns < bounds.turns }
    requires logged { length work.old.pages.edges ≤ seat.old.made }
    requires most { length work.old.pages.edges ≤ bounds.edges }
    requires idle { IfSome work.old.idle (λ i. HasNoOffer L.opened seat.old.driver i.seen) }
    ensures driver { seat.new.driver ≡ seat.old.driver }
    ensures turns { OnOk result (work.new.turns ≡ work.old.turns + 1) }
    ensures made { seat.new.made + length work.old.pages.edges
        ≡ seat.old.made + length work.new.pages.edges }
    ensures one { length work.new.pages.edges ≤ length work.old.pages.edges + 1 }
    ensures most { length work.new.pages.edges ≤ bounds.edges }
    ensures idle { OnOk result
        (IfSome work.new.idle (λ i. HasNoOffer L.opened seat.new.driver i.seen)) }
    ensures gate { OnOk result (G.answers gate.now seat.old.driver work.old.turns true) }
    ensures ended { IfErr result (EndsIn L.opened (G.answers gate.now seat.old.driver)
        work.old.turns bounds.edges seat.new) }
{
    let Work { turns, pages, idle } = work;
    let turn = *turns;
    let before = seat.made();
    if !gate.before(seat.driver(), turn) {
        return Err(Spent::Gate);
    }
    let accepted = match idle {
        Some(idle) if idle.is_still(shared.news.edges()) => {
            idle.wait(rt, &shared.news);
            false
        }
        _ => {
            let tried = try_offer(rt, shared, seat, bounds, turn, pages)?;
            *idle = tried.idle;
            tried.made
        }
    };
    notify_gate(gate, seat, turn, before, accepted);
    *turns += 1;
    Ok(())
}

/// Takes the turns of a worker that has taken none, and returns why it ended.
fn take_turns<L: Rig, G: Gate, R: Wait>(
    rt: &R,
    shared: &Shared<'_, L>,
    seat: &mut Seat<L>,
    gate: &G,
    bounds: Bounds,
    work: &mut Work<'_, '_>,
) -> Spent
    requires none { (work.old.turns ≡ 0) × (work.old.pages.edges ≡ []) }
    requires idle { work.old.idle ≡ None }
    ensures driver { seat.new.driver ≡ seat.old.driver }
    ensures turns { result ≡ Spent.Turns → work.new.turns ≡ bounds.turns }
    ensures made { seat.new.made ≡ seat.old.made + length work.new.pages.edges }
    ensures most { IsWithin bounds.turns bounds.edges work.new.pages.edges }
    ensures spent { IsSpent L.opened (G.answers gate.now seat.new.driver)
        bounds.turns bounds.edges seat.new result }
{
    for _turn in 0..bounds.turns {
        if let Err(spent) = take_turn(rt, shared, seat, gate, bounds, work) {
            return spent;
        }
    }
    Spent::Turns
}

/// Works a seat: makes edges of its driver, at most one a turn, each from the driver's offers. It
/// may wait for the lock.
///
/// It returns the seat and the log of the edges that it made. In turn `t` it tries the offer at
/// place `t` modulo the number of offers. The worker ends after its turns. It ends earlier if the
/// gate answers false, the history has as many edges as the bounds allow, there is no room for an
/// edge, or the history is not the seat's.
///
/// After a turn without an offer it takes the lock again only once the history is longer. That
/// length stands outside the lock too, written in the hold that makes an edge. So if it does not
/// take the lock in a turn, it would have found no offer there, unless a hold that makes an edge
/// has begun; in a turn after that hold, it takes the lock.
pub fn work_board<'r, L: Rig, G: Gate, R: Wait>(
    rt: &R,
    shared: &Shared<'_, L>,
    mut seat: Seat<L>,
    gate: &G,
    bounds: Bounds,
    room: Room<'r>,
) -> (Seat<L>, Log<'r>, Spent)
    ensures seat { result.0 ≡ seat_after seat result.1 }
    ensures most { IsWithin bounds.turns bounds.edges result.1 }
    ensures spent { IsSpent L.opened (G.answers gate.now seat.driver)
        bounds.turns bounds.edges result.0 result.2 }
{
    let Room { scratch, log } = room;
    let mut log = Vec::new(log);
    let most = bounds.most();
    if log.reserve_exact(most as usize).is_err() {
        return (seat, Log::new(log), Spent::NoRoom);
    }
    let mut work = Work {
        turns: 0,
        pages: Pages::new(&scratch, most),
        idle: None,
    };
    let spent = take_turns(rt, shared, &mut seat, gate, bounds, &mut work);
    shared.news.post_end();
    work.pages.copy_to(&mut log);
    (seat, Log::new(log), spent)
}
