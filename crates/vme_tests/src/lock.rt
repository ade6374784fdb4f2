//! The lock: that threads run at once, what a worker does in its turns, and how it fares without room.
ghost use Rattle.std.specs.Prelude.{◌≡◌};
ghost use Rattle.vme_model.specs.Plan.{drivers};
ghost use Rattle.vme_lock.specs.Seats.{drivers_of};

use crate::boards::{FIRST, SECOND, fall, requester, rise};
use crate::gates::{Asked, Counts, Stops, Together};
use std::alloc::{AllocError, Global};
use std::marker::Brand;
use std::process::Abort;
use std::sync::Wait;
use std::sync::ledger::Blank;
use std::test::*;
use std::thread::Threads;
use vme_arena::{Region, Rest};
use vme_backplane::{Backplane, Trace};
use vme_lock::{
    Bounds, EdgeRefused, Gate, Log, Lost, NotStarted, OpenGate, Rig, Room, Seat, Seats, Shared,
    Spent, log_bytes, run_boards, work_board,
};
use vme_model::{ArbiterKind, Cycle, Driver, Edge, Refused, Version, Wire};
use vme_slots::Plan;

/// The bytes of a lease that is long enough for 1,000 edges.
const AMPLE: usize = 8192;

/// The bytes of a region for a trace and 22 ample rooms.
const MEMORY: usize = 1_048_576;

fn access(driver: Driver, slot: u8) -> Edge {
    Edge {
        value: Some(Cycle::Access(slot)),
        ..fall(driver, Wire::Addr)
    }
}

/// A backplane with a board in each slot, which requests level 3 and gives the bus up when done.
fn boards<'r>(
    alloc: Global,
    rest: &mut Rest<'r>,
    slots: u8,
    version: Version,
) -> Result<Backplane<'r>, Fail> {
    let mut rows = Vec::new(alloc);
    for below in 0..slots.min(21) {
        rows.push(requester(below + 1, 3, 1))?;
    }
    let plan = Plan::new(alloc, slots, rows.as_slice(), &[], ArbiterKind::Sgl)?;
    let trace = Trace::on(alloc, rest, 1000)?;
    Ok(Backplane::new(plan, trace, version))
}

/// A room with a lease for scratch and one for the log, of these sizes.
fn room<'r>(rest: &mut Rest<'r>, sizes: (usize, usize)) -> Result<Room<'r>, Fail> {
    Ok(Room {
        scratch: rest.carve(sizes.0)?,
        log: rest.carve(sizes.1)?,
    })
}

fn rooms<'r>(
    alloc: Global,
    rest: &mut Rest<'r>,
    sizes: &[(usize, usize)],
) -> Result<Vec<Room<'r>>, Fail> {
    let mut rooms = Vec::new(alloc);
    for sizes in sizes {
        rooms.push(room(rest, *sizes)?)?;
    }
    Ok(rooms)
}

fn edges_of(alloc: Global, log: &Log<'_>) -> Result<Vec<Edge>, AllocError> {
    let mut edges = Vec::new(alloc);
    for place in 0..log.len() {
        edges.push(log.edge_at(place))?;
    }
    Ok(edges)
}

fn history_of(alloc: Global, backplane: &Backplane<'_>) -> Result<Vec<Edge>, AllocError> {
    let mut edges = Vec::new(alloc);
    for place in 0..backplane.len() {
        edges.push(backplane.edge_at(place))?;
    }
    Ok(edges)
}

/// What the boards did.
#[derive(Drop)]
struct Ran {
    logs: Vec<Vec<Edge>>,
    made: Vec<u32>,
    history: Vec<Edge>,
}

impl Ran {
    /// Whether the log of the controller, or of a slot, is a front of these edges.
    fn begins(&self, seat: usize, edges: &[Edge]) -> bool {
        match self.logs.get(seat) {
            Some(log) => edges.starts_with(log.as_slice()),
            None => false,
        }
    }
}

/// L2, where the backplane that was handed back takes an edge as before.
fn refused_lock(mut backplane: Backplane<'_>) -> Fail {
    match backplane.step(fall(FIRST, Wire::Br)) {
        Ok(_) => "L2".into(),
        Err(_) => "another backplane was handed back".into(),
    }
}

/// Runs all boards and closes.
fn run_and_close<L: Rig + Send + Sync, G: Gate + Sync, R: Threads + Wait + Sync>(
    rt: &R,
    alloc: Global,
    blank: Blank,
    backplane: Backplane<'_>,
    gate: &G,
    bounds: Bounds,
    rooms: Vec<Room<'_>>,
) -> Result<Ran, Fail>
    requires blank { (blank.name ≡ L.name) × (blank.parts ≡ L.parts) × (blank.parts ≡ 22) }
    requires opened { L.opened ≡ backplane }
{
    let (shared, seats) = match Shared::<'_, L>::new(alloc, blank, backplane) {
        Ok(opened) => opened,
        Err(same) => return Err(refused_lock(same)),
    };
    if rooms.len() != seats.len() {
        return Err("as many rooms as seats".into());
    }
    let Ok((seats, logs)) = run_boards(rt, alloc, &shared, seats, gate, bounds, rooms) else {
        return Err("L3".into());
    };
    let mut made = Vec::new(alloc);
    for seat in &seats {
        made.push(seat.made())?;
    }
    let mut copies = Vec::new(alloc);
    for log in &logs {
        copies.push(edges_of(alloc, log)?)?;
    }
    match shared.close(seats, logs.as_slice()) {
        Ok(closed) => Ok(Ran {
            logs: copies,
            made,
            history: history_of(alloc, &closed.backplane)?,
        }),
        Err(_) => Err("L4".into()),
    }
}

/// Runs boards in rooms of these sizes, one for each driver.
fn run_in_rooms<G: Gate + Sync, R: Threads + Wait + Sync>(
    rt: &R,
    alloc: Global,
    slots: u8,
    gate: &G,
    turns: u32,
    sizes: &[(usize, usize)],
) -> Result<Ran, Fail> {
    let mut region = Region::new(alloc, MEMORY)?;
    let mut rest = region.rest();
    let backplane = boards(alloc, &mut rest, slots, Version::One)?;
    let rooms = rooms(alloc, &mut rest, sizes)?;
    let bounds = Bounds { turns, edges: 1000 };
    let blank = Blank::new(22);
    run_and_close::<Brand, G, R>(rt, alloc, blank, backplane, gate, bounds, rooms)
}

/// One board asks. `acceptance/failing-calls` refuses each of this test's calls for memory in turn: it ends by the name of
/// what was refused, L2 and L3 among them, or as it does else.
#[test]
fn refused_memory(rt: HostRuntime) -> Result<(), Fail> {
    let ran = run_in_rooms(&rt, rt.alloc(), 1, &OpenGate, 1, &[(AMPLE, AMPLE); 2])?;
    assert!(rt; ran.begins(1, &[fall(FIRST, Wire::Br)]));
    assert!(rt; ran.made.get(1) == Some(&1));
    Ok(())
}

/// Neither threads one after the other nor a lock that is held while the gate is called gets through this.
#[test]
fn all_run_at_once(rt: HostRuntime) -> Result<(), Fail> {
    let gate = Together::new();
    let ran = run_in_rooms(&rt, rt.alloc(), 2, &gate, 100, &[(AMPLE, AMPLE); 3])?;
    assert!(rt; !gate.ran_out());
    assert!(rt; ran.history.first() == Some(&fall(SECOND, Wire::Br)));
    Ok(())
}

/// Without room a board makes no edge, and the others go on.
#[test]
fn a_short_room(rt: HostRuntime) -> Result<(), Fail> {
    for short in [(16, AMPLE), (AMPLE, 0)] {
        let sizes = [(AMPLE, AMPLE), short, (AMPLE, AMPLE)];
        let ran = run_in_rooms(&rt, rt.alloc(), 2, &OpenGate, 100, &sizes)?;
        assert!(rt; ran.begins(1, &[]));
        assert!(rt; ran.made.get(1) == Some(&0));
        assert!(rt; !ran.begins(2, &[]));
    }
    Ok(())
}

/// The grant stands at slot 1, which neither takes it nor passes it on.
#[test]
fn a_board_that_never_starts(rt: HostRuntime) -> Result<(), Fail> {
    let gate = Stops::new(0);
    let ran = run_in_rooms(&rt, rt.alloc(), 2, &gate, 10_000, &[(AMPLE, AMPLE); 3])?;
    let request = fall(SECOND, Wire::Br);
    let history = [request, fall(Driver::Controller, Wire::Bg(3))];
    assert!(rt; ran.history.first() == Some(&request));
    assert!(rt; history.as_slice().starts_with(ran.history.as_slice()));
    Ok(())
}

#[test]
fn a_board_that_stops_as_owner(rt: HostRuntime) -> Result<(), Fail> {
    let gate = Stops::new(2);
    let ran = run_in_rooms(&rt, rt.alloc(), 2, &gate, 10_000, &[(AMPLE, AMPLE); 3])?;
    let grant = fall(Driver::Controller, Wire::Bg(3));
    let granted = rise(Driver::Controller, Wire::Bg(3));
    assert!(rt; ran.begins(0, &[grant, granted]));
    assert!(rt; ran.begins(1, &[fall(FIRST, Wire::Br), fall(FIRST, Wire::Bbsy)]));
    assert!(rt; ran.begins(2, &[fall(SECOND, Wire::Br)]));
    assert!(rt; !ran.begins(1, &[]) && !ran.begins(2, &[]));
    Ok(())
}

/// Whether a backplane of its own takes the whole history of 21 boards.
fn is_legal(alloc: Global, history: &[Edge]) -> Result<bool, Fail> {
    let mut region = Region::new(alloc, MEMORY)?;
    let mut again = boards(alloc, &mut region.rest(), 21, Version::One)?;
    Ok(again.run(history).refused == 0)
}

/// 21 boards, a hundred times over: each closed history is legal, and as long as the logs. In its first turn each board asks.
#[test]
fn many_boards_many_times(rt: HostRuntime) -> Result<(), Fail> {
    for _run in 0..100u8 {
        let ran = run_in_rooms(&rt, rt.alloc(), 21, &OpenGate, 20, &[(AMPLE, AMPLE); 22])?;
        assert!(rt; is_legal(rt.alloc(), ran.history.as_slice())?);
        let mut logged = 0;
        for log in &ran.logs {
            logged = log.len().saturating_add(logged);
        }
        assert_eq!(rt; logged, ran.history.len());
        assert!(rt; logged > 20);
    }
    Ok(())
}

/// Makes an edge of slot 1, which then stands in no log.
#[tactic(auto, using(vme_lock::proofs::Joining::drivers_set))]
fn make_otherwise<L: Rig, R: Wait>(
    rt: &R,
    shared: &Shared<'_, L>,
    seats: &mut Seats<L>,
    edge: Edge,
) -> Result<(), Fail>
    ensures { drivers_of seats.new.items ≡ drivers_of seats.old.items }
{
    match seats.get_mut(1) {
        Some(seat) => shared.edge(rt, seat, edge)?,
        None => None,
    };
    Ok(())
}

/// When an edge is made that no worker makes.
#[derive(Clone, Copy)]
enum Made {
    Before(Edge),
    Behind(Edge),
}

/// Makes an edge before the boards run or behind, and answers which driver's log differs, and where.
fn mismatch_of<L: Rig + Send + Sync, G: Gate + Sync, R: Threads + Wait + Sync>(
    rt: &R,
    alloc: Global,
    shared: Shared<'_, L>,
    mut seats: Seats<L>,
    gate: &G,
    turns: u32,
    rooms: Vec<Room<'_>>,
    made: Made,
) -> Result<(Driver, u32), Fail>
    requires parts { L.parts ≡ 22 }
    requires seats { drivers_of seats.items ≡ drivers L.opened.plan }
{
    if let Made::Before(edge) = made {
        make_otherwise(rt, &shared, &mut seats, edge)?;
    }
    if rooms.len() != seats.len() {
        return Err("as many rooms as seats".into());
    }
    let bounds = Bounds { turns, edges: 1000 };
    let (mut seats, logs) = run_boards(rt, alloc, &shared, seats, gate, bounds, rooms)?;
    if let Made::Behind(edge) = made {
        make_otherwise(rt, &shared, &mut seats, edge)?;
    }
    if logs.len() != seats.len() {
        return Err("as many logs as seats".into());
    }
    let closed = shared.close(seats, logs.as_slice());
    match &closed {
        Ok(_) => Err("an edge is in no log".into()),
        Err(mismatch) => Ok((mismatch.driver, mismatch.at)),
    }
}

/// Opens a backplane, and makes an edge on it that stands in no log.
fn mismatch<L: Rig + Send + Sync, G: Gate + Sync, R: Threads + Wait + Sync>(
    rt: &R,
    alloc: Global,
    blank: Blank,
    backplane: Backplane<'_>,
    gate: &G,
    turns: u32,
    rooms: Vec<Room<'_>>,
    made: Made,
) -> Result<(Driver, u32), Fail>
    requires blank { (blank.name ≡ L.name) × (blank.parts ≡ L.parts) × (blank.parts ≡ 22) }
    requires opened { L.opened ≡ backplane }
{
    let Ok((shared, seats)) = Shared::<'_, L>::new(alloc, blank, backplane) else {
        return Err("L2".into());
    };
    mismatch_of(rt, alloc, shared, seats, gate, turns, rooms, made)
}

#[test]
fn an_edge_before_the_boards_run(rt: HostRuntime) -> Result<(), Fail> {
    let alloc = rt.alloc();
    let mut region = Region::new(alloc, MEMORY)?;
    let mut rest = region.rest();
    let backplane = boards(alloc, &mut rest, 2, Version::One)?;
    let rooms = rooms(alloc, &mut rest, &[(AMPLE, AMPLE); 3])?;
    let blank = Blank::new(22);
    let made = Made::Before(fall(FIRST, Wire::Br));
    let found = mismatch::<Brand, _, _>(&rt, alloc, blank, backplane, &OpenGate, 100, rooms, made)?;
    assert_eq!(rt; found, (FIRST, 0));
    Ok(())
}

/// The request stands in the log of slot 1 and the grant in the controller's, and that the bus was taken in none.
#[test]
fn an_edge_behind_the_last_turn(rt: HostRuntime) -> Result<(), Fail> {
    let alloc = rt.alloc();
    let mut region = Region::new(alloc, MEMORY)?;
    let mut rest = region.rest();
    let backplane = boards(alloc, &mut rest, 1, Version::One)?;
    let rooms = rooms(alloc, &mut rest, &[(AMPLE, AMPLE); 2])?;
    let blank = Blank::new(22);
    let gate = Asked::new();
    let made = Made::Behind(fall(FIRST, Wire::Bbsy));
    let found = mismatch::<Brand, _, _>(&rt, alloc, blank, backplane, &gate, 1, rooms, made)?;
    assert_eq!(rt; found, (FIRST, 1));
    Ok(())
}

/// Works a seat for so many turns with a gate that counts, in which it makes these edges.
fn counted<L: Rig, R: Wait + Abort>(
    rt: &R,
    alloc: Global,
    shared: &Shared<'_, L>,
    seat: Seat<L>,
    turns: u32,
    edges: &[Edge],
    rest: &mut Rest<'_>,
) -> Result<Seat<L>, Fail> {
    let gate = Counts::new(true);
    let bounds = Bounds { turns, edges: 1000 };
    let room = room(rest, (AMPLE, AMPLE))?;
    let (seat, log, spent) = work_board(rt, shared, seat, &gate, bounds, room);
    assert!(rt; spent == Spent::Turns);
    assert_eq!(rt; gate.calls(), turns);
    let made = edges_of(alloc, &log)?;
    assert!(rt; made.len() == edges.len() && made.starts_with(edges));
    Ok(seat)
}

/// Works a seat for one turn, and says why it ended without an edge.
fn idle<L: Rig, R: Wait + Abort>(
    rt: &R,
    shared: &Shared<'_, L>,
    seat: Seat<L>,
    open: bool,
    rest: &mut Rest<'_>,
    sizes: (usize, usize),
) -> Result<(Seat<L>, Spent), Fail> {
    let bounds = Bounds { turns: 1, edges: 8 };
    let room = room(rest, sizes)?;
    let (seat, log, spent) = work_board(rt, shared, seat, &Counts::new(open), bounds, room);
    assert!(rt; log.is_empty());
    Ok((seat, spent))
}

/// What slot 1 sees behind its request, and the edges that it is refused.
fn refusals<L: Rig, R: Wait + Abort>(
    rt: &R,
    shared: &Shared<'_, L>,
    first: &mut Seat<L>,
) -> Result<(), Fail> {
    let view = shared.look(rt, first)?;
    assert_eq!(rt; (view.own, view.total), (1, 1));
    assert!(rt; view.pins.requests.has(3));
    assert!(rt; view.offers.is_empty());
    for other in [SECOND, Driver::Slot(0), Driver::Controller] {
        let refused = shared.edge(rt, first, fall(other, Wire::Br));
        assert!(rt; refused == Err(EdgeRefused::NotYours));
    }
    let again = Err(EdgeRefused::Step(Refused::AlreadyThere));
    assert!(rt; shared.edge(rt, first, fall(FIRST, Wire::Br)) == again);
    assert_eq!(rt; first.made(), 1);
    Ok(())
}

/// Without room for an edge or for its log a worker makes none.
fn no_room<L: Rig, R: Wait + Abort>(
    rt: &R,
    shared: &Shared<'_, L>,
    seat: Seat<L>,
    rest: &mut Rest<'_>,
) -> Result<Seat<L>, Fail> {
    let (seat, spent) = idle(rt, shared, seat, true, rest, (16, AMPLE))?;
    assert!(rt; spent == Spent::NoRoom);
    let (seat, spent) = idle(rt, shared, seat, true, rest, (AMPLE, 0))?;
    assert!(rt; spent == Spent::NoRoom);
    Ok(seat)
}

/// A worker ends at 8 edges in the history, and at a gate that is shut.
fn no_turn<L: Rig, R: Wait + Abort>(
    rt: &R,
    shared: &Shared<'_, L>,
    seat: Seat<L>,
    rest: &mut Rest<'_>,
) -> Result<(), Fail> {
    let (seat, spent) = idle(rt, shared, seat, true, rest, (AMPLE, AMPLE))?;
    assert!(rt; spent == Spent::Edges);
    let (_, spent) = idle(rt, shared, seat, false, rest, (AMPLE, AMPLE))?;
    assert!(rt; spent == Spent::Gate);
    Ok(())
}

/// The turns of two workers, one after the other on one thread.
fn one_thread<L: Rig, R: Wait + Abort>(
    rt: &R,
    alloc: Global,
    shared: &Shared<'_, L>,
    controller: Seat<L>,
    first: Seat<L>,
    rest: &mut Rest<'_>,
) -> Result<(), Fail> {
    let first = no_room(rt, shared, first, rest)?;
    let request = [fall(FIRST, Wire::Br)];
    let mut first = counted(rt, alloc, shared, first, 1, &request, rest)?;
    refusals(rt, shared, &mut first)?;
    let grant = [fall(Driver::Controller, Wire::Bg(3))];
    let controller = counted(rt, alloc, shared, controller, 1, &grant, rest)?;
    let tenure = [
        fall(FIRST, Wire::Bbsy),
        access(FIRST, 1),
        rise(FIRST, Wire::Br),
        fall(FIRST, Wire::AddressStrobe),
        fall(FIRST, Wire::DataStrobe),
        fall(FIRST, Wire::Dtack),
    ];
    let first = counted(rt, alloc, shared, first, 6, &tenure, rest)?;
    assert_eq!(rt; first.made(), 7);
    no_turn(rt, shared, controller, rest)
}

/// Opens a backplane with one board: the lock, the controller's seat and the board's.
fn open_one<'r, L: Rig>(
    alloc: Global,
    blank: Blank,
    backplane: Backplane<'r>,
) -> Result<(Shared<'r, L>, Seat<L>, Seat<L>), Fail>
    requires blank { (blank.name ≡ L.name) × (blank.parts ≡ L.parts) × (blank.parts ≡ 22) }
    requires opened { L.opened ≡ backplane }
{
    let Ok((shared, seats)) = Shared::<'r, L>::new(alloc, blank, backplane) else {
        return Err("L2".into());
    };
    let mut seats = seats;
    let first = seats.pop().ok_or("two seats")?;
    let controller = seats.pop().ok_or("two seats")?;
    Ok((shared, controller, first))
}

/// Opens a backplane with one board, and works its two seats.
fn one_board<L: Rig, R: Wait + Abort>(
    rt: &R,
    alloc: Global,
    blank: Blank,
    backplane: Backplane<'_>,
    rest: &mut Rest<'_>,
) -> Result<(), Fail>
    requires blank { (blank.name ≡ L.name) × (blank.parts ≡ L.parts) × (blank.parts ≡ 22) }
    requires opened { L.opened ≡ backplane }
{
    let (shared, controller, first) = open_one::<L>(alloc, blank, backplane)?;
    one_thread(rt, alloc, &shared, controller, first, rest)
}

#[test]
fn turns_of_a_worker(rt: HostRuntime) -> Result<(), Fail> {
    let mut region = Region::new(rt.alloc(), MEMORY)?;
    let mut rest = region.rest();
    let backplane = boards(rt.alloc(), &mut rest, 1, Version::One)?;
    one_board::<Brand, _>(&rt, rt.alloc(), Blank::new(22), backplane, &mut rest)
}

/// A worker makes an edge in each turn, and answers the length of its log: alone, and under the second version, a board
/// requests and withdraws in turn.
fn filled<L: Rig, R: Wait + Abort>(
    rt: &R,
    alloc: Global,
    blank: Blank,
    backplane: Backplane<'_>,
    edges: u32,
    room: Room<'_>,
) -> Result<u32, Fail>
    requires blank { (blank.name ≡ L.name) × (blank.parts ≡ L.parts) × (blank.parts ≡ 22) }
    requires opened { L.opened ≡ backplane }
{
    let (shared, _, first) = open_one::<L>(alloc, blank, backplane)?;
    let bounds = Bounds {
        turns: edges,
        edges,
    };
    let (_, log, spent) = work_board(rt, &shared, first, &OpenGate, bounds, room);
    assert!(rt; spent == Spent::Turns);
    Ok(log.len())
}

/// Fills a room of these sizes with so many edges, and answers the length of the log.
fn filled_in<R: Wait + Abort>(
    rt: &R,
    alloc: Global,
    edges: u32,
    sizes: (usize, usize),
) -> Result<u32, Fail> {
    let mut region = Region::new(alloc, MEMORY)?;
    let mut rest = region.rest();
    let backplane = boards(alloc, &mut rest, 1, Version::Two)?;
    let room = room(&mut rest, sizes)?;
    filled::<Brand, _>(rt, alloc, Blank::new(22), backplane, edges, room)
}

#[test]
fn rooms_of_their_exact_sizes(rt: HostRuntime) -> Result<(), Fail> {
    for edges in [1, 256, 257, 1000] {
        let sizes = (log_bytes(edges), Trace::bytes(edges));
        let filled = filled_in(&rt, rt.alloc(), edges, sizes)?;
        assert_eq!(rt; filled, edges);
    }
    Ok(())
}

/// The texts of the refusals.
#[test]
fn texts(rt: HostRuntime) -> Result<(), Fail> {
    let lost = Lost { own: 7 };
    let texts = [
        (
            format!(in rt.alloc(); "{}", EdgeRefused::NotYours)?,
            "L1 the edge is not the seat's",
        ),
        (
            format!(in rt.alloc(); "{NotStarted}")?,
            "L3 the boards could not be started",
        ),
        (
            format!(in rt.alloc(); "{lost}")?,
            "L5 the history has 7 edges of the seat's driver",
        ),
    ];
    for (text, want) in &texts {
        assert_eq!(rt; text.as_str(), *want);
    }
    Ok(())
}
