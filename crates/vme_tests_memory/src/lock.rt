//! The lock: that threads run at the same time, what a worker does in its turns, and what it does
//! without room.
ghost use Rattle.std.specs.Prelude.{◌≡◌, IfOk, length, vec_len};
ghost use Rattle.vme_model.specs.Plan.{drivers};
ghost use Rattle.vme_lock.specs.Seats.{drivers_of};

use crate::boards::{FIRST, SECOND, fall, requester, rise};
use crate::gates::{Asked, Counts, Stops, Together};
use std::alloc::{AllocError, Global};
use std::marker::Brand;
use std::process::Abort;
use std::sync::Wait;
use std::sync::ledger::Blank;
use std::test::*;
use std::thread::Threads;
use vme_arena::{Region, Rest};
use vme_backplane::{Backplane, Trace};
use vme_lock::{
    Bounds, Closed, EdgeRefused, Gate, Log, LogMismatch, Lost, NotStarted, OpenGate, Rig, Room,
    Seat, Seats, Shared, Spent, log_bytes, run_boards, work_board,
};
use vme_model::{ArbiterKind, Cycle, Driver, Edge, Refused, Row, Version, Wire};
use vme_slots::Plan;

/// The bytes of a lease that is long enough for 1,000 edges.
pub const AMPLE: usize = 8192;

/// The bytes of a region for a trace and 22 ample rooms.
pub const MEMORY: usize = 1_048_576;

fn access(driver: Driver, slot: u8) -> Edge {
    Edge {
        value: Some(Cycle::Access(slot)),
        ..fall(driver, Wire::Addr)
    }
}

/// A board in each slot, which requests level 3 and gives the bus up when done.
fn rows(alloc: Global, slots: u8) -> Result<Vec<Row>, AllocError> {
    let mut rows = Vec::new(alloc);
    for below in 0..slots.min(21) {
        rows.push(requester(below + 1, 3))?;
    }
    Ok(rows)
}

/// A plan of these boards.
fn plan(alloc: Global, slots: u8) -> Result<Plan, Fail> {
    let rows = rows(alloc, slots)?;
    Ok(Plan::new(alloc, slots, rows.as_slice(), &[], ArbiterKind::Sgl)?)
}

/// A backplane with these boards.
pub fn boards<'r>(
    alloc: Global,
    rest: &mut Rest<'r>,
    slots: u8,
    version: Version,
) -> Result<Backplane<'r>, Fail> {
    let plan = plan(alloc, slots)?;
    let trace = Trace::on(alloc, rest, 1000)?;
    Ok(Backplane::new(plan, trace, version))
}

/// A room with a lease for scratch and one for the log, of these sizes.
pub fn room<'r>(rest: &mut Rest<'r>, sizes: (usize, usize)) -> Result<Room<'r>, Fail> {
    Ok(Room {
        scratch: rest.carve(sizes.0)?,
        log: rest.carve(sizes.1)?,
    })
}

fn rooms<'r>(
    alloc: Global,
    rest: &mut Rest<'r>,
    sizes: &[(usize, usize)],
) -> Result<Vec<Room<'r>>, Fail> {
    let mut rooms = Vec::new(alloc);
    for sizes in sizes {
        rooms.push(room(rest, *sizes)?)?;
    }
    Ok(rooms)
}

fn edges_of(alloc: Global, log: &Log<'_>) -> Result<Vec<Edge>, AllocError> {
    let mut edges = Vec::new(alloc);
    for place in 0..log.len() {
        edges.push(log.edge_at(place))?;
    }
    Ok(edges)
}

fn history_of(alloc: Global, backplane: &Backplane<'_>) -> Result<Vec<Edge>, AllocError> {
    let mut edges = Vec::new(alloc);
    for place in 0..backplane.len() {
        edges.push(backplane.edge_at(place))?;
    }
    Ok(edges)
}

/// What the boards did.
#[derive(Drop)]
pub struct Ran {
    logs: Vec<Vec<Edge>>,
    made: Vec<u32>,
    history: Vec<Edge>,
}

impl Ran {
    /// Whether the log of the controller, or of a slot, is a prefix of these edges.
    fn begins(&self, seat: usize, edges: &[Edge]) -> bool {
        match self.logs.get(seat) {
            Some(log) => edges.starts_with(log.as_slice()),
            None => false,
        }
    }
}

/// L2, if the backplane that was returned still takes an edge as before.
fn refused_lock(mut backplane: Backplane<'_>) -> Fail {
    match backplane.step(fall(FIRST, Wire::Br)) {
        Ok(_) => "L2".into(),
        Err(_) => "another backplane was handed back".into(),
    }
}

/// Opens a backplane: the lock, and a seat for each driver.
fn open<'r, L: Rig>(
    alloc: Global,
    blank: Blank,
    backplane: Backplane<'r>,
) -> Result<(Shared<'r, L>, Seats<L>), Fail>
    requires blank { (blank.name ≡ L.name) × (blank.parts ≡ L.parts) × (blank.parts ≡ 22) }
    requires opened { L.opened ≡ backplane }
    ensures seats { IfOk result (λ r. drivers_of r.1.items ≡ drivers L.opened.plan) }
{
    match Shared::<'r, L>::new(alloc, blank, backplane) {
        Ok(opened) => Ok(opened),
        Err(same) => Err(refused_lock(same)),
    }
}

/// How many edges each driver made.
fn made_by<L: Rig>(alloc: Global, seats: &Seats<L>) -> Result<Vec<u32>, AllocError> {
    let mut made = Vec::new(alloc);
    for seat in seats {
        made.push(seat.made())?;
    }
    Ok(made)
}

fn copies_of(alloc: Global, logs: &[Log<'_>]) -> Result<Vec<Vec<Edge>>, AllocError> {
    let mut copies = Vec::new(alloc);
    for log in logs {
        copies.push(edges_of(alloc, log)?)?;
    }
    Ok(copies)
}

/// What the boards did, without their history.
fn work_of<L: Rig>(alloc: Global, seats: &Seats<L>, logs: &[Log<'_>]) -> Result<Ran, AllocError> {
    let made = made_by(alloc, seats)?;
    Ok(Ran {
        logs: copies_of(alloc, logs)?,
        made,
        history: Vec::new(alloc),
    })
}

/// A copy of the history of what was closed.
fn history_in(
    alloc: Global,
    closed: &Result<Closed<'_>, LogMismatch<'_>>,
) -> Result<Vec<Edge>, Fail> {
    match closed {
        Ok(closed) => Ok(history_of(alloc, &closed.backplane)?),
        Err(_) => Err("L4".into()),
    }
}

/// Closes the lock, and copies the history.
fn closed<L: Rig>(
    alloc: Global,
    shared: Shared<'_, L>,
    seats: Seats<L>,
    logs: &[Log<'_>],
) -> Result<Vec<Edge>, Fail>
    requires parts { L.parts ≡ 22 }
    requires seats { drivers_of seats.items ≡ drivers L.opened.plan }
    requires logs { length logs.now ≡ vec_len seats }
{
    let closed = shared.close(seats, logs);
    history_in(alloc, &closed)
}

/// Runs all boards, and closes the lock.
fn run_opened<L: Rig + Send + Sync, G: Gate + Sync, R: Threads + Wait + Sync>(
    rt: &R,
    alloc: Global,
    shared: Shared<'_, L>,
    seats: Seats<L>,
    gate: &G,
    bounds: Bounds,
    rooms: Vec<Room<'_>>,
) -> Result<Ran, Fail>
    requires parts { L.parts ≡ 22 }
    requires seats { drivers_of seats.items ≡ drivers L.opened.plan }
{
    if rooms.len() != seats.len() {
        return Err("as many rooms as seats".into());
    }
    let Ok((seats, logs)) = run_boards(rt, alloc, &shared, seats, gate, bounds, rooms) else {
        return Err("L3".into());
    };
    let mut ran = work_of(alloc, &seats, logs.as_slice())?;
    ran.history = closed(alloc, shared, seats, logs.as_slice())?;
    Ok(ran)
}

/// Opens a backplane, runs all its boards, and closes the lock.
fn run_and_close<L: Rig + Send + Sync, G: Gate + Sync, R: Threads + Wait + Sync>(
    rt: &R,
    alloc: Global,
    blank: Blank,
    backplane: Backplane<'_>,
    gate: &G,
    bounds: Bounds,
    rooms: Vec<Room<'_>>,
) -> Result<Ran, Fail>
    requires blank { (blank.name ≡ L.name) × (blank.parts ≡ L.parts) × (blank.parts ≡ 22) }
    requires opened { L.opened ≡ backplane }
{
    let (shared, seats) = open::<L>(alloc, blank, backplane)?;
    run_opened(rt, alloc, shared, seats, gate, bounds, rooms)
}

/// A backplane with boards in that many slots, and rooms of these sizes.
fn benches<'r>(
    alloc: Global,
    rest: &mut Rest<'r>,
    slots: u8,
    version: Version,
    sizes: &[(usize, usize)],
) -> Result<(Backplane<'r>, Vec<Room<'r>>), Fail> {
    let backplane = boards(alloc, rest, slots, version)?;
    Ok((backplane, rooms(alloc, rest, sizes)?))
}

/// Runs boards in rooms of these sizes, one for each driver.
pub fn run_in_rooms<G: Gate + Sync, R: Threads + Wait + Sync>(
    rt: &R,
    alloc: Global,
    slots: u8,
    gate: &G,
    turns: u32,
    sizes: &[(usize, usize)],
) -> Result<Ran, Fail> {
    run_under(rt, alloc, slots, Version::One, gate, turns, sizes)
}

/// Runs boards under the rules of a version, in rooms of these sizes, one for each driver.
fn run_under<G: Gate + Sync, R: Threads + Wait + Sync>(
    rt: &R,
    alloc: Global,
    slots: u8,
    version: Version,
    gate: &G,
    turns: u32,
    sizes: &[(usize, usize)],
) -> Result<Ran, Fail> {
    let mut region = Region::new(alloc, MEMORY)?;
    let (backplane, rooms) = benches(alloc, &mut region.rest(), slots, version, sizes)?;
    let bounds = Bounds { turns, edges: 1000 };
    let blank = Blank::new(22);
    run_and_close::<Brand, G, R>(rt, alloc, blank, backplane, gate, bounds, rooms)
}

/// One board requests the bus. `acceptance/failing-calls` refuses each of this test's calls for
/// memory in turn. The test then fails with the name of what was refused, L2 and L3 among them, or
/// it ends as it does otherwise.
#[test]
fn refused_memory(rt: HostRuntime) -> Result<(), Fail> {
    let ran = run_in_rooms(&rt, rt.alloc(), 1, &OpenGate, 1, &[(AMPLE, AMPLE); 2])?;
    assert!(rt; ran.begins(1, &[fall(FIRST, Wire::Br)]));
    assert!(rt; ran.made.get(1) == Some(&1));
    Ok(())
}

/// This test fails if the threads run one after another, or if a lock is held while the gate is
/// called, before a turn or after it.
#[test]
fn all_run_at_once(rt: HostRuntime) -> Result<(), Fail> {
    let gate = Together::new();
    let ran = run_in_rooms(&rt, rt.alloc(), 2, &gate, 100, &[(AMPLE, AMPLE); 3])?;
    assert!(rt; !gate.ran_out());
    assert!(rt; ran.history.first() == Some(&fall(SECOND, Wire::Br)));
    Ok(())
}

/// The sizes of the rooms of three drivers; that of slot 1 is too short.
const SHORT: [[(usize, usize); 3]; 2] = [
    [(AMPLE, AMPLE), (16, AMPLE), (AMPLE, AMPLE)],
    [(AMPLE, AMPLE), (AMPLE, 0), (AMPLE, AMPLE)],
];

/// A board without room makes no edge, and the others go on.
#[test]
fn a_short_room(rt: HostRuntime) -> Result<(), Fail> {
    for sizes in &SHORT {
        let ran = run_in_rooms(&rt, rt.alloc(), 2, &OpenGate, 100, sizes)?;
        assert!(rt; ran.begins(1, &[]) && ran.made.get(1) == Some(&0));
        assert!(rt; !ran.begins(2, &[]));
    }
    Ok(())
}

/// The grant stands at slot 1, which neither takes it nor passes it on.
#[test]
fn a_board_that_never_starts(rt: HostRuntime) -> Result<(), Fail> {
    let gate = Stops::new(0);
    let ran = run_in_rooms(&rt, rt.alloc(), 2, &gate, 10_000, &[(AMPLE, AMPLE); 3])?;
    let request = fall(SECOND, Wire::Br);
    let history = [request, fall(Driver::Controller, Wire::Bg(3))];
    assert!(rt; ran.history.first() == Some(&request));
    assert!(rt; history.as_slice().starts_with(ran.history.as_slice()));
    Ok(())
}

#[test]
fn a_board_that_stops_as_owner(rt: HostRuntime) -> Result<(), Fail> {
    let gate = Stops::new(2);
    let ran = run_in_rooms(&rt, rt.alloc(), 2, &gate, 10_000, &[(AMPLE, AMPLE); 3])?;
    let grant = fall(Driver::Controller, Wire::Bg(3));
    let granted = rise(Driver::Controller, Wire::Bg(3));
    assert!(rt; ran.begins(0, &[grant, granted]));
    assert!(rt; ran.begins(1, &[fall(FIRST, Wire::Br), fall(FIRST, Wire::Bbsy)]));
    assert!(rt; ran.begins(2, &[fall(SECOND, Wire::Br)]));
    assert!(rt; !ran.begins(1, &[]) && !ran.begins(2, &[]));
    Ok(())
}

/// Whether a backplane of its own accepts the whole history of 21 boards.
fn is_legal(alloc: Global, version: Version, history: &[Edge]) -> Result<bool, Fail> {
    let mut region = Region::new(alloc, MEMORY)?;
    let mut again = boards(alloc, &mut region.rest(), 21, version)?;
    Ok(again.run(history).refused == 0)
}

/// How many edges the logs have.
fn logged(ran: &Ran) -> usize {
    let mut logged = 0;
    for log in &ran.logs {
        logged = log.len().saturating_add(logged);
    }
    logged
}

/// 21 boards, a hundred times in each version. Each closed history is legal and has as many edges
/// as the logs, and the gate is called for as many edges. In its first turn each board requests the
/// bus. If it may withdraw, a grant often comes before it does.
#[test]
fn many_boards_many_times(rt: HostRuntime) -> Result<(), Fail> {
    for run in 0..100u8 {
        let version = if run < 50 { Version::One } else { Version::Two };
        let gate = Counts::new(true);
        let ran = run_under(
            &rt,
            rt.alloc(),
            21,
            version,
            &gate,
            20,
            &[(AMPLE, AMPLE); 22],
        )?;
        assert!(rt; is_legal(rt.alloc(), version, ran.history.as_slice())?);
        assert!(rt; logged(&ran) == ran.history.len() && logged(&ran) > 20);
        assert!(rt; logged(&ran) == gate.accepted() as usize);
    }
    Ok(())
}

/// Makes an edge of slot 1, which no log has.
#[tactic(auto, using(vme_lock::proofs::SeatsAndLogs::drivers_set))]
fn make_otherwise<L: Rig, R: Wait>(
    rt: &R,
    shared: &Shared<'_, L>,
    seats: &mut Seats<L>,
    edge: Edge,
) -> Result<(), Fail>
    ensures { drivers_of seats.new.items ≡ drivers_of seats.old.items }
{
    match seats.get_mut(1) {
        Some(seat) => shared.edge(rt, seat, edge)?,
        None => None,
    };
    Ok(())
}

/// When an edge is made that no worker makes.
#[derive(Clone, Copy)]
enum Made {
    Before(Edge),
    Behind(Edge),
}

/// Closes the lock, and returns the driver whose log differs, and the place.
fn differing<L: Rig>(
    shared: Shared<'_, L>,
    seats: Seats<L>,
    logs: &[Log<'_>],
) -> Option<(Driver, u32)>
    requires parts { L.parts ≡ 22 }
    requires seats { drivers_of seats.items ≡ drivers L.opened.plan }
    requires logs { length logs.now ≡ vec_len seats }
{
    let closed = shared.close(seats, logs);
    match &closed {
        Ok(_) => None,
        Err(mismatch) => Some((mismatch.driver, mismatch.at)),
    }
}

/// Makes an edge after the last turn, closes the lock, and returns the driver whose log differs,
/// and the place.
fn differing_behind<L: Rig, R: Wait>(
    rt: &R,
    shared: Shared<'_, L>,
    mut seats: Seats<L>,
    logs: &[Log<'_>],
    made: Made,
) -> Result<(Driver, u32), Fail>
    requires parts { L.parts ≡ 22 }
    requires seats { drivers_of seats.items ≡ drivers L.opened.plan }
{
    if let Made::Behind(edge) = made {
        make_otherwise(rt, &shared, &mut seats, edge)?;
    }
    if logs.len() != seats.len() {
        return Err("as many logs as seats".into());
    }
    match differing(shared, seats, logs) {
        Some(found) => Ok(found),
        None => Err("an edge is in no log".into()),
    }
}

/// Makes an edge before the boards run or after, and returns the driver whose log differs, and the
/// place.
fn mismatch_of<L: Rig + Send + Sync, G: Gate + Sync, R: Threads + Wait + Sync>(
    rt: &R,
    alloc: Global,
    shared: Shared<'_, L>,
    mut seats: Seats<L>,
    gate: &G,
    bounds: Bounds,
    rooms: Vec<Room<'_>>,
    made: Made,
) -> Result<(Driver, u32), Fail>
    requires parts { L.parts ≡ 22 }
    requires seats { drivers_of seats.items ≡ drivers L.opened.plan }
{
    if let Made::Before(edge) = made {
        make_otherwise(rt, &shared, &mut seats, edge)?;
    }
    if rooms.len() != seats.len() {
        return Err("as many rooms as seats".into());
    }
    let (seats, logs) = run_boards(rt, alloc, &shared, seats, gate, bounds, rooms)?;
    differing_behind(rt, shared, seats, logs.as_slice(), made)
}

/// Opens a backplane, and makes an edge on it that no log has.
fn mismatch<L: Rig + Send + Sync, G: Gate + Sync, R: Threads + Wait + Sync>(
    rt: &R,
    alloc: Global,
    blank: Blank,
    backplane: Backplane<'_>,
    gate: &G,
    bounds: Bounds,
    rooms: Vec<Room<'_>>,
    made: Made,
) -> Result<(Driver, u32), Fail>
    requires blank { (blank.name ≡ L.name) × (blank.parts ≡ L.parts) × (blank.parts ≡ 22) }
    requires opened { L.opened ≡ backplane }
{
    let (shared, seats) = open::<L>(alloc, blank, backplane)?;
    mismatch_of(rt, alloc, shared, seats, gate, bounds, rooms, made)
}

/// Opens a backplane with rooms of these sizes, one for each driver, and makes an edge on it that
/// no log has.
fn mismatch_in_rooms<G: Gate + Sync, R: Threads + Wait + Sync>(
    rt: &R,
    alloc: Global,
    slots: u8,
    gate: &G,
    turns: u32,
    sizes: &[(usize, usize)],
    made: Made,
) -> Result<(Driver, u32), Fail> {
    let mut region = Region::new(alloc, MEMORY)?;
    let (backplane, rooms) = benches(alloc, &mut region.rest(), slots, Version::One, sizes)?;
    let bounds = Bounds { turns, edges: 1000 };
    let blank = Blank::new(22);
    mismatch::<Brand, G, R>(rt, alloc, blank, backplane, gate, bounds, rooms, made)
}

#[test]
fn an_edge_before_the_boards_run(rt: HostRuntime) -> Result<(), Fail> {
    let made = Made::Before(fall(FIRST, Wire::Br));
    let sizes = [(AMPLE, AMPLE); 3];
    let found = mismatch_in_rooms(&rt, rt.alloc(), 2, &OpenGate, 100, &sizes, made)?;
    assert!(rt; found == (FIRST, 0));
    Ok(())
}

/// The log of slot 1 has the request, the controller's log has the grant, and no log has the edge
/// that takes the bus.
#[test]
fn an_edge_behind_the_last_turn(rt: HostRuntime) -> Result<(), Fail> {
    let made = Made::Behind(fall(FIRST, Wire::Bbsy));
    let sizes = [(AMPLE, AMPLE); 2];
    let found = mismatch_in_rooms(&rt, rt.alloc(), 1, &Asked::new(), 1, &sizes, made)?;
    assert!(rt; found == (FIRST, 1));
    Ok(())
}

/// What is given to a worker, and what it does with it.
#[derive(Clone, Copy)]
struct Task<'e> {
    /// Whether the gate is open.
    open: bool,
    bounds: Bounds,
    /// The bytes for scratch memory and for the log.
    sizes: (usize, usize),
    /// Why the worker ends.
    spent: Spent,
    /// The edges of its log.
    edges: &'e [Edge],
}

/// A worker that makes an edge in each of its turns.
fn makes(edges: &[Edge], turns: u32) -> Task<'_> {
    Task {
        open: true,
        bounds: Bounds { turns, edges: 1000 },
        sizes: (AMPLE, AMPLE),
        spent: Spent::Turns,
        edges,
    }
}

/// A worker that has one turn, and ends without an edge.
fn idles(open: bool, sizes: (usize, usize), spent: Spent) -> Task<'static> {
    Task {
        open,
        bounds: Bounds { turns: 1, edges: 8 },
        sizes,
        spent,
        edges: &[],
    }
}

/// Whether a log has these edges, and no others.
pub fn is_log_of(log: &Log<'_>, edges: &[Edge]) -> bool {
    for place in 0..log.len() {
        if edges.get(place as usize).copied() != Some(log.edge_at(place)) {
            return false;
        }
    }
    log.len() as usize == edges.len()
}

/// Asserts what a worker did, and how its gate was called.
fn assert_worked(rt: &impl Abort, task: Task<'_>, log: &Log<'_>, spent: Spent, gate: &Counts) {
    assert!(rt; spent == task.spent);
    assert!(rt; spent != Spent::Turns || gate.calls() == task.bounds.turns);
    assert!(rt; is_log_of(log, task.edges) && log.len() == gate.accepted());
}

/// Works a seat with a gate that counts.
fn work<L: Rig, R: Wait + Abort>(
    rt: &R,
    shared: &Shared<'_, L>,
    seat: Seat<L>,
    task: Task<'_>,
    rest: &mut Rest<'_>,
) -> Result<Seat<L>, Fail> {
    let gate = Counts::new(task.open);
    let room = room(rest, task.sizes)?;
    let (seat, log, spent) = work_board(rt, shared, seat, &gate, task.bounds, room);
    assert_worked(rt, task, &log, spent, &gate);
    Ok(seat)
}

/// Asserts what slot 1 sees after its request.
fn assert_seen<L: Rig, R: Wait + Abort>(
    rt: &R,
    shared: &Shared<'_, L>,
    first: &Seat<L>,
) -> Result<(), Fail> {
    let view = shared.look(rt, first)?;
    assert!(rt; view.own == 1 && view.total == 1);
    assert!(rt; view.pins.requests.has(3) && view.offers.is_empty());
    Ok(())
}

/// Asserts which edges of slot 1 are refused after its request.
fn assert_refused<L: Rig, R: Wait + Abort>(rt: &R, shared: &Shared<'_, L>, first: &mut Seat<L>) {
    for other in [SECOND, Driver::Slot(0), Driver::Controller] {
        let refused = shared.edge(rt, first, fall(other, Wire::Br));
        assert!(rt; refused == Err(EdgeRefused::NotYours));
    }
    let again = Err(EdgeRefused::Step(Refused::AlreadyThere));
    assert!(rt; shared.edge(rt, first, fall(FIRST, Wire::Br)) == again);
    assert!(rt; first.made() == 1);
}

/// Asserts that a worker without room for an edge or for its log makes no edge, and that slot 1
/// then requests the bus.
fn request<L: Rig, R: Wait + Abort>(
    rt: &R,
    shared: &Shared<'_, L>,
    first: Seat<L>,
    rest: &mut Rest<'_>,
) -> Result<Seat<L>, Fail> {
    let no_room = idles(true, (16, AMPLE), Spent::NoRoom);
    let first = work(rt, shared, first, no_room, rest)?;
    let no_log = idles(true, (AMPLE, 0), Spent::NoRoom);
    let first = work(rt, shared, first, no_log, rest)?;
    work(rt, shared, first, makes(&[fall(FIRST, Wire::Br)], 1), rest)
}

/// Asserts the turns of the bus's owner.
fn tenure<L: Rig, R: Wait + Abort>(
    rt: &R,
    shared: &Shared<'_, L>,
    first: Seat<L>,
    rest: &mut Rest<'_>,
) -> Result<(), Fail> {
    let edges = [
        fall(FIRST, Wire::Bbsy),
        access(FIRST, 1),
        rise(FIRST, Wire::Br),
        fall(FIRST, Wire::AddressStrobe),
        fall(FIRST, Wire::DataStrobe),
        fall(FIRST, Wire::Dtack),
    ];
    let first = work(rt, shared, first, makes(&edges, 6), rest)?;
    assert!(rt; first.made() == 7);
    Ok(())
}

/// Asserts that a worker ends at 8 edges in the history, and at a gate that is shut.
fn no_turn<L: Rig, R: Wait + Abort>(
    rt: &R,
    shared: &Shared<'_, L>,
    seat: Seat<L>,
    rest: &mut Rest<'_>,
) -> Result<(), Fail> {
    let full = idles(true, (AMPLE, AMPLE), Spent::Edges);
    let seat = work(rt, shared, seat, full, rest)?;
    let shut = idles(false, (AMPLE, AMPLE), Spent::Gate);
    work(rt, shared, seat, shut, rest)?;
    Ok(())
}

/// Asserts the turns of two workers, one after another on one thread.
fn one_thread<L: Rig, R: Wait + Abort>(
    rt: &R,
    shared: &Shared<'_, L>,
    controller: Seat<L>,
    first: Seat<L>,
    rest: &mut Rest<'_>,
) -> Result<(), Fail> {
    let mut first = request(rt, shared, first, rest)?;
    assert_seen(rt, shared, &first)?;
    assert_refused(rt, shared, &mut first);
    let grant = [fall(Driver::Controller, Wire::Bg(3))];
    let controller = work(rt, shared, controller, makes(&grant, 1), rest)?;
    tenure(rt, shared, first, rest)?;
    no_turn(rt, shared, controller, rest)
}

/// Opens a backplane with one board: the lock, the controller's seat and the board's.
pub fn open_one<'r, L: Rig>(
    alloc: Global,
    blank: Blank,
    backplane: Backplane<'r>,
) -> Result<(Shared<'r, L>, Seat<L>, Seat<L>), Fail>
    requires blank { (blank.name ≡ L.name) × (blank.parts ≡ L.parts) × (blank.parts ≡ 22) }
    requires opened { L.opened ≡ backplane }
{
    let (shared, mut seats) = open::<L>(alloc, blank, backplane)?;
    let first = seats.pop().ok_or("two seats")?;
    let controller = seats.pop().ok_or("two seats")?;
    Ok((shared, controller, first))
}

/// Opens a backplane with one board, and works its two seats.
fn one_board<L: Rig, R: Wait + Abort>(
    rt: &R,
    alloc: Global,
    blank: Blank,
    backplane: Backplane<'_>,
    rest: &mut Rest<'_>,
) -> Result<(), Fail>
    requires blank { (blank.name ≡ L.name) × (blank.parts ≡ L.parts) × (blank.parts ≡ 22) }
    requires opened { L.opened ≡ backplane }
{
    let (shared, controller, first) = open_one::<L>(alloc, blank, backplane)?;
    one_thread(rt, &shared, controller, first, rest)
}

#[test]
fn turns_of_a_worker(rt: HostRuntime) -> Result<(), Fail> {
    let mut region = Region::new(rt.alloc(), MEMORY)?;
    let mut rest = region.rest();
    let backplane = boards(rt.alloc(), &mut rest, 1, Version::One)?;
    one_board::<Brand, _>(&rt, rt.alloc(), Blank::new(22), backplane, &mut rest)
}

/// Works a seat that makes an edge in each turn, and returns the length of its log. Alone, and
/// under the second version, a board requests and withdraws in turn.
fn filled<L: Rig, R: Wait + Abort>(
    rt: &R,
    alloc: Global,
    blank: Blank,
    backplane: Backplane<'_>,
    edges: u32,
    room: Room<'_>,
) -> Result<u32, Fail>
    requires blank { (blank.name ≡ L.name) × (blank.parts ≡ L.parts) × (blank.parts ≡ 22) }
    requires opened { L.opened ≡ backplane }
{
    let (shared, _, first) = open_one::<L>(alloc, blank, backplane)?;
    let bounds = Bounds {
        turns: edges,
        edges,
    };
    let (_, log, spent) = work_board(rt, &shared, first, &OpenGate, bounds, room);
    assert!(rt; spent == Spent::Turns);
    Ok(log.len())
}

/// Fills a room of these sizes with that many edges, and returns the length of the log.
fn filled_in<R: Wait + Abort>(
    rt: &R,
    alloc: Global,
    edges: u32,
    sizes: (usize, usize),
) -> Result<u32, Fail> {
    let mut region = Region::new(alloc, MEMORY)?;
    let mut rest = region.rest();
    let backplane = boards(alloc, &mut rest, 1, Version::Two)?;
    let room = room(&mut rest, sizes)?;
    filled::<Brand, _>(rt, alloc, Blank::new(22), backplane, edges, room)
}

#[test]
fn rooms_of_their_exact_sizes(rt: HostRuntime) -> Result<(), Fail> {
    for edges in [1, 256, 257, 1000] {
        let sizes = (log_bytes(edges), Trace::bytes(edges));
        assert!(rt; filled_in(&rt, rt.alloc(), edges, sizes)? == edges);
    }
    Ok(())
}

/// The texts of the refusals.
#[test]
fn texts(rt: HostRuntime) -> Result<(), Fail> {
    let not_yours = format!(in rt.alloc(); "{}", EdgeRefused::NotYours)?;
    assert!(rt; not_yours.as_str() == "L1 the edge is not the seat's");
    let not_started = format!(in rt.alloc(); "{NotStarted}")?;
    assert!(rt; not_started.as_str() == "L3 the boards could not be started");
    let lost = format!(in rt.alloc(); "{}", Lost { own: 7 })?;
    assert!(rt; lost.as_str() == "L5 the history has 7 edges of the seat's driver");
    Ok(())
}
