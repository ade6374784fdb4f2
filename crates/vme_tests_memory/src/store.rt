//! Traces on their leases: that they are made if there is room, and refused if there is none.
use std::alloc::Global;
use std::process::Abort;
use std::sync::Wait;
use std::test::*;
use std::thread::{self, Threads};
use vme_arena::{Region, Rest};
use vme_model::{Driver, Edge, Wire};
use vme_store::{Store, Trace, TraceError};

/// A trace of `max` edges on leases of these sizes, at the front of a rest.
fn trace_on<'r>(
    alloc: Global,
    rest: &mut Rest<'r>,
    sizes: &[usize],
    max: u32,
) -> Result<Result<Trace<'r>, TraceError>, Fail> {
    let mut leases = Vec::new(alloc);
    for size in sizes {
        leases.push(rest.carve(*size)?)?;
    }
    Ok(Trace::new(alloc, leases, max))
}

/// How many edges a trace on leases of these sizes has room for, or for what it is refused.
fn max_on(
    alloc: Global,
    region: &mut Region,
    sizes: &[usize],
    max: u32,
) -> Result<Result<u32, TraceError>, Fail> {
    match trace_on(alloc, &mut region.rest(), sizes, max)? {
        Ok(trace) => Ok(Ok(trace.max())),
        Err(refusal) => Ok(Err(refusal)),
    }
}

/// An edge of a bus request, different from the edges of the places beside it.
fn request(place: u32) -> Edge {
    Edge {
        driver: Driver::Slot((1 + place % 21) as u8),
        wire: Wire::Br,
        fall: place % 2 == 0,
        value: None,
    }
}

/// Fills the store.
fn fill(store: &mut Store<'_>) {
    for place in 0..store.max() {
        let edge = request(place);
        if edge.is_well_formed() && store.len() < store.max() {
            store.push(edge);
        }
    }
}

fn kept_at(store: &Store<'_>, place: u32) -> Option<Edge> {
    if place < store.len() {
        Some(store.edge_at(place))
    } else {
        None
    }
}

/// Whether the edges at these places are those that `fill` puts there.
fn keeps(store: &Store<'_>, places: &[u32]) -> bool {
    for place in places {
        if kept_at(store, *place) != Some(request(*place)) {
            return false;
        }
    }
    true
}

/// Fills a trace of `max` edges, and asserts the edges at these places and the one after the last.
fn assert_filled<R: Abort>(rt: &R, trace: Trace<'_>, max: u32, places: &[u32]) {
    let mut store = Store::new(trace);
    assert!(rt; store.len() == 0 && store.max() == max);
    fill(&mut store);
    assert!(rt; store.len() == max);
    assert!(rt; keeps(&store, places));
    assert!(rt; kept_at(&store, max).is_none());
}

/// Whether a region of `bytes` bytes refuses a stretch of one byte more.
fn is_short(alloc: Global, bytes: usize) -> Result<bool, Fail> {
    let mut short = Region::new(alloc, bytes)?;
    Ok(short.rest().carve(bytes.saturating_add(1)).is_err())
}

#[test]
fn one_page_fills_its_lease(rt: HostRuntime) -> Result<(), Fail> {
    assert!(rt; is_short(rt.alloc(), 255)?);
    let mut region = Region::new(rt.alloc(), 256)?;
    let mut rest = region.rest();
    let trace = trace_on(rt.alloc(), &mut rest, &[256], 64)??;
    assert!(rt; rest.left() == 0);
    assert_filled(&rt, trace, 64, &[63]);
    Ok(())
}

#[test]
fn every_page_has_its_room(rt: HostRuntime) -> Result<(), Fail> {
    let mut region = Region::new(rt.alloc(), 262_144 + 16)?;
    let trace = trace_on(rt.alloc(), &mut region.rest(), &[262_144, 16], 65_537)??;
    assert_filled(&rt, trace, 65_537, &[0, 65_534, 65_535, 65_536]);
    Ok(())
}

#[test]
fn a_trace_carves_what_it_needs(rt: HostRuntime) -> Result<(), Fail> {
    let mut region = Region::new(rt.alloc(), Trace::bytes(65_537))?;
    let mut rest = region.rest();
    let trace = Trace::on(rt.alloc(), &mut rest, 65_537)?;
    assert!(rt; trace.max() == 65_537 && rest.left() == 0);
    Ok(())
}

/// The sizes of leases, the edges that a trace is to hold on them, and how many it has room for or
/// for what it is refused.
type Case = (&'static [usize], u32, Result<u32, TraceError>);

/// Asserts that on a region of `bytes` bytes each case has its answer. The region is whole again
/// after each case.
fn assert_answers<R: AllocGlobal + Abort>(
    rt: &R,
    bytes: usize,
    cases: &[Case],
) -> Result<(), Fail> {
    let mut region = Region::new(rt.alloc(), bytes)?;
    for (sizes, max, answer) in cases {
        assert!(rt; max_on(rt.alloc(), &mut region, sizes, *max)? == *answer);
    }
    Ok(())
}

/// After a refusal the region is whole for what is made.
const REFUSED_AND_MADE: [Case; 6] = [
    (&[256, 0], 65_537, Err(TraceError::NoRoom)),
    (&[256, 0], 65_537, Err(TraceError::NoRoom)),
    (&[0, 262_144], 65_537, Err(TraceError::NoRoom)),
    (&[262_144, 0], 65_537, Err(TraceError::NoRoom)),
    (&[240], 64, Err(TraceError::NoRoom)),
    (&[262_144], 65_536, Ok(65_536)),
];

#[test]
fn refused_leases_are_dropped(rt: HostRuntime) -> Result<(), Fail> {
    assert_answers(&rt, 262_144, &REFUSED_AND_MADE)
}

const TEXTS: [(TraceError, &str); 3] = [
    (TraceError::TooMany, "K1 too many edges"),
    (TraceError::NoRoom, "K2 no room"),
    (
        TraceError::WrongLeases { need: 2, given: 1 },
        "K3 2 leases needed, 1 given",
    ),
];

#[test]
fn texts_of_refusals(rt: HostRuntime) -> Result<(), Fail> {
    for (error, text) in TEXTS {
        assert!(rt; format!(in rt.alloc(); "{error}")?.as_str() == text);
    }
    Ok(())
}

/// Fills a store on another thread, which returns it, and returns its length.
fn filled_elsewhere<R: Threads + Wait + Sync>(rt: &R, store: Store<'_>) -> Option<u32> {
    thread::scope(thread::scope_env(), rt, |scope| {
        let worker = scope.spawn(move || {
            let mut store = store;
            fill(&mut store);
            store
        });
        Some(worker.ok()?.join(rt).len())
    })
}

#[test]
fn a_store_moves_to_a_thread(rt: HostRuntime) -> Result<(), Fail> {
    let mut region = Region::new(rt.alloc(), 256)?;
    let trace = trace_on(rt.alloc(), &mut region.rest(), &[256], 64)??;
    assert!(rt; filled_elsewhere(&rt, Store::new(trace)) == Some(64));
    Ok(())
}
