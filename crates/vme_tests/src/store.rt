//! Traces on their leases: pages and bytes, refusals, and stores that are filled.
use std::alloc::Global;
use std::sync::Wait;
use std::test::Fail;
use std::thread::{self, Threads};
use vme_arena::{Lease, Region};
use vme_model::{Cycle, Driver, Edge, Wire};
use vme_store::{Store, Trace, TraceError};

/// A trace of so many edges on leases of these sizes.
fn trace_on<'r>(
    alloc: Global,
    region: &'r mut Region,
    sizes: &[usize],
    max: u32,
) -> Result<Result<Trace<'r>, TraceError>, Fail> {
    let mut rest = region.rest();
    let mut leases = Vec::new(alloc);
    for size in sizes {
        leases.push(rest.carve(*size)?)?;
    }
    Ok(Trace::new(alloc, leases, max))
}

/// What a trace on leases of these sizes is refused for.
fn refusal(alloc: Global, sizes: &[usize], max: u32) -> Result<Option<TraceError>, Fail> {
    let mut region = Region::new(alloc, 600_000)?;
    Ok(trace_on(alloc, &mut region, sizes, max)?.err())
}

/// What a trace on a region of so many bytes is refused for.
fn refusal_on(alloc: Global, bytes: usize, max: u32) -> Result<Option<TraceError>, Fail> {
    let mut region = Region::new(alloc, bytes)?;
    let mut rest = region.rest();
    Ok(Trace::on(alloc, &mut rest, max).err())
}

/// An edge that tells its place from those beside it.
fn request(place: u32) -> Edge {
    Edge {
        driver: Driver::Slot((1 + place % 21) as u8),
        wire: Wire::Br,
        fall: place % 2 == 0,
        value: None,
    }
}

/// Fills the store.
fn fill(store: &mut Store<'_>) {
    for place in 0..store.max() {
        let edge = request(place);
        if edge.is_well_formed() && store.len() < store.max() {
            store.push(edge);
        }
    }
}

fn kept_at(store: &Store<'_>, place: u32) -> Option<Edge> {
    if place < store.len() {
        Some(store.edge_at(place))
    } else {
        None
    }
}

#[test]
fn pages_and_their_bytes(rt: HostRuntime) {
    assert_eq!(rt; Trace::pages(0), 0);
    assert_eq!(rt; Trace::pages(1), 1);
    assert_eq!(rt; Trace::pages(65_536), 1);
    assert_eq!(rt; Trace::pages(65_537), 2);
    assert_eq!(rt; Trace::pages(1_048_576), 16);
    assert_eq!(rt; Trace::page_max(65_537, 0), 65_536);
    assert_eq!(rt; Trace::page_max(65_537, 1), 1);
    assert_eq!(rt; Trace::bytes(0), 0);
    assert_eq!(rt; Trace::bytes(1), 16);
    assert_eq!(rt; Trace::bytes(64), 256);
    assert_eq!(rt; Trace::bytes(65_536), 262_144);
}

#[test]
fn one_page_fills_its_lease(rt: HostRuntime) -> Result<(), Fail> {
    let mut short = Region::new(rt.alloc(), 255)?;
    assert!(rt; short.rest().carve(256).is_err());
    let mut region = Region::new(rt.alloc(), 256)?;
    let mut rest = region.rest();
    let leases = Vec::from_array(rt.alloc(), [rest.carve(256)?])?;
    let mut store = Store::new(Trace::new(rt.alloc(), leases, 64)?);
    assert_eq!(rt; (store.len(), store.max(), rest.left()), (0, 64, 0));
    fill(&mut store);
    assert_eq!(rt; store.len(), 64);
    assert_eq!(rt; kept_at(&store, 63), Some(request(63)));
    Ok(())
}

#[test]
fn every_page_has_its_room(rt: HostRuntime) -> Result<(), Fail> {
    let mut region = Region::new(rt.alloc(), 262_144 + 16)?;
    let trace = trace_on(rt.alloc(), &mut region, &[262_144, 16], 65_537)??;
    assert_eq!(rt; trace.max(), 65_537);
    let mut store = Store::new(trace);
    fill(&mut store);
    assert_eq!(rt; store.len(), 65_537);
    for place in [0, 65_534, 65_535, 65_536] {
        assert_eq!(rt; kept_at(&store, place), Some(request(place)));
    }
    assert_eq!(rt; kept_at(&store, 65_537), None);
    Ok(())
}

#[test]
fn a_trace_carves_what_it_needs(rt: HostRuntime) -> Result<(), Fail> {
    let mut region = Region::new(rt.alloc(), Trace::bytes(65_537))?;
    let mut rest = region.rest();
    let trace = Trace::on(rt.alloc(), &mut rest, 65_537)?;
    assert_eq!(rt; (trace.max(), rest.left()), (65_537, 0));
    Ok(())
}

#[test]
fn a_rest_is_too_short_or_a_trace_too_long(rt: HostRuntime) -> Result<(), Fail> {
    let short = refusal_on(rt.alloc(), Trace::bytes(65_537) - 1, 65_537)?;
    assert_eq!(rt; short, Some(TraceError::NoRoom));
    let long = refusal_on(rt.alloc(), 16, 1_048_577)?;
    assert_eq!(rt; long, Some(TraceError::TooMany));
    Ok(())
}

#[test]
fn refusals_in_their_order(rt: HostRuntime) -> Result<(), Fail> {
    let alloc = rt.alloc();
    assert_eq!(rt; refusal(alloc, &[], 1_048_577)?, Some(TraceError::TooMany));
    let one_for_two = TraceError::WrongLeases { need: 2, given: 1 };
    assert_eq!(rt; refusal(alloc, &[262_144], 65_537)?, Some(one_for_two));
    let one_for_none = TraceError::WrongLeases { need: 0, given: 1 };
    assert_eq!(rt; refusal(alloc, &[16], 0)?, Some(one_for_none));
    // A wrong number of leases comes before one that is too short.
    assert_eq!(rt; refusal(alloc, &[0], 65_537)?, Some(one_for_two));
    assert_eq!(rt;
        refusal(alloc, &[262_144, 0], 65_537)?,
        Some(TraceError::NoRoom)
    );
    assert_eq!(rt;
        refusal(alloc, &[0, 262_144], 65_537)?,
        Some(TraceError::NoRoom)
    );
    assert_eq!(rt; refusal(alloc, &[240], 64)?, Some(TraceError::NoRoom));
    assert_eq!(rt; refusal(alloc, &[], 0)?, None);
    Ok(())
}

#[test]
fn refused_leases_are_dropped(rt: HostRuntime) -> Result<(), Fail> {
    let mut region = Region::new(rt.alloc(), 262_144)?;
    for _ in 0..3 {
        let refused = trace_on(rt.alloc(), &mut region, &[256, 0], 65_537)?.err();
        assert_eq!(rt; refused, Some(TraceError::NoRoom));
    }
    let trace = trace_on(rt.alloc(), &mut region, &[262_144], 65_536)??;
    assert_eq!(rt; trace.max(), 65_536);
    Ok(())
}

#[test]
fn texts_of_refusals(rt: HostRuntime) -> Result<(), Fail> {
    let wrong = TraceError::WrongLeases { need: 2, given: 1 };
    let texts = [
        (TraceError::TooMany, "K1 too many edges"),
        (TraceError::NoRoom, "K2 no room"),
        (wrong, "K3 2 leases needed, 1 given"),
    ];
    for (error, text) in texts {
        let written = format!(in rt.alloc(); "{error}")?;
        assert_eq!(rt; written.as_str(), text);
    }
    Ok(())
}

#[test]
fn an_acknowledge_and_an_access_come_back(rt: HostRuntime) -> Result<(), Fail> {
    let mut region = Region::new(rt.alloc(), 256)?;
    let trace = trace_on(rt.alloc(), &mut region, &[256], 64)??;
    let mut store = Store::new(trace);
    let shown = [Cycle::Acknowledge(7), Cycle::Access(1), Cycle::Access(21)];
    for cycle in shown {
        let edge = Edge {
            driver: Driver::Slot(21),
            wire: Wire::Addr,
            fall: true,
            value: Some(cycle),
        };
        if edge.is_well_formed() && store.len() < store.max() {
            store.push(edge);
        }
    }
    let read = |place| kept_at(&store, place).and_then(|edge| edge.value);
    assert_eq!(rt; [read(0), read(1), read(2)], shown.map(Some));
    Ok(())
}

/// Fills a store on another thread, which hands it back.
fn filled_elsewhere<'r, R: Threads + Wait + Sync>(rt: &R, store: Store<'r>) -> Option<Store<'r>> {
    thread::scope(thread::scope_env(), rt, |scope| {
        let worker = scope.spawn(move || {
            let mut store = store;
            fill(&mut store);
            store
        });
        Some(worker.ok()?.join(rt))
    })
}

#[test]
fn a_store_moves_to_a_thread(rt: HostRuntime) -> Result<(), Fail> {
    let mut region = Region::new(rt.alloc(), 256)?;
    let trace = trace_on(rt.alloc(), &mut region, &[256], 64)??;
    let store = filled_elsewhere(&rt, Store::new(trace));
    assert_eq!(rt; store.map(|store| store.len()), Some(64));
    Ok(())
}
