//! Boards and edges that the tests use.
use bitflags::Flags;
use vme_model::{Driver, Edge, Levels, Release, RequesterRow, Row, Wire};

pub const FIRST: Driver = Driver::Slot(1);

pub const SECOND: Driver = Driver::Slot(2);

/// The edge of a driver on a wire, without a value.
fn edge(driver: Driver, wire: Wire, fall: bool) -> Edge {
    Edge {
        driver,
        wire,
        fall,
        value: None,
    }
}

pub fn fall(driver: Driver, wire: Wire) -> Edge {
    edge(driver, wire, true)
}

pub fn rise(driver: Driver, wire: Wire) -> Edge {
    edge(driver, wire, false)
}

/// A board that requests on a level, and gives the bus up after one cycle.
pub fn requester(slot: u8, level: u8) -> Row {
    let release = Release::Done { burst: 1 };
    Row {
        slot,
        requester: Some(RequesterRow { level, release }),
        interrupter: None,
        handler: Levels::empty(),
    }
}
