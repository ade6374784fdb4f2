//! Boards and edges that the tests use.
use bitflags::Flags;
use vme_model::{Driver, Edge, InterrupterRow, IrqKind, Levels, Release, RequesterRow, Row, Wire};

pub const FIRST: Driver = Driver::Slot(1);

pub const SECOND: Driver = Driver::Slot(2);

pub fn fall(driver: Driver, wire: Wire) -> Edge {
    Edge {
        driver,
        wire,
        fall: true,
        value: None,
    }
}

pub fn rise(driver: Driver, wire: Wire) -> Edge {
    Edge {
        fall: false,
        ..fall(driver, wire)
    }
}

/// A board with no parts.
pub fn board(slot: u8) -> Row {
    Row {
        slot,
        requester: None,
        interrupter: None,
        handler: Levels::empty(),
    }
}

/// A board that gives the bus up after `burst` cycles.
pub fn requester(slot: u8, level: u8, burst: u8) -> Row {
    let release = Release::Done { burst };
    Row {
        requester: Some(RequesterRow { level, release }),
        ..board(slot)
    }
}

/// A board whose interrupt request ends at its acknowledge (ROAK).
pub fn interrupter(slot: u8, level: u8, status: u8) -> Row {
    let kind = IrqKind::Roak;
    Row {
        interrupter: Some(InterrupterRow {
            level,
            kind,
            status,
        }),
        ..board(slot)
    }
}
