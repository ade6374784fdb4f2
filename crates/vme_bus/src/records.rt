//! What enums and options say, as numbers alone, so that a record of them may lie in the memory of
//! a program in C.
//!
//! Each number has a meaning, also one that no code here writes.
ghost use Rattle.std.specs.Prelude.{◌≡◌, is_some};
ghost use Rattle.vme_bus.specs.Records.{version_in, kind_in, cycle_in, slot_in, requester_in, interrupter_in, seat_in};

use bitflags::Flags;
use vme_model::{
    ArbiterKind, Cycle, InterrupterRow, IrqKind, Levels, Release, RequesterRow, Row, Version,
};

/// The number that stands for no slot.
pub const NO_SLOT: u8 = 255;

/// A board in its slot, and where its inputs stand among the low segments of its chains.
#[derive(Clone, Copy)]
pub struct Seat {
    pub row: Row,
    /// Of its grant chain; 0 if it has no requester.
    pub grant_source: u8,
    /// Of the acknowledge chain.
    pub acknowledge_source: u8,
}

/// A cycle, if there is one.
#[repr(C)]
#[derive(Clone, Copy, PartialEq, Eq)]
pub struct CycleRecord {
    /// 1 an acknowledge, 2 an access, any other none.
    pub kind: u8,
    /// The level, or the slot.
    pub number: u8,
}

/// A requester, if there is one.
#[repr(C)]
#[derive(Clone, Copy)]
pub struct RequesterRecord {
    /// 0 if there is none.
    pub stands: u8,
    pub level: u8,
    /// 0 if it gives up the bus when another board requests it.
    pub is_done: u8,
    /// The most cycles, if it gives up the bus when its master is done.
    pub burst: u8,
}

/// An interrupter, if there is one.
#[repr(C)]
#[derive(Clone, Copy)]
pub struct InterrupterRecord {
    /// 0 if there is none.
    pub stands: u8,
    pub level: u8,
    /// 0 if an acknowledge ends its request.
    pub is_rora: u8,
    pub status: u8,
}

/// What stands in a slot.
#[repr(C)]
#[derive(Clone, Copy)]
pub struct SeatRecord {
    /// 0 if the slot is empty.
    pub stands: u8,
    pub slot: u8,
    pub requester: RequesterRecord,
    pub interrupter: InterrupterRecord,
    /// The levels that it handles, level n at bit n - 1.
    pub handler: u8,
    pub grant_source: u8,
    pub acknowledge_source: u8,
}

/// The number of a version.
pub fn number_of_version(version: Version) -> u8
    ensures { version_in result ≡ version }
{
    match version {
        Version::One => 1,
        Version::Two => 2,
    }
}

/// The version of a number: 1 is the first, any other the second.
#[inline(always)]
pub fn version_in(number: u8) -> Version
    ensures { result ≡ version_in number }
{
    if number == 1 {
        Version::One
    } else {
        Version::Two
    }
}

/// The number of a policy.
pub fn number_of_kind(kind: ArbiterKind) -> u8
    ensures { kind_in result ≡ kind }
{
    match kind {
        ArbiterKind::Sgl => 0,
        ArbiterKind::Pri => 1,
        ArbiterKind::Rrs => 2,
    }
}

/// The policy of a number: 0 single level, 1 priority, any other round robin.
#[inline(always)]
pub fn kind_in(number: u8) -> ArbiterKind
    ensures { result ≡ kind_in number }
{
    match number {
        0 => ArbiterKind::Sgl,
        1 => ArbiterKind::Pri,
        _ => ArbiterKind::Rrs,
    }
}

/// The slot of a number: none beyond 21.
#[inline(always)]
pub fn slot_in(number: u8) -> Option<u8>
    ensures { result ≡ slot_in number }
{
    if number < 22 { Some(number) } else { None }
}

impl CycleRecord {
    /// A cycle as numbers.
    #[inline(always)]
    pub fn of(cycle: Option<Cycle>) -> CycleRecord
        ensures { cycle_in result ≡ cycle }
    {
        match cycle {
            None => CycleRecord { kind: 0, number: 0 },
            Some(Cycle::Acknowledge(level)) => CycleRecord {
                kind: 1,
                number: level,
            },
            Some(Cycle::Access(slot)) => CycleRecord {
                kind: 2,
                number: slot,
            },
        }
    }

    /// The cycle.
    #[inline(always)]
    pub fn cycle(self) -> Option<Cycle>
        ensures { result ≡ cycle_in self }
    {
        match self.kind {
            1 => Some(Cycle::Acknowledge(self.number)),
            2 => Some(Cycle::Access(self.number)),
            _ => None,
        }
    }
}

impl RequesterRecord {
    /// A requester as numbers.
    fn of(requester: Option<RequesterRow>) -> RequesterRecord
        ensures { requester_in result ≡ requester }
    {
        match requester {
            None => RequesterRecord {
                stands: 0,
                level: 0,
                is_done: 0,
                burst: 0,
            },
            Some(row) => match row.release {
                Release::Request => RequesterRecord {
                    stands: 1,
                    level: row.level,
                    is_done: 0,
                    burst: 0,
                },
                Release::Done { burst } => RequesterRecord {
                    stands: 1,
                    level: row.level,
                    is_done: 1,
                    burst,
                },
            },
        }
    }

    /// Whether there is one.
    #[inline(always)]
    pub fn is_some(self) -> bool
        ensures { result ≡ is_some (requester_in self) }
    {
        self.stands != 0
    }

    /// The requester.
    #[inline(always)]
    pub fn requester(self) -> Option<RequesterRow>
        ensures { result ≡ requester_in self }
    {
        if self.stands == 0 {
            return None;
        }
        let release = if self.is_done == 0 {
            Release::Request
        } else {
            Release::Done { burst: self.burst }
        };
        Some(RequesterRow {
            level: self.level,
            release,
        })
    }
}

impl InterrupterRecord {
    /// An interrupter as numbers.
    fn of(interrupter: Option<InterrupterRow>) -> InterrupterRecord
        ensures { interrupter_in result ≡ interrupter }
    {
        match interrupter {
            None => InterrupterRecord {
                stands: 0,
                level: 0,
                is_rora: 0,
                status: 0,
            },
            Some(row) => InterrupterRecord {
                stands: 1,
                level: row.level,
                is_rora: match row.kind {
                    IrqKind::Roak => 0,
                    IrqKind::Rora => 1,
                },
                status: row.status,
            },
        }
    }

    /// Whether there is one.
    #[inline(always)]
    pub fn is_some(self) -> bool
        ensures { result ≡ is_some (interrupter_in self) }
    {
        self.stands != 0
    }

    /// The interrupter.
    #[inline(always)]
    pub fn interrupter(self) -> Option<InterrupterRow>
        ensures { result ≡ interrupter_in self }
    {
        if self.stands == 0 {
            return None;
        }
        let kind = if self.is_rora == 0 {
            IrqKind::Roak
        } else {
            IrqKind::Rora
        };
        Some(InterrupterRow {
            level: self.level,
            kind,
            status: self.status,
        })
    }
}

impl SeatRecord {
    /// What stands in a slot, as numbers.
    pub fn of(seat: Option<Seat>) -> SeatRecord
        ensures { seat_in result ≡ seat }
    {
        match seat {
            None => SeatRecord {
                stands: 0,
                slot: 0,
                requester: RequesterRecord::of(None),
                interrupter: InterrupterRecord::of(None),
                handler: 0,
                grant_source: 0,
                acknowledge_source: 0,
            },
            Some(seat) => SeatRecord {
                stands: 1,
                slot: seat.row.slot,
                requester: RequesterRecord::of(seat.row.requester),
                interrupter: InterrupterRecord::of(seat.row.interrupter),
                handler: seat.row.handler.bits(),
                grant_source: seat.grant_source,
                acknowledge_source: seat.acknowledge_source,
            },
        }
    }

    /// The levels that the board handles.
    #[inline(always)]
    pub fn handler(&self) -> Levels
        ensures { result ≡ record { 0 = self.now.handler } }
    {
        Levels::from_bits_retain(self.handler)
    }

    /// What stands in the slot.
    #[inline]
    pub fn seat(self) -> Option<Seat>
        ensures { result ≡ seat_in self }
    {
        if self.stands == 0 {
            return None;
        }
        Some(Seat {
            row: Row {
                slot: self.slot,
                requester: self.requester.requester(),
                interrupter: self.interrupter.interrupter(),
                handler: Levels::from_bits_retain(self.handler),
            },
            grant_source: self.grant_source,
            acknowledge_source: self.acknowledge_source,
        })
    }
}
