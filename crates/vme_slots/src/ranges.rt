//! Which field of a row or a jumper is out of range (P8).
ghost use Rattle.std.specs.Prelude.{◌≡◌, map};
ghost use Rattle.vme_model.specs.Signals.{is_level};
ghost use Rattle.vme_model.specs.Accepted.{first_of, row_range, jumper_range, is_within, has_no_burst};

use bitflags::Flags;
use vme_model::{Field, Jumper, Release, Row};

/// The first field that is out of range, row by row (P8). Source: profile.
pub fn rows_range(slots: u8, rows: &[Row]) -> Option<Field>
    ensures { result ≡ first_of (map (row_range slots) rows.now) }
{
    for row in rows {
        if let Some(field) = row_range(slots, row) {
            return Some(field);
        }
    }
    None
}

/// The first field that is out of range, jumper by jumper (P8). Source: profile.
pub fn jumpers_range(slots: u8, jumpers: &[Jumper]) -> Option<Field>
    ensures { result ≡ first_of (map (jumper_range slots) jumpers.now) }
{
    for jumper in jumpers {
        if let Some(field) = jumper_range(slots, jumper) {
            return Some(field);
        }
    }
    None
}

/// The first field of a row that is out of range.
fn row_range(slots: u8, row: &Row) -> Option<Field>
    ensures { result ≡ row_range slots row.now }
{
    if !is_within(slots, row.slot) {
        Some(Field::Slot)
    } else if row.requester.is_some_and(|requester| requester.level > 3) {
        Some(Field::RequesterLevel)
    } else if row
        .requester
        .is_some_and(|requester| has_no_burst(requester.release))
    {
        Some(Field::RequesterBurst)
    } else if row
        .interrupter
        .is_some_and(|interrupter| !is_level(interrupter.level))
    {
        Some(Field::InterrupterLevel)
    } else if row.handler.bits() > 0b111_1111 {
        Some(Field::Handler)
    } else {
        None
    }
}

/// The first field of a jumper that is out of range.
fn jumper_range(slots: u8, jumper: &Jumper) -> Option<Field>
    ensures { result ≡ jumper_range slots jumper.now }
{
    if !is_within(slots, jumper.slot) {
        Some(Field::JumperSlot)
    } else if jumper.chains.bits() > 0b1_1111 {
        Some(Field::JumperChains)
    } else {
        None
    }
}

/// Whether the slot is one of 1 to `slots`.
fn is_within(slots: u8, slot: u8) -> bool
    ensures { result ≡ is_within slots slot }
{
    (1..=slots).contains(&slot)
}

/// Whether the level is one of IRQ1* to IRQ7*.
fn is_level(level: u8) -> bool
    ensures { result ≡ is_level level }
{
    (1..=7).contains(&level)
}

/// Whether the requester's master may make no cycle at all.
fn has_no_burst(release: Release) -> bool
    ensures { result ≡ has_no_burst release }
{
    matches!(release, Release::Done { burst: 0 })
}
