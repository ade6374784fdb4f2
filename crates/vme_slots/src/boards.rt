//! Boards and jumpers found by their slot, and boards by the chains that they work and the levels
//! that they handle.
ghost use Rattle.std.specs.Prelude.{◌≡◌, ◌==◌, IfOk, length, filter, count_by};
ghost use Rattle.std.specs.Option.{option_copied};
ghost use Rattle.vme_model.specs.Sets.{has_level};
ghost use Rattle.vme_model.specs.Plan.{row_in, up_to, is_active};

use std::alloc::{AllocError, Global};
use vme_model::{ChainId, Jumper, Row};

/// The first board that names the slot, if there is one.
pub fn row_in(rows: &[Row], slot: u8) -> Option<&Row>
    ensures { option_copied result ≡ row_in rows.now slot }
{
    rows.iter().find(|row| row.slot == slot)
}

/// How many boards name the slot. A plan has a fault (P3) if it is more than one.
pub fn rows_of(rows: &[Row], slot: u8) -> usize
    ensures { result ≡ count_by (λ r. r.slot == slot) rows.now }
{
    rows.iter().filter(|row| row.slot == slot).count()
}

/// How many jumpers name the slot. A plan has a fault (P3) if it is more than one.
pub fn jumpers_of(jumpers: &[Jumper], slot: u8) -> usize
    ensures { result ≡ count_by (λ j. j.slot == slot) jumpers.now }
{
    jumpers.iter().filter(|jumper| jumper.slot == slot).count()
}

/// How many boards handle the interrupt level, 1 to 7. Source: Std 1014, chapter 4 (P6, at most
/// one).
pub fn handlers_of(rows: &[Row], level: u8) -> usize
    ensures { result ≡ length (filter (λ r. has_level r.handler level) rows.now) }
{
    rows.iter().filter(|row| row.handler.has(level)).count()
}

/// Whether a board in the slot works the chain.
fn is_active(rows: &[Row], chain: ChainId, slot: u8) -> bool
    ensures { result ≡ is_active rows.now chain slot }
{
    row_in(rows, slot).is_some_and(|row| row.works(chain))
}

/// The slots from 1 to `slots` whose board works the chain, ascending. Source: Std 1014, chapters 3
/// and 4.
///
/// # Errors
/// `AllocError` if memory runs out.
pub fn active_slots(
    alloc: Global,
    slots: u8,
    rows: &[Row],
    chain: ChainId,
) -> Result<Vec<u8>, AllocError>
    ensures { IfOk result (λ v. v.items ≡ filter (is_active rows.now chain) (up_to slots)) }
{
    let mut active = Vec::new(alloc);
    for below in 0..slots {
        let slot = below + 1;
        if is_active(rows, chain, slot) {
            active.push(slot)?;
        }
    }
    Ok(active)
}
