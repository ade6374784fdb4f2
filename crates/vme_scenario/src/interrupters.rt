//! Reads a board's interrupter.
ghost use Rattle.std.specs.Prelude.{◌≡◌, codes};
ghost use Rattle.toml.specs.View.{table_view};
ghost use Rattle.vme_scenario.specs.Borrowed.{keyed};
ghost use Rattle.vme_scenario.specs.Format as format;
ghost use Rattle.vme_scenario.specs.Values as values;

use crate::faults::KeyFault;
use crate::tables::{needed_byte, needed_value, only};
use crate::values::interrupter_kind;
use toml::Table;
use vme_model::{InterrupterRow, IrqKind};

fn kind(table: &Table) -> Result<IrqKind, KeyFault<'_>>
    ensures { keyed result
        ≡ format.needed (codes "kind") values.interrupter_kind (table_view table.now) }
{
    interrupter_kind(needed_value(table, "kind")?).ok_or(KeyFault::Bad("kind"))
}

/// The interrupter that a table describes.
#[tactic(auto, unfolding(crate::specs::Format::interrupter))]
pub(crate) fn interrupter(table: &Table) -> Result<InterrupterRow, KeyFault<'_>>
    ensures { keyed result ≡ format.interrupter (table_view table.now) }
{
    only(table, &["level", "kind", "status"])?;
    let level = needed_byte(table, "level")?;
    let kind = kind(table)?;
    let status = needed_byte(table, "status")?;
    Ok(InterrupterRow {
        level,
        kind,
        status,
    })
}
