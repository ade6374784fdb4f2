//! Reads the jumpers of an empty slot.
ghost use Rattle.std.specs.Prelude.{◌≡◌, codes};
ghost use Rattle.toml.specs.View.{table_view};
ghost use Rattle.vme_scenario.specs.Borrowed.{keyed};
ghost use Rattle.vme_scenario.specs.Format as format;
ghost use Rattle.vme_scenario.specs.Values as values;

use crate::faults::KeyFault;
use crate::tables::{needed_byte, needed_value, only};
use crate::values::chains as chain_set;
use toml::Table;
use vme_model::{Chains, Jumper};

fn chains(table: &Table) -> Result<Chains, KeyFault<'_>>
    ensures { keyed result ≡ format.needed (codes "chains") values.chains (table_view table.now) }
{
    chain_set(needed_value(table, "chains")?).ok_or(KeyFault::Bad("chains"))
}

/// The jumpers that a table describes.
#[tactic(auto, unfolding(crate::specs::Format::jumper))]
pub(crate) fn jumper(table: &Table) -> Result<Jumper, KeyFault<'_>>
    ensures { keyed result ≡ format.jumper (table_view table.now) }
{
    only(table, &["slot", "chains"])?;
    let slot = needed_byte(table, "slot")?;
    let chains = chains(table)?;
    Ok(Jumper { slot, chains })
}
