//! Reads a board's requester.
ghost use Rattle.std.specs.Prelude.{◌≡◌, codes};
ghost use Rattle.toml.specs.View.{table_view};
ghost use Rattle.vme_scenario.specs.Borrowed.{keyed};
ghost use Rattle.vme_scenario.specs.Format as format;
ghost use Rattle.vme_scenario.specs.Values as values;

use crate::faults::KeyFault;
use crate::tables::{needed_byte, needed_value, only};
use crate::values::releases_when_done;
use toml::Table;
use vme_model::{Release, RequesterRow};

fn when_done(table: &Table) -> Result<bool, KeyFault<'_>>
    ensures { keyed result
        ≡ format.needed (codes "release") values.releases_when_done (table_view table.now) }
{
    releases_when_done(needed_value(table, "release")?).ok_or(KeyFault::Bad("release"))
}

fn only_keys(when_done: bool, table: &Table) -> Result<(), KeyFault<'_>>
    ensures { keyed result ≡ format.only (format.requester_keys when_done) (table_view table.now) }
{
    if when_done {
        only(table, &["level", "release", "burst"])
    } else {
        only(table, &["level", "release"])
    }
}

fn release(when_done: bool, table: &Table) -> Result<Release, KeyFault<'_>>
    ensures { keyed result ≡ format.release when_done (table_view table.now) }
{
    if !when_done {
        return Ok(Release::Request);
    }
    let burst = needed_byte(table, "burst")?;
    Ok(Release::Done { burst })
}

/// The requester that a table describes.
#[tactic(auto, unfolding(crate::specs::Format::requester))]
pub(crate) fn requester(table: &Table) -> Result<RequesterRow, KeyFault<'_>>
    ensures { keyed result ≡ format.requester (table_view table.now) }
{
    let when_done = when_done(table)?;
    only_keys(when_done, table)?;
    let level = needed_byte(table, "level")?;
    let release = release(when_done, table)?;
    Ok(RequesterRow { level, release })
}
