//! Reads a board.
ghost use Rattle.std.specs.Prelude.{◌≡◌, codes};
ghost use Rattle.toml.specs.View.{table_view};
ghost use Rattle.vme_model.specs.Sets.{no_levels};
ghost use Rattle.vme_scenario.specs.Borrowed.{keyed, boarded};
ghost use Rattle.vme_scenario.specs.Format as format;
ghost use Rattle.vme_scenario.specs.Values as values;

use crate::faults::{BoardFault, KeyFault};
use crate::interrupters::interrupter as interrupter_row;
use crate::requesters::requester as requester_row;
use crate::tables::{needed_byte, only, part_at, value_at};
use crate::values::levels;
use bitflags::Flags;
use toml::Table;
use vme_model::{InterrupterRow, Levels, RequesterRow, Row};

fn requester(table: &Table) -> Result<Option<RequesterRow>, BoardFault<'_>>
    ensures { boarded result
        ≡ format.part (codes "requester") format.requester (table_view table.now) }
{
    match part_at(table, "requester").map_err(BoardFault::Board)? {
        None => Ok(None),
        Some(part) => match requester_row(part) {
            Ok(row) => Ok(Some(row)),
            Err(fault) => Err(BoardFault::Requester(fault)),
        },
    }
}

fn interrupter(table: &Table) -> Result<Option<InterrupterRow>, BoardFault<'_>>
    ensures { boarded result
        ≡ format.part (codes "interrupter") format.interrupter (table_view table.now) }
{
    match part_at(table, "interrupter").map_err(BoardFault::Board)? {
        None => Ok(None),
        Some(part) => match interrupter_row(part) {
            Ok(row) => Ok(Some(row)),
            Err(fault) => Err(BoardFault::Interrupter(fault)),
        },
    }
}

fn handler(table: &Table) -> Result<Levels, KeyFault<'_>>
    ensures { keyed result
        ≡ format.optional no_levels (codes "handler") values.levels (table_view table.now) }
{
    match value_at(table, "handler") {
        None => Ok(Levels::empty()),
        Some(value) => levels(value).ok_or(KeyFault::Bad("handler")),
    }
}

/// The board that a table describes.
#[tactic(auto, unfolding(crate::specs::Format::board))]
pub(crate) fn board(table: &Table) -> Result<Row, BoardFault<'_>>
    ensures { boarded result ≡ format.board (table_view table.now) }
{
    only(table, &["slot", "requester", "interrupter", "handler"]).map_err(BoardFault::Board)?;
    let slot = needed_byte(table, "slot").map_err(BoardFault::Board)?;
    let requester = requester(table)?;
    let interrupter = interrupter(table)?;
    let handler = handler(table).map_err(BoardFault::Board)?;
    Ok(Row {
        slot,
        requester,
        interrupter,
        handler,
    })
}
