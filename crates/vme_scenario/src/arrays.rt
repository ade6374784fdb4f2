//! Arrays of tables, for boards and jumpers.
ghost use Rattle.std.specs.Prelude.{◌≡◌, Some, Ok, IfOk, IfErr, [], option_map, codes};
ghost use Rattle.toml.specs.View.{view, table_view};
ghost use Rattle.vme_scenario.specs.Borrowed.{IsFaultOf, table_views};
ghost use Rattle.vme_scenario.specs.Format as format;
ghost use Rattle.vme_scenario.specs.Values as values;

use crate::boards::board;
use crate::faults::{KeyFault, TextFault};
use crate::jumpers::jumper;
use crate::tables::{needed_value, value_at};
use std::alloc::{AllocError, Global};
use toml::{Table, Value};
use vme_model::{Jumper, Row};

/// The tables of an array; none if the value is not an array of tables.
fn tables<'a>(alloc: Global, value: &'a Value) -> Result<Option<Vec<&'a Table>>, AllocError>
    ensures { IfOk result
        (λ ts. option_map (λ v. table_views v.items) ts ≡ values.tables (view value.now)) }
{
    let Some(items) = value.as_array() else {
        return Ok(None);
    };
    let mut tables = Vec::with_capacity(alloc, items.len())?;
    for item in items {
        match item.as_table() {
            Some(table) => tables.push(table)?,
            None => return Ok(None),
        }
    }
    Ok(Some(tables))
}

/// The tables of the boards. The key has to be there.
pub(crate) fn board_tables<'a>(
    alloc: Global,
    table: &'a Table,
) -> Result<Vec<&'a Table>, TextFault<'a>>
    ensures ok { IfOk result
        (λ v. format.needed (codes "board") values.tables (table_view table.now)
        ≡ Ok (table_views v.items)) }
    ensures fault { IfErr result
        (IsFaultOf (format.needed (codes "board") values.tables (table_view table.now))) }
{
    let value = needed_value(table, "board").map_err(TextFault::Top)?;
    tables(alloc, value)?.ok_or(TextFault::Top(KeyFault::Bad("board")))
}

/// The tables of the jumpers. The key may be absent.
pub(crate) fn jumper_tables<'a>(
    alloc: Global,
    table: &'a Table,
) -> Result<Vec<&'a Table>, TextFault<'a>>
    ensures ok { IfOk result
        (λ v. format.optional [] (codes "jumper") values.tables (table_view table.now)
        ≡ Ok (table_views v.items)) }
    ensures fault { IfErr result
        (IsFaultOf (format.optional [] (codes "jumper") values.tables (table_view table.now))) }
{
    match value_at(table, "jumper") {
        None => Ok(Vec::new(alloc)),
        Some(value) => tables(alloc, value)?.ok_or(TextFault::Top(KeyFault::Bad("jumper"))),
    }
}

/// The boards that the tables describe, in their order.
pub(crate) fn boards<'a>(alloc: Global, tables: &[&'a Table]) -> Result<Vec<Row>, TextFault<'a>>
    ensures ok { IfOk result
        (λ rows. format.each (codes "board") format.board 1 (table_views tables.now)
        ≡ Ok rows.items) }
    ensures fault { IfErr result
        (IsFaultOf (format.each (codes "board") format.board 1 (table_views tables.now))) }
{
    let mut rows = Vec::with_capacity(alloc, tables.len())?;
    for (index, table) in tables.iter().enumerate() {
        match board(table) {
            Ok(row) => rows.push(row)?,
            Err(fault) => return Err(TextFault::Board(index + 1, fault)),
        }
    }
    Ok(rows)
}

/// The jumpers that the tables describe, in their order.
pub(crate) fn jumpers<'a>(alloc: Global, tables: &[&'a Table]) -> Result<Vec<Jumper>, TextFault<'a>>
    ensures ok { IfOk result
        (λ jumpers. format.each (codes "jumper") format.jumper 1 (table_views tables.now)
        ≡ Ok jumpers.items) }
    ensures fault { IfErr result
        (IsFaultOf (format.each (codes "jumper") format.jumper 1 (table_views tables.now))) }
{
    let mut jumpers = Vec::with_capacity(alloc, tables.len())?;
    for (index, table) in tables.iter().enumerate() {
        match jumper(table) {
            Ok(jumper) => jumpers.push(jumper)?,
            Err(fault) => return Err(TextFault::Jumper(index + 1, fault)),
        }
    }
    Ok(jumpers)
}
