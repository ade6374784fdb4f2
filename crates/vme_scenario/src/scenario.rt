//! A scenario, from its text to its plan.
ghost use Rattle.std.specs.Prelude.{◌≡◌, Some, Ok, IfOk, IfErr, codes};
ghost use Rattle.toml.specs.View.{table_view};
ghost use Rattle.vme_scenario.specs.Borrowed.{keyed, drafted, IsFaultOf};
ghost use Rattle.vme_scenario.specs.Errors.{IsErrorOf};
ghost use Rattle.vme_scenario.specs.Format as format;
ghost use Rattle.vme_scenario.specs.Values as values;

use crate::arrays::{board_tables, boards, jumper_tables, jumpers};
use crate::depth::is_shallow;
use crate::errors::{ScenarioError, error_of};
use crate::faults::{KeyFault, TextFault};
use crate::tables::{needed_byte, needed_value, only};
use crate::values::arbiter as arbiter_kind;
use std::alloc::Global;
use toml::Table;
use vme_model::{ArbiterKind, Jumper, Row};
use vme_slots::Plan;

/// What a scenario's text says: its plan.
#[derive(Drop)]
pub struct Scenario {
    pub plan: Plan,
}

/// A plan before it is judged.
#[derive(Drop)]
struct Draft {
    slots: u8,
    arbiter: ArbiterKind,
    rows: Vec<Row>,
    jumpers: Vec<Jumper>,
}

/// The top table of a text.
fn document(alloc: Global, text: &[u8]) -> Result<Table, ScenarioError>
    ensures ok { IfOk result (λ t. values.document text.now ≡ Some (table_view t)) }
    ensures fault { IfErr result (IsErrorOf (format.read_as (values.document text.now))) }
{
    if !is_shallow(text) {
        return Err(ScenarioError::NotToml);
    }
    let Ok(text) = str::from_utf8(text) else {
        return Err(ScenarioError::NotToml);
    };
    match toml::table_from_str(alloc, text) {
        Ok(table) => Ok(table),
        Err(error) if error.is_memory() => Err(ScenarioError::Memory),
        Err(_) => Err(ScenarioError::NotToml),
    }
}

fn arbiter(table: &Table) -> Result<ArbiterKind, KeyFault<'_>>
    ensures { keyed result ≡ format.needed (codes "arbiter") values.arbiter (table_view table.now) }
{
    arbiter_kind(needed_value(table, "arbiter")?).ok_or(KeyFault::Bad("arbiter"))
}

/// What the top table and the tables inside it say.
#[tactic(auto, unfolding(crate::specs::Format::contents))]
fn contents(alloc: Global, table: &Table) -> Result<Draft, TextFault<'_>>
    ensures ok { IfOk result (λ d. format.contents (table_view table.now) ≡ Ok (drafted d)) }
    ensures fault { IfErr result (IsFaultOf (format.contents (table_view table.now))) }
{
    only(table, &["slots", "arbiter", "board", "jumper"]).map_err(TextFault::Top)?;
    let slots = needed_byte(table, "slots").map_err(TextFault::Top)?;
    let arbiter = arbiter(table).map_err(TextFault::Top)?;
    let board_tables = board_tables(alloc, table)?;
    let jumper_tables = jumper_tables(alloc, table)?;
    let rows = boards(alloc, board_tables.as_slice())?;
    let jumpers = jumpers(alloc, jumper_tables.as_slice())?;
    Ok(Draft {
        slots,
        arbiter,
        rows,
        jumpers,
    })
}

/// The scenario of a draft, if its plan is accepted.
fn judged(alloc: Global, draft: Draft) -> Result<Scenario, ScenarioError>
    ensures ok { IfOk result (λ s. format.accepted (drafted draft) ≡ Ok s.plan) }
    ensures fault { IfErr result (IsErrorOf (format.accepted (drafted draft))) }
{
    let plan = Plan::new(
        alloc,
        draft.slots,
        draft.rows.as_slice(),
        draft.jumpers.as_slice(),
        draft.arbiter,
    )
    .map_err(ScenarioError::Plan)?;
    Ok(Scenario { plan })
}

/// Reads a scenario: TOML with the keys `slots`, `arbiter`, `board` and `jumper`. docs/TRACES.md
/// describes it.
///
/// # Errors
/// The first thing that is wrong: the text as a whole (Q1), then the keys of the top table, then
/// board by board, then jumper by jumper (Q2 to Q4), then the plan (P1 to P8). If memory runs out,
/// Q6 or P9 may be returned in place of any of them.
pub fn read(alloc: Global, text: &[u8]) -> Result<Scenario, ScenarioError>
    ensures ok { IfOk result (λ s. format.scenario text.now ≡ Ok s.plan) }
    ensures fault { IfErr result (IsErrorOf (format.scenario text.now)) }
{
    let table = document(alloc, text)?;
    match contents(alloc, &table) {
        Ok(draft) => judged(alloc, draft),
        Err(fault) => Err(error_of(alloc, fault).unwrap_or(ScenarioError::Memory)),
    }
}
