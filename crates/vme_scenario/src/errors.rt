//! Why a scenario is refused.
ghost use Rattle.std.specs.Prelude.{◌≡◌, Result, Err, IfOk, codes, decimal, string_bytes};
ghost use Rattle.vme_model.specs.Plan.{Plan};
ghost use Rattle.vme_scenario.specs.Borrowed.{key_of, moved_to, in_board, IsFaultOf};
ghost use Rattle.vme_scenario.specs.Errors.{IsErrorOf};
ghost use Rattle.vme_scenario.specs.Faults.{Fault, path, below};

use crate::faults::{BoardFault, KeyFault, TextFault};
use std::alloc::{AllocError, Global};
use std::fmt;
use thiserror::Error;
use vme_model::PlanError;

/// The most characters of a key that are printed.
const MOST_TOLD: usize = 200;

/// A key as users see it: after 200 characters a longer one ends with `..`.
#[derive(Clone, Copy)]
struct Quoted<'a>(&'a str);

impl fmt::Display for Quoted<'_> {
    fn fmt<W: fmt::Write>(&self, f: &mut fmt::Formatter<W>) -> fmt::Result {
        for (count, c) in self.0.chars().enumerate() {
            if count == MOST_TOLD {
                return f.write_str("..");
            }
            f.write_char(c)?;
        }
        Ok(())
    }
}

/// Why a text is not a scenario, by the numbers that users see. docs/FAULTS.md lists them.
///
/// A key is its path from the top table, with the number of a board or jumper from 1, such as
/// `board.2.requester.level`. The text of the error has at most 200 characters of it, and then
/// `..`.
#[derive(PartialEq, Eq, Debug, Drop, Error)]
pub enum ScenarioError {
    /// Q1: the text is not UTF-8, or not TOML.
    #[error("Q1 the scenario is not TOML")]
    NotToml,
    /// Q2: the format has no such key. If a table has several, it is the least one by bytes.
    #[error("Q2 unknown key {}", Quoted(.key.as_str()))]
    UnknownKey { key: String },
    #[error("Q3 missing key {}", Quoted(.key.as_str()))]
    Missing { key: String },
    /// Q4: the value is of another kind, is a word that is not in the list, or is out of range.
    #[error("Q4 bad value of {}", Quoted(.key.as_str()))]
    BadValue { key: String },
    /// P1 to P9: the scenario can be read, but its plan is refused.
    #[error("{0}")]
    Plan(PlanError),
    #[error("Q6 no memory")]
    Memory,
}

/// The key of a fault, without the path of its table.
fn key_of<'a>(fault: KeyFault<'a>) -> &'a str
    ensures { result.now ≡ key_of fault.entry }
{
    match fault {
        KeyFault::Unknown(key) => key,
        KeyFault::Missing(key) => key,
        KeyFault::Bad(key) => key,
    }
}

/// The error of a fault, given the path of its key.
fn at_path(fault: KeyFault<'_>, key: String) -> ScenarioError
    ensures { (r : Result Plan Fault) → r ≡ Err (moved_to (string_bytes key) fault.entry)
        → IsErrorOf r result }
{
    match fault {
        KeyFault::Unknown(_) => ScenarioError::UnknownKey { key },
        KeyFault::Missing(_) => ScenarioError::Missing { key },
        KeyFault::Bad(_) => ScenarioError::BadValue { key },
    }
}

/// The path of a key of a board or jumper.
fn item_path(alloc: Global, array: &str, number: usize, key: &str) -> Result<String, AllocError>
    ensures { IfOk result (λ s. string_bytes s ≡ path (path array.now (decimal number)) key.now) }
{
    format!(in alloc; "{array}.{number}.{key}")
}

/// The path of a key of a board's requester or interrupter.
fn part_path(alloc: Global, number: usize, part: &str, key: &str) -> Result<String, AllocError>
    ensures { IfOk result (λ s. string_bytes s
        ≡ path (path (codes "board") (decimal number)) (path part.now key.now)) }
{
    format!(in alloc; "board.{number}.{part}.{key}")
}

/// The path of the key of a fault in a board, and the fault at the key.
fn board_path<'a>(
    alloc: Global,
    number: usize,
    fault: BoardFault<'a>,
) -> Result<(String, KeyFault<'a>), AllocError>
    ensures { IfOk result (λ at.
        below (path (codes "board") (decimal number)) (in_board fault.entry)
        ≡ moved_to (string_bytes at.0) at.1) }
{
    match fault {
        BoardFault::Board(fault) => {
            Ok((item_path(alloc, "board", number, key_of(fault))?, fault))
        }
        BoardFault::Requester(fault) => {
            Ok((part_path(alloc, number, "requester", key_of(fault))?, fault))
        }
        BoardFault::Interrupter(fault) => {
            Ok((
                part_path(alloc, number, "interrupter", key_of(fault))?,
                fault,
            ))
        }
    }
}

/// The error of a fault, with its key as a path from the top table.
pub(crate) fn error_of(alloc: Global, fault: TextFault<'_>) -> Result<ScenarioError, AllocError>
    ensures { IfOk result (λ e. (r : Result Plan Fault) → IsFaultOf r fault.entry → IsErrorOf r e) }
{
    match fault {
        TextFault::Top(fault) => {
            let key = String::from_str(alloc, key_of(fault))?;
            Ok(at_path(fault, key))
        }
        TextFault::Board(number, fault) => {
            let (key, fault) = board_path(alloc, number, fault)?;
            Ok(at_path(fault, key))
        }
        TextFault::Jumper(number, fault) => {
            let key = item_path(alloc, "jumper", number, key_of(fault))?;
            Ok(at_path(fault, key))
        }
        TextFault::Memory => Ok(ScenarioError::Memory),
    }
}
