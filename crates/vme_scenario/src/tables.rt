//! The keys of one table.
ghost use Rattle.std.specs.Prelude.{◌≡◌, None, Some, Ok, IfOk, IfErr, map, option_map};
ghost use Rattle.std.specs.Result.{result_map_both};
ghost use Rattle.std.specs.List.{list_any};
ghost use Rattle.std.specs.Str.{bytes_eq};
ghost use Rattle.toml.specs.Data.{get_member};
ghost use Rattle.toml.specs.View.{view, table_view};
ghost use Rattle.vme_scenario.specs.Borrowed.{keyed, at_key};
ghost use Rattle.vme_scenario.specs.Faults.{missing};
ghost use Rattle.vme_scenario.specs.Format.{only, needed, part};
ghost use Rattle.vme_scenario.specs.Values as values;

use crate::faults::KeyFault;
use crate::values::byte;
use toml::{Table, Value};

/// The value at a key, if there is one.
pub(crate) fn value_at<'a>(table: &'a Table, key: &str) -> Option<&'a Value>
    ensures { option_map (λ v. view v.now) result ≡ get_member key.now (table_view table.now) }
{
    table.get(key)
}

/// The value at a key that is required.
pub(crate) fn needed_value<'a>(
    table: &'a Table,
    key: &'static str,
) -> Result<&'a Value, KeyFault<'a>>
    ensures found { IfOk result
        (λ v. get_member key.now (table_view table.now) ≡ Some (view v.now)) }
    ensures absent { IfErr result (λ _. get_member key.now (table_view table.now) ≡ None) }
    ensures fault { IfErr result (λ f. at_key f ≡ missing key.now) }
{
    value_at(table, key).ok_or(KeyFault::Missing(key))
}

/// The whole number, 0 to 255, at a key that is required.
pub(crate) fn needed_byte<'a>(table: &'a Table, key: &'static str) -> Result<u8, KeyFault<'a>>
    ensures { keyed result ≡ needed key.now values.byte (table_view table.now) }
{
    byte(needed_value(table, key)?).ok_or(KeyFault::Bad(key))
}

fn is_among(key: &str, keys: &[&str]) -> bool
    ensures { result ≡ list_any (bytes_eq key.now) (map (λ k. k.now) keys.now) }
{
    for known in keys {
        if key == *known {
            return true;
        }
    }
    false
}

/// An error with the least unknown key by bytes, if the table has a key that is not in the list.
pub(crate) fn only<'a>(table: &'a Table, keys: &[&str]) -> Result<(), KeyFault<'a>>
    ensures { keyed result ≡ only (map (λ k. k.now) keys.now) (table_view table.now) }
{
    for (key, _) in table.iter() {
        if !is_among(key.as_str(), keys) {
            return Err(KeyFault::Unknown(key.as_str()));
        }
    }
    Ok(())
}

/// The table at a key that may be absent.
pub(crate) fn part_at<'a>(
    table: &'a Table,
    key: &'static str,
) -> Result<Option<&'a Table>, KeyFault<'a>>
    ensures { result_map_both (option_map (λ t. table_view t.now)) at_key result
        ≡ part key.now (λ ms. Ok ms) (table_view table.now) }
{
    match value_at(table, key) {
        None => Ok(None),
        Some(value) => match value.as_table() {
            Some(inner) => Ok(Some(inner)),
            None => Err(KeyFault::Bad(key)),
        },
    }
}
