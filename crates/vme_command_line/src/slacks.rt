//! What `--slack` names.
ghost use Rattle.std.specs.Prelude.{MatchOption};
ghost use Rattle.vme_command_line.specs.Naming.{IsOnlyDriver, IsOnlyLate, NameApart, NameNoneApart, NamesNoDriver, NamesNoLate, NamesNone, NamesOne};
ghost use Rattle.vme_command_line.specs.Slacks.{AreSlacks, NameNoSlacks};

use crate::seed_in;
use vme_model::Driver;
use vme_moments::{Slacks, number_of};

/// The driver of this name.
fn driver_in(name: &str) -> Option<Driver>
    ensures { MatchOption result (NamesNoDriver name.now) (IsOnlyDriver name.now) }
{
    if name == "c" {
        return Some(Driver::Controller);
    }
    let slot = number_of(name.as_bytes())?;
    if slot < 1 || slot > 21 {
        return None;
    }
    Some(Driver::Slot(slot as u8))
}

/// The driver that a text such as `c=2` names, and its slack.
fn late_in(text: &str) -> Option<(Driver, u64)>
    ensures { MatchOption result (NamesNoLate text.now)
        (λ late. IsOnlyLate text.now (record { driver = late.0; slack = late.1 })) }
{
    let (name, number) = text.split_once('=')?;
    let driver = driver_in(name)?;
    let slack = seed_in(number)?;
    Some((driver, slack))
}

/// Names one more driver with its slack, unless it is named already.
fn name_one(slacks: &mut Slacks, text: &str) -> Option<()>
    ensures { MatchOption result (NamesNone slacks.old text.now)
        (λ _. NamesOne slacks.old text.now slacks.new) }
{
    let (driver, slack) = late_in(text)?;
    if slacks.names(driver) {
        return None;
    }
    slacks.set(driver, slack);
    Some(())
}

/// The slacks of drivers that a text names with a slack each. The others have none.
fn each_in(text: &str) -> Option<Slacks>
    ensures { MatchOption result (NameNoneApart text.now) (NameApart text.now) }
{
    let mut slacks = Slacks::all(0);
    let mut rest = text;
    'parts: while let Some((first, others)) = rest.split_once(',') {
        name_one(&mut slacks, first)?;
        rest = others;
    }
    name_one(&mut slacks, rest)?;
    Some(slacks)
}

/// The slacks that a text names: a number for all drivers, or a list of drivers with a number each.
pub(crate) fn slacks_in(text: &str) -> Option<Slacks>
    ensures { MatchOption result (NameNoSlacks text.now) (AreSlacks text.now) }
{
    match seed_in(text) {
        Some(slack) => Some(Slacks::all(slack)),
        None => each_in(text),
    }
}
