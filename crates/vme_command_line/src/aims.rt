//! The goal that `--until`, `--of` and `--after` name.
ghost use Rattle.std.specs.Prelude.{◌≡◌, IfErr, IfOk, MatchOption, Some, codes};
ghost use Rattle.clap.specs.Words.{found_of, rows_of};
ghost use Rattle.vme_command_line.specs.Aims.{IsNameOf, NamesNobody};
ghost use Rattle.vme_command_line.specs.Asked.{IsAim, IsGoal, IsOnly, spelled, version_number};
ghost use Rattle.vme_command_line.specs.Unfits.{IsUnfit};

use crate::alone::aim_named;
use crate::{Unfit, seed_in, text_of, whole_of};
use clap::ArgMatches;
use vme_goals::{Aim, Goal, aim_of as any_aim};
use vme_model::{Driver, Version};

/// The aim that `--until` names, among all that a trace can reach in that version of the rules;
/// none if the option is not given.
fn aim_of<'a>(operands: &ArgMatches<'a>, version: Version) -> Result<Option<Aim>, Unfit<'a>>
    ensures aim { IfOk result (IsAim (rows_of (found_of operands.now)) version) }
    ensures unfit { spelled (codes "version") (rows_of (found_of operands.now))
        ≡ Some (version_number version)
        → IfErr result (IsUnfit (codes "drive") (rows_of (found_of operands.now))) }
{
    match text_of(operands, "until") {
        None => Ok(None),
        Some(named) => match aim_named(named, version) {
            Some(aim) => Ok(Some(aim)),
            None if any_aim(named, version).is_some() => Err(Unfit::Beside { named }),
            None => Err(Unfit::Event { named, version }),
        },
    }
}

/// The driver of this name: `c`, or the number of a slot in any spelling.
fn driver_in(text: &str) -> Option<Driver>
    ensures { MatchOption result (NamesNobody text.now) (λ d. IsNameOf text.now d) }
{
    if text == "c" {
        return Some(Driver::Controller);
    }
    let slot = seed_in(text)?;
    if slot < 1 || slot > 21 {
        return None;
    }
    Some(Driver::Slot(slot as u8))
}

/// The driver that `--of` names; none if the option is not given.
fn only_of<'a>(operands: &ArgMatches<'a>) -> Result<Option<Driver>, Unfit<'a>>
    ensures only { IfOk result (IsOnly (rows_of (found_of operands.now))) }
    ensures unfit { IfErr result (IsUnfit (codes "drive") (rows_of (found_of operands.now))) }
{
    match text_of(operands, "of") {
        None => Ok(None),
        Some(named) => match driver_in(named) {
            Some(driver) => Ok(Some(driver)),
            None => Err(Unfit::Driver { named }),
        },
    }
}

/// The goal that `--until` names with `--of` and `--after`; none if `--until` is not given, and
/// then neither of the others is.
pub(crate) fn goal_of<'a>(
    operands: &ArgMatches<'a>,
    version: Version,
) -> Result<Option<Goal>, Unfit<'a>>
    ensures goal { IfOk result (IsGoal (rows_of (found_of operands.now)) version) }
    ensures unfit { spelled (codes "version") (rows_of (found_of operands.now))
        ≡ Some (version_number version)
        → IfErr result (IsUnfit (codes "drive") (rows_of (found_of operands.now))) }
{
    let aim = aim_of(operands, version)?;
    let driver = only_of(operands)?;
    let after = whole_of(operands, "after", 0)?;
    match (aim, driver, after) {
        (Some(aim), driver, after) => Ok(Some(Goal {
            aim,
            driver,
            after: after.unwrap_or(0),
        })),
        (None, Some(_), _) => Err(Unfit::Aimless { option: "--of <D>" }),
        (None, None, Some(_)) => Err(Unfit::Aimless {
            option: "--after <N>",
        }),
        (None, None, None) => Ok(None),
    }
}
