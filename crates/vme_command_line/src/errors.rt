//! The usage errors of words that the command line accepts, and that ask for no job.
ghost use Rattle.std.specs.Prelude.{◌≡◌, ◌≢◌, ◌⊎◌, IfOk};
ghost use Rattle.clap.specs.Words.{kind_of};

use crate::commands::{commands, drive, order, races, rule, show};
use crate::mistakes::{Mistake, is_bare, mistake_in};
use crate::{MOST_SHOWN, Unfit};
use clap::error::ErrorKind;
use clap::{Command, Error};
use std::alloc::{AllocError, Global};
use vme_goals::Miss;
use vme_model::Version;

/// The usage error of a command for words that it accepts and that ask for no job, or the error of
/// the command.
fn invalid(command: Result<Command<'_>, AllocError>, text: &str) -> Result<Error, AllocError>
    ensures { IfOk result (λ error. kind_of error ≡ ErrorKind.ValueValidation) }
{
    command?.error(ErrorKind::ValueValidation, text)
}

/// The usage error if no command is given.
fn missing(alloc: Global) -> Result<Error, AllocError>
    ensures { IfOk result (λ error. kind_of error ≡ ErrorKind.MissingSubcommand) }
{
    commands(alloc)?.error(ErrorKind::MissingSubcommand, "a command is missing")
}

/// The usage error if a picture cannot end with the edge that is given.
fn no_window(alloc: Global, from: u64, to: u64) -> Result<Error, AllocError>
    ensures { IfOk result (λ error. kind_of error ≡ ErrorKind.ValueValidation) }
{
    let most = from.saturating_add(MOST_SHOWN - 1);
    let text = format!(in alloc;
        "invalid value '{to}' for '--to <B>': B is {from} to {most}, \
         at most {MOST_SHOWN} edges at once"
    )?;
    invalid(show(alloc), &text)
}

/// The rules that have a condition of these words, with commas between.
fn rules_with(alloc: Global, words: &str) -> Result<String, AllocError> {
    let mut rules = format!(in alloc; "")?;
    for miss in &Miss::ALL {
        if is_bare(words.as_bytes(), *miss) {
            let comma = if rules.is_empty() { "" } else { ", " };
            let rule = match *miss {
                Miss::Rule(number, _) => number,
                _ => 22,
            };
            rules = format!(in alloc; "{rules}{comma}G{rule}")?;
        }
    }
    Ok(rules)
}

/// What is wrong with a name that is no goal in that version of the rules.
fn mistake_text(alloc: Global, named: &str, version: Version) -> Result<String, AllocError> {
    let number = if version.is_two() { 2 } else { 1 };
    let name = named.split(' ').next().unwrap_or(named);
    match mistake_in(named, version) {
        Mistake::NoCondition => format!(in alloc; "rule {named} has no condition"),
        Mistake::OtherEvent => format!(in alloc; "version {number} has no such event"),
        Mistake::OtherCondition => format!(in alloc; "version {number} has no such condition"),
        Mistake::Level => format!(in alloc; "N stands for a level, as in 'IRQN* is low'"),
        Mistake::Bare => {
            let rules = rules_with(alloc, named)?;
            format!(in alloc; "a condition needs its rule before it: {rules}")
        }
        Mistake::Foreign => format!(in alloc; "rule {name} has no such condition"),
        Mistake::Settled => format!(in alloc; "{name} is named without its condition"),
        Mistake::NoRule => format!(in alloc; "no rule is called {name}"),
        Mistake::Unknown => format!(in alloc; "no event or condition is called {named}"),
    }
}

/// The usage error if the version of the rules has no goal of that name, with what is wrong.
fn no_event(alloc: Global, named: &str, version: Version) -> Result<Error, AllocError>
    ensures { IfOk result (λ error. kind_of error ≡ ErrorKind.ValueValidation) }
{
    let mistake = mistake_text(alloc, named, version)?;
    let text = format!(in alloc;
        "invalid value '{named}' for '--until <EVENT>': {mistake}\n\n  \
         'vmebus drive --help' has all that EVENT can be"
    )?;
    invalid(drive(alloc), &text)
}

/// The usage error if the condition of that name never fails alone.
fn no_miss(alloc: Global, named: &str) -> Result<Error, AllocError>
    ensures { IfOk result (λ error. kind_of error ≡ ErrorKind.ValueValidation) }
{
    let text = format!(in alloc;
        "invalid value '{named}' for '--until <EVENT>': wherever this condition fails, another \
         one of the rule fails too, so that it never refuses an edge alone"
    )?;
    invalid(drive(alloc), &text)
}

/// The usage error if there is no seed.
fn no_seed(alloc: Global) -> Result<Error, AllocError>
    ensures { IfOk result (λ error. kind_of error ≡ ErrorKind.ValueValidation) }
{
    let text = "the option '--until <EVENT>' needs '--seed <S>' or '--seeds <S..T>'";
    invalid(drive(alloc), text)
}

/// The usage error if that option needs a goal and there is none.
fn no_aim(alloc: Global, option: &str) -> Result<Error, AllocError>
    ensures { IfOk result (λ error. kind_of error ≡ ErrorKind.ValueValidation) }
{
    let text = format!(in alloc; "the option '{option}' needs '--until <EVENT>'")?;
    invalid(drive(alloc), &text)
}

/// The usage error if a text names no driver.
fn no_driver(alloc: Global, named: &str) -> Result<Error, AllocError>
    ensures { IfOk result (λ error. kind_of error ≡ ErrorKind.ValueValidation) }
{
    let text = format!(in alloc;
        "invalid value '{named}' for '--of <D>': D is c or a slot, 1 to 21"
    )?;
    invalid(drive(alloc), &text)
}

/// The usage error if there are both a seed and seeds to try.
fn seeded(alloc: Global) -> Result<Error, AllocError>
    ensures { IfOk result (λ error. kind_of error ≡ ErrorKind.ValueValidation) }
{
    let text = "the options '--seed <S>' and '--seeds <S..T>' exclude each other";
    invalid(drive(alloc), text)
}

/// The usage error if a text does not name seeds to try.
fn no_seeds(alloc: Global, named: &str) -> Result<Error, AllocError>
    ensures { IfOk result (λ error. kind_of error ≡ ErrorKind.ValueValidation) }
{
    let text = format!(in alloc;
        "invalid value '{named}' for '--seeds <S..T>': S and T are 0 to {}, and T is not below S",
        u64::MAX
    )?;
    invalid(drive(alloc), &text)
}

/// The usage error if progress is to be reported and there are no seeds to try.
fn no_progress(alloc: Global) -> Result<Error, AllocError>
    ensures { IfOk result (λ error. kind_of error ≡ ErrorKind.ValueValidation) }
{
    let text = "the option '--progress' needs '--seeds <S..T>'";
    invalid(drive(alloc), text)
}

/// The usage error if both an edge and another one's other order are asked for.
fn two_edges(alloc: Global) -> Result<Error, AllocError>
    ensures { IfOk result (λ error. kind_of error ≡ ErrorKind.ValueValidation) }
{
    let text = "the options '--edge <N>' and '--other <N>' exclude each other";
    invalid(races(alloc), text)
}

/// The usage error if no rule has that name.
fn no_rule(alloc: Global, named: &str) -> Result<Error, AllocError>
    ensures { IfOk result (λ error. kind_of error ≡ ErrorKind.ValueValidation) }
{
    let text = format!(in alloc;
        "invalid value '{named}' for '[NAME]': no rule is called {named}"
    )?;
    invalid(rule(alloc), &text)
}

/// The usage error if a text does not name slacks.
fn no_slack(alloc: Global, named: &str) -> Result<Error, AllocError>
    ensures { IfOk result (λ error. kind_of error ≡ ErrorKind.ValueValidation) }
{
    let text = format!(in alloc;
        "invalid value '{named}' for '--slack <S>': S is 0 to {}, or a list of different drivers \
         with such a number each, such as c=2,5=1",
        u64::MAX
    )?;
    invalid(order(alloc), &text)
}

/// The usage error that says why words ask for no job.
pub(crate) fn error_of(alloc: Global, unfit: Unfit<'_>) -> Result<Error, AllocError>
    ensures { IfOk result (λ error. (kind_of error ≡ ErrorKind.MissingSubcommand)
        ⊎ ((kind_of error ≡ ErrorKind.ValueValidation)
        × (unfit.entry ≢ Unfit.Missing) × (unfit.entry ≢ Unfit.NoMemory))) }
{
    match unfit {
        Unfit::Missing => missing(alloc),
        Unfit::NoMemory => Err(AllocError),
        Unfit::Window { from, to } => no_window(alloc, from, to),
        Unfit::Beside { named } => no_miss(alloc, named),
        Unfit::Event { named, version } => no_event(alloc, named, version),
        Unfit::Seedless => no_seed(alloc),
        Unfit::Aimless { option } => no_aim(alloc, option),
        Unfit::Driver { named } => no_driver(alloc, named),
        Unfit::Seeded => seeded(alloc),
        Unfit::Seeds { named } => no_seeds(alloc, named),
        Unfit::Idle => no_progress(alloc),
        Unfit::TwoEdges => two_edges(alloc),
        Unfit::Rule { named } => no_rule(alloc, named),
        Unfit::Slack { named } => no_slack(alloc, named),
    }
}
