//! A command line of the one command that the first word names: the others need not be built.
ghost use Rattle.std.specs.Prelude.{◌≡◌, [], ◌∷◌, None, Some, IfErr, IfOk, IfSome, IsSomeAnd};
ghost use Rattle.clap.specs.Words.{Text, fault_of, found_of, kind_of, rows_of, shape_of, subcommand_of};
ghost use Rattle.vme_command_line.specs.Asked.{AsksFor, texts_of};
ghost use Rattle.vme_command_line.specs.Commands.{commands as commands_said};
ghost use Rattle.vme_command_line.specs.Limits.{IsWithin};
ghost use Rattle.vme_command_line.specs.Named.{command_named as named};
ghost use Rattle.vme_command_line.specs.Unfits.{IsUnfit};

use crate::commands::{
    check, cycles, drive, explain, order, probe, races, replay, rule, run, same, show, shrink,
    state, summary,
};
use crate::names::job_of;
use crate::{Job, Unfit};
use clap::error::ErrorKind;
use clap::{ArgMatches, Command, Error};
use std::alloc::{AllocError, Global};

/// A command that may be refused memory.
type Building<'a> = Result<Command<'a>, AllocError>;

/// The command of that name, if it makes a trace, explains rules or tells where the bus stands.
fn rarer_command<'a>(alloc: Global, name: &str) -> Option<Building<'a>>
    ensures { IfSome result (λ command. IfOk command (λ c. named name.now ≡ Some (shape_of c))) }
{
    match name {
        "rule" => Some(rule(alloc)),
        "state" => Some(state(alloc)),
        "run" => Some(run(alloc)),
        _ => None,
    }
}

/// The command of that name, if it compares orders of edges, or one of the rarer ones.
fn comparing_command<'a>(alloc: Global, name: &str) -> Option<Building<'a>>
    ensures { IfSome result (λ command. IfOk command (λ c. named name.now ≡ Some (shape_of c))) }
{
    match name {
        "races" => Some(races(alloc)),
        "same" => Some(same(alloc)),
        "order" => Some(order(alloc)),
        "probe" => Some(probe(alloc)),
        _ => rarer_command(alloc, name),
    }
}

/// The command of that name, if it shows what is in a trace, or one of those that compare orders.
fn showing_command<'a>(alloc: Global, name: &str) -> Option<Building<'a>>
    ensures { IfSome result (λ command. IfOk command (λ c. named name.now ≡ Some (shape_of c))) }
{
    match name {
        "explain" => Some(explain(alloc)),
        "shrink" => Some(shrink(alloc)),
        "show" => Some(show(alloc)),
        "cycles" => Some(cycles(alloc)),
        _ => comparing_command(alloc, name),
    }
}

/// The command of that name; none if there is no such command.
fn command_named<'a>(alloc: Global, name: &str) -> Option<Building<'a>>
    ensures { IfSome result (λ command. IfOk command (λ c. named name.now ≡ Some (shape_of c))) }
{
    match name {
        "check" => Some(check(alloc)),
        "replay" => Some(replay(alloc)),
        "drive" => Some(drive(alloc)),
        "summary" => Some(summary(alloc)),
        _ => showing_command(alloc, name),
    }
}

/// What a command alone makes of the words after its name.
fn read_alone<'a>(command: Building<'a>, words: &'a [&'a str]) -> Result<ArgMatches<'a>, Error>
    ensures { IfOk result (λ m. (name : Text)
        → IfOk command.entry (λ c. named name ≡ Some (shape_of c))
        → (subcommand_of commands_said (name ∷ texts_of words.entry.now)
        ≡ Some (name, rows_of (found_of m)))
        × (fault_of commands_said (name ∷ texts_of words.entry.now) ≡ [])) }
{
    command?.no_binary_name(true).try_get_matches_from(words)
}

/// Nothing, unless memory ran out.
fn nothing_at<T>(error: Error) -> Result<Option<T>, Error>
    ensures nothing { IfOk result (λ found. found ≡ None) }
    ensures memory { IfErr result (λ printed. kind_of printed ≡ ErrorKind.OutOfMemory) }
{
    match error.kind() {
        ErrorKind::OutOfMemory => Err(error),
        _ => Ok(None),
    }
}

/// The job for which words ask, or why they ask for none, if the first word names a command that
/// takes the others. If it gives nothing, the whole command line says what is wrong.
///
/// # Errors
/// Memory ran out.
pub(crate) fn asked_of_one<'a>(
    alloc: Global,
    words: &'a [&'a str],
) -> Result<Option<Result<Job<'a>, Unfit<'a>>>, Error>
    ensures within { IfOk result (λ it. IfSome it (λ job. IfOk job IsWithin)) }
    ensures asked { IfOk result (λ it. IfSome it (λ job. IfOk job (λ found.
        IsSomeAnd (subcommand_of commands_said (texts_of words.entry.now))
        (λ met. AsksFor met.0 met.1 found)))) }
    ensures unfit { IfOk result (λ it. IfSome it (λ job. IfErr job (λ unfit.
        IsSomeAnd (subcommand_of commands_said (texts_of words.entry.now))
        (λ met. IsUnfit met.0 met.1 unfit)))) }
    ensures taken { IfOk result (λ it. IfSome it (λ _.
        fault_of commands_said (texts_of words.entry.now) ≡ [])) }
    ensures memory { IfErr result (λ error. kind_of error ≡ ErrorKind.OutOfMemory) }
{
    let Some((name, others)) = words.split_first() else {
        return Ok(None);
    };
    let Some(command) = command_named(alloc, name) else {
        return Ok(None);
    };
    let operands = match read_alone(command, others) {
        Ok(operands) => operands,
        Err(error) => return nothing_at(error),
    };
    Ok(Some(job_of(alloc, name, &operands)))
}
