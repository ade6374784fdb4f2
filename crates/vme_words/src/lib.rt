//! The words behind the name of the program `vmebus`, and what they ask for.
#![tactic(auto)]

ghost use Rattle.std.specs.Prelude.{◌≡◌, ◌≢◌, ◌≤◌, ◌↔◌, IfOk, IfSome, Ok, Some, length};
ghost use Rattle.vme_words.specs.Limits.{IsWithin};

mod commands;

use clap::error::ErrorKind;
use clap::{ArgMatches, Error};
use commands::commands;
use std::alloc::Global;
use vme_model::{TRACE_LIMIT, Version};

/// The most edges that a run makes.
pub const MOST_EDGES: u32 = TRACE_LIMIT;

/// The most turns that each driver of a run gets.
pub const MOST_TURNS: u32 = 1_000_000;

/// What the program is to do. Files have the names that the user gave.
#[derive(Clone, Copy, PartialEq, Eq, Debug)]
pub enum Job<'a> {
    /// Replay what stands on standard input: a scenario, and a trace behind it.
    Joined,
    /// Replay a trace.
    Replay {
        /// The file of the boards.
        scenario: &'a str,
        /// The file of the edges.
        trace: &'a str,
    },
    /// Check a trace.
    Check {
        /// The file of the boards.
        scenario: &'a str,
        /// The file of the edges.
        trace: &'a str,
    },
    /// Let the drivers make edges in turn.
    Drive {
        /// The file of the boards.
        scenario: &'a str,
        /// The most edges to make, 1 to [`MOST_EDGES`].
        edges: u32,
        /// The version of the rules.
        version: Version,
    },
    /// Let each driver make edges in a thread of its own.
    Run {
        /// The file of the boards.
        scenario: &'a str,
        /// The most edges to make, 1 to [`MOST_EDGES`].
        edges: u32,
        /// The turns of each driver, 1 to [`MOST_TURNS`].
        turns: u32,
        /// The version of the rules.
        version: Version,
    },
}

/// The number of that name, where it is 1 to `most`.
fn number_of(matches: &ArgMatches<'_>, name: &str, most: u32) -> Option<u32>
    ensures { IfSome result (λ n. (1 ≤ n) × (n ≤ most)) }
{
    let number = matches.get_one::<u32>(name)?;
    if 1 <= number && number <= most {
        Some(number)
    } else {
        None
    }
}

/// The version of the rules, where there is one of that number.
fn version_of(matches: &ArgMatches<'_>) -> Option<Version> {
    match matches.get_one::<u32>("version")? {
        1 => Some(Version::One),
        2 => Some(Version::Two),
        _ => None,
    }
}

/// A run of the scenario, with its other operands.
fn run_of<'a>(scenario: &'a str, operands: &ArgMatches<'a>) -> Option<Job<'a>>
    ensures within { IfSome result IsWithin }
    ensures command { result ≢ Some Job.Joined }
{
    Some(Job::Run {
        scenario,
        edges: number_of(operands, "edges", MOST_EDGES)?,
        turns: number_of(operands, "turns", MOST_TURNS)?,
        version: version_of(operands)?,
    })
}

/// The job of a command's name, with its operands.
fn job_of<'a>(name: &str, operands: &ArgMatches<'a>) -> Option<Job<'a>>
    ensures within { IfSome result IsWithin }
    ensures command { result ≢ Some Job.Joined }
{
    let scenario = operands.get_str("SCENARIO")?;
    match name {
        "replay" => Some(Job::Replay {
            scenario,
            trace: operands.get_str("TRACE")?,
        }),
        "check" => Some(Job::Check {
            scenario,
            trace: operands.get_str("TRACE")?,
        }),
        "drive" => Some(Job::Drive {
            scenario,
            edges: number_of(operands, "edges", MOST_EDGES)?,
            version: version_of(operands)?,
        }),
        "run" => run_of(scenario, operands),
        _ => None,
    }
}

/// The job that the words behind the program's name ask for.
///
/// No words ask for [`Job::Joined`]. An error's `Display` is the text for the user; a call for help is one too.
pub fn words<'a>(alloc: Global, words: &'a [&'a str]) -> Result<Job<'a>, Error>
    ensures within { IfOk result IsWithin }
    ensures joined { (result ≡ Ok Job.Joined) ↔ (length words.entry.now ≡ 0) }
{
    if words.is_empty() {
        return Ok(Job::Joined);
    }
    let matches = commands(alloc)?.try_get_matches_from(words)?;
    let job = match matches.subcommand() {
        None => None,
        Some((name, operands)) => job_of(name, operands),
    };
    match job {
        Some(job) => Ok(job),
        None => Err(commands(alloc)?.error(ErrorKind::MissingSubcommand, "a command is missing")?),
    }
}

#[cfg(test)]
mod tests;
