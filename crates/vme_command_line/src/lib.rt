//! The words after the name of the program `vmebus`, and the job for which they ask.
//! docs/COMMANDS.md describes the command line.
#![tactic(auto)]

ghost use Rattle.std.specs.Prelude.{◌≡◌, ◌≢◌, ◌≤◌, ◌↔◌, ◌⊎◌, ℕ, [], ◌∷◌, IfErr, IfOk, IfSome, IsSomeAnd, MatchOption, Err, Ok, Some, codes, false, length, option_map, true};
ghost use Rattle.clap.specs.Words.{FailsBy, IsAmong, Text, all_of, fault_of, first_of as first_text, found_of, kind_of, rows_of, subcommand_of, subcommand_rows_of};
ghost use Rattle.vme_command_line.specs.Asked.{AreSeeds, Ask, AskForNoJob, AsksFor, AsksForTask, AsksForWork, AreTheSlacks, IsChoice, IsFile, IsFlag, IsNoSlack, NamesNoSeeds, first_shown, last_shown, spelled, texts_of, version_number};
ghost use Rattle.vme_command_line.specs.Commands.{commands as commands_said};
ghost use Rattle.vme_command_line.specs.Limits.{IsWithin, IsWithinChoice, IsWithinTask, IsWithinWork};
ghost use Rattle.vme_command_line.specs.Numbers.{IsSeed};
ghost use Rattle.vme_command_line.specs.Traces.{AreTraces};
ghost use Rattle.vme_command_line.specs.Unfits.{IsUnfit};

mod aims;
mod alone;
mod commands;
mod errors;
mod helps;
mod mistakes;
mod names;
mod probes;
mod races;
mod same;
mod single;
mod slacks;

use aims::goal_of;
use clap::error::ErrorKind;
use clap::{ArgMatches, Error};
use commands::commands;
use errors::error_of;
use names::job_of;
use single::asked_of_one;
use slacks::slacks_in;
use std::alloc::Global;
use vme_goals::Goal;
use vme_model::{TRACE_LIMIT, Version};
use vme_moments::Slacks;
use vme_rulebook::Entry;

/// The program's name and its version, as the line that `--version` prints. The version stands only
/// here.
pub const VERSION: &str = "vmebus 2.0.0\n";

/// The most edges that `drive` and `run` make. Source: profile (E5).
pub const MOST_EDGES: u32 = TRACE_LIMIT;

/// The most turns of each driver of a run.
pub const MOST_TURNS: u32 = 1_000_000;

/// The most edges that a picture shows.
pub const MOST_SHOWN: u64 = 200;

/// How many edges a picture shows if its first and last edge are not both given.
const SHOWN: u64 = 60;

/// The option for several seeds, as a usage error names it.
const SEEDS: &str = "--seeds <S..T>";

/// What the program is to do. Files have the names that the user gave. docs/COMMANDS.md describes
/// each command.
#[derive(PartialEq, Eq, Debug, Drop)]
pub enum Job<'a> {
    /// Replay standard input: a scenario, and a trace after it.
    Joined,
    /// Print the program's own version, [`VERSION`].
    OwnVersion,
    /// Print the rules, or explain a code.
    Rules {
        /// The rule or other code that is explained. Without it, all rules are printed, a sentence
        /// each.
        entry: Option<Entry>,
    },
    /// Do something on the backplane of a scenario.
    OnScenario {
        /// The file of the scenario.
        scenario: &'a str,
        /// What is done.
        work: Work<'a>,
    },
}

/// What is done on the backplane of a scenario. Files have the names that the user gave.
#[derive(PartialEq, Eq, Debug, Drop)]
pub enum Work<'a> {
    /// Do a task with one trace.
    OnTrace {
        /// The task.
        task: Task,
        /// The file of the trace.
        trace: &'a str,
    },
    /// Check several traces.
    Checks {
        /// The files of the traces, two or more.
        traces: Vec<&'a str>,
    },
    /// Add up what several traces exercised.
    Sums {
        /// The files of the traces, two or more.
        traces: Vec<&'a str>,
    },
    /// Print the trace of the other order of a race. It is no [`Task`], since it has a fault of its
    /// own: the edge may race with none.
    OtherOrder {
        /// The file of the trace.
        trace: &'a str,
        /// The edge that races, counted from 1.
        edge: u64,
    },
    /// Say whether two traces differ only in orders that do not matter.
    Same {
        /// The file of the one trace.
        trace: &'a str,
        /// The file of the other trace.
        other: &'a str,
    },
    /// Find a legal order of edges that were seen at moments.
    Order {
        /// The file of the edges with their moments.
        moments: &'a str,
        /// By how many moments at most the edges of each driver were seen late.
        slacks: Slacks,
        /// Whether to print where each edge was seen, in place of the trace.
        places: bool,
        /// Whether it is reported how far the search came.
        progress: bool,
    },
    /// Say whether a bus that keeps the rules can show what an analyser saw, and who may have
    /// driven it.
    Probe {
        /// The file of the capture.
        capture: &'a str,
        /// By how much later than the change before it a change of the same sample was seen at
        /// most; none if the changes happened in the order of their lines.
        skew: Option<u64>,
    },
    /// Let the drivers make edges, one after another.
    Drive {
        /// The most edges to make, 1 to [`MOST_EDGES`].
        edges: u32,
        /// The version of the rules.
        version: Version,
        /// How the edges are chosen.
        choice: Choice,
    },
    /// Let each driver make edges in a thread of its own.
    Run {
        /// The most edges to make, 1 to [`MOST_EDGES`].
        edges: u32,
        /// The turns of each driver, 1 to [`MOST_TURNS`].
        turns: u32,
        /// The version of the rules.
        version: Version,
    },
}

/// What is done with one trace.
#[derive(Clone, Copy, PartialEq, Eq, Debug)]
pub enum Task {
    /// Replay it.
    Replay {
        /// Whether each edge is printed beside its verdict.
        full: bool,
    },
    /// Check it.
    Check,
    /// Explain why one of its edges has its verdict.
    Explain {
        /// The edge, counted from 1. If it is not given, it is the first edge that is refused.
        edge: Option<u64>,
    },
    /// Find a short trace in which one of its edges has the same answer.
    Shrink {
        /// The edge, counted from 1. If it is not given, it is the first edge that is refused.
        edge: Option<u64>,
        /// Whether it is reported how far the search came.
        progress: bool,
    },
    /// Report where the bus stands in it.
    State {
        /// After how many edges; after all of them if it is not given.
        after: Option<u64>,
    },
    /// Draw a picture of some of its edges.
    Show {
        /// The first edge of the picture, counted from 1.
        from: u64,
        /// The last edge of the picture: not before the first one, and less than [`MOST_SHOWN`]
        /// after it.
        to: u64,
        /// Whether refused edges and deliveries are coloured.
        color: bool,
    },
    /// Print its cycles, tenures and refused edges.
    Cycles,
    /// Count what it exercised.
    Summary,
    /// Print which of its edges race.
    Races,
    /// Print how far one of its edges goes back, and what stops it.
    Walk {
        /// The edge, counted from 1.
        edge: u64,
    },
}

/// How the edges of a drive are chosen.
#[derive(Clone, Copy, PartialEq, Eq, Debug)]
pub enum Choice {
    /// The drivers make edges in turn.
    InTurn,
    /// Edges are drawn at random from all that are open to the drivers.
    Drawn {
        /// The seed by which they are drawn.
        seed: u64,
        /// The goal with which the trace is to end, if there is one.
        until: Option<Goal>,
    },
    /// Edges are drawn by one seed after another, until the trace of one ends with the goal.
    Sought {
        /// The seed that is tried first.
        first: u64,
        /// The seed that is tried last, not below the first.
        last: u64,
        /// The goal with which the trace is to end.
        goal: Goal,
        /// Whether the seeds are reported while they are tried.
        progress: bool,
    },
}

/// The traces of a command that takes one or more. Files have the names that the user gave.
#[derive(PartialEq, Eq, Debug, Drop)]
enum Traces<'a> {
    /// There is one.
    One { trace: &'a str },
    /// There are two or more.
    Several { traces: Vec<&'a str> },
}

/// Why words that the command line accepts ask for no job.
#[derive(Clone, Copy, PartialEq, Eq, Debug)]
pub(crate) enum Unfit<'a> {
    /// They name no command, or a command without one of its required operands.
    Missing,
    /// There is no memory for the names of the files.
    NoMemory,
    /// No picture goes from the one edge to the other.
    Window { from: u64, to: u64 },
    /// No trace can end with the goal of this name: another condition always fails together with
    /// it.
    Beside { named: &'a str },
    /// The version of the rules has no goal of this name.
    Event { named: &'a str, version: Version },
    /// There is a goal, but no seed.
    Seedless,
    /// An option that needs a goal is given, but there is no goal.
    Aimless { option: &'a str },
    /// The text names no driver.
    Driver { named: &'a str },
    /// There are both a seed and seeds to try.
    Seeded,
    /// The text does not name seeds to try.
    Seeds { named: &'a str },
    /// Progress is to be reported, but there are no seeds to try.
    Idle,
    /// There are both an edge and an edge whose other order is asked for.
    TwoEdges,
    /// No rule and no other code has this name.
    Rule { named: &'a str },
    /// The text does not name slacks.
    Slack { named: &'a str },
}

/// The text of the operand of that name, if it is given.
pub(crate) fn text_of<'a>(operands: &ArgMatches<'a>, name: &str) -> Option<&'a str>
    ensures { option_map (λ text. text.now) result
        ≡ first_text name.now (rows_of (found_of operands.now)) }
{
    operands.get_str(name)
}

/// The file that the operand of that name names.
pub(crate) fn file_of<'a>(operands: &ArgMatches<'a>, name: &str) -> Result<&'a str, Unfit<'a>>
    ensures file { IfOk result (λ file.
        IsFile name.now (rows_of (found_of operands.now)) file.now) }
    ensures missing { IfErr result (λ unfit. unfit ≡ Unfit.Missing) }
{
    match text_of(operands, name) {
        Some(file) => Ok(file),
        None => Err(Unfit::Missing),
    }
}

/// The files that are given for the operand of that name; none if it is not given.
fn files_of<'m, 'a>(operands: &'m ArgMatches<'a>, name: &str) -> Option<&'m [&'a str]>
    ensures { option_map (λ files. texts_of files.now) result
        ≡ all_of name.now (rows_of (found_of operands.now)) }
{
    operands.get_strs(name)
}

/// The number that the option of that name spells, if it is 1 to `most`.
fn number_of<'a>(operands: &ArgMatches<'a>, name: &str, most: u32) -> Result<u32, Unfit<'a>>
    ensures within { IfOk result (λ n. (1 ≤ n) × (n ≤ most)) }
    ensures spelled { IfOk result (λ n.
        spelled name.now (rows_of (found_of operands.now)) ≡ Some n) }
    ensures missing { IfErr result (λ unfit. unfit ≡ Unfit.Missing) }
{
    match operands.get_one::<u32>(name) {
        Some(number) if 1 <= number && number <= most => Ok(number),
        _ => Err(Unfit::Missing),
    }
}

/// The whole number of 64 bits that the option of that name spells, if it is `least` or more; none
/// if the option is not given.
pub(crate) fn whole_of<'a>(
    operands: &ArgMatches<'a>,
    name: &str,
    least: u64,
) -> Result<Option<u64>, Unfit<'a>>
    ensures within { IfOk result (λ whole. IfSome whole (λ n. least ≤ n)) }
    ensures spelled { IfOk result (λ whole.
        spelled name.now (rows_of (found_of operands.now)) ≡ whole) }
    ensures missing { IfErr result (λ unfit. unfit ≡ Unfit.Missing) }
{
    match operands.try_get_one::<u64>(name) {
        Ok(None) => Ok(None),
        Ok(Some(n)) if least <= n => Ok(Some(n)),
        _ => Err(Unfit::Missing),
    }
}

/// The version of the rules that `--version` spells, if there is one of that number.
fn version_of<'a>(operands: &ArgMatches<'a>) -> Result<Version, Unfit<'a>>
    ensures spelled { IfOk result (λ version.
        spelled (codes "version") (rows_of (found_of operands.now))
        ≡ Some (version_number version)) }
    ensures missing { IfErr result (λ unfit. unfit ≡ Unfit.Missing) }
{
    match number_of(operands, "version", 2)? {
        1 => Ok(Version::One),
        _ => Ok(Version::Two),
    }
}

/// The traces that are given.
fn traces_of<'a>(alloc: Global, operands: &ArgMatches<'a>) -> Result<Traces<'a>, Unfit<'a>>
    ensures traces { IfOk result (AreTraces (rows_of (found_of operands.now))) }
    ensures unfit { (name : Text) → IfErr result (IsUnfit name (rows_of (found_of operands.now))) }
{
    match files_of(operands, "TRACE") {
        None | Some([]) => Err(Unfit::Missing),
        Some([trace]) => Ok(Traces::One { trace }),
        Some(traces) => match traces.to_vec(alloc) {
            Ok(traces) => Ok(Traces::Several { traces }),
            Err(_) => Err(Unfit::NoMemory),
        },
    }
}

/// A replay, with its operands.
fn replay_of(operands: &ArgMatches<'_>) -> Task
    ensures within { IsWithinTask result }
    ensures asked { AsksForTask (codes "replay") (rows_of (found_of operands.now)) result }
{
    Task::Replay {
        full: is_flagged(operands, "full"),
    }
}

/// A check of one trace, or of several.
fn check_of<'a>(alloc: Global, operands: &ArgMatches<'a>) -> Result<Work<'a>, Unfit<'a>>
    ensures within { IfOk result IsWithinWork }
    ensures asked { IfOk result
        (AsksForWork (codes "check") (rows_of (found_of operands.now))) }
    ensures unfit { IfErr result (IsUnfit (codes "check") (rows_of (found_of operands.now))) }
{
    match traces_of(alloc, operands)? {
        Traces::One { trace } => Ok(Work::OnTrace {
            task: Task::Check,
            trace,
        }),
        Traces::Several { traces } => Ok(Work::Checks { traces }),
    }
}

/// A summary of one trace, or the sums over several.
fn summary_of<'a>(alloc: Global, operands: &ArgMatches<'a>) -> Result<Work<'a>, Unfit<'a>>
    ensures within { IfOk result IsWithinWork }
    ensures asked { IfOk result
        (AsksForWork (codes "summary") (rows_of (found_of operands.now))) }
    ensures unfit { IfErr result (IsUnfit (codes "summary") (rows_of (found_of operands.now))) }
{
    match traces_of(alloc, operands)? {
        Traces::One { trace } => Ok(Work::OnTrace {
            task: Task::Summary,
            trace,
        }),
        Traces::Several { traces } => Ok(Work::Sums { traces }),
    }
}

/// An explanation, with its operands.
fn explain_of<'a>(operands: &ArgMatches<'a>) -> Result<Task, Unfit<'a>>
    ensures within { IfOk result IsWithinTask }
    ensures asked { IfOk result
        (AsksForTask (codes "explain") (rows_of (found_of operands.now))) }
    ensures unfit { IfErr result (IsUnfit (codes "explain") (rows_of (found_of operands.now))) }
{
    Ok(Task::Explain {
        edge: whole_of(operands, "edge", 1)?,
    })
}

/// A search for a shorter trace, with its operands.
fn shrink_of<'a>(operands: &ArgMatches<'a>) -> Result<Task, Unfit<'a>>
    ensures within { IfOk result IsWithinTask }
    ensures asked { IfOk result
        (AsksForTask (codes "shrink") (rows_of (found_of operands.now))) }
    ensures unfit { IfErr result (IsUnfit (codes "shrink") (rows_of (found_of operands.now))) }
{
    let edge = whole_of(operands, "edge", 1)?;
    Ok(Task::Shrink {
        edge,
        progress: is_flagged(operands, "progress"),
    })
}

/// The rules, or the name of what is to be explained if it is given.
fn rules_of<'a>(operands: &ArgMatches<'a>) -> Result<Job<'a>, Unfit<'a>>
    ensures within { IfOk result IsWithin }
    ensures asked { IfOk result (AsksFor (codes "rule") (rows_of (found_of operands.now))) }
    ensures unfit { IfErr result (IsUnfit (codes "rule") (rows_of (found_of operands.now))) }
{
    match text_of(operands, "NAME") {
        None => Ok(Job::Rules { entry: None }),
        Some(named) => match Entry::named(named.as_bytes()) {
            Some(entry) => Ok(Job::Rules { entry: Some(entry) }),
            None => Err(Unfit::Rule { named }),
        },
    }
}

/// A report of where the bus stands, with its operands.
fn state_of<'a>(operands: &ArgMatches<'a>) -> Result<Task, Unfit<'a>>
    ensures within { IfOk result IsWithinTask }
    ensures asked { IfOk result
        (AsksForTask (codes "state") (rows_of (found_of operands.now))) }
    ensures unfit { IfErr result (IsUnfit (codes "state") (rows_of (found_of operands.now))) }
{
    Ok(Task::State {
        after: whole_of(operands, "after", 0)?,
    })
}

/// Whether the flag of that name is given.
fn is_flagged(operands: &ArgMatches<'_>, name: &str) -> bool
    ensures { IsFlag name.now (rows_of (found_of operands.now)) result }
{
    operands.get_one(name).unwrap_or(false)
}

/// The first edge of a picture, given `--from` and `--to`.
fn first_of(from: Option<u64>, to: Option<u64>) -> u64
    requires { IfSome from (λ n. 1 ≤ n) }
    ensures counted { 1 ≤ result }
    ensures shown { result ≡ first_shown from to }
{
    match (from, to) {
        (Some(from), _) => from,
        (None, Some(to)) => to.saturating_sub(SHOWN - 1).max(1),
        (None, None) => 1,
    }
}

/// The last edge of a picture, given `--to` and the first edge.
fn last_of(to: Option<u64>, first: u64) -> u64
    ensures { result ≡ last_shown to first }
{
    to.unwrap_or(first.saturating_add(SHOWN - 1))
}

/// A picture, with its operands.
fn show_of<'a>(operands: &ArgMatches<'a>) -> Result<Task, Unfit<'a>>
    ensures within { IfOk result IsWithinTask }
    ensures asked { IfOk result
        (AsksForTask (codes "show") (rows_of (found_of operands.now))) }
    ensures unfit { IfErr result (IsUnfit (codes "show") (rows_of (found_of operands.now))) }
{
    let to = whole_of(operands, "to", 1)?;
    let from = first_of(whole_of(operands, "from", 1)?, to);
    let to = last_of(to, from);
    if to < from || to - from >= MOST_SHOWN {
        return Err(Unfit::Window { from, to });
    }
    Ok(Task::Show {
        from,
        to,
        color: is_flagged(operands, "color"),
    })
}

/// The slacks that `--slack` names. No driver has slack if it is not given.
fn slacks_of<'a>(operands: &ArgMatches<'a>) -> Result<Slacks, Unfit<'a>>
    ensures slacks { IfOk result (AreTheSlacks (rows_of (found_of operands.now))) }
    ensures unfit { IfErr result (λ unfit. IsNoSlack (rows_of (found_of operands.now))
        × (unfit ≢ Unfit.Missing)) }
{
    match text_of(operands, "slack") {
        None => Ok(Slacks::all(0)),
        Some(named) => match slacks_in(named) {
            Some(slacks) => Ok(slacks),
            None => Err(Unfit::Slack { named }),
        },
    }
}

/// An order of moments, with its operands.
fn order_of<'a>(operands: &ArgMatches<'a>) -> Result<Work<'a>, Unfit<'a>>
    ensures within { IfOk result IsWithinWork }
    ensures asked { IfOk result
        (AsksForWork (codes "order") (rows_of (found_of operands.now))) }
    ensures unfit { IfErr result (IsUnfit (codes "order") (rows_of (found_of operands.now))) }
{
    Ok(Work::Order {
        moments: file_of(operands, "MOMENTS")?,
        slacks: slacks_of(operands)?,
        places: is_flagged(operands, "where"),
        progress: is_flagged(operands, "progress"),
    })
}

/// The seed that a text spells.
pub(crate) fn seed_in(text: &str) -> Option<u64>
    ensures { MatchOption result ((n : ℕ) → ¬ (IsSeed text.now n)) (λ n. IsSeed text.now n) }
{
    text.parse().ok()
}

/// The first and the last of the seeds that a text such as `0..9` names.
fn seeds_in(text: &str) -> Option<(u64, u64)>
    ensures { MatchOption result (NamesNoSeeds text.now)
        (λ seeds. AreSeeds text.now seeds.0 seeds.1) }
{
    let (first, last) = text.split_once("..")?;
    let (first, last) = (seed_in(first)?, seed_in(last)?);
    if first <= last {
        Some((first, last))
    } else {
        None
    }
}

/// The choice, unless progress is to be reported: that is possible only if several seeds are tried.
fn without_progress<'a>(progress: bool, choice: Choice) -> Result<Choice, Unfit<'a>>
    ensures silent { progress ≡ false → result ≡ Ok choice }
    ensures idle { progress ≡ true → result ≡ Err Unfit.Idle }
{
    if progress {
        Err(Unfit::Idle)
    } else {
        Ok(choice)
    }
}

/// How the edges of a drive are chosen: at random if there is a seed, or seeds, and otherwise in
/// turn.
fn choice_of<'a>(operands: &ArgMatches<'a>, version: Version) -> Result<Choice, Unfit<'a>>
    ensures within { IfOk result IsWithinChoice }
    ensures asked { IfOk result (IsChoice (rows_of (found_of operands.now)) version) }
    ensures unfit { spelled (codes "version") (rows_of (found_of operands.now))
        ≡ Some (version_number version)
        → IfErr result (IsUnfit (codes "drive") (rows_of (found_of operands.now))) }
{
    let until = goal_of(operands, version)?;
    let seed = whole_of(operands, "seed", 0)?;
    let progress = is_flagged(operands, "progress");
    match (seed, text_of(operands, "seeds"), until) {
        (Some(_), Some(_), _) => Err(Unfit::Seeded),
        (None, Some(_), None) => Err(Unfit::Aimless { option: SEEDS }),
        (None, Some(named), Some(goal)) => match seeds_in(named) {
            Some((first, last)) => Ok(Choice::Sought {
                first,
                last,
                goal,
                progress,
            }),
            None => Err(Unfit::Seeds { named }),
        },
        (None, None, Some(_)) => Err(Unfit::Seedless),
        (Some(seed), None, until) => without_progress(progress, Choice::Drawn { seed, until }),
        (None, None, None) => without_progress(progress, Choice::InTurn),
    }
}

/// A drive, with its operands.
fn drive_of<'a>(operands: &ArgMatches<'a>) -> Result<Work<'a>, Unfit<'a>>
    ensures within { IfOk result IsWithinWork }
    ensures asked { IfOk result
        (AsksForWork (codes "drive") (rows_of (found_of operands.now))) }
    ensures unfit { IfErr result (IsUnfit (codes "drive") (rows_of (found_of operands.now))) }
{
    let edges = number_of(operands, "edges", MOST_EDGES)?;
    let version = version_of(operands)?;
    Ok(Work::Drive {
        edges,
        version,
        choice: choice_of(operands, version)?,
    })
}

/// A run, with its operands.
fn run_of<'a>(operands: &ArgMatches<'a>) -> Result<Work<'a>, Unfit<'a>>
    ensures within { IfOk result IsWithinWork }
    ensures asked { IfOk result
        (AsksForWork (codes "run") (rows_of (found_of operands.now))) }
    ensures unfit { IfErr result (IsUnfit (codes "run") (rows_of (found_of operands.now))) }
{
    Ok(Work::Run {
        edges: number_of(operands, "edges", MOST_EDGES)?,
        turns: number_of(operands, "turns", MOST_TURNS)?,
        version: version_of(operands)?,
    })
}

/// The job for which the command of a parse asks.
fn job_in<'a>(alloc: Global, matches: &ArgMatches<'a>) -> Result<Job<'a>, Unfit<'a>>
    ensures within { IfOk result IsWithin }
    ensures asked { IfOk result (λ job.
        IsSomeAnd (subcommand_rows_of matches.now) (λ met. AsksFor met.0 met.1 job)) }
    ensures unfit { IfErr result (λ unfit. unfit ≢ Unfit.Missing
        → IsSomeAnd (subcommand_rows_of matches.now) (λ met. IsUnfit met.0 met.1 unfit)) }
{
    match matches.subcommand() {
        Some((name, operands)) => job_of(alloc, name, operands),
        None => Err(Unfit::Missing),
    }
}

/// What the command line's parser makes of words.
fn parsed<'a>(alloc: Global, words: &'a [&'a str]) -> Result<ArgMatches<'a>, Error>
    ensures fault { FailsBy (fault_of commands_said (texts_of words.entry.now)) result }
    ensures found { IfOk result (λ m.
        subcommand_rows_of m ≡ subcommand_of commands_said (texts_of words.entry.now)) }
{
    commands(alloc)?.try_get_matches_from(words)
}

/// The job for which words ask, or why they ask for none.
fn asked<'a>(alloc: Global, words: &'a [&'a str]) -> Result<Result<Job<'a>, Unfit<'a>>, Error>
    ensures within { IfOk result (λ job. IfOk job IsWithin) }
    ensures asked { IfOk result (λ job. IfOk job (λ found.
        IsSomeAnd (subcommand_of commands_said (texts_of words.entry.now))
        (λ met. AsksFor met.0 met.1 found))) }
    ensures unfit { IfOk result (λ job. IfErr job (λ unfit. unfit ≢ Unfit.Missing
        → IsSomeAnd (subcommand_of commands_said (texts_of words.entry.now))
        (λ met. IsUnfit met.0 met.1 unfit))) }
    ensures fault { FailsBy (fault_of commands_said (texts_of words.entry.now)) result }
{
    match asked_of_one(alloc, words)? {
        Some(job) => Ok(job),
        None => Ok(job_in(alloc, &parsed(alloc, words)?)),
    }
}

/// The job if the command line ended with this error. A request for the version is not an error.
fn job_at<'a>(error: Error) -> Result<Job<'a>, Error>
    ensures version { IfOk result (λ job.
        (kind_of error ≡ ErrorKind.DisplayVersion) × (job ≡ Job.OwnVersion)) }
    ensures other { IfErr result (λ printed.
        (kind_of error ≢ ErrorKind.DisplayVersion) × (printed ≡ error)) }
{
    match error.kind() {
        ErrorKind::DisplayVersion => Ok(Job::OwnVersion),
        _ => Err(error),
    }
}

/// The job for which the words after the program's name ask. docs/COMMANDS.md describes them.
///
/// If there are no words, it is [`Job::Joined`]. A request for the version is [`Job::OwnVersion`].
///
/// # Errors
/// A usage error, or a request for help. Its `Display` is the text for the user.
// The parser takes 15 KiB of stack, which a job needs for itself.
#[inline(never)]
pub fn words<'a>(alloc: Global, words: &'a [&'a str]) -> Result<Job<'a>, Error>
    ensures within { IfOk result IsWithin }
    ensures asked { IfOk result (Ask (texts_of words.entry.now)) }
    ensures taken { IfOk result (λ job. (length words.entry.now ≡ 0) ⊎ (job ≡ Job.OwnVersion)
        ⊎ (fault_of commands_said (texts_of words.entry.now) ≡ [])) }
    ensures version { IfErr result (λ error. kind_of error ≢ ErrorKind.DisplayVersion) }
    ensures refused { IfErr result (λ error. IsAmong (kind_of error)
        (ErrorKind.OutOfMemory ∷ ErrorKind.MissingSubcommand
        ∷ fault_of commands_said (texts_of words.entry.now))
        ⊎ ((kind_of error ≡ ErrorKind.ValueValidation)
        × AskForNoJob (texts_of words.entry.now))) }
    ensures joined { (result ≡ Ok Job.Joined) ↔ (length words.entry.now ≡ 0) }
{
    if words.is_empty() {
        return Ok(Job::Joined);
    }
    match asked(alloc, words) {
        Ok(Ok(job)) => Ok(job),
        Ok(Err(unfit)) => Err(error_of(alloc, unfit)?),
        Err(error) => job_at(error),
    }
}
