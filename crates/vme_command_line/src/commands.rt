//! The commands that the program offers, and their help.
ghost use Rattle.std.specs.Prelude.{◌≡◌, ◌≤◌, ◌^◌, ◌-◌, [], ◌∷◌, IfOk, codes, pos, true};
ghost use Rattle.clap.specs.Words.{App, Rule, Shape, app_of, new_app, rule_of, shape_of, with_rule, with_subcommand};
ghost use Rattle.clap.specs.Simple.{on_top};
ghost use Rattle.vme_command_line.specs.Commands as said;

use crate::helps::*;
use crate::{MOST_EDGES, MOST_TURNS, VERSION};
use clap::builder::ValueParser;
use clap::{Arg, ArgAction, Command, value_parser};
use std::alloc::{AllocError, Global};

/// An argument that is a file's name, and is required.
fn file<'a>(alloc: Global, name: &'a str, help: &'a str) -> Arg<'a>
    ensures { rule_of result ≡ said.file name.entry.now }
{
    Arg::new(alloc, name)
        .required(true)
        .action(ArgAction::Set)
        .help(help)
}

fn scenario_file<'a>(alloc: Global) -> Arg<'a>
    ensures { rule_of result ≡ said.file (codes "SCENARIO") }
{
    file(alloc, "SCENARIO", "The boards, a TOML file")
}

fn trace_file<'a>(alloc: Global) -> Arg<'a>
    ensures { rule_of result ≡ said.file (codes "TRACE") }
{
    file(alloc, "TRACE", "The edges, one per line")
}

fn other_file<'a>(alloc: Global) -> Arg<'a>
    ensures { rule_of result ≡ said.file (codes "OTHER") }
{
    file(alloc, "OTHER", "The edges of the other trace, one per line")
}

fn moments_file<'a>(alloc: Global) -> Arg<'a>
    ensures { rule_of result ≡ said.file (codes "MOMENTS") }
{
    let help = "The edges, one per line, below the moments at which they were seen";
    file(alloc, "MOMENTS", help)
}

fn capture_file<'a>(alloc: Global) -> Arg<'a>
    ensures { rule_of result ≡ said.file (codes "CAPTURE") }
{
    let help = "What an analyser saw, one change per line, below its moment";
    file(alloc, "CAPTURE", help)
}

/// The argument for the name of a rule or another code, which may be left out.
fn rule_name<'a>(alloc: Global) -> Arg<'a>
    ensures { rule_of result ≡ said.word (codes "NAME") }
{
    Arg::new(alloc, "NAME").action(ArgAction::Set).help(
        "Which rule or other code, such as G13 or X2 [default: all rules]",
    )
}

/// The argument for the files of traces, of which at least one is required.
fn trace_files<'a>(alloc: Global) -> Arg<'a>
    ensures { rule_of result ≡ said.files (codes "TRACE") }
{
    trace_file(alloc).action(ArgAction::Append).num_args(1..)
}

/// A parser of a number from 1 to `most`.
fn number<'a>(most: u32) -> ValueParser<'a>
    ensures { result ≡ ValueParser.Signed (pos 1) (pos most) }
{
    value_parser!(u32).range(1..=i64::from(most))
}

/// An option whose value is a text.
fn text_option<'a>(alloc: Global, name: &'a str, value: &'a str, help: &'a str) -> Arg<'a>
    ensures { rule_of result ≡ said.texted name.entry.now }
{
    Arg::new(alloc, name)
        .long(name)
        .value_name(value)
        .action(ArgAction::Set)
        .help(help)
}

/// An option whose value is a number from 1 to `most`.
fn option<'a>(alloc: Global, name: &'a str, value: &'a str, most: u32, help: &'a str) -> Arg<'a>
    ensures { rule_of result ≡ said.option name.entry.now most }
{
    text_option(alloc, name, value, help).value_parser(number(most))
}

fn edges_option<'a>(alloc: Global) -> Arg<'a>
    ensures { rule_of result ≡ said.edges }
{
    let help = "The most edges to make, 1 to 1048576";
    option(alloc, "edges", "N", MOST_EDGES, help).required(true)
}

fn turns_option<'a>(alloc: Global) -> Arg<'a>
    ensures { rule_of result ≡ said.turns }
{
    let help = "The turns of each driver, 1 to 1000000";
    option(alloc, "turns", "T", MOST_TURNS, help).required(true)
}

fn version_option<'a>(alloc: Global) -> Arg<'a>
    ensures { rule_of result ≡ said.version }
{
    let help = "The version of the rules, 1 or 2";
    option(alloc, "version", "V", 2, help).default_value("1")
}

/// A parser of a whole number of 64 bits, `least` or more.
fn whole_number<'a>(least: u64) -> ValueParser<'a>
    ensures { result ≡ ValueParser.Unsigned least (2 ^ 64 - 1) }
{
    ValueParser::unsigned(least, u64::MAX)
}

/// An option whose value is a whole number of 64 bits, `least` or more.
fn whole_option<'a>(
    alloc: Global,
    name: &'a str,
    value: &'a str,
    least: u64,
    help: &'a str,
) -> Arg<'a>
    ensures { rule_of result ≡ said.whole name.entry.now least }
{
    text_option(alloc, name, value, help).value_parser(whole_number(least))
}

/// The option for the edge that a command is about.
fn edge_option<'a>(alloc: Global, help: &'a str) -> Arg<'a>
    ensures { rule_of result ≡ said.edge }
{
    whole_option(alloc, "edge", "N", 1, help)
}

fn other_option<'a>(alloc: Global) -> Arg<'a>
    ensures { rule_of result ≡ said.other }
{
    let help = "Print the trace of the other order of edge N, 1 the first, which has to race";
    whole_option(alloc, "other", "N", 1, help)
}

fn after_option<'a>(alloc: Global) -> Arg<'a>
    ensures { rule_of result ≡ said.after }
{
    let help = "After how many edges [default: after all]";
    whole_option(alloc, "after", "N", 0, help)
}

fn from_option<'a>(alloc: Global) -> Arg<'a>
    ensures { rule_of result ≡ said.from }
{
    let help = "The first edge that is drawn [default: 1; with --to alone B - 59, at least 1]";
    whole_option(alloc, "from", "A", 1, help)
}

fn to_option<'a>(alloc: Global) -> Arg<'a>
    ensures { rule_of result ≡ said.to }
{
    let help = "The last edge that is drawn, A to A + 199 [default: A + 59]";
    whole_option(alloc, "to", "B", 1, help)
}

fn seed_option<'a>(alloc: Global) -> Arg<'a>
    ensures { rule_of result ≡ said.seed }
{
    let help = "Draws the edges at random from this seed, 0 to 18446744073709551615";
    whole_option(alloc, "seed", "S", 0, help)
}

fn until_option<'a>(alloc: Global) -> Arg<'a>
    ensures { rule_of result ≡ said.until }
{
    let help = "Ends with the first edge that brings this about; needs --seed or --seeds";
    text_option(alloc, "until", "EVENT", help)
}

fn of_option<'a>(alloc: Global) -> Arg<'a>
    ensures { rule_of result ≡ said.only }
{
    let help = "Counts only edges of this driver, c or a slot; needs --until";
    text_option(alloc, "of", "D", help)
}

fn behind_option<'a>(alloc: Global) -> Arg<'a>
    ensures { rule_of result ≡ said.after }
{
    let help = "Counts only edges after this many [default: 0]; needs --until";
    whole_option(alloc, "after", "N", 0, help)
}

fn seeds_option<'a>(alloc: Global) -> Arg<'a>
    ensures { rule_of result ≡ said.seeds }
{
    let help = "Tries these seeds in order until one reaches EVENT; needs --until";
    text_option(alloc, "seeds", "S..T", help)
}

fn slack_option<'a>(alloc: Global) -> Arg<'a>
    ensures { rule_of result ≡ said.slack }
{
    let help = "By how many moments edges may be seen late, such as 2 or c=2,5=1 [default: 0]";
    text_option(alloc, "slack", "S", help)
}

fn skew_option<'a>(alloc: Global) -> Arg<'a>
    ensures { rule_of result ≡ said.skew }
{
    let help =
        "Changes at most S moments behind the one before have no order, but those of one line";
    whole_option(alloc, "skew", "S", 0, help)
}

/// An option without a value.
fn flag<'a>(alloc: Global, name: &'a str, help: &'a str) -> Arg<'a>
    ensures { rule_of result ≡ said.flag name.entry.now }
{
    Arg::new(alloc, name)
        .long(name)
        .action(ArgAction::SetTrue)
        .help(help)
}

fn full_option<'a>(alloc: Global) -> Arg<'a>
    ensures { rule_of result ≡ said.full }
{
    let help = "Prints each edge as well, between its number and its verdict";
    flag(alloc, "full", help)
}

fn color_option<'a>(alloc: Global) -> Arg<'a>
    ensures { rule_of result ≡ said.color }
{
    let help = "Paints each `x` red and each `!` green, for a terminal";
    flag(alloc, "color", help)
}

/// The option for reports of how far a search came.
fn progress_option<'a>(alloc: Global, help: &'a str) -> Arg<'a>
    ensures { rule_of result ≡ said.progress }
{
    flag(alloc, "progress", help)
}

fn where_option<'a>(alloc: Global) -> Arg<'a>
    ensures { rule_of result ≡ said.places }
{
    let help = "Prints where each edge was seen, in place of the trace";
    flag(alloc, "where", help)
}

/// A command that takes a scenario.
fn command<'a>(
    alloc: Global,
    name: &'a str,
    about: &'a str,
    usage: &'a str,
    example: &'a str,
) -> Result<Command<'a>, AllocError>
    ensures { IfOk result (λ c. app_of c ≡ said.leaf name.entry.now []) }
{
    Command::new(alloc, name)
        .about(about)
        .override_usage(usage)
        .after_help(example)
        .arg(scenario_file(alloc))
}

/// The command with one more argument, or the error of the command.
fn taking<'a>(
    command: Result<Command<'a>, AllocError>,
    word: Arg<'a>,
) -> Result<Command<'a>, AllocError>
    ensures { IfOk result (λ c. (a : App) (r : Rule)
        → IfOk command.entry (λ before. app_of before ≡ a)
        → rule_of word.entry ≡ r → r.is_simple ≡ true → app_of c ≡ with_rule a r) }
{
    command?.arg(word)
}

/// A command that takes a scenario and a trace.
fn command_on_trace<'a>(
    alloc: Global,
    name: &'a str,
    about: &'a str,
    usage: &'a str,
    example: &'a str,
) -> Result<Command<'a>, AllocError>
    ensures { IfOk result (λ c.
        app_of c ≡ said.leaf name.entry.now (said.file (codes "TRACE") ∷ [])) }
{
    taking(
        command(alloc, name, about, usage, example),
        trace_file(alloc),
    )
}

/// A command that takes a scenario, and one trace or more.
fn command_on_traces<'a>(
    alloc: Global,
    name: &'a str,
    about: &'a str,
    usage: &'a str,
    example: &'a str,
) -> Result<Command<'a>, AllocError>
    ensures { IfOk result (λ c.
        app_of c ≡ said.leaf name.entry.now (said.files (codes "TRACE") ∷ [])) }
{
    taking(
        command(alloc, name, about, usage, example),
        trace_files(alloc),
    )
}

/// The command `replay`.
pub(crate) fn replay<'a>(alloc: Global) -> Result<Command<'a>, AllocError>
    ensures { IfOk result (λ c. shape_of c ≡ said.replay) }
{
    let command = command_on_trace(alloc, "replay", REPLAY, REPLAY_USAGE, REPLAY_EXAMPLE);
    taking(command, full_option(alloc))
}

/// The command `check`.
pub(crate) fn check<'a>(alloc: Global) -> Result<Command<'a>, AllocError>
    ensures { IfOk result (λ c. shape_of c ≡ said.check) }
{
    command_on_traces(alloc, "check", CHECK, CHECK_USAGE, CHECK_EXAMPLE)
}

/// The command `explain`.
pub(crate) fn explain<'a>(alloc: Global) -> Result<Command<'a>, AllocError>
    ensures { IfOk result (λ c. shape_of c ≡ said.explain) }
{
    let command = command_on_trace(alloc, "explain", EXPLAIN, EXPLAIN_USAGE, EXPLAIN_EXAMPLE);
    taking(command, edge_option(alloc, REFUSED_EDGE))
}

/// The command `shrink`.
pub(crate) fn shrink<'a>(alloc: Global) -> Result<Command<'a>, AllocError>
    ensures { IfOk result (λ c. shape_of c ≡ said.shrink) }
{
    let command = command_on_trace(alloc, "shrink", SHRINK, SHRINK_USAGE, SHRINK_EXAMPLE);
    let command = taking(command, edge_option(alloc, REFUSED_EDGE));
    taking(command, progress_option(alloc, PROGRESS))
}

/// The command `rule`, which takes no scenario.
pub(crate) fn rule<'a>(alloc: Global) -> Result<Command<'a>, AllocError>
    ensures { IfOk result (λ c. shape_of c ≡ said.rule) }
{
    Command::new(alloc, "rule")
        .about(RULE)
        .override_usage(RULE_USAGE)
        .after_help(RULE_EXAMPLE)
        .arg(rule_name(alloc))
}

/// The command `state`.
pub(crate) fn state<'a>(alloc: Global) -> Result<Command<'a>, AllocError>
    ensures { IfOk result (λ c. shape_of c ≡ said.state) }
{
    let command = command_on_trace(alloc, "state", STATE, STATE_USAGE, STATE_EXAMPLE);
    taking(command, after_option(alloc))
}

/// The command `show`.
pub(crate) fn show<'a>(alloc: Global) -> Result<Command<'a>, AllocError>
    ensures { IfOk result (λ c. shape_of c ≡ said.show) }
{
    let command = command_on_trace(alloc, "show", SHOW, SHOW_USAGE, SHOW_EXAMPLE);
    let command = taking(command, from_option(alloc));
    let command = taking(command, to_option(alloc));
    taking(command, color_option(alloc))
}

/// The command `cycles`.
pub(crate) fn cycles<'a>(alloc: Global) -> Result<Command<'a>, AllocError>
    ensures { IfOk result (λ c. shape_of c ≡ said.cycles) }
{
    command_on_trace(alloc, "cycles", CYCLES, CYCLES_USAGE, CYCLES_EXAMPLE)
}

/// The command `summary`.
pub(crate) fn summary<'a>(alloc: Global) -> Result<Command<'a>, AllocError>
    ensures { IfOk result (λ c. shape_of c ≡ said.summary) }
{
    command_on_traces(alloc, "summary", SUMMARY, SUMMARY_USAGE, SUMMARY_EXAMPLE)
}

/// The command `races`.
pub(crate) fn races<'a>(alloc: Global) -> Result<Command<'a>, AllocError>
    ensures { IfOk result (λ c. shape_of c ≡ said.races) }
{
    let command = command_on_trace(alloc, "races", RACES, RACES_USAGE, RACES_EXAMPLE);
    let command = taking(command, edge_option(alloc, RACES_EDGE));
    taking(command, other_option(alloc))
}

/// The command `same`.
pub(crate) fn same<'a>(alloc: Global) -> Result<Command<'a>, AllocError>
    ensures { IfOk result (λ c. shape_of c ≡ said.same) }
{
    let command = command_on_trace(alloc, "same", SAME, SAME_USAGE, SAME_EXAMPLE);
    taking(command, other_file(alloc))
}

/// The command `order`.
pub(crate) fn order<'a>(alloc: Global) -> Result<Command<'a>, AllocError>
    ensures { IfOk result (λ c. shape_of c ≡ said.order) }
{
    let command = command(alloc, "order", ORDER, ORDER_USAGE, ORDER_EXAMPLE);
    let command = taking(command, moments_file(alloc));
    let command = taking(command, slack_option(alloc));
    let command = taking(command, where_option(alloc));
    taking(command, progress_option(alloc, PROGRESS))
}

/// The command `probe`.
pub(crate) fn probe<'a>(alloc: Global) -> Result<Command<'a>, AllocError>
    ensures { IfOk result (λ c. shape_of c ≡ said.probe) }
{
    let command = command(alloc, "probe", PROBE, PROBE_USAGE, PROBE_EXAMPLE);
    let command = taking(command, capture_file(alloc));
    taking(command, skew_option(alloc))
}

/// The command `drive`.
pub(crate) fn drive<'a>(alloc: Global) -> Result<Command<'a>, AllocError>
    ensures { IfOk result (λ c. shape_of c ≡ said.drive) }
{
    let command = command(alloc, "drive", DRIVE, DRIVE_USAGE, DRIVE_EXAMPLE);
    let command = taking(command, edges_option(alloc));
    let command = taking(command, seed_option(alloc));
    let command = taking(command, seeds_option(alloc));
    let command = taking(command, until_option(alloc));
    let command = taking(command, of_option(alloc));
    let command = taking(command, behind_option(alloc));
    let command = taking(command, progress_option(alloc, SEEDS_PROGRESS));
    taking(command, version_option(alloc))
}

/// The command `run`.
pub(crate) fn run<'a>(alloc: Global) -> Result<Command<'a>, AllocError>
    ensures { IfOk result (λ c. shape_of c ≡ said.run) }
{
    let command = command(alloc, "run", RUN, RUN_USAGE, RUN_EXAMPLE);
    let command = taking(command, edges_option(alloc));
    let command = taking(command, turns_option(alloc));
    taking(command, version_option(alloc))
}

/// The program without its commands.
fn program<'a>(alloc: Global) -> Result<Command<'a>, AllocError>
    ensures { IfOk result (λ c.
        app_of c ≡ on_top (λ s. record s { no_binary_name = true; has_version = true })
        (new_app (codes "vmebus"))) }
{
    Command::new(alloc, "vmebus")
        .no_binary_name(true)
        .version(VERSION)
        .about(ABOUT)
        .after_help(OVERVIEW)
        .bin_name("vmebus")
}

/// The program with one more command, or the first error of the two.
fn offering<'a>(
    program: Result<Command<'a>, AllocError>,
    command: Result<Command<'a>, AllocError>,
) -> Result<Command<'a>, AllocError>
    ensures { IfOk result (λ c. (a : App) (s : Shape)
        → IfOk program.entry (λ before. app_of before ≡ a)
        → IfOk command.entry (λ sub. shape_of sub ≡ s)
        → s.is_plain ≡ true → app_of c ≡ with_subcommand a s) }
{
    program?.subcommand(command?)
}

/// The program's command line.
pub(crate) fn commands<'a>(alloc: Global) -> Result<Command<'a>, AllocError>
    ensures { IfOk result (λ c. app_of c ≡ said.commands) }
{
    let program = offering(program(alloc), replay(alloc));
    let program = offering(program, check(alloc));
    let program = offering(program, explain(alloc));
    let program = offering(program, shrink(alloc));
    let program = offering(program, rule(alloc));
    let program = offering(program, state(alloc));
    let program = offering(program, show(alloc));
    let program = offering(program, cycles(alloc));
    let program = offering(program, summary(alloc));
    let program = offering(program, races(alloc));
    let program = offering(program, same(alloc));
    let program = offering(program, order(alloc));
    let program = offering(program, probe(alloc));
    let program = offering(program, drive(alloc));
    offering(program, run(alloc))
}
