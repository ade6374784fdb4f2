//! What the command line means.
use std::process::Abort;
use vme_goals::{Event, Goal, Miss};
use vme_model::{Condition, IrqKind, Version};
use vme_words::{Job, words};

/// Asserts which job words mean.
fn assert_job(rt: &(impl Abort + AllocGlobal), given: &[&str], wanted: Job) {
    match words(rt.alloc(), given) {
        Ok(job) => assert!(rt; job == wanted),
        Err(error) => panic!(rt; "{error}"),
    }
}

#[test]
fn no_words_are_joined(rt: HostRuntime) {
    assert_job(&rt, &[], Job::Joined);
}

#[test]
fn reads_two_files(rt: HostRuntime) {
    let (scenario, trace) = ("board.toml", "tenure.vme");
    assert_job(
        &rt,
        &["replay", scenario, trace],
        Job::Replay { scenario, trace },
    );
    assert_job(
        &rt,
        &["check", scenario, trace],
        Job::Check { scenario, trace },
    );
    assert_job(
        &rt,
        &["summary", scenario, trace],
        Job::Summary { scenario, trace },
    );
}

#[test]
fn reads_several_traces(rt: HostRuntime) {
    let given = ["summary", "board.toml", "a.vme", "--", "b.vme", "-c.vme"];
    match words(rt.alloc(), &given) {
        Ok(Job::Sums { scenario, traces }) => {
            assert!(rt; scenario == "board.toml");
            assert!(rt; traces.as_slice() == ["a.vme", "b.vme", "-c.vme"].as_slice());
        }
        _ => panic!(rt; "no sums"),
    }
}

#[test]
fn reads_which_edge_to_explain(rt: HostRuntime) {
    let (scenario, trace) = ("S", "T");
    let given: [(&[&str], Option<u64>); 3] = [
        (&["explain", "S", "T"], None),
        (&["explain", "--edge=1", "S", "T"], Some(1)),
        (
            &["explain", "S", "T", "--edge", "18446744073709551615"],
            Some(u64::MAX),
        ),
    ];
    for (given, edge) in &given {
        let edge = *edge;
        assert_job(
            &rt,
            given,
            Job::Explain {
                scenario,
                trace,
                edge,
            },
        );
    }
}

#[test]
fn reads_where_the_state_is_asked(rt: HostRuntime) {
    let (scenario, trace) = ("S", "T");
    let given: [(&[&str], Option<u64>); 3] = [
        (&["state", "S", "T"], None),
        (&["state", "S", "T", "--after", "0"], Some(0)),
        (
            &["state", "S", "--after=18446744073709551615", "T"],
            Some(u64::MAX),
        ),
    ];
    for (given, after) in &given {
        let after = *after;
        assert_job(
            &rt,
            given,
            Job::State {
                scenario,
                trace,
                after,
            },
        );
    }
}

/// What to show of trace `T`: the words, the first edge, the last one, and whether it is painted.
const SHOWS: [(&[&str], u64, u64, bool); 17] = [
    (&["show", "S", "T"], 1, 60, false),
    (&["show", "S", "T", "--color"], 1, 60, true),
    (&["show", "S", "T", "--from", "41"], 41, 100, false),
    (&["show", "--from=1", "S", "T"], 1, 60, false),
    (&["show", "S", "T", "--to", "100"], 41, 100, false),
    (&["show", "S", "T", "--to", "61"], 2, 61, false),
    (&["show", "S", "T", "--to", "60"], 1, 60, false),
    (&["show", "S", "T", "--to", "59"], 1, 59, false),
    (&["show", "S", "T", "--to", "1"], 1, 1, false),
    (
        &["show", "S", "T", "--from", "8", "--to", "31"],
        8,
        31,
        false,
    ),
    (
        &["show", "--to=31", "S", "--color", "T", "--from=8"],
        8,
        31,
        true,
    ),
    (&["show", "S", "T", "--from", "8", "--to", "8"], 8, 8, false),
    (
        &["show", "S", "T", "--from", "8", "--to", "207"],
        8,
        207,
        false,
    ),
    (
        &["show", "S", "T", "--from", "18446744073709551557"],
        u64::MAX - 58,
        u64::MAX,
        false,
    ),
    (
        &["show", "S", "T", "--from", "18446744073709551556"],
        u64::MAX - 59,
        u64::MAX,
        false,
    ),
    (
        &["show", "S", "T", "--from", "18446744073709551555"],
        u64::MAX - 60,
        u64::MAX - 1,
        false,
    ),
    (
        &["show", "S", "T", "--to", "18446744073709551615"],
        u64::MAX - 59,
        u64::MAX,
        false,
    ),
];

#[test]
fn reads_which_edges_to_show(rt: HostRuntime) {
    for (given, from, to, color) in &SHOWS {
        let wanted = Job::Show {
            scenario: "S",
            trace: "T",
            from: *from,
            to: *to,
            color: *color,
        };
        assert_job(&rt, given, wanted);
    }
}

/// What to drive with scenario `S`: the words, the edges and the version.
const DRIVES: [(&[&str], u32, Version); 5] = [
    (&["drive", "S", "--edges", "8"], 8, Version::One),
    (&["drive", "--edges=1", "S"], 1, Version::One),
    (&["drive", "S", "--edges", "1048576"], 1048576, Version::One),
    (
        &["drive", "S", "--edges", "8", "--version", "1"],
        8,
        Version::One,
    ),
    (
        &["drive", "S", "--version=2", "--edges", "8"],
        8,
        Version::Two,
    ),
];

#[test]
fn reads_what_to_drive(rt: HostRuntime) {
    for (given, edges, version) in &DRIVES {
        let wanted = Job::Drive {
            scenario: "S",
            edges: *edges,
            version: *version,
        };
        assert_job(&rt, given, wanted);
    }
}

/// What to draw with scenario `S`: the words, the edges, the seed and the version.
const DRAWS: [(&[&str], u32, u64, Version); 3] = [
    (
        &["drive", "S", "--edges", "8", "--seed", "0"],
        8,
        0,
        Version::One,
    ),
    (
        &["drive", "--seed=7", "S", "--version=2", "--edges=1048576"],
        1048576,
        7,
        Version::Two,
    ),
    (
        &[
            "drive",
            "S",
            "--edges",
            "1",
            "--seed",
            "18446744073709551615",
        ],
        1,
        u64::MAX,
        Version::One,
    ),
];

#[test]
fn reads_what_to_draw(rt: HostRuntime) {
    for (given, edges, seed, version) in &DRAWS {
        let wanted = Job::Draw {
            scenario: "S",
            edges: *edges,
            seed: *seed,
            until: None,
            version: *version,
        };
        assert_job(&rt, given, wanted);
    }
}

/// What a trace is to end with: the word, the goal and the version.
const GOALS: [(&str, Goal, &str, Version); 7] = [
    (
        "iack-passed",
        Goal::Event(Event::IackPassed),
        "1",
        Version::One,
    ),
    (
        "grant-timeout",
        Goal::Event(Event::GrantTimeout),
        "2",
        Version::Two,
    ),
    ("S2", Goal::Miss(Miss::Settling(2)), "1", Version::One),
    (
        "G13 own bgout is high",
        Goal::Miss(Miss::Rule(13, Condition::OwnGrantOutHigh)),
        "1",
        Version::One,
    ),
    (
        "G1 the arbiter picks level N",
        Goal::Miss(Miss::Rule(1, Condition::Picked)),
        "2",
        Version::Two,
    ),
    (
        "G2 BBSY* is low",
        Goal::Miss(Miss::Rule(2, Condition::BusyLow)),
        "1",
        Version::One,
    ),
    (
        "G22 the request was served by an access",
        Goal::Miss(Miss::Unserved(IrqKind::Rora)),
        "1",
        Version::One,
    ),
];

#[test]
fn reads_what_a_trace_ends_with(rt: HostRuntime) {
    for (named, goal, version, rules) in &GOALS {
        let given = [
            "drive",
            "S",
            "--edges=8",
            "--seed=7",
            "--until",
            *named,
            "--version",
            *version,
        ];
        let wanted = Job::Draw {
            scenario: "S",
            edges: 8,
            seed: 7,
            until: Some(*goal),
            version: *rules,
        };
        assert_job(&rt, &given, wanted);
    }
}

/// Which seeds to try: the word, the first and the last.
const SEEDS: [(&str, u64, u64); 5] = [
    ("0..9", 0, 9),
    ("9..9", 9, 9),
    ("0..0", 0, 0),
    ("+7..008", 7, 8),
    (
        "18446744073709551614..18446744073709551615",
        18446744073709551614,
        u64::MAX,
    ),
];

#[test]
fn reads_which_seeds_to_try(rt: HostRuntime) {
    for (named, first, last) in &SEEDS {
        let given = [
            "drive",
            "--until=S2",
            "--seeds",
            *named,
            "--edges=8",
            "--version=2",
            "S",
        ];
        let wanted = Job::Search {
            scenario: "S",
            edges: 8,
            first: *first,
            last: *last,
            goal: Goal::Miss(Miss::Settling(2)),
            version: Version::Two,
            progress: false,
        };
        assert_job(&rt, &given, wanted);
    }
}

#[test]
fn reads_whether_seeds_are_told(rt: HostRuntime) {
    let given = [
        "drive",
        "--progress",
        "S",
        "--edges=8",
        "--seeds=0..9",
        "--until=S2",
    ];
    let wanted = Job::Search {
        scenario: "S",
        edges: 8,
        first: 0,
        last: 9,
        goal: Goal::Miss(Miss::Settling(2)),
        version: Version::One,
        progress: true,
    };
    assert_job(&rt, &given, wanted);
}

/// What names no seeds to try.
const NO_SEEDS: [&str; 14] = [
    "",
    "9",
    "..",
    "9..",
    "..9",
    "9..0",
    "0...9",
    "0..9..9",
    "0.9",
    "-1..9",
    "0..-1",
    "0 ..9",
    "a..b",
    "0..18446744073709551616",
];

#[test]
fn refuses_what_names_no_seeds(rt: HostRuntime) {
    for named in &NO_SEEDS {
        let seeds = format!(in rt.alloc(); "--seeds={named}").expect(&rt, "the word");
        let given = ["drive", "S", "--edges=8", seeds.as_str(), "--until=S2"];
        assert_told(
            &rt,
            &given,
            &["for '--seeds <S..T>'", *named, "vmebus drive", "--help"],
        );
    }
}

#[test]
fn reads_what_to_run(rt: HostRuntime) {
    let given = [
        "run",
        "S",
        "--edges",
        "1048576",
        "--version=2",
        "--turns",
        "1000000",
    ];
    let wanted = Job::Run {
        scenario: "S",
        edges: 1048576,
        turns: 1000000,
        version: Version::Two,
    };
    assert_job(&rt, &given, wanted);
}

/// Words that mean no job.
const REFUSED: [&[&str]; 53] = [
    &["drive", "S", "--edges=8", "--progress"],
    &["drive", "S", "--edges=8", "--seed=0", "--progress"],
    &["drive", "S", "--edges=8", "--seeds=0..9"],
    &[
        "drive",
        "S",
        "--edges=8",
        "--seeds=0..9",
        "--seed=0",
        "--until=S2",
    ],
    &["run", "S", "--edges=8", "--turns=8", "--seeds=0..9"],
    &["drive", "S", "--edges=8", "--until", "delivery"],
    &["drive", "S", "--edges=8", "--seed=7", "--until", "Delivery"],
    &["drive", "S", "--edges=8", "--seed=7", "--until", ""],
    &[
        "drive",
        "S",
        "--edges=8",
        "--seed=7",
        "--until",
        "withdrawn",
    ],
    &["drive", "S", "--edges=8", "--seed=7", "--until", "S3"],
    &["run", "S", "--edges=8", "--turns=8", "--until", "delivery"],
    &["show", "S"],
    &["show", "S", "T", "--from", "0"],
    &["show", "S", "T", "--to", "0"],
    &["show", "S", "T", "--from", "18446744073709551616"],
    &["show", "S", "T", "--from", "8", "--to", "7"],
    &["show", "S", "T", "--from", "8", "--to", "208"],
    &["show", "S", "T", "--to", "1", "--from", "2"],
    &["show", "S", "T", "--from", "8", "--from", "8"],
    &["show", "S", "T", "--color", "--color"],
    &["show", "S", "T", "--color=true"],
    &["show", "S", "T", "--edge", "8"],
    &["summary", "S"],
    &["summary", "S", "T", "--from", "1"],
    &["drive", "S", "--seed", "1"],
    &["drive", "S", "--edges", "8", "--seed", "-1"],
    &[
        "drive",
        "S",
        "--edges",
        "8",
        "--seed",
        "18446744073709551616",
    ],
    &["run", "S", "--edges", "8", "--turns", "8", "--seed", "1"],
    &["explain", "S", "T", "--edge", "0"],
    &["explain", "S", "T", "--edge", "18446744073709551616"],
    &["explain", "S", "T", "--after", "1"],
    &["explain", "S"],
    &["state", "S", "T", "--after", "-1"],
    &["state", "S", "T", "--after", "x"],
    &["run", "S", "--edges", "8"],
    &["run", "S", "--edges", "8", "--turns", "0"],
    &["run", "S", "--edges", "8", "--turns", "1000001"],
    &["drive", "S", "--edges", "0"],
    &["drive", "S", "--edges", "1048577"],
    &["drive", "S", "--edges", "x"],
    &["drive", "S", "--edges"],
    &["drive", "S"],
    &["drive", "--edges", "8"],
    &["drive", "S", "--edges", "8", "--version", "3"],
    &["drive", "S", "--edges", "8", "--version", "0"],
    &["replay", "S"],
    &["replay"],
    &["check", "S", "T", "U"],
    &["walk", "S"],
    &[""],
    &["replay", "S", "T", "--edges", "8"],
    &["--help"],
    &["drive", "--help"],
];

/// Whether words mean no job.
fn are_refused(rt: &impl AllocGlobal, given: &[&str]) -> bool {
    words(rt.alloc(), given).is_err()
}

#[test]
fn refuses_other_words(rt: HostRuntime) {
    for given in &REFUSED {
        assert!(rt; are_refused(&rt, given), "{given:?}");
    }
}

/// The text that the user gets in place of a job, empty where there is a job.
fn told(rt: &(impl Abort + AllocGlobal), given: &[&str]) -> String {
    match words(rt.alloc(), given) {
        Ok(_) => String::new(rt.alloc()),
        Err(error) => format!(in rt.alloc(); "{error}").expect(rt, "the text"),
    }
}

/// Asserts that the text that the user gets has these parts.
fn assert_told(rt: &(impl Abort + AllocGlobal), given: &[&str], parts: &[&str]) {
    let text = told(rt, given);
    for part in parts {
        assert!(rt; text.as_str().contains(*part), "{part} in {text}");
    }
}

const OVERVIEW: [&str; 12] = [
    "Usage: vmebus [COMMAND]",
    "replay   Writes the verdict on each edge",
    "check    Writes whether every edge",
    "explain  Tells why an edge",
    "state    Tells where the bus stands",
    "show     Draws a timing picture of a trace",
    "summary  Counts what traces exercised",
    "drive    Writes a trace",
    "cat board.toml tenure.vme | vmebus",
    "`vme 1`",
    "2 some edge was refused",
    "3 the limit of edges was reached",
];

const REPLAY: [&str; 4] = [
    "Usage: vmebus replay <SCENARIO> <TRACE>",
    "<SCENARIO>  The boards, a TOML file",
    "<TRACE>     The edges, one a line",
    "  vmebus replay board.toml tenure.vme\n",
];

const CHECK: [&str; 3] = [
    "Usage: vmebus check <SCENARIO> <TRACE>",
    "`illegal N VERDICT`",
    "  vmebus check board.toml tenure.vme\n",
];

const EXPLAIN: [&str; 3] = [
    "Usage: vmebus explain <SCENARIO> <TRACE> [--edge <N>]",
    "[default: the first that is refused]",
    "  vmebus explain board.toml tenure.vme --edge 8\n",
];

const STATE: [&str; 3] = [
    "Usage: vmebus state <SCENARIO> <TRACE> [--after <N>]",
    "[default: after all]",
    "  vmebus state board.toml tenure.vme --after 4\n",
];

const SHOW: [&str; 8] = [
    "Usage: vmebus show <SCENARIO> <TRACE> [--from <A>] [--to <B>] [--color]",
    "--from <A>",
    "[default: 1; with --to alone B - 59, at least 1]",
    "--to <B>",
    "[default: A + 59]",
    "--color",
    "  \\ /     an accepted fall, an accepted rise\n",
    "  vmebus show board.toml tenure.vme --from 1 --to 8\n",
];

const SUMMARY: [&str; 3] = [
    "Usage: vmebus summary <SCENARIO> <TRACE>...\n",
    "<TRACE>...  The edges, one a line",
    "  vmebus summary board.toml tenure.vme\n",
];

const DRIVE: [&str; 16] = [
    "       vmebus drive <SCENARIO> --edges <N> --seeds <S..T> --until <EVENT> [--progress] [--version <V>]\n",
    "--progress",
    "`trying seed S`",
    "--seeds <S..T>",
    "`seed S`",
    "  vmebus drive board.toml --edges 60 --seeds 0..1000 --until bus-error > error.vme",
    "Usage: vmebus drive <SCENARIO> --edges <N> [--seed <S> [--until <EVENT>]] [--version <V>]",
    "--until <EVENT>",
    "grant-passed late-request overtaken",
    "--seed <S>",
    "0 to 18446744073709551615",
    "  vmebus drive board.toml --edges 1000 --seed 7 > drawn.vme\n",
    "--edges <N>",
    "1 to 1048576",
    "--version <V>    The version of the rules, 1 or 2 [default: 1]",
    "  vmebus drive board.toml --edges 1000 > tenure.vme\n",
];

const RUN: [&str; 3] = [
    "Usage: vmebus run <SCENARIO> --edges <N> --turns <T> [--version <V>]",
    "1 to 1000000",
    "  vmebus run board.toml --edges 1000 --turns 100000 > tenure.vme\n",
];

/// Words that ask for help, and parts of what they get.
const HELP: [(&[&str], &[&str]); 14] = [
    (&["--help"], &OVERVIEW),
    (&["-h"], &OVERVIEW),
    (&["help"], &OVERVIEW),
    (&["replay", "--help"], &REPLAY),
    (&["help", "check"], &CHECK),
    (&["explain", "--help"], &EXPLAIN),
    (&["help", "state"], &STATE),
    (&["show", "--help"], &SHOW),
    (&["help", "show"], &SHOW),
    (&["summary", "-h"], &SUMMARY),
    (&["help", "drive"], &DRIVE),
    (&["drive", "-h"], &DRIVE),
    (&["drive", "S", "--edges", "8", "--help"], &DRIVE),
    (&["run", "--help"], &RUN),
];

#[test]
fn help_tells_what_each_command_is(rt: HostRuntime) {
    for (given, parts) in &HELP {
        assert_told(&rt, given, parts);
    }
}

/// Words that mean no job, and the part of the text that says why.
const ERRORS: [(&[&str], &str); 23] = [
    (
        &["drive", "S", "--edges=8", "--seed=0", "--progress"],
        "error: the option '--progress' needs '--seeds <S..T>'\n",
    ),
    (
        &["drive", "S", "--edges=8", "--seeds=0..9"],
        "error: the option '--seeds <S..T>' needs '--until <EVENT>'\n",
    ),
    (
        &[
            "drive",
            "S",
            "--edges=8",
            "--seeds=0..9",
            "--seed=0",
            "--until=S2",
        ],
        "error: the options '--seed <S>' and '--seeds <S..T>' exclude each other\n",
    ),
    (
        &["drive", "S", "--edges=8", "--seeds=9..0", "--until=S2"],
        "error: invalid value '9..0' for '--seeds <S..T>': S and T are 0 to 18446744073709551615",
    ),
    (
        &["drive", "S", "--edges=8", "--seeds=0..9", "--until=S3"],
        "error: invalid value 'S3' for '--until <EVENT>': version 1 has no such event\n",
    ),
    (
        &["drive", "S", "--edges=8", "--until", "delivery"],
        "error: the option '--until <EVENT>' needs '--seed <S>' or '--seeds <S..T>'\n",
    ),
    (
        &["drive", "S", "--edges=8", "--seed=7", "--until", "S3"],
        "error: invalid value 'S3' for '--until <EVENT>': version 1 has no such event\n",
    ),
    (
        &["show", "S", "T", "--from", "8", "--to", "7"],
        "error: invalid value '7' for '--to <B>': 7 is not in 8..=207\n",
    ),
    (
        &["show", "S", "T", "--from", "8", "--to", "208"],
        "error: invalid value '208' for '--to <B>': 208 is not in 8..=207\n",
    ),
    (
        &["show", "S", "T", "--from=18446744073709551615", "--to=1"],
        "'--to <B>': 1 is not in 18446744073709551615..=18446744073709551615\n",
    ),
    (
        &["show", "S", "T", "--to", "0"],
        "0 is not in 1..18446744073709551615",
    ),
    (
        &["drive", "S", "--edges", "8", "--seed", "x"],
        "invalid value 'x' for '--seed <S>'",
    ),
    (&["summary", "S"], "<TRACE>"),
    (&["drive", "S", "--edges", "0"], "0 is not in 1..=1048576"),
    (
        &["drive", "S", "--edges", "1048577"],
        "1048577 is not in 1..=1048576",
    ),
    (&["drive", "S", "--edges", "x"], "'x'"),
    (&["drive", "S"], "--edges <N>"),
    (&["drive", "--edges", "8"], "<SCENARIO>"),
    (
        &["drive", "S", "--edges", "8", "--version", "3"],
        "3 is not in 1..=2",
    ),
    (&["check", "S"], "<TRACE>"),
    (&["check", "S", "T", "U"], "'U'"),
    (&["walk", "S"], "'walk'"),
    (&["--"], "a command is missing"),
];

#[test]
fn errors_name_what_is_wrong(rt: HostRuntime) {
    for (given, part) in &ERRORS {
        assert_told(&rt, given, &[part, "--help"]);
    }
}
