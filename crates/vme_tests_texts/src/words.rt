//! What the words of the command line mean. What is printed for usage errors and for help is in
//! `acceptance/words`.
use std::process::Abort;
use vme_command_line::{Choice, Job, Task, Work, words};
use vme_goals::{Aim, Event, Goal, Miss};
use vme_model::{Condition, Driver, IrqKind, Rule, Version};

/// Asserts for which job words ask.
fn assert_job(rt: &(impl Abort + AllocGlobal), given: &[&str], wanted: Job) {
    match words(rt.alloc(), given) {
        Ok(job) => assert!(rt; job == wanted),
        Err(error) => panic!(rt; "{error}"),
    }
}

/// Asserts for which work on a scenario words ask.
fn assert_work(rt: &(impl Abort + AllocGlobal), given: &[&str], scenario: &str, work: Work) {
    assert_job(rt, given, Job::OnScenario { scenario, work });
}

/// Asserts for which task with a trace words ask.
fn assert_task(rt: &(impl Abort + AllocGlobal), given: &[&str], files: (&str, &str), task: Task) {
    let (scenario, trace) = files;
    assert_work(rt, given, scenario, Work::OnTrace { task, trace });
}

#[test]
fn no_words_are_joined(rt: HostRuntime) {
    assert_job(&rt, &[], Job::Joined);
}

#[test]
fn reads_two_files(rt: HostRuntime) {
    let files = ("board.toml", "tenure.vme");
    let (scenario, trace) = files;
    let replay = ["replay", scenario, trace];
    assert_task(&rt, &replay, files, Task::Replay { full: false });
    assert_task(&rt, &["cycles", scenario, trace], files, Task::Cycles);
    assert_task(&rt, &["races", scenario, trace], files, Task::Races);
    let walk = ["races", scenario, trace, "--edge", "7"];
    assert_task(&rt, &walk, files, Task::Walk { edge: 7 });
    assert_task(&rt, &["check", scenario, trace], files, Task::Check);
    assert_task(&rt, &["summary", scenario, trace], files, Task::Summary);
    let other = ["races", "--other=7", scenario, trace];
    assert_work(&rt, &other, scenario, Work::OtherOrder { trace, edge: 7 });
}

#[test]
fn reads_two_traces_to_compare(rt: HostRuntime) {
    let (scenario, trace, other) = ("board.toml", "a.vme", "-b.vme");
    let given = ["same", scenario, trace, "--", other];
    assert_work(&rt, &given, scenario, Work::Same { trace, other });
}

#[test]
fn reads_a_capture(rt: HostRuntime) {
    let (scenario, capture) = ("board.toml", "-seen.cap");
    let given = ["probe", scenario, "--", capture];
    assert_work(&rt, &given, scenario, Work::Probe { capture });
}

#[test]
fn reads_several_traces(rt: HostRuntime) {
    let given = ["summary", "board.toml", "a.vme", "--", "b.vme", "-c.vme"];
    match words(rt.alloc(), &given) {
        Ok(
            Job::OnScenario {
                scenario,
                work: Work::Sums { traces },
            },
        ) => {
            assert!(rt; scenario == "board.toml");
            assert!(rt; traces.as_slice() == ["a.vme", "b.vme", "-c.vme"].as_slice());
        }
        _ => panic!(rt; "no sums"),
    }
}

#[test]
fn reads_which_edge_to_explain(rt: HostRuntime) {
    let given: [(&[&str], Option<u64>); 3] = [
        (&["explain", "S", "T"], None),
        (&["explain", "--edge=1", "S", "T"], Some(1)),
        (
            &["explain", "S", "T", "--edge", "18446744073709551615"],
            Some(u64::MAX),
        ),
    ];
    for (given, edge) in &given {
        assert_task(&rt, given, ("S", "T"), Task::Explain { edge: *edge });
    }
}

#[test]
fn reads_where_the_state_is_asked(rt: HostRuntime) {
    let given: [(&[&str], Option<u64>); 3] = [
        (&["state", "S", "T"], None),
        (&["state", "S", "T", "--after", "0"], Some(0)),
        (
            &["state", "S", "--after=18446744073709551615", "T"],
            Some(u64::MAX),
        ),
    ];
    for (given, after) in &given {
        assert_task(&rt, given, ("S", "T"), Task::State { after: *after });
    }
}

/// What to show of trace `T`: the words, the first edge, the last one, and whether it is coloured.
const SHOWS: [(&[&str], u64, u64, bool); 17] = [
    (&["show", "S", "T"], 1, 60, false),
    (&["show", "S", "T", "--color"], 1, 60, true),
    (&["show", "S", "T", "--from", "41"], 41, 100, false),
    (&["show", "--from=1", "S", "T"], 1, 60, false),
    (&["show", "S", "T", "--to", "100"], 41, 100, false),
    (&["show", "S", "T", "--to", "61"], 2, 61, false),
    (&["show", "S", "T", "--to", "60"], 1, 60, false),
    (&["show", "S", "T", "--to", "59"], 1, 59, false),
    (&["show", "S", "T", "--to", "1"], 1, 1, false),
    (
        &["show", "S", "T", "--from", "8", "--to", "31"],
        8,
        31,
        false,
    ),
    (
        &["show", "--to=31", "S", "--color", "T", "--from=8"],
        8,
        31,
        true,
    ),
    (&["show", "S", "T", "--from", "8", "--to", "8"], 8, 8, false),
    (
        &["show", "S", "T", "--from", "8", "--to", "207"],
        8,
        207,
        false,
    ),
    (
        &["show", "S", "T", "--from", "18446744073709551557"],
        u64::MAX - 58,
        u64::MAX,
        false,
    ),
    (
        &["show", "S", "T", "--from", "18446744073709551556"],
        u64::MAX - 59,
        u64::MAX,
        false,
    ),
    (
        &["show", "S", "T", "--from", "18446744073709551555"],
        u64::MAX - 60,
        u64::MAX - 1,
        false,
    ),
    (
        &["show", "S", "T", "--to", "18446744073709551615"],
        u64::MAX - 59,
        u64::MAX,
        false,
    ),
];

#[test]
fn reads_which_edges_to_show(rt: HostRuntime) {
    for (given, from, to, color) in &SHOWS {
        let wanted = Task::Show {
            from: *from,
            to: *to,
            color: *color,
        };
        assert_task(&rt, given, ("S", "T"), wanted);
    }
}

/// What to drive with scenario `S`: the words, the edges and the version.
const DRIVES: [(&[&str], u32, Version); 5] = [
    (&["drive", "S", "--edges", "8"], 8, Version::One),
    (&["drive", "--edges=1", "S"], 1, Version::One),
    (&["drive", "S", "--edges", "1048576"], 1048576, Version::One),
    (
        &["drive", "S", "--edges", "8", "--version", "1"],
        8,
        Version::One,
    ),
    (
        &["drive", "S", "--version=2", "--edges", "8"],
        8,
        Version::Two,
    ),
];

#[test]
fn reads_what_to_drive(rt: HostRuntime) {
    for (given, edges, version) in &DRIVES {
        let wanted = Work::Drive {
            edges: *edges,
            version: *version,
            choice: Choice::InTurn,
        };
        assert_work(&rt, given, "S", wanted);
    }
}

/// What to draw with scenario `S`: the words, the edges, the seed and the version.
const DRAWS: [(&[&str], u32, u64, Version); 3] = [
    (
        &["drive", "S", "--edges", "8", "--seed", "0"],
        8,
        0,
        Version::One,
    ),
    (
        &["drive", "--seed=7", "S", "--version=2", "--edges=1048576"],
        1048576,
        7,
        Version::Two,
    ),
    (
        &[
            "drive",
            "S",
            "--edges",
            "1",
            "--seed",
            "18446744073709551615",
        ],
        1,
        u64::MAX,
        Version::One,
    ),
];

#[test]
fn reads_what_to_draw(rt: HostRuntime) {
    for (given, edges, seed, version) in &DRAWS {
        let wanted = Work::Drive {
            edges: *edges,
            version: *version,
            choice: Choice::Drawn {
                seed: *seed,
                until: None,
            },
        };
        assert_work(&rt, given, "S", wanted);
    }
}

/// The goal of any driver, behind no edge.
fn goal(aim: Aim) -> Goal {
    Goal {
        aim,
        driver: None,
        after: 0,
    }
}

/// With what a trace is to end: the word, the aim and the version.
const AIMS: [(&str, Aim, &str, Version); 8] = [
    (
        "iack-passed",
        Aim::Event(Event::IackPassed),
        "1",
        Version::One,
    ),
    (
        "grant-timeout",
        Aim::Event(Event::GrantTimeout),
        "2",
        Version::Two,
    ),
    ("S2", Aim::Miss(Miss::Settling(2)), "1", Version::One),
    ("G13", Aim::Miss(Miss::AnyOf(Rule::G13)), "2", Version::Two),
    (
        "G13 own bgout is high",
        Aim::Miss(Miss::Rule(13, Condition::OwnGrantOutHigh)),
        "1",
        Version::One,
    ),
    (
        "G1 the arbiter picks level N",
        Aim::Miss(Miss::Rule(1, Condition::Picked)),
        "2",
        Version::Two,
    ),
    (
        "G2 BBSY* is low",
        Aim::Miss(Miss::Rule(2, Condition::BusyLow)),
        "1",
        Version::One,
    ),
    (
        "G22 the request was served by an access",
        Aim::Miss(Miss::Unserved(IrqKind::Rora)),
        "1",
        Version::One,
    ),
];

#[test]
fn reads_what_a_trace_ends_with(rt: HostRuntime) {
    for (named, aim, version, rules) in &AIMS {
        let given = [
            "drive",
            "S",
            "--edges=8",
            "--seed=7",
            "--until",
            *named,
            "--version",
            *version,
        ];
        let wanted = Work::Drive {
            edges: 8,
            version: *rules,
            choice: Choice::Drawn {
                seed: 7,
                until: Some(goal(*aim)),
            },
        };
        assert_work(&rt, &given, "S", wanted);
    }
}

/// The driver and the place of a goal: the words after `--of` and `--after`, and what they name.
const PLACES: [(&str, &str, Driver, u64); 4] = [
    ("c", "0", Driver::Controller, 0),
    ("2", "20", Driver::Slot(2), 20),
    ("+021", "+07", Driver::Slot(21), 7),
    ("1", "18446744073709551615", Driver::Slot(1), u64::MAX),
];

#[test]
fn reads_whose_edge_a_trace_ends_with(rt: HostRuntime) {
    for (driver, after, only, least) in &PLACES {
        let given = [
            "drive",
            "S",
            "--edges=8",
            "--seed=7",
            "--after",
            *after,
            "--until=G13",
            "--of",
            *driver,
        ];
        let goal = Goal {
            aim: Aim::Miss(Miss::AnyOf(Rule::G13)),
            driver: Some(*only),
            after: *least,
        };
        let wanted = Work::Drive {
            edges: 8,
            version: Version::One,
            choice: Choice::Drawn {
                seed: 7,
                until: Some(goal),
            },
        };
        assert_work(&rt, &given, "S", wanted);
    }
}

/// Which seeds to try: the word, the first and the last.
const SEEDS: [(&str, u64, u64); 5] = [
    ("0..9", 0, 9),
    ("9..9", 9, 9),
    ("0..0", 0, 0),
    ("+7..008", 7, 8),
    (
        "18446744073709551614..18446744073709551615",
        18446744073709551614,
        u64::MAX,
    ),
];

#[test]
fn reads_which_seeds_to_try(rt: HostRuntime) {
    for (named, first, last) in &SEEDS {
        let given = [
            "drive",
            "--until=S2",
            "--seeds",
            *named,
            "--edges=8",
            "--version=2",
            "S",
        ];
        let wanted = Work::Drive {
            edges: 8,
            version: Version::Two,
            choice: Choice::Sought {
                first: *first,
                last: *last,
                goal: goal(Aim::Miss(Miss::Settling(2))),
                progress: false,
            },
        };
        assert_work(&rt, &given, "S", wanted);
    }
}

#[test]
fn reads_whether_seeds_are_told(rt: HostRuntime) {
    let given = [
        "drive",
        "--progress",
        "S",
        "--edges=8",
        "--seeds=0..9",
        "--until=S2",
    ];
    let wanted = Work::Drive {
        edges: 8,
        version: Version::One,
        choice: Choice::Sought {
            first: 0,
            last: 9,
            goal: goal(Aim::Miss(Miss::Settling(2))),
            progress: true,
        },
    };
    assert_work(&rt, &given, "S", wanted);
}

#[test]
fn reads_what_to_run(rt: HostRuntime) {
    let given = [
        "run",
        "S",
        "--edges",
        "1048576",
        "--version=2",
        "--turns",
        "1000000",
    ];
    let wanted = Work::Run {
        edges: 1048576,
        turns: 1000000,
        version: Version::Two,
    };
    assert_work(&rt, &given, "S", wanted);
}
