//! What no clause says: the happy path of each engine, and devices that fail.
use crate::devices::{Narrow, Pieces};
use std::alloc::AllocError;
use std::io::Read;
use std::process::Abort;
use vme_engines::{EngineFault, SCENARIO_LIMIT, Status, check, drive, joined, replay};
use vme_model::Version;
use vme_trace::Fault;

/// One board that requests the bus at level 3.
const ONE_BOARD: &[u8] = b"slots = 1
arbiter = \"sgl\"

[[board]]
slot = 1
requester = { level = 3, release = \"rwd\", burst = 1 }
";

/// One tenure of the bus.
const TENURE: &[u8] = b"vme 1
1 br-
c bg3-
1 bbsy-
1 br+
c bg3+
1 bbsy+
";

const REPORT: &[u8] = b"1 ok
2 ok
3 ok
4 ok
5 ok
6 ok
accepted 6 refused 0
";

/// The two in one input.
const BOTH: &[u8] = b"slots = 1
arbiter = \"sgl\"

[[board]]
slot = 1
requester = { level = 3, release = \"rwd\", burst = 1 }
vme 1
1 br-
c bg3-
1 bbsy-
1 br+
c bg3+
1 bbsy+
";

/// Asserts how an engine ended, with a status or at a fault of the trace, and what it wrote.
fn assert_ended(
    rt: &impl Abort,
    answer: Result<Status, EngineFault>,
    out: &[u8],
    wanted: Result<Status, EngineFault>,
    written: &[u8],
) {
    assert!(rt; answer == wanted);
    assert!(rt; out == written);
}

/// Asserts how `joined` ends, and what it writes.
fn assert_joined<R: Read>(
    rt: &(impl Abort + AllocGlobal),
    input: &mut R,
    wanted: Result<Status, EngineFault>,
    written: &[u8],
) {
    let mut out = Vec::new(rt.alloc());
    let answer = joined(rt.alloc(), input, &mut out);
    assert_ended(rt, answer, &out, wanted, written);
}

#[test]
fn joins_a_tenure(rt: HostRuntime) {
    assert_joined(&rt, &mut { BOTH }, Ok(Status::Done), REPORT);
}

#[test]
fn joins_byte_by_byte(rt: HostRuntime) {
    assert_joined(&rt, &mut Pieces::new(BOTH, 1), Ok(Status::Done), REPORT);
}

#[test]
fn a_failing_read_before_the_trace_is_no_scenario(rt: HostRuntime) {
    let mut input = Pieces::new(BOTH, 1).failing_at(13);
    assert_joined(&rt, &mut input, Err(EngineFault::CannotRead), b"");
}

/// Inputs without a header line.
const NO_TRACES: [&[u8]; 8] = [
    b"",
    b"\n",
    b"\n\nvme 1",
    b"slots = 1\n",
    b"vme 1",
    b"vme 1\r\n",
    b" vme 1\n",
    b"vme 3\n",
];

/// Whether `joined` finds no trace in an input, and writes nothing.
fn finds_no_trace(rt: &impl AllocGlobal, input: &[u8]) -> bool {
    let mut out = Vec::new(rt.alloc());
    let answer = joined(rt.alloc(), &mut { input }, &mut out);
    matches!(answer, Err(EngineFault::Trace(Fault::Header))) && out.is_empty()
}

#[test]
fn no_header_line_is_no_trace(rt: HostRuntime) {
    for case in &NO_TRACES {
        assert!(rt; finds_no_trace(&rt, case), "{case:?}");
    }
}

#[test]
fn a_full_device_cuts_the_report(rt: HostRuntime) {
    let mut out = Narrow::new(rt.alloc(), usize::MAX, 7);
    let answer = joined(rt.alloc(), &mut { BOTH }, &mut out);
    assert_ended(
        &rt,
        answer,
        out.taken(),
        Err(EngineFault::Trace(Fault::Write)),
        b"1 ok\n2 ",
    );
}

/// Three boards, of which the first has no parts.
const THREE_BOARDS: &[u8] = b"slots = 3
arbiter = \"sgl\"
board = [
  { slot = 1 },
  { slot = 2, requester = { level = 3, release = \"rwd\", burst = 1 } },
  { slot = 3, requester = { level = 3, release = \"rwd\", burst = 1 } },
]
";

/// Asserts how `replay` ends, and what it writes.
fn assert_replayed<R: Read>(
    rt: &(impl Abort + AllocGlobal),
    scenario: &[u8],
    trace: &mut R,
    wanted: Result<Status, EngineFault>,
    written: &[u8],
) {
    let mut out = Vec::new(rt.alloc());
    let answer = replay(rt.alloc(), scenario, trace, &mut out);
    assert_ended(rt, answer, &out, wanted, written);
}

#[test]
fn replays_a_tenure(rt: HostRuntime) {
    assert_replayed(&rt, ONE_BOARD, &mut { TENURE }, Ok(Status::Done), REPORT);
}

#[test]
fn replays_no_edge(rt: HostRuntime) {
    let mut trace: &[u8] = b"vme 1\n";
    let written = b"accepted 0 refused 0\n";
    assert_replayed(&rt, ONE_BOARD, &mut trace, Ok(Status::Done), written);
}

// A request that comes after the grant is too late for it.
#[test]
fn goes_on_behind_a_refused_edge(rt: HostRuntime) {
    let mut trace: &[u8] = b"vme 1\n3 br-\nc bg3-\n2 bgout-\n2 br-\n2 bbsy-\n3 bbsy-\n";
    let written = b"1 ok\n2 ok\n3 ok\n4 ok\n5 E3 G13\n6 ok\naccepted 5 refused 1\n";
    assert_replayed(
        &rt,
        THREE_BOARDS,
        &mut trace,
        Ok(Status::SomeRefused),
        written,
    );
}

// The thirteenth read is after the header line's six bytes and the first edge's six.
#[test]
fn a_failing_read_leaves_the_verdicts_before_it(rt: HostRuntime) {
    let mut trace = Pieces::new(TENURE, 1).failing_at(13);
    assert_replayed(
        &rt,
        ONE_BOARD,
        &mut trace,
        Err(EngineFault::Trace(Fault::Read)),
        b"1 ok\n",
    );
}

/// Traces, their faults, and what is written before.
const FAULTY: [(&[u8], Fault, &[u8]); 7] = [
    (b"", Fault::Header, b""),
    (b"vme 3\n", Fault::Header, b""),
    (b"vme 1", Fault::CutOff, b""),
    (b"vme 1\n1 br-\nc bg", Fault::CutOff, b"1 ok\n"),
    (b"vme 1\n1 br-\n1 bg3-\n", Fault::Line { n: 3 }, b"1 ok\n"),
    (b"vme 1\n1 br-\n\n", Fault::Line { n: 3 }, b"1 ok\n"),
    (
        b"vme 1\naaaaaaaaaaaaaaaaaaaaaaaaaaaaaaaaaaaaaaaaaaaaaaaaaaaaaaaaaaaaaaaaa",
        Fault::TooLong { n: 2 },
        b"",
    ),
];

/// Whether a replay ends at a fault, after these verdicts.
fn ends_at(rt: &impl AllocGlobal, trace: &[u8], fault: Fault, written: &[u8]) -> bool {
    let mut out = Vec::new(rt.alloc());
    let answer = replay(rt.alloc(), ONE_BOARD, &mut { trace }, &mut out);
    matches!(answer, Err(EngineFault::Trace(found)) if found == fault) && out.as_slice() == written
}

#[test]
fn a_replay_ends_at_a_fault_of_the_trace(rt: HostRuntime) {
    for (text, fault, written) in &FAULTY {
        assert!(rt; ends_at(&rt, text, *fault, written), "{text:?}");
    }
}

#[test]
fn a_long_scenario_is_not_read(rt: HostRuntime) -> Result<(), AllocError> {
    let scenario = vec![in rt.alloc(); b' '; SCENARIO_LIMIT + 1]?;
    let mut trace = TENURE;
    assert_replayed(&rt, &scenario, &mut trace, Err(EngineFault::TooLong), b"");
    assert!(rt; trace.len() == TENURE.len());
    Ok(())
}

/// Asserts the text of a fault.
fn assert_text(rt: &(impl Abort + AllocGlobal), fault: &EngineFault, wanted: &str) {
    assert!(rt; matches!(fault.to_string(rt.alloc()), Ok(text) if text.as_str() == wanted));
}

#[test]
fn faults_have_their_texts(rt: HostRuntime) {
    assert_text(&rt, &EngineFault::CannotRead, "F1 cannot read the scenario");
    assert_text(&rt, &EngineFault::TooLong, "F2 the scenario is too long");
    assert_text(&rt, &EngineFault::NoMemory, "F3 no memory");
    assert_text(
        &rt,
        &EngineFault::Trace(Fault::CutOff),
        "X4 the trace is cut off",
    );
}

/// Asserts how `check` ends, and what it writes.
fn assert_checked<R: Read>(
    rt: &(impl Abort + AllocGlobal),
    scenario: &[u8],
    trace: &mut R,
    wanted: Result<Status, EngineFault>,
    written: &[u8],
) {
    let mut out = Vec::new(rt.alloc());
    let answer = check(rt.alloc(), scenario, trace, &mut out);
    assert_ended(rt, answer, &out, wanted, written);
}

#[test]
fn a_tenure_is_legal(rt: HostRuntime) {
    assert_checked(
        &rt,
        ONE_BOARD,
        &mut { TENURE },
        Ok(Status::Done),
        b"legal 6\n",
    );
}

#[test]
fn a_check_ends_at_a_refused_edge(rt: HostRuntime) {
    let mut trace: &[u8] = b"vme 1\n3 br-\nc bg3-\n2 bgout-\n2 br-\n2 bbsy-\n3 bbsy-\n4 br-";
    let written = b"illegal 5 E3 G13\n";
    assert_checked(
        &rt,
        THREE_BOARDS,
        &mut trace,
        Ok(Status::SomeRefused),
        written,
    );
}

#[test]
fn a_check_says_nothing_at_a_fault(rt: HostRuntime) {
    let mut cut: &[u8] = b"vme 1\n1 br-\nc bg";
    assert_checked(
        &rt,
        ONE_BOARD,
        &mut cut,
        Err(EngineFault::Trace(Fault::CutOff)),
        b"",
    );
    let mut drip = Pieces::new(TENURE, 1).failing_at(13);
    assert_checked(
        &rt,
        ONE_BOARD,
        &mut drip,
        Err(EngineFault::Trace(Fault::Read)),
        b"",
    );
}

#[test]
fn a_full_device_cuts_a_finding(rt: HostRuntime) {
    let mut out = Narrow::new(rt.alloc(), usize::MAX, 5);
    let answer = check(rt.alloc(), ONE_BOARD, &mut { TENURE }, &mut out);
    assert_ended(
        &rt,
        answer,
        out.taken(),
        Err(EngineFault::Trace(Fault::Write)),
        b"legal",
    );
}

/// Asserts how `drive` ends after at most eight edges, and what it writes.
fn assert_driven(
    rt: &(impl Abort + AllocGlobal),
    scenario: &[u8],
    version: Version,
    wanted: Status,
    written: &[u8],
) {
    let mut out = Vec::new(rt.alloc());
    let answer = drive(rt.alloc(), scenario, 8, &mut out, version);
    assert_ended(rt, answer, &out, Ok(wanted), written);
}

#[test]
fn drives_a_board_to_the_limit(rt: HostRuntime) {
    let written = b"vme 1\n1 br-\nc bg3-\n1 bbsy-\nc bg3+\n1 br+\n1 addr- r1\n1 as-\n1 ds-\n";
    assert_driven(&rt, ONE_BOARD, Version::One, Status::Limit, written);
}

#[test]
fn a_board_without_parts_makes_no_edge(rt: HostRuntime) {
    let scenario = b"slots = 1\narbiter = \"sgl\"\nboard = [{ slot = 1 }]\n";
    assert_driven(&rt, scenario, Version::Two, Status::Done, b"vme 2\n");
}

#[test]
fn a_full_device_cuts_a_trace(rt: HostRuntime) {
    let mut out = Narrow::new(rt.alloc(), usize::MAX, 7);
    let answer = drive(rt.alloc(), ONE_BOARD, 8, &mut out, Version::One);
    assert_ended(
        &rt,
        answer,
        out.taken(),
        Err(EngineFault::Trace(Fault::Write)),
        b"vme 1\n1",
    );
}
