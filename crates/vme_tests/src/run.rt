//! What no clause says of a run: that the boards come to their edges, and that a run finds its memory.
ghost use Rattle.std.specs.Prelude.{◌≤◌};
ghost use Rattle.vme_model.specs.Report.{trace_limit};

use std::alloc::Global;
use std::process::Abort;
use std::sync::Wait;
use std::thread::Threads;
use vme_engines::{Status, check};
use vme_model::Version;
use vme_run::run;

const ONE_BOARD: &str =
    "slots = 1\narbiter = \"sgl\"\n\n[[board]]\nslot = 1\nrequester = { level = 3, release = \"rwd\", burst = 1 }\n";

const TWO_BOARDS: &str =
    "slots = 2\narbiter = \"sgl\"\n\n[[board]]\nslot = 1\nrequester = { level = 3, release = \"rwd\", burst = 1 }\n\n[[board]]\nslot = 2\nrequester = { level = 3, release = \"rwd\", burst = 1 }\n";

/// The scenario of 21 boards, which request on four levels.
const ALL_BOARDS: &str = r#"slots = 21
arbiter = "pri"
board = [
  { slot = 1, requester = { level = 1, release = "rwd", burst = 2 } },
  { slot = 2, requester = { level = 2, release = "rwd", burst = 2 } },
  { slot = 3, requester = { level = 3, release = "rwd", burst = 2 } },
  { slot = 4, requester = { level = 0, release = "rwd", burst = 2 } },
  { slot = 5, requester = { level = 1, release = "rwd", burst = 2 } },
  { slot = 6, requester = { level = 2, release = "rwd", burst = 2 } },
  { slot = 7, requester = { level = 3, release = "rwd", burst = 2 } },
  { slot = 8, requester = { level = 0, release = "rwd", burst = 2 } },
  { slot = 9, requester = { level = 1, release = "rwd", burst = 2 } },
  { slot = 10, requester = { level = 2, release = "rwd", burst = 2 } },
  { slot = 11, requester = { level = 3, release = "rwd", burst = 2 } },
  { slot = 12, requester = { level = 0, release = "rwd", burst = 2 } },
  { slot = 13, requester = { level = 1, release = "rwd", burst = 2 } },
  { slot = 14, requester = { level = 2, release = "rwd", burst = 2 } },
  { slot = 15, requester = { level = 3, release = "rwd", burst = 2 } },
  { slot = 16, requester = { level = 0, release = "rwd", burst = 2 } },
  { slot = 17, requester = { level = 1, release = "rwd", burst = 2 } },
  { slot = 18, requester = { level = 2, release = "rwd", burst = 2 } },
  { slot = 19, requester = { level = 3, release = "rwd", burst = 2 } },
  { slot = 20, requester = { level = 0, release = "rwd", burst = 2 } },
  { slot = 21, requester = { level = 1, release = "rwd", burst = 2 } },
]
"#;

/// How a run ends, and what it writes.
#[derive(Drop)]
struct Ran {
    status: Status,
    trace: Vec<u8>,
}

impl Ran {
    /// How many edges the trace has.
    fn edges(&self) -> usize {
        let mut lines: usize = 0;
        for byte in &self.trace {
            if *byte == b'\n' {
                lines = lines.saturating_add(1);
            }
        }
        lines.saturating_sub(1)
    }
}

/// What `check` says of a trace.
fn verdict(rt: &impl Abort, alloc: Global, text: &str, trace: &[u8]) -> Vec<u8> {
    let mut verdict = Vec::new(alloc);
    match check(alloc, text.as_bytes(), &mut { trace }, &mut verdict) {
        Ok(_) => verdict,
        Err(fault) => panic!(rt; "{fault}"),
    }
}

/// Asserts that `check` calls the trace of a run legal.
fn assert_legal(rt: &impl Abort, alloc: Global, text: &str, ran: &Ran) {
    let legal = format!(in alloc; "legal {}\n", ran.edges()).expect(rt, "the text");
    assert!(rt; verdict(rt, alloc, text, &ran.trace).as_slice() == legal.as_bytes());
}

/// Asserts that the status is `Limit` exactly where the trace has as many edges as were asked for.
fn assert_limit(rt: &impl Abort, ran: &Ran, edges: u32) {
    assert!(rt; ran.edges() <= edges as usize);
    assert!(rt; (ran.status == Status::Limit) == (ran.edges() == edges as usize));
}

/// Runs a scenario.
fn finished_run<R: Threads + Wait + Abort + Sync>(
    rt: &R,
    alloc: Global,
    text: &str,
    edges: u32,
    turns: u32,
    version: Version,
) -> Ran
    requires { (edges ≤ trace_limit) × (turns ≤ 1000000) }
{
    let mut trace = Vec::new(alloc);
    match run(
        rt,
        alloc,
        text.as_bytes(),
        edges,
        turns,
        &mut trace,
        version,
    ) {
        Ok(status) => Ran { status, trace },
        Err(fault) => panic!(rt; "{fault}"),
    }
}

/// Runs a scenario, and asserts that its trace is legal, and its status right.
fn checked_run<R: Threads + Wait + Abort + Sync>(
    rt: &R,
    alloc: Global,
    text: &str,
    edges: u32,
    turns: u32,
    version: Version,
) -> Ran
    requires { (edges ≤ trace_limit) × (turns ≤ 1000000) }
{
    let ran = finished_run(rt, alloc, text, edges, turns, version);
    assert_legal(rt, alloc, text, &ran);
    assert_limit(rt, &ran, edges);
    ran
}

/// One edge can be made at power-up: the request.
#[test]
fn one_edge(rt: HostRuntime) {
    let ran = checked_run(&rt, rt.alloc(), ONE_BOARD, 1, 1, Version::One);
    assert!(rt; ran.trace.as_slice() == b"vme 1\n1 br-\n".as_slice());
    assert!(rt; ran.status == Status::Limit);
}

/// Asserts that a run is done after the request, or after its grant.
fn assert_one_turn(rt: &impl Abort, ran: &Ran) {
    let trace = ran.trace.as_slice();
    assert!(rt;
        trace == b"vme 2\n1 br-\n".as_slice() || trace == b"vme 2\n1 br-\nc bg3-\n".as_slice()
    );
    assert!(rt; ran.status == Status::Done);
}

/// In one turn each, the board requests, and the controller grants where its turn comes later.
#[test]
fn one_turn(rt: HostRuntime) {
    for _run in 0..50 {
        let ran = checked_run(&rt, rt.alloc(), ONE_BOARD, 1_000, 1, Version::Two);
        assert_one_turn(&rt, &ran);
    }
}

/// What two boards write is a legal trace, and more than its header.
#[test]
fn two_boards(rt: HostRuntime) {
    let ran = checked_run(&rt, rt.alloc(), TWO_BOARDS, 50, 10_000, Version::Two);
    assert!(rt; ran.trace.as_slice().starts_with(b"vme 2\n"));
    assert!(rt; ran.edges() > 1);
}

/// Asserts that 21 boards come to 21 edges, the limit.
fn assert_full<R: Threads + Wait + Abort + Sync>(rt: &R, alloc: Global) {
    let full = checked_run(rt, alloc, ALL_BOARDS, 21, 1_000, Version::One);
    assert!(rt; full.status == Status::Limit);
}

/// Asserts that 21 boards come to their first edges in a turn each, and the controller to one at most.
fn assert_short<R: Threads + Wait + Abort + Sync>(rt: &R, alloc: Global) {
    let short = checked_run(rt, alloc, ALL_BOARDS, 1_000, 1, Version::Two);
    assert!(rt; short.status == Status::Done);
    assert!(rt; short.edges() == 21 || short.edges() == 22);
}

/// Each of 21 boards comes to its first edge, whatever the others do: nobody can take it away.
#[test]
fn first_edges_of_all_boards(rt: HostRuntime) {
    for _run in 0..50 {
        assert_full(&rt, rt.alloc());
        assert_short(&rt, rt.alloc());
    }
}

/// Asserts that what 21 boards do is legal, and has their first edges.
fn assert_many_edges<R: Threads + Wait + Abort + Sync>(rt: &R, alloc: Global, version: Version) {
    let ran = checked_run(rt, alloc, ALL_BOARDS, 500, 200, version);
    assert!(rt; ran.edges() >= 21);
}

/// Whatever 21 boards do, it is legal.
#[test]
fn many_edges_of_all_boards(rt: HostRuntime) {
    for _run in 0..10 {
        assert_many_edges(&rt, rt.alloc(), Version::One);
        assert_many_edges(&rt, rt.alloc(), Version::Two);
    }
}
