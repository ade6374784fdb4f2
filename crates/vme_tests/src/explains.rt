//! What no clause says of `explain` and `state`: the happy path of each, their faults, and devices that fail.
use crate::devices::{Narrow, Pieces};
use std::io::Read;
use std::process::Abort;
use vme_engines::{EngineFault, Status, explain, state};
use vme_trace::Fault;

/// Three boards on one chain.
const THREE_BOARDS: &[u8] = b"slots = 4
arbiter = \"sgl\"
board = [
  { slot = 1 },
  { slot = 2, requester = { level = 3, release = \"rwd\", burst = 1 } },
  { slot = 3, requester = { level = 3, release = \"rwd\", burst = 1 } },
  { slot = 4, requester = { level = 3, release = \"rwd\", burst = 1 } },
]
";

/// A request that comes after the grant was passed on, its refused take, and a line that is cut off.
const LATE: &[u8] = b"vme 1
4 br-
c bg3-
2 bgout-
2 br-
2 bbsy-
3 br-
c b";

const TAKEN_LATE: &[u8] = b"5 2 bbsy- E3 G13
holds own grant-in is low
    c bg3 low since 2
fails own bgout is high
    2 bgout low since 3
holds own br is low
    2 br low since 4
";

const GRANTED: &[u8] = b"2 c bg3- ok
holds all four grants are high
holds BBSY* is high
holds the arbiter picks level 3
    4 br low level 3 since 1
    level last granted 0
    pick 3
";

/// Asserts how `explain` ends, and what it writes.
fn assert_explained<R: Read>(
    rt: &(impl Abort + AllocGlobal),
    trace: &mut R,
    edge: Option<u64>,
    wanted: Result<Status, EngineFault>,
    written: &[u8],
) {
    let mut out = Vec::new(rt.alloc());
    let answer = explain(rt.alloc(), THREE_BOARDS, trace, edge, &mut out);
    assert!(rt; answer == wanted);
    assert!(rt; out.as_slice() == written);
}

#[test]
fn explains_the_first_that_is_refused(rt: HostRuntime) {
    assert_explained(
        &rt,
        &mut { LATE },
        None,
        Ok(Status::SomeRefused),
        TAKEN_LATE,
    );
}

#[test]
fn explains_an_accepted_edge(rt: HostRuntime) {
    assert_explained(&rt, &mut { LATE }, Some(2), Ok(Status::Done), GRANTED);
}

#[test]
fn explains_nothing_at_a_fault(rt: HostRuntime) {
    let faults: [(&[u8], Option<u64>, EngineFault); 4] = [
        (LATE, Some(7), EngineFault::Trace(Fault::CutOff)),
        (
            b"vme 1
4 br-
c bg",
            None,
            EngineFault::Trace(Fault::CutOff),
        ),
        (
            b"vme 1
4 br-
",
            Some(2),
            EngineFault::Beyond(1),
        ),
        (
            b"vme 3
",
            Some(1),
            EngineFault::Trace(Fault::Header),
        ),
    ];
    for (trace, edge, fault) in faults {
        let mut trace = trace;
        assert_explained(&rt, &mut trace, edge, Err(fault), b"");
    }
}

#[test]
fn an_explanation_needs_reads_and_writes(rt: HostRuntime) {
    let mut drip = Pieces::new(LATE, 1).failing_at(13);
    let fault = Err(EngineFault::Trace(Fault::Read));
    assert_explained(&rt, &mut drip, None, fault, b"");
    let mut out = Narrow::new(rt.alloc(), usize::MAX, 7);
    let answer = explain(rt.alloc(), THREE_BOARDS, &mut { LATE }, None, &mut out);
    assert!(rt; answer == Err(EngineFault::Trace(Fault::Write)));
    assert!(rt; out.taken() == b"5 2 bbs".as_slice());
}

#[test]
fn all_edges_of_a_trace_may_be_legal(rt: HostRuntime) {
    let mut trace: &[u8] = b"vme 2
4 br-
3 br-
";
    assert_explained(
        &rt,
        &mut trace,
        None,
        Ok(Status::Done),
        b"legal 2
",
    );
}

const AFTER_FOUR: &[u8] = b"after 4 accepted 4
holder none
grant bg3 at 3
shown none
asks 2 level 3 since 4
asks 4 level 3 since 1
low c bg3
low 2 br, bgout
low 4 br
open 3 br-, bgout-
";

/// Asserts how `state` ends, and what it writes.
fn assert_stands<R: Read>(
    rt: &(impl Abort + AllocGlobal),
    trace: &mut R,
    after: Option<u64>,
    wanted: Result<Status, EngineFault>,
    written: &[u8],
) {
    let mut out = Vec::new(rt.alloc());
    let answer = state(rt.alloc(), THREE_BOARDS, trace, after, &mut out);
    assert!(rt; answer == wanted);
    assert!(rt; out.as_slice() == written);
}

#[test]
fn tells_where_the_bus_stands(rt: HostRuntime) {
    assert_stands(&rt, &mut { LATE }, Some(4), Ok(Status::Done), AFTER_FOUR);
}

#[test]
fn tells_no_state_at_a_fault(rt: HostRuntime) {
    let cut = Err(EngineFault::Trace(Fault::CutOff));
    assert_stands(&rt, &mut { LATE }, None, cut, b"");
    let mut short: &[u8] = b"vme 1
4 br-
";
    let beyond = Err(EngineFault::Beyond(1));
    assert_stands(&rt, &mut short, Some(2), beyond, b"");
    let mut headless: &[u8] = b"4 br-
";
    let fault = Err(EngineFault::Trace(Fault::Header));
    assert_stands(&rt, &mut headless, Some(0), fault, b"");
}

#[test]
fn a_state_needs_room_for_its_lines(rt: HostRuntime) {
    let mut out = Narrow::new(rt.alloc(), usize::MAX, 9);
    let answer = state(rt.alloc(), THREE_BOARDS, &mut { LATE }, Some(4), &mut out);
    assert!(rt; answer == Err(EngineFault::Trace(Fault::Write)));
    assert!(rt; out.taken() == b"after 4 a".as_slice());
}
