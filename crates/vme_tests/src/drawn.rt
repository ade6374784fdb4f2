//! What no clause says of a drive with a seed: which edges some seeds draw, and a device that is full.
use crate::devices::Narrow;
use std::process::Abort;
use vme_engines::{EngineFault, Progress, Status, drive_drawn, drive_found};
use vme_goals::{Event, Goal, Miss};
use vme_model::Version;
use vme_trace::Fault;

/// One board that requests the bus at level 3, and one that answers.
const ONE_TENURE: &[u8] = b"slots = 2
arbiter = \"sgl\"

[[board]]
slot = 1
requester = { level = 3, release = \"rwd\", burst = 1 }

[[board]]
slot = 2
";

/// Nine slots, one of them empty.
const NINE_SLOTS: &[u8] = b"slots = 9
arbiter = \"pri\"
jumper = [{ slot = 6, chains = [\"bg0\", \"bg1\", \"bg2\", \"bg3\", \"iack\"] }]

[[board]]
slot = 1
requester = { level = 1, release = \"ror\" }
handler = [1, 2, 3, 4]

[[board]]
slot = 2

[[board]]
slot = 3
requester = { level = 3, release = \"rwd\", burst = 8 }
interrupter = { level = 3, kind = \"rora\", status = 48 }

[[board]]
slot = 4
requester = { level = 3, release = \"ror\" }
interrupter = { level = 4, kind = \"roak\", status = 80 }

[[board]]
slot = 5
requester = { level = 1, release = \"rwd\", burst = 4 }
handler = [5, 6, 7]

[[board]]
slot = 7
interrupter = { level = 4, kind = \"roak\", status = 96 }

[[board]]
slot = 8
requester = { level = 3, release = \"rwd\", burst = 2 }
interrupter = { level = 3, kind = \"roak\", status = 112 }

[[board]]
slot = 9
interrupter = { level = 6, kind = \"rora\", status = 64 }
";

/// Two interrupters of one level on one chain.
const TWO_INTERRUPTERS: &[u8] = b"slots = 3
arbiter = \"sgl\"

[[board]]
slot = 1
requester = { level = 3, release = \"rwd\", burst = 2 }
handler = [4]

[[board]]
slot = 2
interrupter = { level = 4, kind = \"roak\", status = 65 }

[[board]]
slot = 3
interrupter = { level = 4, kind = \"roak\", status = 66 }
";

/// A board without parts, which makes no edge.
const NOTHING: &[u8] = b"slots = 1\narbiter = \"sgl\"\nboard = [{ slot = 1 }]\n";

/// A scenario, how many edges, a seed, and the status and the trace.
type Case = (&'static [u8], u32, u64, Status, &'static [u8]);

const DRAWN: [Case; 5] = [
    (
        ONE_TENURE,
        14,
        1,
        Status::Limit,
        b"vme 1
1 br-
c bg3-
1 bbsy-
1 addr- r1
1 as-
c bg3+
1 br+
1 bbsy+
1 br-
c bg3-
1 bbsy-
1 br+
1 ds-
1 dtack-
",
    ),
    (
        ONE_TENURE,
        14,
        2,
        Status::Limit,
        b"vme 1
1 br-
c bg3-
1 bbsy-
1 addr- r1
c bg3+
1 br+
1 as-
1 ds-
1 bbsy+
1 dtack-
1 ds+
1 addr+
1 br-
1 as+
",
    ),
    (
        NINE_SLOTS,
        9,
        15,
        Status::Limit,
        b"vme 1
3 br-
1 br-
4 br-
5 br-
8 br-
c bg3-
3 bbsy-
3 addr- r10
3 irq-
",
    ),
    (NOTHING, 14, 1, Status::Done, b"vme 1\n"),
    (ONE_TENURE, 0, 1, Status::Limit, b"vme 1\n"),
];

/// Asserts how a drive with a seed ends, and what it writes.
fn assert_drawn(rt: &(impl Abort + AllocGlobal), case: &Case) {
    let (scenario, edges, seed, wanted, written) = *case;
    let mut out = Vec::new(rt.alloc());
    let answer = drive_drawn(
        rt.alloc(),
        scenario,
        edges,
        seed,
        None,
        &mut out,
        Version::One,
    );
    assert!(rt; answer == Ok(wanted));
    assert!(rt; out.as_slice() == written);
}

#[test]
fn seeds_draw_edges(rt: HostRuntime) {
    for case in &DRAWN {
        assert_drawn(&rt, case);
    }
}

#[test]
fn a_full_device_cuts_a_drawn_trace(rt: HostRuntime) {
    let mut out = Narrow::new(rt.alloc(), usize::MAX, 7);
    let answer = drive_drawn(rt.alloc(), ONE_TENURE, 14, 1, None, &mut out, Version::One);
    assert!(rt; answer == Err(EngineFault::Trace(Fault::Write)));
    assert!(rt; out.taken() == b"vme 1\n1".as_slice());
}

/// The trace of seed 10 up to an acknowledge that is handed on.
const HANDED_ON: &[u8] = b"vme 1
3 irq-
1 br-
c bg3-
1 bbsy-
1 addr- i4
1 as-
1 ds-
1 br+
c bg3+
1 bbsy+
c iack-
2 iackout-
";

/// The trace of seed 0 up to a bus error that races an answer.
const RACED: &[u8] = b"vme 1
1 br-
3 irq-
c bg3-
1 bbsy-
1 addr- r2
1 as-
1 br+
2 irq-
c bg3+
1 bbsy+
1 ds-
c berr-
";

/// Asserts how a drive of 60 edges to a goal ends, and what it writes.
fn assert_sought(rt: &(impl Abort + AllocGlobal), seed: u64, goal: Goal, written: &[u8]) {
    let mut out = Vec::new(rt.alloc());
    let answer = drive_drawn(
        rt.alloc(),
        TWO_INTERRUPTERS,
        60,
        seed,
        Some(goal),
        &mut out,
        Version::One,
    );
    assert!(rt; answer == Ok(Status::Done));
    assert!(rt; out.as_slice() == written);
}

#[test]
fn an_event_ends_a_walk(rt: HostRuntime) {
    assert_sought(&rt, 10, Goal::Event(Event::IackPassed), HANDED_ON);
}

#[test]
fn a_missed_edge_ends_a_walk(rt: HostRuntime) {
    assert_sought(&rt, 0, Goal::Miss(Miss::Settling(2)), RACED);
}

/// Keeps how many seeds it heard of, and whether each came after the one before, from 0 on.
#[derive(Drop)]
struct Heard {
    seeds: u64,
    in_order: bool,
}

impl Progress for Heard {
    fn trying(&mut self, seed: u64) {
        self.in_order = self.in_order && seed == self.seeds;
        self.seeds = self.seeds.saturating_add(1);
    }
}

/// Asserts which of the seeds from 0 to `last` comes to an acknowledge that is handed on, what is written, and that each
/// seed is told that is tried.
fn assert_found(rt: &(impl Abort + AllocGlobal), last: u64, seed: Option<u64>, written: &[u8]) {
    let mut out = Vec::new(rt.alloc());
    let mut heard = Heard {
        seeds: 0,
        in_order: true,
    };
    let answer = drive_found(
        rt.alloc(),
        TWO_INTERRUPTERS,
        60,
        0,
        last,
        Goal::Event(Event::IackPassed),
        &mut out,
        Version::One,
        &mut heard,
    );
    assert!(rt; answer == Ok(seed));
    assert!(rt; out.as_slice() == written);
    assert!(rt; heard.in_order);
    assert!(rt; heard.seeds == seed.unwrap_or(last).saturating_add(1));
}

#[test]
fn seeds_are_tried_in_order(rt: HostRuntime) {
    assert_found(&rt, 9, None, b"");
    assert_found(&rt, 20, Some(10), HANDED_ON);
}
