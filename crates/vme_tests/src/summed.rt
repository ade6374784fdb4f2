//! What no clause says of `summary` and of sums: whole traces and what is told of them, its faults, and devices that fail.
use crate::devices::{Narrow, Pieces};
use std::io::Read;
use std::process::Abort;
use vme_engines::{EngineFault, Status, add_trace, summary, tell_sums};
use vme_tallies::Sums;
use vme_trace::Fault;

/// Nine slots, two handlers and five interrupters.
const NINE_SLOTS: &[u8] = b"slots = 9
arbiter = \"pri\"
[[board]]
slot = 1
requester = { level = 1, release = \"ror\" }
handler = [1, 2, 3, 4]
[[board]]
slot = 2
[[board]]
slot = 3
requester = { level = 3, release = \"rwd\", burst = 8 }
interrupter = { level = 3, kind = \"rora\", status = 48 }
[[board]]
slot = 4
requester = { level = 3, release = \"ror\" }
interrupter = { level = 4, kind = \"roak\", status = 80 }
[[board]]
slot = 5
requester = { level = 1, release = \"rwd\", burst = 4 }
handler = [5, 6, 7]
[[jumper]]
slot = 6
chains = [\"bg0\", \"bg1\", \"bg2\", \"bg3\", \"iack\"]
[[board]]
slot = 7
interrupter = { level = 4, kind = \"roak\", status = 96 }
[[board]]
slot = 8
requester = { level = 3, release = \"rwd\", burst = 2 }
interrupter = { level = 3, kind = \"roak\", status = 112 }
[[board]]
slot = 9
interrupter = { level = 6, kind = \"rora\", status = 64 }
";

/// An owner keeps the bus while another board asks for it.
const KEPT: &[u8] = b"vme 1
1 br-
c bg1-
1 bbsy-
1 br+
c bg1+
5 br-
1 addr- r2
1 as-
1 ds-
2 dtack-
1 ds+
2 dtack+
1 addr+
1 as+
1 addr- r2
1 as-
1 ds-
2 dtack-
1 ds+
2 dtack+
1 addr+
1 as+
1 addr- r2
1 as-
1 ds-
2 dtack-
1 ds+
2 dtack+
1 addr+
1 as+
";

const KEPT_SUMMARY: &[u8] = b"edges 30 accepted 30 refused 0
G1 accepted 1 refused 0
G2 accepted 1 refused 0
G9 accepted 2 refused 0
G10 accepted 1 refused 0
G13 accepted 1 refused 0
G15 accepted 3 refused 0
G16 accepted 3 refused 0
G17 accepted 3 refused 0
G18 accepted 3 refused 0
G19 accepted 3 refused 0
G20 accepted 3 refused 0
G25 accepted 3 refused 0
G26 accepted 3 refused 0
never accepted G3 G4 G5 G6 G7 G8 G11 G12 G14 G21 G22 G23 G24
never met grant-passed late-request overtaken early-release overlap full-burst bus-clear rivals delivery iack-passed answered-again spurious bus-error withdrawn grant-timeout
board 1 asked 1 waited 2 longest-wait 2 tenures 1 held 0 longest-hold 0 cycles 3 holds since 3
board 3 asked 0 waited 0 longest-wait 0 tenures 0 held 0 longest-hold 0 cycles 0
board 4 asked 0 waited 0 longest-wait 0 tenures 0 held 0 longest-hold 0 cycles 0
board 5 asked 1 waited 0 longest-wait 0 tenures 0 held 0 longest-hold 0 cycles 0 asks since 6
board 8 asked 0 waited 0 longest-wait 0 tenures 0 held 0 longest-hold 0 cycles 0
board 2 answered 3 delivered 0
";

/// Three boards on one chain.
const ONE_CHAIN: &[u8] = b"slots = 4
arbiter = \"sgl\"
[[board]]
slot = 1
[[board]]
slot = 2
requester = { level = 3, release = \"rwd\", burst = 1 }
[[board]]
slot = 3
requester = { level = 3, release = \"rwd\", burst = 1 }
[[board]]
slot = 4
requester = { level = 3, release = \"rwd\", burst = 1 }
";

/// A request that comes after the grant was passed on.
const LATE: &[u8] = b"vme 1
4 br-
c bg3-
2 bgout-
2 br-
3 br-
3 bgout-
3 bbsy-
2 bbsy-
4 bbsy-
3 br+
c bg3+
3 bbsy+
2 bgout+
c bg3-
3 bbsy+
c bg3-
2 bbsy-
";

const LATE_SUMMARY: &[u8] = b"edges 17 accepted 12 refused 5
G1 accepted 2 refused 1
G2 accepted 1 refused 0
G9 accepted 3 refused 0
G10 accepted 1 refused 0
G11 accepted 1 refused 1
G12 accepted 1 refused 0
G13 accepted 2 refused 2
G14 accepted 1 refused 1
never accepted G3 G4 G5 G6 G7 G8 G15 G16 G17 G18 G19 G20 G21 G22 G23 G24 G25 G26
met grant-passed 1 first 3
met late-request 1 first 4
met overtaken 2 first 7
never met early-release overlap full-burst bus-clear rivals delivery iack-passed answered-again spurious bus-error withdrawn grant-timeout
board 2 asked 1 waited 13 longest-wait 13 tenures 1 held 0 longest-hold 0 cycles 0 holds since 17
board 3 asked 1 waited 2 longest-wait 2 tenures 1 held 8 longest-hold 8 cycles 0
board 4 asked 1 waited 0 longest-wait 0 tenures 0 held 0 longest-hold 0 cycles 0 asks since 1
";

/// The same trace twice.
const LATE_TWICE: &[u8] = b"edges 34 accepted 24 refused 10
G1 accepted 4 refused 2
G2 accepted 2 refused 0
G9 accepted 6 refused 0
G10 accepted 2 refused 0
G11 accepted 2 refused 2
G12 accepted 2 refused 0
G13 accepted 4 refused 4
G14 accepted 2 refused 2
never accepted G3 G4 G5 G6 G7 G8 G15 G16 G17 G18 G19 G20 G21 G22 G23 G24 G25 G26
met grant-passed 2
met late-request 2
met overtaken 4
never met early-release overlap full-burst bus-clear rivals delivery iack-passed answered-again spurious bus-error withdrawn grant-timeout
board 2 asked 2 waited 26 longest-wait 13 tenures 2 held 0 longest-hold 0 cycles 0
board 3 asked 2 waited 4 longest-wait 2 tenures 2 held 16 longest-hold 8 cycles 0
board 4 asked 2 waited 0 longest-wait 0 tenures 0 held 0 longest-hold 0 cycles 0
";

/// Two interrupters of one level.
const RIVALS: &[u8] = b"slots = 3
arbiter = \"sgl\"
[[board]]
slot = 1
requester = { level = 3, release = \"rwd\", burst = 2 }
handler = [4]
[[board]]
slot = 2
interrupter = { level = 4, kind = \"roak\", status = 65 }
[[board]]
slot = 3
interrupter = { level = 4, kind = \"roak\", status = 66 }
";

/// Both ask, and each is answered.
const ANSWERED: &[u8] = b"vme 1
2 irq-
3 irq-
1 br-
c bg3-
1 bbsy-
1 br+
c bg3+
1 addr- i4
1 as-
1 ds-
c iack-
3 dtack-
2 dtack-
1 ds+
2 dtack+
2 irq+
1 addr+
1 as+
1 addr- i4
1 as-
c iack+
1 as-
1 ds-
c iack-
2 iackout-
3 dtack-
1 ds+
3 dtack+
3 irq+
1 addr+
1 as+
";

const ANSWERED_ENDS: &[u8] = b"S1 refused 1
never accepted G3 G4 G7 G8 G11 G12 G14 G24
met full-burst 1 first 22
met rivals 1 first 2
met delivery 2 first 13
met iack-passed 1 first 25
never met grant-passed late-request overtaken early-release overlap bus-clear answered-again spurious bus-error withdrawn grant-timeout
board 1 asked 1 waited 2 longest-wait 2 tenures 1 held 0 longest-hold 0 cycles 2 holds since 5
board 2 answered 1 delivered 1
board 3 answered 1 delivered 1
";

/// Asserts how `summary` ends, and how what it writes ends.
fn assert_summed<R: Read>(
    rt: &(impl Abort + AllocGlobal),
    scenario: &[u8],
    trace: &mut R,
    wanted: Result<Status, EngineFault>,
    written: &[u8],
) {
    let mut out = Vec::new(rt.alloc());
    let answer = summary(rt.alloc(), scenario, trace, &mut out);
    assert!(rt; answer == wanted);
    assert!(rt; out.as_slice().ends_with(written));
}

#[test]
fn sums_up_an_owner_that_keeps_the_bus(rt: HostRuntime) {
    let done = Ok(Status::Done);
    assert_summed(&rt, NINE_SLOTS, &mut { KEPT }, done, KEPT_SUMMARY);
}

#[test]
fn sums_up_a_late_request(rt: HostRuntime) {
    let refused = Ok(Status::SomeRefused);
    assert_summed(&rt, ONE_CHAIN, &mut { LATE }, refused, LATE_SUMMARY);
}

#[test]
fn sums_up_two_interrupters(rt: HostRuntime) {
    let refused = Ok(Status::SomeRefused);
    assert_summed(&rt, RIVALS, &mut { ANSWERED }, refused, ANSWERED_ENDS);
}

#[test]
fn writes_nothing_at_a_fault(rt: HostRuntime) {
    let mut out = Vec::new(rt.alloc());
    let cut = LATE.get(..43).unwrap_or(LATE);
    let answer = summary(rt.alloc(), ONE_CHAIN, &mut { cut }, &mut out);
    assert!(rt; answer == Err(EngineFault::Trace(Fault::CutOff)));
    let mut drip = Pieces::new(LATE, 1).failing_at(60);
    let answer = summary(rt.alloc(), ONE_CHAIN, &mut drip, &mut out);
    assert!(rt; answer == Err(EngineFault::Trace(Fault::Read)));
    assert!(rt; out.is_empty());
}

#[test]
fn a_full_disk_ends_a_summary(rt: HostRuntime) {
    let mut out = Narrow::new(rt.alloc(), 7, 100);
    let answer = summary(rt.alloc(), ONE_CHAIN, &mut { LATE }, &mut out);
    assert!(rt; answer == Err(EngineFault::Trace(Fault::Write)));
}

#[test]
fn adds_up_a_trace_twice_past_one_at_fault(rt: HostRuntime) {
    let mut sums = Sums::new();
    let mut out = Vec::new(rt.alloc());
    let cut = LATE.get(..43).unwrap_or(LATE);
    let first = add_trace(rt.alloc(), ONE_CHAIN, &mut { LATE }, &mut sums);
    assert!(rt; first == Ok(Status::SomeRefused));
    let fault = add_trace(rt.alloc(), ONE_CHAIN, &mut { cut }, &mut sums);
    assert!(rt; fault == Err(EngineFault::Trace(Fault::CutOff)));
    let second = add_trace(rt.alloc(), ONE_CHAIN, &mut { LATE }, &mut sums);
    assert!(rt; second == Ok(Status::SomeRefused));
    let told = tell_sums(rt.alloc(), ONE_CHAIN, &sums, &mut out);
    assert!(rt; told == Ok(Status::SomeRefused));
    assert!(rt; out.as_slice() == LATE_TWICE);
}

#[test]
fn a_full_disk_ends_sums(rt: HostRuntime) {
    let mut sums = Sums::new();
    let mut out = Narrow::new(rt.alloc(), 7, 100);
    let added = add_trace(rt.alloc(), ONE_CHAIN, &mut { LATE }, &mut sums);
    assert!(rt; added == Ok(Status::SomeRefused));
    let told = tell_sums(rt.alloc(), ONE_CHAIN, &sums, &mut out);
    assert!(rt; told == Err(EngineFault::Trace(Fault::Write)));
}
