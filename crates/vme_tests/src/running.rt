//! What no clause says of boards that run at once: that they come to bus cycles and acknowledges, and to all their edges.
use std::alloc::Global;
use std::process::Abort;
use std::str;
use std::sync::Wait;
use std::thread::Threads;
use vme_engines::replay;
use vme_model::Version;
use vme_run::run;

/// Two boards that ask for the bus and handle interrupts, and two that interrupt.
const INTERRUPTS: &str = r#"slots = 4
arbiter = "rrs"
board = [
  { slot = 1, requester = { level = 3, release = "rwd", burst = 2 }, handler = [4] },
  { slot = 2, interrupter = { level = 4, kind = "roak", status = 65 } },
  { slot = 3, requester = { level = 3, release = "ror" }, handler = [5] },
  { slot = 4, interrupter = { level = 5, kind = "rora", status = 66 } },
]
"#;

/// What stands in the report of 10,000 edges: an acknowledge that delivers a status byte, and that none was refused.
const DELIVERED: &str = " ok irq ";

const ACCEPTED: &str = "\naccepted 10000 refused 0\n";

/// What stands in their trace: an access to another board, and that board's answer.
const ACCESS: &str = " addr- r";

const ANSWER: &str = " dtack-\n";

/// Asserts that the text has this part.
fn assert_has(rt: &impl Abort, text: &[u8], part: &str) {
    let text = str::from_utf8(text).expect(rt, "the text");
    assert!(rt; text.contains(part));
}

/// The trace of 10,000 edges at most, in a million turns of each driver.
fn long_trace<R: Threads + Wait + Abort + Sync>(rt: &R, alloc: Global) -> Vec<u8> {
    let mut trace = Vec::new(alloc);
    let scenario = INTERRUPTS.as_bytes();
    match run(
        rt,
        alloc,
        scenario,
        10_000,
        1_000_000,
        &mut trace,
        Version::One,
    ) {
        Ok(_) => trace,
        Err(fault) => panic!(rt; "{fault}"),
    }
}

/// What a replay says of a trace.
fn report(rt: &impl Abort, alloc: Global, trace: &[u8]) -> Vec<u8> {
    let mut report = Vec::new(alloc);
    match replay(alloc, INTERRUPTS.as_bytes(), &mut { trace }, &mut report) {
        Ok(_) => report,
        Err(fault) => panic!(rt; "{fault}"),
    }
}

/// Boards that run at once come to accesses and acknowledges, and to as many edges as they are asked for.
#[test]
fn cycles_and_acknowledges(rt: HostRuntime) {
    let trace = long_trace(&rt, rt.alloc());
    assert_has(&rt, &trace, ACCESS);
    assert_has(&rt, &trace, ANSWER);
    let report = report(&rt, rt.alloc(), &trace);
    assert_has(&rt, &report, DELIVERED);
    assert_has(&rt, &report, ACCEPTED);
}
