//! Worked traces, each with the report that a replay writes of it. The verdicts were worked out by hand from the rules.
use std::process::Abort;
use vme_engines::{EngineFault, Status, replay};
use vme_model::{ChainId, PlanError};
use vme_scenario::ScenarioError;

const ONE_BOARD: &str = r#"slots = 1
arbiter = "sgl"
board = [{ slot = 1, requester = { level = 3, release = "rwd", burst = 1 } }]
"#;

const TWO_BOARDS: &str = r#"slots = 2
arbiter = "sgl"
board = [
  { slot = 1, requester = { level = 3, release = "rwd", burst = 1 } },
  { slot = 2, requester = { level = 3, release = "rwd", burst = 1 } },
]
"#;

const TWO_BEHIND_THE_FIRST: &str = r#"slots = 3
arbiter = "sgl"
board = [
  { slot = 1 },
  { slot = 2, requester = { level = 3, release = "rwd", burst = 1 } },
  { slot = 3, requester = { level = 3, release = "rwd", burst = 1 } },
]
"#;

/// Slot 2 is empty, and nothing joins its pins.
const GAP: &str = r#"slots = 3
arbiter = "sgl"
board = [
  { slot = 1 },
  { slot = 3, requester = { level = 3, release = "rwd", burst = 1 } },
]
"#;

const JUMPER: &str = r#"slots = 3
arbiter = "sgl"
board = [
  { slot = 1 },
  { slot = 3, requester = { level = 3, release = "rwd", burst = 1 } },
]
jumper = [{ slot = 2, chains = ["bg3"] }]
"#;

const FOUR_LEVELS: &str = r#"slots = 4
arbiter = "rrs"
board = [
  { slot = 1, requester = { level = 0, release = "rwd", burst = 1 } },
  { slot = 2, requester = { level = 1, release = "rwd", burst = 1 } },
  { slot = 3, requester = { level = 2, release = "rwd", burst = 1 } },
  { slot = 4, requester = { level = 3, release = "rwd", burst = 1 } },
]
"#;

const TWO_LEVELS: &str = r#"slots = 2
arbiter = "pri"
board = [
  { slot = 1, requester = { level = 1, release = "rwd", burst = 1 } },
  { slot = 2, requester = { level = 2, release = "rwd", burst = 1 } },
]
"#;

const ON_REQUEST: &str = r#"slots = 2
arbiter = "sgl"
board = [
  { slot = 1, requester = { level = 3, release = "ror" } },
  { slot = 2, requester = { level = 3, release = "rwd", burst = 1 } },
]
"#;

const BY_REGISTER: &str = r#"slots = 2
arbiter = "sgl"
board = [
  { slot = 1, requester = { level = 3, release = "rwd", burst = 3 }, handler = [4] },
  { slot = 2, interrupter = { level = 4, kind = "rora", status = 200 } },
]
"#;

/// A trace with what it shows, the report of its replay, and how that ends: with a status, or at a plan that is refused.
struct Worked {
    shows: &'static str,
    scenario: &'static str,
    trace: &'static str,
    report: &'static str,
    ended: Result<Status, PlanError>,
}

const WORKED: [Worked; 15] = [
    Worked {
        shows: "an empty slot without a jumper breaks a chain",
        scenario: GAP,
        trace: "vme 1\n",
        report: "",
        ended: Err(PlanError::ChainBroken {
            slot: 2,
            chain: ChainId::Bg3,
        }),
    },
    Worked {
        shows: "a grant passes an empty slot by its jumper",
        scenario: JUMPER,
        trace: "vme 1\n3 br-\nc bg3-\n3 bbsy-\n",
        report: "1 ok\n2 ok\n3 ok\naccepted 3 refused 0\n",
        ended: Ok(Status::Done),
    },
    Worked {
        shows: "joined pins have no edge of their own",
        scenario: JUMPER,
        trace: "vme 1\n3 br-\nc bg3-\n3 bbsy-\n2 bgout-\n",
        report: "1 ok\n2 ok\n3 ok\n4 E1\naccepted 3 refused 1\n",
        ended: Ok(Status::SomeRefused),
    },
    Worked {
        shows: "the level below the last one granted comes first, and the owner is waited for",
        scenario: FOUR_LEVELS,
        trace: "vme 1\n1 br-\n2 br-\n3 br-\n4 br-\nc bg3-\n4 bbsy-\n4 br+\nc bg3+\n4 bbsy+\n\
            4 br-\nc bg3-\nc bg2-\n3 bbsy-\n3 br+\nc bg2+\n3 bbsy+\n3 br-\nc bg1-\n\
            2 bbsy-\n2 br+\nc bg1+\n2 bbsy+\n2 br-\nc bg0-\n1 bbsy-\n1 br+\nc bg0+\n\
            1 bbsy+\n1 br-\nc bg3-\n",
        report: "1 ok\n2 ok\n3 ok\n4 ok\n5 ok\n6 ok\n7 ok\n8 ok\n9 ok\n10 ok\n11 E3 G1\n\
            12 ok\n13 ok\n14 ok\n15 ok\n16 ok\n17 ok\n18 ok\n19 ok\n20 ok\n21 ok\n\
            22 ok\n23 ok\n24 ok\n25 ok\n26 ok\n27 ok\n28 ok\n29 ok\n30 ok\n\
            accepted 29 refused 1\n",
        ended: Ok(Status::SomeRefused),
    },
    Worked {
        shows: "a grant that went by is not taken, and its chain rises before the bus is free",
        scenario: TWO_BEHIND_THE_FIRST,
        trace: "vme 1\n3 br-\nc bg3-\n2 bgout-\n2 br-\n2 bbsy-\n3 bbsy-\n3 br+\nc bg3+\n\
            3 bbsy+\n2 bgout+\n3 bbsy+\n",
        report: "1 ok\n2 ok\n3 ok\n4 ok\n5 E3 G13\n6 ok\n7 ok\n8 ok\n9 E3 G14\n10 ok\n11 ok\n\
            accepted 9 refused 2\n",
        ended: Ok(Status::SomeRefused),
    },
    Worked {
        shows: "the next owner shows an address behind the last cycle of the one before",
        scenario: TWO_BOARDS,
        trace: "vme 1\n1 br-\nc bg3-\n1 bbsy-\n1 br+\nc bg3+\n1 addr- r2\n1 as-\n1 bbsy+\n\
            2 br-\nc bg3-\n1 bgout-\n2 bbsy-\n2 addr- r1\n1 ds-\n2 dtack-\n1 ds+\n\
            2 dtack+\n1 addr+\n1 as+\n2 addr- r1\n",
        report: "1 ok\n2 ok\n3 ok\n4 ok\n5 ok\n6 ok\n7 ok\n8 ok\n9 ok\n10 ok\n11 ok\n12 ok\n\
            13 E3 G15\n14 ok\n15 ok\n16 ok\n17 ok\n18 ok\n19 ok\n20 ok\n\
            accepted 19 refused 1\n",
        ended: Ok(Status::SomeRefused),
    },
    Worked {
        shows: "an owner that shows an address keeps the bus until its strobe",
        scenario: TWO_BOARDS,
        trace: "vme 1\n1 br-\nc bg3-\n1 bbsy-\n1 br+\nc bg3+\n1 addr- r2\n1 bbsy+\n1 as-\n\
            1 bbsy+\n",
        report: "1 ok\n2 ok\n3 ok\n4 ok\n5 ok\n6 ok\n7 E3 G14\n8 ok\n9 ok\n\
            accepted 8 refused 1\n",
        ended: Ok(Status::SomeRefused),
    },
    Worked {
        shows: "an owner keeps the bus until another board asks",
        scenario: ON_REQUEST,
        trace: "vme 1\n1 br-\nc bg3-\n1 bbsy-\n1 br+\nc bg3+\n1 bbsy+\n2 br-\n1 bbsy+\n",
        report: "1 ok\n2 ok\n3 ok\n4 ok\n5 ok\n6 E3 G14\n7 ok\n8 ok\naccepted 7 refused 1\n",
        ended: Ok(Status::SomeRefused),
    },
    Worked {
        shows: "an interrupt request stays until its register is accessed",
        scenario: BY_REGISTER,
        trace: "vme 1\n2 irq-\n1 br-\nc bg3-\n1 bbsy-\n1 br+\nc bg3+\n1 addr- i4\n1 as-\n\
            1 ds-\nc iack-\n2 dtack-\n1 ds+\n2 dtack+\n2 irq+\n1 addr+\n1 as+\nc iack+\n\
            1 addr- i4\n1 as-\n1 ds-\nc iack-\n2 dtack-\n1 ds+\n2 dtack+\n1 addr+\n\
            1 as+\nc iack+\n1 addr- r2\n1 as-\n1 ds-\n2 dtack-\n1 ds+\n2 dtack+\n\
            2 irq+\n",
        report: "1 ok\n2 ok\n3 ok\n4 ok\n5 ok\n6 ok\n7 ok\n8 ok\n9 ok\n10 ok\n\
            11 ok irq 4 to 1 from 2 status 200\n12 ok\n13 ok\n14 E3 G22\n15 ok\n16 ok\n\
            17 ok\n18 ok\n19 ok\n20 ok\n21 ok\n22 ok irq 4 to 1 from 2 status 200\n\
            23 ok\n24 ok\n25 ok\n26 ok\n27 ok\n28 ok\n29 ok\n30 ok\n31 ok\n32 ok\n\
            33 ok\n34 ok\naccepted 33 refused 1\n",
        ended: Ok(Status::SomeRefused),
    },
    Worked {
        shows: "an edge needs its board, its part and the other state",
        scenario: ONE_BOARD,
        trace: "vme 1\n1 br-\n1 br-\n5 br-\n1 irq-\n1 br+\n",
        report: "1 ok\n2 E2\n3 E1\n4 E1\n5 E3 G10\naccepted 1 refused 4\n",
        ended: Ok(Status::SomeRefused),
    },
    Worked {
        shows: "a request of a higher level clears the bus",
        scenario: TWO_LEVELS,
        trace: "vme 1\n1 br-\nc bg1-\n1 bbsy-\n1 br+\n2 br-\nc bclr-\nc bg1+\nc bclr-\n\
            c bg2-\n1 bbsy+\nc bg2-\nc bclr+\n",
        report: "1 ok\n2 ok\n3 ok\n4 ok\n5 ok\n6 E3 G3\n7 ok\n8 ok\n9 E3 G1\n10 ok\n11 ok\n\
            12 ok\naccepted 10 refused 2\n",
        ended: Ok(Status::SomeRefused),
    },
    Worked {
        shows: "the bus timer ends an access to an empty slot",
        scenario: ONE_BOARD,
        trace: "vme 1\n1 br-\nc bg3-\n1 bbsy-\n1 addr- r9\n1 as-\n1 ds-\n1 dtack-\nc berr-\n\
            1 ds+\nc berr+\n1 addr+\n1 as+\n1 addr- r1\n",
        report: "1 ok\n2 ok\n3 ok\n4 ok\n5 ok\n6 ok\n7 E3 G25\n8 ok\n9 ok\n10 ok\n11 ok\n\
            12 ok\n13 E3 G15\naccepted 11 refused 2\n",
        ended: Ok(Status::SomeRefused),
    },
    Worked {
        shows: "the bus timer waits where a board can answer",
        scenario: ONE_BOARD,
        trace: "vme 1\n1 br-\nc bg3-\n1 bbsy-\n1 addr- r1\n1 as-\n1 ds-\nc berr-\n",
        report: "1 ok\n2 ok\n3 ok\n4 ok\n5 ok\n6 ok\n7 E4 S2\naccepted 6 refused 1\n",
        ended: Ok(Status::SomeRefused),
    },
    Worked {
        shows: "a request is withdrawn, and its grant timed out once it has passed every board",
        scenario: TWO_BOARDS,
        trace: "vme 2\n2 br-\nc bg3-\n2 br+\nc bg3+\n1 bgout-\n2 bgout-\n2 bbsy-\nc bg3+\n\
            1 br-\nc bg3-\n1 bgout+\nc bg3-\n2 bgout+\nc bg3-\n1 bbsy-\n",
        report: "1 ok\n2 ok\n3 ok\n4 E4 S3\n5 ok\n6 ok\n7 E3 G13\n8 ok\n9 ok\n10 E4 S4\n\
            11 ok\n12 E4 S4\n13 ok\n14 ok\n15 ok\naccepted 11 refused 4\n",
        ended: Ok(Status::SomeRefused),
    },
    Worked {
        shows: "neither is done in the first version",
        scenario: TWO_BOARDS,
        trace: "vme 1\n2 br-\nc bg3-\n2 br+\nc bg3+\n1 bgout-\n2 bgout-\n2 bbsy-\nc bg3+\n\
            1 br-\nc bg3-\n1 bgout+\nc bg3-\n2 bgout+\nc bg3-\n1 bbsy-\n",
        report: "1 ok\n2 ok\n3 E3 G10\n4 E3 G2\n5 ok\n6 E3 G11\n7 ok\n8 ok\n9 ok\n10 E3 G1\n\
            11 ok\n12 E3 G1\n13 E2\n14 E3 G1\n15 E3 G13\naccepted 7 refused 8\n",
        ended: Ok(Status::SomeRefused),
    },
];

/// Whether a replay ended so.
fn is_end(answer: &Result<Status, EngineFault>, wanted: Result<Status, PlanError>) -> bool {
    match answer {
        Ok(status) => wanted == Ok(*status),
        Err(EngineFault::Scenario(ScenarioError::Plan(error))) => wanted == Err(*error),
        Err(_) => false,
    }
}

/// Whether a replay of the trace writes its report and ends so.
fn is_judged_so(rt: &impl AllocGlobal, case: &Worked) -> bool {
    let (scenario, mut trace) = (case.scenario.as_bytes(), case.trace.as_bytes());
    let mut report = Vec::new(rt.alloc());
    let answer = replay(rt.alloc(), scenario, &mut trace, &mut report);
    is_end(&answer, case.ended) && report.as_slice() == case.report.as_bytes()
}

#[test]
fn a_replay_judges_each_edge(rt: HostRuntime) {
    for case in &WORKED {
        let shows = case.shows;
        assert!(rt; is_judged_so(&rt, case), "{shows}");
    }
}
