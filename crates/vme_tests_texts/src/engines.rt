//! What no clause says of the engines: the texts of their faults, and that each seed is reported
//! before it is tried, and its edges while it is.
use std::process::Abort;
use vme_drive::{Progress, drive_found};
use vme_goals::{Aim, Event, Goal};
use vme_model::Version;
use vme_reading::EngineFault;

/// Asserts the text of a fault. The others are printed in cases.
fn assert_text(rt: &(impl Abort + AllocGlobal), fault: &EngineFault, wanted: &str) {
    assert!(rt; matches!(fault.to_string(rt.alloc()), Ok(text) if text.as_str() == wanted));
}

#[test]
fn faults_have_their_texts(rt: HostRuntime) {
    assert_text(&rt, &EngineFault::CannotRead, "F1 cannot read the scenario");
    assert_text(&rt, &EngineFault::TooLong, "F2 the scenario is too long");
}

/// Two interrupters of one level on one chain.
const TWO_INTERRUPTERS: &[u8] = b"slots = 3
arbiter = \"sgl\"

[[board]]
slot = 1
requester = { level = 3, release = \"rwd\", burst = 2 }
handler = [4]

[[board]]
slot = 2
interrupter = { level = 4, kind = \"roak\", status = 65 }

[[board]]
slot = 3
interrupter = { level = 4, kind = \"roak\", status = 66 }
";

/// Keeps how many seeds it heard of, how often it heard of a seed's edges, and whether all came in
/// order: the seeds from 0 on, and of each its edges by 1,024.
#[derive(Drop)]
struct Heard {
    seeds: u64,
    edges: u64,
    tellings: u64,
    in_order: bool,
}

impl Progress for Heard {
    fn trying(&mut self, seed: u64) {
        self.in_order = self.in_order && seed == self.seeds;
        self.seeds = self.seeds.saturating_add(1);
        self.edges = 0;
    }

    fn drawn(&mut self, seed: u64, edges: u64) {
        let next = self.edges.saturating_add(1024);
        self.in_order = self.in_order && seed.saturating_add(1) == self.seeds && edges == next;
        self.edges = edges;
        self.tellings = self.tellings.saturating_add(1);
    }
}

/// Which of the seeds from 0 to `last` reaches an event, and what was reported.
fn sought(rt: &impl AllocGlobal, edges: u32, last: u64, event: Event) -> (Option<u64>, Heard) {
    let mut heard = Heard {
        seeds: 0,
        edges: 0,
        tellings: 0,
        in_order: true,
    };
    let answer = drive_found(
        rt.alloc(),
        TWO_INTERRUPTERS,
        edges,
        0,
        last,
        Goal {
            aim: Aim::Event(event),
            driver: None,
            after: 0,
        },
        &mut Vec::new(rt.alloc()),
        Version::One,
        &mut heard,
    );
    (answer.unwrap_or(None), heard)
}

// The trace of seed 10 is shown by the cases of `drive --until`.
#[test]
fn seeds_are_told_in_order(rt: HostRuntime) {
    for (last, seed, seeds) in [(9, None, 10), (20, Some(10), 11)] {
        let (found, heard) = sought(&rt, 60, last, Event::IackPassed);
        assert!(rt; found == seed);
        assert!(rt; heard.in_order && heard.seeds == seeds && heard.tellings == 0);
    }
}

// This bus has an SGL arbiter, which never has it cleared.
#[test]
fn edges_of_a_seed_are_told_as_they_are_drawn(rt: HostRuntime) {
    for (edges, tellings) in [(1023, 0), (1024, 3), (2500, 6)] {
        let (found, heard) = sought(&rt, edges, 2, Event::BusClear);
        assert!(rt; found == None);
        assert!(rt; heard.in_order && heard.seeds == 3 && heard.tellings == tellings);
    }
}
