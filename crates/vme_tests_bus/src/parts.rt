//! The parts of a board and the controller: what they do in turn, and what their rules refuse.
use crate::boards::{FIRST, SECOND, edge, fall, quiet, rise};
use bitflags::Flags;
use std::process::Abort;
use std::test::Fail;
use vme_arbiter::{AnyPolicy, Arbiter, Policy, Pri, Rrs, Sgl};
use vme_handler::Handler;
use vme_interrupter::Interrupter;
use vme_master::Master;
use vme_model::{
    ArbiterKind, BusLevels, Cycle, Driver, Edge, InterrupterRow, IrqKind, Levels, Pins, Refused,
    Release, RequesterRow, Version, Wire,
};
use vme_requester::Requester;

const CONTROLLER: Driver = Driver::Controller;

/// What the arbiter sees of the requests and of BBSY*.
fn asked(requests: [bool; 4], bbsy: bool) -> Pins {
    Pins {
        requests: BusLevels::of_lines(requests),
        bbsy,
        ..quiet()
    }
}

#[test]
fn picks(rt: HostRuntime) {
    let all = BusLevels::of_lines([true; 4]);
    let low_two = BusLevels::of_lines([true, true, false, false]);
    assert!(rt; [Sgl.pick(all, 0), Sgl.pick(low_two, 0)] == [Some(3), None]);
    assert!(rt; Pri.pick(low_two, 3) == Some(1));
    assert!(rt; [Rrs.pick(all, 0), Rrs.pick(all, 3)] == [Some(3), Some(2)]);
    assert!(rt; [Rrs.pick(low_two, 1), Rrs.pick(BusLevels::empty(), 1)] == [Some(0), None]);
}

#[test]
fn any_policy_is_its_kind(rt: HostRuntime) {
    let all = BusLevels::of_lines([true; 4]);
    for (kind, level) in [
        (ArbiterKind::Pri, 3),
        (ArbiterKind::Rrs, 1),
        (ArbiterKind::Sgl, 3),
    ] {
        assert!(rt; AnyPolicy::from(kind).pick(all, 2) == Some(level));
    }
}

/// The edge, what the arbiter sees of the requests and of BBSY*, and its answer.
const GRANTED: [(Wire, bool, [bool; 4], bool, Result<(), Refused>); 7] = [
    (
        Wire::Bg(1),
        true,
        [false, true, true, false],
        false,
        Err(Refused::Rule(1)),
    ),
    (
        Wire::Bg(1),
        true,
        [false, true, false, false],
        false,
        Ok(()),
    ),
    (
        Wire::Bg(1),
        true,
        [false, true, false, false],
        false,
        Err(Refused::AlreadyThere),
    ),
    (
        Wire::Bg(1),
        false,
        [false, true, false, false],
        false,
        Err(Refused::Rule(2)),
    ),
    (
        Wire::Bclr,
        true,
        [false, false, true, false],
        true,
        Err(Refused::Rule(3)),
    ),
    (
        Wire::Bg(1),
        false,
        [false, false, true, false],
        true,
        Ok(()),
    ),
    (Wire::Bclr, true, [false, false, true, false], true, Ok(())),
];

#[test]
fn a_grant_and_a_bus_clear(rt: HostRuntime) {
    let mut arbiter = Arbiter::new(Pri, ArbiterKind::Pri, Version::One);
    for (wire, fall, requests, bbsy, answer) in GRANTED {
        let made = edge(CONTROLLER, wire, fall);
        assert!(rt; arbiter.may(made, asked(requests, bbsy)) == answer);
        if answer.is_ok() {
            arbiter.note(made);
            assert!(rt; arbiter.is_low(wire) == fall);
        }
    }
}

#[test]
fn a_grant_is_timed_out_in_the_second_version_alone(rt: HostRuntime) {
    for (version, answer) in [
        (Version::One, Err(Refused::Rule(2))),
        (Version::Two, Ok(())),
    ] {
        let mut arbiter = Arbiter::new(
            AnyPolicy::from(ArbiterKind::Sgl),
            ArbiterKind::Sgl,
            version,
        );
        arbiter.note(fall(CONTROLLER, Wire::Bg(3)));
        assert!(rt; arbiter.may(rise(CONTROLLER, Wire::Bg(3)), quiet()) == answer);
    }
}

/// What a requester sees of its grant-in.
fn granted(grant_in: bool) -> Pins {
    Pins {
        grant_in,
        ..quiet()
    }
}

/// The requester in slot 2.
fn requester(release: Release, version: Version) -> Requester {
    Requester::new(2, RequesterRow { level: 3, release }, version)
}

/// The edge, whether the grant-in is low, and a requester's answer. If the edge is allowed, the
/// requester makes it.
type Asked = (Wire, bool, bool, Result<(), Refused>);

fn assert_requests(rt: &impl Abort, cases: &[Asked]) {
    let mut requester = requester(Release::Done { burst: 1 }, Version::One);
    for (wire, fall, grant_in, answer) in cases {
        let made = edge(SECOND, *wire, *fall);
        assert!(rt; requester.may(made, granted(*grant_in), true) == *answer);
        if answer.is_ok() {
            requester.note(made);
            assert!(rt; requester.is_low(*wire) == *fall);
        }
    }
}

const TENURE: [Asked; 4] = [
    (Wire::Br, true, false, Ok(())),
    (Wire::Bbsy, true, true, Ok(())),
    (Wire::Br, false, true, Ok(())),
    (Wire::Bbsy, false, false, Ok(())),
];

#[test]
fn a_tenure(rt: HostRuntime) {
    assert_requests(&rt, &TENURE);
}

const PASSED: [Asked; 5] = [
    (Wire::BgOut, true, false, Err(Refused::Rule(11))),
    (Wire::BgOut, true, true, Ok(())),
    (Wire::Br, true, true, Ok(())),
    (Wire::Bbsy, true, true, Err(Refused::Rule(13))),
    (Wire::BgOut, true, true, Err(Refused::AlreadyThere)),
];

#[test]
fn a_grant_that_was_passed_is_not_taken(rt: HostRuntime) {
    assert_requests(&rt, &PASSED);
}

#[test]
fn a_request_is_withdrawn_in_the_second_version_alone(rt: HostRuntime) {
    for (version, answer) in [
        (Version::One, Err(Refused::Rule(10))),
        (Version::Two, Ok(())),
    ] {
        let mut requester = requester(Release::Request, version);
        requester.note(fall(SECOND, Wire::Br));
        assert!(rt; requester.may(rise(SECOND, Wire::Br), granted(false), true) == answer);
    }
}

#[test]
fn a_release_on_request_waits_for_one(rt: HostRuntime) {
    let mut requester = requester(Release::Request, Version::One);
    requester.note(fall(SECOND, Wire::Bbsy));
    let release = rise(SECOND, Wire::Bbsy);
    let asked = asked([true, false, false, false], false);
    assert!(rt; requester.may(release, quiet(), true) == Err(Refused::Rule(14)));
    assert!(rt; requester.may(release, asked, false) == Err(Refused::Rule(14)));
    assert!(rt; requester.may(release, asked, true).is_ok());
}

#[test]
fn refusals_are_printed(rt: HostRuntime) -> Result<(), Fail> {
    for (refusal, text) in [
        (Refused::NoSuchDriver, "E1"),
        (Refused::AlreadyThere, "E2"),
        (Refused::Rule(26), "E3 G26"),
        (Refused::NotSettled(4), "E4 S4"),
        (Refused::TraceFull, "E5"),
    ] {
        assert!(rt; format!(in rt.alloc(); "{refusal}")?.as_str() == text);
    }
    Ok(())
}

/// What a master that has the bus sees, while level 4 is requested.
fn owned() -> Pins {
    Pins {
        bbsy: true,
        irq: Levels::of_lines([false, false, false, true, false, false, false]),
        ..quiet()
    }
}

/// The edge by which the master in slot 1 puts a cycle on its address group.
fn shows(cycle: Cycle) -> Edge {
    Edge {
        value: Some(cycle),
        ..fall(FIRST, Wire::Addr)
    }
}

/// The master in slot 1.
fn master(release: Release) -> Master {
    Master::new(1, RequesterRow { level: 3, release }, Levels::of(4))
}

/// Asserts that a master makes an edge, and may not make it again.
fn assert_made_once(rt: &impl Abort, master: &mut Master, made: Edge, dtack: bool) {
    let seen = Pins { dtack, ..owned() };
    assert!(rt; master.may(made, seen, true).is_ok());
    master.note(made);
    assert!(rt; master.is_low(made.wire) == made.fall);
    assert!(rt; master.may(made, seen, true) == Err(Refused::AlreadyThere));
}

/// A cycle without its first edge: each edge, and whether the cycle has been answered by then.
const CYCLE: [(Wire, bool, bool); 5] = [
    (Wire::AddressStrobe, true, false),
    (Wire::DataStrobe, true, false),
    (Wire::DataStrobe, false, true),
    (Wire::Addr, false, false),
    (Wire::AddressStrobe, false, false),
];

#[test]
fn a_cycle_and_no_second_one(rt: HostRuntime) {
    let mut master = master(Release::Done { burst: 1 });
    let on = shows(Cycle::Access(2));
    assert!(rt; master.may(on, owned(), false) == Err(Refused::Rule(15)));
    assert_made_once(&rt, &mut master, on, false);
    for (wire, fall, dtack) in CYCLE {
        assert_made_once(&rt, &mut master, edge(FIRST, wire, fall), dtack);
    }
    assert!(rt; master.may(on, owned(), true) == Err(Refused::Rule(15)));
    master.note(fall(FIRST, Wire::Bbsy));
    assert!(rt; master.may(on, owned(), true).is_ok());
}

#[test]
fn it_acknowledges_what_it_handles_and_what_is_requested(rt: HostRuntime) {
    let master = master(Release::Request);
    let (fourth, fifth) = (shows(Cycle::Acknowledge(4)), shows(Cycle::Acknowledge(5)));
    assert!(rt; master.may(fourth, owned(), true).is_ok());
    assert!(rt; master.may(fifth, owned(), true) == Err(Refused::Rule(15)));
    let none = Pins {
        irq: Levels::of_lines([false; 7]),
        ..owned()
    };
    assert!(rt; master.may(fourth, none, true) == Err(Refused::Rule(15)));
}

/// What a board sees of a cycle that has reached it.
fn strobed(shown: Option<Cycle>) -> Pins {
    Pins {
        bbsy: true,
        address_strobe: true,
        data_strobe: true,
        shown,
        iack_in: true,
        ..quiet()
    }
}

/// The interrupter in slot 2, on level 4.
fn interrupter(kind: IrqKind) -> Interrupter {
    let row = InterrupterRow {
        level: 4,
        kind,
        status: 65,
    };
    Interrupter::new(2, Some(row))
}

/// Asserts that an interrupter answers the cycle that is shown, and whether that serves it.
fn assert_answers(rt: &impl Abort, kind: IrqKind, shown: Option<Cycle>, is_served: bool) {
    let mut interrupter = interrupter(kind);
    interrupter.note(fall(SECOND, Wire::Irq), None);
    assert!(rt; interrupter.is_pending(4) && !interrupter.is_pending(3));
    let answer = fall(SECOND, Wire::Dtack);
    assert!(rt; interrupter.may(answer, strobed(shown)).is_ok());
    interrupter.note(answer, shown);
    assert!(rt; interrupter.is_low(Wire::Dtack) && interrupter.is_pending(4) != is_served);
    let withdrawn = if is_served {
        Ok(())
    } else {
        Err(Refused::Rule(22))
    };
    assert!(rt; interrupter.may(rise(SECOND, Wire::Irq), strobed(shown)) == withdrawn);
}

#[test]
fn an_acknowledge_serves_roak_and_an_access_rora(rt: HostRuntime) {
    let acknowledge = Some(Cycle::Acknowledge(4));
    let access = Some(Cycle::Access(2));
    assert_answers(&rt, IrqKind::Roak, acknowledge, true);
    assert_answers(&rt, IrqKind::Roak, access, false);
    assert_answers(&rt, IrqKind::Rora, acknowledge, false);
    assert_answers(&rt, IrqKind::Rora, access, true);
}

#[test]
fn one_that_passed_does_not_answer(rt: HostRuntime) {
    let seen = strobed(Some(Cycle::Acknowledge(4)));
    let passed = fall(SECOND, Wire::IackOut);
    let mut interrupter = interrupter(IrqKind::Roak);
    assert!(rt; interrupter.may(passed, seen).is_ok());
    interrupter.note(passed, seen.shown);
    interrupter.note(fall(SECOND, Wire::Irq), seen.shown);
    assert!(rt; interrupter.may(passed, seen) == Err(Refused::AlreadyThere));
    assert!(rt; interrupter.may(fall(SECOND, Wire::Dtack), seen) == Err(Refused::Rule(25)));
}

#[test]
fn a_board_without_an_interrupter_answers_accesses(rt: HostRuntime) {
    let board = Interrupter::new(2, None);
    let answer = fall(SECOND, Wire::Dtack);
    assert!(rt; board.may(answer, strobed(Some(Cycle::Access(2)))).is_ok());
    assert!(rt; board.may(answer, strobed(Some(Cycle::Access(3)))) == Err(Refused::Rule(25)));
}

#[test]
fn wants_the_highest_that_it_handles(rt: HostRuntime) {
    let low = Levels::of(2).with(5).with(6);
    assert!(rt; Handler::new(Levels::of(5).with(2)).wants(low) == Some(5));
    assert!(rt; Handler::new(Levels::of(7)).wants(low).is_none());
    assert!(rt; Handler::new(Levels::empty()).wants(low).is_none());
    assert!(rt; Handler::new(Levels::of(6)).wants(Levels::empty()).is_none());
}
