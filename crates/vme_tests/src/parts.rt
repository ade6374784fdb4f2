//! The parts of a board and the controller: their runs, and what their rules refuse.
use crate::boards::{FIRST, SECOND, edge, fall, quiet, rise};
use bitflags::Flags;
use std::test::Fail;
use vme_arbiter::{AnyPolicy, Arbiter, Policy, Pri, Rrs, Sgl};
use vme_handler::Handler;
use vme_interrupter::Interrupter;
use vme_master::Master;
use vme_model::{
    ArbiterKind, BusLevels, Cycle, Driver, Edge, InterrupterRow, IrqKind, Levels, Pins, Refused,
    Release, RequesterRow, Version, Wire,
};
use vme_requester::Requester;

const CONTROLLER: Driver = Driver::Controller;

/// What the arbiter sees of requests and of the bus busy line.
fn asked(requests: [bool; 4], bbsy: bool) -> Pins {
    Pins {
        requests: BusLevels::of_lines(requests),
        bbsy,
        ..quiet()
    }
}

#[test]
fn picks(rt: HostRuntime) {
    let all = BusLevels::of_lines([true; 4]);
    let low_two = BusLevels::of_lines([true, true, false, false]);
    assert_eq!(rt; Sgl.pick(all, 0), Some(3));
    assert_eq!(rt; Sgl.pick(low_two, 0), None);
    assert_eq!(rt; Pri.pick(low_two, 3), Some(1));
    assert_eq!(rt; Rrs.pick(all, 0), Some(3));
    assert_eq!(rt; Rrs.pick(all, 3), Some(2));
    assert_eq!(rt; Rrs.pick(low_two, 1), Some(0));
    assert_eq!(rt; Rrs.pick(BusLevels::empty(), 1), None);
}

#[test]
fn any_policy_is_its_kind(rt: HostRuntime) {
    let all = BusLevels::of_lines([true; 4]);
    let pri = AnyPolicy::from(ArbiterKind::Pri);
    let rrs = AnyPolicy::from(ArbiterKind::Rrs);
    let sgl = AnyPolicy::from(ArbiterKind::Sgl);
    assert_eq!(rt; pri.pick(all, 2), Some(3));
    assert_eq!(rt; rrs.pick(all, 2), Some(1));
    assert_eq!(rt; sgl.pick(all, 2), Some(3));
}

#[test]
fn a_grant_and_a_bus_clear(rt: HostRuntime) {
    let mut arbiter = Arbiter::new(Pri, ArbiterKind::Pri, Version::One);
    let grant = fall(CONTROLLER, Wire::Bg(1));
    let granted = rise(CONTROLLER, Wire::Bg(1));
    let clear = fall(CONTROLLER, Wire::Bclr);
    let low = asked([false, true, true, false], false);
    assert_eq!(rt; arbiter.may(grant, low), Err(Refused::Rule(1)));
    let one = asked([false, true, false, false], false);
    assert_eq!(rt; arbiter.may(grant, one), Ok(()));
    arbiter.note(grant);
    assert_eq!(rt; arbiter.is_low(Wire::Bg(1)), true);
    assert_eq!(rt; arbiter.may(grant, one), Err(Refused::AlreadyThere));
    assert_eq!(rt; arbiter.may(granted, one), Err(Refused::Rule(2)));
    let taken = asked([false, false, true, false], true);
    assert_eq!(rt; arbiter.may(clear, taken), Err(Refused::Rule(3)));
    assert_eq!(rt; arbiter.may(granted, taken), Ok(()));
    arbiter.note(granted);
    assert_eq!(rt; arbiter.may(clear, taken), Ok(()));
}

#[test]
fn a_grant_is_timed_out_in_the_second_version_alone(rt: HostRuntime) {
    for (version, answer) in [
        (Version::One, Err(Refused::Rule(2))),
        (Version::Two, Ok(())),
    ] {
        let mut arbiter = Arbiter::new(
            AnyPolicy::from(ArbiterKind::Sgl),
            ArbiterKind::Sgl,
            version,
        );
        arbiter.note(fall(CONTROLLER, Wire::Bg(3)));
        assert_eq!(rt; arbiter.may(rise(CONTROLLER, Wire::Bg(3)), quiet()), answer);
    }
}

/// What a requester sees of its grant input.
fn granted(grant_in: bool) -> Pins {
    Pins {
        grant_in,
        ..quiet()
    }
}

/// The requester in slot 2.
fn requester(release: Release, version: Version) -> Requester {
    Requester::new(2, RequesterRow { level: 3, release }, version)
}

#[test]
fn a_tenure(rt: HostRuntime) {
    let mut requester = requester(Release::Done { burst: 1 }, Version::One);
    for (wire, fall, grant_in) in [
        (Wire::Br, true, false),
        (Wire::Bbsy, true, true),
        (Wire::Br, false, true),
        (Wire::Bbsy, false, false),
    ] {
        let made = edge(SECOND, wire, fall);
        assert_eq!(rt; requester.may(made, granted(grant_in), true), Ok(()));
        requester.note(made);
        assert_eq!(rt; requester.is_low(wire), fall);
    }
}

#[test]
fn a_grant_that_was_passed_is_not_taken(rt: HostRuntime) {
    let mut requester = requester(Release::Done { burst: 1 }, Version::One);
    let passed = fall(SECOND, Wire::BgOut);
    assert_eq!(rt;
        requester.may(passed, granted(false), true),
        Err(Refused::Rule(11))
    );
    assert_eq!(rt; requester.may(passed, granted(true), true), Ok(()));
    requester.note(passed);
    requester.note(fall(SECOND, Wire::Br));
    assert_eq!(rt;
        requester.may(fall(SECOND, Wire::Bbsy), granted(true), true),
        Err(Refused::Rule(13))
    );
    assert_eq!(rt;
        requester.may(passed, granted(true), true),
        Err(Refused::AlreadyThere)
    );
}

#[test]
fn a_request_is_withdrawn_in_the_second_version_alone(rt: HostRuntime) {
    for (version, answer) in [
        (Version::One, Err(Refused::Rule(10))),
        (Version::Two, Ok(())),
    ] {
        let mut requester = requester(Release::Request, version);
        requester.note(fall(SECOND, Wire::Br));
        assert_eq!(rt;
            requester.may(rise(SECOND, Wire::Br), granted(false), true),
            answer
        );
    }
}

#[test]
fn a_release_on_request_waits_for_one(rt: HostRuntime) {
    let mut requester = requester(Release::Request, Version::One);
    requester.note(fall(SECOND, Wire::Bbsy));
    let release = rise(SECOND, Wire::Bbsy);
    let asked = asked([true, false, false, false], false);
    assert_eq!(rt;
        requester.may(release, quiet(), true),
        Err(Refused::Rule(14))
    );
    assert_eq!(rt;
        requester.may(release, asked, false),
        Err(Refused::Rule(14))
    );
    assert_eq!(rt; requester.may(release, asked, true), Ok(()));
}

#[test]
fn refusals_are_printed(rt: HostRuntime) -> Result<(), Fail> {
    for (refusal, text) in [
        (Refused::NoSuchDriver, "E1"),
        (Refused::AlreadyThere, "E2"),
        (Refused::Rule(26), "E3 G26"),
        (Refused::NotSettled(4), "E4 S4"),
        (Refused::TraceFull, "E5"),
    ] {
        assert_eq!(rt; format!(in rt.alloc(); "{refusal}")?.as_str(), text);
    }
    Ok(())
}

/// What a master sees that has the bus, where level 4 is requested.
fn owned() -> Pins {
    Pins {
        bbsy: true,
        irq: Levels::of_lines([false, false, false, true, false, false, false]),
        ..quiet()
    }
}

/// The master in slot 1 puts a cycle on its address group.
fn shows(cycle: Cycle) -> Edge {
    Edge {
        value: Some(cycle),
        ..fall(FIRST, Wire::Addr)
    }
}

/// The master in slot 1.
fn master(release: Release) -> Master {
    Master::new(1, RequesterRow { level: 3, release }, Levels::of(4))
}

#[test]
fn a_cycle_and_no_second_one(rt: HostRuntime) {
    let mut master = master(Release::Done { burst: 1 });
    let on = shows(Cycle::Access(2));
    assert_eq!(rt; master.may(on, owned(), false), Err(Refused::Rule(15)));
    for (made, dtack) in [
        (on, false),
        (fall(FIRST, Wire::AddressStrobe), false),
        (fall(FIRST, Wire::DataStrobe), false),
        (rise(FIRST, Wire::DataStrobe), true),
        (rise(FIRST, Wire::Addr), false),
        (rise(FIRST, Wire::AddressStrobe), false),
    ] {
        let seen = Pins { dtack, ..owned() };
        assert_eq!(rt; master.may(made, seen, true), Ok(()));
        master.note(made);
        assert_eq!(rt; master.is_low(made.wire), made.fall);
        assert_eq!(rt; master.may(made, seen, true), Err(Refused::AlreadyThere));
    }
    assert_eq!(rt; master.may(on, owned(), true), Err(Refused::Rule(15)));
    master.note(fall(FIRST, Wire::Bbsy));
    assert_eq!(rt; master.may(on, owned(), true), Ok(()));
}

#[test]
fn it_acknowledges_what_it_handles_and_what_is_requested(rt: HostRuntime) {
    let master = master(Release::Request);
    let (fourth, fifth) = (shows(Cycle::Acknowledge(4)), shows(Cycle::Acknowledge(5)));
    assert_eq!(rt; master.may(fourth, owned(), true), Ok(()));
    assert_eq!(rt; master.may(fifth, owned(), true), Err(Refused::Rule(15)));
    let none = Pins {
        irq: Levels::of_lines([false; 7]),
        ..owned()
    };
    assert_eq!(rt; master.may(fourth, none, true), Err(Refused::Rule(15)));
}

/// What a board sees of a cycle that reached it.
fn strobed(shown: Option<Cycle>) -> Pins {
    Pins {
        bbsy: true,
        address_strobe: true,
        data_strobe: true,
        shown,
        iack_in: true,
        ..quiet()
    }
}

/// The interrupter in slot 2, on level 4.
fn interrupter(kind: IrqKind) -> Interrupter {
    let row = InterrupterRow {
        level: 4,
        kind,
        status: 65,
    };
    Interrupter::new(2, Some(row))
}

#[test]
fn an_acknowledge_serves_roak_and_an_access_rora(rt: HostRuntime) {
    let acknowledge = Some(Cycle::Acknowledge(4));
    let access = Some(Cycle::Access(2));
    let (request, answer) = (fall(SECOND, Wire::Irq), fall(SECOND, Wire::Dtack));
    for (kind, shown, is_served) in [
        (IrqKind::Roak, acknowledge, true),
        (IrqKind::Roak, access, false),
        (IrqKind::Rora, acknowledge, false),
        (IrqKind::Rora, access, true),
    ] {
        let mut interrupter = interrupter(kind);
        interrupter.note(request, None);
        assert!(rt; interrupter.is_pending(4));
        assert!(rt; !interrupter.is_pending(3));
        assert_eq!(rt; interrupter.may(answer, strobed(shown)), Ok(()));
        interrupter.note(answer, shown);
        assert_eq!(rt; interrupter.is_low(Wire::Dtack), true);
        assert_eq!(rt; interrupter.is_pending(4), !is_served);
        let withdrawn = if is_served {
            Ok(())
        } else {
            Err(Refused::Rule(22))
        };
        assert_eq!(rt;
            interrupter.may(rise(SECOND, Wire::Irq), strobed(shown)),
            withdrawn
        );
    }
}

#[test]
fn one_that_passed_does_not_answer(rt: HostRuntime) {
    let seen = strobed(Some(Cycle::Acknowledge(4)));
    let passed = fall(SECOND, Wire::IackOut);
    let mut interrupter = interrupter(IrqKind::Roak);
    assert_eq!(rt; interrupter.may(passed, seen), Ok(()));
    interrupter.note(passed, seen.shown);
    interrupter.note(fall(SECOND, Wire::Irq), seen.shown);
    assert_eq!(rt; interrupter.may(passed, seen), Err(Refused::AlreadyThere));
    assert_eq!(rt;
        interrupter.may(fall(SECOND, Wire::Dtack), seen),
        Err(Refused::Rule(25))
    );
}

#[test]
fn a_board_without_an_interrupter_answers_accesses(rt: HostRuntime) {
    let board = Interrupter::new(2, None);
    let answer = fall(SECOND, Wire::Dtack);
    assert_eq!(rt; board.may(answer, strobed(Some(Cycle::Access(2)))), Ok(()));
    assert_eq!(rt;
        board.may(answer, strobed(Some(Cycle::Access(3)))),
        Err(Refused::Rule(25))
    );
}

#[test]
fn wants_the_highest_that_it_handles(rt: HostRuntime) {
    let low = Levels::of(2).with(5).with(6);
    assert_eq!(rt; Handler::new(Levels::of(5).with(2)).wants(low), Some(5));
    assert_eq!(rt; Handler::new(Levels::of(7)).wants(low), None);
    assert_eq!(rt; Handler::new(Levels::empty()).wants(low), None);
    assert_eq!(rt; Handler::new(Levels::of(6)).wants(Levels::empty()), None);
}
