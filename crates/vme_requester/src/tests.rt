//! A tenure of a requester, and the answers that its rules refuse.
use crate::Requester;
use std::test::Fail;
use vme_model::{
    BusLevels, Driver, Edge, Levels, Pins, Refused, Release, RequesterRow, Version, Wire,
};

fn pins(grant_in: bool) -> Pins {
    Pins {
        requests: BusLevels::of_lines([false; 4]),
        bbsy: false,
        bclr: false,
        address_strobe: false,
        data_strobe: false,
        dtack: false,
        berr: false,
        irq: Levels::of_lines([false; 7]),
        shown: None,
        grant_in,
        iack_in: false,
    }
}

fn edge(wire: Wire, fall: bool) -> Edge {
    Edge {
        driver: Driver::Slot(2),
        wire,
        fall,
        value: None,
    }
}

fn row(release: Release) -> RequesterRow {
    RequesterRow { level: 3, release }
}

#[test]
fn a_tenure(rt: HostRuntime) {
    let mut requester = Requester::new(2, row(Release::Done { burst: 1 }), Version::One);
    for (wire, fall, grant_in) in [
        (Wire::Br, true, false),
        (Wire::Bbsy, true, true),
        (Wire::Br, false, true),
        (Wire::Bbsy, false, false),
    ] {
        assert_eq!(rt;
            requester.may(edge(wire, fall), pins(grant_in), true),
            Ok(())
        );
        requester.note(edge(wire, fall));
        assert_eq!(rt; requester.is_low(wire), fall);
    }
}

#[test]
fn a_grant_that_was_passed_is_not_taken(rt: HostRuntime) {
    let mut requester = Requester::new(2, row(Release::Done { burst: 1 }), Version::One);
    assert_eq!(rt;
        requester.may(edge(Wire::BgOut, true), pins(false), true),
        Err(Refused::Rule(11))
    );
    assert_eq!(rt;
        requester.may(edge(Wire::BgOut, true), pins(true), true),
        Ok(())
    );
    requester.note(edge(Wire::BgOut, true));
    requester.note(edge(Wire::Br, true));
    assert_eq!(rt;
        requester.may(edge(Wire::Bbsy, true), pins(true), true),
        Err(Refused::Rule(13))
    );
    assert_eq!(rt;
        requester.may(edge(Wire::BgOut, true), pins(true), true),
        Err(Refused::AlreadyThere)
    );
}

#[test]
fn a_request_is_withdrawn_in_the_second_version_alone(rt: HostRuntime) {
    for (version, answer) in [
        (Version::One, Err(Refused::Rule(10))),
        (Version::Two, Ok(())),
    ] {
        let mut requester = Requester::new(2, row(Release::Request), version);
        requester.note(edge(Wire::Br, true));
        assert_eq!(rt;
            requester.may(edge(Wire::Br, false), pins(false), true),
            answer
        );
    }
}

#[test]
fn a_release_on_request_waits_for_one(rt: HostRuntime) {
    let mut requester = Requester::new(2, row(Release::Request), Version::One);
    requester.note(edge(Wire::Bbsy, true));
    let asked = Pins {
        requests: BusLevels::of_lines([true, false, false, false]),
        ..pins(false)
    };
    assert_eq!(rt;
        requester.may(edge(Wire::Bbsy, false), pins(false), true),
        Err(Refused::Rule(14))
    );
    assert_eq!(rt;
        requester.may(edge(Wire::Bbsy, false), asked, false),
        Err(Refused::Rule(14))
    );
    assert_eq!(rt; requester.may(edge(Wire::Bbsy, false), asked, true), Ok(()));
}

#[test]
fn refusals_are_printed(rt: HostRuntime) -> Result<(), Fail> {
    for (refusal, text) in [
        (Refused::NoSuchDriver, "E1"),
        (Refused::AlreadyThere, "E2"),
        (Refused::Rule(26), "E3 G26"),
        (Refused::NotSettled(4), "E4 S4"),
        (Refused::TraceFull, "E5"),
    ] {
        assert_eq!(rt; format!(in rt.alloc(); "{refusal}")?.as_str(), text);
    }
    Ok(())
}
