//! Cycles of a master, and what its rules refuse.
use crate::Master;
use vme_model::{
    BusLevels, Cycle, Driver, Edge, Levels, Pins, Refused, Release, RequesterRow, Wire,
};

fn pins() -> Pins {
    Pins {
        requests: BusLevels::of_lines([false; 4]),
        bbsy: true,
        bclr: false,
        address_strobe: false,
        data_strobe: false,
        dtack: false,
        berr: false,
        irq: Levels::of_lines([false, false, false, true, false, false, false]),
        shown: None,
        grant_in: false,
        iack_in: false,
    }
}

fn edge(wire: Wire, fall: bool, value: Option<Cycle>) -> Edge {
    Edge {
        driver: Driver::Slot(1),
        wire,
        fall,
        value,
    }
}

fn master(release: Release) -> Master {
    Master::new(1, RequesterRow { level: 3, release }, Levels::of(4))
}

#[test]
fn a_cycle_and_no_second_one(rt: HostRuntime) {
    let mut master = master(Release::Done { burst: 1 });
    let on = edge(Wire::Addr, true, Some(Cycle::Access(2)));
    assert_eq!(rt; master.may(on, pins(), false), Err(Refused::Rule(15)));
    for (made, dtack) in [
        (on, false),
        (edge(Wire::AddressStrobe, true, None), false),
        (edge(Wire::DataStrobe, true, None), false),
        (edge(Wire::DataStrobe, false, None), true),
        (edge(Wire::Addr, false, None), false),
        (edge(Wire::AddressStrobe, false, None), false),
    ] {
        let seen = Pins { dtack, ..pins() };
        assert_eq!(rt; master.may(made, seen, true), Ok(()));
        master.note(made);
        assert_eq!(rt; master.is_low(made.wire), made.fall);
        assert_eq!(rt; master.may(made, seen, true), Err(Refused::AlreadyThere));
    }
    assert_eq!(rt; master.may(on, pins(), true), Err(Refused::Rule(15)));
    master.note(edge(Wire::Bbsy, true, None));
    assert_eq!(rt; master.may(on, pins(), true), Ok(()));
}

#[test]
fn it_acknowledges_what_it_handles_and_what_is_requested(rt: HostRuntime) {
    let master = master(Release::Request);
    let shows = |level| edge(Wire::Addr, true, Some(Cycle::Acknowledge(level)));
    assert_eq!(rt; master.may(shows(4), pins(), true), Ok(()));
    assert_eq!(rt; master.may(shows(5), pins(), true), Err(Refused::Rule(15)));
    let quiet = Pins {
        irq: Levels::of_lines([false; 7]),
        ..pins()
    };
    assert_eq!(rt; master.may(shows(4), quiet, true), Err(Refused::Rule(15)));
}
