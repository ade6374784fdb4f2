//! An acknowledge, an access, and what an interrupter's rules refuse.
use crate::Interrupter;
use vme_model::{
    BusLevels, Cycle, Driver, Edge, InterrupterRow, IrqKind, Levels, Pins, Refused, Wire,
};

fn pins(shown: Option<Cycle>) -> Pins {
    Pins {
        requests: BusLevels::of_lines([false; 4]),
        bbsy: true,
        bclr: false,
        address_strobe: true,
        data_strobe: true,
        dtack: false,
        berr: false,
        irq: Levels::of_lines([false; 7]),
        shown,
        grant_in: false,
        iack_in: true,
    }
}

fn edge(wire: Wire, fall: bool) -> Edge {
    Edge {
        driver: Driver::Slot(2),
        wire,
        fall,
        value: None,
    }
}

fn row(kind: IrqKind) -> Option<InterrupterRow> {
    Some(InterrupterRow {
        level: 4,
        kind,
        status: 65,
    })
}

#[test]
fn an_acknowledge_serves_roak_and_an_access_rora(rt: HostRuntime) {
    let acknowledge = Some(Cycle::Acknowledge(4));
    let access = Some(Cycle::Access(2));
    for (kind, shown, is_served) in [
        (IrqKind::Roak, acknowledge, true),
        (IrqKind::Roak, access, false),
        (IrqKind::Rora, acknowledge, false),
        (IrqKind::Rora, access, true),
    ] {
        let mut interrupter = Interrupter::new(2, row(kind));
        interrupter.note(edge(Wire::Irq, true), None);
        assert!(rt; interrupter.is_pending(4));
        assert!(rt; !interrupter.is_pending(3));
        assert_eq!(rt;
            interrupter.may(edge(Wire::Dtack, true), pins(shown)),
            Ok(())
        );
        interrupter.note(edge(Wire::Dtack, true), shown);
        assert_eq!(rt; interrupter.is_low(Wire::Dtack), true);
        assert_eq!(rt; interrupter.is_pending(4), !is_served);
        let answer = if is_served {
            Ok(())
        } else {
            Err(Refused::Rule(22))
        };
        assert_eq!(rt;
            interrupter.may(edge(Wire::Irq, false), pins(shown)),
            answer
        );
    }
}

#[test]
fn one_that_passed_does_not_answer(rt: HostRuntime) {
    let shown = pins(Some(Cycle::Acknowledge(4)));
    let mut interrupter = Interrupter::new(2, row(IrqKind::Roak));
    assert_eq!(rt; interrupter.may(edge(Wire::IackOut, true), shown), Ok(()));
    interrupter.note(edge(Wire::IackOut, true), shown.shown);
    interrupter.note(edge(Wire::Irq, true), shown.shown);
    assert_eq!(rt;
        interrupter.may(edge(Wire::IackOut, true), shown),
        Err(Refused::AlreadyThere)
    );
    assert_eq!(rt;
        interrupter.may(edge(Wire::Dtack, true), shown),
        Err(Refused::Rule(25))
    );
}

#[test]
fn a_board_without_an_interrupter_answers_accesses(rt: HostRuntime) {
    let board = Interrupter::new(2, None);
    assert_eq!(rt;
        board.may(edge(Wire::Dtack, true), pins(Some(Cycle::Access(2)))),
        Ok(())
    );
    assert_eq!(rt;
        board.may(edge(Wire::Dtack, true), pins(Some(Cycle::Access(3)))),
        Err(Refused::Rule(25))
    );
}
