//! Plans with their answers, the printed refusals, and memory that is refused.
use crate::{Field, Plan, PlanError};
use bitflags::Flags;
use std::alloc::Global;
use std::test::Fail;
use vme_model::{
    ArbiterKind, ChainId, Chains, InterrupterRow, IrqKind, Jumper, Levels, Release, RequesterRow,
    Row,
};

/// A board with nothing that the tests look at.
fn board(slot: u8) -> Row {
    Row {
        slot,
        requester: None,
        interrupter: None,
        handler: Levels::empty(),
    }
}

fn requester(slot: u8, level: u8) -> Row {
    let release = Release::Done { burst: 1 };
    Row {
        requester: Some(RequesterRow { level, release }),
        ..board(slot)
    }
}

fn interrupter(slot: u8, level: u8) -> Row {
    let kind = IrqKind::Roak;
    Row {
        interrupter: Some(InterrupterRow {
            level,
            kind,
            status: 65,
        }),
        ..board(slot)
    }
}

fn jumper(slot: u8, chains: u8) -> Jumper {
    Jumper {
        slot,
        chains: Chains::from_bits_retain(chains),
    }
}

fn refusal(alloc: Global, slots: u8, rows: &[Row], jumpers: &[Jumper]) -> Option<PlanError> {
    Plan::new(alloc, slots, rows, jumpers, ArbiterKind::Sgl).err()
}

fn out_of_range(field: Field) -> Option<PlanError> {
    Some(PlanError::OutOfRange { field })
}

#[test]
fn a_plan_tells_its_boards_and_chains(rt: HostRuntime) -> Result<(), Fail> {
    let rows = [
        requester(4, 1),
        requester(1, 3),
        requester(3, 3),
        interrupter(5, 7),
    ];
    let jumpers = [jumper(2, 0b1_1010)];
    let plan = Plan::new(rt.alloc(), 6, &rows, &jumpers, ArbiterKind::Pri)?;
    plan.accepted();
    assert_eq!(rt; plan.slots(), 6);
    assert_eq!(rt; plan.arbiter(), ArbiterKind::Pri);
    assert_eq!(rt; plan.rows(), rows.as_slice());
    assert_eq!(rt; plan.jumpers(), jumpers.as_slice());
    assert_eq!(rt; plan.row(3).copied(), Some(rows[2]));
    assert_eq!(rt; plan.row(2).copied(), None);
    assert_eq!(rt; plan.active(ChainId::Bg0), [].as_slice());
    assert_eq!(rt; plan.active(ChainId::Bg1), [4].as_slice());
    assert_eq!(rt; plan.active(ChainId::Bg3), [1, 3].as_slice());
    assert_eq!(rt; plan.active(ChainId::Iack), [5].as_slice());
    assert_eq!(rt; plan.upstream(ChainId::Bg3, 1), None);
    assert_eq!(rt; plan.upstream(ChainId::Bg3, 3), Some(1));
    assert_eq!(rt; plan.upstream(ChainId::Bg3, 6), Some(3));
    assert_eq!(rt; plan.last_active(ChainId::Bg3), Some(3));
    assert_eq!(rt; plan.last_active(ChainId::Bg2), None);
    Ok(())
}

#[test]
fn the_first_of_two_faults_is_answered(rt: HostRuntime) {
    let alloc = rt.alloc();
    let no_burst = Row {
        requester: Some(RequesterRow {
            level: 3,
            release: Release::Done { burst: 0 },
        }),
        ..board(2)
    };
    let four = Levels::of(4);
    let handler = |row: Row| Row {
        handler: four,
        ..row
    };
    let two_handlers = [handler(requester(1, 2)), handler(requester(2, 3))];
    let handlers_apart = [handler(requester(1, 3)), handler(board(2))];
    let twice = [requester(1, 3), requester(1, 3), requester(3, 3)];
    let row_and_jumper = [requester(1, 3), requester(2, 0)];
    assert_eq!(rt;
        refusal(alloc, 22, &[], &[]),
        Some(PlanError::TooManySlots { slots: 22 })
    );
    assert_eq!(rt;
        refusal(alloc, 3, &[no_burst], &[]),
        out_of_range(Field::RequesterBurst)
    );
    assert_eq!(rt;
        refusal(alloc, 3, &twice, &[]),
        Some(PlanError::SlotTwice { slot: 1 })
    );
    assert_eq!(rt;
        refusal(alloc, 2, &row_and_jumper, &[jumper(2, 8)]),
        Some(PlanError::SlotTwice { slot: 2 })
    );
    assert_eq!(rt;
        refusal(alloc, 2, &two_handlers, &[]),
        Some(PlanError::LevelNotServed { slot: 1 })
    );
    assert_eq!(rt;
        refusal(alloc, 2, &handlers_apart, &[]),
        Some(PlanError::HandlerTwice { level: 4 })
    );
}

#[test]
fn each_field_has_its_range(rt: HostRuntime) {
    let alloc = rt.alloc();
    let first = requester(1, 3);
    let unknown_level = Row {
        handler: Levels::from_bits_retain(0b1000_0000),
        ..requester(2, 3)
    };
    assert_eq!(rt; refusal(alloc, 0, &[], &[]), out_of_range(Field::Slots));
    assert_eq!(rt;
        refusal(alloc, 2, &[first, board(0)], &[]),
        out_of_range(Field::Slot)
    );
    assert_eq!(rt;
        refusal(alloc, 2, &[first, board(3)], &[]),
        out_of_range(Field::Slot)
    );
    assert_eq!(rt;
        refusal(alloc, 2, &[first, requester(2, 4)], &[]),
        out_of_range(Field::RequesterLevel)
    );
    assert_eq!(rt;
        refusal(alloc, 2, &[first, interrupter(2, 0)], &[]),
        out_of_range(Field::InterrupterLevel)
    );
    assert_eq!(rt;
        refusal(alloc, 2, &[first, interrupter(2, 8)], &[]),
        out_of_range(Field::InterrupterLevel)
    );
    assert_eq!(rt;
        refusal(alloc, 2, &[first, unknown_level], &[]),
        out_of_range(Field::Handler)
    );
    assert_eq!(rt;
        refusal(alloc, 2, &[first], &[jumper(3, 8)]),
        out_of_range(Field::JumperSlot)
    );
    assert_eq!(rt;
        refusal(alloc, 2, &[first], &[jumper(2, 0b10_0000)]),
        out_of_range(Field::JumperChains)
    );
}

#[test]
fn a_chain_needs_its_jumpers_below_a_board_that_works_it(rt: HostRuntime) {
    let alloc = rt.alloc();
    let gap = [requester(1, 3), interrupter(4, 1), requester(5, 1)];
    let broken = |slot: u8, chain: ChainId| Some(PlanError::ChainBroken { slot, chain });
    assert_eq!(rt;
        refusal(alloc, 6, &[board(2)], &[]),
        Some(PlanError::NoController)
    );
    assert_eq!(rt; refusal(alloc, 6, &gap, &[]), broken(2, ChainId::Bg1));
    assert_eq!(rt;
        refusal(alloc, 6, &gap, &[jumper(2, 0b0_0010)]),
        broken(2, ChainId::Iack)
    );
    assert_eq!(rt;
        refusal(alloc, 6, &gap, &[jumper(2, 0b1_0010)]),
        broken(3, ChainId::Bg1)
    );
    let joined = [jumper(2, 0b1_0010), jumper(3, 0b1_0010)];
    assert_eq!(rt;
        refusal(alloc, 6, &gap, &joined),
        Some(PlanError::LevelNotServed { slot: 5 })
    );
}

#[test]
fn many_boards_are_answered_at_once(rt: HostRuntime) -> Result<(), Fail> {
    let rows = vec![in rt.alloc(); requester(21, 3); 50_000]?;
    assert_eq!(rt;
        refusal(rt.alloc(), 21, &rows, &[]),
        Some(PlanError::NoController)
    );
    let mut rows = rows;
    rows.push(requester(1, 3))?;
    assert_eq!(rt;
        refusal(rt.alloc(), 21, &rows, &[]),
        Some(PlanError::SlotTwice { slot: 21 })
    );
    Ok(())
}

#[test]
fn refusals_are_printed(rt: HostRuntime) -> Result<(), Fail> {
    let chain = ChainId::Bg3;
    let field = Field::JumperChains;
    let texts = [
        (PlanError::NoController, "P1 slot 1 is empty"),
        (
            PlanError::TooManySlots { slots: 22 },
            "P2 22 slots, at most 21",
        ),
        (PlanError::SlotTwice { slot: 2 }, "P3 slot 2 is named twice"),
        (
            PlanError::ChainBroken { slot: 2, chain },
            "P4 slot 2 breaks chain bg3",
        ),
        (
            PlanError::LevelNotServed { slot: 1 },
            "P5 slot 1 requests a level that SGL does not serve",
        ),
        (
            PlanError::HandlerTwice { level: 4 },
            "P6 interrupt level 4 has two handlers",
        ),
        (
            PlanError::HandlerWithoutRequester { slot: 1 },
            "P7 the handler in slot 1 has no requester",
        ),
        (
            PlanError::OutOfRange { field },
            "P8 jumper.chains is out of range",
        ),
        (PlanError::Memory, "P9 no memory"),
    ];
    for (refusal, text) in texts {
        assert_eq!(rt; format!(in rt.alloc(); "{refusal}")?.as_str(), text);
    }
    Ok(())
}

#[test]
fn a_handler_needs_a_requester(rt: HostRuntime) {
    let handler = Levels::of(1);
    let rows = [Row {
        handler,
        ..board(1)
    }];
    let wanted = Some(PlanError::HandlerWithoutRequester { slot: 1 });
    assert_eq!(rt; refusal(rt.alloc(), 1, &rows, &[]), wanted);
}
