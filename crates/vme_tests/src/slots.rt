//! A plan's calls, memory that is refused, and the printed refusals. Which plan is refused, and for what, the clauses say.
use crate::boards::{interrupter, requester};
use bitflags::Flags;
use std::test::Fail;
use vme_model::{ArbiterKind, ChainId, Chains, Jumper};
use vme_slots::{Field, Plan, PlanError};

fn jumper(slot: u8, chains: u8) -> Jumper {
    Jumper {
        slot,
        chains: Chains::from_bits_retain(chains),
    }
}

#[test]
fn a_plan_tells_its_boards_and_chains(rt: HostRuntime) -> Result<(), Fail> {
    let rows = [
        requester(4, 1, 1),
        requester(1, 3, 1),
        requester(3, 3, 1),
        interrupter(5, 7, 65),
    ];
    let jumpers = [jumper(2, 0b1_1010)];
    let plan = Plan::new(rt.alloc(), 6, &rows, &jumpers, ArbiterKind::Pri)?;
    plan.accepted();
    assert_eq!(rt; plan.slots(), 6);
    assert_eq!(rt; plan.arbiter(), ArbiterKind::Pri);
    assert_eq!(rt; plan.rows(), rows.as_slice());
    assert_eq!(rt; plan.jumpers(), jumpers.as_slice());
    assert_eq!(rt; plan.row(3).copied(), Some(rows[2]));
    assert_eq!(rt; plan.row(2).copied(), None);
    assert_eq!(rt; plan.active(ChainId::Bg0), [].as_slice());
    assert_eq!(rt; plan.active(ChainId::Bg1), [4].as_slice());
    assert_eq!(rt; plan.active(ChainId::Bg3), [1, 3].as_slice());
    assert_eq!(rt; plan.active(ChainId::Iack), [5].as_slice());
    assert_eq!(rt; plan.upstream(ChainId::Bg3, 1), None);
    assert_eq!(rt; plan.upstream(ChainId::Bg3, 3), Some(1));
    assert_eq!(rt; plan.upstream(ChainId::Bg3, 6), Some(3));
    assert_eq!(rt; plan.last_active(ChainId::Bg3), Some(3));
    assert_eq!(rt; plan.last_active(ChainId::Bg2), None);
    Ok(())
}

/// Holds where an allocation fails too: want of memory is then answered, and no fault of the plan.
#[test]
fn answers_the_plan_or_want_of_memory(rt: HostRuntime) {
    let rows = [requester(1, 3, 1), interrupter(3, 7, 65)];
    let jumpers = [jumper(2, 0b1_0000)];
    let plan = Plan::new(rt.alloc(), 3, &rows, &jumpers, ArbiterKind::Sgl);
    assert!(rt; matches!(plan, Ok(_) | Err(PlanError::Memory)));
}

#[test]
fn refusals_are_printed(rt: HostRuntime) -> Result<(), Fail> {
    let chain = ChainId::Bg3;
    let field = Field::JumperChains;
    let texts = [
        (PlanError::NoController, "P1 slot 1 is empty"),
        (
            PlanError::TooManySlots { slots: 22 },
            "P2 22 slots, at most 21",
        ),
        (PlanError::SlotTwice { slot: 2 }, "P3 slot 2 is named twice"),
        (
            PlanError::ChainBroken { slot: 2, chain },
            "P4 slot 2 breaks chain bg3",
        ),
        (
            PlanError::LevelNotServed { slot: 1 },
            "P5 slot 1 requests a level that SGL does not serve",
        ),
        (
            PlanError::HandlerTwice { level: 4 },
            "P6 interrupt level 4 has two handlers",
        ),
        (
            PlanError::HandlerWithoutRequester { slot: 1 },
            "P7 the handler in slot 1 has no requester",
        ),
        (
            PlanError::OutOfRange { field },
            "P8 jumper.chains is out of range",
        ),
        (PlanError::Memory, "P9 no memory"),
    ];
    for (refusal, text) in texts {
        assert_eq!(rt; format!(in rt.alloc(); "{refusal}")?.as_str(), text);
    }
    Ok(())
}
