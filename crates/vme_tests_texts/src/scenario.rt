//! A scenario with every key that there is, and the plan that it describes. What is refused, and
//! with which text, has cases in `acceptance/cases/scenario-faults`.
use crate::asserts::assert_same;
use std::process::Abort;
use vme_model::{ArbiterKind, ChainId, IrqKind, Release};
use vme_scenario::read;
use vme_slots::Plan;

/// Three boards and a jumper, with every key that there is.
const EVERY_KEY: &str = r#"slots = 4
arbiter = "pri"

[[board]]
slot = 1
requester = { level = 3, release = "rwd", burst = 255 }
handler = [7, 1, 7]

[[board]]
slot = 2
interrupter = { level = 7, kind = "roak", status = 66 }

[[board]]
slot = 4
requester = { level = 0, release = "ror" }
interrupter = { level = 1, kind = "rora", status = 0 }

[[jumper]]
slot = 3
chains = ["bg0", "iack", "bg0"]
"#;

/// The plan of a scenario that can be read.
fn plan_of(rt: &(impl Abort + AllocGlobal), text: &str) -> Plan {
    match read(rt.alloc(), text.as_bytes()) {
        Ok(scenario) => scenario.plan,
        Err(error) => panic!(rt; "{error}"),
    }
}

/// Asserts that slot 1 has a handler of levels 1 and 7, and no interrupter.
fn assert_first_board(rt: &impl Abort, plan: &Plan) {
    let first = plan.row(1).expect(rt, "slot 1");
    assert!(rt; first.handler.has(1) && first.handler.has(7) && !first.handler.has(4));
    assert!(rt; first.interrupter.is_none());
}

/// Asserts that slot 2 has an interrupter.
fn assert_second_board(rt: &impl Abort, plan: &Plan) {
    let second = plan.row(2).expect(rt, "slot 2");
    let interrupter = second.interrupter.expect(rt, "interrupter");
    let found = (interrupter.level, interrupter.kind, interrupter.status);
    assert_same(rt, found, (7, IrqKind::Roak, 66));
}

/// Asserts that the board in slot 4 gives the bus up when another board requests it.
fn assert_fourth_board(rt: &impl Abort, plan: &Plan) {
    let fourth = plan.row(4).expect(rt, "slot 4");
    let requester = fourth.requester.expect(rt, "requester");
    assert_same(rt, requester.release, Release::Request);
}

/// Asserts which chains pass slot 3.
fn assert_jumper(rt: &impl Abort, plan: &Plan) {
    let jumper = plan.jumpers().first().expect(rt, "jumper");
    assert!(rt; jumper.chains.has(ChainId::Bg0) && jumper.chains.has(ChainId::Iack));
    assert!(rt; !jumper.chains.has(ChainId::Bg1));
}

#[test]
fn reads_every_key(rt: HostRuntime) {
    let plan = plan_of(&rt, EVERY_KEY);
    let found = (plan.slots(), plan.arbiter());
    assert_same(&rt, found, (4, ArbiterKind::Pri));
    assert_first_board(&rt, &plan);
    assert_second_board(&rt, &plan);
    assert_fourth_board(&rt, &plan);
    assert_jumper(&rt, &plan);
}
