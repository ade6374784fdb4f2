//! What no clause says: the texts of the errors, and that reading succeeds where memory does not run out.
use crate::asserts::assert_same;
use std::process::Abort;
use vme_model::{ArbiterKind, ChainId, IrqKind, PlanError, Release};
use vme_scenario::{ScenarioError, read};
use vme_slots::Plan;

/// Three boards and a jumper, with every key that there is.
const EVERY_KEY: &str = r#"slots = 4
arbiter = "pri"

[[board]]
slot = 1
requester = { level = 3, release = "rwd", burst = 255 }
handler = [7, 1, 7]

[[board]]
slot = 2
interrupter = { level = 7, kind = "roak", status = 66 }

[[board]]
slot = 4
requester = { level = 0, release = "ror" }
interrupter = { level = 1, kind = "rora", status = 0 }

[[jumper]]
slot = 3
chains = ["bg0", "iack", "bg0"]
"#;

/// Scenarios that are refused, each with the text of its error: one for each text.
const REFUSED: [(&str, &str); 6] = [
    ("slots = ", "Q1 the scenario is not TOML"),
    ("speed = 1\n", "Q2 unknown key speed"),
    ("", "Q3 missing key slots"),
    ("slots = 256\n", "Q4 bad value of slots"),
    (
        "slots = 1\narbiter = \"sgl\"\nboard = []\njumper = [{ slot = 2, chains = [] }, { slot = 3 }]\n",
        "Q3 missing key jumper.2.chains",
    ),
    (
        "slots = 1\narbiter = \"sgl\"\nboard = []\n",
        "P1 slot 1 is empty",
    ),
];

/// The plan of a scenario that can be read.
fn plan_of(rt: &(impl Abort + AllocGlobal), text: &str) -> Plan {
    match read(rt.alloc(), text.as_bytes()) {
        Ok(scenario) => scenario.plan,
        Err(error) => panic!(rt; "{error}"),
    }
}

/// Asserts that slot 1 has a handler of levels 1 and 7, and no interrupter.
fn assert_first_board(rt: &impl Abort, plan: &Plan) {
    let first = plan.row(1).expect(rt, "slot 1");
    assert!(rt; first.handler.has(1) && first.handler.has(7) && !first.handler.has(4));
    assert!(rt; first.interrupter.is_none());
}

/// Asserts that slot 2 has an interrupter.
fn assert_second_board(rt: &impl Abort, plan: &Plan) {
    let second = plan.row(2).expect(rt, "slot 2");
    let interrupter = second.interrupter.expect(rt, "interrupter");
    let found = (interrupter.level, interrupter.kind, interrupter.status);
    assert_same(rt, found, (7, IrqKind::Roak, 66));
}

/// Asserts that the board in slot 4 gives the bus up where another requests it.
fn assert_fourth_board(rt: &impl Abort, plan: &Plan) {
    let fourth = plan.row(4).expect(rt, "slot 4");
    let requester = fourth.requester.expect(rt, "requester");
    assert_same(rt, requester.release, Release::Request);
}

/// Asserts which chains pass slot 3.
fn assert_jumper(rt: &impl Abort, plan: &Plan) {
    let jumper = plan.jumpers().first().expect(rt, "jumper");
    assert!(rt; jumper.chains.has(ChainId::Bg0) && jumper.chains.has(ChainId::Iack));
    assert!(rt; !jumper.chains.has(ChainId::Bg1));
}

#[test]
fn reads_every_key(rt: HostRuntime) {
    let plan = plan_of(&rt, EVERY_KEY);
    let found = (plan.slots(), plan.arbiter());
    assert_same(&rt, found, (4, ArbiterKind::Pri));
    assert_first_board(&rt, &plan);
    assert_second_board(&rt, &plan);
    assert_fourth_board(&rt, &plan);
    assert_jumper(&rt, &plan);
}

/// Asserts the text of an error.
fn assert_text(rt: &(impl Abort + AllocGlobal), error: &ScenarioError, wanted: &str) {
    let found = error.to_string(rt.alloc()).expect(rt, "the text");
    assert!(rt; found.as_str() == wanted, "{found}");
}

/// Asserts the text of the error that a scenario is refused with.
fn assert_refused(rt: &(impl Abort + AllocGlobal), text: &str, wanted: &str) {
    match read(rt.alloc(), text.as_bytes()) {
        Ok(_) => panic!(rt; "{text:?} is read"),
        Err(error) => assert_text(rt, &error, wanted),
    }
}

#[test]
fn prints_the_first_fault(rt: HostRuntime) {
    for (text, wanted) in &REFUSED {
        assert_refused(&rt, text, wanted);
    }
}

#[test]
fn prints_want_of_memory(rt: HostRuntime) {
    assert_text(&rt, &ScenarioError::Memory, "Q6 no memory");
    let of_the_plan = ScenarioError::Plan(PlanError::Memory);
    assert_text(&rt, &of_the_plan, "P9 no memory");
}

/// Holds where an allocation fails too: want of memory is then answered, and no fault of the text.
#[test]
fn answers_the_scenario_or_want_of_memory(rt: HostRuntime) {
    assert!(rt;
        matches!(
            read(rt.alloc(), EVERY_KEY.as_bytes()),
            Ok(_) | Err(ScenarioError::Memory | ScenarioError::Plan(PlanError::Memory))
        )
    );
}
