//! The conditions of the changes of IRQ* and the acknowledge chain.
ghost use Rattle.std.specs.Prelude.{◌≡◌};
ghost use Rattle.vme_probe.specs.Conditions.{acknowledge_moves, chain_rises, interrupt_rises, is_acknowledge_shown, is_on_level, passed_on, start_falls};

use crate::cycle_conditions::{input_place, strobe_low};
use crate::demands::{Demand, Demands, RequestTest, in_order};
use crate::left::interrupter_at;
use crate::obstacles::Obstacle;
use vme_captures::Line;
use vme_model::{Condition, InterrupterRow, Rule, Wire};
use vme_slots::Plan;
use vme_standings::{Shown, Standings};

/// IRQn* rises.
pub(crate) fn interrupt_rises(interrupter: Option<InterrupterRow>) -> Demands
    ensures { result.items ≡ interrupt_rises interrupter }
{
    match interrupter {
        None => in_order(&[]),
        Some(interrupter) => in_order(&[
            Demand::on_requests(Obstacle::NotLow(Wire::Irq), RequestTest::Pulls),
            Demand::on_requests(Obstacle::NotServed(interrupter.kind), RequestTest::Served),
            Demand::on_requests(Obstacle::OtherLow, RequestTest::OthersHigh),
        ]),
    }
}

/// Whether an acknowledge is shown.
fn is_acknowledge_shown(shown: Option<Shown>) -> bool
    ensures { result ≡ is_acknowledge_shown shown }
{
    matches!(shown, Some(Shown::Acknowledge(_)))
}

/// The controller starts the acknowledge.
fn start_falls(standings: &Standings) -> Demands
    ensures { result.items ≡ start_falls standings.now }
{
    in_order(&[
        Demand::when(
            Obstacle::Fails(Rule::G5, Condition::AddressStrobeLow),
            standings.lines.is_low(Line::AddressStrobe),
        ),
        strobe_low(Rule::G5, standings),
        Demand::when(
            Obstacle::Fails(Rule::G5, Condition::AcknowledgeShown),
            is_acknowledge_shown(standings.shown),
        ),
    ])
}

/// Whether the interrupter is of the level.
fn is_on_level(level: u8, interrupter: Option<InterrupterRow>) -> bool
    ensures { result ≡ is_on_level level interrupter }
{
    match interrupter {
        Some(interrupter) => interrupter.level == level,
        None => false,
    }
}

/// A board passes on what is shown.
fn passed_on(plan: &Plan, standings: &Standings, own: u8, shown: Option<Shown>) -> Demands
    ensures { result.items ≡ passed_on plan.now standings.now own shown }
{
    let strobed = strobe_low(Rule::G23, standings);
    let unshown = Obstacle::Fails(Rule::G23, Condition::AcknowledgeShown);
    let Some(Shown::Acknowledge(level)) = shown else {
        return in_order(&[strobed, Demand::when(unshown, false)]);
    };
    let shown = Demand::when(unshown, true);
    let reached = Demand::on_chain(
        Obstacle::Fails(Rule::G23, Condition::AcknowledgeInLow),
        input_place(plan, own),
        true,
    );
    let silent = Demand::when(
        Obstacle::Fails(Rule::G23, Condition::OwnDtackHigh),
        !standings.lines.is_low(Line::Dtack),
    );
    if is_on_level(level, interrupter_at(plan, own)) {
        let passing = Demand::on_requests(Obstacle::IsPending(level), RequestTest::NotPending);
        in_order(&[strobed, shown, reached, silent, passing])
    } else {
        in_order(&[strobed, shown, reached, silent])
    }
}

/// A segment of the acknowledge chain rises, by its rule.
fn chain_rises(rule: Rule, standings: &Standings) -> Demands
    ensures { result.items ≡ chain_rises rule standings.now }
{
    in_order(&[Demand::when(
        Obstacle::Fails(rule, Condition::AddressStrobeHigh),
        !standings.lines.is_low(Line::AddressStrobe),
    )])
}

/// A segment of the acknowledge chain falls, or rises: the controller's, 0, or that of a slot's
/// board.
pub(crate) fn acknowledge_moves(
    plan: &Plan,
    standings: &Standings,
    own: u8,
    place: u8,
    fall: bool,
) -> Demands
    ensures { result.items ≡ acknowledge_moves plan.now standings.now own place fall }
{
    match (place == 0, fall) {
        (true, true) => start_falls(standings),
        (true, false) => chain_rises(Rule::G6, standings),
        (false, true) => passed_on(plan, standings, own, standings.shown),
        (false, false) => chain_rises(Rule::G24, standings),
    }
}
