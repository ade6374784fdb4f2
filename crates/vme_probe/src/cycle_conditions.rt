//! The conditions of the changes of AS*, DS*, DTACK* and BERR*.
ghost use Rattle.std.specs.Prelude.{◌≡◌};
ghost use Rattle.std.specs.List.{list_any};
ghost use Rattle.vme_bus.specs.Sets.{has};
ghost use Rattle.vme_standings.specs.Fronts.{input_place};
ghost use Rattle.vme_probe.specs.Conditions.{access_answered, acknowledge_answered, address_falls, address_rises, answer_falls, answer_rises, data_falls, data_rises, dtack_high, error_falls, handles, is_slot_shown, nobody_answers, strobe_high, strobe_low};
ghost use Rattle.vme_probe.specs.Demands.{places};

use crate::demands::{Demand, Demands, RequestTest, in_order};
use crate::left::{PLACES, interrupter_at};
use crate::obstacles::Obstacle;
use vme_captures::{Line, Value};
use vme_model::{ChainId, Condition, Cycle, InterrupterRow, Rule, Wire};
use vme_slots::Plan;
use vme_standings::{PhaseFact, Shown, Standings};

/// The condition of a rule that DS0* is low.
pub(crate) fn strobe_low(rule: Rule, standings: &Standings) -> Demand
    ensures { result ≡ strobe_low rule standings.now }
{
    Demand::when(
        Obstacle::Fails(rule, Condition::DataStrobeLow),
        standings.lines.is_low(Line::DataStrobe),
    )
}

/// The condition of a rule that DS0* is high.
pub(crate) fn strobe_high(rule: Rule, standings: &Standings) -> Demand
    ensures { result ≡ strobe_high rule standings.now }
{
    Demand::when(
        Obstacle::Fails(rule, Condition::DataStrobeHigh),
        !standings.lines.is_low(Line::DataStrobe),
    )
}

/// The condition of a rule that DTACK* is high.
fn dtack_high(rule: Rule, standings: &Standings) -> Demand
    ensures { result ≡ dtack_high rule standings.now }
{
    Demand::when(
        Obstacle::Fails(rule, Condition::DtackHigh),
        !standings.lines.is_low(Line::Dtack),
    )
}

/// The segment of the acknowledge chain at a slot's input: the slot of the board that drives it, or
/// 0 for the controller's.
pub(crate) fn input_place(plan: &Plan, slot: u8) -> u8
    ensures { result ≡ input_place plan.now slot }
{
    match plan.upstream(ChainId::Iack, slot) {
        Some(place) => place,
        None => 0,
    }
}

/// Whether a probed segment of the acknowledge chain is low.
fn is_some_low(standings: &Standings) -> bool
    ensures { result ≡ list_any (λ place. has standings.now.low.acknowledge place) places }
{
    PLACES
        .iter()
        .any(|place| standings.low.acknowledge.has(*place))
}

/// Whether the board of a slot handles a level.
fn handles(plan: &Plan, own: u8, level: u8) -> bool
    ensures { result ≡ handles plan.now own level }
{
    match plan.row(own) {
        Some(row) => row.handler.has(level),
        None => false,
    }
}

/// AS* falls, with what it shows.
pub(crate) fn address_falls(
    plan: &Plan,
    standings: &Standings,
    own: u8,
    value: Option<Value>,
) -> Demands
    ensures { result.items ≡ address_falls plan.now standings.now own value }
{
    let held = Demand::on_grants(
        Obstacle::Fails(Rule::G15, Condition::OwnBusyLow),
        PhaseFact::HeldBy { board: own },
    );
    let high = Demand::when(
        Obstacle::Fails(Rule::S1, Condition::ChainHigh),
        !is_some_low(standings),
    );
    match value {
        Some(Value::Shown(Cycle::Acknowledge(level))) => {
            let handled = Demand::when(Obstacle::NotHandled(level), handles(plan, own, level));
            in_order(&[held, handled, high])
        }
        _ => in_order(&[held, high]),
    }
}

/// AS* rises.
pub(crate) fn address_rises(standings: &Standings, own: u8) -> Demands
    ensures { result.items ≡ address_rises standings.now own }
{
    in_order(&[
        Demand::when(
            Obstacle::NotLow(Wire::AddressStrobe),
            standings.addressers.has(own),
        ),
        Demand::when(
            Obstacle::Fails(Rule::G19, Condition::OwnDataStrobeHigh),
            !standings.lines.is_low(Line::DataStrobe),
        ),
        Demand::when(
            Obstacle::Fails(Rule::G19, Condition::Strobed),
            standings.strobed,
        ),
    ])
}

/// DS* falls.
pub(crate) fn data_falls(standings: &Standings, own: u8) -> Demands
    ensures { result.items ≡ data_falls standings.now own }
{
    in_order(&[
        Demand::when(
            Obstacle::Fails(Rule::G17, Condition::OwnAddressStrobeLow),
            standings.addressers.has(own),
        ),
        dtack_high(Rule::G17, standings),
        Demand::when(
            Obstacle::Fails(Rule::G17, Condition::BerrHigh),
            !standings.lines.is_low(Line::Berr),
        ),
        Demand::when(
            Obstacle::Fails(Rule::G17, Condition::NotStrobed),
            !standings.strobed,
        ),
    ])
}

/// DS* rises.
pub(crate) fn data_rises(standings: &Standings, own: u8) -> Demands
    ensures { result.items ≡ data_rises standings.now own }
{
    in_order(&[
        Demand::when(
            Obstacle::NotLow(Wire::DataStrobe),
            standings.addressers.has(own),
        ),
        Demand::when(
            Obstacle::Fails(Rule::G18, Condition::Answered),
            standings.lines.is_low(Line::Dtack) || standings.lines.is_low(Line::Berr),
        ),
    ])
}

/// Whether an access of the slot may be answered from the driver's; the slot may not be known.
fn is_slot_shown(standings: &Standings, own: u8, slot: Option<u8>) -> bool
    ensures { result ≡ is_slot_shown standings.now own slot }
{
    match slot {
        Some(slot) => slot == own,
        None => !standings.lines.is_low(Line::Berr),
    }
}

/// DTACK* falls in an access, maybe with a status byte.
fn access_answered(
    standings: &Standings,
    own: u8,
    slot: Option<u8>,
    value: Option<Value>,
) -> Demands
    ensures { result.items ≡ access_answered standings.now own slot value }
{
    let strobed = strobe_low(Rule::G25, standings);
    let shown = Demand::when(
        Obstacle::Fails(Rule::G25, Condition::OwnSlotShown),
        is_slot_shown(standings, own, slot),
    );
    match value {
        Some(Value::Status(_)) => {
            in_order(&[strobed, shown, Demand::when(Obstacle::NoAcknowledge, false)])
        }
        _ => in_order(&[strobed, shown]),
    }
}

/// DTACK* falls in an acknowledge of a level, maybe with a status byte.
fn acknowledge_answered(
    plan: &Plan,
    standings: &Standings,
    own: u8,
    level: u8,
    value: Option<Value>,
    interrupter: Option<InterrupterRow>,
) -> Demands
    ensures { result.items
        ≡ acknowledge_answered plan.now standings.now own level value interrupter }
{
    let strobed = strobe_low(Rule::G25, standings);
    let unreached = Obstacle::Fails(Rule::G25, Condition::AcknowledgeInLow);
    let Some(interrupter) = interrupter else {
        return in_order(&[strobed, Demand::when(unreached, false)]);
    };
    let reached = Demand::on_chain(unreached, input_place(plan, own), true);
    let asked = Demand::when(Obstacle::NotPending(level), interrupter.level == level);
    let pending = Demand::on_requests(Obstacle::NotPending(level), RequestTest::Pending);
    let kept = Demand::on_chain(
        Obstacle::Fails(Rule::G25, Condition::OwnAcknowledgeOutHigh),
        own,
        false,
    );
    match value {
        Some(Value::Status(byte)) => {
            let told = Demand::when(Obstacle::OtherByte(byte), interrupter.status == byte);
            in_order(&[strobed, reached, asked, pending, told, kept])
        }
        _ => in_order(&[strobed, reached, asked, pending, kept]),
    }
}

/// DTACK* falls.
pub(crate) fn answer_falls(
    plan: &Plan,
    standings: &Standings,
    own: u8,
    value: Option<Value>,
    shown: Option<Shown>,
) -> Demands
    ensures { result.items ≡ answer_falls plan.now standings.now own value shown }
{
    match shown {
        None => in_order(&[strobe_low(Rule::G25, standings)]),
        Some(Shown::Access(slot)) => access_answered(standings, own, slot, value),
        Some(Shown::Acknowledge(level)) => {
            let interrupter = interrupter_at(plan, own);
            acknowledge_answered(plan, standings, own, level, value, interrupter)
        }
    }
}

/// DTACK* rises.
pub(crate) fn answer_rises(standings: &Standings, own: u8) -> Demands
    ensures { result.items ≡ answer_rises standings.now own }
{
    in_order(&[
        Demand::when(Obstacle::NotLow(Wire::Dtack), standings.answerers.has(own)),
        strobe_high(Rule::G26, standings),
    ])
}

/// The condition that nobody can answer what is shown: the acknowledge has passed the last board,
/// the accessed slot is empty, or some slot is.
fn nobody_answers(plan: &Plan, shown: Option<Shown>) -> Demand
    ensures { result ≡ nobody_answers plan.now shown }
{
    let obstacle = Obstacle::Fails(Rule::S2, Condition::NobodyCanAnswer);
    match shown {
        None => Demand::when(obstacle, false),
        Some(Shown::Access(None)) => Demand::when(obstacle, plan.rows().len() < 21),
        Some(Shown::Access(Some(slot))) => Demand::when(obstacle, !plan.has_board(slot)),
        Some(Shown::Acknowledge(_)) => {
            let last = plan.last_active(ChainId::Iack).unwrap_or(0);
            Demand::on_chain(obstacle, last, true)
        }
    }
}

/// BERR* falls.
pub(crate) fn error_falls(plan: &Plan, standings: &Standings) -> Demands
    ensures { result.items ≡ error_falls plan.now standings.now }
{
    in_order(&[
        strobe_low(Rule::G7, standings),
        dtack_high(Rule::G7, standings),
        nobody_answers(plan, standings.shown),
    ])
}
