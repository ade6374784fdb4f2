//! The conditions of each change for one driver, in order, and the first that fails.
ghost use Rattle.std.specs.Prelude.{◌≡◌};
ghost use Rattle.vme_probe.specs.Conditions.{line_falls, line_rises, moves, obstacle};

use crate::cycle_conditions::{
    address_falls, address_rises, answer_falls, answer_rises, data_falls, data_rises, error_falls,
    strobe_high,
};
use crate::demands::{Demands, in_order};
use crate::grant_conditions::{
    busy_falls, busy_rises, clear_falls, clear_rises, grant_moves, request_falls, request_rises,
};
use crate::left::{first_failing, interrupter_at};
use crate::obstacles::Obstacle;
use crate::request_conditions::{acknowledge_moves, interrupt_rises};
use vme_captures::{Change, Line, Value};
use vme_model::{Driver, Rule, Version};
use vme_slots::Plan;
use vme_standings::chains::requester_at;
use vme_standings::{Moved, Probed, Standings, asked, moved_by};

/// The conditions of the fall of a shared line.
fn line_falls(
    plan: &Plan,
    standings: &Standings,
    own: u8,
    line: Line,
    value: Option<Value>,
) -> Demands
    ensures { result.items ≡ line_falls plan.now standings.now own line value }
{
    match line {
        Line::Br(_) => request_falls(own),
        Line::Irq(_) => in_order(&[]),
        Line::Bbsy => {
            let requests = asked(&standings.lines);
            busy_falls(plan, requests, own, requester_at(plan, own))
        }
        Line::AddressStrobe => address_falls(plan, standings, own, value),
        Line::DataStrobe => data_falls(standings, own),
        Line::Dtack => answer_falls(plan, standings, own, value, standings.shown),
        Line::Berr => error_falls(plan, standings),
        Line::Bclr => clear_falls(plan, standings),
    }
}

/// The conditions of the rise of a shared line.
fn line_rises(plan: &Plan, version: Version, standings: &Standings, own: u8, line: Line) -> Demands
    ensures { result.items ≡ line_rises plan.now version standings.now own line }
{
    match line {
        Line::Br(_) => request_rises(version, own),
        Line::Irq(_) => interrupt_rises(interrupter_at(plan, own)),
        Line::Bbsy => {
            let requests = asked(&standings.lines);
            busy_rises(plan, requests, own, requester_at(plan, own))
        }
        Line::AddressStrobe => address_rises(standings, own),
        Line::DataStrobe => data_rises(standings, own),
        Line::Dtack => answer_rises(standings, own),
        Line::Berr => in_order(&[strobe_high(Rule::G8, standings)]),
        Line::Bclr => clear_rises(standings),
    }
}

/// The conditions of the fall or rise of a line or segment, for the driver of a slot, 0 for the
/// controller.
fn moves(
    plan: &Plan,
    version: Version,
    standings: &Standings,
    own: u8,
    moved: Moved,
    fall: bool,
    value: Option<Value>,
) -> Demands
    ensures { result.items ≡ moves plan.now version standings.now own moved fall value }
{
    match moved {
        Moved::Line(line) => {
            if fall {
                line_falls(plan, standings, own, line, value)
            } else {
                line_rises(plan, version, standings, own, line)
            }
        }
        Moved::Grant { level, place } => {
            grant_moves(plan, version, standings, own, level, place, fall)
        }
        Moved::Acknowledge { place } => acknowledge_moves(plan, standings, own, place, fall),
    }
}

/// What stands in the way of a driver of a change: the first of its conditions that holds in no
/// standing of the record in which those before it hold, if there is one. The edges that no probe
/// sees are in the standings. The driver has the line of the change, or drives its wire.
pub fn obstacle(
    standings: &Standings,
    plan: &Plan,
    probed: &Probed,
    change: &Change,
    driver: Driver,
) -> Option<Obstacle>
    ensures { result
        ≡ obstacle plan.now probed.now.version standings.now change.now driver }
{
    let own = driver.number();
    let Change {
        signal,
        fall,
        value,
    } = *change;
    let moved = moved_by(plan, signal);
    let demands = moves(plan, probed.version, standings, own, moved, fall, value);
    first_failing(plan, standings, own, demands.as_slice())
}
