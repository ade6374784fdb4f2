//! Whether the drivers of a backplane have what a goal needs.
ghost use Rattle.std.specs.Prelude.{◌≡◌, not, find};
ghost use Rattle.std.specs.List.{list_any};
ghost use Rattle.vme_reach.specs.Needs.{board_has, driver_has, hindrance_of, is_controllers, is_met};

use crate::needs::{Need, needs};
use vme_goals::{Aim, Goal};
use vme_model::{Driver, Release, Row};
use vme_slots::Plan;

/// Why no edge of a backplane reaches a goal: what every such edge needs of its driver is not
/// there. Source: profile.
#[derive(Clone, Copy, PartialEq, Eq, Debug)]
pub struct Hindrance {
    /// What the goal asks for.
    pub aim: Aim,
    /// The only driver whose edges count, which lacks it; no driver has it if this is not given.
    pub driver: Option<Driver>,
    /// What is not there.
    pub need: Need,
}

/// Whether the board has what is needed.
fn board_has(need: Need, row: &Row) -> bool
    ensures { result ≡ board_has need row.now }
{
    match need {
        Need::Controller => false,
        Need::Board => true,
        Need::Requester => row.requester.is_some(),
        Need::OnRequest => match row.requester {
            Some(requester) => requester.release == Release::Request,
            None => false,
        },
        Need::Interrupter => row.interrupter.is_some(),
        Need::Kind(kind) => match row.interrupter {
            Some(interrupter) => interrupter.kind == kind,
            None => false,
        },
    }
}

/// Whether the controller has what is needed.
fn is_controllers(need: Need) -> bool
    ensures { result ≡ is_controllers need }
{
    matches!(need, Need::Controller)
}

/// Whether the driver has what is needed.
fn driver_has(plan: &Plan, need: Need, driver: Driver) -> bool
    ensures { result ≡ driver_has plan.now need driver }
{
    match driver {
        Driver::Controller => is_controllers(need),
        Driver::Slot(slot) => match plan.row(slot) {
            Some(row) => board_has(need, row),
            None => false,
        },
    }
}

/// Whether some board has what is needed.
fn some_board_has(need: Need, rows: &[Row]) -> bool
    ensures { result ≡ list_any (board_has need) rows.now }
{
    rows.iter().any(|row| board_has(need, row))
}

/// Whether the only driver that counts has what is needed; if all count, whether some driver has.
fn is_met(plan: &Plan, only: Option<Driver>, need: Need) -> bool
    ensures { result ≡ is_met plan.now only need }
{
    match only {
        Some(driver) => driver_has(plan, need, driver),
        None => is_controllers(need) || some_board_has(need, plan.rows()),
    }
}

/// The first of these needs that is not met.
fn first_unmet(plan: &Plan, only: Option<Driver>, needs: &[Need]) -> Option<Need>
    ensures { result ≡ find (λ n. not (is_met plan.now only n)) needs.now }
{
    needs
        .iter()
        .copied()
        .find(|need| !is_met(plan, only, *need))
}

/// Why no edge of the backplane reaches the goal, whatever edges come before it; none if the
/// drivers have all that the goal needs. (Then it may still never come.)
pub fn hindrance_of(plan: &Plan, goal: Goal) -> Option<Hindrance>
    ensures { result ≡ hindrance_of plan.now goal }
{
    let need = first_unmet(plan, goal.driver, needs(goal.aim))?;
    Some(Hindrance {
        aim: goal.aim,
        driver: goal.driver,
        need,
    })
}
