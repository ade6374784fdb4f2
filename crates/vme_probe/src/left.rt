//! Whether conditions leave a standing of a record, part by part.
ghost use Rattle.std.specs.Prelude.{◌≡◌, []};
ghost use Rattle.std.specs.List.{list_all, list_any};
ghost use Rattle.vme_model.specs.Rules.{bus_numbers};
ghost use Rattle.vme_standings.specs.declared.interrupters.Interrupters.TheVariants.{OnLevel};
ghost use Rattle.vme_standings.specs.Grants.{are_alike, is_asked_above, is_clear_due};
ghost use Rattle.vme_standings.specs.Interrupters.{is_meant_at};
ghost use Rattle.vme_probe.specs.Demands.{are_fronts_left, are_grants_left, are_requests_left, can_pull, can_stand, first_failing, interrupter_at, is_any_left, is_chain_low, is_end_left, is_expired_left, is_front_allowed, is_front_left, is_granting_left, is_held_left, is_idle_left, is_left, is_phase_allowed, is_phase_left, is_pull_left, is_request_allowed, is_request_left, passes_requests, places};

use crate::demands::{Demand, RequestTest, Test};
use crate::obstacles::Obstacle;
use vme_model::{ArbiterKind, BusLevels, InterrupterRow};
use vme_slots::Plan;
use vme_standings::chains::requester_at;
use vme_standings::{
    Fronts, GrantPhase, GrantPhases, Interrupters, Request, Requests, Standings, is_so,
    on_low_lines,
};

/// The levels of BR0* to BR3*.
const LEVELS: [u8; 4] = [0, 1, 2, 3];

/// The places of segments: slots, and 0 for the controller's.
pub(crate) const PLACES: [u8; 22] = [
    0, 1, 2, 3, 4, 5, 6, 7, 8, 9, 10, 11, 12, 13, 14, 15, 16, 17, 18, 19, 20, 21,
];

/// The interrupter of the board in a slot, if it has one.
pub(crate) fn interrupter_at(plan: &Plan, slot: u8) -> Option<InterrupterRow>
    ensures { result ≡ interrupter_at plan.now slot }
{
    match plan.row(slot) {
        Some(row) => row.interrupter,
        None => None,
    }
}

/// Whether a level above this one is requested.
fn is_asked_above(own: u8, asked: BusLevels) -> bool
    ensures { result ≡ is_asked_above own asked }
{
    LEVELS.iter().any(|level| own < *level && asked.has(*level))
}

/// Whether bus clear is due.
fn is_clear_due(plan: &Plan, asked: BusLevels, phase: GrantPhase) -> bool
    ensures { result ≡ is_clear_due plan.now asked phase }
{
    match phase {
        GrantPhase::Held { board, first } => match requester_at(plan, board) {
            Some(requester) => {
                matches!(plan.arbiter(), ArbiterKind::Pri)
                    && is_asked_above(requester.level, asked)
                    && first > 0
            }
            None => false,
        },
        _ => false,
    }
}

impl RequestTest {
    /// Whether it is so if the request of a slot's board stands so.
    fn passes(self, own: u8, slot: u8, request: Request) -> bool
        ensures { result ≡ passes_requests own self slot request }
    {
        match self {
            RequestTest::Pulls => slot != own || request != Request::High,
            RequestTest::Served => slot != own || request == Request::Served,
            RequestTest::OthersHigh => slot == own || request == Request::High,
            RequestTest::Pending => slot != own || request == Request::Pending,
            RequestTest::NotPending => slot != own || request != Request::Pending,
        }
    }
}

/// Whether the segment of the acknowledge chain at a place is low, by where the low segments end,
/// if there are any.
fn is_chain_low(front: Option<u8>, place: u8) -> bool
    ensures { result ≡ is_chain_low front place }
{
    match front {
        Some(end) => place <= end,
        None => false,
    }
}

/// Whether both are so, or neither is.
fn are_alike(a: bool, b: bool) -> bool
    ensures { result ≡ are_alike a b }
{
    a == b
}

impl Test {
    /// Whether it leaves the phase.
    fn allows_phase(self, plan: &Plan, phase: GrantPhase) -> bool
        ensures { result ≡ is_phase_allowed plan.now phase self }
    {
        match self {
            Test::Grants(fact) => is_so(plan, fact, phase),
            Test::ClearNotDue(asked) => !is_clear_due(plan, asked, phase),
            _ => true,
        }
    }

    /// Whether it leaves this end of the low segments of the acknowledge chain.
    fn allows_front(self, front: Option<u8>) -> bool
        ensures { result ≡ is_front_allowed front self }
    {
        match self {
            Test::Chain { place, low } => are_alike(is_chain_low(front, place), low),
            _ => true,
        }
    }

    /// Whether the request of a slot's board may stand so with it.
    fn allows_request(self, own: u8, slot: u8, request: Request) -> bool
        ensures { result ≡ is_request_allowed own slot request self }
    {
        match self {
            Test::Requests(test) => test.passes(own, slot, request),
            _ => true,
        }
    }
}

/// Whether all conditions leave the phase.
fn is_allowed(plan: &Plan, demands: &[Demand], phase: GrantPhase) -> bool
    ensures { result ≡ list_all (λ d. is_phase_allowed plan.now phase d.test) demands.now }
{
    demands
        .iter()
        .all(|demand| demand.test.allows_phase(plan, phase))
}

/// Whether the phase is one of the set, and all conditions leave it.
fn is_phase_left(plan: &Plan, phases: &GrantPhases, demands: &[Demand], phase: GrantPhase) -> bool
    ensures { result ≡ is_phase_left plan.now phases.now demands.now phase }
{
    phases.has(phase) && is_allowed(plan, demands, phase)
}

/// Whether a phase is left in which the bus is idle.
fn is_idle_left(plan: &Plan, phases: &GrantPhases, demands: &[Demand]) -> bool
    ensures { result ≡ is_idle_left plan.now phases.now demands.now }
{
    LEVELS.iter().any(|level| is_phase_left(
        plan,
        phases,
        demands,
        GrantPhase::Idle { level: *level },
    ))
}

/// Whether a phase is left in which a grant of the level is under way.
fn is_granting_left(plan: &Plan, phases: &GrantPhases, demands: &[Demand], level: u8) -> bool
    ensures { result ≡ is_granting_left plan.now phases.now demands.now level }
{
    PLACES.iter().any(|last| is_phase_left(
        plan,
        phases,
        demands,
        GrantPhase::Granting { level, last: *last },
    ))
}

/// Whether a phase is left in which the board of a slot holds the bus.
fn is_held_left(plan: &Plan, phases: &GrantPhases, demands: &[Demand], board: u8) -> bool
    ensures { result ≡ is_held_left plan.now phases.now demands.now board }
{
    PLACES.iter().any(|first| is_phase_left(
        plan,
        phases,
        demands,
        GrantPhase::Held {
            board,
            first: *first,
        },
    ))
}

/// Whether a phase is left in which a grant of the level that nobody took goes up again.
fn is_expired_left(plan: &Plan, phases: &GrantPhases, demands: &[Demand], level: u8) -> bool
    ensures { result ≡ is_expired_left plan.now phases.now demands.now level }
{
    PLACES.iter().any(|first| is_phase_left(
        plan,
        phases,
        demands,
        GrantPhase::Expired {
            level,
            first: *first,
        },
    ))
}

/// Whether a phase is left in which a grant is under way.
fn are_granting_left(plan: &Plan, phases: &GrantPhases, demands: &[Demand]) -> bool
    ensures { result
        ≡ list_any (is_granting_left plan.now phases.now demands.now) bus_numbers }
{
    LEVELS
        .iter()
        .any(|level| is_granting_left(plan, phases, demands, *level))
}

/// Whether a phase is left in which a board holds the bus.
fn are_held_left(plan: &Plan, phases: &GrantPhases, demands: &[Demand]) -> bool
    ensures { result ≡ list_any (is_held_left plan.now phases.now demands.now) places }
{
    PLACES
        .iter()
        .any(|board| is_held_left(plan, phases, demands, *board))
}

/// Whether a phase is left in which a grant that nobody took goes up again.
fn are_expired_left(plan: &Plan, phases: &GrantPhases, demands: &[Demand]) -> bool
    ensures { result
        ≡ list_any (is_expired_left plan.now phases.now demands.now) bus_numbers }
{
    LEVELS
        .iter()
        .any(|level| is_expired_left(plan, phases, demands, *level))
}

/// Whether a phase of the set is left.
fn are_grants_left(plan: &Plan, phases: &GrantPhases, demands: &[Demand]) -> bool
    ensures { result ≡ are_grants_left plan.now phases.now demands.now }
{
    is_idle_left(plan, phases, demands)
        || are_granting_left(plan, phases, demands)
        || are_held_left(plan, phases, demands)
        || are_expired_left(plan, phases, demands)
}

/// Whether all conditions leave this end of the low segments of the acknowledge chain.
fn is_front_left(demands: &[Demand], front: Option<u8>) -> bool
    ensures { result ≡ is_front_left demands.now front }
{
    demands.iter().all(|demand| demand.test.allows_front(front))
}

/// Whether the low segments may end at a place, and all conditions leave that.
fn is_end_left(fronts: &Fronts, demands: &[Demand], end: u8) -> bool
    ensures { result ≡ is_end_left fronts.now demands.now end }
{
    fronts.may_end_at(end) && is_front_left(demands, Some(end))
}

/// Whether a place is left at which the low segments end.
fn are_ends_left(fronts: &Fronts, demands: &[Demand]) -> bool
    ensures { result ≡ list_any (is_end_left fronts.now demands.now) places }
{
    PLACES.iter().any(|end| is_end_left(fronts, demands, *end))
}

/// Whether something is left of how far the acknowledge may have come.
fn are_fronts_left(fronts: &Fronts, demands: &[Demand]) -> bool
    ensures { result ≡ are_fronts_left fronts.now demands.now }
{
    (fronts.is_waiting() && is_front_left(demands, None)) || are_ends_left(fronts, demands)
}

/// Whether the request of a slot's board may stand so with all conditions.
fn is_request_free(own: u8, demands: &[Demand], slot: u8, request: Request) -> bool
    ensures { result
        ≡ list_all (λ d. is_request_allowed own slot request d.test) demands.now }
{
    demands
        .iter()
        .all(|demand| demand.test.allows_request(own, slot, request))
}

/// Whether the request of a slot's board may stand so, and all conditions leave it.
fn is_request_left(
    own: u8,
    requests: &Requests,
    demands: &[Demand],
    slot: u8,
    request: Request,
) -> bool
    ensures { result ≡ is_request_left own requests.now demands.now slot request }
{
    requests.may_be(slot, request) && is_request_free(own, demands, slot, request)
}

/// Whether a way is left in which the board of a slot pulls its line.
fn is_pull_left(own: u8, requests: &Requests, demands: &[Demand], slot: u8) -> bool
    ensures { result ≡ is_pull_left own requests.now demands.now slot }
{
    is_request_left(own, requests, demands, slot, Request::Pending)
        || is_request_left(own, requests, demands, slot, Request::Served)
}

/// Whether any way is left for the board of a slot.
fn is_any_left(own: u8, requests: &Requests, demands: &[Demand], slot: u8) -> bool
    ensures { result ≡ is_any_left own requests.now demands.now slot }
{
    is_request_left(own, requests, demands, slot, Request::High)
        || is_pull_left(own, requests, demands, slot)
}

/// Whether the slot's board has an interrupter of the level.
fn is_at_level(plan: &Plan, level: u8, slot: u8) -> bool
    ensures { result ≡ is_meant_at (OnLevel level) plan.now slot }
{
    match plan.row(slot) {
        Some(row) => Interrupters::OnLevel(level).has(row),
        None => false,
    }
}

/// Whether the request of the slot's board can stand in some way, if it is of the level.
fn can_stand(
    plan: &Plan,
    own: u8,
    requests: &Requests,
    demands: &[Demand],
    level: u8,
    slot: u8,
) -> bool
    ensures { result ≡ can_stand plan.now own requests.now demands.now level slot }
{
    !is_at_level(plan, level, slot) || is_any_left(own, requests, demands, slot)
}

/// Whether the slot's board is of the level, and can pull its line.
fn can_pull(
    plan: &Plan,
    own: u8,
    requests: &Requests,
    demands: &[Demand],
    level: u8,
    slot: u8,
) -> bool
    ensures { result ≡ can_pull plan.now own requests.now demands.now level slot }
{
    is_at_level(plan, level, slot) && is_pull_left(own, requests, demands, slot)
}

/// Whether the requests of all boards of the level can stand in some way.
fn can_all_stand(plan: &Plan, own: u8, requests: &Requests, demands: &[Demand], level: u8) -> bool
    ensures { result
        ≡ list_all (can_stand plan.now own requests.now demands.now level) places }
{
    PLACES.iter().all(|slot| can_stand(plan, own, requests, demands, level, *slot))
}

/// Whether a board of the level can pull its line.
fn can_some_pull(plan: &Plan, own: u8, requests: &Requests, demands: &[Demand], level: u8) -> bool
    ensures { result
        ≡ list_any (can_pull plan.now own requests.now demands.now level) places }
{
    PLACES.iter().any(|slot| can_pull(plan, own, requests, demands, level, *slot))
}

/// Whether ways are left in which the requests on the line of the level can stand, which is low or
/// high.
fn are_requests_left(
    plan: &Plan,
    own: u8,
    low: bool,
    requests: &Requests,
    demands: &[Demand],
    level: u8,
) -> bool
    ensures { result ≡ are_requests_left plan.now own low requests.now demands.now level }
{
    can_all_stand(plan, own, requests, demands, level)
        && (!low || can_some_pull(plan, own, requests, demands, level))
}

/// Whether the last condition leaves something of the part that it asks about, in which those
/// before it hold.
fn is_left(plan: &Plan, standings: &Standings, own: u8, demands: &[Demand], test: Test) -> bool
    ensures { result ≡ is_left plan.now standings.now own demands.now test }
{
    match test {
        Test::Known(holds) => holds,
        Test::Grants(_) | Test::ClearNotDue(_) => {
            are_grants_left(plan, &standings.phases, demands)
        }
        Test::Chain { .. } => are_fronts_left(&standings.fronts, demands),
        Test::Requests(_) => match interrupter_at(plan, own) {
            Some(interrupter) => {
                let low = on_low_lines(plan, &standings.lines).has(own);
                are_requests_left(
                    plan,
                    own,
                    low,
                    &standings.requests,
                    demands,
                    interrupter.level,
                )
            }
            None => false,
        },
    }
}

/// The first condition that leaves no standing in which those before it hold, if one does; `own` is
/// the driver's slot, 0 for the controller.
pub(crate) fn first_failing(
    plan: &Plan,
    standings: &Standings,
    own: u8,
    demands: &[Demand],
) -> Option<Obstacle>
    ensures { result ≡ first_failing (is_left plan.now standings.now own) [] demands.now }
{
    for (place, demand) in demands.iter().enumerate() {
        if !is_left(plan, standings, own, &demands[..place + 1], demand.test) {
            return Some(demand.obstacle);
        }
    }
    None
}
