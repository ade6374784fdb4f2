//! Whether two edges may change places.
ghost use Rattle.std.specs.Prelude.{◌≡◌, ◌∷◌, ◌||◌};
ghost use Rattle.vme_model.specs.History.{shown};
ghost use Rattle.vme_model.specs.Plan.{board_of};
ghost use Rattle.vme_model.specs.Verdict.{IsLegal, verdict_but_full};
ghost use Rattle.vme_bus.specs.States.{IsStateOf, OfHistory};
ghost use Rattle.vme_bus.specs.Steps.{kept_but_full};
ghost use Rattle.vme_swaps.specs.Served.{is_serving, serves_request};
ghost use Rattle.vme_swaps.specs.Swaps.{StepsBack};

use vme_bus::BusState;
use vme_interrupter::serves;
use vme_model::{Driver, Edge, Refused, Wire};

/// How an edge goes back over the edge before it.
#[derive(Clone, Copy, PartialEq, Eq, Debug)]
pub enum StepBack {
    /// It passes: the two may change places.
    Passes,
    /// It waits: in front of the other edge it is refused.
    Waits(Refused),
    /// It races: in front of the other edge it is accepted, and then not all is the same. This is
    /// the verdict on that edge if it comes second.
    Races(Result<(), Refused>),
}

/// Whether an answer of the driver's board to what is shown serves its interrupter.
fn is_serving(state: &BusState, driver: Driver) -> bool
    ensures { OfHistory state.now (λ _ p h. result ≡ is_serving (board_of p driver) (shown p h)) }
{
    match state.row(driver) {
        Some(row) => match row.interrupter {
            Some(interrupter) => serves(interrupter.kind, state.pins(driver).shown),
            None => false,
        },
        None => false,
    }
}

/// Whether the first edge is an answer that serves the interrupt request of its own board, which
/// the second edge makes.
fn serves_request(state: &BusState, answer: Edge, request: Edge) -> bool
    ensures { OfHistory state.now (λ _ p h. result ≡ serves_request p h answer request) }
{
    answer.fall
        && answer.wire.is_same(Wire::Dtack)
        && request.fall
        && request.wire.is_same(Wire::Irq)
        && request.driver.is_same(answer.driver)
        && is_serving(state, answer.driver)
}

/// Whether one of two edges is an answer that serves the interrupt request which the other makes.
fn is_request_served(state: &BusState, first: Edge, second: Edge) -> bool
    ensures { OfHistory state.now (λ _ p h.
        result ≡ (serves_request p h first second || serves_request p h second first)) }
{
    serves_request(state, first, second) || serves_request(state, second, first)
}

/// How an edge goes back over `first`, the edge before it, after the edges that lead to the state.
/// The two are legal as they came. The state takes the edge, unless it is refused.
///
/// So only their other order is judged. The two orders need not be compared by all that they lead
/// to. If both are legal, one thing alone can differ: an answer serves an interrupt request of its
/// own board that was there before it, and not one that comes after it. At most two edges are
/// judged, and nothing is copied.
pub fn step_back(state: &mut BusState, first: Edge, edge: Edge) -> StepBack
    ensures steps { OfHistory state.old (λ version p h. IsLegal version p (edge ∷ first ∷ h)
        → StepsBack version p h first edge result) }
    ensures state { OfHistory state.old (λ version p h.
        IsStateOf version p (kept_but_full version p h edge) state.new) }
{
    let is_served = is_request_served(state, first, edge);
    if let Err(refused) = state.step(edge) {
        return StepBack::Waits(refused);
    }
    if let Err(refused) = state.judge_by_wire(first) {
        return StepBack::Races(Err(refused));
    }
    if is_served {
        StepBack::Races(Ok(()))
    } else {
        StepBack::Passes
    }
}
