//! What the conditions of a change ask of the standings of a record, and which of them fails first.
//!
//! A standing is one way in which a bus may stand. A record keeps a set for each part of it, and
//! all combinations count. So a condition leaves a standing in which those before it hold, if it
//! and those before it leave something of the part that it asks about.
ghost use Rattle.std.specs.Prelude.{◌≡◌, ◌≤◌, length};
ghost use Rattle.vme_probe.specs.Demands.{on_chain, on_clear, on_grants, on_requests, when_known};

use crate::obstacles::Obstacle;
use arrayvec::ArrayVec;
use vme_model::BusLevels;
use vme_standings::PhaseFact;

/// What a condition asks of a bus.
#[derive(Clone, Copy)]
pub(crate) enum Test {
    /// It is known whether the condition holds: by the levels of the lines, the scenario or the
    /// capture.
    Known(bool),
    /// Of how the grants and BBSY* stand.
    Grants(PhaseFact),
    /// Of the same: that bus clear is not due while these levels are requested.
    ClearNotDue(BusLevels),
    /// Of how far the acknowledge has come: whether the segment at a place, a slot or 0 for the
    /// controller's, is low.
    Chain { place: u8, low: bool },
    /// Of how the interrupt requests on the line of the driver's interrupter stand.
    Requests(RequestTest),
}

/// What a condition asks of how the interrupt requests on a line stand.
#[derive(Clone, Copy, PartialEq, Eq, Debug)]
pub(crate) enum RequestTest {
    /// The driver's board pulls the line.
    Pulls,
    /// It was served, and pulls the line still.
    Served,
    /// No other board pulls the line.
    OthersHigh,
    /// The driver's board pulls the line, and was not served.
    Pending,
    /// It does not pull the line, or was served.
    NotPending,
}

/// A condition of a change: what is told if it fails, and what it asks.
#[derive(Clone, Copy)]
pub(crate) struct Demand {
    pub(crate) obstacle: Obstacle,
    pub(crate) test: Test,
}

impl Demand {
    /// A condition of which it is known whether it holds.
    pub(crate) fn when(obstacle: Obstacle, holds: bool) -> Demand
        ensures { result ≡ when_known obstacle holds }
    {
        Demand {
            obstacle,
            test: Test::Known(holds),
        }
    }

    /// A condition on how the grants and BBSY* stand.
    pub(crate) fn on_grants(obstacle: Obstacle, fact: PhaseFact) -> Demand
        ensures { result ≡ on_grants obstacle fact }
    {
        Demand {
            obstacle,
            test: Test::Grants(fact),
        }
    }

    /// The condition that bus clear is not due while these levels are requested.
    pub(crate) fn on_clear(obstacle: Obstacle, asked: BusLevels) -> Demand
        ensures { result ≡ on_clear obstacle asked }
    {
        Demand {
            obstacle,
            test: Test::ClearNotDue(asked),
        }
    }

    /// A condition on a segment of the acknowledge chain: whether it is low.
    pub(crate) fn on_chain(obstacle: Obstacle, place: u8, low: bool) -> Demand
        ensures { result ≡ on_chain obstacle place low }
    {
        Demand {
            obstacle,
            test: Test::Chain { place, low },
        }
    }

    /// A condition on the interrupt requests of a line.
    pub(crate) fn on_requests(obstacle: Obstacle, test: RequestTest) -> Demand
        ensures { result ≡ on_requests obstacle test }
    {
        Demand {
            obstacle,
            test: Test::Requests(test),
        }
    }
}

/// What fills the room of a list that is not used: a condition that always holds.
impl Default for Demand {
    fn default() -> Demand {
        Demand::when(Obstacle::OtherLow, true)
    }
}

/// The conditions of a change, in order.
pub(crate) type Demands = ArrayVec<Demand, 6>;

/// These conditions, in order.
pub(crate) fn in_order(demands: &[Demand]) -> Demands
    requires { length demands.now ≤ 6 }
    ensures { result.items ≡ demands.now }
{
    let mut list = ArrayVec::new();
    if list.try_extend_from_slice(demands).is_err() {
        unreachable!()
    }
    list
}
