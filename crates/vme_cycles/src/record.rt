//! What is kept of the last cycle and the last tenure, moved at each accepted edge.
ghost use Rattle.std.specs.Prelude.{◌≡◌, ◌+◌, ◌<◌, ◌^◌, ◌∷◌, [], ℕ, length};
ghost use Rattle.vme_model.specs.Plan.{Plan};
ghost use Rattle.vme_model.specs.History.{shown};
ghost use Rattle.vme_model.specs.Deliveries.{delivery as delivery_of};
ghost use Rattle.vme_model.specs.Numbered.{Numbered, edges_in};
ghost use Rattle.vme_cycles.specs.Transactions.{answer_by, is_answer, request_of};
ghost use Rattle.vme_cycles.specs.Kept.{IsCycleOf, IsTenureOf};

use vme_model::{Cycle, Delivery, Driver, Edge, Wire};

/// How a cycle was answered.
#[derive(Clone, Copy, PartialEq, Eq, Debug)]
pub(crate) enum CycleAnswer {
    /// By a board's register, at this edge.
    Register(u64),
    /// By the bus timer.
    BusError,
    /// By a board's status byte.
    Status {
        status: u8,
        /// The board's slot.
        from: u8,
        /// The board's request.
        asked: u64,
    },
}

/// What an edge meets: it is read before the edge is made.
#[derive(Clone, Copy)]
pub(crate) struct Sight {
    /// What is shown.
    pub(crate) shown: Option<Cycle>,
    /// The request that a `bbsy-` or a `dtack-` meets.
    pub(crate) request: u64,
}

/// The last cycle.
#[derive(Drop)]
pub(crate) struct LastCycle {
    /// Its board, if it is under way.
    pub(crate) of: Option<Driver>,
    /// What it showed.
    pub(crate) showed: Option<Cycle>,
    /// Its answer, if that came.
    pub(crate) answer: Option<CycleAnswer>,
    /// How many cycles ended.
    pub(crate) ended: u64,
}

/// The last tenure.
#[derive(Drop)]
pub(crate) struct LastTenure {
    /// The request that it met.
    pub(crate) asked: u64,
    /// How many tenures ended.
    pub(crate) ended: u64,
}

/// Whether an edge answers a cycle.
fn is_answer(edge: &Edge) -> bool
    ensures { result ≡ is_answer edge.now }
{
    edge.fall && (edge.wire.is_same(Wire::Dtack) || edge.wire.is_same(Wire::Berr))
}

/// What the answer is, the n-th edge, by what it delivers and the request that it meets.
fn answer_by(edge: &Edge, n: u64, sent: Option<Delivery>, request: u64) -> CycleAnswer
    ensures { result ≡ answer_by n edge.now sent request }
{
    if edge.wire.is_same(Wire::Berr) {
        return CycleAnswer::BusError;
    }
    match sent {
        Some(delivery) => CycleAnswer::Status {
            status: delivery.status,
            from: delivery.answered_by,
            asked: request,
        },
        None => CycleAnswer::Register(n),
    }
}

impl LastCycle {
    /// Before the first edge.
    pub(crate) fn new() -> LastCycle
        ensures { (p : Plan) → IsCycleOf p [] result }
    {
        LastCycle {
            of: None,
            showed: None,
            answer: None,
            ended: 0,
        }
    }

    /// Takes in an accepted edge, the n-th of the trace, with what it delivers.
    pub(crate) fn note(&mut self, edge: &Edge, n: u64, sight: &Sight, sent: Option<Delivery>)
        ensures { (p : Plan) (k : Numbered) → IsCycleOf p k self.old → length k + 1 < 2 ^ 64
            → sight.now.shown ≡ shown p (edges_in k)
            → sight.now.request ≡ request_of k edge.now
            → sent ≡ delivery_of p (edges_in k) edge.now
            → IsCycleOf p ((n, edge.now) ∷ k) self.new }
    {
        if edge.wire.is_same(Wire::AddressStrobe) {
            if edge.fall {
                self.of = Some(edge.driver);
                self.showed = sight.shown;
                self.answer = None;
            } else {
                self.of = None;
                self.ended = self.ended.saturating_add(1);
            }
        } else if is_answer(edge) {
            self.answer = Some(answer_by(edge, n, sent, sight.request));
        }
    }
}

impl LastTenure {
    /// Before the first edge.
    pub(crate) fn new() -> LastTenure
        ensures { IsTenureOf [] result }
    {
        LastTenure { asked: 0, ended: 0 }
    }

    /// Takes in an accepted edge.
    pub(crate) fn note(&mut self, edge: &Edge, sight: &Sight)
        ensures { (k : Numbered) (n : ℕ) → IsTenureOf k self.old → length k + 1 < 2 ^ 64
            → sight.now.request ≡ request_of k edge.now
            → IsTenureOf ((n, edge.now) ∷ k) self.new }
    {
        if edge.wire.is_same(Wire::Bbsy) {
            if edge.fall {
                self.asked = sight.request;
            } else {
                self.ended = self.ended.saturating_add(1);
            }
        }
    }
}
