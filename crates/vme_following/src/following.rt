//! A trace that is followed edge by edge.
ghost use Rattle.std.specs.Prelude.{◌≡◌, ◌+◌, ◌<◌, ◌≤◌, ◌^◌, ◌++◌, ◌∷◌, [], ℕ, length, is_ok, Some, Ok, OnErr, IfSome, IfNone};
ghost use Rattle.vme_model.specs.Plan.{Plan};
ghost use Rattle.vme_model.specs.declared.signals.Version.{Version};
ghost use Rattle.vme_model.specs.declared.signals.Wire.TheVariants.{Dtack};
ghost use Rattle.vme_model.specs.History.{shown};
ghost use Rattle.vme_model.specs.Verdict.{after, verdict};
ghost use Rattle.vme_model.specs.Numbered.{numbered_with};
ghost use Rattle.vme_model.specs.Deliveries.{answer};
ghost use Rattle.vme_events.specs.Events.{events_of};
ghost use Rattle.vme_events.specs.Ordered.{OfOrdered};
ghost use Rattle.vme_reading.specs.Outcomes.{bench};
ghost use Rattle.vme_explain.specs.Marked.{IsMarksOf};
ghost use Rattle.vme_explain.specs.Traced.{OfTrace};
ghost use Rattle.vme_following.specs.Followed.{IsAfter, OfAfter, Reaches, counted, printed_status};

use arrayvec::ArrayVec;
use vme_bus::Bus;
use vme_events::events_of;
use vme_explain::Marks;
use vme_goals::Event;
use vme_model::{Cycle, Delivery, Edge, Refused, Wire};
use vme_reading::{EngineFault, Status};
use vme_trace::Fault;

/// What an engine answers that prints one block.
#[derive(Clone, Copy, PartialEq, Eq, Debug)]
pub enum Printed {
    /// The block was written.
    Block(Status),
    /// The whole trace has so many edges, too few.
    Beyond(u64),
}

/// A trace under way: the bus, and the numbers of the edges that it accepted.
#[derive(Drop)]
pub struct Following {
    pub bus: Bus,
    pub marks: Marks,
    /// How many edges were judged.
    pub judged: u64,
}

/// The status of a command that is to print a block of a trace.
pub fn status_of(printed: Result<Printed, EngineFault>) -> Result<Status, EngineFault>
    ensures { result ≡ printed_status printed }
{
    match printed {
        Ok(Printed::Block(status)) => Ok(status),
        Ok(Printed::Beyond(count)) => Err(EngineFault::Beyond(count)),
        Err(fault) => Err(fault),
    }
}

/// How many of the next `len` edges lead to the place behind the first `n` of a trace, of which
/// `judged` came before. None if no place is asked for, or it is not reached by these edges.
fn edges_to_place(n: Option<u64>, judged: u64, len: usize) -> Option<usize>
    ensures some { IfSome result (λ count. (n ≡ Some (judged + count)) × (count ≤ len)) }
    ensures none { IfNone result
        ((wanted : ℕ) → n ≡ Some wanted → judged ≤ wanted → judged + len < wanted) }
{
    let count = n?.checked_sub(judged)?;
    if count <= len as u64 {
        Some(count as usize)
    } else {
        None
    }
}

/// What is shown, if the edge is one of DTACK*: no other needs it.
#[inline(always)]
fn shown_at(bus: &Bus, edge: Edge) -> Option<Cycle>
    ensures { edge.wire ≡ Dtack → result ≡ shown bus.now.plan bus.now.history }
{
    match edge.wire {
        Wire::Dtack => bus.shown(),
        _ => None,
    }
}

/// Makes the next edge of a trace, the n-th, if it is accepted, and notes it then. Gives the answer
/// to it.
#[inline(always)]
pub fn step_marked(
    bus: &mut Bus,
    marks: &mut Marks,
    n: u64,
    edge: &Edge,
) -> Result<Option<Delivery>, Refused>
    ensures answer { result ≡ answer bus.old edge.now }
    ensures accepted { is_ok result ≡ is_ok (verdict bus.old edge.now) }
    ensures state { bus.new ≡ after bus.old edge.now }
    ensures refused { OnErr result ((bus.new ≡ bus.old) × (marks.new ≡ marks.old)) }
    ensures noted { OfTrace bus.old marks.old (λ k.
        IsMarksOf bus.old.plan (numbered_with bus.old n edge.now k) marks.new) }
{
    match bus.step(*edge) {
        Ok(delivery) => {
            // Such an edge does not change what is shown.
            let shown = shown_at(bus, *edge);
            marks.note(edge, n, shown);
            Ok(delivery)
        }
        Err(refused) => Err(refused),
    }
}

impl Following {
    /// Before the first edge.
    pub fn new(bus: Bus) -> Following
        ensures judged { result.judged ≡ 0 }
        ensures after { (p : Plan) (v : Version) → bus ≡ bench p v → IsAfter p v [] result }
    {
        Following {
            bus,
            marks: Marks::new(),
            judged: 0,
        }
    }

    /// The situations that an edge brings about that is about to be made.
    pub fn events(&self, edge: &Edge) -> ArrayVec<Event, 2>
        ensures { OfOrdered self.now.bus self.now.marks (λ _. result.items
            ≡ events_of self.now.bus.plan self.now.bus.history edge.now) }
    {
        events_of(&self.bus, &self.marks, edge)
    }

    /// Makes the next edge if it is accepted, and gives the answer to it. It is not yet counted.
    #[inline(always)]
    pub fn step(&mut self, edge: &Edge) -> Result<Option<Delivery>, Refused>
        requires { self.old.judged + 1 < 2 ^ 64 }
        ensures answer { result ≡ answer self.old.bus edge.now }
        ensures accepted { is_ok result ≡ is_ok (verdict self.old.bus edge.now) }
        ensures judged { self.new.judged ≡ self.old.judged }
        ensures refused { OnErr result (self.new ≡ self.old) }
        ensures after { OfAfter self.old (λ p v es.
            IsAfter p v (es ++ edge.now ∷ []) (counted self.new)) }
    {
        let n = self.judged + 1;
        step_marked(&mut self.bus, &mut self.marks, n, edge)
    }

    /// Follows all the edges, past those that are refused.
    fn follow(&mut self, edges: &[Edge])
        requires { self.old.judged + length edges.now < 2 ^ 64 }
        ensures judged { self.new.judged ≡ self.old.judged + length edges.now }
        ensures after { OfAfter self.old (λ p v es. IsAfter p v (es ++ edges.now) self.new) }
    {
        for edge in edges {
            let _ = self.step(edge);
            self.judged += 1;
        }
    }

    /// Follows the edges among the first `n` of the trace, or all. How many those are, if the n-th
    /// was the last.
    pub(crate) fn follow_through(&mut self, n: Option<u64>, edges: &[Edge]) -> Option<usize>
        requires { self.old.judged + length edges.now < 2 ^ 64 }
        ensures { Reaches n self.old edges.now self.new result }
    {
        let count = edges_to_place(n, self.judged, edges.len());
        self.follow(&edges[..count.unwrap_or(edges.len())]);
        count
    }
}
