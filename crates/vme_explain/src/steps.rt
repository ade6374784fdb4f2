//! An edge of a trace that is made and noted.
ghost use Rattle.std.specs.Prelude.{◌≡◌, is_ok, OnErr};
ghost use Rattle.vme_model.specs.declared.signals.Wire.TheVariants.{Dtack};
ghost use Rattle.vme_model.specs.Deliveries.{answer};
ghost use Rattle.vme_model.specs.History.{shown};
ghost use Rattle.vme_model.specs.Numbered.{numbered_with};
ghost use Rattle.vme_model.specs.Verdict.{after, verdict};
ghost use Rattle.vme_explain.specs.Marked.{IsMarksOf};
ghost use Rattle.vme_explain.specs.Traced.{OfTrace};

use crate::marks::Marks;
use vme_bus::Bus;
use vme_model::{Cycle, Delivery, Edge, Refused, Wire};

/// What is shown, if the edge is one of DTACK*: no other needs it.
#[inline(always)]
fn shown_at(bus: &Bus, edge: Edge) -> Option<Cycle>
    ensures { edge.wire ≡ Dtack → result ≡ shown bus.now.plan bus.now.history }
{
    match edge.wire {
        Wire::Dtack => bus.shown(),
        _ => None,
    }
}

/// Makes the next edge of a trace, the n-th, if it is accepted, and notes it then. Gives the answer
/// to it.
#[inline(always)]
pub fn step_marked(
    bus: &mut Bus,
    marks: &mut Marks,
    n: u64,
    edge: &Edge,
) -> Result<Option<Delivery>, Refused>
    ensures answer { result ≡ answer bus.old edge.now }
    ensures accepted { is_ok result ≡ is_ok (verdict bus.old edge.now) }
    ensures state { bus.new ≡ after bus.old edge.now }
    ensures refused { OnErr result ((bus.new ≡ bus.old) × (marks.new ≡ marks.old)) }
    ensures noted { OfTrace bus.old marks.old (λ k.
        IsMarksOf bus.old.plan (numbered_with bus.old n edge.now k) marks.new) }
{
    match bus.step(*edge) {
        Ok(delivery) => {
            // Such an edge does not change what is shown.
            let shown = shown_at(bus, *edge);
            marks.note(edge, n, shown);
            Ok(delivery)
        }
        Err(refused) => Err(refused),
    }
}
