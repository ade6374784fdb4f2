//! The settling rules, and the whole verdict but for the end of the trace.
ghost use Rattle.std.specs.Prelude.{◌≡◌, Ok, OnOk, not, reverse, true, false};
ghost use Rattle.std.specs.List.{list_all};
ghost use Rattle.vme_model.specs.Plan.{active};
ghost use Rattle.vme_model.specs.History.{drive, shown};
ghost use Rattle.vme_model.specs.Settling.{is_chain_clear, is_unanswerable, are_grants_through, settling};
ghost use Rattle.vme_model.specs.Verdict.{is_other_state, check, judged, verdict_but_full};

use crate::looks::Look;
use crate::rules::is_two;
use crate::scans;
use vme_model::{ChainId, Cycle, Driver, Edge, Refused, Version, Wire};
use vme_slots::Plan;

impl Look<'_> {
    ghost use Rattle.vme_backplane.specs.Looks.{history_of};

    /// Whether no board passes the acknowledge on.
    fn is_passed_by_none(&self) -> bool
        ensures { result ≡ list_all (λ s. not (drive (history_of self.now) (Driver.Slot s) Wire.IackOut)) (active self.now.plan.now ChainId.Iack) }
    {
        self.plan.active(ChainId::Iack).iter().all(|slot| !scans::drive(
            self.edges,
            Driver::Slot(*slot),
            Wire::IackOut,
        ))
    }

    /// S1: whether every segment of the acknowledge chain is high.
    fn is_acknowledge_clear(&self) -> bool
        ensures { result ≡ is_chain_clear self.now.plan.now (history_of self.now) ChainId.Iack }
    {
        !self.controller(Wire::Iack) && self.is_passed_by_none()
    }

    /// S2: whether nobody can answer what is shown.
    fn is_unanswerable(&self) -> bool
        ensures { let h = history_of self.now in result ≡ is_unanswerable self.now.plan.now h (shown self.now.plan.now h) }
    {
        match self.shown() {
            Some(Cycle::Acknowledge(_)) => {
                scans::is_past_end(self.plan, self.edges, ChainId::Iack)
            }
            Some(Cycle::Access(slot)) => self.plan.row(slot).is_none(),
            None => false,
        }
    }

    /// S3: whether a grant that nobody took has passed every board.
    fn is_grant_seen(&self, level: u8) -> bool
        ensures { result ≡ (settling self.now.version self.now.plan.now (history_of self.now) (Wire.Bg level) false).1 }
    {
        !is_two(self.version)
            || self.line(Wire::Bbsy)
            || scans::is_past_end(self.plan, self.edges, ChainId::of_grant(level))
    }

    /// Whether every `bgout` is high.
    fn are_grants_through(&self) -> bool
        ensures { result ≡ are_grants_through self.now.plan.now (history_of self.now) }
    {
        self.plan.rows().iter().all(|row| !scans::drive(
            self.edges,
            Driver::Slot(row.slot),
            Wire::BgOut,
        ))
    }

    /// S4: whether the last grant has gone from every board.
    fn is_grant_gone(&self) -> bool
        ensures { result ≡ (settling self.now.version self.now.plan.now (history_of self.now) (Wire.Bg 0) true).1 }
    {
        !is_two(self.version) || self.are_grants_through()
    }

    /// The number of the settling rule that names the edge, and whether it holds; 0 where none does.
    fn settling(&self, edge: Edge) -> (u8, bool)
        ensures { result ≡ settling self.now.version self.now.plan.now (history_of self.now) edge.wire edge.fall }
    {
        match (edge.wire, edge.fall) {
            (Wire::AddressStrobe, true) => (1, self.is_acknowledge_clear()),
            (Wire::Berr, true) => (2, self.is_unanswerable()),
            (Wire::Bg(level), false) => (3, self.is_grant_seen(level)),
            (Wire::Bg(_), true) => (4, self.is_grant_gone()),
            _ => (0, true),
        }
    }

    /// Whether the wire is in the state from which the edge moves it.
    fn is_other_state(&self, edge: Edge) -> bool
        ensures { result ≡ is_other_state (drive (history_of self.now) self.now.driver edge.wire) edge.fall }
    {
        self.own(edge.wire) != edge.fall
    }
}

/// The first of E1 to E5 that applies, E5 where the trace is full.
pub fn judge(
    version: Version,
    plan: &Plan,
    edges: &[Edge],
    is_full: bool,
    edge: Edge,
) -> Result<(), Refused>
    ensures value { result ≡ judged version plan.now (reverse edges.now) edge (check (not is_full) Refused.TraceFull (Ok tt)) }
    ensures room { OnOk result (is_full ≡ false) }
    ensures allowed { OnOk result (verdict_but_full version plan.now (reverse edges.now) edge ≡ Ok tt) }
{
    let look = Look {
        version,
        plan,
        edges,
        driver: edge.driver,
    };
    if !edge.is_well_formed() || !scans::has_driver(plan, edge.driver, edge.wire) {
        return Err(Refused::NoSuchDriver);
    }
    if !look.is_other_state(edge) {
        return Err(Refused::AlreadyThere);
    }
    let (number, holds) = look.rule(edge);
    if !holds {
        return Err(Refused::Rule(number));
    }
    let (number, holds) = look.settling(edge);
    if !holds {
        return Err(Refused::NotSettled(number));
    }
    if is_full {
        return Err(Refused::TraceFull);
    }
    Ok(())
}
