//! One of the two traces, up to its first refused edge.
ghost use Rattle.std.specs.Prelude.{◌≡◌, ◌+◌, ◌<◌, ◌^◌, ◌++◌, ◌∷◌, [], List, None, Ok, OnOk};
ghost use Rattle.vme_model.specs.declared.signals.Edge.{Edge as EdgeValue};
ghost use Rattle.vme_model.specs.declared.signals.Version.{Version as VersionValue};
ghost use Rattle.vme_model.specs.Plan.{Plan as PlanValue};
ghost use Rattle.vme_model.specs.Numbered.{numbered};
ghost use Rattle.vme_model.specs.Report.{trace_limit};
ghost use Rattle.vme_model.specs.Verdict.{kept, verdict, verdict_but_full};
ghost use Rattle.vme_bus.specs.States.{OfHistory};
ghost use Rattle.vme_reading.specs.Outcomes.{bench};
ghost use Rattle.vme_same.specs.Kept.{IsSide};

use vme_bus::BusState;
use vme_model::{Edge, Refused, TRACE_LIMIT, Version};
use vme_slots::Plan;

/// A trace under way, as far as no edge is refused.
#[derive(Clone, Copy)]
pub(crate) struct Side {
    /// The bus after the edges that were accepted.
    pub(crate) state: BusState,
    /// How many edges came. As long as none is refused, all were accepted.
    pub(crate) judged: u64,
    /// The number of the first refused edge, and its verdict.
    pub(crate) refusal: Option<(u64, Refused)>,
}

impl Side {
    /// Before the first edge.
    pub(crate) fn new(plan: &Plan, version: Version) -> Side
        ensures { IsSide plan.now version [] result }
    {
        Side {
            state: BusState::new(plan, version),
            judged: 0,
            refusal: None,
        }
    }

    /// The verdict on the next edge, behind edges of which none is refused.
    fn verdict(&self, edge: Edge) -> Result<(), Refused>
        ensures verdict { (p : PlanValue) (v : VersionValue) (es : List EdgeValue)
            → IsSide p v es self.now → self.now.refusal ≡ None
            → result ≡ verdict (kept (bench p v) es) edge }
        ensures allowed { OnOk result
            (OfHistory self.now.state (λ v p h. verdict_but_full v p h edge ≡ Ok tt)) }
        ensures room { OnOk result (self.now.judged < trace_limit) }
    {
        match self.state.judge_by_wire(edge) {
            Ok(()) => {
                if self.judged < u64::from(TRACE_LIMIT) {
                    Ok(())
                } else {
                    Err(Refused::TraceFull)
                }
            }
            Err(refused) => Err(refused),
        }
    }

    /// Takes in the next edge, behind edges of which none is refused.
    fn take_next(&mut self, edge: Edge)
        requires { self.old.judged + 1 < 2 ^ 64 }
        ensures judged { self.new.judged ≡ self.old.judged + 1 }
        ensures side { (p : PlanValue) (v : VersionValue) (es : List EdgeValue)
            → IsSide p v es self.old → self.old.refusal ≡ None
            → IsSide p v (es ++ edge ∷ []) self.new }
        ensures next { (p : PlanValue) (v : VersionValue) (es : List EdgeValue)
            → IsSide p v es self.old → self.old.refusal ≡ None → self.new.refusal ≡ None
            → numbered (bench p v) (es ++ edge ∷ [])
            ≡ (self.new.judged, edge) ∷ numbered (bench p v) es }
    {
        let verdict = self.verdict(edge);
        self.judged += 1;
        match verdict {
            Ok(()) => self.state.note(edge),
            Err(refused) => self.refusal = Some((self.judged, refused)),
        }
    }

    /// Takes in the next edge. Nothing is judged behind a refused one.
    pub(crate) fn take(&mut self, edge: Edge)
        requires { self.old.judged + 1 < 2 ^ 64 }
        ensures judged { self.new.judged ≡ self.old.judged + 1 }
        ensures side { (p : PlanValue) (v : VersionValue) (es : List EdgeValue)
            → IsSide p v es self.old → IsSide p v (es ++ edge ∷ []) self.new }
        ensures next { (p : PlanValue) (v : VersionValue) (es : List EdgeValue)
            → IsSide p v es self.old → self.new.refusal ≡ None
            → numbered (bench p v) (es ++ edge ∷ [])
            ≡ (self.new.judged, edge) ∷ numbered (bench p v) es }
        ensures before { self.new.refusal ≡ None → self.old.refusal ≡ None }
    {
        match self.refusal {
            None => self.take_next(edge),
            Some(_) => self.judged += 1,
        }
    }
}
