//! What holds for every legal list of edges on every accepted plan, and for any two backplanes.
//!
//! The functions do nothing and cost nothing. Each states a theorem by its contract, and a call of
//! it gives the theorem to the prover. docs/SAFETY.md explains the claims.
ghost use Rattle.std.specs.Prelude.{List};
ghost use Rattle.vme_model.specs.Accepted.{IsAccepted};
ghost use Rattle.vme_model.specs.Locality.{AreWellFormed, IsLocal};
ghost use Rattle.vme_model.specs.Plan.{Plan};
ghost use Rattle.vme_model.specs.Safe.{IsOrderly, IsSafe};
ghost use Rattle.vme_model.specs.Verdict.{IsLegal};
ghost use Rattle.vme_model.specs.declared.signals.Edge.{Edge};
ghost use Rattle.vme_model.specs.declared.signals.Version.TheVariants.{One, Two};
ghost use Rattle.vme_model.specs.declared.signals.Version.{Version};
ghost use Rattle.vme_backplane.specs.Alike.{AnswerAlike};

use crate::backplanes::Backplane;
use vme_model::Edge;

/// Every legal list is safe. So the history of every backplane is.
#[tactic(auto, using(vme_model::proofs::Safety::legal_is_safe))]
pub fn legal_list_is_safe()
    ensures { (version : Version) (p : Plan) (h : List Edge) → IsAccepted p
        → IsLegal version p h → IsSafe p h }
{}

/// Every legal list is orderly. So the history of every backplane is.
#[tactic(auto, using(vme_model::proofs::Safety::legal_is_orderly))]
pub fn legal_list_is_orderly()
    ensures { (version : Version) (p : Plan) (h : List Edge) → IsAccepted p
        → IsLegal version p h → IsOrderly version p h }
{}

/// The second version of the rules allows everything that the first one allows.
#[tactic(auto, using(vme_model::proofs::Versions::legal_in_second))]
pub fn first_version_is_within_second()
    ensures { (p : Plan) (h : List Edge) → IsAccepted p → IsLegal One p h → IsLegal Two p h }
{}

/// The verdict on an edge is the same after any two histories in which its driver saw the same.
/// This leaves out a full trace, and the edges for which a settling rule looks at other boards'
/// wires.
#[tactic(auto, using(vme_model::proofs::Local::local, vme_model::proofs::Local::legal_local))]
pub fn verdict_is_local()
    ensures well_formed { (version : Version) (p : Plan) (h k : List Edge) (e : Edge) → IsAccepted p
        → AreWellFormed h → AreWellFormed k → IsLocal version p h k e }
    ensures legal { (version : Version) (p : Plan) (h k : List Edge) (e : Edge) → IsAccepted p
        → IsLegal version p h → IsLegal version p k → IsLocal version p h k e }
{}

/// Two backplanes of one version and one plan, neither of them full, give an edge the same answer
/// if its driver saw the same on both. This leaves out the edges for which a settling rule looks at
/// other boards' wires.
#[tactic(auto, using(crate::proofs::Alike::alike))]
pub fn backplanes_answer_alike(one: &Backplane<'_>, other: &Backplane<'_>, edge: Edge)
    ensures { AnswerAlike one.now other.now edge }
{
    one.laws();
    other.laws();
}
