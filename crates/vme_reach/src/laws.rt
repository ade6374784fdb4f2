//! What holds of every backplane and every list of edges.
//!
//! The function does nothing: it is a theorem over the definitions, stated by its contract.
ghost use Rattle.std.specs.Prelude.{◌≡◌, true, false, is_some};
ghost use Rattle.vme_goals.specs.declared.goals.Goal.{Goal};
ghost use Rattle.vme_model.specs.declared.signals.Edge.{Edge};
ghost use Rattle.vme_model.specs.Verdict.{State};
ghost use Rattle.vme_reach.specs.Needs.{hindrance_of, reaches};

/// If the drivers of a backplane lack something that a goal needs, no edge reaches the goal,
/// whatever edges come before it, in either version of the rules.
pub fn hindered_goal_is_never_reached()
    ensures { (b : State) (g : Goal) (e : Edge) →
        is_some (hindrance_of b.plan g) ≡ true → reaches b g e ≡ false }
{}
