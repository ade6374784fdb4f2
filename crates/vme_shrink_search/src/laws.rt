//! What holds of stories.
//!
//! The functions do nothing: each is a theorem over the definitions, stated by its contract.
ghost use Rattle.std.specs.Prelude.{◌≡◌, ◌↔◌, ◌≤◌, [], List, Option, length, map, reverse};
ghost use Rattle.vme_model.specs.declared.boards.Row.{Row};
ghost use Rattle.vme_model.specs.declared.conditions.Condition.{Condition};
ghost use Rattle.vme_model.specs.declared.signals.Cycle.{Cycle};
ghost use Rattle.vme_model.specs.declared.signals.Edge.{Edge};
ghost use Rattle.vme_model.specs.Accepted.{IsAccepted};
ghost use Rattle.vme_model.specs.Safe.{IsSafe};
ghost use Rattle.vme_model.specs.Spoken.{condition_text, level_of};
ghost use Rattle.vme_model.specs.Verdict.{IsLegal, State};
ghost use Rattle.vme_shrink_search.specs.Replies.{level_named};
ghost use Rattle.vme_shrink_search.specs.Stories.{IsFound, IsStory};

/// The texts of conditions that one edge fails behind two lists are the same if and only if the
/// level that is compared is. The texts are those that `explain` prints; levels are 7 at most.
pub fn conditions_are_compared_by_their_texts()
    ensures { (cs : List Condition) (e : Edge) (board : Option Row) (v w : Option Cycle)
        → level_of v ≤ 7 → level_of w ≤ 7 → (level_named cs v ≡ level_named cs w)
        ↔ (map (λ c. condition_text c e board v) cs ≡ map (λ c. condition_text c e board w) cs) }
{}

/// Every legal list has a story with every edge.
pub fn every_legal_list_has_a_story()
    ensures { (b : State) (h : List Edge) (e : Edge) → b.history ≡ []
        → IsLegal b.version b.plan (reverse h) → length h ≤ b.max
        → (g : List Edge) × IsStory b h e g }
{}

/// A story is legal, and so it is safe.
pub fn stories_are_safe()
    ensures legal { (b : State) (h : List Edge) (e : Edge) (g : List Edge) → IsStory b h e g
        → IsLegal b.version b.plan (reverse g) }
    ensures safe { (b : State) (h : List Edge) (e : Edge) (g : List Edge) → IsAccepted b.plan
        → IsStory b h e g → IsSafe b.plan (reverse g) }
{}

/// Whatever is found from what was found is the same list: the end of a search is a list of which a
/// whole run leaves nothing out, and a search that begins with such a list ends with it.
pub fn what_is_found_is_found_again()
    ensures { (b : State) (h : List Edge) (e : Edge) (g k : List Edge) → IsFound b h e g
        → IsFound b g e k → k ≡ g }
{}
