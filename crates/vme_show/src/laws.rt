//! What holds of every picture.
//!
//! The functions do nothing: each is a theorem over the definitions, stated by its contract.
ghost use Rattle.std.specs.Prelude.{List};
ghost use Rattle.std.specs.List.{All};
ghost use Rattle.vme_model.specs.Accepted.{IsAccepted};
ghost use Rattle.vme_model.specs.Verdict.{IsLegal, State};
ghost use Rattle.vme_model.specs.declared.signals.Edge.{Edge};
ghost use Rattle.vme_show.specs.Letters.{ShowsEveryGrant, ShowsEveryHolder};
ghost use Rattle.vme_show.specs.Picture.{columns};

/// In each column of a picture, after a legal list, the character of `grant at` is that of every
/// slot at which a grant travels, and that of `holder` is of every board that holds BBSY* low. So
/// there is one at most of each, and the character hides no other; `.` stands if there is none.
pub fn rows_show_every_grant_and_holder()
    ensures grant { (b : State) (es : List Edge) → IsAccepted b.plan
        → IsLegal b.version b.plan b.history → All ShowsEveryGrant (columns b es) }
    ensures holder { (b : State) (es : List Edge) → IsAccepted b.plan
        → IsLegal b.version b.plan b.history → All ShowsEveryHolder (columns b es) }
{}
