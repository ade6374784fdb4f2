//! The settling rules S1 to S4, which look at more than one board.
ghost use Rattle.vme_model.specs.Settling.{as_settles, berr_settles, bg_rise_settles, bg_fall_settles};

use crate::outcomes::Outcome;
use vme_model::{Condition, Version};

/// S1, at every `as-`: every segment of the acknowledge chain is high. Source: profile.
pub fn as_settles<A: Outcome>(is_clear: bool) -> A
    ensures { A.reports result (as_settles is_clear) }
{
    A::asks(Condition::ChainHigh, is_clear)
}

/// S2, at `berr-`: no board can answer what is shown. Source: profile.
pub fn berr_settles<A: Outcome>(is_beyond_answer: bool) -> A
    ensures { A.reports result (berr_settles is_beyond_answer) }
{
    A::asks(Condition::NobodyCanAnswer, is_beyond_answer)
}

/// S3, in the second version, at the rise of a grant while BBSY* is high: the grant has passed
/// every board. Source: profile.
pub fn bg_rise_settles<A: Outcome>(version: Version, bbsy: bool, is_past: bool) -> A
    ensures { A.reports result (bg_rise_settles version bbsy is_past) }
{
    A::asks(Condition::PassedTheLastBoard, is_past).unless(!version.is_two() || bbsy)
}

/// S4, in the second version, at the fall of a grant: every board's `bgout` is high, on all four
/// chains. Source: profile.
pub fn bg_fall_settles<A: Outcome>(version: Version, are_through: bool) -> A
    ensures { A.reports result (bg_fall_settles version are_through) }
{
    A::asks(Condition::GrantsThrough, are_through).unless(!version.is_two())
}
