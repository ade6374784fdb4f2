//! What a guard answers.
ghost use Rattle.std.specs.Prelude.{◌≡◌, ◌≤◌, ◌+◌, ◌++◌, [], true, length, if◌then◌else◌, Ok};
ghost use Rattle.vme_model.specs.Guards.{Guard, free, asks, ◌⊓◌, unless, holds, failed};
ghost use Rattle.vme_model.specs.Verdict.{check};
ghost use Rattle.vme_rules.specs.Room.{most};

use arrayvec::ArrayVec;
use vme_model::{Condition, Refused};

/// The answer of a guard: whether it holds, which of its conditions fail, or what a caller's own
/// list says of each of them.
///
/// Each rule is written once for all of these. It uses a function of this trait for each way to
/// make a guard.
pub trait Outcome {
    /// The value is the answer of that guard.
    ghost reports: { Self → Guard → Type 0 };

    /// The answer of the guard without a condition, which always holds.
    fn free() -> Self
        ensures { reports result free };

    /// The answer of a guard that is one condition, given whether the condition holds.
    fn asks(condition: Condition, holds: bool) -> Self
        ensures { reports result (asks condition holds) };

    /// Whether the guard is known to fail, so that the conditions after it make no difference.
    fn is_final(&self) -> bool
        ensures { result ≡ true → (g k : Guard) → reports self.now g → reports self.now (g ⊓ k) };

    /// The answer of two guards together, with the conditions of this one first.
    fn and(self, other: Self) -> Self
        ensures { (g k : Guard) → reports self g → reports other k → reports result (g ⊓ k) };

    /// The answer of a guard that does not bind if `is_free` is true.
    fn unless(self, is_free: bool) -> Self
        ensures { (g : Guard) → reports self g → reports result (unless is_free g) };
}

/// Whether the guard holds.
impl Outcome for bool {
    ghost reports = { λ result g. result ≡ holds g };

    fn free() -> bool {
        true
    }

    fn asks(_condition: Condition, holds: bool) -> bool {
        holds
    }

    #[inline(always)]
    fn is_final(&self) -> bool {
        !*self
    }

    fn and(self, other: bool) -> bool {
        self && other
    }

    fn unless(self, is_free: bool) -> bool {
        is_free || self
    }
}

/// The first list of conditions and then the second, if five have room for both.
fn joined<T: Copy + Default>(mut first: ArrayVec<T, 5>, second: ArrayVec<T, 5>) -> ArrayVec<T, 5>
    ensures { length first.items + length second.items ≤ 5
        → result.items ≡ first.items ++ second.items }
{
    let _fits = first.try_extend_from_slice(second.as_slice()).is_ok();
    first
}

/// A list of conditions if they bind, and otherwise the empty list.
fn bound<T: Copy + Default>(list: ArrayVec<T, 5>, is_free: bool) -> ArrayVec<T, 5>
    ensures { result.items ≡ if is_free then [] else list.items }
{
    if is_free { ArrayVec::new() } else { list }
}

/// Which of the guard's conditions fail, in the guard's order, if it has at most five.
impl Outcome for ArrayVec<Condition, 5> {
    ghost reports = { λ result g. most g ≤ 5 → result.items ≡ failed g };

    fn free() -> ArrayVec<Condition, 5> {
        ArrayVec::new()
    }

    fn asks(condition: Condition, holds: bool) -> ArrayVec<Condition, 5> {
        let mut failed = ArrayVec::new();
        if !holds {
            failed.push(condition);
        }
        failed
    }

    fn is_final(&self) -> bool {
        false
    }

    fn and(self, other: ArrayVec<Condition, 5>) -> ArrayVec<Condition, 5> {
        joined(self, other)
    }

    fn unless(self, is_free: bool) -> ArrayVec<Condition, 5> {
        bound(self, is_free)
    }
}

/// The answer to an edge that moves its wire, given the number of the rule that names it, and
/// whether the rule's guard holds. Source: profile (E3).
///
/// # Errors
/// E3 with that number if the guard does not hold.
pub fn allowed(rule: (u8, bool)) -> Result<(), Refused>
    ensures { result ≡ check rule.1 (Refused.Rule rule.0) (Ok tt) }
{
    let (number, holds) = rule;
    if holds {
        Ok(())
    } else {
        Err(Refused::Rule(number))
    }
}
