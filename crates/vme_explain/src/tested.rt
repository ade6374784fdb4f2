//! All that is tested of an edge, the room of its trace included.
ghost use Rattle.std.specs.Prelude.{◌≡◌, ◌≤◌};
ghost use Rattle.vme_model.specs.Guards.{conditions};
ghost use Rattle.vme_rules.specs.Room.{most};

use arrayvec::ArrayVec;
use vme_model::{Condition, Tested};
use vme_rules::Outcome;

/// The most conditions that are tested of an edge: five of its rules, and the room.
const MOST: usize = 6;

/// Conditions, each with whether it holds, in the order of a guard.
#[derive(Drop)]
pub(crate) struct Conditions {
    list: ArrayVec<Tested, MOST>,
}

impl Conditions {
    /// The conditions.
    pub(crate) fn as_slice(&self) -> &[Tested]
        ensures { result.now ≡ self.now.list.items }
    {
        self.list.as_slice()
    }
}

/// All conditions of the guard, if it has at most six.
impl Outcome for Conditions {
    ghost reports = { λ result g. most g ≤ 6 → result.list.items ≡ conditions g };

    fn free() -> Conditions {
        Conditions {
            list: ArrayVec::new(),
        }
    }

    fn asks(condition: Condition, holds: bool) -> Conditions {
        let mut list = ArrayVec::new();
        list.push(Tested { condition, holds });
        Conditions { list }
    }

    fn is_final(&self) -> bool {
        false
    }

    fn and(self, other: Conditions) -> Conditions {
        let Conditions { mut list } = self;
        let _fits = list.try_extend_from_slice(other.as_slice()).is_ok();
        Conditions { list }
    }

    fn unless(self, is_free: bool) -> Conditions {
        if is_free { Conditions::free() } else { self }
    }
}
