//! The levels that a board handles.
ghost use Rattle.std.specs.Prelude.{◌≡◌, ◌&&◌, find};
ghost use Rattle.vme_model.specs.Sets.{has_level};
ghost use Rattle.vme_model.specs.Offers.{irq_descending};

use std::marker::Model;
use vme_model::Levels;

/// An interrupt handler, as the set of the levels that it handles. Source: Std 1014, chapter 4.
#[derive(Clone, Copy, PartialEq, Eq, Debug)]
pub struct Handler {
    levels: Levels,
}

impl Model for Handler {
    ghost use Rattle.vme_model.specs.declared.sets.Levels.{Levels};

    ghost Value = { Levels };

    ghost view = { λ h. h.levels };

    ghost inverse = { λ levels. record { levels = levels } };
}

impl Handler {
    /// A handler of these levels. If there are none, it never wants an acknowledge.
    pub fn new(levels: Levels) -> Handler
        ensures { result ≡ levels }
    {
        Handler { levels }
    }

    /// The highest level that is handled and whose interrupt line is low, 1 to 7; none if there is
    /// no such level. IRQ7* is the highest. Source: Std 1014, chapter 4.
    pub fn wants(&self, irq: Levels) -> Option<u8>
        ensures { result ≡ find (λ v. has_level self.now v && has_level irq v) irq_descending }
    {
        highest(self.levels, irq)
    }
}

/// The highest level that is in both sets.
fn highest(handled: Levels, low: Levels) -> Option<u8>
    ensures { result ≡ find (λ v. has_level handled v && has_level low v) irq_descending }
{
    [7, 6, 5, 4, 3, 2, 1]
        .iter()
        .copied()
        .find(|level| handled.has(*level) && low.has(*level))
}
