//! Whether two neighbours may change places: a stand-in for that of vme_swaps.
ghost use Rattle.std.specs.Prelude.{◌↔◌, IsTrue};
ghost use Rattle.vme_bus.specs.States.{OfHistory};
ghost use Rattle.vme_swaps.specs.Swaps.{IsFree};

use vme_bus::BusState;
use vme_model::Edge;

/// Whether two edges after a history may change places.
pub(crate) fn is_free(before: &BusState, first: Edge, second: Edge) -> bool
    ensures { OfHistory before.now (λ v p h. IsTrue result ↔ IsFree v p h first second) }
{
    let mut one = *before;
    let first_there = one.step(first);
    let second_there = one.step(second);
    let mut other = *before;
    let second_here = other.step(second);
    let first_here = other.step(first);
    first_here.is_ok()
        && second_here.is_ok()
        && first_here == first_there
        && second_here == second_there
}
