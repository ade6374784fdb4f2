//! Which of two edges came before the other.
ghost use Rattle.std.specs.Prelude.{◌≡◌};
ghost use Rattle.vme_moments.specs.Before.{before, is_timely, part_of};

use crate::{Seen, Slacks};
use vme_model::{Driver, Edge, Wire};

/// What is clocked by itself: the controller's arbiter, its driver of the acknowledge chain and its
/// bus timer, and each board.
#[derive(Clone, Copy, PartialEq, Eq, Debug)]
enum Part {
    Arbiter,
    Acknowledger,
    Timer,
    Board(u8),
}

/// The part that makes an edge.
#[inline(always)]
fn part_of(edge: &Edge) -> Part
    ensures { result ≡ part_of edge.now }
{
    match (edge.driver, edge.wire) {
        (Driver::Slot(slot), _) => Part::Board(slot),
        (Driver::Controller, Wire::Iack) => Part::Acknowledger,
        (Driver::Controller, Wire::Berr) => Part::Timer,
        (Driver::Controller, _) => Part::Arbiter,
    }
}

/// Whether the moment of the first and the slack lie before the moment of the other, in whole
/// numbers without bound.
#[inline(always)]
fn is_timely(first: u64, slack: u64, other: u64) -> bool
    ensures { result ≡ is_timely first slack other }
{
    match first.checked_add(slack) {
        Some(last) => last < other,
        None => false,
    }
}

/// Whether the first edge came before the other, by when both were seen and by who made them.
#[inline(always)]
pub fn is_before(slacks: &Slacks, first: &Seen, other: &Seen) -> bool
    ensures { result ≡ before slacks.now first.now other.now }
{
    is_timely(first.moment, slacks.of(other.edge.driver), other.moment)
        || part_of(&first.edge) == part_of(&other.edge) && first.moment < other.moment
}
