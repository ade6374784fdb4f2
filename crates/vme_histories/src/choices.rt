//! Which of its offers a driver makes.
ghost use Rattle.std.specs.Prelude.{◌≡◌, ◌%◌, length, slice_get};

use vme_model::Edge;

/// The offer that is made in a round: of k offers the one at place `round mod k`, counted from 0;
/// none if there is no offer. Source: profile.
pub fn choice(offers: &[Edge], round: u32) -> Option<Edge>
    ensures { result ≡ slice_get offers.now (round % length offers.now) }
{
    if offers.is_empty() {
        return None;
    }
    offers.get(round as usize % offers.len()).copied()
}
