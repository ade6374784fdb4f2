//! Counts in places of fixed number.
ghost use Rattle.std.specs.Prelude.{◌≡◌, set, slice_index_or};
ghost use Rattle.vme_tallies.specs.Tallied.{more};

/// Counts one more at a place; after the last place nothing is counted.
pub(crate) fn count(counts: &mut [u64], place: u8)
    ensures { counts.new ≡ set counts.old place (more (slice_index_or counts.old place 0) 1) }
{
    let place = usize::from(place);
    if place < counts.len() {
        counts[place] = counts[place].saturating_add(1);
    }
}
