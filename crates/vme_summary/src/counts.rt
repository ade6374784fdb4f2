//! Counts in places of fixed number.
ghost use Rattle.std.specs.Prelude.{◌≡◌, ◌<◌, ℕ, length, set, slice_index_or};
ghost use Rattle.vme_summary.specs.Tallied.{more};

/// Counts one more at a place; after the last place nothing is counted.
pub(crate) fn count(counts: &mut [u64], place: u8)
    ensures { counts.new ≡ set counts.old place (more (slice_index_or counts.old place 0) 1) }
{
    let place = usize::from(place);
    if place < counts.len() {
        counts[place] = counts[place].saturating_add(1);
    }
}

/// Adds to each count the one at its place among others, as many.
pub(crate) fn add_counts(counts: &mut [u64], others: &[u64])
    requires { length counts.old ≡ length others.now }
    ensures places { length counts.new ≡ length counts.old }
    ensures added { (k : ℕ) → k < length counts.old → slice_index_or counts.new k 0
        ≡ more (slice_index_or counts.old k 0) (slice_index_or others.now k 0) }
{
    for place in 0..counts.len() {
        counts[place] = counts[place].saturating_add(others[place]);
    }
}
