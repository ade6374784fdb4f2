//! Who hears how far a search came.

/// Who hears how far a search came.
pub trait OrderProgress {
    /// Beginnings of this length are sought next, 1 to `edges`. They go on from so many
    /// `beginnings`, which have one place less.
    fn lengthening(&mut self, length: usize, edges: usize, beginnings: usize);
}
