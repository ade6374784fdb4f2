//! Who hears how far a search came.

/// Who hears how far a search came.
pub trait StoryProgress {
    /// A stretch of at most `size` edges is left out next, to see whether the same is said. It
    /// ends at place `end`, counted from 1, of a list of so many edges.
    fn leaving_out(&mut self, size: usize, end: usize, edges: usize);
}
