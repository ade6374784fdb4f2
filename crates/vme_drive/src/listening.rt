//! Who hears how far a search came.

use std::io::{Result, Write};

/// After how many edges of a seed each it reports how many were made.
const STRETCH: u64 = 1_024;

/// Who hears how far a search came.
pub trait Progress {
    /// This seed is tried next.
    fn trying(&mut self, seed: u64);

    /// So many edges of the seed that is tried were drawn: 1,024, then 2,048, and so on.
    fn drawn(&mut self, seed: u64, edges: u64);
}

/// Stands in for the output while a seed is tried. It keeps nothing of the trace, and counts its
/// lines to say how many edges were drawn.
#[derive(Drop)]
pub(crate) struct Listener<'p, P> {
    progress: &'p mut P,
    seed: u64,
    /// How many lines it was given. The first is the header line, and each other one that of an
    /// edge.
    lines: u64,
}

impl<'p, P: Progress> Listener<'p, P> {
    /// One that was given no line of the seed's trace yet.
    pub(crate) fn new(progress: &'p mut P, seed: u64) -> Listener<'p, P> {
        Listener {
            progress,
            seed,
            lines: 0,
        }
    }

    /// Takes one line more.
    fn take_line(&mut self) {
        let edges = self.lines;
        self.lines = edges.saturating_add(1);
        if edges > 0 && edges % STRETCH == 0 {
            self.progress.drawn(self.seed, edges);
        }
    }
}

impl<P: Progress> Write for Listener<'_, P> {
    fn write(&mut self, bytes: &[u8]) -> Result<usize> {
        for byte in bytes {
            if *byte == b'\n' {
                self.take_line();
            }
        }
        Ok(bytes.len())
    }

    fn flush(&mut self) -> Result<()> {
        Ok(())
    }
}
