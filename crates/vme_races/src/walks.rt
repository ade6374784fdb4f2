//! How far an accepted edge goes back.
ghost use Rattle.std.specs.Prelude.{◌≡◌};
ghost use Rattle.vme_races.specs.Lines.{is_back};

use vme_swaps::Stop;

/// How far an accepted edge goes back.
#[derive(Clone, Copy, PartialEq, Eq, Debug)]
pub struct Walk {
    /// How many edges it passes.
    pub passed: usize,
    /// The number of the edge in front of which it comes to stand. None if it stays.
    pub since: Option<u64>,
    /// What stops it there.
    pub stop: Stop,
}

impl Walk {
    /// Whether the edge comes back over one edge at the least.
    pub(crate) fn is_back(&self) -> bool
        ensures { result ≡ is_back self.now }
    {
        self.passed > 0
    }
}
