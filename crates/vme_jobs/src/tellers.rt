//! The progress of a search: the seed that is tried, printed on standard error.
ghost use Rattle.std.specs.Prelude.{◌≡◌, None};
ghost use Rattle.vme_jobs.specs.Paced.{IsPaced};

use std::time::Instant;
use vme_engines::Progress;

/// For how many seconds nothing is printed after a line.
const PAUSE: u64 = 1;

/// Prints the seed that is tried, at most once a second, or nothing.
#[derive(Drop)]
pub(crate) struct Teller<'r> {
    rt: &'r HostRuntime,
    is_wanted: bool,
    /// When it printed its last line.
    told: Option<Instant>,
}

impl<'r> Teller<'r> {
    /// A teller that has printed nothing yet. It prints lines only if `is_wanted` is true.
    pub(crate) fn new(rt: &'r HostRuntime, is_wanted: bool) -> Teller<'r>
        ensures wanted { result.is_wanted ≡ is_wanted }
        ensures told { result.told ≡ None }
    {
        Teller {
            rt,
            is_wanted,
            told: None,
        }
    }

    /// Whether a line is due now. If so, it counts as the last one printed. No line is due while
    /// the clock cannot be read.
    fn is_due(&mut self) -> bool
        ensures { IsPaced self.old.told self.new.told result }
    {
        let Ok(now) = Instant::now(self.rt) else {
            return false;
        };
        if let Some(told) = self.told
            && now.duration_since(told).as_secs() < PAUSE
        {
            return false;
        }
        self.told = Some(now);
        true
    }
}

impl Progress for Teller<'_> {
    fn trying(&mut self, seed: u64) {
        if self.is_wanted && self.is_due() {
            let _ = eprintln!(self.rt; "trying seed {seed}");
        }
    }
}
