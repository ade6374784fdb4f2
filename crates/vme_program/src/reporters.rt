//! The progress of a search, printed on standard error.
ghost use Rattle.std.specs.Prelude.{◌≡◌, None};
ghost use Rattle.vme_program.specs.Paced.{IsPaced};

use std::time::Instant;
use vme_drive::Progress;
use vme_order::OrderProgress;
use vme_shrink::StoryProgress;

/// For how many seconds nothing is printed after a line.
const PAUSE: u64 = 1;

/// Prints how far a search has come, at most once a second, or nothing.
#[derive(Clone, Copy)]
pub(crate) struct Reporter<'r> {
    rt: &'r HostRuntime,
    is_wanted: bool,
    /// When it printed its last line.
    last_line: Option<Instant>,
}

impl<'r> Reporter<'r> {
    /// A reporter that has printed nothing yet. It prints lines only if `is_wanted` is true.
    pub(crate) fn new(rt: &'r HostRuntime, is_wanted: bool) -> Reporter<'r>
        ensures wanted { result.is_wanted ≡ is_wanted }
        ensures last_line { result.last_line ≡ None }
    {
        Reporter {
            rt,
            is_wanted,
            last_line: None,
        }
    }

    /// Whether a line is due at that time: the first one, and any other as soon as a second has
    /// passed since the last. If so, it counts as the last one printed.
    fn is_due_at(&mut self, now: Instant) -> bool
        ensures { IsPaced self.old.last_line self.new.last_line now result }
    {
        if let Some(last) = self.last_line
            && now.duration_since(last).as_secs() < PAUSE
        {
            return false;
        }
        self.last_line = Some(now);
        true
    }

    /// Whether a line is due now, and wanted. None is while the clock cannot be read.
    fn is_due(&mut self) -> bool {
        if !self.is_wanted {
            return false;
        }
        match Instant::now(self.rt) {
            Ok(now) => self.is_due_at(now),
            Err(_) => false,
        }
    }
}

impl Progress for Reporter<'_> {
    fn trying(&mut self, seed: u64) {
        if self.is_due() {
            let _ = eprintln!(self.rt; "trying seed {seed}");
        }
    }

    fn drawn(&mut self, seed: u64, edges: u64) {
        if self.is_due() {
            let _ = eprintln!(self.rt; "trying seed {seed}, {edges} edges so far");
        }
    }
}

impl OrderProgress for Reporter<'_> {
    fn lengthening(&mut self, length: usize, edges: usize, beginnings: usize) {
        if self.is_due() {
            let _ = eprintln!(self.rt;
                "trying length {length} of {edges}, beginnings {beginnings}"
            );
        }
    }
}

impl StoryProgress for Reporter<'_> {
    fn leaving_out(&mut self, size: usize, end: usize, edges: usize) {
        if self.is_due() {
            let _ = eprintln!(self.rt; "trying stretches of {size}, at edge {end} of {edges}");
        }
    }
}
