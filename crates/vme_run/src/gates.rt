//! When the boards of a run begin their turns.
ghost use Rattle.std.specs.Prelude.{◌≡◌, true};

use std::sync::atomic::{AtomicU32, Ordering};
use std::thread::yield_now;
use vme_lock::{Gate, OpenGate};
use vme_model::Driver;

/// How often a board that has begun lets others go first, until all have begun.
const YIELDS: u32 = 100_000;

/// A gate that is open as soon as all boards have begun, and then as `OpenGate` is.
///
/// A board that is alone has no edge to make, and would take all its turns before the next has begun. It does not wait
/// for ever: where a thread does not begin, the others go on.
#[derive(Drop)]
pub(crate) struct Together {
    begun: AtomicU32,
    boards: u32,
}

impl Together {
    /// Before any of so many boards has begun.
    pub(crate) fn new(boards: u32) -> Together {
        Together {
            begun: AtomicU32::new(0),
            boards,
        }
    }

    /// Waits until all boards have begun, but not for ever.
    fn wait(&self) {
        self.begun.fetch_add(1, Ordering::SeqCst);
        for _yield in 0..YIELDS {
            if self.begun.load(Ordering::SeqCst) >= self.boards {
                return;
            }
            yield_now();
        }
    }
}

impl Gate for Together {
    fn before(&self, _driver: Driver, turn: u32) -> bool
        ensures { result ≡ true }
    {
        if turn == 0 {
            self.wait();
        }
        true
    }

    fn after(&self, driver: Driver, turn: u32, accepted: bool) {
        OpenGate.after(driver, turn, accepted);
    }
}
