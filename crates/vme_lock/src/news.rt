//! What workers announce to each other outside the lock, so that a worker that has nothing to do
//! need not take the lock.
//!
//! No clause speaks of what is announced, since no proof follows a value through an atomic. If a
//! worker does not ask, all that it knows is from its last look.
ghost use Rattle.std.specs.Prelude.{◌≡◌, ◌<◌, ◌≤◌, ◌+◌, ◌-◌, ◌^◌, ◌↔◌, ◌==◌, IsTrue, min};

use crate::held::Held;
use crate::seats::Rig;
use std::sync::atomic::{AtomicBool, AtomicU32, Ordering};
use std::sync::{Condvar, Wait};
use std::thread::yield_now;
use std::time::Duration;

/// A worker that waits yields once in this many turns, not in each: a yield takes longer than such
/// a turn.
const TURNS_TO_A_YIELD: u32 = 24;

/// After this many turns, in three of which it yields, a worker that waits sleeps.
const TURNS_TO_A_NAP: u32 = 72;

/// It sleeps in this many turns, and then yields as before, since what it waits for may never come.
const NAPS: u32 = 100;

/// The longest sleep in a turn, in milliseconds.
const NAP_MILLIS: u64 = 1;

/// What was announced.
#[derive(Drop)]
pub(crate) struct News {
    /// How many edges the history has. It is written only under the lock, in the hold that makes an
    /// edge.
    edges: AtomicU32,
    /// Notified at each edge, and at the end of each worker.
    changed: Condvar,
    has_ended: AtomicBool,
}

impl News {
    /// The news of a history with `edges` edges.
    pub(crate) fn new(edges: u32) -> News {
        News {
            edges: AtomicU32::new(edges),
            changed: Condvar::new(),
            has_ended: AtomicBool::new(false),
        }
    }

    /// How many edges the history had after the last hold that made one.
    #[inline(always)]
    pub(crate) fn edges(&self) -> u32 {
        self.edges.load(Ordering::SeqCst)
    }

    /// Announces how many edges the history has. It takes what lies under the lock, so it can only
    /// be called in a hold, and it is called in that which made the last edge. So a later hold
    /// never shows fewer edges than were announced, and whoever reads the number after a hold finds
    /// the edge of that hold too.
    #[inline(always)]
    pub(crate) fn post_edges<L: Rig>(&self, held: &Held<'_, L>) {
        self.edges.store(held.backplane.len(), Ordering::SeqCst);
    }

    /// Wakes the workers that sleep. It is called when the lock is free again, so that a worker
    /// that wakes need not wait for it.
    #[inline(always)]
    pub(crate) fn wake(&self) {
        self.changed.notify_all();
    }

    /// Announces that a worker has ended.
    pub(crate) fn post_end(&self) {
        self.has_ended.store(true, Ordering::SeqCst);
        self.changed.notify_all();
    }
}

/// A worker that waits for an edge of another.
#[derive(Clone, Copy)]
pub(crate) struct Idle {
    /// How many edges its last look found in the history.
    seen: u32,
    /// How many turns it has waited.
    turns: u32,
}

impl Idle {
    /// A worker before its first turn of waiting, after a look that found `seen` edges.
    pub(crate) fn since(seen: u32) -> Idle
        ensures { result ≡ record { seen = seen; turns = 0 } }
    {
        Idle { seen, turns: 0 }
    }

    /// Whether there are still as many edges as the worker's last look found.
    #[inline(always)]
    pub(crate) fn is_still(&self, edges: u32) -> bool
        ensures { result ≡ (self.now.seen == edges) }
    {
        self.seen == edges
    }

    /// Waits for a turn. In a long wait the worker sleeps, so that its turns are not used up before
    /// the driver for which it waits has a processor again; nothing ensures that they suffice. If a
    /// worker has ended, that may be the driver, and nobody sleeps any more.
    pub(crate) fn wait<R: Wait>(&mut self, rt: &R, news: &News)
        ensures { self.new ≡ record {
          seen = self.old.seen;
          turns = min (self.old.turns + 1) (2 ^ 32 - 1);
        } }
    {
        self.turns = self.turns.saturating_add(1);
        if self.is_nap() && !news.has_ended.load(Ordering::SeqCst) {
            // This is read before the edges are, so that what is announced between the two ends the
            // sleep.
            let waiting = news.changed.notifications();
            if self.is_still(news.edges()) {
                let nap = Duration::from_millis(NAP_MILLIS);
                news.changed.sleep(rt, waiting, nap);
            }
        } else if self.turns % TURNS_TO_A_YIELD == 0 {
            yield_now();
        }
    }

    /// Whether the worker sleeps in this turn: from the 73rd to the 172nd.
    fn is_nap(&self) -> bool
        ensures { IsTrue result ↔ ((72 < self.now.turns) × (self.now.turns ≤ 172)) }
    {
        self.turns > TURNS_TO_A_NAP && self.turns - TURNS_TO_A_NAP <= NAPS
    }
}
