//! Gates that make the threads of boards wait for one another, that make edges, and that count.
ghost use Rattle.std.specs.Prelude.{⊤};

use crate::boards::{FIRST, SECOND, fall};
use std::hint::spin_loop;
use std::sync::atomic::{AtomicBool, AtomicU32, Ordering};
use std::sync::{Condvar, Mutex, Wait};
use std::time::Duration;
use vme_lock::{Gate, Rig, Seat, Shared};
use vme_model::{Driver, Wire};

/// How often a gate looks at a flag before it gives up.
const LOOKS: u32 = 200_000_000;

/// Waits for a flag, and returns whether it was raised.
fn comes_up(flag: &AtomicBool) -> bool {
    for _look in 0..LOOKS {
        if flag.load(Ordering::SeqCst) {
            return true;
        }
        spin_loop();
    }
    false
}

/// A gate at which each driver waits once before a turn: slot 1 for an edge of slot 2, and each
/// other driver for both other drivers. After that edge slot 2 waits for one of slot 1.
#[derive(Drop)]
pub struct Together {
    controller: AtomicBool,
    first: AtomicBool,
    second: AtomicBool,
    edge: AtomicBool,
    answer: AtomicBool,
    ran_out: AtomicBool,
}

impl Together {
    pub fn new() -> Together {
        Together {
            controller: AtomicBool::new(false),
            first: AtomicBool::new(false),
            second: AtomicBool::new(false),
            edge: AtomicBool::new(false),
            answer: AtomicBool::new(false),
            ran_out: AtomicBool::new(false),
        }
    }

    /// Whether some driver waited in vain.
    pub fn ran_out(&self) -> bool {
        self.ran_out.load(Ordering::SeqCst)
    }

    fn wait_for(&self, flag: &AtomicBool) {
        if !comes_up(flag) {
            self.ran_out.store(true, Ordering::SeqCst);
        }
    }
}

impl Gate for Together {
    ghost answers = { λ gate driver turn answer. ⊤ };

    fn before(&self, driver: Driver, turn: u32) -> bool {
        match (driver, turn) {
            (Driver::Controller, 0) => {
                self.controller.store(true, Ordering::SeqCst);
                self.wait_for(&self.first);
                self.wait_for(&self.second);
            }
            (FIRST, 0) => {
                self.first.store(true, Ordering::SeqCst);
                self.wait_for(&self.edge);
            }
            (_, 0) => {
                self.second.store(true, Ordering::SeqCst);
                self.wait_for(&self.controller);
                self.wait_for(&self.first);
            }
            _ => {}
        }
        true
    }

    fn after(&self, driver: Driver, turn: u32, accepted: bool) {
        match (driver, turn, accepted) {
            (FIRST, 0, true) => self.answer.store(true, Ordering::SeqCst),
            (SECOND, 0, true) => {
                self.edge.store(true, Ordering::SeqCst);
                self.wait_for(&self.answer);
            }
            _ => {}
        }
    }
}

/// A gate that lets slot 1 take no further turn after a given number of accepted edges.
#[derive(Drop)]
pub struct Stops {
    after: u32,
    accepted: AtomicU32,
}

impl Stops {
    pub fn new(after: u32) -> Stops {
        Stops {
            after,
            accepted: AtomicU32::new(0),
        }
    }
}

impl Gate for Stops {
    ghost answers = { λ gate driver turn answer. ⊤ };

    fn before(&self, driver: Driver, _turn: u32) -> bool {
        driver != FIRST || self.accepted.load(Ordering::SeqCst) < self.after
    }

    fn after(&self, driver: Driver, _turn: u32, accepted: bool) {
        if accepted && driver == FIRST {
            self.accepted.fetch_add(1, Ordering::SeqCst);
        }
    }
}

/// A gate at which the controller waits for an edge of a board.
#[derive(Drop)]
pub struct Asked {
    edge: AtomicBool,
}

impl Asked {
    pub fn new() -> Asked {
        Asked {
            edge: AtomicBool::new(false),
        }
    }
}

impl Gate for Asked {
    ghost answers = { λ gate driver turn answer. ⊤ };

    fn before(&self, driver: Driver, _turn: u32) -> bool {
        driver != Driver::Controller || comes_up(&self.edge)
    }

    fn after(&self, _driver: Driver, _turn: u32, accepted: bool) {
        if accepted {
            self.edge.store(true, Ordering::SeqCst);
        }
    }
}

/// A gate that counts the calls after a turn.
#[derive(Drop)]
pub struct Counts {
    open: bool,
    after: AtomicU32,
    accepted: AtomicU32,
}

impl Counts {
    pub fn new(open: bool) -> Counts {
        Counts {
            open,
            after: AtomicU32::new(0),
            accepted: AtomicU32::new(0),
        }
    }

    /// How often it was called after a turn.
    pub fn calls(&self) -> u32 {
        self.after.load(Ordering::SeqCst)
    }

    /// How often it was called for an accepted edge.
    pub fn accepted(&self) -> u32 {
        self.accepted.load(Ordering::SeqCst)
    }
}

impl Gate for Counts {
    ghost answers = { λ gate driver turn answer. ⊤ };

    fn before(&self, _driver: Driver, _turn: u32) -> bool {
        self.open
    }

    fn after(&self, _driver: Driver, _turn: u32, accepted: bool) {
        self.after.fetch_add(1, Ordering::SeqCst);
        if accepted {
            self.accepted.fetch_add(1, Ordering::SeqCst);
        }
    }
}

/// A gate that tries the lock after each turn, by a look of slot 1, and makes slot 1's request
/// after one of them.
#[derive(Drop)]
pub struct Requests<'s, 'r, L: Rig, R: Wait> {
    pub rt: &'s R,
    pub shared: &'s Shared<'r, L>,
    pub first: Mutex<Seat<L>>,
    pub after: u32,
}

impl<'s, 'r, L: Rig, R: Wait> Gate for Requests<'s, 'r, L, R> {
    ghost answers = { λ gate driver turn answer. ⊤ };

    fn before(&self, _driver: Driver, _turn: u32) -> bool {
        true
    }

    fn after(&self, _driver: Driver, turn: u32, _accepted: bool) {
        let mut first = self.first.lock(self.rt);
        if turn == self.after {
            let _ = self
                .shared
                .edge(self.rt, &mut *first, fall(FIRST, Wire::Br));
        } else {
            let _ = self.shared.look(self.rt, &*first);
        }
    }
}

/// A gate at which slot 1 naps before its first turn, one millisecond each time, until the
/// controller's last turn is over. Then slot 1 takes no turn.
#[derive(Drop)]
pub struct Naps<'s, R: Wait> {
    rt: &'s R,
    /// The controller's turns.
    turns: u32,
    /// How often slot 1 naps at most.
    most: u32,
    is_over: AtomicBool,
    nobody: Condvar,
    ran_out: AtomicBool,
}

impl<'s, R: Wait> Naps<'s, R> {
    pub fn new(rt: &'s R, turns: u32, most: u32) -> Naps<'s, R> {
        Naps {
            rt,
            turns,
            most,
            is_over: AtomicBool::new(false),
            nobody: Condvar::new(),
            ran_out: AtomicBool::new(false),
        }
    }

    /// Whether slot 1 napped in vain.
    pub fn ran_out(&self) -> bool {
        self.ran_out.load(Ordering::SeqCst)
    }

    fn nap_till_over(&self) {
        for _nap in 0..self.most {
            if self.is_over.load(Ordering::SeqCst) {
                return;
            }
            self.nobody.sleep(self.rt, 0, Duration::from_millis(1));
        }
        self.ran_out.store(true, Ordering::SeqCst);
    }
}

impl<'s, R: Wait> Gate for Naps<'s, R> {
    ghost answers = { λ gate driver turn answer. ⊤ };

    fn before(&self, driver: Driver, _turn: u32) -> bool {
        if driver == FIRST {
            self.nap_till_over();
            return false;
        }
        true
    }

    fn after(&self, driver: Driver, turn: u32, _accepted: bool) {
        if driver == Driver::Controller && turn.saturating_add(1) == self.turns {
            self.is_over.store(true, Ordering::SeqCst);
        }
    }
}
