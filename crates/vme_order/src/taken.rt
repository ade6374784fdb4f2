//! Which places were taken.
ghost use Rattle.std.specs.Prelude.{◌≡◌, ◌==◌, ◌||◌, ◌&&◌, ◌+◌, ◌<◌, ◌≤◌, ℕ, not, true, false, length, slice_index_or, IfOk, IfErr};
ghost use Rattle.vme_order.specs.Places.{IsCounted, holds};

use crate::{OrderFault, WINDOW};
use std::alloc::Global;

/// The places that were taken, of so many.
#[derive(Drop)]
pub(crate) struct Taken {
    flags: Vec<bool>,
    /// The least that was not; behind the last where all were.
    least: usize,
}

impl Taken {
    /// None of so many.
    pub(crate) fn new(alloc: Global, places: usize) -> Result<Taken, OrderFault>
        ensures counted { IfOk result IsCounted }
        ensures room { IfOk result (λ taken. length taken.flags.items ≡ places) }
        ensures none { IfOk result (λ taken. (i : ℕ) → holds taken i ≡ false) }
        ensures fault { IfErr result (λ fault. fault ≡ OrderFault.NoMemory) }
    {
        let mut flags = Vec::new(alloc);
        match flags.resize(places, false) {
            Ok(()) => Ok(Taken { flags, least: 0 }),
            Err(_) => Err(OrderFault::NoMemory),
        }
    }

    /// The least that was not taken.
    #[inline(always)]
    pub(crate) fn least(&self) -> usize
        ensures { result ≡ self.now.least }
    {
        self.least
    }

    /// Whether a place was taken.
    #[inline(always)]
    pub(crate) fn has(&self, place: usize) -> bool
        ensures { result ≡ holds self.now place }
    {
        place < self.flags.len() && self.flags[place]
    }

    /// Counts on where the least place was taken.
    fn count_on(&mut self)
        requires within { self.old.least ≤ length self.old.flags.items }
        requires below { (i : ℕ) → i < self.old.least → holds self.old i ≡ true }
        ensures counted { IsCounted self.new }
        ensures flags { self.new.flags.items ≡ self.old.flags.items }
    {
        'places: while self.has(self.least) {
            self.least += 1;
        }
    }

    /// Takes a place.
    pub(crate) fn take(&mut self, place: usize)
        requires counted { IsCounted self.old }
        requires within { place < length self.old.flags.items }
        ensures counted { IsCounted self.new }
        ensures room { length self.new.flags.items ≡ length self.old.flags.items }
        ensures taken { (i : ℕ) → holds self.new i ≡ (place == i || holds self.old i) }
    {
        self.flags[place] = true;
        self.count_on();
    }

    /// Gives a place back.
    pub(crate) fn give_back(&mut self, place: usize)
        requires counted { IsCounted self.old }
        requires within { place < length self.old.flags.items }
        ensures counted { IsCounted self.new }
        ensures room { length self.new.flags.items ≡ length self.old.flags.items }
        ensures given { (i : ℕ) → holds self.new i ≡ (not (place == i) && holds self.old i) }
    {
        self.flags[place] = false;
        self.least = self.least.min(place);
    }

    /// Which of the places from the least on were taken.
    pub(crate) fn window(&self) -> [bool; WINDOW]
        requires { IsCounted self.now }
        ensures { (k : ℕ) → k < 128
            → slice_index_or result k false ≡ holds self.now (self.now.least + k) }
    {
        let mut window = [false; WINDOW];
        let count = WINDOW.min(self.flags.len() - self.least);
        let flags = &self.flags.as_slice()[self.least..self.least + count];
        window[..count].copy_from_slice(flags);
        window
    }
}
