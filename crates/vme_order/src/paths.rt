//! A beginning, and the states that its edges lead to.
ghost use Rattle.std.specs.Prelude.{ℕ, ◌≡◌, ◌^◌, ◌<◌, ◌≤◌, ◌++◌, ◌∷◌, [], length, IfErr, IfOk, MatchOption, OnOk, reverse};
ghost use Rattle.vme_model.specs.Report.{trace_limit};
ghost use Rattle.vme_order.specs.Searching.{IsLegalIn, IsPathIn, IsRoute, LeadsTo, Task, newest_first};

use crate::OrderFault;
use std::alloc::Global;
use vme_bus::BusState;
use vme_moments::Seen;

/// After how many edges a state is kept each time.
const STRETCH: usize = 64;

/// A beginning that grows and shrinks at its end.
#[derive(Drop)]
pub(crate) struct Path {
    places: Vec<u32>,
    /// What its edges lead to.
    state: BusState,
    /// What its first 0, 64, 128 .. edges lead to.
    kept: Vec<BusState>,
}

impl Path {
    /// The one without an edge.
    pub(crate) fn new(alloc: Global, state: BusState) -> Result<Path, OrderFault>
        ensures route { (n : ℕ) → IfOk result (IsRoute n) }
        ensures path { (t : Task) → LeadsTo t [] state → IfOk result (IsPathIn t) }
        ensures empty { IfOk result (λ path. path.places.items ≡ []) }
        ensures fault { IfErr result (λ fault. fault ≡ OrderFault.NoMemory) }
    {
        let mut kept = Vec::new(alloc);
        match kept.push(state) {
            Ok(()) => Ok(Path {
                places: Vec::new(alloc),
                state,
                kept,
            }),
            Err(_) => Err(OrderFault::NoMemory),
        }
    }

    /// Its places, in order.
    pub(crate) fn places(&self) -> &[u32]
        ensures { result.now ≡ self.now.places.items }
    {
        self.places.as_slice()
    }

    /// What its edges lead to.
    #[inline(always)]
    pub(crate) fn state(&self) -> &BusState
        ensures { result.now ≡ self.now.state }
    {
        &self.state
    }

    /// Adds a place, whose edge leads to this state.
    pub(crate) fn push(&mut self, place: usize, state: BusState) -> Result<(), OrderFault>
        requires { place < trace_limit }
        ensures route { (n : ℕ) → IsRoute n self.old → place < n → OnOk result (IsRoute n self.new) }
        ensures path { (t : Task) → IsPathIn t self.old → place < length t.seen
            → LeadsTo t (place ∷ newest_first self.old) state → OnOk result (IsPathIn t self.new) }
        ensures places { OnOk result
            (self.new.places.items ≡ self.old.places.items ++ place ∷ []) }
        ensures state { OnOk result (self.new.state ≡ state) }
        ensures fault { IfErr result (λ fault. fault ≡ OrderFault.NoMemory) }
    {
        if self.places.push(place as u32).is_err() {
            return Err(OrderFault::NoMemory);
        }
        self.state = state;
        if self.places.len() % STRETCH == 0 && self.kept.push(state).is_err() {
            return Err(OrderFault::NoMemory);
        }
        Ok(())
    }

    /// Takes the last place away, if there is one.
    pub(crate) fn pop(&mut self, seen: &[Seen]) -> Option<usize>
        requires { IsRoute (length seen.now) self.old }
        ensures route { IsRoute (length seen.now) self.new }
        ensures path { (t : Task) → t.seen ≡ seen.now → IsPathIn t self.old
            → IsLegalIn t (newest_first self.old) → IsPathIn t self.new }
        ensures places { MatchOption result (self.old.places.items ≡ [])
            (λ place. self.old.places.items ≡ self.new.places.items ++ place ∷ []) }
    {
        let place = self.places.pop()?;
        let stretches = self.places.len() / STRETCH;
        self.kept.truncate(stretches + 1);
        let mut state = self.kept[stretches];
        for made in &self.places.as_slice()[stretches * STRETCH..] {
            let _ = state.step(seen[*made as usize].edge);
        }
        self.state = state;
        Some(place as usize)
    }
}
