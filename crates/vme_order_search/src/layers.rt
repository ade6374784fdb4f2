//! The beginnings of one length that are kept, one of each kind.
ghost use Rattle.std.specs.Prelude.{◌≡◌, ◌<◌, ◌≤◌, ◌+◌, ◌++◌, ◌∷◌, [], ℕ, IfErr, IfOk, OnOk, false, length, true};
ghost use Rattle.std.specs.List.{slice_get};
ghost use Rattle.vme_order_search.specs.Layers.{Finds, IsTable, StandsAt, StandsBelow};
ghost use Rattle.vme_order_search.specs.Places.{bucket_count, bucket_of};
ghost use Rattle.vme_order_search.specs.declared.layers.Beginning.{Beginning as BeginningValue};

use crate::OrderFault;
use crate::taken::{BUCKETS, Taken};
use std::alloc::Global;
use vme_bus::BusKind;

/// A beginning: where it ends, its places, and what its edges lead to.
#[derive(Clone, Copy)]
pub(crate) struct Beginning {
    pub(crate) step: u32,
    pub(crate) taken: Taken,
    pub(crate) bus: BusKind,
}

/// What a layer has of a beginning.
#[derive(Clone, Copy, PartialEq, Eq)]
pub(crate) enum Match {
    /// One of its kind: with the same places, and with edges that lead to the same.
    Kind,
    /// One with the same places, and none of its kind.
    Places,
    /// None with the same places.
    Nothing,
}

/// The beginnings of one length that are kept, by bucket of their places.
#[derive(Drop)]
pub(crate) struct Layer {
    kept: Vec<Beginning>,
    /// For each bucket one more than where its last beginning stands. Of a bucket without any it
    /// says nothing.
    last: Vec<u32>,
    /// For each beginning one more than where the one of its bucket before it stands, or 0.
    before: Vec<u32>,
}

impl Layer {
    /// None.
    pub(crate) fn new(alloc: Global) -> Result<Layer, OrderFault>
        ensures table { IfOk result IsTable }
        ensures empty { IfOk result (λ layer. layer.kept.items ≡ []) }
        ensures fault { IfErr result (λ fault. fault ≡ OrderFault.NoMemory) }
    {
        let mut last = Vec::new(alloc);
        match last.resize(BUCKETS, 0) {
            Ok(()) => Ok(Layer {
                kept: Vec::new(alloc),
                last,
                before: Vec::new(alloc),
            }),
            Err(_) => Err(OrderFault::NoMemory),
        }
    }

    /// How many there are.
    #[inline(always)]
    pub(crate) fn len(&self) -> usize
        ensures { result ≡ length self.now.kept.items }
    {
        self.kept.len()
    }

    /// Whether there is none.
    #[inline(always)]
    pub(crate) fn is_empty(&self) -> bool
        ensures none { result ≡ true → self.now.kept.items ≡ [] }
        ensures some { result ≡ false → 0 < length self.now.kept.items }
    {
        self.kept.is_empty()
    }

    /// The one at a place.
    #[inline(always)]
    pub(crate) fn get(&self, index: usize) -> Beginning
        requires { index < length self.now.kept.items }
        ensures { slice_get self.now.kept.items index ≡ Some result }
    {
        self.kept[index]
    }

    /// Forgets all.
    pub(crate) fn clear(&mut self)
        requires { IsTable self.old }
        ensures table { IsTable self.new }
        ensures empty { self.new.kept.items ≡ [] }
    {
        self.kept.clear();
        self.before.clear();
    }

    /// One more than where the last beginning of a bucket stands, or 0.
    #[inline(always)]
    fn last_of(&self, bucket: usize) -> u32
        requires table { IsTable self.now }
        requires within { bucket < bucket_count }
        ensures few { result ≤ length self.now.kept.items }
        ensures all { (i : ℕ) (b : BeginningValue) → StandsAt self.now i b
            → bucket_of b.taken ≡ bucket → i < result }
        ensures ends { 0 < result → StandsBelow self.now bucket result }
    {
        let last = self.last[bucket];
        if last > 0
            && (last as usize) <= self.kept.len()
            && self.kept[last as usize - 1].taken.bucket() == bucket
        {
            last
        } else {
            0
        }
    }

    /// What it has of a beginning with these places, whose edges lead to that.
    pub(crate) fn find(&self, taken: &Taken, bus: &BusKind) -> Match
        requires { IsTable self.now }
        ensures { Finds self.now taken.now bus.now result }
    {
        let mut found = Match::Nothing;
        let mut at = self.last_of(taken.bucket());
        'bucket: while at > 0 {
            let beginning = &self.kept[at as usize - 1];
            if beginning.taken == *taken {
                if beginning.bus == *bus {
                    return Match::Kind;
                }
                found = Match::Places;
            }
            at = self.before[at as usize - 1];
        }
        found
    }

    /// Keeps one more.
    pub(crate) fn push(&mut self, beginning: Beginning) -> Result<(), OrderFault>
        requires { IsTable self.old }
        ensures table { OnOk result (IsTable self.new) }
        ensures kept { OnOk result (self.new.kept.items ≡ self.old.kept.items ++ beginning ∷ []) }
        ensures fault { IfErr result (λ fault. fault ≡ OrderFault.NoMemory) }
    {
        let count = self.kept.len();
        if count >= u32::MAX as usize {
            return Err(OrderFault::NoMemory);
        }
        let bucket = beginning.taken.bucket();
        let before = self.last_of(bucket);
        match self.before.push(before) {
            Ok(()) => {}
            Err(_) => return Err(OrderFault::NoMemory),
        }
        match self.kept.push(beginning) {
            Ok(()) => {}
            Err(_) => return Err(OrderFault::NoMemory),
        }
        self.last[bucket] = count as u32 + 1;
        Ok(())
    }
}
