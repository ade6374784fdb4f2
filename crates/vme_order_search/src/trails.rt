//! How the beginnings that are kept came about.
ghost use Rattle.std.specs.Prelude.{◌≡◌, ◌<◌, ◌∷◌, [], ℕ, List, IfErr, IfOk, OnOk, reverse};
ghost use Rattle.vme_order_search.specs.Trails.{Ends, IsTrail};
ghost use Rattle.vme_order_search.specs.Places.{number_limit};

use crate::OrderFault;
use std::alloc::Global;

/// The last place of a beginning, and where its front ends.
#[derive(Clone, Copy)]
struct Step {
    front: u32,
    place: u32,
}

/// Beginnings, each by its last step: the first ends nowhere, and each later one in a place.
#[derive(Drop)]
pub(crate) struct Trail {
    steps: Vec<Step>,
}

impl Trail {
    /// The empty beginning alone, which ends at 0.
    pub(crate) fn new(alloc: Global) -> Result<Trail, OrderFault>
        ensures trail { IfOk result IsTrail }
        ensures empty { IfOk result (λ trail. Ends trail 0 []) }
        ensures fault { IfErr result (λ fault. fault ≡ OrderFault.NoMemory) }
    {
        let mut steps = Vec::new(alloc);
        match steps.push(Step { front: 0, place: 0 }) {
            Ok(()) => Ok(Trail { steps }),
            Err(_) => Err(OrderFault::NoMemory),
        }
    }

    /// Goes on with a place from where a beginning ends.
    pub(crate) fn push(&mut self, front: u32, place: usize) -> Result<u32, OrderFault>
        requires trail { IsTrail self.old }
        requires within { place < number_limit }
        ensures trail { OnOk result (IsTrail self.new) }
        ensures kept { OnOk result ((step : ℕ) (path : List ℕ) → Ends self.old step path
            → Ends self.new step path) }
        ensures ends { IfOk result (λ step. (path : List ℕ) → Ends self.old front path
            → Ends self.new step (place ∷ path)) }
        ensures fault { IfErr result (λ fault. fault ≡ OrderFault.NoMemory) }
    {
        let step = self.steps.len();
        if step > u32::MAX as usize || front as usize >= step {
            return Err(OrderFault::NoMemory);
        }
        let place = place as u32;
        match self.steps.push(Step { front, place }) {
            Ok(()) => Ok(step as u32),
            Err(_) => Err(OrderFault::NoMemory),
        }
    }

    /// How many steps it has.
    #[inline(always)]
    pub(crate) fn len(&self) -> usize {
        self.steps.len()
    }

    /// The beginning that ends there, the newest place first.
    fn newest_first(&self, alloc: Global, step: u32) -> Result<Vec<u32>, OrderFault>
        requires { IsTrail self.now }
        ensures path { IfOk result (λ places. (path : List ℕ) → Ends self.now step path
            → places.items ≡ path) }
        ensures fault { IfErr result (λ fault. fault ≡ OrderFault.NoMemory) }
    {
        let mut places = Vec::new(alloc);
        let mut at = step;
        'steps: while at > 0 && (at as usize) < self.steps.len() {
            let made = self.steps[at as usize];
            match places.push(made.place) {
                Ok(()) => {}
                Err(_) => return Err(OrderFault::NoMemory),
            }
            at = made.front;
        }
        Ok(places)
    }

    /// The beginning that ends there.
    pub(crate) fn beginning(&self, alloc: Global, step: u32) -> Result<Vec<u32>, OrderFault>
        requires { IsTrail self.now }
        ensures path { IfOk result (λ places. (path : List ℕ) → Ends self.now step path
            → reverse places.items ≡ path) }
        ensures fault { IfErr result (λ fault. fault ≡ OrderFault.NoMemory) }
    {
        let mut places = self.newest_first(alloc, step)?;
        places.reverse();
        Ok(places)
    }

    /// The beginning that ends there without any other, and where it ends then.
    pub(crate) fn alone(&self, alloc: Global, step: u32) -> Result<(Trail, u32), OrderFault>
        requires { IsTrail self.now }
        ensures trail { IfOk result (λ alone. IsTrail alone.0) }
        ensures ends { IfOk result (λ alone. (path : List ℕ) → Ends self.now step path
            → Ends alone.0 alone.1 path) }
        ensures fault { IfErr result (λ fault. fault ≡ OrderFault.NoMemory) }
    {
        let places = self.beginning(alloc, step)?;
        let mut trail = Trail::new(alloc)?;
        let mut at = 0;
        for place in &places {
            at = trail.push(at, *place as usize)?;
        }
        Ok((trail, at))
    }
}
