//! Room for edges.
ghost use Rattle.std.specs.Prelude.{◌≡◌, ◌+◌, ◌*◌, ◌≤◌, ◌⊎◌, [], IfOk, IfErr, None, Some, if◌then◌else◌, nat_lt, vec_capacity, vec_len};
ghost use Rattle.vme_arena.specs.Stretch.{rounded};
ghost use Rattle.vme_arena.specs.Words.{rest_left};
ghost use Rattle.vme_model.specs.Report.{trace_limit};
ghost use Rattle.vme_store.specs.Pages.{pages_for};
ghost use Rattle.vme_store.specs.Refusals.{refusal};

use std::alloc::Global;
use std::marker::Model;
use vme_arena::{Lease, Rest};
use vme_model::Edge;
use vme_store::{Store, TraceError};

/// Room for a number of edges, which a contract sees as that number.
///
/// It stands in pages on leases of the arena, and beside them is the list that verdicts look back through.
#[derive(Drop)]
pub struct Trace<'r> {
    edges: Vec<Edge>,
    pages: vme_store::Trace<'r>,
}

impl<'r> Model for Trace<'r> {
    ghost use Rattle.std.specs.Prelude.{◌≡◌, ◌≤◌, ℕ, [], vec_capacity};

    ghost Value = { ℕ };

    ghost view = { λ t. t.pages };

    ghost invariant = { λ t. (t.edges.items ≡ []) × (t.pages ≤ vec_capacity t.edges) };
}

impl<'r> Trace<'r> {
    /// How many pages, and so leases, a trace of `max` edges needs: 0 to 16.
    pub fn pages(max: u32) -> u32
        requires { max ≤ trace_limit }
        ensures { result ≡ pages_for max }
    {
        vme_store::Trace::pages(max)
    }

    /// How many bytes the lease of a page for `max` edges needs, and a region for a trace of so many.
    pub fn bytes(max: u32) -> usize
        requires { max ≤ trace_limit }
        ensures { result ≡ rounded (4 * max) }
    {
        vme_store::Trace::bytes(max)
    }

    /// Reserves room for `max` edges, 0 to 1,048,576, with a page on each lease. No later step asks for memory.
    pub fn new(alloc: Global, leases: Vec<Lease<'r>>, max: u32) -> Result<Trace<'r>, TraceError>
        ensures made { IfOk result (λ t. t ≡ max) }
        ensures fits { IfOk result (λ t. refusal max (vec_len leases.entry) ≡ None) }
        ensures refused { IfErr result (λ e. (refusal max (vec_len leases.entry) ≡ Some e) ⊎ (refusal max (vec_len leases.entry) ≡ None) × (e ≡ TraceError.NoRoom)) }
    {
        with_list(alloc, vme_store::Trace::new(alloc, leases, max)?)
    }

    /// The same on leases that are carved from the front of a rest.
    pub fn on(alloc: Global, rest: &mut Rest<'r>, max: u32) -> Result<Trace<'r>, TraceError>
        ensures made { IfOk result (λ t. t ≡ max) }
        ensures fits { IfOk result (λ t. max ≤ trace_limit) }
        ensures carved { IfOk result (λ t. rest_left rest.new + rounded (4 * max) ≡ rest_left rest.old) }
        ensures refused { IfErr result (λ e. e ≡ (if nat_lt trace_limit max then TraceError.TooMany else TraceError.NoRoom)) }
    {
        with_list(alloc, vme_store::Trace::on(alloc, rest, max)?)
    }

    /// How many edges fit.
    pub fn max(&self) -> u32
        ensures { result ≡ self.now }
    {
        self.pages.max()
    }

    /// The empty list, and the store.
    pub(crate) fn into_parts(self) -> (Vec<Edge>, Store<'r>)
        ensures list { (result.0.items ≡ []) × (self.entry ≤ vec_capacity result.0) }
        ensures store { result.1 ≡ record { history = []; max = self.entry } }
    {
        (self.edges, Store::new(self.pages))
    }
}

/// The trace with a list as long.
fn with_list<'r>(alloc: Global, pages: vme_store::Trace<'r>) -> Result<Trace<'r>, TraceError>
    ensures made { IfOk result (λ t. t ≡ pages.entry) }
    ensures refused { IfErr result (λ e. e ≡ TraceError.NoRoom) }
{
    match Vec::with_capacity(alloc, pages.max() as usize) {
        Ok(edges) => Ok(Trace { edges, pages }),
        Err(_) => Err(TraceError::NoRoom),
    }
}
