//! Room for edges.
ghost use Rattle.std.specs.Prelude.{◌≡◌, ◌<◌, ◌≤◌, ◌+◌, ◌-◌, ◌*◌, ◌⊎◌, IfOk, IfErr, None, Some, if◌then◌else◌, nat_lt, vec_len, min};
ghost use Rattle.vme_arena.specs.Stretch.{rounded};
ghost use Rattle.vme_arena.specs.Words.{rest_left};
ghost use Rattle.vme_model.specs.Report.{trace_limit};
ghost use Rattle.vme_store.specs.Pages.{page_size, pages_for, ArePages};
ghost use Rattle.vme_store.specs.Refusals.{refusal};

use crate::pages::Page;
use std::alloc::{AllocError, Global};
use std::marker::Model;
use thiserror::Error;
use vme_arena::{Lease, Rest};
use vme_model::TRACE_LIMIT;

/// How many edges a full page holds.
pub(crate) const PAGE: u32 = 65_536;

/// Why a trace could not be made.
#[derive(Clone, Copy, PartialEq, Eq, Debug, Error)]
pub enum TraceError {
    /// K1: there are more edges than a trace can hold, 1,048,576.
    #[error("K1 too many edges")]
    TooMany,
    /// K2: there was no memory for the list of pages, or a lease was too short for its page.
    #[error("K2 no room")]
    NoRoom,
    /// K3: a trace needs exactly one lease for each of its pages.
    #[error("K3 {need} leases needed, {given} given")]
    WrongLeases { need: u32, given: usize },
}

/// Room for a number of edges. A contract sees it as that number.
///
/// It stands in pages, each on a lease of its own, with 65,536 edges a page. There are as many
/// pages as are needed, and all of them are full except the last.
#[derive(Drop)]
pub struct Trace<'r> {
    pages: Vec<Page<'r>>,
    max: u32,
}

impl<'r> Model for Trace<'r> {
    ghost use Rattle.std.specs.Prelude.{◌≤◌, ℕ};
    ghost use Rattle.vme_model.specs.Report.{trace_limit};
    ghost use Rattle.vme_store.specs.Pages.{ArePages};

    ghost Value = { ℕ };

    ghost view = { λ t. t.max };

    ghost invariant = { λ t. ArePages t.max 0 t.pages.items × (t.max ≤ trace_limit) };
}

impl<'r> Trace<'r> {
    /// How many pages, and so leases, a trace of `max` edges needs: 0 to 16. `max` is at most
    /// 1,048,576.
    pub fn pages(max: u32) -> u32
        requires { max ≤ trace_limit }
        ensures { result ≡ pages_for max }
    {
        max.div_ceil(PAGE)
    }

    /// How many edges a page of a trace of `max` edges holds: the lesser of 65,536 and what is
    /// left. Pages are counted from 0.
    pub fn page_max(max: u32, page: u32) -> u32
        requires limit { max ≤ trace_limit }
        requires page { page < pages_for max }
        ensures { result ≡ min (max - page_size * page) page_size }
    {
        PAGE.min(max - PAGE * page)
    }

    /// How many bytes the lease of a page for `max` edges needs: four for each edge, rounded up to
    /// a multiple of 16.
    pub fn bytes(max: u32) -> usize
        requires { max ≤ trace_limit }
        ensures { result ≡ rounded (4 * max) }
    {
        (max as usize * 4).next_multiple_of(16)
    }

    /// Reserves room for `max` edges, 0 to 1,048,576, with a page on each lease in turn. No later
    /// step asks for memory. Page `p`, counted from 0, holds the lesser of 65,536 and
    /// `max - 65,536 * p` edges.
    ///
    /// # Errors
    /// `TooMany` if `max` is greater than 1,048,576; otherwise `WrongLeases` if there are more or
    /// fewer leases than pages; otherwise `NoRoom` if memory runs out or a lease is too short.
    pub fn new(alloc: Global, leases: Vec<Lease<'r>>, max: u32) -> Result<Trace<'r>, TraceError>
        ensures made { IfOk result (λ t. t ≡ max) }
        ensures fits { IfOk result (λ t. refusal max (vec_len leases.entry) ≡ None) }
        ensures refused { IfErr result (λ e. (refusal max (vec_len leases.entry) ≡ Some e)
            ⊎ (refusal max (vec_len leases.entry) ≡ None) × (e ≡ TraceError.NoRoom)) }
    {
        if max > TRACE_LIMIT {
            return Err(TraceError::TooMany);
        }
        let (need, given) = (Trace::pages(max), leases.len());
        if given != need as usize {
            return Err(TraceError::WrongLeases { need, given });
        }
        let Ok(pages) = reserved(alloc, leases, max) else {
            return Err(TraceError::NoRoom);
        };
        Ok(Trace { pages, max })
    }

    /// Reserves room for `max` edges, 0 to 1,048,576, on leases that it carves from the front of a
    /// rest. They take `Trace::bytes(max)` bytes of the rest.
    ///
    /// # Errors
    /// `TooMany` if `max` is greater than 1,048,576; otherwise `NoRoom` if memory runs out or the
    /// rest is too short.
    pub fn on(alloc: Global, rest: &mut Rest<'r>, max: u32) -> Result<Trace<'r>, TraceError>
        ensures made { IfOk result (λ t. t ≡ max) }
        ensures fits { IfOk result (λ t. max ≤ trace_limit) }
        ensures carved { IfOk result (λ t.
            rest_left rest.new + rounded (4 * max) ≡ rest_left rest.old) }
        ensures refused { IfErr result (λ e.
            e ≡ (if nat_lt trace_limit max then TraceError.TooMany else TraceError.NoRoom)) }
    {
        if TRACE_LIMIT < max {
            return Err(TraceError::TooMany);
        }
        match carved(alloc, rest, max) {
            Ok(leases) => Trace::new(alloc, leases, max),
            Err(_) => Err(TraceError::NoRoom),
        }
    }

    /// How many edges fit, 0 to 1,048,576.
    pub fn max(&self) -> u32
        ensures { result ≡ self.now }
    {
        self.max
    }

    /// The pages of the trace, all empty.
    pub(crate) fn into_pages(self) -> Vec<Page<'r>>
        ensures pages { ArePages self.entry 0 result.items }
        ensures bounded { self.entry ≤ trace_limit }
    {
        self.pages
    }
}

/// A lease for each page, in the order of the pages.
///
/// # Errors
/// `AllocError` if memory runs out or the rest is too short.
fn carved<'r>(alloc: Global, rest: &mut Rest<'r>, max: u32) -> Result<Vec<Lease<'r>>, AllocError>
    requires { max ≤ trace_limit }
    ensures leases { IfOk result (λ v. vec_len v ≡ pages_for max) }
    ensures carved { IfOk result (λ _.
        rest_left rest.new + rounded (4 * max) ≡ rest_left rest.old) }
{
    let pages = Trace::pages(max);
    let mut leases = Vec::with_capacity(alloc, pages as usize)?;
    for page in 0..pages {
        let bytes = Trace::bytes(Trace::page_max(max, page));
        let Ok(lease) = rest.carve(bytes) else {
            return Err(AllocError);
        };
        leases.push_reserved(lease);
    }
    Ok(leases)
}

/// A page on each lease, in the order of the leases.
///
/// # Errors
/// `AllocError` if memory runs out or a lease is too short.
fn reserved<'r>(
    alloc: Global,
    leases: Vec<Lease<'r>>,
    max: u32,
) -> Result<Vec<Page<'r>>, AllocError>
    requires { vec_len leases ≡ pages_for max }
    ensures { IfOk result (λ v. ArePages max 0 v.items) }
{
    let mut pages = Vec::with_capacity(alloc, leases.len())?;
    let mut left = max;
    for lease in leases {
        let room = left.min(PAGE);
        pages.push_reserved(Page::new(lease, room)?);
        left -= room;
    }
    Ok(pages)
}
