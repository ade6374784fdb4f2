//! Logs, and the memory of a worker.
ghost use Rattle.std.specs.Prelude.{◌≡◌, ◌+◌, ◌-◌, ◌*◌, ◌^◌, ◌<◌, ◌≤◌, ◌++◌, [], ◌∷◌, IfOk, OnOk, Some, length, slice_get, true, vec_capacity};
ghost use Rattle.std.specs.Int.{div_ceil};
ghost use Rattle.vme_model.specs.Signals.{is_well_formed};
ghost use Rattle.vme_lock.specs.Logs.{Filling};

use arrayvec::ArrayVec;
use std::alloc::AllocError;
use std::marker::Model;
use vme_arena::Lease;
use vme_model::Edge;
use vme_store::Code;

/// How many edges a working page holds.
const PAGE: usize = 256;

/// The edges that one seat made in the turns of a worker, in the order of time.
#[derive(Drop)]
pub struct Log<'r> {
    edges: Vec<Code, Lease<'r>>,
}

impl<'r> Model for Log<'r> {
    ghost use Rattle.std.specs.Prelude.{◌<◌, ◌^◌, List, length};
    ghost use Rattle.vme_model.specs.declared.signals.Edge.{Edge};

    ghost Value = { List Edge };

    ghost view = { λ l. l.edges.items };

    ghost invariant = { λ l. length l.edges.items < 2 ^ 32 };
}

impl<'r> Log<'r> {
    /// The log of these edges.
    pub(crate) fn new(edges: Vec<Code, Lease<'r>>) -> Log<'r>
        requires { length edges.items < 2 ^ 32 }
        ensures { result ≡ edges.entry.items }
    {
        Log { edges }
    }

    /// How many edges the log has.
    pub fn len(&self) -> u32
        ensures { result ≡ length self.now }
    {
        self.edges.len() as u32
    }

    /// The edge at a place, counted from 0. The place has to be below `len`.
    pub fn edge_at(&self, place: u32) -> Edge
        requires { place < length self.now }
        ensures { slice_get self.now place ≡ Some result }
    {
        self.edges[place as usize].edge()
    }
}

/// The memory of one worker: a stretch for its working pages, and one for its log.
#[derive(Drop)]
pub struct Room<'r> {
    pub scratch: Lease<'r>,
    pub log: Lease<'r>,
}

/// One working page.
#[derive(Drop)]
struct Page<'s, 'r> {
    edges: Box<ArrayVec<Code, 256>, &'s Lease<'r>>,
}

impl<'s, 'r> Model for Page<'s, 'r> {
    ghost use Rattle.std.specs.Prelude.{List};
    ghost use Rattle.vme_model.specs.declared.signals.Edge.{Edge};

    ghost Value = { List Edge };

    ghost view = { λ p. p.edges.value.items };
}

impl<'s, 'r> Page<'s, 'r> {
    /// A page without edges, with room for 256.
    fn new(scratch: &'s Lease<'r>) -> Result<Page<'s, 'r>, AllocError>
        ensures { IfOk result (λ p. p ≡ []) }
    {
        let edges = Box::new(scratch, ArrayVec::new())?;
        Ok(Page { edges })
    }

    /// How many more edges fit.
    fn room(&self) -> usize
        ensures { result ≡ 256 - length self.now }
    {
        self.edges.remaining_capacity()
    }

    fn push(&mut self, edge: Edge)
        requires room { length self.old < 256 }
        requires well_formed { is_well_formed edge ≡ true }
        ensures { self.new ≡ self.old ++ edge ∷ [] }
    {
        self.edges.push(Code::of(edge));
    }
}

/// The edges of a worker so far, in pages on its scratch lease.
#[derive(Drop)]
pub(crate) struct Pages<'s, 'r> {
    pages: Vec<Page<'s, 'r>, &'s Lease<'r>>,
    /// How many pages there may be at most.
    most: usize,
}

impl<'s, 'r> Model for Pages<'s, 'r> {
    ghost use Rattle.vme_lock.specs.Logs.{Filling, edges_in, room_of};

    ghost Value = { Filling };

    ghost view = { λ p. record { edges = edges_in p.pages.items; room = room_of p.pages.items } };
}

impl<'s, 'r> Pages<'s, 'r> {
    /// No edges yet, in pages that may become enough for `edges` edges.
    pub(crate) fn new(scratch: &'s Lease<'r>, edges: u32) -> Pages<'s, 'r>
        ensures { result.edges ≡ [] }
    {
        Pages {
            pages: Vec::new(scratch),
            most: (edges as usize).div_ceil(PAGE),
        }
    }

    /// How many more edges fit in the last page.
    fn room(&self) -> usize
        ensures { result ≡ self.now.room }
    {
        match self.pages.last() {
            Some(page) => page.room(),
            None => 0,
        }
    }

    /// Makes room for one more edge, if there is none.
    ///
    /// # Errors
    /// `AllocError` if no page can be added.
    #[tactic(auto, using(crate::proofs::LogPages::joined_page, crate::proofs::LogPages::room_page))]
    pub(crate) fn make_room(&mut self) -> Result<(), AllocError>
        ensures edges { self.new.edges ≡ self.old.edges }
        ensures room { OnOk result (0 < self.new.room) }
    {
        if self.room() > 0 {
            return Ok(());
        }
        if self.pages.is_empty() {
            self.pages.reserve_exact(self.most)?;
        }
        let page = Page::new(self.pages.allocator())?;
        self.pages.push(page)?;
        Ok(())
    }

    pub(crate) fn push(&mut self, edge: Edge)
        requires room { 0 < self.old.room }
        requires well_formed { is_well_formed edge ≡ true }
        ensures { self.new.edges ≡ self.old.edges ++ edge ∷ [] }
    {
        match self.pages.last_mut() {
            Some(page) => page.push(edge),
            None => {}
        }
    }

    /// Copies the edges to the end of a log that has room for them.
    pub(crate) fn copy_to(&self, log: &mut Vec<Code, Lease<'_>>)
        requires { length log.old.items + length self.now.edges ≤ vec_capacity log.old }
        ensures { log.new.items ≡ log.old.items ++ self.now.edges }
    {
        for page in &self.pages {
            copy_page(page, log);
        }
    }
}

/// Copies the edges of a page to the end of a log that has room for them.
fn copy_page(page: &Page<'_, '_>, log: &mut Vec<Code, Lease<'_>>)
    requires { length log.old.items + length page.now ≤ vec_capacity log.old }
    ensures items { log.new.items ≡ log.old.items ++ page.now }
    ensures capacity { vec_capacity log.new ≡ vec_capacity log.old }
{
    for edge in page.edges.as_slice() {
        log.push_reserved(*edge);
    }
}

/// How many bytes of scratch memory are enough for the working pages of `edges` edges: a page for
/// each 256 edges, the last one perhaps not full, and its place in the list of pages.
pub fn log_bytes(edges: u32) -> usize
    ensures { result ≡ 1056 * div_ceil edges 256 }
{
    (edges as usize).div_ceil(PAGE) * 1056
}
