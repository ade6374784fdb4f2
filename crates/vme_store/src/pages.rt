//! One page of a trace, on a lease of its own.
ghost use Rattle.std.specs.Prelude.{◌≡◌, ◌<◌, ◌++◌, [], ◌∷◌, IfOk, Some, length, slice_get, true};
ghost use Rattle.vme_model.specs.Signals.{is_well_formed};

use crate::codes;
use std::alloc::AllocError;
use std::marker::Model;
use vme_arena::Lease;
use vme_model::Edge;

/// The edges of a page, the oldest first, one number each, within the room that was reserved.
#[derive(Drop)]
pub(crate) struct Page<'r> {
    codes: Vec<u32, Lease<'r>>,
}

impl<'r> Model for Page<'r> {
    ghost use Rattle.std.specs.Prelude.{map, vec_capacity};
    ghost use Rattle.vme_store.specs.Codes.{edge_of};
    ghost use Rattle.vme_store.specs.Pages.{Page};

    ghost Value = { Page };

    ghost view = { λ p. record { edges = map edge_of p.codes.items; room = vec_capacity p.codes } };
}

impl<'r> Page<'r> {
    /// An empty page with room for `room` edges.
    ///
    /// # Errors
    /// `AllocError` if the lease is too short.
    pub(crate) fn new(lease: Lease<'r>, room: u32) -> Result<Page<'r>, AllocError>
        ensures { IfOk result (λ p. p ≡ record { edges = []; room = room }) }
    {
        let codes = Vec::with_capacity(lease, room as usize)?;
        Ok(Page { codes })
    }

    /// Keeps one more edge, after the others.
    #[tactic(auto, using(crate::proofs::RoundTrip::round_trip))]
    #[inline(always)]
    pub(crate) fn push(&mut self, edge: Edge)
        requires well_formed { is_well_formed edge ≡ true }
        requires room { length self.old.edges < self.old.room }
        ensures { self.new ≡ record { edges = self.old.edges ++ edge ∷ []; room = self.old.room } }
    {
        self.codes.push_reserved(codes::code_of(edge));
    }

    /// The edge at a place, counted from 0.
    pub(crate) fn edge_at(&self, place: usize) -> Edge
        requires { place < length self.now.edges }
        ensures { slice_get self.now.edges place ≡ Some result }
    {
        codes::edge_of(self.codes[place])
    }
}
