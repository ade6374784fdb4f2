//! What a hold of the lock returns.
use arrayvec::ArrayVec;
use thiserror::Error;
use vme_model::{Edge, Pins, Refused};

/// What a driver sees in one hold.
#[derive(Drop)]
pub struct View {
    pub pins: Pins,
    /// The driver's edges that would be accepted.
    pub offers: ArrayVec<Edge, 16>,
    /// How many edges of the driver the history has.
    pub own: u32,
    /// How many edges the history has.
    pub total: u32,
}

/// What a driver sees for one turn in one hold.
#[derive(Clone, Copy, PartialEq, Eq, Debug)]
pub struct Turn {
    /// The edge that the turn offers, if the driver has an offer.
    pub offer: Option<Edge>,
    /// How many edges the history has.
    pub total: u32,
}

/// L5: the history has another number of the driver's edges than its seat made.
#[derive(Clone, Copy, PartialEq, Eq, Debug, Error)]
#[error("L5 the history has {own} edges of the seat's driver")]
pub struct Lost {
    /// How many edges of the driver the history has.
    pub own: u32,
}

/// Why no edge was made, L1, L5 or a refusal, in the order of the tests.
#[derive(Clone, Copy, PartialEq, Eq, Debug, Error)]
pub enum EdgeRefused {
    /// L1: the edge belongs to another driver than the seat does.
    #[error("L1 the edge is not the seat's")]
    NotYours,
    #[error("{0}")]
    Lost(Lost),
    /// The backplane refuses the edge.
    #[error("{0}")]
    Step(Refused),
}
