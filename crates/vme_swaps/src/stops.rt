//! What stops an edge on its way back over the edges before it.
ghost use Rattle.std.specs.Prelude.{◌≡◌};
ghost use Rattle.vme_swaps.specs.Stops.{is_race, is_wait};

use vme_model::{Edge, Refused};

/// What stops an edge on its way back.
#[derive(Clone, Copy, PartialEq, Eq, Debug)]
pub enum Stop {
    /// No edge is before it.
    Begins,
    /// It has passed 200 edges, and more are before it.
    Far,
    /// It waits for an edge: in front of that it is refused.
    Waits {
        /// The number of that edge in the trace.
        number: u64,
        edge: Edge,
        refused: Refused,
    },
    /// It races with an edge: in front of that it would be accepted, and then not all is the same.
    Races {
        /// The number of that edge in the trace.
        number: u64,
        edge: Edge,
        /// The verdict on that edge if it comes second.
        outcome: Result<(), Refused>,
    },
}

impl Stop {
    /// Whether it races.
    pub fn is_race(&self) -> bool
        ensures { result ≡ is_race self.now }
    {
        match self {
            Stop::Races { .. } => true,
            Stop::Begins | Stop::Far | Stop::Waits { .. } => false,
        }
    }

    /// Whether it waits.
    pub fn is_wait(&self) -> bool
        ensures { result ≡ is_wait self.now }
    {
        match self {
            Stop::Waits { .. } => true,
            Stop::Begins | Stop::Far | Stop::Races { .. } => false,
        }
    }
}
