//! What a trace can be drawn to come to.

use crate::events::Event;
use crate::misses::Miss;

/// A situation that an accepted edge brings about, or an edge that one condition alone refuses.
#[derive(Clone, Copy, PartialEq, Eq, Debug)]
pub enum Goal {
    Event(Event),
    Miss(Miss),
}
