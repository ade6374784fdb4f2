//! Edges that one condition alone refuses.

use vme_model::{Condition, IrqKind};

/// What alone refuses an edge.
#[derive(Clone, Copy, PartialEq, Eq, Debug)]
pub enum Miss {
    /// Of the guard of this rule, G1 to G26, this condition fails, and no other.
    Rule(u8, Condition),
    /// G22's only condition fails, of an interrupter of this kind.
    Unserved(IrqKind),
    /// The guard of the rule holds, and this settling rule, S1 to S4, does not.
    Settling(u8),
}
