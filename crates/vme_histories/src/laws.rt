//! What holds for `by_wire`.
ghost use Rattle.std.specs.Prelude.{◌≡◌};

use vme_model::{Edge, Wire};

/// A law: in its arm of `by_wire` an edge is what it was.
pub fn an_edge_is_itself_in_its_arm(edge: Edge) -> Edge
    ensures { result ≡ edge }
{
    crate::by_wire!(edge => edge)
}
