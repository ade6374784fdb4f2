//! What the definitions of the drives say together.
ghost use Rattle.vme_drive.specs.Bringing.{EndsWithItsEvent};

/// A walk whose goal is an event ends with the first edge that counts and brings it, and says that
/// it came; otherwise no edge of it does.
/// `drive --until` writes the edges of such a walk.
pub fn a_walk_ends_with_its_event()
    ensures { EndsWithItsEvent }
{}
