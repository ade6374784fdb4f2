//! What all drivers can make next.
ghost use Rattle.std.specs.Prelude.{◌≡◌, ◌≤◌, ◌+◌, ◌++◌, [], length};
ghost use Rattle.std.specs.List.{flat_map};
ghost use Rattle.vme_model.specs.Open.{open_edges};
ghost use Rattle.vme_seeds.specs.Choices.{all_open};

use arrayvec::ArrayVec;
use vme_bus::Bus;
use vme_model::{Driver, Edge};

/// The most open edges: 36 for each of 22 drivers.
pub(crate) const OPEN_EDGES: usize = 792;

/// Appends edges.
fn append(edges: &mut ArrayVec<Edge, OPEN_EDGES>, others: &[Edge])
    requires { length edges.old.items + length others.now ≤ 792 }
    ensures { edges.new.items ≡ edges.old.items ++ others.now }
{
    for edge in others {
        edges.push(*edge);
    }
}

/// Puts the open edges of these drivers, in their order, into an empty list.
fn append_open(bus: &Bus, drivers: &[Driver], edges: &mut ArrayVec<Edge, OPEN_EDGES>)
    requires empty { edges.old.items ≡ [] }
    requires few { length drivers.now ≤ 22 }
    ensures { edges.new.items ≡ flat_map (open_edges bus.now) drivers.now }
{
    for driver in drivers {
        append(edges, bus.open_edges(*driver).as_slice());
    }
}

/// Lists the open edges of all drivers: those of the controller first, then those of each board by
/// slot.
pub(crate) fn all_open(bus: &Bus, edges: &mut ArrayVec<Edge, OPEN_EDGES>)
    ensures { edges.new.items ≡ all_open bus.now }
{
    edges.clear();
    append_open(bus, bus.plan().drivers().as_slice(), edges);
}
