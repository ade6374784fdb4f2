//! The open edges of the wires that the library plays for a bench.
ghost use Rattle.std.specs.Prelude.{◌≡◌, ◌≤◌, ◌+◌, ◌++◌, ◌↔◌, ◌<◌, [], false, true, IfSome, None, filter, length};
ghost use Rattle.std.specs.List.{Contains};
ghost use Rattle.vme_model.specs.declared.signals.Driver.TheVariants.{Slot};
ghost use Rattle.vme_bus.specs.Sets.{has};
ghost use Rattle.vme_bus.specs.States.{OfHistory};
ghost use Rattle.vme_histories.specs.Opens.{open_but_full};
ghost use Rattle.vme_seeds.specs.Draws.{IsCountedIn, next_by, numbers_of};
ghost use Rattle.vme_seeds.specs.Kinds.{has_board};
ghost use Rattle.vme_seeds.specs.Numbers.{after_words};
ghost use Rattle.vmebus_c.specs.Played.{AreWeighed, IsFullKept, drawn_edge, is_played, played};
ghost use Rattle.vmebus_c.specs.Rooms.{most_open, most_played};

use crate::lists::EdgeList;
use vme_bus::{BusState, SlotSet};
use vme_histories::open_edges_of;
use vme_model::{Driver, Edge};
use vme_seeds::laws::a_draw_gives_one_of_its_edges;
use vme_seeds::{Draws, boards_on};

/// The most open edges of a driver.
const OF_DRIVER: usize = 36;

/// The most open edges: 36 for each of 22 drivers.
const OPEN_EDGES: usize = 792;

/// The places of a short list, which has a fifth of the bytes to clear. If it may be too short, the
/// draw starts again with a long one.
const FEW_EDGES: usize = 144;

/// Whether the library plays the wire of the edge, by a mask for each driver.
fn is_played(wires: &[u32], edge: &Edge) -> bool
    ensures { result ≡ is_played wires.now edge.now }
{
    let wire = edge.wire.number();
    let mask = match wires.get(usize::from(edge.driver.number())) {
        Some(mask) => *mask,
        None => 0,
    };
    wire < 16 && (mask >> wire) % 2 == 1
}

/// Appends those of the edges whose wires are played.
fn append_played<const N: usize>(edges: &mut EdgeList<N>, ready: &[Edge], wires: &[u32])
    requires { length edges.old + length ready.now ≤ N }
    ensures items { edges.new ≡ edges.old ++ filter (is_played wires.now) ready.now }
    ensures few { length edges.new ≤ length edges.old + length ready.now }
{
    for edge in ready {
        if is_played(wires, edge) {
            edges.push(*edge);
        }
    }
}

/// Appends the open edges of a driver whose wires are played.
fn append_of<const N: usize>(bus: &BusState, driver: Driver, wires: &[u32], edges: &mut EdgeList<N>)
    requires { length edges.old + most_open ≤ N }
    ensures items { OfHistory bus.now (λ version p h. edges.new ≡ edges.old
        ++ filter (is_played wires.now) (open_but_full version p h driver)) }
    ensures few { length edges.new ≤ length edges.old + most_open }
{
    append_played(edges, open_edges_of(bus, driver).as_slice(), wires);
}

/// Appends the open edges of a slot whose wires are played, if these slots have a board. A slot
/// without one has none, and most of the 22 drivers may have none.
fn append_slot<const N: usize>(
    bus: &BusState,
    boards: SlotSet,
    slot: u8,
    wires: &[u32],
    edges: &mut EdgeList<N>,
)
    requires { length edges.old + most_open ≤ N }
    ensures items { OfHistory bus.now (λ version p h. has boards ≡ has_board p
        → edges.new ≡ edges.old
        ++ filter (is_played wires.now) (open_but_full version p h (Slot slot))) }
    ensures few { length edges.new ≤ length edges.old + most_open }
{
    if !boards.has(slot) {
        return;
    }
    append_of(bus, Driver::Slot(slot), wires, edges);
}

/// Whether the list has room for the open edges of any driver.
fn has_room<const N: usize>(edges: &EdgeList<N>) -> bool
    ensures room { result ≡ true → length edges.now + most_open ≤ N }
    ensures full { result ≡ false → N < length edges.now + most_open }
{
    N - edges.as_slice().len() >= OF_DRIVER
}

/// Puts the open edges of the wires that are played into an empty list, those of the controller
/// first, then by slot, if these slots have a board. It returns whether the list has them all: it
/// stops if a driver's might not fit.
fn append_all<const N: usize>(
    bus: &BusState,
    boards: SlotSet,
    wires: &[u32],
    edges: &mut EdgeList<N>,
) -> bool
    requires empty { edges.old ≡ [] }
    requires room { most_open ≤ N }
    ensures all { result ≡ true → OfHistory bus.now (λ version p h. has boards ≡ has_board p
        → edges.new ≡ played version p h wires.now) }
    ensures fit { most_played ≤ N → result ≡ true }
{
    append_of(bus, Driver::Controller, wires, edges);
    for below in 0..21_u8 {
        if !has_room(edges) {
            return false;
        }
        append_slot(bus, boards, below + 1, wires, edges);
    }
    true
}

/// Draws one of these edges, if these slots have a board, and counts it; none if there is no edge.
fn draw_one(draws: &mut Draws, boards: SlotSet, edges: &[Edge]) -> Option<Edge>
    requires { length edges.now ≤ most_played }
    ensures edge { result ≡ next_by draws.old (has boards) edges.now }
    ensures numbers { numbers_of draws.new ≡ after_words 2 (numbers_of draws.old) }
    ensures weights { draws.new.weights ≡ draws.old.weights }
    ensures counts { IsCountedIn (has boards) result draws.old draws.new }
    ensures full { IsFullKept (has boards) result draws.old draws.new }
{
    match draws.draw(boards, edges) {
        Some(drawn) => {
            draws.count(boards, &drawn);
            Some(drawn)
        }
        None => None,
    }
}

/// Draws the next edge, by a list with room for any open edges.
#[inline(never)]
fn draw_of_many(bus: &BusState, boards: SlotSet, draws: &mut Draws, wires: &[u32]) -> Option<Edge>
    ensures edge { OfHistory bus.now (λ version p h. has boards ≡ has_board p
        → result ≡ drawn_edge version p h wires.now draws.old) }
    ensures numbers { numbers_of draws.new ≡ after_words 2 (numbers_of draws.old) }
    ensures weights { draws.new.weights ≡ draws.old.weights }
    ensures counts { IsCountedIn (has boards) result draws.old draws.new }
    ensures full { IsFullKept (has boards) result draws.old draws.new }
{
    let mut edges = EdgeList::<OPEN_EDGES>::new();
    append_all(bus, boards, wires, &mut edges);
    draw_one(draws, boards, edges.as_slice())
}

/// Draws the next edge, by a short list if that has room.
fn draw_next(bus: &BusState, boards: SlotSet, draws: &mut Draws, wires: &[u32]) -> Option<Edge>
    ensures edge { OfHistory bus.now (λ version p h. has boards ≡ has_board p
        → result ≡ drawn_edge version p h wires.now draws.old) }
    ensures numbers { numbers_of draws.new ≡ after_words 2 (numbers_of draws.old) }
    ensures weights { draws.new.weights ≡ draws.old.weights }
    ensures counts { IsCountedIn (has boards) result draws.old draws.new }
    ensures full { IsFullKept (has boards) result draws.old draws.new }
{
    let mut edges = EdgeList::<FEW_EDGES>::new();
    if append_all(bus, boards, wires, &mut edges) {
        draw_one(draws, boards, edges.as_slice())
    } else {
        draw_of_many(bus, boards, draws, wires)
    }
}

/// Draws the next edge among the open edges of the wires that are played, and counts it; none if
/// none of them has an open edge.
pub(crate) fn draw(bus: &BusState, draws: &mut Draws, wires: &[u32]) -> Option<Edge>
    ensures edge { OfHistory bus.now (λ version p h.
        result ≡ drawn_edge version p h wires.now draws.old) }
    ensures among { OfHistory bus.now (λ version p h.
        IfSome result (λ e. Contains (played version p h wires.now) e)) }
    ensures none { AreWeighed draws.old → OfHistory bus.now (λ version p h.
        (result ≡ None) ↔ (played version p h wires.now ≡ [])) }
    ensures numbers { numbers_of draws.new ≡ after_words 2 (numbers_of draws.old) }
    ensures weights { draws.new.weights ≡ draws.old.weights }
    ensures counts { OfHistory bus.now (λ _ p _.
        IsCountedIn (has_board p) result draws.old draws.new) }
    ensures full { OfHistory bus.now (λ _ p _.
        IsFullKept (has_board p) result draws.old draws.new) }
{
    a_draw_gives_one_of_its_edges();
    let boards = boards_on(bus);
    draw_next(bus, boards, draws, wires)
}
