//! What a bus is asked of an edge and of a driver: which conditions fail, with their texts, and
//! which edges are open.
ghost use Rattle.std.specs.Prelude.{◌≡◌, ◌≤◌, IsTrue, Some, length, map};
ghost use Rattle.arrayvec.specs.ArrayVec.{array_vec_len};
ghost use Rattle.vme_model.specs.Signals.{is_well_formed};
ghost use Rattle.vme_bus.specs.States.{OfHistory};
ghost use Rattle.vmebus_c.specs.Asked.{failed_by, failed_numbers, marked_text, open_numbers, spelled, why_text};
ghost use Rattle.vmebus_c.specs.Conditions.{condition_number};
ghost use Rattle.vmebus_c.specs.Numbers.{edge_number};
ghost use Rattle.vmebus_c.specs.Rooms.{most_failing, most_line, most_open, most_why};

use crate::numbers::{condition_number, edge_number};
use arrayvec::ArrayVec;
use vme_bus::BusState;
use vme_histories::open_edges_of;
use vme_model::{Condition, Driver, Edge, profile_mark};
use vme_text::push;
use vme_trace::spelling_of;

/// The most conditions that an edge fails.
const FAILING: usize = 5;

/// The most edges that a driver can make.
const OPEN: usize = 36;

/// Room for the text of a condition, of 48 bytes at most, and its mark.
const TEXT: usize = 58;

/// Room for the line of an edge.
const LINE: usize = 16;

/// The conditions that an edge fails. If there is no edge, that of E1 fails.
fn failed_by(bus: &BusState, edge: Option<Edge>) -> ArrayVec<Condition, FAILING>
    ensures { OfHistory bus.now (λ version p h. result.items ≡ failed_by version p h edge) }
{
    match edge {
        Some(edge) => bus.failing(edge),
        None => {
            let mut failed = ArrayVec::new();
            failed.push(Condition::HasDriver);
            failed
        }
    }
}

/// The numbers of the conditions.
fn condition_numbers(conditions: &[Condition]) -> ArrayVec<u32, FAILING>
    requires { length conditions.now ≤ most_failing }
    ensures { result.items ≡ map condition_number conditions.now }
{
    let mut numbers = ArrayVec::new();
    for condition in conditions {
        numbers.push(condition_number(*condition));
    }
    numbers
}

/// The numbers of the conditions that an edge fails.
pub(crate) fn failed_numbers(bus: &BusState, edge: Option<Edge>) -> ArrayVec<u32, FAILING>
    ensures { OfHistory bus.now (λ version p h. result.items ≡ failed_numbers version p h edge) }
{
    condition_numbers(failed_by(bus, edge).as_slice())
}

/// The edges, a word each.
fn edge_numbers(edges: &[Edge]) -> ArrayVec<u32, OPEN>
    requires { length edges.now ≤ most_open }
    ensures { result.items ≡ map edge_number edges.now }
{
    let mut numbers = ArrayVec::new();
    for edge in edges {
        numbers.push(edge_number(edge));
    }
    numbers
}

/// All edges that a driver can make, a word each; none if there is no driver.
pub(crate) fn open_numbers(bus: &BusState, driver: Option<Driver>) -> ArrayVec<u32, OPEN>
    ensures { OfHistory bus.now (λ version p h. result.items ≡ open_numbers version p h driver) }
{
    match driver {
        Some(driver) => edge_numbers(open_edges_of(bus, driver).as_slice()),
        None => ArrayVec::new(),
    }
}

/// The line of an edge without its line feed. It is empty if some of the edge's parts are of no
/// backplane, or if there is no edge.
pub(crate) fn spelled(edge: Option<Edge>) -> ArrayVec<u8, LINE>
    ensures text { result.items ≡ spelled edge }
    ensures short { array_vec_len result ≤ most_line }
{
    match edge {
        Some(edge) if edge.is_well_formed() => spelling_of(&edge),
        _ => ArrayVec::new(),
    }
}

/// The text of a condition of an edge, with the mark of what is not the standard's.
fn marked_text(bus: &BusState, edge: &Edge, condition: Condition) -> ArrayVec<u8, TEXT>
    requires { IsTrue (is_well_formed edge.now) }
    ensures text { OfHistory bus.now (λ _ p h. result.items ≡ marked_text p h edge.now condition) }
    ensures short { array_vec_len result ≤ most_why }
{
    let shown = bus.pins(Driver::Controller).shown;
    let text = condition.text(edge, bus.row(edge.driver), shown);
    let mut line = ArrayVec::new();
    push(&mut line, text.as_slice());
    let ours = condition.is_ours(edge.wire, edge.fall);
    push(&mut line, profile_mark(ours).as_bytes());
    line
}

/// The text of the condition at a place among those that a well-formed edge fails; empty if there
/// are not as many.
fn text_at(bus: &BusState, edge: &Edge, place: u32) -> ArrayVec<u8, TEXT>
    requires { IsTrue (is_well_formed edge.now) }
    ensures { OfHistory bus.now (λ version p h.
        result.items ≡ why_text version p h (Some edge.now) place) }
{
    match bus.failing(*edge).get(place as usize) {
        Some(condition) => marked_text(bus, edge, *condition),
        None => ArrayVec::new(),
    }
}

/// The text of the condition at a place among those that an edge fails. It is empty if there are
/// not as many, or if there is no such edge on any backplane.
pub(crate) fn why_text(bus: &BusState, edge: Option<Edge>, place: u32) -> ArrayVec<u8, TEXT>
    ensures { OfHistory bus.now (λ version p h. result.items ≡ why_text version p h edge place) }
{
    match edge {
        Some(edge) if edge.is_well_formed() => text_at(bus, &edge, place),
        _ => ArrayVec::new(),
    }
}
