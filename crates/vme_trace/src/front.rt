//! The edge that the line at the front of a text spells, read part by part in place.
ghost use Rattle.std.specs.Prelude.{◌≡◌, ◌≢◌, ℕ, List, [], ◌++◌, ◌∷◌, IsTrue, IfSome, IfNone, Some, None};
ghost use Rattle.vme_model.specs.declared.signals.Edge.{Edge};
ghost use Rattle.vme_model.specs.Signals.{is_slot, is_level, has_wire, has_value, is_in_range, is_well_formed};
ghost use Rattle.vme_model.specs.Text.{number, driver_text, wire_text, sign, argument, spelling, edge_of};
ghost use Rattle.vme_trace.specs.Fronts.{IsFrontLine, IsDriver, front_of, first_driver, first_control_wire, first_bus_wire, first_transfer_wire, first_interrupt_wire, first_board_wire, first_wire, first_sign, first_level, first_slot, first_cycle, first_end, first_value};

use crate::writer::LINE;
use arrayvec::ArrayVec;
use vme_model::{Cycle, Driver, Edge, Wire};
use vme_text::push;

/// The driver whose name and space stand at the front of a text, and the rest of the text.
#[inline(always)]
#[tactic(auto, unfolding(crate::specs::Fronts::first_driver))]
fn driver_at(text: &[u8]) -> Option<(Driver, &[u8])>
    ensures known { IfSome result (λ found. IsDriver found.0) }
    ensures front { IfSome result (λ found. text.now ≡ driver_text found.0 ++ 32 ∷ found.1.now) }
    ensures first { front_of result ≡ first_driver text.now }
{
    match text {
        [b'c', b' ', rest @ ..] => Some((Driver::Controller, rest)),
        [ones @ b'1'..=b'9', b' ', rest @ ..] => Some((Driver::Slot(*ones - b'0'), rest)),
        [b'1', ones @ b'0'..=b'9', b' ', rest @ ..] => {
            Some((Driver::Slot(10 + (*ones - b'0')), rest))
        }
        [b'2', ones @ b'0'..=b'1', b' ', rest @ ..] => {
            Some((Driver::Slot(20 + (*ones - b'0')), rest))
        }
        _ => None,
    }
}

/// The wire of the controller whose word stands at the front of a text, and the rest of the text.
#[inline(always)]
#[tactic(auto, unfolding(crate::specs::Fronts::first_control_wire))]
fn control_wire_at(text: &[u8]) -> Option<(Wire, &[u8])>
    ensures known { IfSome result (λ found. IsTrue (has_wire Driver.Controller found.0)) }
    ensures front { IfSome result (λ found. text.now ≡ wire_text found.0 ++ found.1.now) }
    ensures first { front_of result ≡ first_control_wire text.now }
{
    match text {
        [b'b', b'g', level @ b'0'..=b'3', rest @ ..] => Some((Wire::Bg(*level - b'0'), rest)),
        [b'b', b'c', b'l', b'r', rest @ ..] => Some((Wire::Bclr, rest)),
        [b'i', b'a', b'c', b'k', rest @ ..] => Some((Wire::Iack, rest)),
        [b'b', b'e', b'r', b'r', rest @ ..] => Some((Wire::Berr, rest)),
        _ => None,
    }
}

/// The wire by which a board requests the bus, passes it on or holds it, whose word stands at the
/// front of a text, and the rest of the text.
#[inline(always)]
#[tactic(auto, unfolding(crate::specs::Fronts::first_bus_wire))]
fn bus_wire_at(text: &[u8]) -> Option<(Wire, &[u8])>
    ensures known { IfSome result (λ found. IsTrue (has_wire (Driver.Slot 1) found.0)) }
    ensures front { IfSome result (λ found. text.now ≡ wire_text found.0 ++ found.1.now) }
    ensures first { front_of result ≡ first_bus_wire text.now }
{
    match text {
        [b'b', b'r', rest @ ..] => Some((Wire::Br, rest)),
        [b'b', b'g', b'o', b'u', b't', rest @ ..] => Some((Wire::BgOut, rest)),
        [b'b', b'b', b's', b'y', rest @ ..] => Some((Wire::Bbsy, rest)),
        _ => None,
    }
}

/// The wire of a transfer whose word stands at the front of a text, and the rest of the text.
#[inline(always)]
#[tactic(auto, unfolding(crate::specs::Fronts::first_transfer_wire))]
fn transfer_wire_at(text: &[u8]) -> Option<(Wire, &[u8])>
    ensures known { IfSome result (λ found. IsTrue (has_wire (Driver.Slot 1) found.0)) }
    ensures front { IfSome result (λ found. text.now ≡ wire_text found.0 ++ found.1.now) }
    ensures first { front_of result ≡ first_transfer_wire text.now }
{
    match text {
        [b'a', b's', rest @ ..] => Some((Wire::AddressStrobe, rest)),
        [b'a', b'd', b'd', b'r', rest @ ..] => Some((Wire::Addr, rest)),
        [b'd', b's', rest @ ..] => Some((Wire::DataStrobe, rest)),
        [b'd', b't', b'a', b'c', b'k', rest @ ..] => Some((Wire::Dtack, rest)),
        _ => None,
    }
}

/// The wire of a board's interrupter whose word stands at the front of a text, and the rest of the
/// text.
#[inline(always)]
#[tactic(auto, unfolding(crate::specs::Fronts::first_interrupt_wire))]
fn interrupt_wire_at(text: &[u8]) -> Option<(Wire, &[u8])>
    ensures known { IfSome result (λ found. IsTrue (has_wire (Driver.Slot 1) found.0)) }
    ensures front { IfSome result (λ found. text.now ≡ wire_text found.0 ++ found.1.now) }
    ensures first { front_of result ≡ first_interrupt_wire text.now }
{
    match text {
        [b'i', b'r', b'q', rest @ ..] => Some((Wire::Irq, rest)),
        [b'i', b'a', b'c', b'k', b'o', b'u', b't', rest @ ..] => Some((Wire::IackOut, rest)),
        _ => None,
    }
}

/// The wire of a board whose word stands at the front of a text, and the rest of the text.
#[inline(always)]
#[tactic(auto, unfolding(crate::specs::Fronts::first_board_wire))]
fn board_wire_at(text: &[u8]) -> Option<(Wire, &[u8])>
    ensures known { IfSome result (λ found. IsTrue (has_wire (Driver.Slot 1) found.0)) }
    ensures front { IfSome result (λ found. text.now ≡ wire_text found.0 ++ found.1.now) }
    ensures first { front_of result ≡ first_board_wire text.now }
{
    match text {
        [b'b', ..] => bus_wire_at(text),
        [b'i', ..] => interrupt_wire_at(text),
        _ => transfer_wire_at(text),
    }
}

/// The wire of a driver whose word stands at the front of a text, and the rest of the text.
#[inline(always)]
#[tactic(auto, unfolding(crate::specs::Fronts::first_wire))]
fn wire_at(driver: Driver, text: &[u8]) -> Option<(Wire, &[u8])>
    requires { IsDriver driver }
    ensures known { IfSome result (λ found. IsTrue (has_wire driver found.0)) }
    ensures front { IfSome result (λ found. text.now ≡ wire_text found.0 ++ found.1.now) }
    ensures first { front_of result ≡ first_wire driver text.now }
{
    match driver {
        Driver::Controller => control_wire_at(text),
        Driver::Slot(_) => board_wire_at(text),
    }
}

/// The sign at the front of a text, true for a fall, and the rest of the text.
#[inline(always)]
#[tactic(auto, unfolding(crate::specs::Fronts::first_sign))]
fn sign_at(text: &[u8]) -> Option<(bool, &[u8])>
    ensures front { IfSome result (λ found. text.now ≡ sign found.0 ++ found.1.now) }
    ensures first { front_of result ≡ first_sign text.now }
{
    match text {
        [b'-', rest @ ..] => Some((true, rest)),
        [b'+', rest @ ..] => Some((false, rest)),
        _ => None,
    }
}

/// The level at the front of a text, and the rest of the text after a line feed.
#[inline(always)]
#[tactic(auto, unfolding(crate::specs::Fronts::first_level))]
fn level_at(text: &[u8]) -> Option<(u8, &[u8])>
    ensures known { IfSome result (λ found. IsTrue (is_level found.0)) }
    ensures front { IfSome result (λ found. text.now ≡ number found.0 ++ 10 ∷ found.1.now) }
    ensures first { front_of result ≡ first_level text.now }
{
    match text {
        [level @ b'1'..=b'7', b'\n', rest @ ..] => Some((*level - b'0', rest)),
        _ => None,
    }
}

/// The slot at the front of a text, and the rest of the text after a line feed.
#[inline(always)]
#[tactic(auto, unfolding(crate::specs::Fronts::first_slot))]
fn slot_at(text: &[u8]) -> Option<(u8, &[u8])>
    ensures known { IfSome result (λ found. IsTrue (is_slot found.0)) }
    ensures front { IfSome result (λ found. text.now ≡ number found.0 ++ 10 ∷ found.1.now) }
    ensures first { front_of result ≡ first_slot text.now }
{
    match text {
        [ones @ b'1'..=b'9', b'\n', rest @ ..] => Some((*ones - b'0', rest)),
        [b'1', ones @ b'0'..=b'9', b'\n', rest @ ..] => Some((10 + (*ones - b'0'), rest)),
        [b'2', ones @ b'0'..=b'1', b'\n', rest @ ..] => Some((20 + (*ones - b'0'), rest)),
        _ => None,
    }
}

/// What is shown, at the front of a text after a space, and the rest of the text after a line feed.
#[inline(always)]
#[tactic(auto, unfolding(crate::specs::Fronts::first_cycle))]
fn cycle_at(text: &[u8]) -> Option<(Cycle, &[u8])>
    ensures known { IfSome result (λ found. IsTrue (is_in_range found.0)) }
    ensures front { IfSome result
        (λ found. text.now ≡ argument (Some found.0) ++ 10 ∷ found.1.now) }
    ensures first { front_of result ≡ first_cycle text.now }
{
    match text {
        [b' ', b'i', rest @ ..] => {
            let (level, rest) = level_at(rest)?;
            Some((Cycle::Acknowledge(level), rest))
        }
        [b' ', b'r', rest @ ..] => {
            let (slot, rest) = slot_at(rest)?;
            Some((Cycle::Access(slot), rest))
        }
        _ => None,
    }
}

/// No value, if a line feed stands at the front of a text, and the rest of the text after it.
#[inline(always)]
#[tactic(auto, unfolding(crate::specs::Fronts::first_end))]
fn end_at(text: &[u8]) -> Option<(Option<Cycle>, &[u8])>
    ensures none { IfSome result (λ found. found.0 ≡ None) }
    ensures front { IfSome result (λ found. text.now ≡ 10 ∷ found.1.now) }
    ensures first { front_of result ≡ first_end text.now }
{
    match text {
        [b'\n', rest @ ..] => Some((None, rest)),
        _ => None,
    }
}

/// What an edge of a wire shows, at the front of a text, and the rest of the text after a line
/// feed.
#[inline(always)]
#[tactic(auto, unfolding(crate::specs::Fronts::first_value))]
fn value_at(wire: Wire, fall: bool, text: &[u8]) -> Option<(Option<Cycle>, &[u8])>
    ensures known { IfSome result (λ found. IsTrue (has_value wire fall found.0)) }
    ensures front { IfSome result (λ found. text.now ≡ argument found.0 ++ 10 ∷ found.1.now) }
    ensures first { front_of result ≡ first_value wire fall text.now }
{
    match (wire, fall) {
        (Wire::Addr, true) => {
            let (cycle, rest) = cycle_at(text)?;
            Some((Some(cycle), rest))
        }
        _ => end_at(text),
    }
}

/// The edge whose line, with its line feed, stands at the front of a text, and the rest of the
/// text.
#[inline(always)]
pub(crate) fn edge_at(text: &[u8]) -> Option<(Edge, &[u8])>
    ensures found { IfSome result (λ found. IsFrontLine found.0 text.now found.1.now) }
    ensures missed { IfNone result
        ((edge : Edge) (rest : List ℕ) → IsTrue (is_well_formed edge)
        → text.now ≢ (spelling edge ++ 10 ∷ []) ++ rest) }
{
    let (driver, rest) = driver_at(text)?;
    let (wire, rest) = wire_at(driver, rest)?;
    let (fall, rest) = sign_at(rest)?;
    let (value, rest) = value_at(wire, fall, rest)?;
    let edge = Edge {
        driver,
        wire,
        fall,
        value,
    };
    Some((edge, rest))
}

/// The edge that a line spells, given without its line feed; none if it spells no edge.
/// docs/TRACES.md has the spellings.
pub fn edge_of(line: &[u8]) -> Option<Edge>
    ensures { result ≡ edge_of line.now }
{
    if line.len() >= LINE {
        return None;
    }
    let mut text: ArrayVec<u8, LINE> = ArrayVec::new();
    push(&mut text, line);
    text.push(b'\n');
    let Some((edge, rest)) = edge_at(text.as_slice()) else {
        return None;
    };
    if rest.is_empty() { Some(edge) } else { None }
}
