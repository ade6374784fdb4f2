//! What is printed about a condition of an edge.
ghost use Rattle.std.specs.Prelude.{◌≡◌, ◌≤◌, ◌+◌, ◌++◌, length, IsTrue, true};
ghost use Rattle.std.specs.Option.{option_to_list};
ghost use Rattle.vme_model.specs.Signals.{is_well_formed};
ghost use Rattle.vme_model.specs.Witnesses.{witnesses_of};
ghost use Rattle.vme_explain.specs.Traced.{OfTrace};
ghost use Rattle.vme_explain.specs.Grouped.{first_line, second_line, line_witnesses, last_witness, place_witnesses, other_witnesses};

use crate::askers::{askers, is_of_askers};
use crate::chains::last_segment;
use crate::lines::{ROOM, push_low};
use crate::marks::Marks;
use crate::owns::{own_first, own_second};
use crate::parts::addressed;
use crate::wires::seen;
use arrayvec::ArrayVec;
use vme_bus::Bus;
use vme_model::{ChainId, Condition, Edge, Wire, Witness};

/// Puts one more behind the others, if there is one.
fn push_witness(witness: Option<Witness>, witnesses: &mut ArrayVec<Witness, ROOM>)
    requires { length witnesses.old.items + 1 ≤ 64 }
    ensures witnesses { witnesses.new.items ≡ witnesses.old.items ++ option_to_list witness }
    ensures few { length witnesses.new.items ≤ length witnesses.old.items + 1 }
{
    if let Some(witness) = witness {
        witnesses.push(witness);
    }
}

/// The line that a condition speaks of, or the first of two.
fn first_line(condition: Condition) -> Option<Wire>
    ensures { result ≡ first_line condition }
{
    match condition {
        Condition::BusyHigh | Condition::BusyLow => Some(Wire::Bbsy),
        Condition::AddressStrobeHigh | Condition::AddressStrobeLow => Some(Wire::AddressStrobe),
        Condition::DataStrobeHigh | Condition::DataStrobeLow => Some(Wire::DataStrobe),
        Condition::DtackHigh => Some(Wire::Dtack),
        Condition::BerrHigh | Condition::Answered => Some(Wire::Berr),
        Condition::Asked => Some(Wire::Br),
        Condition::ChainHigh => Some(Wire::Iack),
        Condition::GrantsThrough => Some(Wire::BgOut),
        _ => None,
    }
}

/// The second line that a condition speaks of.
fn second_line(condition: Condition) -> Option<Wire>
    ensures { result ≡ second_line condition }
{
    match condition {
        Condition::Answered => Some(Wire::Dtack),
        Condition::ChainHigh => Some(Wire::IackOut),
        _ => None,
    }
}

/// Puts who holds a line low behind the others, if there is a line.
fn push_line(bus: &Bus, marks: &Marks, line: Option<Wire>, witnesses: &mut ArrayVec<Witness, ROOM>)
    requires { length witnesses.old.items + 22 ≤ 64 }
    ensures witnesses { OfTrace bus.now marks.now (λ k.
        witnesses.new.items ≡ witnesses.old.items ++ line_witnesses bus.now k line) }
    ensures few { length witnesses.new.items ≤ length witnesses.old.items + 22 }
{
    if let Some(wire) = line {
        push_low(bus, marks, wire, witnesses);
    }
}

/// The segment of the acknowledge chain that an acknowledge has to pass last.
fn last_acknowledge(bus: &Bus, marks: &Marks) -> Option<Witness>
    ensures { OfTrace bus.now marks.now (λ k.
        option_to_list result ≡ last_witness bus.now k) }
{
    let cycle = bus.shown()?;
    if cycle.is_acknowledge() {
        Some(last_segment(bus, marks, ChainId::Iack))
    } else {
        None
    }
}

/// Puts what is shown, a last segment, or the edge's own wire behind the others.
fn push_place(
    bus: &Bus,
    marks: &Marks,
    edge: &Edge,
    condition: Condition,
    witnesses: &mut ArrayVec<Witness, ROOM>,
)
    requires formed { is_well_formed edge.now ≡ true }
    requires room { length witnesses.old.items + 2 ≤ 64 }
    ensures witnesses { OfTrace bus.now marks.now (λ k. witnesses.new.items ≡ witnesses.old.items
        ++ place_witnesses bus.now k edge.now condition) }
    ensures few { length witnesses.new.items ≤ length witnesses.old.items + 2 }
{
    match condition {
        Condition::AcknowledgeShown | Condition::CycleShown | Condition::OwnSlotShown => {
            push_witness(addressed(bus, marks), witnesses);
        }
        Condition::NobodyCanAnswer => {
            push_witness(addressed(bus, marks), witnesses);
            push_witness(last_acknowledge(bus, marks), witnesses);
        }
        Condition::PassedTheLastBoard => {
            let chain = ChainId::of_grant(edge.wire.grant_level());
            witnesses.push(last_segment(bus, marks, chain));
        }
        Condition::OtherState => witnesses.push(seen(bus, marks, edge.driver, edge.wire)),
        _ => {}
    }
}

/// What is printed about a condition that is not of those that ask.
fn others(bus: &Bus, marks: &Marks, edge: &Edge, condition: Condition) -> ArrayVec<Witness, ROOM>
    requires { is_well_formed edge.now ≡ true }
    ensures { OfTrace bus.now marks.now (λ k.
        result.items ≡ other_witnesses bus.now k edge.now condition) }
{
    let mut witnesses = ArrayVec::new();
    push_line(bus, marks, first_line(condition), &mut witnesses);
    push_line(bus, marks, second_line(condition), &mut witnesses);
    push_place(bus, marks, edge, condition, &mut witnesses);
    push_witness(
        own_first(bus, marks, edge.driver, condition),
        &mut witnesses,
    );
    push_witness(
        own_second(bus, marks, edge.driver, condition),
        &mut witnesses,
    );
    witnesses
}

/// What is printed about a condition of an edge that is well formed and not yet made: the wires
/// that the condition speaks of, or that hold its line low, since which edges they are so, and what
/// it counts.
///
/// The marks are to be of the edges of the bus.
pub fn witnesses(
    bus: &Bus,
    marks: &Marks,
    edge: &Edge,
    condition: Condition,
) -> ArrayVec<Witness, ROOM>
    requires { IsTrue (is_well_formed edge.now) }
    ensures { OfTrace bus.now marks.now (λ k.
        result.items ≡ witnesses_of bus.now k edge.now condition) }
{
    if is_of_askers(condition) {
        askers(bus, marks, edge, condition)
    } else {
        others(bus, marks, edge, condition)
    }
}
