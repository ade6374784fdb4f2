//! What is printed about those that ask for the bus or for an interrupt, and of what they are
//! granted.
ghost use Rattle.std.specs.Prelude.{◌≡◌, ◌≤◌, ◌+◌, ◌++◌, ◌∷◌, [], length};
ghost use Rattle.vme_model.specs.Spoken.{level_of};
ghost use Rattle.vme_model.specs.Witnesses.{requests, granted, picked};
ghost use Rattle.vme_explain.specs.Traced.{OfTrace};
ghost use Rattle.vme_explain.specs.Grouped.{is_of_askers, askers_witnesses};

use crate::lines::{
    ROOM, granted, picked, push_interrupts, push_low, push_low_grants, push_requests,
};
use crate::marks::Marks;
use arrayvec::ArrayVec;
use vme_bus::Bus;
use vme_model::{Condition, Cycle, Edge, Wire, Witness};

/// Whether a condition is shown by those who asks for something, or what they are granted.
pub(crate) fn is_of_askers(condition: Condition) -> bool
    ensures { result ≡ is_of_askers condition }
{
    matches!(
        condition,
        Condition::GrantsHigh
            | Condition::Picked
            | Condition::HigherAsked
            | Condition::ClearNotDue
            | Condition::InterruptLow
    )
}

/// The level of an acknowledge; 0 of what is none.
fn level_of(cycle: Option<Cycle>) -> u8
    ensures { result ≡ level_of cycle }
{
    match cycle {
        Some(Cycle::Acknowledge(level)) => level,
        _ => 0,
    }
}

/// Puts who requests the bus and the level last granted behind the others.
fn push_asked(bus: &Bus, marks: &Marks, witnesses: &mut ArrayVec<Witness, ROOM>)
    requires { length witnesses.old.items + 23 ≤ 64 }
    ensures witnesses { OfTrace bus.now marks.now (λ k. witnesses.new.items ≡ witnesses.old.items
        ++ (requests bus.now k ++ granted bus.now k ∷ [])) }
    ensures few { length witnesses.new.items ≤ length witnesses.old.items + 23 }
{
    push_requests(bus, marks, witnesses);
    witnesses.push(granted(bus, marks));
}

/// Puts who requests the bus, the level last granted and the one that the policy picks behind the
/// others.
fn push_picked(bus: &Bus, marks: &Marks, witnesses: &mut ArrayVec<Witness, ROOM>)
    requires { length witnesses.old.items + 24 ≤ 64 }
    ensures witnesses { OfTrace bus.now marks.now (λ k. witnesses.new.items ≡ witnesses.old.items
        ++ (requests bus.now k ++ granted bus.now k ∷ picked bus.now ∷ [])) }
    ensures few { length witnesses.new.items ≤ length witnesses.old.items + 24 }
{
    push_requests(bus, marks, witnesses);
    witnesses.push(granted(bus, marks));
    witnesses.push(picked(bus));
}

/// What is printed about a condition of those that ask.
pub(crate) fn askers(
    bus: &Bus,
    marks: &Marks,
    edge: &Edge,
    condition: Condition,
) -> ArrayVec<Witness, ROOM>
    ensures { OfTrace bus.now marks.now (λ k.
        result.items ≡ askers_witnesses bus.now k edge.now condition) }
{
    let mut witnesses = ArrayVec::new();
    match condition {
        Condition::GrantsHigh => push_low_grants(bus, marks, &mut witnesses),
        Condition::Picked => push_picked(bus, marks, &mut witnesses),
        Condition::HigherAsked => push_asked(bus, marks, &mut witnesses),
        Condition::ClearNotDue => {
            push_low(bus, marks, Wire::Bbsy, &mut witnesses);
            push_low_grants(bus, marks, &mut witnesses);
            push_asked(bus, marks, &mut witnesses);
        }
        Condition::InterruptLow => {
            push_interrupts(bus, marks, level_of(edge.value), &mut witnesses);
        }
        _ => {}
    }
    witnesses
}
