//! What is told of a condition of an edge.
ghost use Rattle.std.specs.Prelude.{◌≡◌, ◌≤◌, ◌+◌, ◌++◌, ◌∷◌, [], length, IsTrue, true};
ghost use Rattle.std.specs.Option.{option_to_list};
ghost use Rattle.vme_model.specs.Signals.{is_well_formed};
ghost use Rattle.vme_model.specs.Spoken.{level_of};
ghost use Rattle.vme_model.specs.Witnesses.{requests, granted, picked, own_witnesses, witnesses_of};
ghost use Rattle.vme_reasons.specs.Told.{is_driver};
ghost use Rattle.vme_reasons.specs.Traced.{OfTrace};
ghost use Rattle.vme_reasons.specs.Grouped.{is_of_askers, first_line, second_line, line_told, askers_told, places_told, last_told, others_told, own_wire, own_first, own_second};

use crate::chains::{acknowledge_input, grant_input, last_segment};
use crate::lines::{ROOM, granted, picked, tell_interrupts, tell_low, tell_low_grants, tell_requests};
use crate::marks::Marks;
use crate::parts::{addressed, bursts, request, service, strobe};
use crate::wires::{own, seen};
use arrayvec::ArrayVec;
use vme_backplane::Backplane;
use vme_model::{ChainId, Condition, Cycle, Driver, Edge, Wire, Witness};

/// Puts one more behind the others, where there is one.
fn tell(witness: Option<Witness>, told: &mut ArrayVec<Witness, ROOM>)
    requires { length told.old.items + 1 ≤ 64 }
    ensures told { told.new.items ≡ told.old.items ++ option_to_list witness }
    ensures few { length told.new.items ≤ length told.old.items + 1 }
{
    if let Some(witness) = witness {
        told.push(witness);
    }
}

/// Whether a condition is told by who asks for something, or what they are granted.
fn is_of_askers(condition: Condition) -> bool
    ensures { result ≡ is_of_askers condition }
{
    matches!(
        condition,
        Condition::GrantsHigh
            | Condition::Picked
            | Condition::HigherAsked
            | Condition::ClearNotDue
            | Condition::InterruptLow
    )
}

/// The level of an acknowledge; 0 of what is none.
fn level_of(cycle: Option<Cycle>) -> u8
    ensures { result ≡ level_of cycle }
{
    match cycle {
        Some(Cycle::Acknowledge(level)) => level,
        _ => 0,
    }
}

/// Puts who requests the bus and the level last granted behind the others.
fn tell_asked(backplane: &Backplane, marks: &Marks, told: &mut ArrayVec<Witness, ROOM>)
    requires { length told.old.items + 23 ≤ 64 }
    ensures told { OfTrace backplane.now marks.now (λ k. told.new.items ≡ told.old.items
        ++ (requests backplane.now k ++ granted backplane.now k ∷ [])) }
    ensures few { length told.new.items ≤ length told.old.items + 23 }
{
    tell_requests(backplane, marks, told);
    told.push(granted(backplane, marks));
}

/// Puts who requests the bus, the level last granted and the one that the policy picks behind the
/// others.
fn tell_picked(backplane: &Backplane, marks: &Marks, told: &mut ArrayVec<Witness, ROOM>)
    requires { length told.old.items + 24 ≤ 64 }
    ensures told { OfTrace backplane.now marks.now (λ k. told.new.items ≡ told.old.items
        ++ (requests backplane.now k ++ granted backplane.now k ∷ picked backplane.now ∷ [])) }
    ensures few { length told.new.items ≤ length told.old.items + 24 }
{
    tell_requests(backplane, marks, told);
    told.push(granted(backplane, marks));
    told.push(picked(backplane, marks));
}

/// What is told of a condition of those that ask.
fn askers(
    backplane: &Backplane,
    marks: &Marks,
    edge: &Edge,
    condition: Condition,
) -> ArrayVec<Witness, ROOM>
    ensures { OfTrace backplane.now marks.now (λ k.
        result.items ≡ askers_told backplane.now k edge.now condition) }
{
    let mut told = ArrayVec::new();
    match condition {
        Condition::GrantsHigh => tell_low_grants(backplane, marks, &mut told),
        Condition::Picked => tell_picked(backplane, marks, &mut told),
        Condition::HigherAsked => tell_asked(backplane, marks, &mut told),
        Condition::ClearNotDue => {
            tell_low(backplane, marks, Wire::Bbsy, &mut told);
            tell_low_grants(backplane, marks, &mut told);
            tell_asked(backplane, marks, &mut told);
        }
        Condition::InterruptLow => {
            tell_interrupts(backplane, marks, level_of(edge.value), &mut told);
        }
        _ => {}
    }
    told
}

/// The line that a condition speaks of, or the first of two.
fn first_line(condition: Condition) -> Option<Wire>
    ensures { result ≡ first_line condition }
{
    match condition {
        Condition::BusyHigh | Condition::BusyLow => Some(Wire::Bbsy),
        Condition::AddressStrobeHigh | Condition::AddressStrobeLow => Some(Wire::AddressStrobe),
        Condition::DataStrobeHigh | Condition::DataStrobeLow => Some(Wire::DataStrobe),
        Condition::DtackHigh => Some(Wire::Dtack),
        Condition::BerrHigh | Condition::Answered => Some(Wire::Berr),
        Condition::Asked => Some(Wire::Br),
        Condition::ChainHigh => Some(Wire::Iack),
        Condition::GrantsThrough => Some(Wire::BgOut),
        _ => None,
    }
}

/// The second line that a condition speaks of.
fn second_line(condition: Condition) -> Option<Wire>
    ensures { result ≡ second_line condition }
{
    match condition {
        Condition::Answered => Some(Wire::Dtack),
        Condition::ChainHigh => Some(Wire::IackOut),
        _ => None,
    }
}

/// Puts who holds a line low behind the others, where there is a line.
fn tell_line(
    backplane: &Backplane,
    marks: &Marks,
    line: Option<Wire>,
    told: &mut ArrayVec<Witness, ROOM>,
)
    requires { length told.old.items + 22 ≤ 64 }
    ensures told { OfTrace backplane.now marks.now (λ k.
        told.new.items ≡ told.old.items ++ line_told backplane.now k line) }
    ensures few { length told.new.items ≤ length told.old.items + 22 }
{
    if let Some(wire) = line {
        tell_low(backplane, marks, wire, told);
    }
}

/// The segment of the acknowledge chain that an acknowledge has to pass last.
fn last_acknowledge(backplane: &Backplane, marks: &Marks) -> Option<Witness>
    ensures { OfTrace backplane.now marks.now (λ k.
        option_to_list result ≡ last_told backplane.now k) }
{
    let cycle = backplane.pins(Driver::Controller).shown?;
    if cycle.is_acknowledge() {
        Some(last_segment(backplane, marks, ChainId::Iack))
    } else {
        None
    }
}

/// Puts what is shown, a last segment, or the edge's own wire behind the others.
fn tell_place(
    backplane: &Backplane,
    marks: &Marks,
    edge: &Edge,
    condition: Condition,
    told: &mut ArrayVec<Witness, ROOM>,
)
    requires formed { is_well_formed edge.now ≡ true }
    requires room { length told.old.items + 2 ≤ 64 }
    ensures told { OfTrace backplane.now marks.now (λ k. told.new.items ≡ told.old.items
        ++ places_told backplane.now k edge.now condition) }
    ensures few { length told.new.items ≤ length told.old.items + 2 }
{
    match condition {
        Condition::AcknowledgeShown | Condition::CycleShown | Condition::OwnSlotShown => {
            tell(addressed(backplane, marks), told);
        }
        Condition::NobodyCanAnswer => {
            tell(addressed(backplane, marks), told);
            tell(last_acknowledge(backplane, marks), told);
        }
        Condition::PassedTheLastBoard => {
            let chain = ChainId::of_grant(edge.wire.grant_level());
            told.push(last_segment(backplane, marks, chain));
        }
        Condition::OtherState => told.push(seen(backplane, marks, edge.driver, edge.wire)),
        _ => {}
    }
}

/// The board's own wire that a condition speaks of, or the first of two.
fn own_wire(condition: Condition) -> Option<Wire>
    ensures { result ≡ own_wire condition }
{
    match condition {
        Condition::OwnRequestHigh | Condition::OwnRequestLow => Some(Wire::Br),
        Condition::OwnGrantOutHigh => Some(Wire::BgOut),
        Condition::OwnBusyHigh | Condition::OwnBusyLow => Some(Wire::Bbsy),
        Condition::OwnAddressOn | Condition::OwnAddressOff | Condition::AddressFree => {
            Some(Wire::Addr)
        }
        Condition::OwnAddressStrobeLow => Some(Wire::AddressStrobe),
        Condition::OwnDataStrobeHigh => Some(Wire::DataStrobe),
        Condition::OwnAcknowledgeOutHigh => Some(Wire::IackOut),
        Condition::OwnDtackHigh => Some(Wire::Dtack),
        Condition::Served => Some(Wire::Irq),
        _ => None,
    }
}

/// The board's own wire that a condition speaks of.
fn own_first(
    backplane: &Backplane,
    marks: &Marks,
    driver: Driver,
    condition: Condition,
) -> Option<Witness>
    requires { is_driver driver ≡ true }
    ensures { OfTrace backplane.now marks.now (λ k.
        option_to_list result ≡ own_first backplane.now k driver condition) }
{
    match condition {
        Condition::Pending | Condition::NotPending => request(backplane, marks, driver),
        _ => own(backplane, marks, driver, own_wire(condition)?),
    }
}

/// What else of the board a condition speaks of.
fn own_second(
    backplane: &Backplane,
    marks: &Marks,
    driver: Driver,
    condition: Condition,
) -> Option<Witness>
    requires { is_driver driver ≡ true }
    ensures { OfTrace backplane.now marks.now (λ k.
        option_to_list result ≡ own_second backplane.now k driver condition) }
{
    match condition {
        Condition::GrantInHigh | Condition::GrantInLow => grant_input(backplane, marks, driver),
        Condition::AcknowledgeInLow => acknowledge_input(backplane, marks, driver),
        Condition::AddressFree => own(backplane, marks, driver, Wire::AddressStrobe),
        Condition::Strobed | Condition::NotStrobed => strobe(backplane, marks, driver),
        Condition::WithinBurst => bursts(backplane, marks, driver),
        Condition::Served | Condition::Pending | Condition::NotPending => {
            service(backplane, marks, driver)
        }
        _ => None,
    }
}

/// What is told of a condition that is not of those that ask.
fn others(
    backplane: &Backplane,
    marks: &Marks,
    edge: &Edge,
    condition: Condition,
) -> ArrayVec<Witness, ROOM>
    requires { is_well_formed edge.now ≡ true }
    ensures { OfTrace backplane.now marks.now (λ k.
        result.items ≡ others_told backplane.now k edge.now condition) }
{
    let mut told = ArrayVec::new();
    tell_line(backplane, marks, first_line(condition), &mut told);
    tell_line(backplane, marks, second_line(condition), &mut told);
    tell_place(backplane, marks, edge, condition, &mut told);
    tell(own_first(backplane, marks, edge.driver, condition), &mut told);
    tell(own_second(backplane, marks, edge.driver, condition), &mut told);
    told
}

/// What is told of a condition of an edge, well formed and not yet made, where the marks are of the
/// backplane's edges: the wires that it speaks of or that hold its line low, and since which edges.
pub fn witnesses(
    backplane: &Backplane,
    marks: &Marks,
    edge: &Edge,
    condition: Condition,
) -> ArrayVec<Witness, ROOM>
    requires { IsTrue (is_well_formed edge.now) }
    ensures { OfTrace backplane.now marks.now (λ k.
        result.items ≡ witnesses_of backplane.now k edge.now condition) }
{
    if is_of_askers(condition) {
        askers(backplane, marks, edge, condition)
    } else {
        others(backplane, marks, edge, condition)
    }
}
