//! What a plan says of each slot and line, as sets and small numbers.
ghost use Rattle.std.specs.Prelude.{◌≡◌, ◌<◌, ℕ, false, Some, option_map, length, get_or};
ghost use Rattle.std.specs.Option.{option_map_or};
ghost use Rattle.vme_model.specs.Plan.{board, upstream, last_active, grant_chain};
ghost use Rattle.vme_histories.specs.Levels.{request_level};

use crate::records::{Seat, SeatRecord};
use crate::sets::SlotSet;
use vme_model::{ChainId, Row};
use vme_slots::Plan;

/// Where the heads of the grant chains stand in the set of their low segments, by level.
const GRANT_HEADS: u8 = 24;

/// Where the head of the acknowledge chain stands in the set of its low segments.
pub const ACKNOWLEDGE_HEAD: u8 = 24;

/// A line that boards of one level pull, or any of such lines.
#[derive(Clone, Copy)]
pub enum Line {
    /// BRn*, by the level 0 to 3.
    Request(u8),
    /// IRQn*, by the level 1 to 7.
    Interrupt(u8),
    /// Any of BR0* to BR3*.
    AnyRequest,
    /// Any of IRQ1* to IRQ7*.
    AnyInterrupt,
    /// DTACK*.
    DataAcknowledge,
}

/// An input of a board.
#[derive(Clone, Copy)]
pub enum Input {
    /// That of its grant chain, if it has a requester.
    Grant,
    /// That of the acknowledge chain, if it has an interrupter.
    Acknowledge,
}

/// What a plan says of each slot and line, as numbers alone.
///
/// The numbers between the sets take 292 bytes, whole words, so that no bytes lie between the
/// fields: equal records have equal bytes.
#[repr(C)]
#[derive(Clone, Copy)]
pub struct Layout {
    /// The slots that can pull BR0* to BR3*.
    pub requests: [SlotSet; 4],
    /// The slots that can pull IRQ1* to IRQ7*, from place 1 on.
    pub interrupts: [SlotSet; 8],
    /// The slots of boards with a requester.
    pub requesters: SlotSet,
    /// The slots of boards with an interrupter.
    pub interrupters: SlotSet,
    /// The slots of boards.
    pub boards: SlotSet,
    pub seats: [SeatRecord; 22],
    /// Where the last segments of the grant chains stand.
    pub grant_ends: [u8; 4],
    /// Where the last segment of the acknowledge chain stands.
    pub acknowledge_end: u8,
    /// How many slots the backplane has.
    pub slots: u8,
    /// By the place of each segment of the grant chains, the slots whose input it is.
    pub granted_by: [SlotSet; 28],
    /// By the place of each segment of the acknowledge chain, the slots whose input it is.
    pub acknowledged_by: [SlotSet; 28],
}

impl Line {
    ghost use Rattle.vme_bus.specs.Layouts.{is_on};

    /// Whether the board can pull it.
    fn is_of(self, row: &Row) -> bool
        ensures { result ≡ is_on self row.now }
    {
        match self {
            Line::Request(level) => row.requests_on(level),
            Line::Interrupt(level) => {
                matches!(row.interrupter, Some(interrupter) if interrupter.level == level)
            }
            Line::AnyRequest => row.requester.is_some(),
            Line::AnyInterrupt => row.interrupter.is_some(),
            Line::DataAcknowledge => true,
        }
    }
}

ghost use Rattle.vme_bus.specs.Records.{seat_in, no_seat};
ghost use Rattle.vme_bus.specs.Layouts.{seat_of, slot_is_on, grant_source, grant_head, place_of, seat, is_input_at, HoldsLine, HoldsInputs, HoldInputs};

impl Input {
    /// Whether the slot's board has it, at the place.
    fn is_at(self, place: u8, seats: &[SeatRecord; 22], slot: u8) -> bool
        ensures { result ≡ option_map_or (is_input_at self place) (seat seats.now slot) false }
    {
        match seats.get(usize::from(slot)) {
            Some(seat) if seat.stands != 0 => match self {
                Input::Grant => seat.requester.is_some() && seat.grant_source == place,
                Input::Acknowledge => {
                    seat.interrupter.is_some() && seat.acknowledge_source == place
                }
            },
            _ => false,
        }
    }
}

/// Where the head of a grant chain stands, by its level.
#[inline(always)]
pub fn grant_head(level: u8) -> u8
    requires { level < 4 }
    ensures { result ≡ grant_head level }
{
    GRANT_HEADS + level
}

/// Where a segment stands: the controller's at the head, or that of the slot that drives it.
fn place_of(head: u8, slot: Option<u8>) -> u8
    ensures { result ≡ place_of head slot }
{
    slot.unwrap_or(head)
}

/// Where the input of a board's grant chain stands.
fn grant_source(plan: &Plan, row: &Row) -> u8
    requires { request_level row.now < 4 }
    ensures { result ≡ grant_source plan.now row.now }
{
    match row.requester {
        Some(requester) => place_of(
            grant_head(requester.level),
            plan.upstream(ChainId::of_grant(requester.level), row.slot),
        ),
        None => 0,
    }
}

/// The board of a slot, with its inputs.
#[tactic(auto, using(vme_histories::proofs::AllowedBoards::stands))]
fn seat_of(plan: &Plan, slot: u8) -> Option<Seat>
    ensures { result ≡ option_map (seat_of plan.now) (board plan.now slot) }
{
    plan.accepted();
    match plan.row(slot) {
        Some(row) => Some(Seat {
            row: *row,
            grant_source: grant_source(plan, row),
            acknowledge_source: place_of(ACKNOWLEDGE_HEAD, plan.upstream(ChainId::Iack, row.slot)),
        }),
        None => None,
    }
}

/// What stands in a slot.
fn record_of(plan: &Plan, slot: u8) -> SeatRecord
    ensures { seat_in result ≡ option_map (seat_of plan.now) (board plan.now slot) }
{
    SeatRecord::of(seat_of(plan, slot))
}

/// The boards of a plan, with their inputs.
fn seats_of(plan: &Plan) -> [SeatRecord; 22]
    ensures room { length result ≡ 22 }
    ensures seats { (s : ℕ) → s < 22
        → seat_in (get_or result s no_seat)
        ≡ option_map (seat_of plan.now) (board plan.now s) }
{
    let mut seats = [SeatRecord::of(None); 22];
    for slot in 0..22_u8 {
        seats[usize::from(slot)] = record_of(plan, slot);
    }
    seats
}

/// Whether the slot's board can pull the line.
fn is_on(plan: &Plan, line: Line, slot: u8) -> bool
    ensures { result ≡ slot_is_on plan.now line slot }
{
    match plan.row(slot) {
        Some(row) => line.is_of(row),
        None => false,
    }
}

/// The slots whose boards can pull the line.
fn slots_on(plan: &Plan, line: Line) -> SlotSet
    ensures { HoldsLine plan.now line result }
{
    plan.accepted();
    let mut slots = SlotSet::NONE;
    for slot in 0..22_u8 {
        if is_on(plan, line, slot) {
            slots = slots.with(slot);
        }
    }
    slots
}

/// Where the last segment of a grant chain stands.
fn grant_end(plan: &Plan, level: u8) -> u8
    requires { level < 4 }
    ensures { result ≡ place_of (grant_head level) (last_active plan.now (grant_chain level)) }
{
    place_of(
        grant_head(level),
        plan.last_active(ChainId::of_grant(level)),
    )
}

/// The slots whose boards have the input at the place.
fn fed_by(seats: &[SeatRecord; 22], input: Input, place: u8) -> SlotSet
    ensures { HoldsInputs input seats.now place result }
{
    let mut fed = SlotSet::NONE;
    for slot in 0..22_u8 {
        if input.is_at(place, seats, slot) {
            fed = fed.with(slot);
        }
    }
    fed
}

/// By the place of each segment, the slots whose boards have the input there.
fn fed_by_places(seats: &[SeatRecord; 22], input: Input) -> [SlotSet; 28]
    ensures { HoldInputs input seats.now result }
{
    let mut sets = [SlotSet::NONE; 28];
    for place in 0..28_u8 {
        sets[usize::from(place)] = fed_by(seats, input, place);
    }
    sets
}

impl Layout {
    ghost use Rattle.vme_bus.specs.Layouts.{IsLayoutOf};

    /// What the plan says.
    pub fn new(plan: &Plan) -> Layout
        ensures { IsLayoutOf plan.now result }
    {
        plan.accepted();
        let seats = seats_of(plan);
        Layout {
            granted_by: fed_by_places(&seats, Input::Grant),
            acknowledged_by: fed_by_places(&seats, Input::Acknowledge),
            seats,
            requests: [
                slots_on(plan, Line::Request(0)),
                slots_on(plan, Line::Request(1)),
                slots_on(plan, Line::Request(2)),
                slots_on(plan, Line::Request(3)),
            ],
            interrupts: [
                slots_on(plan, Line::Interrupt(0)),
                slots_on(plan, Line::Interrupt(1)),
                slots_on(plan, Line::Interrupt(2)),
                slots_on(plan, Line::Interrupt(3)),
                slots_on(plan, Line::Interrupt(4)),
                slots_on(plan, Line::Interrupt(5)),
                slots_on(plan, Line::Interrupt(6)),
                slots_on(plan, Line::Interrupt(7)),
            ],
            grant_ends: [
                grant_end(plan, 0),
                grant_end(plan, 1),
                grant_end(plan, 2),
                grant_end(plan, 3),
            ],
            acknowledge_end: place_of(ACKNOWLEDGE_HEAD, plan.last_active(ChainId::Iack)),
            slots: plan.slots(),
            requesters: slots_on(plan, Line::AnyRequest),
            interrupters: slots_on(plan, Line::AnyInterrupt),
            boards: slots_on(plan, Line::DataAcknowledge),
        }
    }
}
