//! What an edge that reaches an aim needs of its driver.
ghost use Rattle.std.specs.Prelude.{◌≡◌};
ghost use Rattle.vme_reach.specs.Needs.{condition_needs, event_needs, miss_needs, needs, number_needs, rule_needs};

use vme_goals::{Aim, Event, Miss};
use vme_model::{Condition, IrqKind, Rule};

/// Something that the driver of an edge has to be or to have. Source: profile.
#[derive(Clone, Copy, PartialEq, Eq, Debug)]
pub enum Need {
    /// It is the controller.
    Controller,
    /// It is a board.
    Board,
    /// It is a board with a requester.
    Requester,
    /// It is a board whose requester releases the bus on request (ROR).
    OnRequest,
    /// It is a board with an interrupter.
    Interrupter,
    /// It is a board whose interrupter is of this kind.
    Kind(IrqKind),
}

const CONTROLLER: [Need; 1] = [Need::Controller];

const BOARD: [Need; 1] = [Need::Board];

const REQUESTER: [Need; 2] = [Need::Board, Need::Requester];

const ON_REQUEST: [Need; 3] = [Need::Board, Need::Requester, Need::OnRequest];

const INTERRUPTER: [Need; 2] = [Need::Board, Need::Interrupter];

const ROAK: [Need; 3] = [Need::Board, Need::Interrupter, Need::Kind(IrqKind::Roak)];

const RORA: [Need; 3] = [Need::Board, Need::Interrupter, Need::Kind(IrqKind::Rora)];

/// What an edge needs of its driver that brings the event about.
fn event_needs(event: Event) -> &'static [Need]
    ensures { result.now ≡ event_needs event }
{
    match event {
        Event::BusClear | Event::Spurious | Event::BusError | Event::GrantTimeout => &CONTROLLER,
        Event::Rivals | Event::IackPassed => &INTERRUPTER,
        Event::Delivery | Event::AnsweredAgain => &BOARD,
        _ => &REQUESTER,
    }
}

/// What an edge of the rule of this number, G1 to G26, needs of its driver.
fn number_needs(number: u8) -> &'static [Need]
    ensures { result.now ≡ number_needs number }
{
    match number {
        0..=8 => &CONTROLLER,
        9..=20 => &REQUESTER,
        21..=24 => &INTERRUPTER,
        _ => &BOARD,
    }
}

/// What an edge of the edge rule needs of its driver.
fn rule_needs(rule: Rule) -> &'static [Need]
    ensures { result.now ≡ rule_needs rule }
{
    match rule {
        Rule::G1 | Rule::G2 | Rule::G3 | Rule::G4 => &CONTROLLER,
        Rule::G5 | Rule::G6 | Rule::G7 | Rule::G8 => &CONTROLLER,
        Rule::G21 | Rule::G22 | Rule::G23 | Rule::G24 => &INTERRUPTER,
        Rule::G25 | Rule::G26 => &BOARD,
        _ => &REQUESTER,
    }
}

/// What an edge needs of its driver that this condition of the rule alone refuses.
fn condition_needs(number: u8, condition: Condition) -> &'static [Need]
    ensures { result.now ≡ condition_needs number condition }
{
    if number == 14 && condition == Condition::Asked {
        &ON_REQUEST
    } else {
        number_needs(number)
    }
}

/// What an edge needs of its driver that the miss refuses.
fn miss_needs(miss: Miss) -> &'static [Need]
    ensures { result.now ≡ miss_needs miss }
{
    match miss {
        Miss::Rule(number, condition) => condition_needs(number, condition),
        Miss::Unserved(IrqKind::Roak) => &ROAK,
        Miss::Unserved(IrqKind::Rora) => &RORA,
        Miss::Settling(1) => &REQUESTER,
        Miss::Settling(_) => &CONTROLLER,
        Miss::AnyOf(rule) => rule_needs(rule),
    }
}

/// What an edge that reaches the aim needs of its driver, what is more special later.
pub(crate) fn needs(aim: Aim) -> &'static [Need]
    ensures { result.now ≡ needs aim }
{
    match aim {
        Aim::Event(event) => event_needs(event),
        Aim::Miss(miss) => miss_needs(miss),
    }
}
