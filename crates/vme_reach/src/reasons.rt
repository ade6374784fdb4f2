//! The words of a hindrance.
ghost use Rattle.std.specs.Prelude.{◌≡◌, Some};
ghost use Rattle.vme_reach.specs.Reasons.{general_reason};

use crate::hindrances::Hindrance;
use crate::needs::Need;
use std::fmt;
use vme_goals::{Aim, Miss};
use vme_model::{Driver, IrqKind};

/// An aim by its words.
#[derive(Drop)]
struct AimName(Aim);

impl fmt::Display for AimName {
    ghost use Rattle.vme_goals.specs.Goals.{aim_text};

    ghost output = { λ n. Some (aim_text n.0) };

    fn fmt<W: fmt::Write>(&self, f: &mut fmt::Formatter<W>) -> fmt::Result {
        match self.0 {
            Aim::Event(event) => f.write_str(event.name()),
            Aim::Miss(Miss::Rule(rule, condition)) => write!(f, "G{rule} {}", condition.pattern()),
            Aim::Miss(Miss::Unserved(kind)) => write!(f, "G22 {}", kind.service_text()),
            Aim::Miss(Miss::Settling(rule)) => write!(f, "S{rule}"),
            Aim::Miss(Miss::AnyOf(rule)) => f.write_str(rule.name()),
        }
    }
}

/// What the board in a slot lacks.
#[derive(Drop)]
struct BoardReason(u8, Need);

impl fmt::Display for BoardReason {
    ghost use Rattle.vme_reach.specs.Reasons.{board_reason};

    ghost output = { λ r. Some (board_reason r.0 r.1) };

    fn fmt<W: fmt::Write>(&self, f: &mut fmt::Formatter<W>) -> fmt::Result {
        let slot = self.0;
        match self.1 {
            Need::Controller => f.write_str("only the controller makes such an edge"),
            Need::Board => write!(f, "slot {slot} has no board"),
            Need::Requester => write!(f, "board {slot} has no requester"),
            Need::OnRequest => write!(f, "the requester of board {slot} is RWD"),
            Need::Interrupter => write!(f, "board {slot} has no interrupter"),
            Need::Kind(IrqKind::Roak) => write!(f, "the interrupter of board {slot} is RORA"),
            Need::Kind(IrqKind::Rora) => write!(f, "the interrupter of board {slot} is ROAK"),
        }
    }
}

/// What no driver has.
fn lack_of_all(need: Need) -> &'static str
    ensures { result.now ≡ general_reason need }
{
    match need {
        Need::Controller => "no driver is the controller",
        Need::Board => "no slot has a board",
        Need::Requester => "no board has a requester",
        Need::OnRequest => "no requester is ROR",
        Need::Interrupter => "no board has an interrupter",
        Need::Kind(IrqKind::Roak) => "no interrupter is ROAK",
        Need::Kind(IrqKind::Rora) => "no interrupter is RORA",
    }
}

/// What the driver lacks, or all drivers if it is none.
#[derive(Drop)]
struct Reason(Option<Driver>, Need);

impl fmt::Display for Reason {
    ghost use Rattle.vme_reach.specs.Reasons.{reason};

    ghost output = { λ r. Some (reason r.0 r.1) };

    fn fmt<W: fmt::Write>(&self, f: &mut fmt::Formatter<W>) -> fmt::Result {
        match self.0 {
            None => f.write_str(lack_of_all(self.1)),
            Some(Driver::Controller) => f.write_str("the controller is no board"),
            Some(Driver::Slot(slot)) => write!(f, "{}", BoardReason(slot, self.1)),
        }
    }
}

impl fmt::Display for Hindrance {
    ghost use Rattle.vme_reach.specs.Reasons.{hindrance_text};

    ghost output = { λ h. Some (hindrance_text h) };

    fn fmt<W: fmt::Write>(&self, f: &mut fmt::Formatter<W>) -> fmt::Result {
        let reason = Reason(self.driver, self.need);
        write!(f, "'{}' never comes: {reason}", AimName(self.aim))
    }
}
