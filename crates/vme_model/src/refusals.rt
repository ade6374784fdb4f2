//! Why an edge or a plan is refused.
ghost use Rattle.std.specs.Prelude.{Some, Err};
ghost use Rattle.vme_model.specs.Report.{verdict_text};

use crate::sets::ChainId;
use std::error::Error;
use std::fmt;

/// Why a backplane refuses an edge, E1 to E5, in the order of the tests. Source: profile.
#[derive(Clone, Copy, PartialEq, Eq, Debug)]
pub enum Refused {
    /// E1: the edge is not well formed, or the plan has no such board or part.
    NoSuchDriver,
    /// E2: the driver is in that state already.
    AlreadyThere,
    /// E3: the guard of this rule, G1 to G26, fails.
    Rule(u8),
    /// E4: this settling rule, S1 to S4, fails.
    NotSettled(u8),
    /// E5: the trace can hold no further edge.
    TraceFull,
}

impl fmt::Display for Refused {
    ghost output = { λ r. Some (verdict_text (Err r)) };

    fn fmt<W: fmt::Write>(&self, f: &mut fmt::Formatter<W>) -> fmt::Result {
        match self {
            Refused::NoSuchDriver => f.write_str("E1"),
            Refused::AlreadyThere => f.write_str("E2"),
            Refused::Rule(rule) => write!(f, "E3 G{rule}"),
            Refused::NotSettled(rule) => write!(f, "E4 S{rule}"),
            Refused::TraceFull => f.write_str("E5"),
        }
    }
}

impl Error for Refused {}

/// The field of a plan that is out of range (P8). Source: profile.
#[derive(Clone, Copy, PartialEq, Eq, Debug)]
pub enum Field {
    Slots,
    Slot,
    RequesterLevel,
    RequesterBurst,
    InterrupterLevel,
    Handler,
    JumperSlot,
    JumperChains,
}

impl fmt::Display for Field {
    fn fmt<W: fmt::Write>(&self, f: &mut fmt::Formatter<W>) -> fmt::Result {
        f.write_str(match self {
            Field::Slots => "slots",
            Field::Slot => "slot",
            Field::RequesterLevel => "requester.level",
            Field::RequesterBurst => "requester.burst",
            Field::InterrupterLevel => "interrupter.level",
            Field::Handler => "handler",
            Field::JumperSlot => "jumper.slot",
            Field::JumperChains => "jumper.chains",
        })
    }
}

impl Error for Field {}

/// Why a plan is refused, P1 to P9. Its text begins with the number that users see.
#[derive(Clone, Copy, PartialEq, Eq, Debug, thiserror::Error)]
pub enum PlanError {
    /// Slot 1 has no board, so there is no controller.
    #[error("P1 slot 1 is empty")]
    NoController,
    #[error("P2 {slots} slots, at most 21")]
    TooManySlots { slots: u8 },
    /// Two boards, two jumpers, or a board and a jumper name the slot.
    #[error("P3 slot {slot} is named twice")]
    SlotTwice { slot: u8 },
    /// An empty slot below a board that works the chain has no jumper for it.
    #[error("P4 slot {slot} breaks chain {chain}")]
    ChainBroken { slot: u8, chain: ChainId },
    #[error("P5 slot {slot} requests a level that SGL does not serve")]
    LevelNotServed { slot: u8 },
    #[error("P6 interrupt level {level} has two handlers")]
    HandlerTwice { level: u8 },
    #[error("P7 the handler in slot {slot} has no requester")]
    HandlerWithoutRequester { slot: u8 },
    #[error("P8 {field} is out of range")]
    OutOfRange { field: Field },
    #[error("P9 no memory")]
    Memory,
}
