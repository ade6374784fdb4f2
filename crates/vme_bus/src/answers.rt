//! The answer to an edge as numbers alone.
ghost use Rattle.std.specs.Prelude.{◌≡◌, Ok, Err, true, is_ok};
ghost use Rattle.vme_model.specs.declared.deliveries.Delivery.{Delivery as DeliveryValue};
ghost use Rattle.vme_bus.specs.Answers.{answer_in, answer_of, is_plain, refusal_in, is_short};

use vme_model::{Delivery, Refused};

/// The number of an edge that is accepted and delivers nothing.
pub(crate) const ACCEPTED: u8 = 0;

/// That of an edge that E1 refuses.
pub(crate) const NO_DRIVER: u8 = 1;

/// That of an edge that E2 refuses.
const ALREADY_THERE: u8 = 2;

/// That of an edge that E5 refuses.
const TRACE_FULL: u8 = 3;

/// What is added to the number of a settling rule that refuses an edge (E4).
const SETTLINGS: u8 = 16;

/// What is added to the number of a rule that refuses an edge (E3).
const RULES: u8 = 32;

/// The number of an edge that is accepted and delivers a status/ID.
pub(crate) const DELIVERED: u8 = 64;

/// What stands if nothing is delivered.
pub(crate) const NO_DELIVERY: Delivery = Delivery {
    handler: 0,
    level: 0,
    answered_by: 0,
    status: 0,
};

/// The answer to an edge, as numbers, so that a list of many takes little room.
///
/// Each number has a meaning, also one that no code here writes.
#[derive(Clone, Copy)]
pub struct AnswerRecord {
    /// 0 accepted, 1 E1, 2 E2, 3 E5, 64 accepted with a delivery; otherwise below 32 E4 by the
    /// settling rule of so much less 16, and any other E3 by the rule of so much less 32.
    pub number: u8,
    /// What is delivered, if the number is 64.
    pub delivery: Delivery,
}

impl AnswerRecord {
    /// That of an edge that is accepted and delivers nothing.
    pub const ACCEPTED: AnswerRecord = AnswerRecord {
        number: ACCEPTED,
        delivery: NO_DELIVERY,
    };

    /// The answer.
    #[inline(always)]
    pub fn answer(&self) -> Result<Option<Delivery>, Refused>
        ensures { result ≡ answer_of self.now }
    {
        answer_in(self.number, self.delivery)
    }

    /// Whether the edge was accepted.
    #[inline(always)]
    pub fn is_ok(&self) -> bool
        ensures { result ≡ is_ok (answer_of self.now) }
    {
        is_accepted(self.number)
    }

    /// Whether the edge was accepted and delivered nothing.
    #[inline(always)]
    pub fn is_plain(&self) -> bool
        ensures { result ≡ is_plain (answer_of self.now) }
    {
        self.number == ACCEPTED
    }
}

/// Whether a number is that of an edge that is accepted.
#[inline(always)]
pub(crate) fn is_accepted(number: u8) -> bool
    ensures { (d : DeliveryValue) → result ≡ is_ok (answer_in number d) }
{
    number == ACCEPTED || number == DELIVERED
}

/// The number of a refusal, by one of the first rules if a rule refuses.
#[inline(always)]
pub(crate) fn refusal_number(refused: Refused) -> u8
    ensures { is_short refused ≡ true → (d : DeliveryValue) → answer_in result d ≡ Err refused }
{
    match refused {
        Refused::NoSuchDriver => NO_DRIVER,
        Refused::AlreadyThere => ALREADY_THERE,
        Refused::TraceFull => TRACE_FULL,
        Refused::NotSettled(rule) => SETTLINGS + rule.min(15),
        Refused::Rule(rule) => RULES + rule.min(31),
    }
}

/// The refusal of a number that is no accepted edge's.
#[inline(always)]
fn refusal_in(number: u8) -> Refused
    ensures { result ≡ refusal_in number }
{
    match number {
        NO_DRIVER => Refused::NoSuchDriver,
        ALREADY_THERE => Refused::AlreadyThere,
        TRACE_FULL => Refused::TraceFull,
        _ => {
            if number < RULES {
                Refused::NotSettled(number.saturating_sub(SETTLINGS))
            } else {
                Refused::Rule(number - RULES)
            }
        }
    }
}

/// The answer of a number, with what is delivered if something is.
#[inline(always)]
pub(crate) fn answer_in(number: u8, delivery: Delivery) -> Result<Option<Delivery>, Refused>
    ensures { result ≡ answer_in number delivery }
{
    match number {
        ACCEPTED => Ok(None),
        DELIVERED => Ok(Some(delivery)),
        _ => Err(refusal_in(number)),
    }
}

/// The number of an edge that is accepted, whose delivery is kept if there is one.
#[inline(always)]
pub(crate) fn accepted_number(delivered: Option<Delivery>, delivery: &mut Delivery) -> u8
    ensures { answer_in result delivery.new ≡ Ok delivered }
{
    match delivered {
        None => ACCEPTED,
        Some(some) => {
            *delivery = some;
            DELIVERED
        }
    }
}
