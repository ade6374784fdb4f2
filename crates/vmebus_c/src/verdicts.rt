//! The answer of a step as text, and the fault of a scenario.
ghost use Rattle.std.specs.Prelude.{◌≡◌, ◌≤◌, ◌%◌};
ghost use Rattle.arrayvec.specs.ArrayVec.{array_vec_len};
ghost use Rattle.vmebus_c.specs.Rooms.{most_verdict};
ghost use Rattle.vmebus_c.specs.Verdicts.{answer_of_numbers, delivered_of_number, delivery_of_number, is_rule, verdict_of_numbers};

use arrayvec::ArrayVec;
use vme_explain::texts::push_verdict;
use vme_model::{Delivery, Refused};

/// Room for the text of an answer.
const VERDICT: usize = 37;

/// The rules of E3 are G1 to G26.
const LAST_RULE: u8 = 26;

/// The rules of E4 are S1 to S4.
const LAST_SETTLING_RULE: u8 = 4;

/// The lowest byte of a number.
fn low_byte(number: u32) -> u8
    ensures { result ≡ number % 256 }
{
    (number % 0x100) as u8
}

/// What a number delivers; 0 is nothing.
fn delivered_of(number: u32) -> Option<Delivery>
    ensures { result ≡ delivered_of_number number }
{
    if number == 0 {
        return None;
    }
    Some(Delivery {
        handler: low_byte(number / 0x1_0000),
        level: (number / 0x100_0000 % 0x80) as u8,
        answered_by: low_byte(number / 0x100),
        status: low_byte(number),
    })
}

/// Whether rules have such a number, from 1 to that of the last.
fn is_rule(last: u8, number: u8) -> bool
    ensures { result ≡ is_rule last number }
{
    1 <= number && number <= last
}

/// The answer of a step, by the numbers that it returns and delivers.
fn answer_of(answer: u32, delivered: u32) -> Option<Result<Option<Delivery>, Refused>>
    ensures { result ≡ answer_of_numbers answer delivered }
{
    let rule = low_byte(answer);
    if answer == 0 {
        Some(Ok(delivered_of(delivered)))
    } else if answer == 0x100 {
        Some(Err(Refused::NoSuchDriver))
    } else if answer == 0x200 {
        Some(Err(Refused::AlreadyThere))
    } else if answer / 0x100 == 3 && is_rule(LAST_RULE, rule) {
        Some(Err(Refused::Rule(rule)))
    } else if answer / 0x100 == 4 && is_rule(LAST_SETTLING_RULE, rule) {
        Some(Err(Refused::NotSettled(rule)))
    } else {
        None
    }
}

/// The text of an answer, as `replay` has it. It is empty if no step returns the number.
pub(crate) fn verdict_of(answer: u32, delivered: u32) -> ArrayVec<u8, VERDICT>
    ensures text { result.items ≡ verdict_of_numbers answer delivered }
    ensures short { array_vec_len result ≤ most_verdict }
{
    let mut line = ArrayVec::new();
    if let Some(answer) = answer_of(answer, delivered) {
        push_verdict(&mut line, &answer);
    }
    line
}
