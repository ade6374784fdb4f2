//! The ends of verdict lines: the last digit of the number, and what stands after it.
ghost use Rattle.std.specs.Prelude.{◌≡◌, ◌+◌, ◌<◌, ◌≤◌, ◌++◌, ◌∷◌, [], length, codes, decimal, take, Err};
ghost use Rattle.vme_model.specs.Report.{verdict_text};

use arrayvec::ArrayVec;
use vme_model::{Delivery, Refused};
use vme_reasons::texts::{push, push_verdict};
use vme_text::Text;

/// How many rules have an end of their own.
const RULE_COUNT: u8 = 32;

/// The end of the line that names each rule, in eight bytes.
static RULES: [[u8; 8]; 32] = [
    *b" E3 G0\n.",
    *b" E3 G1\n.",
    *b" E3 G2\n.",
    *b" E3 G3\n.",
    *b" E3 G4\n.",
    *b" E3 G5\n.",
    *b" E3 G6\n.",
    *b" E3 G7\n.",
    *b" E3 G8\n.",
    *b" E3 G9\n.",
    *b" E3 G10\n",
    *b" E3 G11\n",
    *b" E3 G12\n",
    *b" E3 G13\n",
    *b" E3 G14\n",
    *b" E3 G15\n",
    *b" E3 G16\n",
    *b" E3 G17\n",
    *b" E3 G18\n",
    *b" E3 G19\n",
    *b" E3 G20\n",
    *b" E3 G21\n",
    *b" E3 G22\n",
    *b" E3 G23\n",
    *b" E3 G24\n",
    *b" E3 G25\n",
    *b" E3 G26\n",
    *b" E3 G27\n",
    *b" E3 G28\n",
    *b" E3 G29\n",
    *b" E3 G30\n",
    *b" E3 G31\n",
];

/// Appends the first `many` bytes of the end of a line. It is handed over as a value, since the bytes of a
/// constant could be the text's own, for all that the compiler knows.
#[inline(always)]
fn push_tail(text: &mut Text, tail: [u8; 8], many: usize)
    requires many { many ≤ 8 }
    requires room { length text.old + 8 ≤ 8192 }
    ensures { text.new ≡ text.old ++ take many tail }
{
    text.append::<8>(&tail, many);
}

/// Appends the end of the line of an edge that a rule refuses.
#[inline(always)]
fn push_rule(text: &mut Text, rule: u8)
    requires known { rule < 32 }
    requires room { length text.old + 8 ≤ 8192 }
    ensures { text.new ≡ text.old
        ++ ((codes " " ++ verdict_text (Err (Refused.Rule rule))) ++ 10 ∷ []) }
{
    let len = if rule < 10 { 7 } else { 8 };
    push_tail(text, RULES[usize::from(rule)], len);
}

/// Appends the end of any verdict line, put together anew.
#[inline(never)]
fn push_rare(text: &mut Text, answer: Result<Option<Delivery>, Refused>)
    requires { length text.old + 40 ≤ 8192 }
    ensures { text.new ≡ text.old ++ ((codes " " ++ verdict_text answer) ++ 10 ∷ []) }
{
    let mut end: ArrayVec<u8, 40> = ArrayVec::new();
    push(&mut end, b" ");
    push_verdict(&mut end, &answer);
    push(&mut end, b"\n");
    text.push(end.as_slice());
}

/// Appends the end of the verdict line of an answer whose end is not always the same.
#[inline(always)]
fn push_other(text: &mut Text, answer: Result<Option<Delivery>, Refused>)
    requires { length text.old + 40 ≤ 8192 }
    ensures { text.new ≡ text.old ++ ((codes " " ++ verdict_text answer) ++ 10 ∷ []) }
{
    match answer {
        Err(Refused::Rule(rule)) if rule < RULE_COUNT => push_rule(text, rule),
        _ => push_rare(text, answer),
    }
}

/// Appends the end of the verdict line of an answer, from the last digit of its number on: one copy
/// where it is always the same.
#[inline(always)]
pub(crate) fn push_end(text: &mut Text, digit: u8, answer: Result<Option<Delivery>, Refused>)
    requires { length text.old + 41 ≤ 8192 }
    ensures { text.new ≡ text.old
        ++ (digit ∷ ((codes " " ++ verdict_text answer) ++ 10 ∷ [])) }
{
    match answer {
        Ok(None) => push_tail(text, [digit, b' ', b'o', b'k', b'\n', b'.', b'.', b'.'], 5),
        Err(Refused::NoSuchDriver) => {
            push_tail(text, [digit, b' ', b'E', b'1', b'\n', b'.', b'.', b'.'], 5)
        }
        Err(Refused::AlreadyThere) => {
            push_tail(text, [digit, b' ', b'E', b'2', b'\n', b'.', b'.', b'.'], 5)
        }
        _ => {
            text.append::<1>(&[digit], 1);
            push_other(text, answer);
        }
    }
}
