//! The ends of verdict lines: what stands after the last digit of the number.
ghost use Rattle.std.specs.Prelude.{◌≡◌, ◌+◌, ◌-◌, ◌*◌, ◌/◌, ◌%◌, ◌<◌, ◌≤◌, ◌^◌, ◌++◌, ◌∷◌, [], length, map, codes};
ghost use Rattle.vme_model.specs.Report.{verdict_line, verdict_text};
ghost use Rattle.std.specs.List.{list_all};
ghost use Rattle.vme_bus.specs.Answers.{answer_of, is_plain};
ghost use Rattle.vme_replay.specs.Recorded.{plain_lines};

use crate::counts::Count;
use arrayvec::ArrayVec;
use vme_bus::AnswerRecord;
use vme_explain::texts::push_verdict;
use vme_model::{Delivery, Refused};
use vme_text::{Text, push};

/// How many numbers of answers have an end of their own: all that are used but that of a delivery.
const ENDS_COUNT: usize = 64;

/// The end of the verdict line of each such number, in eight bytes, of which dots do not count. 4
/// to 15 are of no answer, and read as S0.
static ENDS: [[u8; 8]; ENDS_COUNT] = [
    *b" ok\n....",
    *b" E1\n....",
    *b" E2\n....",
    *b" E5\n....",
    *b" E4 S0\n.",
    *b" E4 S0\n.",
    *b" E4 S0\n.",
    *b" E4 S0\n.",
    *b" E4 S0\n.",
    *b" E4 S0\n.",
    *b" E4 S0\n.",
    *b" E4 S0\n.",
    *b" E4 S0\n.",
    *b" E4 S0\n.",
    *b" E4 S0\n.",
    *b" E4 S0\n.",
    *b" E4 S0\n.",
    *b" E4 S1\n.",
    *b" E4 S2\n.",
    *b" E4 S3\n.",
    *b" E4 S4\n.",
    *b" E4 S5\n.",
    *b" E4 S6\n.",
    *b" E4 S7\n.",
    *b" E4 S8\n.",
    *b" E4 S9\n.",
    *b" E4 S10\n",
    *b" E4 S11\n",
    *b" E4 S12\n",
    *b" E4 S13\n",
    *b" E4 S14\n",
    *b" E4 S15\n",
    *b" E3 G0\n.",
    *b" E3 G1\n.",
    *b" E3 G2\n.",
    *b" E3 G3\n.",
    *b" E3 G4\n.",
    *b" E3 G5\n.",
    *b" E3 G6\n.",
    *b" E3 G7\n.",
    *b" E3 G8\n.",
    *b" E3 G9\n.",
    *b" E3 G10\n",
    *b" E3 G11\n",
    *b" E3 G12\n",
    *b" E3 G13\n",
    *b" E3 G14\n",
    *b" E3 G15\n",
    *b" E3 G16\n",
    *b" E3 G17\n",
    *b" E3 G18\n",
    *b" E3 G19\n",
    *b" E3 G20\n",
    *b" E3 G21\n",
    *b" E3 G22\n",
    *b" E3 G23\n",
    *b" E3 G24\n",
    *b" E3 G25\n",
    *b" E3 G26\n",
    *b" E3 G27\n",
    *b" E3 G28\n",
    *b" E3 G29\n",
    *b" E3 G30\n",
    *b" E3 G31\n",
];

/// How many bytes of it count.
static SIZES: [u8; ENDS_COUNT] = [
    4, 4, 4, 4, 7, 7, 7, 7, 7, 7, 7, 7, 7, 7, 7, 7, 7, 7, 7, 7, 7, 7, 7, 7, 7, 7, 8, 8, 8, 8, 8, 8,
    7, 7, 7, 7, 7, 7, 7, 7, 7, 7, 8, 8, 8, 8, 8, 8, 8, 8, 8, 8, 8, 8, 8, 8, 8, 8, 8, 8, 8, 8, 8, 8,
];

/// Appends the end of any verdict line, put together anew.
#[inline(never)]
fn push_rare(text: &mut Text, answer: Result<Option<Delivery>, Refused>)
    requires { length text.old + 40 ≤ 8192 }
    ensures text { text.new ≡ text.old ++ ((codes " " ++ verdict_text answer) ++ 10 ∷ []) }
    ensures short { length text.new ≤ length text.old + 40 }
{
    let mut end: ArrayVec<u8, 40> = ArrayVec::new();
    push(&mut end, b" ");
    push_verdict(&mut end, &answer);
    push(&mut end, b"\n");
    text.push(end.as_slice());
}

/// Appends the verdict line of the edge whose number has the tens of `count` and this last digit:
/// at most 64 bytes.
///
/// Its end comes from the table by the number of the answer, so that one test asks what the answer
/// is: whether it is a delivery.
#[inline(always)]
pub(crate) fn push_line(text: &mut Text, count: &Count, digit: u8, found: &AnswerRecord)
    requires least { 48 ≤ digit }
    requires most { digit < 58 }
    requires small { 10 * (count.now / 10) + (digit - 48) < 2 ^ 64 }
    requires room { length text.old + 64 ≤ 8192 }
    ensures text { text.new ≡ text.old
        ++ verdict_line (10 * (count.now / 10) + (digit - 48)) (answer_of found.now) }
    ensures short { length text.new ≤ length text.old + 64 }
{
    let number = usize::from(found.number);
    if number < ENDS_COUNT {
        count.push_line(text, digit, ENDS[number], usize::from(SIZES[number]));
    } else {
        count.push_line(text, digit, *b"........", 0);
        push_rare(text, found.answer());
    }
}

/// Whether edges are all accepted and deliver nothing. It looks at all of them, since no processor
/// foretells where the first other one stands.
#[inline(always)]
pub(crate) fn are_plain(records: &[AnswerRecord]) -> bool
    ensures { result ≡ list_all is_plain (map answer_of records.now) }
{
    let mut are = true;
    for found in records {
        are &= found.is_plain();
    }
    are
}

/// Appends the verdict lines of ten edges that are accepted and deliver nothing, from `count` on,
/// which ends in 0.
///
/// Their ends are one constant, so that a line takes half of the work.
#[inline(always)]
pub(crate) fn push_plain(text: &mut Text, count: &Count)
    requires tens { count.now % 10 ≡ 0 }
    requires small { count.now + 10 ≤ 2 ^ 64 }
    requires room { length text.old + 640 ≤ 8192 }
    ensures { text.new ≡ text.old ++ plain_lines count.now 10 }
{
    let mut digit = b'0';
    'lines: while digit <= b'9' {
        count.push_line(text, digit, ENDS[0], usize::from(SIZES[0]));
        digit += 1;
    }
}
