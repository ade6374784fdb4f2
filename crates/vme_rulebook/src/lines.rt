//! The lines of a rule.
ghost use Rattle.std.specs.Prelude.{◌≡◌, ◌+◌, ◌-◌, ◌≤◌, ◌++◌, IfSome, length, option_map, take};
ghost use Rattle.vme_rulebook.specs.Pages as said;

use vme_model::{Chapter, Condition, IrqKind, Rule, Source, Sourced, Wire, board_text};
use vme_text::Text;

/// Blanks for the column of the conditions: no condition has more bytes.
const BLANKS: &[u8; 48] = b"                                                ";

/// The first text of the condition.
fn first_text(condition: Condition) -> &'static str
    ensures text { result.now ≡ said.first_text condition }
    ensures short { length result.now ≤ 48 }
{
    match condition {
        Condition::Served => IrqKind::Roak.service_text(),
        _ => condition.pattern(),
    }
}

/// The second text of the condition, if it has one.
fn second_text(condition: Condition) -> Option<&'static str>
    ensures text { option_map (λ text. text.now) result ≡ said.second_text condition }
    ensures short { IfSome result (λ text. length text.now ≤ 48) }
{
    match condition {
        Condition::Served => Some(IrqKind::Rora.service_text()),
        _ => None,
    }
}

/// The length of the longest text of the condition.
fn longest(condition: Condition) -> usize
    ensures is { result ≡ said.longest condition }
    ensures short { result ≤ 48 }
{
    let first = first_text(condition).len();
    match second_text(condition) {
        Some(second) => first.max(second.len()),
        None => first,
    }
}

/// The length of the longest text of the rule's conditions.
pub(crate) fn width(rule: Rule) -> usize
    ensures is { result ≡ said.width rule }
{
    rule.sources().iter().fold(
        0,
        |most: usize, sourced| most.max(longest(sourced.condition)),
    )
}

/// Where a condition comes from.
fn source_text(source: Source) -> &'static str
    ensures text { result.now ≡ said.source_text source }
    ensures short { length result.now ≤ 16 }
{
    match source {
        Source::Standard(Chapter::DataTransfer) | Source::LeastTime(Chapter::DataTransfer) => {
            "standard 2"
        }
        Source::Standard(Chapter::Arbitration) | Source::LeastTime(Chapter::Arbitration) => {
            "standard 3"
        }
        Source::Standard(Chapter::Interrupts) | Source::LeastTime(Chapter::Interrupts) => {
            "standard 4"
        }
        Source::EachCycle => "standard 2 and 4",
        Source::Profile(_) => "profile",
    }
}

/// In which version alone the rule has conditions.
fn version_text(rule: Rule) -> &'static str
    ensures text { result.now ≡ said.version_text rule }
    ensures short { length result.now ≤ 14 }
{
    if rule.is_first_versions() {
        ", in version 1"
    } else {
        ""
    }
}

/// Appends why a condition comes from there, at most 72 bytes.
fn push_why(text: &mut Text, source: Source)
    requires { length text.old + 72 ≤ 8192 }
    ensures text { text.new ≡ text.old ++ said.why_text source }
    ensures len { length text.new ≤ length text.old + 72 }
{
    match source {
        Source::LeastTime(_) => text.push(b": it takes the place of a minimum time"),
        Source::Profile(reason) => {
            text.push(b": ");
            text.push(reason.text().as_bytes());
        }
        Source::Standard(_) | Source::EachCycle => {}
    }
}

/// The blanks that fill a text of a condition up to the longest of its rule.
fn filling(rule: Rule, width: usize, condition: &str) -> &'static [u8]
    requires { width ≡ said.width rule }
    ensures blanks { result.now ≡ take (said.width rule - length condition.now) said.blanks }
    ensures short { length result.now ≤ 48 }
{
    let blanks: &[u8] = BLANKS;
    &blanks[..width.saturating_sub(condition.len()).min(blanks.len())]
}

/// Appends a text of a condition, filled up with blanks: at most 98 bytes.
fn push_column(text: &mut Text, rule: Rule, width: usize, condition: &str)
    requires room { length text.old + 98 ≤ 8192 }
    requires width { width ≡ said.width rule }
    requires short { length condition.now ≤ 48 }
    ensures text { text.new ≡ text.old ++ said.column rule condition.now }
    ensures len { length text.new ≤ length text.old + 98 }
{
    text.push(condition.as_bytes());
    text.push(filling(rule, width, condition));
    text.push(b"  ");
}

/// Appends the line of a text of a condition, at most 201 bytes.
fn push_source(text: &mut Text, rule: Rule, width: usize, source: Source, condition: &str)
    requires room { length text.old + 201 ≤ 8192 }
    requires width { width ≡ said.width rule }
    requires short { length condition.now ≤ 48 }
    ensures text { text.new ≡ text.old ++ said.source_line rule source condition.now }
    ensures len { length text.new ≤ length text.old + 201 }
{
    push_column(text, rule, width, condition);
    text.push(source_text(source).as_bytes());
    text.push(version_text(rule).as_bytes());
    push_why(text, source);
    text.push(b"\n");
}

/// Appends the lines of a condition, at most 402 bytes.
pub(crate) fn push_condition(text: &mut Text, rule: Rule, width: usize, sourced: &Sourced)
    requires room { length text.old + 402 ≤ 8192 }
    requires width { width ≡ said.width rule }
    ensures text { text.new ≡ text.old ++ said.condition_lines rule sourced.now }
    ensures len { length text.new ≤ length text.old + 402 }
{
    let condition = sourced.condition;
    push_source(text, rule, width, sourced.source, first_text(condition));
    if let Some(second) = second_text(condition) {
        push_source(text, rule, width, sourced.source, second);
    }
}

/// Appends the name of a rule, its edge, and its sentence: at most 174 bytes.
pub(crate) fn push_rule(text: &mut Text, rule: Rule)
    requires { length text.old + 174 ≤ 8192 }
    ensures text { text.new ≡ text.old ++ said.rule_line rule }
    ensures len { length text.new ≤ length text.old + 174 }
{
    text.push(rule.name().as_bytes());
    text.push(b" ");
    text.push(rule.edge().as_bytes());
    text.push(b" ");
    text.push(rule.sentence().as_bytes());
    text.push(b"\n");
}

/// Appends the conditions of a rule that have no source, those of E1, E2 and E5: at most 150 bytes.
pub(crate) fn push_bare(text: &mut Text, rule: Rule)
    requires { length text.old + 150 ≤ 8192 }
    ensures { text.new ≡ text.old ++ said.bare_lines rule }
{
    match rule {
        Rule::E1 => {
            text.push(board_text(Wire::Br, None).as_bytes());
            text.push(b"\n");
            text.push(Wire::Br.part_text().as_bytes());
            text.push(b"\n");
            text.push(Wire::Irq.part_text().as_bytes());
            text.push(b"\n");
        }
        Rule::E2 => text.push(
            b"DRIVER WIRE is high\nDRIVER WIRE is off\nDRIVER WIRE is low\nDRIVER WIRE is on\n",
        ),
        Rule::E5 => {
            text.push(Condition::HasRoom.pattern().as_bytes());
            text.push(b"\n");
        }
        _ => {}
    }
}
