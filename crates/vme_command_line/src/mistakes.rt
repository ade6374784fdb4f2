//! What is wrong with words after `--until` that name nothing.
ghost use Rattle.std.specs.Prelude.{◌≡◌, ◌≤◌, find, length};
ghost use Rattle.std.specs.List.{list_any};
ghost use Rattle.vme_model.specs.Sentences.{all_rules};
ghost use Rattle.vme_goals.specs.Goals.{all_misses};
ghost use Rattle.vme_command_line.specs.Mistakes as spec;

use arrayvec::ArrayVec;
use vme_goals::{Aim, Miss, aim_of};
use vme_model::{Rule, Version};
use vme_text::push;

/// Why words name nothing that a trace can reach in a version of the rules.
#[derive(Clone, Copy, PartialEq, Eq, Debug)]
pub(crate) enum Mistake {
    /// They are the name of a rule that asks for nothing in this version.
    NoCondition,
    /// They are an event of the other version.
    OtherEvent,
    /// They are a condition or a settling rule of the other version.
    OtherCondition,
    /// They are a condition with a level in the place of N.
    Level,
    /// They are a condition without its rule.
    Bare,
    /// They are an edge rule with a condition that it does not have.
    Foreign,
    /// They are a settling rule with more words.
    Settled,
    /// They begin as a rule does, but no rule has this name.
    NoRule,
    /// They are nothing of all that.
    Unknown,
}

/// The other version of the rules.
fn other(version: Version) -> Version
    ensures { result ≡ spec.other version }
{
    match version {
        Version::One => Version::Two,
        Version::Two => Version::One,
    }
}

/// Whether the rule guards an edge: G1 to G26 do.
fn is_edge_rule(rule: Rule) -> bool
    ensures { result ≡ spec.is_edge_rule rule }
{
    !matches!(
        rule,
        Rule::E1 | Rule::E2 | Rule::E5 | Rule::S1 | Rule::S2 | Rule::S3 | Rule::S4
    )
}

/// Whether a byte is this one, or a digit if this one is N.
fn is_alike(byte: u8, wanted: u8) -> bool
    ensures { result ≡ spec.is_alike byte wanted }
{
    byte == wanted || wanted == b'N' && byte.is_ascii_digit()
}

/// Whether the words are this text, or have digits in the place of N.
fn are_alike(words: &[u8], text: &[u8]) -> bool
    ensures { result ≡ spec.are_alike words.now text.now }
{
    words.len() == text.len()
        && words
            .iter()
            .zip(text)
            .all(|(byte, wanted)| is_alike(*byte, *wanted))
}

/// Whether the words are this text, of at most 53 bytes, or have digits in the place of N, with the
/// mark of `explain` or without it.
fn are_marked(words: &[u8], text: &[u8]) -> bool
    requires { length text.now ≤ 53 }
    ensures { result ≡ spec.are_marked words.now text.now }
{
    let mut marked: ArrayVec<u8, 80> = ArrayVec::new();
    push(&mut marked, text);
    push(&mut marked, b" (profile)");
    are_alike(words, text) || are_alike(words, marked.as_slice())
}

/// Whether the words are those of the miss with a level in the place of N.
fn is_levelled(words: &[u8], miss: Miss) -> bool
    ensures { result ≡ spec.is_levelled words.now miss }
{
    are_marked(words, miss.text().as_slice())
}

/// Whether the words are those of the condition of the miss, without its rule.
pub(crate) fn is_bare(words: &[u8], miss: Miss) -> bool
    ensures { result ≡ spec.is_bare words.now miss }
{
    match miss {
        Miss::Rule(_, condition) => are_marked(words, condition.pattern().as_bytes()),
        Miss::Unserved(kind) => are_marked(words, kind.service_text().as_bytes()),
        Miss::Settling(_) | Miss::AnyOf(_) => false,
    }
}

/// Whether the words are those of some miss with a level in the place of N.
fn have_level(words: &[u8], misses: &[Miss]) -> bool
    ensures { result ≡ list_any (spec.is_levelled words.now) misses.now }
{
    misses.iter().any(|miss| is_levelled(words, *miss))
}

/// Whether the words are those of any miss with a level in the place of N.
fn have_any_level(words: &[u8]) -> bool
    ensures { result ≡ list_any (spec.is_levelled words.now) all_misses }
{
    have_level(words, &Miss::ALL)
}

/// Whether the words are those of the condition of some miss, without its rule.
fn lack_rule(words: &[u8], misses: &[Miss]) -> bool
    ensures { result ≡ list_any (spec.is_bare words.now) misses.now }
{
    misses.iter().any(|miss| is_bare(words, *miss))
}

/// Whether the words are those of the condition of any miss, without its rule.
fn lack_any_rule(words: &[u8]) -> bool
    ensures { result ≡ list_any (spec.is_bare words.now) all_misses }
{
    lack_rule(words, &Miss::ALL)
}

/// Whether the words begin with the name of the rule, which a blank follows if they are more.
fn begin_with(words: &[u8], rule: Rule) -> bool
    ensures { result ≡ spec.begin_with words.now rule }
{
    let mut name: ArrayVec<u8, 4> = ArrayVec::new();
    push(&mut name, rule.name().as_bytes());
    if words == name.as_slice() {
        return true;
    }
    name.push(b' ');
    words.starts_with(name.as_slice())
}

/// The first of these rules with whose name the words begin.
fn rule_before(rules: &[Rule], words: &[u8]) -> Option<Rule>
    ensures { result ≡ find (spec.begin_with words.now) rules.now }
{
    rules.iter().copied().find(|rule| begin_with(words, *rule))
}

/// The rule with whose name the words begin.
fn rule_in(words: &[u8]) -> Option<Rule>
    ensures { result ≡ find (spec.begin_with words.now) all_rules }
{
    rule_before(&Rule::ALL, words)
}

/// Whether the words begin as the name of a rule does, in capitals or not.
fn are_rule_like(words: &[u8]) -> bool
    ensures { result ≡ spec.are_rule_like words.now }
{
    match words {
        [b'G' | b'g' | b'S' | b's' | b'E' | b'e', digit, ..] => digit.is_ascii_digit(),
        _ => false,
    }
}

/// What is wrong with words that begin with the name of a rule.
fn mistake_with(rule: Rule) -> Mistake
    ensures { result ≡ spec.mistake_with rule }
{
    match rule {
        Rule::E1 | Rule::E2 | Rule::E5 => Mistake::Unknown,
        Rule::S1 | Rule::S2 | Rule::S3 | Rule::S4 => Mistake::Settled,
        _ => Mistake::Foreign,
    }
}

/// What is wrong with words that are not a goal of any version.
fn mistake_by_rule(words: &[u8]) -> Mistake
    ensures { result ≡ spec.mistake_by_rule words.now }
{
    match rule_in(words) {
        Some(rule) => mistake_with(rule),
        None if are_rule_like(words) => Mistake::NoRule,
        None => Mistake::Unknown,
    }
}

/// What is wrong with words that have no level in the place of N.
fn mistake_without(words: &[u8]) -> Mistake
    ensures { result ≡ spec.mistake_without words.now }
{
    if lack_any_rule(words) {
        Mistake::Bare
    } else {
        mistake_by_rule(words)
    }
}

/// What is wrong with words that are not an edge rule alone.
fn mistake_beside(words: &str, version: Version) -> Mistake
    ensures { result ≡ spec.mistake_beside words.now version }
{
    match aim_of(words, other(version)) {
        Some(Aim::Event(_)) => Mistake::OtherEvent,
        Some(Aim::Miss(_)) => Mistake::OtherCondition,
        None if have_any_level(words.as_bytes()) => Mistake::Level,
        None => mistake_without(words.as_bytes()),
    }
}

/// What is wrong with words that name nothing that a trace can reach in that version.
pub(crate) fn mistake_in(words: &str, version: Version) -> Mistake
    ensures { result ≡ spec.mistake_in words.now version }
{
    match Rule::named(words.as_bytes()) {
        Some(rule) if is_edge_rule(rule) => Mistake::NoCondition,
        _ => mistake_beside(words, version),
    }
}
