//! What `rule` prints.
ghost use Rattle.std.specs.Prelude.{◌≡◌, ◌+◌, ◌*◌, ◌≤◌, ◌++◌, length};
ghost use Rattle.std.specs.List.{flat_map};
ghost use Rattle.vme_model.specs.Sources.{sources};
ghost use Rattle.vme_rulebook.specs.Pages as said;

use crate::lines::{push_bare, push_condition, push_rule, width};
use vme_model::{Rule, Sourced};
use vme_text::Text;

/// Appends a line for each rule.
fn push_rules(text: &mut Text, rules: &[Rule])
    requires { length text.old + 174 * length rules.now ≤ 8192 }
    ensures { text.new ≡ text.old ++ flat_map said.rule_line rules.now }
{
    for rule in rules {
        push_rule(text, *rule);
    }
}

/// Appends the lines of conditions of a rule, of which there are at most seven.
fn push_conditions(text: &mut Text, rule: Rule, conditions: &[Sourced])
    requires room { length text.old + 402 * length conditions.now ≤ 8000 }
    ensures text { text.new ≡ text.old ++ flat_map (said.condition_lines rule) conditions.now }
    ensures len { length text.new ≤ length text.old + 402 * length conditions.now }
{
    let width = width(rule);
    for sourced in conditions {
        push_condition(text, rule, width, sourced);
    }
}

/// The rule in a sentence, and a line for each of its conditions, with its source.
/// docs/COMMANDS.md has the lines.
#[tactic(auto, using(crate::proofs::Few::seven_at_most))]
pub fn one_rule(rule: Rule) -> Text
    ensures { result ≡ said.page rule }
{
    let mut text = Text::new();
    push_rule(&mut text, rule);
    push_conditions(&mut text, rule, rule.sources());
    push_bare(&mut text, rule);
    text
}

/// All rules in a sentence each, in the order of [`Rule::ALL`].
pub fn all_rules() -> Text
    ensures { result ≡ said.list }
{
    let mut text = Text::new();
    push_rules(&mut text, &Rule::ALL);
    text
}
