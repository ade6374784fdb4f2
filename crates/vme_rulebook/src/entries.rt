//! What `rule` explains: a rule, or another code.
ghost use Rattle.std.specs.Prelude.{◌≡◌};
ghost use Rattle.vme_rulebook.specs.Entries as said;

use crate::codes::Code;
use crate::pages::one_rule;
use vme_model::Rule;
use vme_text::Text;

/// A code that `rule` explains. Source: profile.
#[derive(Clone, Copy, PartialEq, Eq, Debug)]
pub enum Entry {
    /// A rule, with its conditions.
    Rule(Rule),
    /// A verdict that names a rule, or a fault.
    Code(Code),
}

impl Entry {
    /// The rule or the other code of that name, if there is one.
    pub fn named(words: &[u8]) -> Option<Entry>
        ensures { result ≡ said.entry_named words.now }
    {
        match Rule::named(words) {
            Some(rule) => Some(Entry::Rule(rule)),
            None => match Code::named(words) {
                Some(code) => Some(Entry::Code(code)),
                None => None,
            },
        }
    }

    /// What `rule` prints of it.
    pub fn text(self) -> Text
        ensures { result ≡ said.entry_text self }
    {
        match self {
            Entry::Rule(rule) => one_rule(rule),
            Entry::Code(code) => {
                let mut text = Text::new();
                text.push(code.text().as_bytes());
                text
            }
        }
    }
}
