//! How often a trace was refused, by what refused it.
ghost use Rattle.std.specs.Prelude.{◌≡◌, ◌+◌, ◌<◌, ◌^◌, ◌∷◌, [], Err, length};
ghost use Rattle.vme_summary.specs.Sums.{Traces, total};
ghost use Rattle.vme_summary.specs.Tally.{Answers, Answered, refused_for};
ghost use Rattle.vme_summary.specs.Tallied.{IsNamed};

use crate::counts::{add_counts, count};
use crate::rules::RULES;
use vme_model::Refused;

/// Places for the settling rules 1 to 4; none has the number 0.
const SETTLINGS: usize = 5;

/// The refused edges of a trace, by what refused them.
#[derive(Drop)]
pub(crate) struct Refusals {
    pub(crate) rules: [u64; RULES],
    pub(crate) settlings: [u64; SETTLINGS],
    pub(crate) no_such_driver: u64,
    pub(crate) already_there: u64,
    pub(crate) trace_full: u64,
}

impl Refusals {
    ghost use Rattle.vme_summary.specs.Tallied.{IsRefusalsOf};
    ghost use Rattle.vme_summary.specs.Summed.{AreRefusalsOf};

    /// The refused edges of a trace before its first edge: none.
    pub(crate) fn new() -> Refusals
        ensures { IsRefusalsOf [] result }
    {
        Refusals {
            rules: [0; RULES],
            settlings: [0; SETTLINGS],
            no_such_driver: 0,
            already_there: 0,
            trace_full: 0,
        }
    }

    /// Takes in a refusal.
    pub(crate) fn note(&mut self, refused: Refused)
        ensures { (t : Answers) (a : Answered) → IsRefusalsOf t self.old
            → a.answer ≡ Err refused → length t + 1 < 2 ^ 64 → IsRefusalsOf (a ∷ t) self.new }
    {
        match refused {
            Refused::NoSuchDriver => self.no_such_driver = self.no_such_driver.saturating_add(1),
            Refused::AlreadyThere => self.already_there = self.already_there.saturating_add(1),
            Refused::Rule(rule) => count(&mut self.rules, rule),
            Refused::NotSettled(rule) => count(&mut self.settlings, rule),
            Refused::TraceFull => self.trace_full = self.trace_full.saturating_add(1),
        }
    }

    /// Takes in the refusals of one more trace.
    pub(crate) fn add(&mut self, other: &Refusals)
        ensures { (ts : Traces) (t : Answers) → AreRefusalsOf ts self.old
            → IsRefusalsOf t other.now → AreRefusalsOf (t ∷ ts) self.new }
    {
        add_counts(&mut self.rules, &other.rules);
        add_counts(&mut self.settlings, &other.settlings);
        self.no_such_driver = self.no_such_driver.saturating_add(other.no_such_driver);
        self.already_there = self.already_there.saturating_add(other.already_there);
        self.trace_full = self.trace_full.saturating_add(other.trace_full);
    }

    /// How many edges were refused so; rules are G1 to G26 and S1 to S4.
    pub(crate) fn how_often(&self, refused: Refused) -> u64
        requires { IsNamed refused }
        ensures one { (t : Answers) → IsRefusalsOf t self.now → result ≡ refused_for refused t }
        ensures all { (ts : Traces) → AreRefusalsOf ts self.now
            → result ≡ total (refused_for refused) ts }
    {
        match refused {
            Refused::NoSuchDriver => self.no_such_driver,
            Refused::AlreadyThere => self.already_there,
            Refused::Rule(rule) => self.rules[usize::from(rule)],
            Refused::NotSettled(rule) => self.settlings[usize::from(rule)],
            Refused::TraceFull => self.trace_full,
        }
    }
}
