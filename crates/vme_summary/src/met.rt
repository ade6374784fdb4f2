//! Which situations a trace came to.
ghost use Rattle.std.specs.Prelude.{◌≡◌, []};
ghost use Rattle.vme_summary.specs.Tally.{Answers, times_met, first_met};
ghost use Rattle.vme_summary.specs.Tallied.{met_once, met_after};

use vme_goals::Event;

/// How often a trace came to each situation, and by which edge first.
#[derive(Drop)]
pub(crate) struct Met {
    pub(crate) times: [u64; Event::COUNT],
    pub(crate) first: [Option<u64>; Event::COUNT],
}

impl Met {
    ghost use Rattle.vme_summary.specs.Tallied.{IsMetOf};

    /// None.
    pub(crate) fn new() -> Met
        ensures { IsMetOf [] result }
    {
        Met {
            times: [0; Event::COUNT],
            first: [None; Event::COUNT],
        }
    }

    /// Takes in a situation that the n-th edge brings about.
    fn note_one(&mut self, event: Event, n: u64)
        ensures { self.new ≡ met_once n self.old event }
    {
        let place = event.index();
        self.times[place] = self.times[place].saturating_add(1);
        self.first[place] = self.first[place].or(Some(n));
    }

    /// Takes in the situations that the n-th edge brings about.
    pub(crate) fn note(&mut self, events: &[Event], n: u64)
        ensures { self.new ≡ met_after n self.old events.now }
    {
        for event in events {
            self.note_one(*event, n);
        }
    }

    /// How many edges brought the situation about.
    pub(crate) fn times(&self, event: Event) -> u64
        ensures { (t : Answers) → IsMetOf t self.now → result ≡ times_met event t }
    {
        self.times[event.index()]
    }

    /// The first of them.
    pub(crate) fn first(&self, event: Event) -> Option<u64>
        ensures { (t : Answers) → IsMetOf t self.now → result ≡ first_met event t }
    {
        self.first[event.index()]
    }
}
