//! What `--slack` names.
ghost use Rattle.std.specs.Prelude.{◌≡◌, ◌<◌, MatchOption};
ghost use Rattle.vme_moments.specs.Before.{IsKnown};
ghost use Rattle.vme_words.specs.Slacks.{AreSlacks, IsDriverName, IsNoDriver, NameNoSlacks, place_of};

use crate::seed_in;
use vme_model::Driver;
use vme_moments::Slacks;

/// The driver of that name.
fn driver_in(name: &str) -> Option<Driver>
    ensures { MatchOption result (IsNoDriver name.now) (IsDriverName name.now) }
{
    match name.as_bytes() {
        [b'c'] => Some(Driver::Controller),
        [ones @ b'1'..=b'9'] => Some(Driver::Slot(*ones - b'0')),
        [b'1', ones @ b'0'..=b'9'] => Some(Driver::Slot(10 + (*ones - b'0'))),
        [b'2', ones @ b'0'..=b'1'] => Some(Driver::Slot(20 + (*ones - b'0'))),
        _ => None,
    }
}

/// Where a driver stands among all: the controller, and then the boards by slot.
fn place_of(driver: Driver) -> usize
    requires { IsKnown driver }
    ensures place { result ≡ place_of driver }
    ensures within { result < 22 }
{
    match driver {
        Driver::Controller => 0,
        Driver::Slot(slot) => usize::from(slot),
    }
}

/// Drivers with a slack each, as far as a text was read.
#[derive(Drop)]
struct Named {
    slacks: Slacks,
    are_named: [bool; 22],
}

impl Named {
    /// Adds a driver with its slack, as `c=2`, where it is not named yet.
    fn add(&mut self, text: &str) -> Option<()> {
        let (name, slack) = text.split_once("=")?;
        let driver = driver_in(name)?;
        let slack = seed_in(slack)?;
        let place = place_of(driver);
        if self.are_named[place] {
            return None;
        }
        self.are_named[place] = true;
        self.slacks.set(driver, slack);
        Some(())
    }
}

/// The slacks of drivers that are named with one each; others have none.
fn each_in(text: &str) -> Option<Slacks> {
    let mut named = Named {
        slacks: Slacks::all(0),
        are_named: [false; 22],
    };
    let mut rest = text;
    while let Some((first, others)) = rest.split_once(",") {
        named.add(first)?;
        rest = others;
    }
    named.add(rest)?;
    Some(named.slacks)
}

/// The slacks that a text names: one number for all drivers, or drivers with a number each.
pub(crate) fn slacks_in(text: &str) -> Option<Slacks>
    ensures { MatchOption result (NameNoSlacks text.now) (AreSlacks text.now) }
{
    match seed_in(text) {
        Some(slack) => Some(Slacks::all(slack)),
        None => each_in(text),
    }
}
