//! A line as the count of the drivers that pull it low.
ghost use Rattle.std.specs.Prelude.{◌≡◌, ◌<◌, ◌+◌, nat_lt};

use std::marker::Model;

/// An open-collector line, as the number of its drivers that pull it low, 0 to 22: the controller
/// and 21 boards.
///
/// The line is low while at least one of them pulls it. Source: Std 1014, chapters 2 and 3.
#[derive(Clone, Copy, PartialEq, Eq, Debug)]
pub struct OrLine {
    pulls: u8,
}

impl Model for OrLine {
    ghost use Rattle.std.specs.Prelude.{ℕ};

    ghost Value = { ℕ };

    ghost view = { λ line. line.pulls };

    ghost inverse = { λ pulls. record { pulls = pulls } };
}

impl OrLine {
    /// A line that no driver pulls.
    pub fn new() -> OrLine
        ensures { result ≡ 0 }
    {
        OrLine { pulls: 0 }
    }

    /// One more driver pulls the line low. A backplane has 22 drivers, so fewer than 22 pulled it
    /// before.
    pub fn pull(&mut self)
        requires few { self.old < 22 }
        ensures { self.new ≡ self.old + 1 }
    {
        self.pulls += 1;
    }

    /// One of the drivers that pull the line lets it go.
    pub fn release(&mut self)
        requires pulled { 0 < self.old }
        ensures { self.new + 1 ≡ self.old }
    {
        self.pulls -= 1;
    }

    /// Whether the line is low: at least one driver pulls it.
    pub fn is_low(&self) -> bool
        ensures { result ≡ nat_lt 0 self.now }
    {
        self.pulls > 0
    }
}
