//! Which of the shared lines are low.
ghost use Rattle.std.specs.Prelude.{◌≡◌, ◌≢◌, IsTrue, false};
ghost use Rattle.vme_captures.specs.declared.signals.Line.{Line as LineValue};
ghost use Rattle.vme_captures.specs.Levels.{is_line_left_low};
ghost use Rattle.vme_captures.specs.Signals.{is_line};

use crate::signals::Line;

/// Which of the shared lines are low. A place of `irq` is a level; that of level 0 is not used.
#[derive(Clone, Copy, PartialEq, Eq, Debug)]
pub struct Levels {
    br: [bool; 4],
    irq: [bool; 8],
    bbsy: bool,
    address_strobe: bool,
    data_strobe: bool,
    dtack: bool,
    berr: bool,
    bclr: bool,
}

impl Levels {
    /// All lines are high.
    pub fn high() -> Levels
        ensures { (l : LineValue) → is_line_left_low result l ≡ false }
    {
        Levels {
            br: [false; 4],
            irq: [false; 8],
            bbsy: false,
            address_strobe: false,
            data_strobe: false,
            dtack: false,
            berr: false,
            bclr: false,
        }
    }

    /// Whether the line is low. There has to be such a line.
    #[inline(always)]
    pub fn is_low(&self, line: Line) -> bool
        requires { IsTrue (is_line line) }
        ensures { result ≡ is_line_left_low self.now line }
    {
        match line {
            Line::Br(level) => self.br[usize::from(level)],
            Line::Irq(level) => self.irq[usize::from(level)],
            Line::Bbsy => self.bbsy,
            Line::AddressStrobe => self.address_strobe,
            Line::DataStrobe => self.data_strobe,
            Line::Dtack => self.dtack,
            Line::Berr => self.berr,
            Line::Bclr => self.bclr,
        }
    }

    /// Takes the line for low, or for high. There has to be such a line.
    pub fn set(&mut self, line: Line, low: bool)
        requires { IsTrue (is_line line) }
        ensures set { is_line_left_low self.new line ≡ low }
        ensures others { (l : LineValue) → l ≢ line
            → is_line_left_low self.new l ≡ is_line_left_low self.old l }
    {
        match line {
            Line::Br(level) => self.br[usize::from(level)] = low,
            Line::Irq(level) => self.irq[usize::from(level)] = low,
            Line::Bbsy => self.bbsy = low,
            Line::AddressStrobe => self.address_strobe = low,
            Line::DataStrobe => self.data_strobe = low,
            Line::Dtack => self.dtack = low,
            Line::Berr => self.berr = low,
            Line::Bclr => self.bclr = low,
        }
    }
}
