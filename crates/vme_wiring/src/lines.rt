//! The open-collector lines that boards pull, as counts of the boards that pull them.
ghost use Rattle.std.specs.Prelude.{◌≡◌, ◌<◌, true, get_or, nat_lt};
ghost use Rattle.vme_model.specs.Sets.{bus_levels, irq_levels};
ghost use Rattle.vme_wiring.specs.Counts.{moved, is_movable, no_pulls, count_of, lines_after, shared_after, shared_after_controller};
ghost use Rattle.vme_histories.specs.Levels.{request_level, interrupt_level};
ghost use Rattle.vme_histories.specs.Shown.{addressing_after};

use vme_lines::OrLine;
use vme_model::{BusLevels, Edge, Levels, Pins, Row, Wire};

/// The lines, each as the number of the boards that pull it, and how many boards pass a grant on.
/// Source: Std 1014, chapters 2 to 4.
#[derive(Clone, Copy)]
pub struct Lines {
    pub br: [OrLine; 4],
    // by level, 1 to 7; no board pulls the first one
    pub irq: [OrLine; 8],
    pub bgout: OrLine,
    pub bbsy: OrLine,
    pub address_strobe: OrLine,
    pub data_strobe: OrLine,
    pub dtack: OrLine,
}

/// The line after one more driver pulls it, or one fewer.
fn moved(line: OrLine, fall: bool) -> OrLine
    requires { is_movable line fall ≡ true }
    ensures { result ≡ moved line fall }
{
    let mut line = line;
    if fall {
        line.pull();
    } else {
        line.release();
    }
    line
}

/// The level of a board's requester, 0 to 3; 0 if it has none.
pub fn request_level(row: &Row) -> u8
    ensures { result ≡ request_level row.now }
{
    match row.requester {
        Some(requester) => requester.level,
        None => 0,
    }
}

/// The level of a board's interrupter, 1 to 7; 0 if it has none.
pub fn interrupt_level(row: &Row) -> u8
    ensures { result ≡ interrupt_level row.now }
{
    match row.interrupter {
        Some(interrupter) => interrupter.level,
        None => 0,
    }
}

impl Lines {
    /// The lines if nobody pulls one.
    pub fn new() -> Lines
        ensures { result ≡ no_pulls }
    {
        Lines {
            br: [OrLine::new(); 4],
            irq: [OrLine::new(); 8],
            bgout: OrLine::new(),
            bbsy: OrLine::new(),
            address_strobe: OrLine::new(),
            data_strobe: OrLine::new(),
            dtack: OrLine::new(),
        }
    }

    /// One more board pulls the bus request line of its level, or one fewer.
    fn request(&mut self, row: &Row, fall: bool)
        requires level { request_level row.now < 4 }
        requires movable { is_movable (count_of self.old row.now Wire.Br) fall ≡ true }
        ensures { self.new ≡ lines_after self.old row.now Wire.Br fall }
    {
        let level = usize::from(request_level(row));
        self.br[level] = moved(self.br[level], fall);
    }

    /// One more board pulls the interrupt request line of its level, or one fewer.
    fn interrupt(&mut self, row: &Row, fall: bool)
        requires level { interrupt_level row.now < 8 }
        requires movable { is_movable (count_of self.old row.now Wire.Irq) fall ≡ true }
        ensures { self.new ≡ lines_after self.old row.now Wire.Irq fall }
    {
        let level = usize::from(interrupt_level(row));
        self.irq[level] = moved(self.irq[level], fall);
    }

    /// The bus request lines that are low. Source: Std 1014, chapter 3.
    pub fn requests(&self) -> BusLevels
        ensures { result ≡ bus_levels (λ n. nat_lt 0 (get_or self.now.br n 0)) }
    {
        let [zero, one, two, three] = self.br;
        BusLevels::of_lines([zero.is_low(), one.is_low(), two.is_low(), three.is_low()])
    }

    /// The interrupt request lines that are low. Source: Std 1014, chapter 4.
    pub fn irqs(&self) -> Levels
        ensures { result ≡ irq_levels (λ n. nat_lt 0 (get_or self.now.irq n 0)) }
    {
        let [_, one, two, three, four, five, six, seven] = self.irq;
        Levels::of_lines([
            one.is_low(),
            two.is_low(),
            three.is_low(),
            four.is_low(),
            five.is_low(),
            six.is_low(),
            seven.is_low(),
        ])
    }
}

/// Takes in an edge of one of the board's wires: into the lines, and into what all drivers see
/// alike.
#[inline(always)]
pub fn note_line(lines: &mut Lines, shared: &mut Pins, row: &Row, edge: Edge)
    requires request_level { request_level row.now < 4 }
    requires interrupt_level { interrupt_level row.now < 8 }
    requires movable { is_movable (count_of lines.old row.now edge.wire) edge.fall ≡ true }
    ensures lines { lines.new ≡ lines_after lines.old row.now edge.wire edge.fall }
    ensures shared { shared.new ≡ shared_after shared.old lines.new edge.wire edge.value }
{
    match edge.wire {
        Wire::Br => {
            lines.request(row, edge.fall);
            shared.requests = lines.requests();
        }
        Wire::Irq => {
            lines.interrupt(row, edge.fall);
            shared.irq = lines.irqs();
        }
        Wire::BgOut => lines.bgout = moved(lines.bgout, edge.fall),
        Wire::Bbsy => {
            lines.bbsy = moved(lines.bbsy, edge.fall);
            shared.bbsy = lines.bbsy.is_low();
        }
        Wire::Addr => shared.shown = edge.value,
        Wire::AddressStrobe => {
            lines.address_strobe = moved(lines.address_strobe, edge.fall);
            shared.address_strobe = lines.address_strobe.is_low();
        }
        Wire::DataStrobe => {
            lines.data_strobe = moved(lines.data_strobe, edge.fall);
            shared.data_strobe = lines.data_strobe.is_low();
        }
        Wire::Dtack => {
            lines.dtack = moved(lines.dtack, edge.fall);
            shared.dtack = lines.dtack.is_low();
        }
        _ => {}
    }
}

/// Takes in an edge of one of the controller's wires, into what all drivers see alike.
#[inline(always)]
pub fn note_controllers(shared: &mut Pins, edge: Edge)
    ensures { shared.new ≡ shared_after_controller shared.old edge.wire edge.fall }
{
    match edge.wire {
        Wire::Bclr => shared.bclr = edge.fall,
        Wire::Berr => shared.berr = edge.fall,
        _ => {}
    }
}

/// Takes in an edge of the slot's board, into which slot's address group is on.
#[inline(always)]
pub fn note_address(addressing: &mut Option<u8>, slot: u8, edge: Edge)
    ensures { addressing.new ≡ addressing_after addressing.old slot edge.wire edge.fall }
{
    match (edge.wire, edge.fall) {
        (Wire::Addr, true) => *addressing = Some(slot),
        (Wire::Addr, false) => *addressing = None,
        _ => {}
    }
}
