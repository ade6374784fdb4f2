//! The lines of edges, put to a text.
ghost use Rattle.std.specs.Prelude.{◌≡◌, ◌+◌, ◌<◌, ◌≤◌, ◌++◌, ◌∷◌, [], length, codes, Some, IsTrue};
ghost use Rattle.vme_model.specs.Signals.{is_well_formed, driver_number};
ghost use Rattle.vme_model.specs.Text.{HasWord, argument, driver_text, number, sign, wire_text};
ghost use Rattle.vme_trace.specs.Fronts.{IsDriver};
ghost use Rattle.vme_trace.specs.Writing.{edge_line};
ghost use Rattle.vme_drive.specs.Spelled.{cycle_number, move_place};

use vme_model::{Cycle, Driver, Edge, Wire};
use vme_text::Text;

/// The name of each driver and a blank: the controller, and then the boards by slot.
static DRIVERS: [[u8; 4]; 22] = [
    *b"c ..", *b"1 ..", *b"2 ..", *b"3 ..", *b"4 ..", *b"5 ..", *b"6 ..", *b"7 ..", *b"8 ..",
    *b"9 ..", *b"10 .", *b"11 .", *b"12 .", *b"13 .", *b"14 .", *b"15 .", *b"16 .", *b"17 .",
    *b"18 .", *b"19 .", *b"20 .", *b"21 .",
];

/// The word of each wire with the sign of a rise, and of a fall, and a line feed. A grant has a
/// word for each level.
static WORDS: [[u8; 16]; 32] = [
    *b"bg0+\n...........",
    *b"bg0-\n...........",
    *b"bg1+\n...........",
    *b"bg1-\n...........",
    *b"bg2+\n...........",
    *b"bg2-\n...........",
    *b"bg3+\n...........",
    *b"bg3-\n...........",
    *b"bclr+\n..........",
    *b"bclr-\n..........",
    *b"iack+\n..........",
    *b"iack-\n..........",
    *b"berr+\n..........",
    *b"berr-\n..........",
    *b"br+\n............",
    *b"br-\n............",
    *b"bgout+\n.........",
    *b"bgout-\n.........",
    *b"bbsy+\n..........",
    *b"bbsy-\n..........",
    *b"addr+\n..........",
    *b"addr-\n..........",
    *b"as+\n............",
    *b"as-\n............",
    *b"ds+\n............",
    *b"ds-\n............",
    *b"irq+\n...........",
    *b"irq-\n...........",
    *b"iackout+\n.......",
    *b"iackout-\n.......",
    *b"dtack+\n.........",
    *b"dtack-\n.........",
];

/// How many bytes of each stand before its line feed.
static SIZES: [u8; 32] = [
    4, 4, 4, 4, 4, 4, 4, 4, 5, 5, 5, 5, 5, 5, 3, 3, 6, 6, 5, 5, 5, 5, 3, 3, 3, 3, 4, 4, 8, 8, 6, 6,
];

/// Where the name of a driver stands.
#[inline(always)]
fn driver_place(driver: Driver) -> usize
    requires { IsDriver driver }
    ensures place { result ≡ driver_number driver }
    ensures within { result < 22 }
{
    match driver {
        Driver::Controller => 0,
        Driver::Slot(slot) => usize::from(slot),
    }
}

/// Where the word of a wire stands with the sign of such an edge.
#[inline(always)]
fn move_place(wire: Wire, fall: bool) -> usize
    requires { HasWord wire }
    ensures place { result ≡ move_place wire fall }
    ensures within { result < 32 }
{
    2 * usize::from(wire.number()) + usize::from(fall)
}

/// Appends a number in decimal.
#[inline(always)]
fn push_number(text: &mut Text, n: u8)
    requires small { n < 100 }
    requires room { length text.old + 2 ≤ 8192 }
    ensures text { text.new ≡ text.old ++ number n }
    ensures short { length text.new ≤ length text.old + 2 }
{
    if n < 10 {
        text.append::<1>(&[b'0' + n], 1);
    } else {
        text.append::<2>(&[b'0' + n / 10, b'0' + n % 10], 2);
    }
}

/// Appends who drives an edge, and a blank.
#[inline(always)]
fn push_driver(text: &mut Text, driver: Driver)
    requires known { IsDriver driver }
    requires room { length text.old + 4 ≤ 8192 }
    ensures text { text.new ≡ text.old ++ (driver_text driver ++ codes " ") }
    ensures short { length text.new ≤ length text.old + 3 }
{
    let place = driver_place(driver);
    let row = DRIVERS[place];
    text.append::<4>(&row, if place < 10 { 2 } else { 3 });
}

/// Appends the word of a wire and the sign of the edge.
#[inline(always)]
fn push_word(text: &mut Text, wire: Wire, fall: bool)
    requires word { HasWord wire }
    requires room { length text.old + 16 ≤ 8192 }
    ensures text { text.new ≡ text.old ++ (wire_text wire ++ sign fall) }
    ensures short { length text.new ≤ length text.old + 8 }
{
    let place = move_place(wire, fall);
    let row = WORDS[place];
    text.append::<16>(&row, usize::from(SIZES[place]));
}

/// Appends the word of a wire, the sign of the edge and a line feed.
#[inline(always)]
fn push_last_word(text: &mut Text, wire: Wire, fall: bool)
    requires word { HasWord wire }
    requires room { length text.old + 16 ≤ 8192 }
    ensures { text.new ≡ text.old ++ ((wire_text wire ++ sign fall) ++ 10 ∷ []) }
{
    let place = move_place(wire, fall);
    let row = WORDS[place];
    text.append::<16>(&row, usize::from(SIZES[place]) + 1);
}

/// Appends what an edge shows, after a blank.
#[inline(never)]
fn push_cycle(text: &mut Text, cycle: Cycle)
    requires small { cycle_number cycle < 100 }
    requires room { length text.old + 4 ≤ 8192 }
    ensures text { text.new ≡ text.old ++ argument (Some cycle) }
    ensures short { length text.new ≤ length text.old + 4 }
{
    match cycle {
        Cycle::Acknowledge(level) => {
            text.append::<2>(b" i", 2);
            push_number(text, level);
        }
        Cycle::Access(slot) => {
            text.append::<2>(b" r", 2);
            push_number(text, slot);
        }
    }
}

/// Appends the line of an edge.
#[inline(always)]
pub(crate) fn push_edge(text: &mut Text, edge: &Edge)
    requires well_formed { IsTrue (is_well_formed edge.now) }
    requires room { length text.old + 64 ≤ 8192 }
    ensures { text.new ≡ text.old ++ edge_line edge.now }
{
    push_driver(text, edge.driver);
    match edge.value {
        None => push_last_word(text, edge.wire, edge.fall),
        Some(cycle) => {
            push_word(text, edge.wire, edge.fall);
            push_cycle(text, cycle);
            text.append::<1>(b"\n", 1);
        }
    }
}
