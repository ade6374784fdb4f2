//! The lines of edges, put to a text.
ghost use Rattle.std.specs.Prelude.{◌≡◌, ◌+◌, ◌<◌, ◌≤◌, ◌++◌, ◌∷◌, [], length, codes, Some, IsTrue};
ghost use Rattle.vme_model.specs.Signals.{is_well_formed};
ghost use Rattle.vme_model.specs.Text.{HasWord, argument, driver_text, number, sign, wire_text};
ghost use Rattle.vme_trace.specs.Writing.{edge_line};
ghost use Rattle.vme_engines.specs.Spelled.{cycle_number, driver_number};

use vme_model::{Cycle, Driver, Edge, Wire};
use vme_text::Text;

/// Appends a number in decimal.
#[inline(always)]
fn push_number(text: &mut Text, n: u8)
    requires small { n < 100 }
    requires room { length text.old + 2 ≤ 8192 }
    ensures text { text.new ≡ text.old ++ number n }
    ensures short { length text.new ≤ length text.old + 2 }
{
    if n < 10 {
        text.append::<1>(&[b'0' + n], 1);
    } else {
        text.append::<2>(&[b'0' + n / 10, b'0' + n % 10], 2);
    }
}

/// Appends who drives an edge, and a blank.
#[inline(always)]
fn push_driver(text: &mut Text, driver: Driver)
    requires small { driver_number driver < 100 }
    requires room { length text.old + 3 ≤ 8192 }
    ensures text { text.new ≡ text.old ++ (driver_text driver ++ codes " ") }
    ensures short { length text.new ≤ length text.old + 3 }
{
    match driver {
        Driver::Controller => text.append::<2>(b"c ", 2),
        Driver::Slot(slot) => {
            push_number(text, slot);
            text.append::<1>(b" ", 1);
        }
    }
}

/// Appends the word of a wire.
#[inline(always)]
fn push_wire(text: &mut Text, wire: Wire)
    requires word { HasWord wire }
    requires room { length text.old + 8 ≤ 8192 }
    ensures text { text.new ≡ text.old ++ wire_text wire }
    ensures short { length text.new ≤ length text.old + 7 }
{
    match wire {
        Wire::Bg(level) => text.append::<3>(&[b'b', b'g', b'0' + level], 3),
        Wire::Bclr => text.append::<8>(b"bclr....", 4),
        Wire::Iack => text.append::<8>(b"iack....", 4),
        Wire::Berr => text.append::<8>(b"berr....", 4),
        Wire::Br => text.append::<8>(b"br......", 2),
        Wire::BgOut => text.append::<8>(b"bgout...", 5),
        Wire::Bbsy => text.append::<8>(b"bbsy....", 4),
        Wire::Addr => text.append::<8>(b"addr....", 4),
        Wire::AddressStrobe => text.append::<8>(b"as......", 2),
        Wire::DataStrobe => text.append::<8>(b"ds......", 2),
        Wire::Irq => text.append::<8>(b"irq.....", 3),
        Wire::IackOut => text.append::<8>(b"iackout.", 7),
        Wire::Dtack => text.append::<8>(b"dtack...", 5),
    }
}

/// Appends what an edge shows, after a blank.
#[inline(never)]
fn push_cycle(text: &mut Text, cycle: Cycle)
    requires small { cycle_number cycle < 100 }
    requires room { length text.old + 4 ≤ 8192 }
    ensures text { text.new ≡ text.old ++ argument (Some cycle) }
    ensures short { length text.new ≤ length text.old + 4 }
{
    match cycle {
        Cycle::Acknowledge(level) => {
            text.append::<2>(b" i", 2);
            push_number(text, level);
        }
        Cycle::Access(slot) => {
            text.append::<2>(b" r", 2);
            push_number(text, slot);
        }
    }
}

/// Appends the line of an edge.
#[inline(always)]
pub(crate) fn push_edge(text: &mut Text, edge: &Edge)
    requires well_formed { IsTrue (is_well_formed edge.now) }
    requires room { length text.old + 64 ≤ 8192 }
    ensures { text.new ≡ text.old ++ edge_line edge.now }
{
    push_driver(text, edge.driver);
    push_wire(text, edge.wire);
    text.append::<1>(if edge.fall { b"-" } else { b"+" }, 1);
    match edge.value {
        None => {}
        Some(cycle) => push_cycle(text, cycle),
    }
    text.append::<1>(b"\n", 1);
}
