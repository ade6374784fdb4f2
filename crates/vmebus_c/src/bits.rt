//! What a driver reads on its pins, as the bits that C reads.
ghost use Rattle.std.specs.Prelude.{◌≡◌, ◌≤◌, ◌<◌};
ghost use Rattle.vmebus_c.specs.Bits.{bit, request_bits, line_bits, interrupt_bits, shown_number, pins_number};

use vme_model::{BusLevels, Cycle, Levels, Pins};

/// What a line adds to the bits: the value of its bit if it is low, and 0 otherwise.
pub(crate) fn bit(low: bool, value: u32) -> u32
    ensures value { result ≡ bit low value }
    ensures small { result ≤ value }
{
    if low { value } else { 0 }
}

/// The bits of BR0* to BR3*.
fn request_bits(levels: BusLevels) -> u32
    ensures bits { result ≡ request_bits levels }
    ensures small { result ≤ 15 }
{
    bit(levels.has(0), 1) + bit(levels.has(1), 2) + bit(levels.has(2), 4) + bit(levels.has(3), 8)
}

/// The bits of the lines that all boards share.
fn line_bits(pins: &Pins) -> u32
    ensures bits { result ≡ line_bits pins.now }
    ensures small { result ≤ 1008 }
{
    bit(pins.bbsy, 0x10)
        + bit(pins.bclr, 0x20)
        + bit(pins.address_strobe, 0x40)
        + bit(pins.data_strobe, 0x80)
        + bit(pins.dtack, 0x100)
        + bit(pins.berr, 0x200)
}

/// The bits of IRQ1* to IRQ7*.
fn interrupt_bits(levels: Levels) -> u32
    ensures bits { result ≡ interrupt_bits levels }
    ensures small { result ≤ 520192 }
{
    bit(levels.has(1), 0x1000)
        + bit(levels.has(2), 0x2000)
        + bit(levels.has(3), 0x4000)
        + bit(levels.has(4), 0x8000)
        + bit(levels.has(5), 0x1_0000)
        + bit(levels.has(6), 0x2_0000)
        + bit(levels.has(7), 0x4_0000)
}

/// What is shown, as the number that C uses for it, 0 to 63.
pub(crate) fn shown_number(shown: Option<Cycle>) -> u32
    ensures number { result ≡ shown_number shown }
    ensures small { result < 64 }
{
    match shown {
        None => 0,
        Some(Cycle::Acknowledge(level)) => u32::from(level % 32),
        Some(Cycle::Access(slot)) => 32 + u32::from(slot % 32),
    }
}

/// The pins of a driver as bits.
pub(crate) fn pins_number(pins: &Pins) -> u32
    ensures { result ≡ pins_number pins.now }
{
    request_bits(pins.requests)
        + line_bits(pins)
        + bit(pins.grant_in, 0x400)
        + bit(pins.iack_in, 0x800)
        + interrupt_bits(pins.irq)
        + shown_number(pins.shown) * 0x100_0000
}
