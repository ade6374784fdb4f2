//! The number of a wire, by which an edge finds its arm.
ghost use Rattle.std.specs.Prelude.{◌≡◌};
ghost use Rattle.vme_bus.specs.Arms.{wire_number};

use vme_model::Wire;

/// The number of a wire's arm, in the order of `Wire`: the grants of all levels have one arm. It is
/// a number since comparisons need an order.
#[inline(always)]
pub(crate) fn wire_number(wire: Wire) -> u8
    ensures { result ≡ wire_number wire }
{
    match wire {
        Wire::Bg(_) => 0,
        Wire::Bclr => 1,
        Wire::Iack => 2,
        Wire::Berr => 3,
        Wire::Br => 4,
        Wire::BgOut => 5,
        Wire::Bbsy => 6,
        Wire::Addr => 7,
        Wire::AddressStrobe => 8,
        Wire::DataStrobe => 9,
        Wire::Irq => 10,
        Wire::IackOut => 11,
        Wire::Dtack => 12,
    }
}
