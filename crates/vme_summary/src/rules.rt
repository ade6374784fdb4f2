//! The rules by their numbers.
ghost use Rattle.std.specs.Prelude.{◌≡◌};
ghost use Rattle.vme_summary.specs.Tallied.{rule_number};

use vme_model::Wire;

/// Places for the rules 1 to 26; none has the number 0.
pub(crate) const RULES: usize = 27;

/// The number of the rule that names a wire and a direction, G1 to G26.
pub(crate) fn rule_of(wire: Wire, fall: bool) -> u8
    ensures { result ≡ rule_number wire fall }
{
    let (falls, rises) = match wire {
        Wire::Bg(_) => (1, 2),
        Wire::Bclr => (3, 4),
        Wire::Iack => (5, 6),
        Wire::Berr => (7, 8),
        Wire::Br => (9, 10),
        Wire::BgOut => (11, 12),
        Wire::Bbsy => (13, 14),
        Wire::Addr => (15, 19),
        Wire::AddressStrobe => (16, 20),
        Wire::DataStrobe => (17, 18),
        Wire::Irq => (21, 22),
        Wire::IackOut => (23, 24),
        Wire::Dtack => (25, 26),
    };
    if fall { falls } else { rises }
}
