//! The conditions that can refuse an edge alone, and those that never do.
ghost use Rattle.std.specs.Prelude.{◌≡◌};
ghost use Rattle.vme_command_line.specs.Alone as spec;

use vme_goals::{Aim, Miss, aim_of};
use vme_model::{Condition, Version};

/// Whether another condition of that rule always fails together with this one.
fn is_never_alone(rule: u8, condition: Condition) -> bool
    ensures { result ≡ spec.is_never_alone rule condition }
{
    match condition {
        Condition::AddressStrobeLow => rule == 5 || rule == 25,
        Condition::AddressStrobeHigh => rule == 16,
        Condition::OwnAddressOn => rule == 17,
        Condition::AcknowledgeShown => rule == 23,
        Condition::CycleShown => rule == 25,
        _ => false,
    }
}

/// Whether some trace can reach the aim. None can if the aim is a condition that never fails alone.
fn can_come(aim: Aim) -> bool
    ensures { result ≡ spec.can_come aim }
{
    match aim {
        Aim::Miss(Miss::Rule(rule, condition)) => !is_never_alone(rule, condition),
        _ => true,
    }
}

/// The aim that words name, among all that a trace can reach in that version of the rules.
pub(crate) fn aim_named(named: &str, version: Version) -> Option<Aim>
    ensures { result ≡ spec.aim_named named.now version }
{
    let aim = aim_of(named, version)?;
    if can_come(aim) { Some(aim) } else { None }
}
