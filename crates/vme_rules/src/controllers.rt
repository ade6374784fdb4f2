//! The guards of the controller's wires, G1 to G8.
ghost use Rattle.vme_model.specs.Rules.{bg_falls, bg_rises, bclr_falls, bclr_rises, iack_falls, iack_rises, berr_falls, berr_rises};

use crate::outcomes::Outcome;
use vme_model::{Condition, Version};

/// G1, a grant falls: all four grants are high, BBSY* is high, and the policy picks its level.
/// Source: Std 1014, chapter 3, for the level; when it falls is profile.
pub fn bg_falls<A: Outcome>(are_high: bool, bbsy: bool, is_picked: bool) -> A
    ensures { A.reports result (bg_falls are_high bbsy is_picked) }
{
    A::asks(Condition::GrantsHigh, are_high)
        .and(A::asks(Condition::BusyHigh, !bbsy))
        .and(A::asks(Condition::Picked, is_picked))
}

/// G2, a grant rises: BBSY* is low. The second version has no guard here, but S3. Source: profile.
pub fn bg_rises<A: Outcome>(version: Version, bbsy: bool) -> A
    ensures { A.reports result (bg_rises version bbsy) }
{
    A::asks(Condition::BusyLow, bbsy).unless(version.is_two())
}

/// G3, bus clear falls: bus clear is due. It is due if the arbiter is PRI, BBSY* is low, all grants
/// are high, and a level above the one last granted is requested. Source: Std 1014, chapter 3; that
/// it waits for the grants is profile.
pub fn bclr_falls<A: Outcome>(
    has_priority: bool,
    bbsy: bool,
    are_high: bool,
    is_outranked: bool,
) -> A
    ensures { A.reports result (bclr_falls has_priority bbsy are_high is_outranked) }
{
    A::asks(Condition::ArbiterIsPri, has_priority)
        .and(A::asks(Condition::BusyLow, bbsy))
        .and(A::asks(Condition::GrantsHigh, are_high))
        .and(A::asks(Condition::HigherAsked, is_outranked))
}

/// G4, bus clear rises: it is not due. Source: profile.
pub fn bclr_rises<A: Outcome>(is_due: bool) -> A
    ensures { A.reports result (bclr_rises is_due) }
{
    A::asks(Condition::ClearNotDue, !is_due)
}

/// G5, the acknowledge chain begins: AS* and DS0* are low, and an acknowledge is shown. Source: Std
/// 1014, chapter 4.
pub fn iack_falls<A: Outcome>(address_strobe: bool, data_strobe: bool, is_acknowledged: bool) -> A
    ensures { A.reports result (iack_falls address_strobe data_strobe is_acknowledged) }
{
    A::asks(Condition::AddressStrobeLow, address_strobe)
        .and(A::asks(Condition::DataStrobeLow, data_strobe))
        .and(A::asks(Condition::AcknowledgeShown, is_acknowledged))
}

/// G6, the acknowledge chain's head rises: AS* is high. Source: Std 1014, chapter 4.
pub fn iack_rises<A: Outcome>(address_strobe: bool) -> A
    ensures { A.reports result (iack_rises address_strobe) }
{
    A::asks(Condition::AddressStrobeHigh, !address_strobe)
}

/// G7, the bus timer ends a cycle: DS0* is low and DTACK* is high. S2 is tested afterwards. Source:
/// Std 1014, chapter 2.
pub fn berr_falls<A: Outcome>(data_strobe: bool, dtack: bool) -> A
    ensures { A.reports result (berr_falls data_strobe dtack) }
{
    A::asks(Condition::DataStrobeLow, data_strobe).and(A::asks(Condition::DtackHigh, !dtack))
}

/// G8, the bus error ends: DS0* is high. Source: Std 1014, chapter 2.
pub fn berr_rises<A: Outcome>(data_strobe: bool) -> A
    ensures { A.reports result (berr_rises data_strobe) }
{
    A::asks(Condition::DataStrobeHigh, !data_strobe)
}
