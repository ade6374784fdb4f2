//! The guards of an interrupter's wires and of the board's answer, G21 to G26.
ghost use Rattle.vme_model.specs.Guards.{Guard};
ghost use Rattle.vme_model.specs.Rules.{irq_falls, irq_rises, passes, iackout_falls, iackout_rises, answers, dtack_falls, dtack_rises};

use crate::outcomes::Outcome;
use vme_model::{Condition, Cycle};

/// G21, a board requests an interrupt: at any time. Source: Std 1014, chapter 4.
pub fn irq_falls<A: Outcome>() -> A
    ensures { A.reports result irq_falls }
{
    A::free()
}

/// G22, an interrupt request ends: it was served in its own way. Source: Std 1014, chapter 4.
pub fn irq_rises<A: Outcome>(is_served: bool) -> A
    ensures { A.reports result (irq_rises is_served) }
{
    A::asks(Condition::Served, is_served)
}

/// Part of G23: an acknowledge is shown, and the board is not pending at its level. Source: Std
/// 1014, chapter 4.
pub fn passes<A: Outcome>(is_pending: bool, shown: Option<Cycle>) -> A
    ensures { A.reports result (passes (λ _. is_pending) shown) }
{
    match shown {
        Some(Cycle::Acknowledge(_)) => A::asks(Condition::NotPending, !is_pending),
        _ => A::asks(Condition::AcknowledgeShown, false),
    }
}

/// G23, a board passes an acknowledge on: its IACKIN* is low, its own `dtack` is high, DS0* is low,
/// and `passing` holds. Source: Std 1014, chapter 4.
pub fn iackout_falls<A: Outcome>(iack_in: bool, dtack: bool, data_strobe: bool, passing: A) -> A
    ensures { (g : Guard) → A.reports passing g →
        A.reports result (iackout_falls iack_in dtack data_strobe g) }
{
    A::asks(Condition::AcknowledgeInLow, iack_in)
        .and(A::asks(Condition::OwnDtackHigh, !dtack))
        .and(A::asks(Condition::DataStrobeLow, data_strobe))
        .and(passing)
}

/// G24, a board passes the end of an acknowledge on: AS* is high. Source: Std 1014, chapter 4.
pub fn iackout_rises<A: Outcome>(address_strobe: bool) -> A
    ensures { A.reports result (iackout_rises address_strobe) }
{
    A::asks(Condition::AddressStrobeHigh, !address_strobe)
}

/// Part of G25: an acknowledge reached the board while it is pending, or an access to its slot is
/// shown. Source: Std 1014, chapters 2 and 4; that every board has a register is profile.
pub fn answers<A: Outcome>(
    iack_in: bool,
    iackout: bool,
    is_pending: bool,
    is_own_slot: bool,
    shown: Option<Cycle>,
) -> A
    ensures { A.reports result
        (answers iack_in iackout (λ _. is_pending) (λ _. is_own_slot) shown) }
{
    match shown {
        Some(Cycle::Acknowledge(_)) => A::asks(Condition::AcknowledgeInLow, iack_in)
            .and(A::asks(Condition::OwnAcknowledgeOutHigh, !iackout))
            .and(A::asks(Condition::Pending, is_pending)),
        Some(Cycle::Access(_)) => A::asks(Condition::OwnSlotShown, is_own_slot),
        None => A::asks(Condition::CycleShown, false),
    }
}

/// G25, the board answers: DS0* and AS* are low, and `answering` holds. Source: Std 1014, chapters
/// 2 and 4.
pub fn dtack_falls<A: Outcome>(data_strobe: bool, address_strobe: bool, answering: A) -> A
    ensures { (g : Guard) → A.reports answering g →
        A.reports result (dtack_falls data_strobe address_strobe g) }
{
    A::asks(Condition::DataStrobeLow, data_strobe)
        .and(A::asks(Condition::AddressStrobeLow, address_strobe))
        .and(answering)
}

/// G26, the answer ends: DS0* is high. Source: Std 1014, chapter 2.
pub fn dtack_rises<A: Outcome>(data_strobe: bool) -> A
    ensures { A.reports result (dtack_rises data_strobe) }
{
    A::asks(Condition::DataStrobeHigh, !data_strobe)
}
