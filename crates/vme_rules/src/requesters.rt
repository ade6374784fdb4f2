//! The guards of a requester's wires, G9 to G14.
ghost use Rattle.vme_model.specs.Guards.{Guard};
ghost use Rattle.vme_model.specs.Rules.{br_falls, br_rises, bgout_falls, bgout_rises, bbsy_falls, released, bbsy_rises};

use crate::outcomes::Outcome;
use vme_model::{Condition, Release, Version};

/// G9, a board requests the bus: its own `bbsy` is high. Source: profile.
pub fn br_falls<A: Outcome>(bbsy: bool) -> A
    ensures { A.reports result (br_falls bbsy) }
{
    A::asks(Condition::OwnBusyHigh, !bbsy)
}

/// G10, a bus request ends: the board's own `bbsy` is low. The second version has no guard here: a
/// request may be withdrawn. Source: profile.
pub fn br_rises<A: Outcome>(version: Version, bbsy: bool) -> A
    ensures { A.reports result (br_rises version bbsy) }
{
    A::asks(Condition::OwnBusyLow, bbsy).unless(version.is_two())
}

/// G11, a board passes a grant on: its grant-in is low, and its own `br` and `bbsy` are high.
/// Source: Std 1014, chapter 3.
pub fn bgout_falls<A: Outcome>(grant_in: bool, br: bool, bbsy: bool) -> A
    ensures { A.reports result (bgout_falls grant_in br bbsy) }
{
    A::asks(Condition::GrantInLow, grant_in)
        .and(A::asks(Condition::OwnRequestHigh, !br))
        .and(A::asks(Condition::OwnBusyHigh, !bbsy))
}

/// G12, a board passes the end of a grant on: its grant-in is high. Source: profile.
pub fn bgout_rises<A: Outcome>(grant_in: bool) -> A
    ensures { A.reports result (bgout_rises grant_in) }
{
    A::asks(Condition::GrantInHigh, !grant_in)
}

/// G13, a board takes the bus: its grant-in is low, its own `bgout` is high, and its own `br` is
/// low. Source: Std 1014, chapter 3, for who takes a grant; how its own wires show that is profile.
pub fn bbsy_falls<A: Outcome>(grant_in: bool, bgout: bool, br: bool) -> A
    ensures { A.reports result (bbsy_falls grant_in bgout br) }
{
    A::asks(Condition::GrantInLow, grant_in)
        .and(A::asks(Condition::OwnGrantOutHigh, !bgout))
        .and(A::asks(Condition::OwnRequestLow, br))
}

/// Part of G14: RWD waits for nothing, and ROR waits until another board requests the bus. Source:
/// Std 1014, chapter 3.
pub fn released<A: Outcome>(is_asked: bool, release: Release) -> A
    ensures { A.reports result (released is_asked release) }
{
    match release {
        Release::Done { .. } => A::free(),
        Release::Request => A::asks(Condition::Asked, is_asked),
    }
}

/// G14, a board gives the bus up: its own `br` and grant-in are high, its address group is off or
/// its `as` low, and `releasing` holds. Source: Std 1014, chapter 3; own `br` and grant-in are
/// profile.
pub fn bbsy_rises<A: Outcome>(br: bool, grant_in: bool, is_address_free: bool, releasing: A) -> A
    ensures { (g : Guard) → A.reports releasing g →
        A.reports result (bbsy_rises br grant_in is_address_free g) }
{
    A::asks(Condition::OwnRequestHigh, !br)
        .and(A::asks(Condition::GrantInHigh, !grant_in))
        .and(A::asks(Condition::AddressFree, is_address_free))
        .and(releasing)
}
