//! The conditions of the changes of BR*, BBSY*, BCLR* and the grant chains.
ghost use Rattle.std.specs.Prelude.{◌≡◌};
ghost use Rattle.vme_standings.specs.Grants.{is_asked, may_end};
ghost use Rattle.vme_probe.specs.Conditions.{busy_falls, busy_rises, clear_falls, clear_rises, grant_falls, grant_moves, grant_rises, pass_falls, pass_rises, request_falls, request_rises};

use crate::demands::{Demand, Demands, in_order};
use crate::obstacles::Obstacle;
use vme_captures::Line;
use vme_model::{ArbiterKind, BusLevels, Condition, Release, RequesterRow, Rule, Version, Wire};
use vme_slots::Plan;
use vme_standings::chains::{end_place, place_before};
use vme_standings::{PhaseFact, Standings, asked};

/// BRn* falls.
pub(crate) fn request_falls(own: u8) -> Demands
    ensures { result.items ≡ request_falls own }
{
    in_order(&[Demand::on_grants(
        Obstacle::Fails(Rule::G9, Condition::OwnBusyHigh),
        PhaseFact::NotHeldBy { board: own },
    )])
}

/// BRn* rises: in the second version nothing stands in the way.
pub(crate) fn request_rises(version: Version, own: u8) -> Demands
    ensures { result.items ≡ request_rises version own }
{
    if version.is_two() {
        return in_order(&[]);
    }
    in_order(&[Demand::on_grants(
        Obstacle::Fails(Rule::G10, Condition::OwnBusyLow),
        PhaseFact::HeldBy { board: own },
    )])
}

/// BBSY* falls.
pub(crate) fn busy_falls(
    plan: &Plan,
    requests: BusLevels,
    own: u8,
    requester: Option<RequesterRow>,
) -> Demands
    ensures { result.items ≡ busy_falls plan.now requests own requester }
{
    let Some(RequesterRow { level, .. }) = requester else {
        return in_order(&[]);
    };
    in_order(&[
        Demand::on_grants(
            Obstacle::Fails(Rule::G13, Condition::GrantInLow),
            PhaseFact::SegmentLow {
                level,
                place: place_before(plan, level, own),
            },
        ),
        Demand::on_grants(
            Obstacle::Fails(Rule::G13, Condition::OwnGrantOutHigh),
            PhaseFact::SegmentHigh { level, place: own },
        ),
        Demand::when(
            Obstacle::Fails(Rule::G13, Condition::OwnRequestLow),
            requests.has(level),
        ),
    ])
}

/// Whether some BR line is low.
fn is_asked(requests: BusLevels) -> bool
    ensures { result ≡ is_asked requests }
{
    [0, 1, 2, 3].iter().any(|level| requests.has(*level))
}

/// Whether a requester may give the bus up: one that is ROR if some BR line is low.
fn may_end(requests: BusLevels, release: Release) -> bool
    ensures { result ≡ may_end requests release }
{
    match release {
        Release::Done { .. } => true,
        Release::Request => is_asked(requests),
    }
}

/// BBSY* rises.
pub(crate) fn busy_rises(
    plan: &Plan,
    requests: BusLevels,
    own: u8,
    requester: Option<RequesterRow>,
) -> Demands
    ensures { result.items ≡ busy_rises plan.now requests own requester }
{
    let Some(RequesterRow { level, release }) = requester else {
        return in_order(&[]);
    };
    in_order(&[
        Demand::on_grants(
            Obstacle::NotLow(Wire::Bbsy),
            PhaseFact::HeldBy { board: own },
        ),
        Demand::when(
            Obstacle::Fails(Rule::G14, Condition::Asked),
            may_end(requests, release),
        ),
        Demand::on_grants(
            Obstacle::Fails(Rule::G14, Condition::GrantInHigh),
            PhaseFact::SegmentHigh {
                level,
                place: place_before(plan, level, own),
            },
        ),
    ])
}

/// BCLR* falls.
pub(crate) fn clear_falls(plan: &Plan, standings: &Standings) -> Demands
    ensures { result.items ≡ clear_falls plan.now standings.now }
{
    in_order(&[
        Demand::when(
            Obstacle::Fails(Rule::G3, Condition::BusyLow),
            standings.lines.is_low(Line::Bbsy),
        ),
        Demand::on_grants(
            Obstacle::Fails(Rule::G3, Condition::HigherAsked),
            PhaseFact::AskedAbove {
                requests: asked(&standings.lines),
            },
        ),
        Demand::when(
            Obstacle::Fails(Rule::G3, Condition::ArbiterIsPri),
            matches!(plan.arbiter(), ArbiterKind::Pri),
        ),
        Demand::on_grants(
            Obstacle::Fails(Rule::G3, Condition::GrantsHigh),
            PhaseFact::GrantsHigh,
        ),
    ])
}

/// BCLR* rises.
pub(crate) fn clear_rises(standings: &Standings) -> Demands
    ensures { result.items ≡ clear_rises standings.now }
{
    in_order(&[Demand::on_clear(
        Obstacle::Fails(Rule::G4, Condition::ClearNotDue),
        asked(&standings.lines),
    )])
}

/// The controller's grant of a level falls.
fn grant_falls(version: Version, standings: &Standings, level: u8) -> Demands
    ensures { result.items ≡ grant_falls version standings.now level }
{
    let free = Demand::when(
        Obstacle::Fails(Rule::G1, Condition::BusyHigh),
        !standings.lines.is_low(Line::Bbsy),
    );
    let picked = Demand::on_grants(
        Obstacle::NotPicked(level),
        PhaseFact::Picked {
            requests: asked(&standings.lines),
            level,
        },
    );
    let high = Demand::on_grants(
        Obstacle::Fails(Rule::G1, Condition::GrantsHigh),
        PhaseFact::GrantsHigh,
    );
    let through = Demand::on_grants(
        Obstacle::Fails(Rule::S4, Condition::GrantsThrough),
        PhaseFact::AllHigh,
    );
    if version.is_two() {
        in_order(&[free, picked, high, through])
    } else {
        in_order(&[free, picked, high])
    }
}

/// The controller's grant of a level rises.
fn grant_rises(version: Version, standings: &Standings, level: u8) -> Demands
    ensures { result.items ≡ grant_rises version standings.now level }
{
    if version.is_two() {
        return in_order(&[Demand::on_grants(
            Obstacle::Fails(Rule::S3, Condition::PassedTheLastBoard),
            PhaseFact::PastAll { level },
        )]);
    }
    in_order(&[Demand::when(
        Obstacle::Fails(Rule::G2, Condition::BusyLow),
        standings.lines.is_low(Line::Bbsy),
    )])
}

/// A board's bus grant out falls. In the first version the last board of the chain does not pass
/// the grant on: it was granted since that board asked.
fn pass_falls(plan: &Plan, version: Version, level: u8, own: u8) -> Demands
    ensures { result.items ≡ pass_falls plan.now version level own }
{
    in_order(&[
        Demand::on_grants(
            Obstacle::Fails(Rule::G11, Condition::GrantInLow),
            PhaseFact::SegmentLow {
                level,
                place: place_before(plan, level, own),
            },
        ),
        Demand::on_grants(
            Obstacle::Fails(Rule::G11, Condition::OwnBusyHigh),
            PhaseFact::NotHeldBy { board: own },
        ),
        Demand::when(
            Obstacle::Fails(Rule::G11, Condition::OwnRequestHigh),
            version.is_two() || own != end_place(plan, level),
        ),
    ])
}

/// A board's bus grant out rises.
fn pass_rises(plan: &Plan, level: u8, own: u8) -> Demands
    ensures { result.items ≡ pass_rises plan.now level own }
{
    in_order(&[Demand::on_grants(
        Obstacle::Fails(Rule::G12, Condition::GrantInHigh),
        PhaseFact::SegmentHigh {
            level,
            place: place_before(plan, level, own),
        },
    )])
}

/// A segment of a level's chain falls, or rises: the controller's, 0, or that of a slot's board.
pub(crate) fn grant_moves(
    plan: &Plan,
    version: Version,
    standings: &Standings,
    own: u8,
    level: u8,
    place: u8,
    fall: bool,
) -> Demands
    ensures { result.items
        ≡ grant_moves plan.now version standings.now own level place fall }
{
    match (place == 0, fall) {
        (true, true) => grant_falls(version, standings, level),
        (true, false) => grant_rises(version, standings, level),
        (false, true) => pass_falls(plan, version, level, own),
        (false, false) => pass_rises(plan, level, own),
    }
}
