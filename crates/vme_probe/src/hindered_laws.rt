//! What holds of BBSY*, BCLR* and the daisy chains: of whoever may not have made a change, one of
//! the change's conditions is named.
//!
//! The functions do nothing. Each is a theorem, which its contract states.
ghost use Rattle.std.specs.Prelude.{◌≡◌, false, true};
ghost use Rattle.vme_captures.specs.Signals.{is_change};
ghost use Rattle.vme_captures.specs.declared.levels.Levels.{Levels};
ghost use Rattle.vme_captures.specs.declared.signals.Change.{Change};
ghost use Rattle.vme_captures.specs.declared.signals.Line.TheVariants as line;
ghost use Rattle.vme_captures.specs.declared.signals.Signal.TheVariants as signal;
ghost use Rattle.vme_model.specs.Accepted.{IsAccepted};
ghost use Rattle.vme_model.specs.Plan.{Plan};
ghost use Rattle.vme_probe.specs.ChainsFit.{AcknowledgeFits, AllFits, AreOnWires, GrantsFit, IsSeen, is_of_acknowledge, is_of_grants};
ghost use Rattle.vme_probe.specs.Hindered.{AreOthersHindered, FitsTogether};
ghost use Rattle.vme_standings.specs.Behind.{IsBehind};
ghost use Rattle.vme_standings.specs.Driving.{AreDrivers};
ghost use Rattle.vme_standings.specs.Hidden.{HasMoved};
ghost use Rattle.vme_standings.specs.Running.{IsPowerUp, Runs};
ghost use Rattle.vme_standings.specs.Standings.{is_nobody};
ghost use Rattle.vme_standings.specs.declared.segments.Segments.{Segments};
ghost use Rattle.vme_standings.specs.declared.standings.Drivers.{Drivers};
ghost use Rattle.vme_standings.specs.declared.standings.Probed.{Probed};
ghost use Rattle.vme_standings.specs.declared.standings.Standings.{Standings};

/// Whoever has a requester when BBSY* falls or rises, and may not have moved it, has a condition
/// that is named. What is known of the grants fits together.
#[tactic(auto, using(crate::proofs::Granting::busy_hindered))]
pub fn others_cannot_move_bbsy()
    ensures { (p : Plan) (probed : Probed) (st : Standings) (c : Change) (may : Drivers)
        → IsAccepted p → AreDrivers p probed st c may → GrantsFit p probed st
        → IsSeen p probed st c → c.signal ≡ signal.Line line.Bbsy
        → AreOthersHindered p probed.version st c may }
{}

/// If BCLR* falls and the controller may not have pulled it, a condition is named. What is known of
/// the grants fits together.
#[tactic(auto, using(crate::proofs::Granting::clear_hindered))]
pub fn others_cannot_clear_the_bus()
    ensures { (p : Plan) (probed : Probed) (st : Standings) (c : Change) (may : Drivers)
        → IsAccepted p → AreDrivers p probed st c may → GrantsFit p probed st
        → c.fall ≡ true → c.signal ≡ signal.Line line.Bclr
        → AreOthersHindered p probed.version st c may }
{}

/// Whoever drives the wire of a pin of a bus grant chain when it falls or rises, and may not have
/// moved it, has a condition that is named. What is known of the grants fits together.
#[tactic(auto, using(crate::proofs::Granting::grants_hindered))]
pub fn others_cannot_move_a_grant()
    ensures { (p : Plan) (probed : Probed) (st : Standings) (c : Change) (may : Drivers)
        → IsAccepted p → AreDrivers p probed st c may → GrantsFit p probed st
        → IsSeen p probed st c → is_of_grants c.signal ≡ true
        → AreOthersHindered p probed.version st c may }
{}

/// Whoever drives the wire of a pin of the acknowledge chain when it falls or rises, and may not
/// have moved it, has a condition that is named. What is known of the cycle, and of the chain, fits
/// together.
#[tactic(auto, using(crate::proofs::Acknowledging::acknowledges_hindered))]
pub fn others_cannot_move_an_acknowledge()
    ensures { (p : Plan) (probed : Probed) (st : Standings) (c : Change) (may : Drivers)
        → IsAccepted p → AreDrivers p probed st c may → FitsTogether p st
        → AcknowledgeFits p probed st → IsSeen p probed st c → is_of_acknowledge c.signal ≡ true
        → AreOthersHindered p probed.version st c may }
{}

/// Whoever has the line of a change, or drives the wire of its pin, and may not have made the
/// change, has a condition that is named, whatever the change is. What is known fits together.
#[tactic(auto, using(crate::proofs::AllHindered::all_hindered))]
pub fn others_are_hindered()
    ensures { (p : Plan) (probed : Probed) (st : Standings) (c : Change) (may : Drivers)
        → IsAccepted p → AreDrivers p probed st c may → AllFits p probed st
        → IsSeen p probed st c → is_change c ≡ true
        → AreOthersHindered p probed.version st c may }
{}

/// What is known of the acknowledge chain fits together when a capture begins, at power-up and on a
/// running bus, as each pin lies on a wire of the chain.
#[tactic(auto, using(crate::proofs::ChainKept::power_up, crate::proofs::ChainKept::running))]
pub fn an_acknowledge_begins_fitting_together()
    ensures power_up { (p : Plan) (probed : Probed) (st : Standings) → AreOnWires p probed
        → IsPowerUp p st → AcknowledgeFits p probed st }
    ensures running { (p : Plan) (probed : Probed) (lines : Levels) (low : Segments)
        (st : Standings) → AreOnWires p probed → Runs p probed lines low st
        → AcknowledgeFits p probed st }
{}

/// What is known of the acknowledge chain stays fitting together with the edges that no probe sees,
/// and behind a change that somebody may have made.
#[tactic(auto, using(crate::proofs::ChainKept::hidden, crate::proofs::ChainBehind::behind))]
pub fn an_acknowledge_stays_fitting_together()
    ensures hidden { (p : Plan) (probed : Probed) (old new : Standings) → IsAccepted p
        → HasMoved p probed old new → AcknowledgeFits p probed old
        → AcknowledgeFits p probed new }
    ensures behind { (p : Plan) (probed : Probed) (old new : Standings) (c : Change)
        (may : Drivers) → IsAccepted p → AreDrivers p probed old c may → is_nobody may ≡ false
        → is_change c ≡ true → IsBehind p probed old c new
        → AcknowledgeFits p probed old → AcknowledgeFits p probed new }
{}

/// What is known of the grants fits together when a capture begins, at power-up and on a running
/// bus.
pub fn grants_begin_fitting_together()
    ensures power_up { (p : Plan) (probed : Probed) (st : Standings) → IsPowerUp p st
        → GrantsFit p probed st }
    ensures running { (p : Plan) (probed : Probed) (lines : Levels) (low : Segments)
        (st : Standings) → IsAccepted p → Runs p probed lines low st → GrantsFit p probed st }
{}

/// What is known of the grants stays fitting together with the edges that no probe sees, and behind
/// a change that somebody may have made.
#[tactic(auto, using(crate::proofs::GrantsHidden::hidden, crate::proofs::GrantsBehind::behind))]
pub fn grants_stay_fitting_together()
    ensures hidden { (p : Plan) (probed : Probed) (old new : Standings) → IsAccepted p
        → HasMoved p probed old new → GrantsFit p probed old → GrantsFit p probed new }
    ensures behind { (p : Plan) (probed : Probed) (old new : Standings) (c : Change)
        (may : Drivers) → IsAccepted p → AreDrivers p probed old c may → is_nobody may ≡ false
        → IsBehind p probed old c new → GrantsFit p probed old → GrantsFit p probed new }
{}
