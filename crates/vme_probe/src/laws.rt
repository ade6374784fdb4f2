//! What holds of the answer: no bus that keeps the rules is left out of it, and of whoever may not
//! have made a change, one of the change's conditions is named.
//!
//! The functions do nothing. Each is a theorem, which its contract states.
ghost use Rattle.std.specs.Prelude.{◌≡◌, ◌⊎◌, ℕ, List, None, Ok, true, false};
ghost use Rattle.vme_captures.specs.Levels.{is_line_left_low};
ghost use Rattle.vme_captures.specs.Reading.{read_of};
ghost use Rattle.vme_captures.specs.Signals.{is_change};
ghost use Rattle.vme_captures.specs.declared.levels.Levels.{Levels};
ghost use Rattle.vme_captures.specs.declared.reader.Probe.{Probe};
ghost use Rattle.vme_captures.specs.declared.signals.Change.{Change};
ghost use Rattle.vme_captures.specs.declared.signals.Line.TheVariants as line;
ghost use Rattle.vme_model.specs.Accepted.{IsAccepted};
ghost use Rattle.vme_model.specs.Plan.{Plan};
ghost use Rattle.vme_probe.specs.Hindered.{AreOthersHindered, FitsTogether, is_line_but_busy, is_of_a_cycle, is_of_requests};
ghost use Rattle.vme_probe.specs.Naming.{IsRefused, NamesAll};
ghost use Rattle.vme_probe.specs.Pins.{HoldsProbed};
ghost use Rattle.vme_probe.specs.Probing.{Probes};
ghost use Rattle.vme_reading.specs.Streams.{HasConsumed, IsReadOut, Streams, Wrote};
ghost use Rattle.vme_reading.specs.declared.Status.TheVariants.{Done, SomeRefused};
ghost use Rattle.vme_standings.specs.Behind.{IsBehind};
ghost use Rattle.vme_standings.specs.Driving.{AreDrivers};
ghost use Rattle.vme_standings.specs.Hidden.{HasMoved};
ghost use Rattle.vme_standings.specs.Running.{IsPowerUp, Runs};
ghost use Rattle.vme_standings.specs.Standings.{is_nobody};
ghost use Rattle.vme_standings.specs.declared.segments.Segments.{Segments};
ghost use Rattle.vme_standings.specs.declared.standings.Drivers.{Drivers};
ghost use Rattle.vme_standings.specs.declared.standings.Probed.{Probed};
ghost use Rattle.vme_standings.specs.declared.standings.Standings.{Standings};

/// If a capture is possible, everybody is named who may have made each of its changes: whoever made
/// it in some list of edges that keeps the rules and shows what was captured up to there. If it is
/// impossible, there is no such list for what was captured up to the change that is refused, or for
/// the head. Each change is a sample of its own here.
///
/// The last lines of a possible capture leave out no list of edges that keeps the rules and shows
/// all of it: each line of theirs has what is so behind the list, and each change that may be seen
/// next has its line.
pub fn no_legal_bus_is_left_out()
    ensures possible { (p : Plan) (bytes : List ℕ) (s : Streams) → IsAccepted p
        → Probes p None bytes s (Ok Done)
        → (text : List ℕ) × NamesAll p (read_of p bytes) text × Wrote s text }
    ensures impossible { (p : Plan) (bytes : List ℕ) (s : Streams) → IsAccepted p
        → Probes p None bytes s (Ok SomeRefused)
        → (read : List ℕ) × (text : List ℕ)
        × (HasConsumed s read ⊎ (IsReadOut s × (read ≡ bytes)))
        × IsRefused p (read_of p read) text × Wrote s text }
{}

/// Whoever has a shared line that rises, other than BBSY*, and may not have let it rise, has a
/// condition that is named.
#[tactic(auto, using(crate::proofs::Rising::rises_hindered))]
pub fn others_cannot_let_rise()
    ensures { (p : Plan) (probed : Probed) (st : Standings) (c : Change) (may : Drivers)
        → IsAccepted p → AreDrivers p probed st c may → c.fall ≡ false
        → is_line_but_busy c.signal ≡ true → AreOthersHindered p probed.version st c may }
{}

/// Whoever has a request line that falls, and may not have pulled it, has a condition that is
/// named.
#[tactic(auto, using(crate::proofs::Requesting::requests_hindered))]
pub fn others_cannot_request()
    ensures { (p : Plan) (probed : Probed) (st : Standings) (c : Change) (may : Drivers)
        → IsAccepted p → AreDrivers p probed st c may → c.fall ≡ true
        → is_of_requests c.signal ≡ true → AreOthersHindered p probed.version st c may }
{}

/// Whoever has AS*, DS*, DTACK* or BERR* when it falls, and may not have pulled it, has a condition
/// that is named. What is known of the cycle fits together.
#[tactic(auto, using(crate::proofs::Cycling::cycles_hindered))]
pub fn others_cannot_go_on_with_a_cycle()
    ensures { (p : Plan) (probed : Probed) (st : Standings) (c : Change) (may : Drivers)
        → IsAccepted p → AreDrivers p probed st c may → FitsTogether p st
        → is_change c ≡ true → c.fall ≡ true
        → is_of_a_cycle c.signal ≡ true → AreOthersHindered p probed.version st c may }
{}

/// What is known of a cycle fits together at power-up, and on a running bus, on which DS* is high.
pub fn a_beginning_fits_together()
    ensures power_up { (p : Plan) (st : Standings) → IsPowerUp p st → FitsTogether p st }
    ensures running { (p : Plan) (probed : Probed) (probes : List Probe) (lines : Levels)
        (low : Segments) (st : Standings) → Runs p probed lines low st
        → HoldsProbed true probes low → is_line_left_low lines line.DataStrobe ≡ false
        → FitsTogether p st }
{}

/// What is known of a cycle stays fitting together with the edges that no probe sees, and behind a
/// change that somebody may have made.
#[tactic(auto, using(crate::proofs::Fitting::with_hidden, crate::proofs::Fitting::behind))]
pub fn what_follows_fits_together()
    ensures hidden { (p : Plan) (probed : Probed) (old new : Standings)
        → HasMoved p probed old new → FitsTogether p old → FitsTogether p new }
    ensures behind { (p : Plan) (probed : Probed) (old new : Standings) (c : Change)
        (may : Drivers) → IsAccepted p → AreDrivers p probed old c may → is_nobody may ≡ false
        → is_change c ≡ true → IsBehind p probed old c new → FitsTogether p old
        → FitsTogether p new }
{}
