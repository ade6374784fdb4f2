//! What holds behind a capture of which somebody may have made each change: of whoever may not have
//! made a further change, one of the change's conditions is named.
//!
//! The function does nothing. It is a theorem, which its contract states.
ghost use Rattle.std.specs.Prelude.{◌≡◌, ◌⊎◌, ℕ, List, None, Ok, true};
ghost use Rattle.vme_captures.specs.Possible.{Capture};
ghost use Rattle.vme_captures.specs.Reading.{read_of};
ghost use Rattle.vme_captures.specs.Signals.{is_change};
ghost use Rattle.vme_captures.specs.declared.signals.Change.{Change};
ghost use Rattle.vme_model.specs.Accepted.{IsAccepted};
ghost use Rattle.vme_model.specs.Plan.{Plan};
ghost use Rattle.vme_probe.specs.ChainsFit.{AllFits, IsSeen};
ghost use Rattle.vme_probe.specs.Hindered.{AreOthersHindered};
ghost use Rattle.vme_probe.specs.Holding.{EndsAtHead};
ghost use Rattle.vme_probe.specs.Led.{IsLed, TellsHindered};
ghost use Rattle.vme_probe.specs.Probing.{Probes};
ghost use Rattle.vme_reading.specs.Streams.{HasConsumed, IsReadOut, Streams, Wrote};
ghost use Rattle.vme_reading.specs.declared.Status.TheVariants.{SomeRefused};
ghost use Rattle.vme_standings.specs.Driving.{AreDrivers};
ghost use Rattle.vme_standings.specs.declared.standings.Drivers.{Drivers};
ghost use Rattle.vme_standings.specs.declared.standings.Probed.{Probed};
ghost use Rattle.vme_standings.specs.declared.standings.Standings.{Standings};

/// What is known behind a capture fits together, if somebody may have made each of its changes. So
/// whoever has the line of a change that comes next, or drives the wire of its pin, and may not
/// have made it, has a condition that is named.
///
/// So it is in what is printed. If a capture is impossible at a change, its last lines name a
/// condition for each driver that has the line of the change, or drives the wire of its pin. If its
/// head is refused, there is no change. Each change is a sample of its own here.
pub fn others_are_hindered_behind_a_capture()
    ensures fits { (p : Plan) (probed : Probed) (c : Capture) (last : Standings) → IsAccepted p
        → IsLed p probed c last → AllFits p probed last }
    ensures hindered { (p : Plan) (probed : Probed) (c : Capture) (last : Standings)
        (v : Change) (may : Drivers) → IsAccepted p → IsLed p probed c last
        → AreDrivers p probed last v may → IsSeen p probed last v → is_change v ≡ true
        → AreOthersHindered p c.version last v may }
    ensures printed { (p : Plan) (bytes : List ℕ) (s : Streams) → IsAccepted p
        → Probes p None bytes s (Ok SomeRefused)
        → (read : List ℕ) × (text : List ℕ)
        × (HasConsumed s read ⊎ (IsReadOut s × (read ≡ bytes)))
        × (EndsAtHead text ⊎ TellsHindered p (read_of p read) text) × Wrote s text }
{}
