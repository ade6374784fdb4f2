//! What is true of the condition that is printed of whoever may not have made a change.
//!
//! The functions do nothing. Each is a theorem, which its contract states.
ghost use Rattle.std.specs.Prelude.{◌≡◌, ◌⊎◌, ℕ, List, None, Ok, Some, true};
ghost use Rattle.vme_captures.specs.Possible.{Capture};
ghost use Rattle.vme_captures.specs.Reading.{read_of};
ghost use Rattle.vme_captures.specs.declared.signals.Change.{Change};
ghost use Rattle.vme_captures.specs.declared.signals.Entry.{Entry};
ghost use Rattle.vme_model.specs.Accepted.{IsAccepted};
ghost use Rattle.vme_model.specs.Plan.{Plan};
ghost use Rattle.vme_model.specs.declared.signals.Driver.{Driver};
ghost use Rattle.vme_model.specs.declared.signals.Version.{Version};
ghost use Rattle.vme_probe.specs.Conditions.{obstacle};
ghost use Rattle.vme_probe.specs.Holding.{EndsAtHead, IsKnown, NeverHolds, TellsFailing, has_it};
ghost use Rattle.vme_probe.specs.Probing.{Probes};
ghost use Rattle.vme_probe.specs.SampledHolding.{IsKnownInSample, NeverHoldsInSample, TellsFailingInSample};
ghost use Rattle.vme_probe.specs.declared.obstacles.Obstacle.{Obstacle};
ghost use Rattle.vme_reading.specs.Streams.{HasConsumed, IsReadOut, Streams, Wrote};
ghost use Rattle.vme_reading.specs.declared.Status.TheVariants.{SomeRefused};
ghost use Rattle.vme_samples.specs.declared.places.Places.{Places};
ghost use Rattle.vme_samples.specs.declared.samples.SeenChange.{SeenChange};
ghost use Rattle.vme_standings.specs.Moving.{moved_by};
ghost use Rattle.vme_standings.specs.declared.standings.Probed.{Probed};
ghost use Rattle.vme_standings.specs.declared.standings.Standings.{Standings};

/// The condition that is named of a driver is true of every bus. A change comes behind a capture,
/// and the driver has its line, or drives its wire. If a condition is named, it is one of those of
/// the change. Together with the conditions above it, it holds of the driver in no list of edges
/// that keeps the rules and shows the capture, and behind which the line or pin is at the other
/// level.
///
/// So it is for each condition that is printed. If a capture is impossible at a change, each
/// condition in the lines of the change is such a condition. If its head is refused, no condition
/// is printed. Each change is a sample of its own here.
pub fn what_is_named_fails()
    ensures named { (p : Plan) (probed : Probed) (c : Capture) (last : Standings) (v : Change)
        (d : Driver) (o : Obstacle) → IsAccepted p → IsKnown p probed c last
        → has_it p (moved_by p v.signal) d ≡ true
        → obstacle p c.version last v d ≡ Some o → NeverHolds p c last v d o }
    ensures printed { (p : Plan) (bytes : List ℕ) (s : Streams) → IsAccepted p
        → Probes p None bytes s (Ok SomeRefused)
        → (read : List ℕ) × (text : List ℕ)
        × (HasConsumed s read ⊎ (IsReadOut s × (read ≡ bytes)))
        × (EndsAtHead text ⊎ TellsFailing p (read_of p read) text) × Wrote s text }
{}

/// So it is with `--skew`. What is known before a change of a sample is known behind the earlier
/// samples, and behind a set of changes of this one. Together with the conditions above it, a
/// condition that is named then holds of the driver in no list of edges that keeps the rules, that
/// shows the earlier samples, each in some order, and then the changes of the set in some order,
/// and behind which the line or pin is at the other level.
///
/// So it is for each condition that is printed. If a sample is impossible, the set is that of the
/// changes that are placed, and each condition in the lines of the others that may come next is
/// such a condition. If the head is refused, no condition is printed.
pub fn what_is_named_in_a_sample_fails()
    ensures named_in_sample { (p : Plan) (version : Version) (said : List Entry)
        (earlier : List (List SeenChange)) (sample : List SeenChange) (set : Places)
        (last : Standings) (v : Change) (d : Driver) (o : Obstacle) → IsAccepted p
        → IsKnownInSample p version said earlier sample set last
        → has_it p (moved_by p v.signal) d ≡ true
        → obstacle p version last v d ≡ Some o
        → NeverHoldsInSample p version said earlier sample set last v d o }
    ensures printed_in_sample { (p : Plan) (skew : ℕ) (bytes : List ℕ) (s : Streams)
        → IsAccepted p → Probes p (Some skew) bytes s (Ok SomeRefused)
        → (read : List ℕ) × (text : List ℕ)
        × (HasConsumed s read ⊎ (IsReadOut s × (read ≡ bytes)))
        × (EndsAtHead text ⊎ TellsFailingInSample p skew (read_of p read) text) × Wrote s text }
{}
