//! What holds of the answer with `--skew`: no bus that keeps the rules is left out of it, in
//! whatever order the changes of each sample were made.
//!
//! The function does nothing. It is a theorem, which its contract states.
ghost use Rattle.std.specs.Prelude.{◌≡◌, ◌⊎◌, ℕ, List, Ok, Some};
ghost use Rattle.vme_captures.specs.Reading.{read_of};
ghost use Rattle.vme_model.specs.Accepted.{IsAccepted};
ghost use Rattle.vme_model.specs.Plan.{Plan};
ghost use Rattle.vme_probe.specs.Probing.{Probes};
ghost use Rattle.vme_probe.specs.SampledNaming.{IsRefusedInOrders, NamesAllSamples};
ghost use Rattle.vme_reading.specs.Streams.{HasConsumed, IsReadOut, Streams, Wrote};
ghost use Rattle.vme_reading.specs.declared.Status.TheVariants.{Done, SomeRefused};

/// If a capture is possible, everybody is named who may have made each of its changes: whoever made
/// it in some list of edges that keeps the rules and shows the samples up to and with that of the
/// change, each in some order. If it is impossible, no such list shows the samples up to and with
/// the one that is refused, whatever the order of each, or begins as the head says.
///
/// The last lines of a possible capture leave out no list of edges that keeps the rules and shows
/// all samples, each in some order: each line of theirs has what is so behind the list, and each
/// change that may be seen next has its line.
pub fn no_order_of_samples_is_left_out()
    ensures possible { (p : Plan) (skew : ℕ) (bytes : List ℕ) (s : Streams) → IsAccepted p
        → Probes p (Some skew) bytes s (Ok Done)
        → (text : List ℕ) × NamesAllSamples p skew (read_of p bytes) text × Wrote s text }
    ensures impossible { (p : Plan) (skew : ℕ) (bytes : List ℕ) (s : Streams) → IsAccepted p
        → Probes p (Some skew) bytes s (Ok SomeRefused)
        → (read : List ℕ) × (text : List ℕ)
        × (HasConsumed s read ⊎ (IsReadOut s × (read ≡ bytes)))
        × IsRefusedInOrders p skew (read_of p read) text × Wrote s text }
{}
