//! What holds of the whole bus, if it keeps the rules, and of what is found of a sample.
//!
//! The functions do nothing. Each is a theorem, which its contract states. `start` is what is known
//! before a sample, `g` are the edges before it and `h` those in which its changes were made.
ghost use Rattle.std.specs.Prelude.{◌≡◌, ◌<◌, ◌≤◌, ◌+◌, ◌++◌, ◌∷◌, ℕ, None, Option, Some, List, length, map, true};
ghost use Rattle.vme_captures.specs.Possible.{AgreeEach, sightings};
ghost use Rattle.vme_captures.specs.declared.signals.Change.{Change};
ghost use Rattle.vme_captures.specs.declared.signals.Pin.{Pin};
ghost use Rattle.vme_model.specs.Accepted.{IsAccepted};
ghost use Rattle.vme_model.specs.Plan.{Plan};
ghost use Rattle.vme_model.specs.Verdict.{IsLegal};
ghost use Rattle.vme_model.specs.declared.signals.Edge.{Edge};
ghost use Rattle.vme_samples.specs.Orders.{AreNamed, AreOrdersOf, CoversHidden, FollowSamples, IsOrderOf, ShowsIn, all_of};
ghost use Rattle.vme_samples.specs.Samples.{joins};
ghost use Rattle.vme_samples.specs.Ways.{AreMakers, AreWays, Gathered, Known, hidden_behind};
ghost use Rattle.vme_samples.specs.declared.samples.SeenChange.{SeenChange};
ghost use Rattle.vme_standings.specs.Covers.{AreProbed, Covers};
ghost use Rattle.vme_standings.specs.declared.standings.Drivers.{Drivers};
ghost use Rattle.vme_standings.specs.declared.standings.Probed.{Probed};
ghost use Rattle.vme_standings.specs.declared.standings.Standings.{Standings};

/// The changes of a sample were made in some order, those of one line or pin in that of the
/// capture. If what is known before the sample covers the bus with the edges that no probe sees,
/// and a bus that keeps the rules shows the changes in such an order, then something is known
/// behind all of them, and it covers the bus. If nothing is known behind them, no such bus shows
/// them.
///
/// Whoever made each of the changes in such an order is among those who are said to have made it.
pub fn no_order_is_left_out()
    ensures reached { (p : Plan) (pins : List Pin) (probed : Probed) (g h : List Edge)
        (start : Standings) (sample : List SeenChange) (known : Known) → IsAccepted p
        → AreProbed p pins probed.segments → CoversHidden p pins probed g start
        → AreWays p probed start sample known → ShowsIn probed.version p pins g h sample
        → (st : Standings) × (hidden_behind known (all_of sample) ≡ Some st)
        × Covers p pins (h ++ g) st }
    ensures gathered { (p : Plan) (pins : List Pin) (probed : Probed) (g h : List Edge)
        (start : Standings) (sample : List SeenChange) (known : Known)
        (all : Option Standings) → IsAccepted p
        → AreProbed p pins probed.segments → CoversHidden p pins probed g start
        → AreWays p probed start sample known → ShowsIn probed.version p pins g h sample
        → 0 < length sample
        → Gathered p probed sample known (all_of sample) (length sample) all
        → (st : Standings) × (all ≡ Some st) × CoversHidden p pins probed (h ++ g) st }
    ensures named { (p : Plan) (pins : List Pin) (probed : Probed) (g h : List Edge)
        (start : Standings) (sample : List SeenChange) (known : Known) (by : ℕ → Drivers)
        → IsAccepted p → AreProbed p pins probed.segments
        → CoversHidden p pins probed g start → AreWays p probed start sample known
        → (shows : ShowsIn probed.version p pins g h sample)
        → AreMakers p probed sample known (all_of sample) by
        → AreNamed by shows.places (sightings p pins g h) }
{}

/// So it is for samples one after the other. Each may have been made in an order of its own: what
/// is known behind all of them covers every list of edges that shows them so. If nothing is known
/// behind the last one, there is no such list.
pub fn samples_stay_covered()
    ensures followed { (p : Plan) (pins : List Pin) (probed : Probed) (g h : List Edge)
        (first last : Standings) (samples : List (List SeenChange)) (changes : List Change)
        → IsAccepted p → AreProbed p pins probed.segments
        → CoversHidden p pins probed g first → FollowSamples p probed first samples last
        → AreOrdersOf samples changes → IsLegal probed.version p (h ++ g)
        → AgreeEach changes (sightings p pins g h)
        → CoversHidden p pins probed (h ++ g) last }
    ensures impossible { (p : Plan) (pins : List Pin) (probed : Probed) (g h : List Edge)
        (first old : Standings) (samples : List (List SeenChange)) (sample : List SeenChange)
        (known : Known) (changes : List Change)
        → IsAccepted p → AreProbed p pins probed.segments
        → CoversHidden p pins probed g first → FollowSamples p probed first samples old
        → AreWays p probed old sample known → 0 < length sample
        → Gathered p probed sample known (all_of sample) (length sample) None
        → AreOrdersOf (sample ∷ samples) changes → IsLegal probed.version p (h ++ g)
        → AgreeEach changes (sightings p pins g h) → ⊥ }
{}

/// Of two samples one behind the other, an order of the earlier and then one of the later is an
/// order of the sample that has the changes of both. So the changes of samples are also those of
/// samples of which two neighbours are joined. A change that belongs to the later of the two by
/// some skew belongs to both joined by any larger one. So with a larger skew no order is missing
/// that there is with a smaller one.
pub fn joined_samples_have_the_orders_of_both()
    ensures order { (earlier later : List SeenChange) (first second : List ℕ)
        (before here : List Change)
        → IsOrderOf earlier first before → IsOrderOf later second here
        → IsOrderOf (earlier ++ later) (map (λ i. length earlier + i) second ++ first)
        (here ++ before) }
    ensures orders { (samples newer : List (List SeenChange)) (earlier later : List SeenChange)
        (changes : List Change)
        → AreOrdersOf (newer ++ later ∷ earlier ∷ samples) changes
        → AreOrdersOf (newer ++ (earlier ++ later) ∷ samples) changes }
    ensures joining { (skew larger : ℕ) (earlier later : List SeenChange) (moment : ℕ)
        → skew ≤ larger → 0 < length later → joins skew later moment ≡ true
        → joins larger (earlier ++ later) moment ≡ true }
{}
