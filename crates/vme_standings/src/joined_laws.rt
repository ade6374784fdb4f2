//! What holds of the whole bus, if it keeps the rules, and of all that is known of it.
//!
//! The function does nothing. It is a theorem, which its contract states. `old` is what is known
//! before an edge, and `new` what is known behind it.
ghost use Rattle.std.specs.Option.{option_map_or};
ghost use Rattle.std.specs.Prelude.{◌≡◌, ◌∷◌, ◌++◌, ◌&&◌, ◌||◌, ℕ, true, false, Some, None, List, []};
ghost use Rattle.vme_bus.specs.Sets.{has};
ghost use Rattle.vme_captures.specs.Changes.{agrees, seen};
ghost use Rattle.vme_captures.specs.Levels.{is_line_left_low};
ghost use Rattle.vme_captures.specs.Possible.{AgreeEach, Capture, Explains, IsPossible, Sighting, sightings};
ghost use Rattle.vme_captures.specs.declared.signals.Change.{Change};
ghost use Rattle.vme_captures.specs.declared.levels.Levels.{Levels};
ghost use Rattle.vme_captures.specs.declared.signals.Line.TheVariants as line;
ghost use Rattle.vme_captures.specs.declared.signals.Pin.{Pin};
ghost use Rattle.vme_model.specs.Accepted.{IsAccepted};
ghost use Rattle.vme_model.specs.GrantSafety.{Travels};
ghost use Rattle.vme_model.specs.History.{drive, line as line_of, shown};
ghost use Rattle.vme_model.specs.Plan.{Plan};
ghost use Rattle.vme_model.specs.Verdict.{IsLegal};
ghost use Rattle.vme_model.specs.declared.signals.Cycle.{Cycle};
ghost use Rattle.vme_model.specs.declared.signals.Driver.TheVariants.{Slot};
ghost use Rattle.vme_model.specs.declared.signals.Edge.{Edge};
ghost use Rattle.vme_model.specs.declared.signals.Version.{Version};
ghost use Rattle.vme_model.specs.declared.signals.Wire.TheVariants.{AddressStrobe, Bbsy, Irq};
ghost use Rattle.vme_standings.specs.Behind.{IsBehind};
ghost use Rattle.vme_standings.specs.Covers.{Among, AreLevels, AreProbed, Covers, says};
ghost use Rattle.vme_standings.specs.Cuts.{is_nowhere};
ghost use Rattle.vme_standings.specs.Driving.{AreDrivers};
ghost use Rattle.vme_standings.specs.Following.{Follows, HeadSays, StartsAs};
ghost use Rattle.vme_standings.specs.GrantChains.{is_of_level, place_before};
ghost use Rattle.vme_standings.specs.Hidden.{HasMoved};
ghost use Rattle.vme_standings.specs.Phases.{has_phase, is_held, is_in_table};
ghost use Rattle.vme_standings.specs.RequestSets.{may_be};
ghost use Rattle.vme_standings.specs.Requests.{is_on_level};
ghost use Rattle.vme_standings.specs.Running.{CannotRun, IsPowerUp, Runs};
ghost use Rattle.vme_standings.specs.Standings.{is_nobody};
ghost use Rattle.vme_standings.specs.declared.phases.GrantPhase.{GrantPhase as PhaseValue};
ghost use Rattle.vme_standings.specs.declared.phases.GrantPhase.TheVariants.{Granting, Held};
ghost use Rattle.vme_standings.specs.declared.requests.Request.TheVariants.{Pending, Served};
ghost use Rattle.vme_standings.specs.declared.segments.Segments.{Segments};
ghost use Rattle.vme_standings.specs.declared.standings.Drivers.{Drivers};
ghost use Rattle.vme_standings.specs.declared.standings.Probed.{Probed};
ghost use Rattle.vme_standings.specs.declared.standings.Standings.{Standings};

/// What is known before any edge covers the bus at power-up. If the levels at the head of a capture
/// are those of a bus on which AS* is high, a bus can run with them, and what is known of it then
/// covers it.
///
/// The hidden moves keep the bus covered. Behind them it stays covered by any number of edges that
/// no probe sees.
///
/// If it is covered, an edge that makes a change is by a driver among those who may have made that
/// change, so there is one, and what is known behind the change covers the bus with that edge. The
/// change may be captured without its status byte, or without the slot of an access.
///
/// So, if what is known first covers the edges before a capture, what is known behind its changes
/// covers, with the hidden moves, every list of edges that shows them. For each such list the
/// driver of the newest change is among those who may have made it: it is never that nobody may.
///
/// So it is for captures: what is known behind one, with the hidden moves, covers every bus that
/// shows it. If nobody may have made a change, no capture is possible that ends with it. Nor is one
/// that begins on a running bus with levels that are refused.
///
/// What covers a bus tells of whoever holds it, or that nobody may hold it; of the board at which a
/// grant stands, or that none may stand at a board; of whoever drives AS*, and of what is shown
/// then, or that AS* is high; and of whoever pulls an interrupt line.
pub fn the_bus_stays_covered()
    ensures power_up { (p : Plan) (pins : List Pin) (new : Standings) → IsAccepted p
        → IsPowerUp p new → Covers p pins [] new }
    ensures runs { (p : Plan) (pins : List Pin) (probed : Probed) (h : List Edge)
        (lines : Levels) (low : Segments) → IsAccepted p → AreProbed p pins probed.segments
        → IsLegal probed.version p h → AreLevels p pins h lines low
        → CannotRun p probed lines low → ⊥ }
    ensures running { (p : Plan) (pins : List Pin) (probed : Probed) (h : List Edge)
        (lines : Levels) (low : Segments) (new : Standings) → IsAccepted p
        → AreProbed p pins probed.segments → IsLegal probed.version p h
        → AreLevels p pins h lines low → is_line_left_low lines line.AddressStrobe ≡ false
        → Runs p probed lines low new → Covers p pins h new }
    ensures moves { (p : Plan) (pins : List Pin) (probed : Probed) (h : List Edge)
        (old new : Standings) → IsAccepted p → IsLegal probed.version p h
        → HasMoved p probed old new → Covers p pins h old → Covers p pins h new }
    ensures unseen { (p : Plan) (pins : List Pin) (probed : Probed) (h : List Edge) (e : Edge)
        (old new : Standings) → IsAccepted p → AreProbed p pins probed.segments
        → IsLegal probed.version p (e ∷ h) → seen p pins h e ≡ None
        → HasMoved p probed old new → Covers p pins h new → Covers p pins (e ∷ h) new }
    ensures made_by { (p : Plan) (pins : List Pin) (probed : Probed) (h : List Edge) (e : Edge)
        (v c : Change) (old : Standings) (d : Drivers) → IsAccepted p
        → IsLegal probed.version p (e ∷ h) → seen p pins h e ≡ Some v → agrees c v ≡ true
        → Covers p pins h old → AreDrivers p probed old c d
        → (is_nobody d ≡ false) × Among d e.driver }
    ensures seen { (p : Plan) (pins : List Pin) (probed : Probed) (h : List Edge) (e : Edge)
        (v c : Change) (old new : Standings) → IsAccepted p
        → IsLegal probed.version p (e ∷ h) → seen p pins h e ≡ Some v → agrees c v ≡ true
        → Covers p pins h old → IsBehind p probed old c new → Covers p pins (e ∷ h) new }
    ensures followed { (p : Plan) (pins : List Pin) (probed : Probed) (g h : List Edge)
        (changes : List Change) (first behind last : Standings) → IsAccepted p
        → AreProbed p pins probed.segments → IsLegal probed.version p (h ++ g)
        → AgreeEach changes (sightings p pins g h) → Covers p pins g first
        → Follows p probed first changes behind → HasMoved p probed behind last
        → Covers p pins (h ++ g) last }
    ensures never_nobody { (p : Plan) (pins : List Pin) (probed : Probed) (g h : List Edge)
        (c : Change) (earlier : List Change) (first behind last : Standings) (d : Drivers)
        → IsAccepted p → AreProbed p pins probed.segments → IsLegal probed.version p (h ++ g)
        → AgreeEach (c ∷ earlier) (sightings p pins g h) → Covers p pins g first
        → Follows p probed first earlier behind → HasMoved p probed behind last
        → AreDrivers p probed last c d → is_nobody d ≡ false }
    ensures named { (p : Plan) (pins : List Pin) (probed : Probed) (g h : List Edge)
        (c : Change) (earlier : List Change) (s : Sighting) (others : List Sighting)
        (first behind last : Standings) (d : Drivers)
        → IsAccepted p → AreProbed p pins probed.segments → IsLegal probed.version p (h ++ g)
        → sightings p pins g h ≡ s ∷ others → AgreeEach (c ∷ earlier) (s ∷ others)
        → Covers p pins g first → Follows p probed first earlier behind
        → HasMoved p probed behind last → AreDrivers p probed last c d → Among d s.driver }
    ensures explained { (p : Plan) (probed : Probed) (c : Capture) (g h : List Edge)
        (first behind last : Standings) → IsAccepted p → c.version ≡ probed.version
        → AreProbed p c.pins probed.segments → Explains p c g h → StartsAs p probed c first
        → Follows p probed first c.changes behind → HasMoved p probed behind last
        → Covers p c.pins (h ++ g) last }
    ensures possible { (p : Plan) (probed : Probed) (c : Capture) (v : Change)
        (earlier : List Change) (first behind last : Standings) (d : Drivers) → IsAccepted p
        → c.version ≡ probed.version → AreProbed p c.pins probed.segments
        → c.changes ≡ v ∷ earlier → IsPossible p c → StartsAs p probed c first
        → Follows p probed first earlier behind → HasMoved p probed behind last
        → AreDrivers p probed last v d → is_nobody d ≡ false }
    ensures begun { (p : Plan) (probed : Probed) (c : Capture) (lines : Levels) (low : Segments)
        → IsAccepted p → c.version ≡ probed.version → AreProbed p c.pins probed.segments
        → IsPossible p c → HeadSays p c lines low → CannotRun p probed lines low → ⊥ }
    ensures holder { (p : Plan) (pins : List Pin) (h : List Edge) (st : Standings) (s : ℕ)
        → Covers p pins h st → drive h (Slot s) Bbsy ≡ true
        → (first : ℕ) × (has_phase st.phases (Held s first) ≡ true) }
    ensures free { (p : Plan) (pins : List Pin) (h : List Edge) (st : Standings)
        → Covers p pins h st → ((s : ℕ) → drive h (Slot s) Bbsy ≡ false)
        → (q : PhaseValue) × (has_phase st.phases q ≡ true) × (is_held q ≡ false) }
    ensures granted { (p : Plan) (pins : List Pin) (h : List Edge) (st : Standings) (n s : ℕ)
        → IsAccepted p → Covers p pins h st → Travels p h n s
        → (is_of_level p n s
        && has_phase st.phases (Granting n (place_before p n s))) ≡ true }
    ensures nowhere { (version : Version) (p : Plan) (pins : List Pin) (h : List Edge)
        (st : Standings) → IsAccepted p → IsLegal version p h → Covers p pins h st
        → ((n s : ℕ) → Travels p h n s → ⊥)
        → (q : PhaseValue) × (is_in_table q ≡ true) × (has_phase st.phases q ≡ true)
        × (is_nowhere p q ≡ true) }
    ensures addresser { (p : Plan) (pins : List Pin) (h : List Edge) (st : Standings) (s : ℕ)
        → Covers p pins h st → drive h (Slot s) AddressStrobe ≡ true
        → has st.addressers s ≡ true }
    ensures shown { (p : Plan) (pins : List Pin) (h : List Edge) (st : Standings) (v : Cycle)
        → Covers p pins h st → line_of p h AddressStrobe ≡ true → shown p h ≡ Some v
        → option_map_or (says v) st.shown false ≡ true }
    ensures quiet { (p : Plan) (pins : List Pin) (h : List Edge) (st : Standings)
        → Covers p pins h st → line_of p h AddressStrobe ≡ false → st.shown ≡ None }
    ensures puller { (p : Plan) (pins : List Pin) (h : List Edge) (st : Standings) (n s : ℕ)
        → Covers p pins h st → is_on_level p n s ≡ true → drive h (Slot s) Irq ≡ true
        → (is_on_level p n s
        && (may_be st.requests s Pending || may_be st.requests s Served)) ≡ true }
{}
