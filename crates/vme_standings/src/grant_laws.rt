//! What holds of the grants and BBSY* on every bus that keeps the rules, and of what is known of
//! them. A set of phases covers the bus if the bus is in one of them.
//!
//! These functions do nothing. Each is a theorem, which its contract states. `old` is what is known
//! before an edge, and `new` what is known behind it.
ghost use Rattle.std.specs.Prelude.{◌≡◌, ◌≢◌, ◌∷◌, ◌&&◌, ◌||◌, ◌<◌, ℕ, true, false, Some, None, List, []};
ghost use Rattle.vme_bus.specs.Sets.{has};
ghost use Rattle.vme_bus.specs.declared.sets.SlotSet.{SlotSet};
ghost use Rattle.vme_captures.specs.Changes.{is_line_low, seen};
ghost use Rattle.vme_captures.specs.Wires.{wire_of};
ghost use Rattle.vme_captures.specs.declared.signals.Change.{Change};
ghost use Rattle.vme_captures.specs.declared.signals.Line.TheVariants as line;
ghost use Rattle.vme_captures.specs.declared.signals.Pin.{Pin};
ghost use Rattle.vme_captures.specs.declared.signals.Signal.TheVariants as signal;
ghost use Rattle.vme_model.specs.Accepted.{IsAccepted};
ghost use Rattle.vme_model.specs.Plan.{Plan};
ghost use Rattle.vme_model.specs.Signals.{is_two};
ghost use Rattle.vme_model.specs.Verdict.{IsLegal};
ghost use Rattle.vme_model.specs.declared.sets.BusLevels.{BusLevels};
ghost use Rattle.vme_model.specs.declared.signals.Driver.TheVariants.{Controller, Slot};
ghost use Rattle.vme_model.specs.declared.signals.Edge.{Edge};
ghost use Rattle.vme_model.specs.declared.signals.Version.{Version};
ghost use Rattle.vme_model.specs.declared.signals.Wire.TheVariants.{Bbsy, Bg, BgOut};
ghost use Rattle.vme_standings.specs.Beginnings.{CanBegin};
ghost use Rattle.vme_standings.specs.Driving.{AreAskers, AreWithdrawers};
ghost use Rattle.vme_standings.specs.GrantChains.{is_of_level};
ghost use Rattle.vme_standings.specs.Grants.{IsBehindRequest, are_alike, behind_grant, behind_pass, behind_release, behind_rise, behind_take, can_release, is_clear_due, is_granted, is_passed, is_taken};
ghost use Rattle.vme_standings.specs.InPhase.{AreAsked, AreShown, CoversGrants, HasProbes, HasUnseen, InPhase, IsOfGrant, grant_segment};
ghost use Rattle.vme_standings.specs.Phases.{HasExactly, has_phase, is_held_by, is_in_table};
ghost use Rattle.vme_standings.specs.Requests.{IsBy};
ghost use Rattle.vme_standings.specs.Unseen.{has_row_for};
ghost use Rattle.vme_standings.specs.declared.phases.GrantPhase.{GrantPhase as PhaseValue};
ghost use Rattle.vme_standings.specs.declared.phases.GrantPhase.TheVariants.{Held, Idle};
ghost use Rattle.vme_standings.specs.declared.phases.GrantPhases.{GrantPhases};

/// Every bus that keeps the rules is in a phase: at power-up nobody holds it, no grant is low, and
/// the level last granted is 0. The phases with which a capture of a running bus begins cover it.
///
/// The hidden moves keep the bus covered. So does an edge that no probe sees, if the set has the
/// phases to which such edges lead, and so does any edge that is neither of a grant chain nor of
/// BBSY*.
pub fn grants_stay_covered()
    ensures power_up { (p : Plan) → InPhase p [] (Idle 0) }
    ensures phase { (version : Version) (p : Plan) (h : List Edge) →
        IsAccepted p → IsLegal version p h → (q : PhaseValue) × InPhase p h q }
    ensures running { (version : Version) (p : Plan) (h : List Edge) (requests : BusLevels)
        (probed low : List SlotSet) (new : GrantPhases) →
        IsAccepted p → IsLegal version p h → AreAsked p h requests → AreShown p h probed low
        → ((q : PhaseValue) → is_in_table q ≡ true
        → CanBegin p version requests (is_line_low p h line.Bbsy) probed low q
        → has_phase new q ≡ true)
        → CoversGrants p h new }
    ensures moves { (version : Version) (p : Plan) (h : List Edge) (old new : GrantPhases) →
        IsAccepted p → IsLegal version p h
        → ((q : PhaseValue) → has_row_for q ≡ true → has_phase old q ≡ true
        → has_phase new q ≡ true)
        → CoversGrants p h old → CoversGrants p h new }
    ensures unseen { (version : Version) (p : Plan) (pins : List Pin) (h : List Edge) (e : Edge)
        (requests : BusLevels) (probed : List SlotSet) (old : GrantPhases) →
        IsAccepted p → IsLegal version p (e ∷ h) → seen p pins h e ≡ None
        → AreAsked p h requests → HasProbes p pins probed
        → HasUnseen version p requests probed old
        → CoversGrants p h old → CoversGrants p (e ∷ h) old }
    ensures other { (p : Plan) (h : List Edge) (e : Edge) (old : GrantPhases) →
        ((n : ℕ) → e.wire ≢ Bg n) → e.wire ≢ BgOut → e.wire ≢ Bbsy
        → CoversGrants p h old → CoversGrants p (e ∷ h) old }
{}

/// A fall of BBSY* is by a board at which a grant of its level may stand, and behind it the bus is
/// covered: that board holds it. A rise is by a board that may give the bus up, and behind it the
/// bus is covered: it is idle.
pub fn bus_is_taken_and_released()
    ensures taken_by { (version : Version) (p : Plan) (pins : List Pin) (h : List Edge) (e : Edge)
        (v : Change) (requests : BusLevels) (old : GrantPhases) →
        IsAccepted p → IsLegal version p (e ∷ h) → seen p pins h e ≡ Some v
        → v.signal ≡ signal.Line line.Bbsy → v.fall ≡ true → AreAsked p h requests
        → CoversGrants p h old → IsBy e (λ s. is_taken p requests old s ≡ true) }
    ensures taken { (version : Version) (p : Plan) (pins : List Pin) (h : List Edge) (e : Edge)
        (v : Change) (requests : BusLevels) (old new : GrantPhases) →
        IsAccepted p → IsLegal version p (e ∷ h) → seen p pins h e ≡ Some v
        → v.signal ≡ signal.Line line.Bbsy → v.fall ≡ true → AreAsked p h requests
        → CoversGrants p h old → HasExactly new (behind_take p requests old)
        → CoversGrants p (e ∷ h) new }
    ensures released_by { (version : Version) (p : Plan) (pins : List Pin) (h : List Edge)
        (e : Edge) (v : Change) (requests : BusLevels) (old : GrantPhases) →
        IsAccepted p → IsLegal version p (e ∷ h) → seen p pins h e ≡ Some v
        → v.signal ≡ signal.Line line.Bbsy → v.fall ≡ false → AreAsked p h requests
        → CoversGrants p h old → IsBy e (λ s. can_release p requests old s ≡ true) }
    ensures released { (version : Version) (p : Plan) (pins : List Pin) (h : List Edge) (e : Edge)
        (v : Change) (requests : BusLevels) (old new : GrantPhases) →
        IsAccepted p → IsLegal version p (e ∷ h) → seen p pins h e ≡ Some v
        → v.signal ≡ signal.Line line.Bbsy → v.fall ≡ false → AreAsked p h requests
        → CoversGrants p h old → HasExactly new (behind_release p requests old)
        → CoversGrants p (e ∷ h) new }
{}

/// A change of a segment of a grant chain is by who drives it. If the controller's falls, its level
/// may be granted, and if that of a board falls, the board may pass a grant on. Behind a fall or a
/// rise the bus is covered.
pub fn grant_segment_falls_and_rises()
    ensures by { (version : Version) (p : Plan) (pins : List Pin) (h : List Edge) (e : Edge)
        (v : Change) (q : Pin) (c s : ℕ) →
        IsAccepted p → IsLegal version p (e ∷ h) → seen p pins h e ≡ Some v
        → v.signal ≡ signal.Pin q → c < 4 → wire_of p q ≡ grant_segment c s → IsOfGrant e c s }
    ensures granted { (version : Version) (p : Plan) (pins : List Pin) (h : List Edge) (e : Edge)
        (v : Change) (q : Pin) (c : ℕ) (requests : BusLevels) (old : GrantPhases) →
        IsAccepted p → IsLegal version p (e ∷ h) → seen p pins h e ≡ Some v
        → v.signal ≡ signal.Pin q → c < 4 → wire_of p q ≡ grant_segment c 0
        → v.fall ≡ true → AreAsked p h requests → CoversGrants p h old
        → is_granted p requests c old ≡ true }
    ensures begins { (version : Version) (p : Plan) (pins : List Pin) (h : List Edge) (e : Edge)
        (v : Change) (q : Pin) (c : ℕ) (requests : BusLevels) (old new : GrantPhases) →
        IsAccepted p → IsLegal version p (e ∷ h) → seen p pins h e ≡ Some v
        → v.signal ≡ signal.Pin q → c < 4 → wire_of p q ≡ grant_segment c 0
        → v.fall ≡ true → AreAsked p h requests → CoversGrants p h old
        → HasExactly new (behind_grant p requests c old) → CoversGrants p (e ∷ h) new }
    ensures passed { (version : Version) (p : Plan) (pins : List Pin) (h : List Edge) (e : Edge)
        (v : Change) (q : Pin) (c s : ℕ) (old : GrantPhases) →
        IsAccepted p → IsLegal version p (e ∷ h) → seen p pins h e ≡ Some v
        → v.signal ≡ signal.Pin q → c < 4 → 0 < s → wire_of p q ≡ grant_segment c s
        → v.fall ≡ true → CoversGrants p h old → is_passed p version c s old ≡ true }
    ensures passes { (version : Version) (p : Plan) (pins : List Pin) (h : List Edge) (e : Edge)
        (v : Change) (q : Pin) (c s : ℕ) (old new : GrantPhases) →
        IsAccepted p → IsLegal version p (e ∷ h) → seen p pins h e ≡ Some v
        → v.signal ≡ signal.Pin q → c < 4 → 0 < s → wire_of p q ≡ grant_segment c s
        → v.fall ≡ true → CoversGrants p h old
        → HasExactly new (behind_pass p version c s old) → CoversGrants p (e ∷ h) new }
    ensures rises { (version : Version) (p : Plan) (pins : List Pin) (h : List Edge) (e : Edge)
        (v : Change) (q : Pin) (c s : ℕ) (old new : GrantPhases) →
        IsAccepted p → IsLegal version p (e ∷ h) → seen p pins h e ≡ Some v
        → v.signal ≡ signal.Pin q → c < 4 → wire_of p q ≡ grant_segment c s
        → v.fall ≡ false → CoversGrants p h old
        → HasExactly new (behind_rise p version c s old) → CoversGrants p (e ∷ h) new }
{}

/// A fall of a BR line is by a board of its level that may have asked, since it does not hold the
/// bus. A rise is by one that may have withdrawn; in the first version it holds the bus. A fall of
/// AS* is by a board that holds the bus in some phase, and a change of BCLR* is by the controller.
/// Behind each the bus is covered.
pub fn lines_tell_of_the_phase()
    ensures asked_by { (version : Version) (p : Plan) (pins : List Pin) (h : List Edge) (e : Edge)
        (v : Change) (n : ℕ) (boards : SlotSet) (old : GrantPhases) →
        IsAccepted p → IsLegal version p (e ∷ h) → seen p pins h e ≡ Some v
        → v.signal ≡ signal.Line (line.Br n) → v.fall ≡ true → AreAskers p n old boards
        → CoversGrants p h old → IsBy e (λ s. has boards s ≡ true) }
    ensures asked { (version : Version) (p : Plan) (pins : List Pin) (h : List Edge) (e : Edge)
        (v : Change) (n : ℕ) (boards : SlotSet) (old new : GrantPhases) →
        IsAccepted p → IsLegal version p (e ∷ h) → seen p pins h e ≡ Some v
        → v.signal ≡ signal.Line (line.Br n) → v.fall ≡ true → AreAskers p n old boards
        → CoversGrants p h old → IsBehindRequest boards old new → CoversGrants p (e ∷ h) new }
    ensures withdrawn_by { (version : Version) (p : Plan) (pins : List Pin) (h : List Edge)
        (e : Edge) (v : Change) (n : ℕ) (boards : SlotSet) (old : GrantPhases) →
        IsAccepted p → IsLegal version p (e ∷ h) → seen p pins h e ≡ Some v
        → v.signal ≡ signal.Line (line.Br n) → v.fall ≡ false
        → AreWithdrawers p version n old boards
        → CoversGrants p h old → IsBy e (λ s. has boards s ≡ true) }
    ensures withdrawn { (version : Version) (p : Plan) (pins : List Pin) (h : List Edge)
        (e : Edge) (v : Change) (n : ℕ) (old new : GrantPhases) →
        IsAccepted p → IsLegal version p (e ∷ h) → seen p pins h e ≡ Some v
        → v.signal ≡ signal.Line (line.Br n) → v.fall ≡ false → CoversGrants p h old
        → HasExactly new (λ q.
        (is_two version || is_held_by (is_of_level p n) q) && has_phase old q)
        → CoversGrants p (e ∷ h) new }
    ensures shown_by { (version : Version) (p : Plan) (pins : List Pin) (h : List Edge) (e : Edge)
        (v : Change) (old : GrantPhases) →
        IsAccepted p → IsLegal version p (e ∷ h) → seen p pins h e ≡ Some v
        → v.signal ≡ signal.Line line.AddressStrobe → v.fall ≡ true → CoversGrants p h old
        → IsBy e (λ s. (first : ℕ) × (has_phase old (Held s first) ≡ true)) }
    ensures shown { (version : Version) (p : Plan) (pins : List Pin) (h : List Edge) (e : Edge)
        (v : Change) (boards : SlotSet) (old new : GrantPhases) →
        IsAccepted p → IsLegal version p (e ∷ h) → seen p pins h e ≡ Some v
        → v.signal ≡ signal.Line line.AddressStrobe → v.fall ≡ true → CoversGrants p h old
        → ((s : ℕ) → e.driver ≡ Slot s → has boards s ≡ true)
        → HasExactly new (λ q. is_held_by (has boards) q && has_phase old q)
        → CoversGrants p (e ∷ h) new }
    ensures cleared_by { (version : Version) (p : Plan) (pins : List Pin) (h : List Edge)
        (e : Edge) (v : Change) →
        IsAccepted p → IsLegal version p (e ∷ h) → seen p pins h e ≡ Some v
        → v.signal ≡ signal.Line line.Bclr → e.driver ≡ Controller }
    ensures cleared { (version : Version) (p : Plan) (pins : List Pin) (h : List Edge) (e : Edge)
        (v : Change) (requests : BusLevels) (old new : GrantPhases) →
        IsAccepted p → IsLegal version p (e ∷ h) → seen p pins h e ≡ Some v
        → v.signal ≡ signal.Line line.Bclr → AreAsked p h requests → CoversGrants p h old
        → HasExactly new (λ q.
        has_phase old q && are_alike (is_clear_due p requests q) v.fall)
        → CoversGrants p (e ∷ h) new }
{}
