//! What holds of the acknowledge chain of every bus that keeps the rules, and of what is known of
//! it. The acknowledge is covered if the set has the place to which it has come.
//!
//! These functions do nothing. Each is a theorem, which its contract states. `old` is what is known
//! before an edge, and `new` what is known behind it.
ghost use Rattle.std.specs.Prelude.{◌≡◌, ◌≢◌, ◌∷◌, ℕ, true, false, Option, Some, None, List, []};
ghost use Rattle.vme_bus.specs.Sets.{has};
ghost use Rattle.vme_bus.specs.declared.sets.SlotSet.{SlotSet};
ghost use Rattle.vme_captures.specs.Changes.{is_line_low, seen};
ghost use Rattle.vme_captures.specs.Wires.{wire_of};
ghost use Rattle.vme_captures.specs.declared.signals.Change.{Change};
ghost use Rattle.vme_captures.specs.declared.signals.Line.TheVariants as line;
ghost use Rattle.vme_captures.specs.declared.signals.Pin.{Pin};
ghost use Rattle.vme_captures.specs.declared.signals.Signal.TheVariants as signal;
ghost use Rattle.vme_model.specs.Accepted.{IsAccepted};
ghost use Rattle.vme_model.specs.History.{shown};
ghost use Rattle.vme_model.specs.Plan.{Plan};
ghost use Rattle.vme_model.specs.Settling.{is_chain_clear};
ghost use Rattle.vme_model.specs.Verdict.{IsLegal};
ghost use Rattle.vme_model.specs.declared.sets.ChainId.TheVariants as chain;
ghost use Rattle.vme_model.specs.declared.signals.Cycle.TheVariants.{Acknowledge};
ghost use Rattle.vme_model.specs.declared.signals.Driver.TheVariants.{Controller, Slot};
ghost use Rattle.vme_model.specs.declared.signals.Edge.{Edge};
ghost use Rattle.vme_model.specs.declared.signals.Version.{Version};
ghost use Rattle.vme_model.specs.declared.signals.Wire.TheVariants.{AddressStrobe, Iack, IackOut};
ghost use Rattle.vme_standings.specs.FrontCovers.{CoversFronts, IsUnderWay, HasHiddenFronts, HasUnprobed, HasPassing, acknowledge_segment, IsOfSegment, last_place};
ghost use Rattle.vme_standings.specs.Fronts.{place_of, input_place, is_reached, IsWaiting, MovesFronts, may_fall_at, EndsAt};
ghost use Rattle.vme_standings.specs.RequestSets.{may_be};
ghost use Rattle.vme_standings.specs.Requests.{CoversRequests, IsBy};
ghost use Rattle.vme_standings.specs.declared.fronts.Fronts.{Fronts};
ghost use Rattle.vme_standings.specs.declared.requests.Requests.{Requests};

/// While AS* is high nothing is said of the chain, as before any edge.
pub fn nothing_is_said_while_as_is_high()
    ensures power_up { (p : Plan) (new : Fronts) → IsAccepted p → CoversFronts p [] new }
    ensures high { (p : Plan) (h : List Edge) (new : Fronts) →
        is_line_low p h line.AddressStrobe ≡ false → CoversFronts p h new }
{}

/// The hidden moves keep the acknowledge covered, and behind them they are in the set. There are
/// none if no acknowledge is under way.
pub fn hidden_moves_keep_fronts_covered()
    ensures covered { (p : Plan) (h : List Edge) (unseen passing : SlotSet) (old new : Fronts) →
        IsAccepted p → MovesFronts p unseen passing old new
        → CoversFronts p h old → CoversFronts p h new }
    ensures hidden { (p : Plan) (pins : List Pin) (h : List Edge) (n : ℕ)
        (unseen passing : SlotSet) (d : Requests) (old new : Fronts) →
        IsAccepted p → shown p h ≡ Some (Acknowledge n) → HasUnprobed p pins unseen
        → HasPassing p h n d passing → MovesFronts p unseen passing old new
        → HasHiddenFronts p pins h d new }
    ensures idle { (p : Plan) (pins : List Pin) (h : List Edge) (d : Requests) (old : Fronts) →
        ((n : ℕ) → IsUnderWay p h n → ⊥) → HasHiddenFronts p pins h d old }
{}

/// An edge that no probe sees leaves the acknowledge covered, if the interrupt requests are
/// covered.
pub fn unseen_edge_keeps_fronts_covered()
    ensures { (version : Version) (p : Plan) (pins : List Pin) (h : List Edge) (e : Edge)
        (d : Requests) (old : Fronts) →
        IsAccepted p → IsLegal version p (e ∷ h) → seen p pins h e ≡ None
        → CoversRequests p h (may_be d) → HasHiddenFronts p pins h d old
        → CoversFronts p h old → CoversFronts p (e ∷ h) old }
{}

/// Before and behind a fall of AS* the whole chain is high. Behind a rise nothing is said of it.
pub fn address_strobe_falls_and_rises()
    ensures clear { (version : Version) (p : Plan) (pins : List Pin) (h : List Edge) (e : Edge)
        (v : Change) →
        IsAccepted p → IsLegal version p (e ∷ h) → seen p pins h e ≡ Some v
        → v.signal ≡ signal.Line line.AddressStrobe → v.fall ≡ true
        → is_chain_clear p h chain.Iack ≡ true }
    ensures falls { (version : Version) (p : Plan) (pins : List Pin) (h : List Edge) (e : Edge)
        (v : Change) (new : Fronts) →
        IsAccepted p → IsLegal version p (e ∷ h) → seen p pins h e ≡ Some v
        → v.signal ≡ signal.Line line.AddressStrobe → v.fall ≡ true
        → IsWaiting new → CoversFronts p (e ∷ h) new }
    ensures rises { (version : Version) (p : Plan) (pins : List Pin) (h : List Edge) (e : Edge)
        (v : Change) (new : Fronts) →
        IsAccepted p → IsLegal version p (e ∷ h) → seen p pins h e ≡ Some v
        → v.signal ≡ signal.Line line.AddressStrobe → v.fall ≡ false
        → CoversFronts p (e ∷ h) new }
{}

/// A fall of a segment is by who drives it, while an acknowledge is under way that has come to the
/// segment before. Behind it the acknowledge has come to this one.
pub fn acknowledge_segment_falls()
    ensures by { (version : Version) (p : Plan) (pins : List Pin) (h : List Edge) (e : Edge)
        (v : Change) (q : Pin) (driver : Option ℕ) →
        IsAccepted p → IsLegal version p (e ∷ h) → seen p pins h e ≡ Some v
        → v.signal ≡ signal.Pin q → wire_of p q ≡ acknowledge_segment driver
        → v.fall ≡ true → IsOfSegment e driver }
    ensures asked { (version : Version) (p : Plan) (pins : List Pin) (h : List Edge) (e : Edge)
        (v : Change) (q : Pin) (driver : Option ℕ) →
        IsAccepted p → IsLegal version p (e ∷ h) → seen p pins h e ≡ Some v
        → v.signal ≡ signal.Pin q → wire_of p q ≡ acknowledge_segment driver
        → v.fall ≡ true → (n : ℕ) × IsUnderWay p h n }
    ensures able { (version : Version) (p : Plan) (pins : List Pin) (h : List Edge) (e : Edge)
        (v : Change) (q : Pin) (driver : Option ℕ) (old : Fronts) →
        IsAccepted p → IsLegal version p (e ∷ h) → seen p pins h e ≡ Some v
        → v.signal ≡ signal.Pin q → wire_of p q ≡ acknowledge_segment driver
        → v.fall ≡ true → CoversFronts p h old
        → may_fall_at old p (place_of driver) ≡ true }
    ensures covered { (version : Version) (p : Plan) (pins : List Pin) (h : List Edge) (e : Edge)
        (v : Change) (q : Pin) (driver : Option ℕ) (old new : Fronts) →
        IsAccepted p → IsLegal version p (e ∷ h) → seen p pins h e ≡ Some v
        → v.signal ≡ signal.Pin q → wire_of p q ≡ acknowledge_segment driver
        → v.fall ≡ true → CoversFronts p h old → EndsAt (place_of driver) new
        → CoversFronts p (e ∷ h) new }
{}

/// A rise of a segment is by who drives it, while AS* is high.
pub fn acknowledge_segment_rises()
    ensures by { (version : Version) (p : Plan) (pins : List Pin) (h : List Edge) (e : Edge)
        (v : Change) (q : Pin) (driver : Option ℕ) →
        IsAccepted p → IsLegal version p (e ∷ h) → seen p pins h e ≡ Some v
        → v.signal ≡ signal.Pin q → wire_of p q ≡ acknowledge_segment driver
        → v.fall ≡ false → IsOfSegment e driver }
    ensures high { (version : Version) (p : Plan) (pins : List Pin) (h : List Edge) (e : Edge)
        (v : Change) (q : Pin) (driver : Option ℕ) →
        IsAccepted p → IsLegal version p (e ∷ h) → seen p pins h e ≡ Some v
        → v.signal ≡ signal.Pin q → wire_of p q ≡ acknowledge_segment driver
        → v.fall ≡ false → is_line_low p h line.AddressStrobe ≡ false }
{}

/// A fall of DTACK* while an acknowledge is shown is by a board that the acknowledge has reached.
/// Behind it the acknowledge is still at that board's input.
pub fn reached_board_answers()
    ensures asked { (version : Version) (p : Plan) (pins : List Pin) (h : List Edge) (e : Edge)
        (v : Change) (n : ℕ) →
        IsAccepted p → IsLegal version p (e ∷ h) → seen p pins h e ≡ Some v
        → v.signal ≡ signal.Line line.Dtack → v.fall ≡ true → shown p h ≡ Some (Acknowledge n)
        → IsUnderWay p h n }
    ensures by { (version : Version) (p : Plan) (pins : List Pin) (h : List Edge) (e : Edge)
        (v : Change) (n : ℕ) (old : Fronts) →
        IsAccepted p → IsLegal version p (e ∷ h) → seen p pins h e ≡ Some v
        → v.signal ≡ signal.Line line.Dtack → v.fall ≡ true → shown p h ≡ Some (Acknowledge n)
        → CoversFronts p h old → IsBy e (λ s. is_reached old p s ≡ true) }
    ensures covered { (version : Version) (p : Plan) (pins : List Pin) (h : List Edge) (e : Edge)
        (v : Change) (n : ℕ) (old new : Fronts) →
        IsAccepted p → IsLegal version p (e ∷ h) → seen p pins h e ≡ Some v
        → v.signal ≡ signal.Line line.Dtack → v.fall ≡ true → shown p h ≡ Some (Acknowledge n)
        → ((s : ℕ) → e.driver ≡ Slot s → has new.ends (input_place p s) ≡ true)
        → CoversFronts p h old → CoversFronts p (e ∷ h) new }
{}

/// A fall of BERR* while an acknowledge is shown is by the controller, and the acknowledge has come
/// to the end of its chain.
pub fn unanswered_acknowledge_ends()
    ensures by { (version : Version) (p : Plan) (pins : List Pin) (h : List Edge) (e : Edge)
        (v : Change) →
        IsAccepted p → IsLegal version p (e ∷ h) → seen p pins h e ≡ Some v
        → v.signal ≡ signal.Line line.Berr → v.fall ≡ true → e.driver ≡ Controller }
    ensures asked { (version : Version) (p : Plan) (pins : List Pin) (h : List Edge) (e : Edge)
        (v : Change) (n : ℕ) →
        IsAccepted p → IsLegal version p (e ∷ h) → seen p pins h e ≡ Some v
        → v.signal ≡ signal.Line line.Berr → v.fall ≡ true → shown p h ≡ Some (Acknowledge n)
        → IsUnderWay p h n }
    ensures at_end { (version : Version) (p : Plan) (pins : List Pin) (h : List Edge) (e : Edge)
        (v : Change) (n : ℕ) (old : Fronts) →
        IsAccepted p → IsLegal version p (e ∷ h) → seen p pins h e ≡ Some v
        → v.signal ≡ signal.Line line.Berr → v.fall ≡ true → shown p h ≡ Some (Acknowledge n)
        → CoversFronts p h old → has old.ends (last_place p) ≡ true }
    ensures covered { (version : Version) (p : Plan) (pins : List Pin) (h : List Edge) (e : Edge)
        (v : Change) (n : ℕ) (old new : Fronts) →
        IsAccepted p → IsLegal version p (e ∷ h) → seen p pins h e ≡ Some v
        → v.signal ≡ signal.Line line.Berr → v.fall ≡ true → shown p h ≡ Some (Acknowledge n)
        → has new.ends (last_place p) ≡ true → CoversFronts p h old → CoversFronts p (e ∷ h) new }
{}

/// An edge that is neither of AS* nor a fall on the chain leaves the acknowledge covered.
pub fn other_edges_keep_fronts_covered()
    ensures { (version : Version) (p : Plan) (h : List Edge) (e : Edge) (old : Fronts) →
        IsAccepted p → IsLegal version p (e ∷ h) → e.wire ≢ AddressStrobe
        → (e.wire ≡ Iack → e.fall ≡ false) → (e.wire ≡ IackOut → e.fall ≡ false)
        → CoversFronts p h old → CoversFronts p (e ∷ h) old }
{}
