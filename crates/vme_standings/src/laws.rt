//! What holds of every bus that keeps the rules, and of what is known of it.
//!
//! These functions do nothing. Each is a theorem, which its contract states. `old` is what is known
//! before an edge, and `new` what is known behind it.
ghost use Rattle.std.specs.Prelude.{◌≡◌, ◌≢◌, ◌∷◌, ℕ, Bool, true, false, Some, None, List};
ghost use Rattle.vme_bus.specs.Sets.{has};
ghost use Rattle.vme_bus.specs.declared.sets.SlotSet.{SlotSet};
ghost use Rattle.vme_captures.specs.Changes.{seen};
ghost use Rattle.vme_captures.specs.declared.signals.Change.{Change};
ghost use Rattle.vme_captures.specs.declared.signals.Line.TheVariants as line;
ghost use Rattle.vme_captures.specs.declared.signals.Pin.{Pin};
ghost use Rattle.vme_captures.specs.declared.signals.Signal.TheVariants as signal;
ghost use Rattle.vme_model.specs.Accepted.{IsAccepted};
ghost use Rattle.vme_model.specs.History.{drive, interrupt_line, shown};
ghost use Rattle.vme_model.specs.Plan.{Plan};
ghost use Rattle.vme_model.specs.Signals.{is_same_driver};
ghost use Rattle.vme_model.specs.Verdict.{IsLegal};
ghost use Rattle.vme_model.specs.declared.signals.Cycle.TheVariants.{Acknowledge, Access};
ghost use Rattle.vme_model.specs.declared.signals.Driver.TheVariants.{Slot};
ghost use Rattle.vme_model.specs.declared.signals.Edge.{Edge};
ghost use Rattle.vme_model.specs.declared.signals.Version.{Version};
ghost use Rattle.vme_model.specs.declared.signals.Wire.TheVariants.{Bbsy, AddressStrobe, Irq, IackOut, Dtack};
ghost use Rattle.vme_standings.specs.Cycles.{CoversDrivers};
ghost use Rattle.vme_standings.specs.Interrupters.{is_meant_at};
ghost use Rattle.vme_standings.specs.RequestSets.{may_be, MovesUnseen, Falls, Rises, MayRise, Accessed, AnyAccessed, Acknowledged, Passes, CannotPass};
ghost use Rattle.vme_standings.specs.Requests.{CoversRequests, HasHidden, AreLow, AreShared, AreOnLevel, IsBy, MayAnswer, is_on_level};
ghost use Rattle.vme_standings.specs.declared.interrupters.Interrupters.TheVariants as interrupters;
ghost use Rattle.vme_standings.specs.declared.requests.Requests.{Requests};

/// The hidden moves keep what was covered, and behind them they are in the sets.
pub fn hidden_moves_keep_requests_covered()
    ensures covered { (p : Plan) (h : List Edge) (low shared : SlotSet) (old new : Requests) →
        IsAccepted p → AreLow p h low → AreShared p shared → MovesUnseen low shared old new
        → CoversRequests p h (may_be old) → CoversRequests p h (may_be new) }
    ensures hidden { (p : Plan) (h : List Edge) (low shared : SlotSet) (old new : Requests) →
        IsAccepted p → AreLow p h low → AreShared p shared → MovesUnseen low shared old new
        → HasHidden p h (may_be new) }
{}

/// An edge that no probe sees leaves the interrupt requests covered.
pub fn unseen_edge_keeps_requests_covered()
    ensures { (version : Version) (p : Plan) (pins : List Pin) (h : List Edge) (e : Edge)
        (old : Requests) →
        IsAccepted p → IsLegal version p (e ∷ h) → seen p pins h e ≡ None
        → CoversRequests p h (may_be old) → HasHidden p h (may_be old)
        → CoversRequests p (e ∷ h) (may_be old) }
{}

/// A fall of an interrupt line is by one of its boards, and behind it the requests are covered.
pub fn interrupt_line_falls()
    ensures by { (version : Version) (p : Plan) (pins : List Pin) (h : List Edge) (e : Edge)
        (v : Change) (n : ℕ) (boards : SlotSet) (old : Requests) →
        IsAccepted p → IsLegal version p (e ∷ h) → seen p pins h e ≡ Some v
        → v.signal ≡ signal.Line (line.Irq n) → v.fall ≡ true → AreOnLevel p n boards
        → CoversRequests p h (may_be old) → IsBy e (λ s. has boards s ≡ true) }
    ensures covered { (version : Version) (p : Plan) (pins : List Pin) (h : List Edge) (e : Edge)
        (v : Change) (n : ℕ) (boards : SlotSet) (old new : Requests) →
        IsAccepted p → IsLegal version p (e ∷ h) → seen p pins h e ≡ Some v
        → v.signal ≡ signal.Line (line.Irq n) → v.fall ≡ true → AreOnLevel p n boards
        → CoversRequests p h (may_be old) → Falls boards old new
        → CoversRequests p (e ∷ h) (may_be new) }
{}

/// A rise of an interrupt line is by one of its boards that may let it rise, and behind it the
/// requests are covered.
pub fn interrupt_line_rises()
    ensures by { (version : Version) (p : Plan) (pins : List Pin) (h : List Edge) (e : Edge)
        (v : Change) (n : ℕ) (boards : SlotSet) (old : Requests) →
        IsAccepted p → IsLegal version p (e ∷ h) → seen p pins h e ≡ Some v
        → v.signal ≡ signal.Line (line.Irq n) → v.fall ≡ false → AreOnLevel p n boards
        → CoversRequests p h (may_be old) → IsBy e (MayRise boards old) }
    ensures covered { (version : Version) (p : Plan) (pins : List Pin) (h : List Edge) (e : Edge)
        (v : Change) (n : ℕ) (boards : SlotSet) (old new : Requests) →
        IsAccepted p → IsLegal version p (e ∷ h) → seen p pins h e ≡ Some v
        → v.signal ≡ signal.Line (line.Irq n) → v.fall ≡ false → AreOnLevel p n boards
        → CoversRequests p h (may_be old) → Rises boards old new
        → CoversRequests p (e ∷ h) (may_be new) }
{}

/// A fall of DTACK* while an access is shown is by the board in the slot that is shown, and behind
/// it the requests are covered, whether the slot is known or not.
pub fn access_is_answered()
    ensures by { (version : Version) (p : Plan) (pins : List Pin) (h : List Edge) (e : Edge)
        (v : Change) (slot : ℕ) (old : Requests) →
        IsAccepted p → IsLegal version p (e ∷ h) → seen p pins h e ≡ Some v
        → v.signal ≡ signal.Line line.Dtack → v.fall ≡ true → shown p h ≡ Some (Access slot)
        → CoversRequests p h (may_be old) → IsBy e (λ s. s ≡ slot) }
    ensures covered { (version : Version) (p : Plan) (pins : List Pin) (h : List Edge) (e : Edge)
        (v : Change) (slot : ℕ) (rora : SlotSet) (old new : Requests) →
        IsAccepted p → IsLegal version p (e ∷ h) → seen p pins h e ≡ Some v
        → v.signal ≡ signal.Line line.Dtack → v.fall ≡ true → shown p h ≡ Some (Access slot)
        → ((s : ℕ) → has rora s ≡ is_meant_at interrupters.Rora p s)
        → CoversRequests p h (may_be old) → Accessed slot rora old new
        → CoversRequests p (e ∷ h) (may_be new) }
    ensures unknown { (version : Version) (p : Plan) (pins : List Pin) (h : List Edge) (e : Edge)
        (v : Change) (slot : ℕ) (rora : SlotSet) (old new : Requests) →
        IsAccepted p → IsLegal version p (e ∷ h) → seen p pins h e ≡ Some v
        → v.signal ≡ signal.Line line.Dtack → v.fall ≡ true → shown p h ≡ Some (Access slot)
        → ((s : ℕ) → has rora s ≡ is_meant_at interrupters.Rora p s)
        → CoversRequests p h (may_be old) → AnyAccessed rora old new
        → CoversRequests p (e ∷ h) (may_be new) }
{}

/// A fall of DTACK* while an acknowledge is shown is by a board on its line that may be pending.
/// Behind it the requests are covered, if that board is among those that are taken to answer.
pub fn acknowledge_is_answered()
    ensures by { (version : Version) (p : Plan) (pins : List Pin) (h : List Edge) (e : Edge)
        (v : Change) (n : ℕ) (old : Requests) →
        IsAccepted p → IsLegal version p (e ∷ h) → seen p pins h e ≡ Some v
        → v.signal ≡ signal.Line line.Dtack → v.fall ≡ true → shown p h ≡ Some (Acknowledge n)
        → CoversRequests p h (may_be old) → IsBy e (MayAnswer p n (may_be old)) }
    ensures covered { (version : Version) (p : Plan) (pins : List Pin) (h : List Edge) (e : Edge)
        (v : Change) (n : ℕ) (roak answering : SlotSet) (old new : Requests) →
        IsAccepted p → IsLegal version p (e ∷ h) → seen p pins h e ≡ Some v
        → v.signal ≡ signal.Line line.Dtack → v.fall ≡ true → shown p h ≡ Some (Acknowledge n)
        → ((s : ℕ) → has roak s ≡ is_meant_at interrupters.Roak p s)
        → ((s : ℕ) → e.driver ≡ Slot s → has answering s ≡ true)
        → CoversRequests p h (may_be old) → Acknowledged answering roak old new
        → CoversRequests p (e ∷ h) (may_be new) }
{}

/// A board on the line of an acknowledge that passes it on may pass it, and behind that edge the
/// requests are covered.
pub fn acknowledge_is_passed()
    ensures able { (version : Version) (p : Plan) (h : List Edge) (e : Edge) (s n : ℕ)
        (boards : SlotSet) (old : Requests) →
        IsAccepted p → IsLegal version p (e ∷ h) → is_same_driver e.driver (Slot s) ≡ true
        → e.wire ≡ IackOut → e.fall ≡ true → shown p h ≡ Some (Acknowledge n)
        → is_on_level p n s ≡ true → AreOnLevel p n boards → CoversRequests p h (may_be old)
        → CannotPass s boards (interrupt_line p h n) old → ⊥ }
    ensures covered { (version : Version) (p : Plan) (h : List Edge) (e : Edge) (s n : ℕ)
        (boards : SlotSet) (low : Bool) (old new : Requests) →
        IsAccepted p → IsLegal version p (e ∷ h) → is_same_driver e.driver (Slot s) ≡ true
        → e.wire ≡ IackOut → e.fall ≡ true → shown p h ≡ Some (Acknowledge n)
        → is_on_level p n s ≡ true → CoversRequests p h (may_be old)
        → Passes s boards low old new → CoversRequests p (e ∷ h) (may_be new) }
{}

/// An edge that is neither of an interrupt request nor a fall of DTACK* leaves the requests
/// covered.
pub fn other_edges_keep_requests_covered()
    ensures { (p : Plan) (h : List Edge) (e : Edge) (old : Requests) →
        e.wire ≢ Irq → (e.wire ≡ Dtack → e.fall ≡ false) → CoversRequests p h (may_be old)
        → CoversRequests p (e ∷ h) (may_be old) }
{}

/// An edge that no probe sees leaves those covered who may drive AS* and DTACK*.
pub fn unseen_edge_keeps_drivers_covered()
    ensures strobe { (version : Version) (p : Plan) (pins : List Pin) (h : List Edge) (e : Edge)
        (old : SlotSet) →
        IsAccepted p → IsLegal version p (e ∷ h) → seen p pins h e ≡ None
        → CoversDrivers h AddressStrobe old → CoversDrivers (e ∷ h) AddressStrobe old }
    ensures answer { (version : Version) (p : Plan) (pins : List Pin) (h : List Edge) (e : Edge)
        (old : SlotSet) →
        IsAccepted p → IsLegal version p (e ∷ h) → seen p pins h e ≡ None
        → CoversDrivers h Dtack old → CoversDrivers (e ∷ h) Dtack old }
{}

/// Behind a fall of DTACK* whoever made it drives it, and nobody else. A rise is by one that drives
/// it, and behind it nobody does.
pub fn answer_falls_and_rises()
    ensures falls { (version : Version) (p : Plan) (pins : List Pin) (h : List Edge) (e : Edge)
        (v : Change) (new : SlotSet) →
        IsAccepted p → IsLegal version p (e ∷ h) → seen p pins h e ≡ Some v
        → v.signal ≡ signal.Line line.Dtack → v.fall ≡ true
        → ((s : ℕ) → e.driver ≡ Slot s → has new s ≡ true) → CoversDrivers (e ∷ h) Dtack new }
    ensures by { (version : Version) (p : Plan) (pins : List Pin) (h : List Edge) (e : Edge)
        (v : Change) (old : SlotSet) →
        IsAccepted p → IsLegal version p (e ∷ h) → seen p pins h e ≡ Some v
        → v.signal ≡ signal.Line line.Dtack → v.fall ≡ false → CoversDrivers h Dtack old
        → IsBy e (λ s. has old s ≡ true) }
    ensures rises { (version : Version) (p : Plan) (pins : List Pin) (h : List Edge) (e : Edge)
        (v : Change) (new : SlotSet) →
        IsAccepted p → IsLegal version p (e ∷ h) → seen p pins h e ≡ Some v
        → v.signal ≡ signal.Line line.Dtack → v.fall ≡ false → CoversDrivers (e ∷ h) Dtack new }
{}

/// A fall of AS* is by a board that holds the bus; behind it that board drives it, and nobody else.
/// A rise is by one that drives it, and behind it nobody does.
pub fn address_strobe_falls_and_rises()
    ensures holder { (version : Version) (p : Plan) (pins : List Pin) (h : List Edge) (e : Edge)
        (v : Change) →
        IsAccepted p → IsLegal version p (e ∷ h) → seen p pins h e ≡ Some v
        → v.signal ≡ signal.Line line.AddressStrobe → v.fall ≡ true
        → IsBy e (λ s. drive h (Slot s) Bbsy ≡ true) }
    ensures falls { (version : Version) (p : Plan) (pins : List Pin) (h : List Edge) (e : Edge)
        (v : Change) (new : SlotSet) →
        IsAccepted p → IsLegal version p (e ∷ h) → seen p pins h e ≡ Some v
        → v.signal ≡ signal.Line line.AddressStrobe → v.fall ≡ true
        → ((s : ℕ) → e.driver ≡ Slot s → has new s ≡ true)
        → CoversDrivers (e ∷ h) AddressStrobe new }
    ensures by { (version : Version) (p : Plan) (pins : List Pin) (h : List Edge) (e : Edge)
        (v : Change) (old : SlotSet) →
        IsAccepted p → IsLegal version p (e ∷ h) → seen p pins h e ≡ Some v
        → v.signal ≡ signal.Line line.AddressStrobe → v.fall ≡ false
        → CoversDrivers h AddressStrobe old → IsBy e (λ s. has old s ≡ true) }
    ensures rises { (version : Version) (p : Plan) (pins : List Pin) (h : List Edge) (e : Edge)
        (v : Change) (new : SlotSet) →
        IsAccepted p → IsLegal version p (e ∷ h) → seen p pins h e ≡ Some v
        → v.signal ≡ signal.Line line.AddressStrobe → v.fall ≡ false
        → CoversDrivers (e ∷ h) AddressStrobe new }
{}

/// A fall of DS* is by a board that drives AS*.
pub fn data_strobe_falls()
    ensures { (version : Version) (p : Plan) (pins : List Pin) (h : List Edge) (e : Edge)
        (v : Change) (old : SlotSet) →
        IsAccepted p → IsLegal version p (e ∷ h) → seen p pins h e ≡ Some v
        → v.signal ≡ signal.Line line.DataStrobe → v.fall ≡ true
        → CoversDrivers h AddressStrobe old → IsBy e (λ s. has old s ≡ true) }
{}
