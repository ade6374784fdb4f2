//! What holds of every capture.
//!
//! The functions do nothing. Each is a theorem, which its contract states.
ghost use Rattle.std.specs.Prelude.{◌≡◌, ◌++◌, ◌↔◌, ◌∷◌, ℕ, List, Some, true};
ghost use Rattle.vme_model.specs.Plan.{Plan};
ghost use Rattle.vme_captures.specs.declared.signals.Change.{Change};
ghost use Rattle.vme_captures.specs.declared.signals.Entry.{Entry};
ghost use Rattle.vme_captures.specs.declared.signals.Pin.{Pin};
ghost use Rattle.vme_captures.specs.Leaving.{has_own_wire, without_byte, without_pin, without_slot};
ghost use Rattle.vme_captures.specs.Possible.{Capture, IsPossible};
ghost use Rattle.vme_captures.specs.Spelling.{Spells};
ghost use Rattle.vme_captures.specs.Words.{entry_of};

/// A line says exactly what it spells.
pub fn line_says_what_it_spells()
    ensures { (line : List ℕ) (e : Entry) → (entry_of line ≡ Some e) ↔ Spells line e }
{}

/// No line spells two things.
pub fn line_spells_one_thing()
    ensures { (line : List ℕ) (d e : Entry) → Spells line d → Spells line e → d ≡ e }
{}

/// A possible capture stays possible without one of its pins, with all that it says of that pin.
/// No other pin of it is on the same wire, as in every capture that is read without a fault.
#[tactic(auto, using(crate::proofs::Less::without_a_pin))]
pub fn possible_without_a_pin()
    ensures { (p : Plan) (c : Capture) (q : Pin) → has_own_wire p c.pins q ≡ true
        → IsPossible p c → IsPossible p (without_pin q c) }
{}

/// A possible capture stays possible without the status byte of a change.
#[tactic(auto, using(crate::proofs::Less::without_a_byte))]
pub fn possible_without_a_byte()
    ensures { (p : Plan) (c : Capture) (later earlier : List Change) (v : Change)
        → IsPossible p (record c { changes = later ++ v ∷ earlier })
        → IsPossible p (record c { changes = later ++ without_byte v ∷ earlier }) }
{}

/// A possible capture stays possible without the slot of an access: `AS- rT` becomes `AS- r`.
#[tactic(auto, using(crate::proofs::Less::without_a_slot))]
pub fn possible_without_a_slot()
    ensures { (p : Plan) (c : Capture) (later earlier : List Change) (v : Change)
        → IsPossible p (record c { changes = later ++ v ∷ earlier })
        → IsPossible p (record c { changes = later ++ without_slot v ∷ earlier }) }
{}
