//! What an interrupter notes, compared with the history of its backplane, and what its rules read.
//! The functions are laws: a call costs nothing, and gives the fact to the prover.
ghost use Rattle.std.specs.Prelude.{◌≡◌, ℕ, Bool, true, false, Option, List, ◌∷◌};
ghost use Rattle.vme_model.specs.declared.boards.InterrupterRow.{InterrupterRow};
ghost use Rattle.vme_model.specs.declared.boards.Row.{Row};
ghost use Rattle.vme_model.specs.declared.pins.Pins.{Pins};
ghost use Rattle.vme_model.specs.declared.signals.Cycle.{Cycle};
ghost use Rattle.vme_model.specs.declared.signals.Version.{Version};
ghost use Rattle.vme_model.specs.declared.signals.Wire.{Wire};
ghost use Rattle.vme_model.specs.declared.signals.Driver.{Driver};
ghost use Rattle.vme_model.specs.declared.signals.Driver.TheVariants.{Slot};
ghost use Rattle.vme_model.specs.declared.signals.Wire.TheVariants.{Dtack};
ghost use Rattle.vme_model.specs.declared.signals.Edge.{Edge};
ghost use Rattle.vme_model.specs.declared.signals.Part.TheVariants as parts;
ghost use Rattle.vme_model.specs.Signals.{is_fall_of, is_of};
ghost use Rattle.vme_model.specs.Plan.{Plan, board_of};
ghost use Rattle.vme_model.specs.Readings.{Readings, is_served};
ghost use Rattle.vme_model.specs.Verdict.{ruling_on};
ghost use Rattle.std.specs.Prelude.{Some};
ghost use Rattle.vme_interrupter.specs.Local.{Noted, edges, served, interrupter_of, seen, interrupter_readings, SayThePins};

/// If each edge is noted as it is made, the noted edges are the history.
pub fn notes_history()
    ensures { (p : Plan) (h : List Edge) → edges (seen p h) ≡ h }
{}

/// If each edge is noted as it is made, the notes say of each board whether it was served, as the
/// history does.
pub fn notes_service()
    ensures { (p : Plan) (h : List Edge) (d : Driver) (row : Row) →
        board_of p d ≡ Some row →
        served (seen p h) d row.interrupter ≡ is_served p h d }
{}

/// What is shown counts only at the board's own `dtack-`.
pub fn reads_shown_at_answers()
    ensures { (s : ℕ) (row : Option InterrupterRow) (e : Edge) (one other : Option Cycle)
        (noted : List Noted) →
        is_fall_of (Slot s) Dtack e ≡ false →
        interrupter_of s row ((e, one) ∷ noted) ≡ interrupter_of s row ((e, other) ∷ noted) }
{}

/// The rules of an interrupter read its own wires, whether it was served, AS*, DS0*, what is shown,
/// its iackin, its slot and its row, and nothing else. Any readings that agree on these have the
/// same answer.
pub fn reads_its_pins()
    ensures { (version : Version) (s : ℕ) (row : Option InterrupterRow) (own : Wire → Bool)
        (is_served : Bool) (pins : Pins) (r : Readings) (w : Wire) (fall : Bool)
        (value : Option Cycle) →
        SayThePins s row own is_served pins r →
        is_of parts.Interrupter w ≡ true →
        ruling_on version (interrupter_readings s row own is_served pins) w fall value
        ≡ ruling_on version r w fall value }
{}
