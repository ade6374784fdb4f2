//! What a master's rules read. The function is a law: a call costs nothing, and gives the fact to
//! the prover.
ghost use Rattle.std.specs.Prelude.{◌≡◌, ℕ, Bool, true, Option};
ghost use Rattle.vme_model.specs.declared.boards.RequesterRow.{RequesterRow};
ghost use Rattle.vme_model.specs.declared.pins.Pins.{Pins};
ghost use Rattle.vme_model.specs.declared.sets.Levels.{Levels};
ghost use Rattle.vme_model.specs.declared.signals.Cycle.{Cycle};
ghost use Rattle.vme_model.specs.declared.signals.Version.{Version};
ghost use Rattle.vme_model.specs.declared.signals.Wire.{Wire};
ghost use Rattle.vme_model.specs.Readings.{Readings};
ghost use Rattle.vme_model.specs.Verdict.{ruling_on};
ghost use Rattle.vme_model.specs.declared.signals.Part.TheVariants as parts;
ghost use Rattle.vme_model.specs.Signals.{is_of};
ghost use Rattle.vme_master.specs.Local.{master_readings, SayThePins};

/// The rules of a master read its own wires and cycles, the interrupt lines, AS*, DTACK* and BERR*,
/// its row, its handler and whether its board holds the bus, and nothing else. Any readings that
/// agree on these have the same answer.
pub fn reads_its_pins()
    ensures { (version : Version) (s : ℕ) (row : RequesterRow) (handler : Levels)
        (own : Wire → Bool) (cycles : ℕ) (has_strobed : Bool) (pins : Pins) (holds_bus : Bool)
        (r : Readings) (w : Wire) (fall : Bool) (value : Option Cycle) →
        SayThePins row handler own cycles has_strobed pins holds_bus r →
        is_of parts.Master w ≡ true →
        ruling_on version (master_readings s row handler own cycles has_strobed pins holds_bus)
        w fall value
        ≡ ruling_on version r w fall value }
{}
