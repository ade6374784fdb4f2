//! What a requester's rules read. The function is a law: a call costs nothing, and gives the fact
//! to the prover.
ghost use Rattle.std.specs.Prelude.{◌≡◌, ℕ, Bool, true, Option};
ghost use Rattle.vme_model.specs.declared.boards.RequesterRow.{RequesterRow};
ghost use Rattle.vme_model.specs.declared.pins.Pins.{Pins};
ghost use Rattle.vme_model.specs.declared.signals.Cycle.{Cycle};
ghost use Rattle.vme_model.specs.declared.signals.Version.{Version};
ghost use Rattle.vme_model.specs.declared.signals.Wire.{Wire};
ghost use Rattle.vme_model.specs.Readings.{Readings};
ghost use Rattle.vme_model.specs.Verdict.{ruling_on};
ghost use Rattle.vme_model.specs.declared.signals.Part.TheVariants as parts;
ghost use Rattle.vme_model.specs.Signals.{is_of};
ghost use Rattle.vme_requester.specs.Local.{requester_readings, SayThePins};

/// The rules of a requester read its own wires, the request lines, its grant-in, its row and
/// whether its address is free, and nothing else. Any readings that agree on these have the same
/// answer.
pub fn reads_its_pins()
    ensures { (version : Version) (s : ℕ) (row : RequesterRow) (own : Wire → Bool) (pins : Pins)
        (is_address_free : Bool) (r : Readings) (w : Wire) (fall : Bool) (value : Option Cycle) →
        SayThePins row own pins is_address_free r →
        is_of parts.Requester w ≡ true →
        ruling_on version (requester_readings s row own pins is_address_free) w fall value
        ≡ ruling_on version r w fall value }
{}
