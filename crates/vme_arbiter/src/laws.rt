//! What holds for every policy's picks, and what a controller's rules read. The functions are laws:
//! a call costs nothing, and gives the fact to the prover.
ghost use Rattle.std.specs.Prelude.{◌≡◌, ◌==◌, ◌<◌, ℕ, Bool, true, false, Option};
ghost use Rattle.std.specs.Option.{option_map_or};
ghost use Rattle.vme_model.specs.declared.boards.ArbiterKind.{ArbiterKind};
ghost use Rattle.vme_model.specs.declared.pins.Pins.{Pins};
ghost use Rattle.vme_model.specs.declared.signals.Cycle.{Cycle};
ghost use Rattle.vme_model.specs.declared.signals.Version.{Version};
ghost use Rattle.vme_model.specs.declared.signals.Wire.{Wire};
ghost use Rattle.vme_model.specs.Readings.{Readings};
ghost use Rattle.vme_model.specs.Rules.{is_pick, pick};
ghost use Rattle.vme_model.specs.Verdict.{ruling_on};
ghost use Rattle.vme_model.specs.Signals.{has_wire};
ghost use Rattle.vme_model.specs.declared.signals.Driver.TheVariants.{Controller};
ghost use Rattle.vme_arbiter.specs.Local.{controller_readings, SayThePins};

/// A level passes the rule's test exactly if it is the level that is picked, so two never do.
/// Source: Std 1014, chapter 3.
pub fn picks_one()
    ensures { (kind : ArbiterKind) (low : ℕ → Bool) (last n : ℕ) → n < 4 →
        is_pick kind low last n ≡ option_map_or (λ m. m == n) (pick kind low last) false }
{}

/// The rules of a controller read its own wires, the request lines, BBSY*, AS*, DS0*, DTACK*, what
/// is shown, its arbiter's kind and the level last granted, and nothing else. Any readings that
/// agree on these have the same answer.
pub fn reads_its_pins()
    ensures { (version : Version) (kind : ArbiterKind) (own : Wire → Bool) (last_level : ℕ)
        (pins : Pins) (r : Readings) (w : Wire) (fall : Bool) (value : Option Cycle) →
        SayThePins kind own last_level pins r → has_wire Controller w ≡ true →
        ruling_on version (controller_readings kind own last_level pins) w fall value ≡
        ruling_on version r w fall value }
{}
