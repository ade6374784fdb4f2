//! The three policies of the standard (ANSI/IEEE Std 1014-1987, chapter 3), and one that is any of
//! them.
ghost use Rattle.std.specs.Prelude.{◌≡◌, ℕ, Bool, true, false, Option, Some, None, find};
ghost use Rattle.vme_model.specs.declared.boards.ArbiterKind.TheVariants as kind;
ghost use Rattle.vme_model.specs.declared.boards.ArbiterKind.{ArbiterKind};
ghost use Rattle.vme_model.specs.declared.sets.BusLevels.{BusLevels};
ghost use Rattle.vme_model.specs.Sets.{has_bus_level};
ghost use Rattle.vme_model.specs.Rules.{pick, serves};
ghost use Rattle.vme_model.proofs.Picks.{pick_is_low, none_low};

use vme_model::{ArbiterKind, BusLevels};

/// A policy: which of the requested levels is granted. Source: Std 1014, chapter 3.
pub trait Policy {
    /// The pick for a set of low lines and the level last granted.
    ghost picked: { Self → BusLevels → ℕ → Option ℕ };

    /// Whether the policy serves a level at all.
    ghost serves: { Self → ℕ → Bool };

    /// The level to grant, 0 to 3, for the low lines and the level last granted (0 at power-up). It
    /// is none if no line that the policy serves is low.
    fn pick(&self, low: BusLevels, last: u8) -> Option<u8>
        ensures { result ≡ picked self.now low last };

    /// A level that is picked is low.
    ghost is_low: { (policy : Self) (low : BusLevels) (last n : ℕ) →
        picked policy low last ≡ Some n → has_bus_level low n ≡ true };

    /// If no level is picked, no level that is served is low.
    ghost is_exhausted: { (policy : Self) (low : BusLevels) (last n : ℕ) →
        picked policy low last ≡ None → serves policy n ≡ true → has_bus_level low n ≡ false };
}

/// Single level (SGL): it serves BR3* alone. Source: Std 1014, chapter 3.
#[derive(Clone, Copy, PartialEq, Eq, Debug)]
pub struct Sgl;

/// Priority (PRI): it picks the highest level that is low. Source: Std 1014, chapter 3.
#[derive(Clone, Copy, PartialEq, Eq, Debug)]
pub struct Pri;

/// Round robin select (RRS): it picks the first low level in the round that begins one below the
/// level last granted, goes down, and goes on at 3 after 0. Source: Std 1014, chapter 3.
#[derive(Clone, Copy, PartialEq, Eq, Debug)]
pub struct Rrs;

/// The policy of a kind that is known only when the program runs.
#[derive(Clone, Copy, PartialEq, Eq, Debug)]
pub struct AnyPolicy {
    kind: ArbiterKind,
}

/// The first level of the list that is low.
fn first_low(low: BusLevels, levels: &[u8]) -> Option<u8>
    ensures { result ≡ find (has_bus_level low) levels.now }
{
    levels.iter().copied().find(|level| low.has(*level))
}

impl Policy for Sgl {
    ghost picked = { λ _ low last. pick kind.Sgl (has_bus_level low) last };

    ghost serves = { λ _ n. serves kind.Sgl n };

    ghost is_low = { λ _ low last n e. pick_is_low kind.Sgl (has_bus_level low) last n e };

    ghost is_exhausted = { λ _ low last n e s. none_low kind.Sgl low last n e s };

    fn pick(&self, low: BusLevels, _last: u8) -> Option<u8> {
        if low.has(3) { Some(3) } else { None }
    }
}

impl Policy for Pri {
    ghost picked = { λ _ low last. pick kind.Pri (has_bus_level low) last };

    ghost serves = { λ _ n. serves kind.Pri n };

    ghost is_low = { λ _ low last n e. pick_is_low kind.Pri (has_bus_level low) last n e };

    ghost is_exhausted = { λ _ low last n e s. none_low kind.Pri low last n e s };

    #[tactic(auto, using(vme_model::proofs::Picks::highest))]
    fn pick(&self, low: BusLevels, _last: u8) -> Option<u8> {
        first_low(low, &[3, 2, 1, 0])
    }
}

impl Policy for Rrs {
    ghost picked = { λ _ low last. pick kind.Rrs (has_bus_level low) last };

    ghost serves = { λ _ n. serves kind.Rrs n };

    ghost is_low = { λ _ low last n e. pick_is_low kind.Rrs (has_bus_level low) last n e };

    ghost is_exhausted = { λ _ low last n e s. none_low kind.Rrs low last n e s };

    #[tactic(auto, using(vme_model::proofs::Picks::next_0, vme_model::proofs::Picks::next_1, vme_model::proofs::Picks::next_2, vme_model::proofs::Picks::next_3))]
    fn pick(&self, low: BusLevels, last: u8) -> Option<u8> {
        match last % 4 {
            0 => first_low(low, &[3, 2, 1, 0]),
            1 => first_low(low, &[0, 3, 2, 1]),
            2 => first_low(low, &[1, 0, 3, 2]),
            _ => first_low(low, &[2, 1, 0, 3]),
        }
    }
}

impl From<ArbiterKind> for AnyPolicy {
    ghost from_gives = { λ kind policy. policy.kind ≡ kind };

    fn from(kind: ArbiterKind) -> AnyPolicy {
        AnyPolicy { kind }
    }
}

impl Policy for AnyPolicy {
    ghost picked = { λ policy low last. pick policy.kind (has_bus_level low) last };

    ghost serves = { λ policy n. serves policy.kind n };

    ghost is_low = { λ policy low last n e. pick_is_low policy.kind (has_bus_level low) last n e };

    ghost is_exhausted = { λ policy low last n e s. none_low policy.kind low last n e s };

    fn pick(&self, low: BusLevels, last: u8) -> Option<u8> {
        match self.kind {
            ArbiterKind::Sgl => Sgl.pick(low, last),
            ArbiterKind::Pri => Pri.pick(low, last),
            ArbiterKind::Rrs => Rrs.pick(low, last),
        }
    }
}
