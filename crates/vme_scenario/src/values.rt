//! What the values at a scenario's keys say.
ghost use Rattle.std.specs.Prelude.{◌≡◌};
ghost use Rattle.toml.specs.View.{view};
ghost use Rattle.vme_scenario.specs.Values as spec;

use bitflags::Flags;
use toml::Value;
use vme_model::{ArbiterKind, ChainId, Chains, IrqKind, Levels};

/// A whole number, 0 to 255; none for any other value.
pub(crate) fn byte(value: &Value) -> Option<u8>
    ensures { result ≡ spec.byte (view value.now) }
{
    match value.as_integer() {
        Some(n) if 0 <= n && n <= 255 => Some(n as u8),
        _ => None,
    }
}

/// An interrupt level, 1 to 7; none for any other value.
fn level(value: &Value) -> Option<u8>
    ensures { result ≡ spec.level (view value.now) }
{
    match value.as_integer() {
        Some(n) if 1 <= n && n <= 7 => Some(n as u8),
        _ => None,
    }
}

/// The arbiter's kind, by its word; none for any other value.
pub(crate) fn arbiter(value: &Value) -> Option<ArbiterKind>
    ensures { result ≡ spec.arbiter (view value.now) }
{
    let word = value.as_str()?;
    if word == "sgl" {
        Some(ArbiterKind::Sgl)
    } else if word == "pri" {
        Some(ArbiterKind::Pri)
    } else if word == "rrs" {
        Some(ArbiterKind::Rrs)
    } else {
        None
    }
}

/// The interrupter's kind, by its word; none for any other value.
pub(crate) fn interrupter_kind(value: &Value) -> Option<IrqKind>
    ensures { result ≡ spec.interrupter_kind (view value.now) }
{
    let word = value.as_str()?;
    if word == "roak" {
        Some(IrqKind::Roak)
    } else if word == "rora" {
        Some(IrqKind::Rora)
    } else {
        None
    }
}

/// True if the word says that the requester releases the bus when done (RWD), and false if it says
/// on request (ROR); none for any other value.
pub(crate) fn releases_when_done(value: &Value) -> Option<bool>
    ensures { result ≡ spec.releases_when_done (view value.now) }
{
    let word = value.as_str()?;
    if word == "rwd" {
        Some(true)
    } else if word == "ror" {
        Some(false)
    } else {
        None
    }
}

/// The daisy chain, by its word; none for any other value.
fn chain(value: &Value) -> Option<ChainId>
    ensures { result ≡ spec.chain (view value.now) }
{
    let word = value.as_str()?;
    if word == "bg0" {
        Some(ChainId::Bg0)
    } else if word == "bg1" {
        Some(ChainId::Bg1)
    } else if word == "bg2" {
        Some(ChainId::Bg2)
    } else if word == "bg3" {
        Some(ChainId::Bg3)
    } else if word == "iack" {
        Some(ChainId::Iack)
    } else {
        None
    }
}

/// The set of the interrupt levels in an array; none for any other value.
pub(crate) fn levels(value: &Value) -> Option<Levels>
    ensures { result ≡ spec.levels (view value.now) }
{
    let mut levels = Levels::empty();
    for item in value.as_array()? {
        levels = levels.with(level(item)?);
    }
    Some(levels)
}

/// The set of the daisy chains in an array; none for any other value.
pub(crate) fn chains(value: &Value) -> Option<Chains>
    ensures { result ≡ spec.chains (view value.now) }
{
    let mut chains = Chains::empty();
    for item in value.as_array()? {
        chains = chains.with(chain(item)?);
    }
    Some(chains)
}
