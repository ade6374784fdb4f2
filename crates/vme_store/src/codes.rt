//! An edge as one number.
ghost use Rattle.std.specs.Prelude.{◌≡◌, ◌<◌, true};
ghost use Rattle.vme_model.specs.Signals.{is_well_formed};
ghost use Rattle.vme_store.specs.Codes.{fall_code, value_code, code_of, driver_of, wire_of, value_of, edge_of};

use std::marker::Model;
use vme_model::{Cycle, Driver, Edge, Wire};

/// A well-formed edge as the number of four bytes that a trace keeps for it. A contract sees it as
/// the edge.
#[derive(Clone, Copy)]
pub struct Code {
    code: u32,
}

impl Model for Code {
    ghost use Rattle.vme_model.specs.declared.signals.Edge.{Edge};
    ghost use Rattle.std.specs.Prelude.{◌≡◌};
    ghost use Rattle.vme_store.specs.Codes.{code_of, edge_of};

    ghost Value = { Edge };

    ghost view = { λ c. edge_of c.code };

    ghost invariant = { λ c. code_of (edge_of c.code) ≡ c.code };

    ghost inverse = { λ e. record { code = code_of e } };
}

/// The default is the code 0, the controller's `bg0+`.
impl Default for Code {
    #[tactic(auto, unfolding(crate::specs::Codes::edge_of))]
    fn default() -> Code {
        Code { code: 0 }
    }
}

impl Code {
    /// The code of a well-formed edge.
    #[tactic(auto, using(crate::proofs::RoundTrip::round_trip))]
    pub fn of(edge: Edge) -> Code
        requires { is_well_formed edge ≡ true }
        ensures { result ≡ edge }
    {
        Code {
            code: code_of(edge),
        }
    }

    /// The edge for which the code stands.
    pub fn edge(self) -> Edge
        ensures { result ≡ self }
    {
        edge_of(self.code)
    }
}

#[inline(always)]
fn value_code(value: Option<Cycle>) -> u32
    ensures value { result ≡ value_code value }
    ensures bounded { result < 512 }
{
    match value {
        None => 0,
        Some(Cycle::Acknowledge(level)) => u32::from(level),
        Some(Cycle::Access(slot)) => u32::from(slot) + 7,
    }
}

#[inline(always)]
fn fall_code(fall: bool) -> u32
    ensures value { result ≡ fall_code fall }
    ensures bounded { result < 2 }
{
    u32::from(fall)
}

/// The number of an edge, below 2^15 if the edge is well formed.
#[inline(always)]
pub(crate) fn code_of(edge: Edge) -> u32
    ensures { result ≡ code_of edge }
{
    let wire = u32::from(edge.driver.number()) * 16 + u32::from(edge.wire.number());
    (wire * 2 + fall_code(edge.fall)) * 32 + value_code(edge.value)
}

fn wire_of(code: u32) -> Wire
    requires { code < 16 }
    ensures { result ≡ wire_of code }
{
    match code {
        0..=3 => Wire::Bg(code as u8),
        4 => Wire::Bclr,
        5 => Wire::Iack,
        6 => Wire::Berr,
        7 => Wire::Br,
        8 => Wire::BgOut,
        9 => Wire::Bbsy,
        10 => Wire::Addr,
        11 => Wire::AddressStrobe,
        12 => Wire::DataStrobe,
        13 => Wire::Irq,
        14 => Wire::IackOut,
        _ => Wire::Dtack,
    }
}

fn driver_of(code: u32) -> Driver
    requires { code < 32 }
    ensures { result ≡ driver_of code }
{
    match code {
        0 => Driver::Controller,
        _ => Driver::Slot(code as u8),
    }
}

fn value_of(code: u32) -> Option<Cycle>
    requires { code < 32 }
    ensures { result ≡ value_of code }
{
    match code {
        0 => None,
        1..=7 => Some(Cycle::Acknowledge(code as u8)),
        _ => Some(Cycle::Access((code - 7) as u8)),
    }
}

/// The edge for which a number stands.
#[tactic(auto, unfolding(crate::specs::Codes::edge_of))]
pub(crate) fn edge_of(code: u32) -> Edge
    ensures { result ≡ edge_of code }
{
    Edge {
        driver: driver_of(code / 1024 % 32),
        wire: wire_of(code / 64 % 16),
        fall: code / 32 % 2 == 1,
        value: value_of(code % 32),
    }
}
