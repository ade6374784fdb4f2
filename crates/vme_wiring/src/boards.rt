//! One board, with its parts.
ghost use Rattle.std.specs.Prelude.{◌≡◌, ◌||◌, ◌∷◌, [], ℕ, false, not, Err, List, Option as OptionValue, option_map};
ghost use Rattle.vme_model.specs.declared.boards.RequesterRow.{RequesterRow as RequesterValue};
ghost use Rattle.vme_model.specs.declared.sets.Levels.{Levels as LevelsValue};
ghost use Rattle.vme_model.specs.declared.signals.Edge.{Edge as EdgeValue};
ghost use Rattle.vme_model.specs.declared.signals.Version.{Version as VersionValue};
ghost use Rattle.vme_model.specs.Plan.{Plan, drives};
ghost use Rattle.vme_model.specs.History.{shown as shown_after};
ghost use Rattle.vme_requester.specs.Local.{requester_of};
ghost use Rattle.vme_master.specs.Local.{master_of};
ghost use Rattle.vme_histories.specs.Asked.{asked};
ghost use Rattle.vme_wiring.specs.Asked.{seen_by, IsAsked};

use crate::chains::Chains;
use vme_interrupter::Interrupter;
use vme_master::Master;
use vme_model::{Cycle, Edge, Pins, Refused, Row, Version, Wire};
use vme_requester::Requester;

/// A board, as its row of the plan and the states of its parts.
#[derive(Clone, Copy)]
pub struct Board {
    pub row: Row,
    pub requester: Option<Requester>,
    pub master: Option<Master>,
    pub interrupter: Interrupter,
}

/// The requester, if there is one, takes in an edge.
#[inline(always)]
fn note_requester(requester: &mut Option<Requester>, edge: Edge)
    ensures { (s : ℕ) (row : OptionValue RequesterValue)
        → (version : VersionValue) (h : List EdgeValue)
        → requester.old ≡ option_map (λ q. requester_of s q version h) row
        → requester.new ≡ option_map (λ q. requester_of s q version (edge ∷ h)) row }
{
    match requester {
        Some(requester) => requester.note(edge),
        None => {}
    }
}

/// The master, if there is one, takes in an edge.
#[inline(always)]
fn note_master(master: &mut Option<Master>, edge: Edge)
    ensures { (s : ℕ) (row : OptionValue RequesterValue)
        → (handler : LevelsValue) (h : List EdgeValue)
        → master.old ≡ option_map (λ q. master_of s q handler h) row
        → master.new ≡ option_map (λ q. master_of s q handler (edge ∷ h)) row }
{
    match master {
        Some(master) => master.note(edge),
        None => {}
    }
}

impl Board {
    ghost use Rattle.vme_wiring.specs.Boards.{OfParts, parts_of, low_of};

    /// The board of a row, before any edge.
    pub fn new(row: Row, version: Version) -> Board
        ensures { (p : Plan) → result ≡ parts_of version p [] row }
    {
        Board {
            row,
            requester: row
                .requester
                .map(|requester| Requester::new(row.slot, requester, version)),
            master: row
                .requester
                .map(|requester| Master::new(row.slot, requester, row.handler)),
            interrupter: Interrupter::new(row.slot, row.interrupter),
        }
    }

    /// Takes in an edge of the board, given what was shown just before it.
    #[inline(always)]
    pub fn note(&mut self, edge: Edge, shown: Option<Cycle>)
        ensures { OfParts self.old (λ version p h r. shown ≡ shown_after p h
            → self.new ≡ parts_of version p (edge ∷ h) r) }
    {
        match edge.wire {
            Wire::Br | Wire::BgOut => note_requester(&mut self.requester, edge),
            Wire::Bbsy => {
                note_requester(&mut self.requester, edge);
                note_master(&mut self.master, edge);
            }
            Wire::Addr | Wire::AddressStrobe | Wire::DataStrobe => {
                note_master(&mut self.master, edge);
            }
            Wire::Irq | Wire::IackOut | Wire::Dtack => self.interrupter.note(edge, shown),
            Wire::Bg(_) | Wire::Bclr | Wire::Iack | Wire::Berr => {}
        }
    }

    /// Whether the board drives its wire low, or its address group on.
    #[inline(always)]
    pub fn is_low(&self, wire: Wire) -> bool
        ensures { result ≡ low_of self.now wire }
    {
        match wire {
            Wire::Br | Wire::BgOut | Wire::Bbsy => match &self.requester {
                Some(requester) => requester.is_low(wire),
                None => false,
            },
            Wire::Addr | Wire::AddressStrobe | Wire::DataStrobe => match &self.master {
                Some(master) => master.is_low(wire),
                None => false,
            },
            _ => self.interrupter.is_low(wire),
        }
    }

    /// Whether the master's address group is off or its address strobe is low.
    #[inline(always)]
    fn is_address_free(&self) -> bool
        ensures { result ≡ (not (low_of self.now Wire.Addr) || low_of self.now Wire.AddressStrobe) }
    {
        !self.is_low(Wire::Addr) || self.is_low(Wire::AddressStrobe)
    }

    /// Whether the rules allow an edge of one of the board's wires, given what all drivers see
    /// alike and the daisy chains. Source: G9 to G26 of docs/RULES.md.
    ///
    /// # Errors
    /// E1 if the board has no part that drives the wire; otherwise E2 or E3 by that part.
    #[inline(always)]
    pub fn may(&self, edge: Edge, pins: &Pins, chains: &Chains) -> Result<(), Refused>
        ensures lacks { OfParts self.now (λ _ _ _ r.
            drives edge.wire r ≡ false → result ≡ Err Refused.NoSuchDriver) }
        ensures asked { OfParts self.now (λ version p h r.
            IsAsked p h r (seen_by chains.now pins.now self.now.row) edge
            → result ≡ asked version p h edge) }
    {
        match (
            edge.wire,
            &self.requester,
            &self.master,
            &self.row.interrupter,
        ) {
            (Wire::Br, Some(requester), _, _) => requester.may_request(edge.fall),
            (Wire::BgOut, Some(requester), _, _) => {
                requester.may_pass(edge.fall, chains.grant_in(&self.row))
            }
            (Wire::Bbsy, Some(requester), _, _) => {
                let grant_in = chains.grant_in(&self.row);
                requester.may_hold(edge.fall, pins, grant_in, self.is_address_free())
            }
            (Wire::Addr, _, Some(master), _) => {
                let holds_bus = self.is_low(Wire::Bbsy);
                master.may_address(edge.fall, edge.value, pins, holds_bus)
            }
            (Wire::AddressStrobe, _, Some(master), _) => master.may_strobe_address(edge.fall, pins),
            (Wire::DataStrobe, _, Some(master), _) => master.may_strobe_data(edge.fall, pins),
            (Wire::Irq, _, _, Some(_)) => self.interrupter.may_request(edge.fall),
            (Wire::IackOut, _, _, Some(_)) => {
                let iack_in = chains.iack_in(&self.row);
                self.interrupter.may_pass(edge.fall, pins, iack_in)
            }
            (Wire::Dtack, _, _, _) => {
                let iack_in = chains.iack_in(&self.row);
                self.interrupter.may_answer(edge.fall, pins, iack_in)
            }
            _ => Err(Refused::NoSuchDriver),
        }
    }
}
