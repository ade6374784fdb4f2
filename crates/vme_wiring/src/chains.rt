//! The daisy chains of a backplane.
ghost use Rattle.std.specs.Prelude.{◌≡◌, [], Some, true, false, not};
ghost use Rattle.std.specs.List.{slice_get};
ghost use Rattle.vme_wiring.specs.Chained.{after_board, CanMove};
ghost use Rattle.vme_chain.specs.Segments.{input, output_number, is_clear, is_past_end};

use crate::lines::request_level;
use vme_chain::Chain;
use vme_iack::IackChain;
use vme_model::{ChainId, Edge, Row, Wire};
use vme_slots::Plan;

/// The chains of the four grants, and the acknowledge chain. Source: Std 1014, chapters 3 and 4.
#[derive(Drop)]
pub struct Chains {
    pub bg0: Chain,
    pub bg1: Chain,
    pub bg2: Chain,
    pub bg3: Chain,
    pub iack: IackChain,
}

impl Chains {
    ghost use Rattle.vme_wiring.specs.Chained.{chains_of, chain_at, grant_in, iack_in, with_segment, after_controller, CanMoveHead};

    /// The chains of a plan, high everywhere.
    #[tactic(auto, using(crate::proofs::Fresh::high_segments))]
    pub fn new(plan: &Plan) -> Chains
        ensures { result ≡ chains_of plan.now [] }
    {
        plan.accepted();
        Chains {
            bg0: Chain::new(plan.active(ChainId::Bg0)),
            bg1: Chain::new(plan.active(ChainId::Bg1)),
            bg2: Chain::new(plan.active(ChainId::Bg2)),
            bg3: Chain::new(plan.active(ChainId::Bg3)),
            iack: IackChain::new(plan.active(ChainId::Iack)),
        }
    }

    /// Whether a slot's input on a chain is low. Source: Std 1014, chapters 3 and 4.
    #[inline(always)]
    pub fn input(&self, chain: ChainId, slot: u8) -> bool
        ensures { result ≡ input (chain_at chain self.now) slot }
    {
        match chain {
            ChainId::Bg0 => self.bg0.is_in_low(slot),
            ChainId::Bg1 => self.bg1.is_in_low(slot),
            ChainId::Bg2 => self.bg2.is_in_low(slot),
            ChainId::Bg3 => self.bg3.is_in_low(slot),
            ChainId::Iack => self.iack.is_in_low(slot),
        }
    }

    /// Whether the input of the board's own grant chain is low; false if the board has no
    /// requester. Source: Std 1014, chapter 3.
    #[inline(always)]
    pub fn grant_in(&self, row: &Row) -> bool
        ensures { result ≡ grant_in self.now row.now }
    {
        match row.requester {
            Some(requester) => self.input(ChainId::of_grant(requester.level), row.slot),
            None => false,
        }
    }

    /// Whether the input of the acknowledge chain is low at the board; false if it has no
    /// interrupter. Source: Std 1014, chapter 4.
    #[inline(always)]
    pub fn iack_in(&self, row: &Row) -> bool
        ensures { result ≡ iack_in self.now row.now }
    {
        row.interrupter.is_some() && self.iack.is_in_low(row.slot)
    }

    /// The number of the segment that an active slot drives on a chain.
    fn output_of(&self, chain: ChainId, slot: u8) -> u8
        ensures { result ≡ output_number (chain_at chain self.now).active slot }
    {
        match chain {
            ChainId::Bg0 => self.bg0.output_of(slot),
            ChainId::Bg1 => self.bg1.output_of(slot),
            ChainId::Bg2 => self.bg2.output_of(slot),
            ChainId::Bg3 => self.bg3.output_of(slot),
            ChainId::Iack => self.iack.output_of(slot),
        }
    }

    /// Whether the last segment of a chain is low. S2 and S3 ask for it. Source: profile.
    pub fn is_past_end(&self, chain: ChainId) -> bool
        ensures { result ≡ is_past_end (chain_at chain self.now) }
    {
        match chain {
            ChainId::Bg0 => self.bg0.is_past_end(),
            ChainId::Bg1 => self.bg1.is_past_end(),
            ChainId::Bg2 => self.bg2.is_past_end(),
            ChainId::Bg3 => self.bg3.is_past_end(),
            ChainId::Iack => self.iack.is_past_end(),
        }
    }

    /// Whether every segment of the acknowledge chain is high. S1 asks for it. Source: profile.
    pub fn is_acknowledge_clear(&self) -> bool
        ensures { result ≡ is_clear self.now.iack }
    {
        self.iack.is_clear()
    }

    /// A segment of a chain falls.
    fn fall(&mut self, chain: ChainId, segment: u8)
        requires high { slice_get (chain_at chain self.old).low segment ≡ Some false }
        ensures { self.new ≡ with_segment chain segment true self.old }
    {
        match chain {
            ChainId::Bg0 => self.bg0.fall(segment),
            ChainId::Bg1 => self.bg1.fall(segment),
            ChainId::Bg2 => self.bg2.fall(segment),
            ChainId::Bg3 => self.bg3.fall(segment),
            ChainId::Iack => self.iack.fall(segment),
        }
    }

    /// A segment of a chain rises.
    fn rise(&mut self, chain: ChainId, segment: u8)
        requires low { slice_get (chain_at chain self.old).low segment ≡ Some true }
        ensures { self.new ≡ with_segment chain segment false self.old }
    {
        match chain {
            ChainId::Bg0 => self.bg0.rise(segment),
            ChainId::Bg1 => self.bg1.rise(segment),
            ChainId::Bg2 => self.bg2.rise(segment),
            ChainId::Bg3 => self.bg3.rise(segment),
            ChainId::Iack => self.iack.rise(segment),
        }
    }

    /// A segment of a chain falls or rises.
    #[inline(always)]
    fn drive(&mut self, chain: ChainId, segment: u8, fall: bool)
        requires other { slice_get (chain_at chain self.old).low segment ≡ Some (not fall) }
        ensures { self.new ≡ with_segment chain segment fall self.old }
    {
        if fall {
            self.fall(chain, segment);
        } else {
            self.rise(chain, segment);
        }
    }

    /// The board passes its grant on (`bgout` falls), or its `bgout` rises again. Source: Std 1014,
    /// chapter 3.
    #[inline(always)]
    pub fn pass_grant(&mut self, row: &Row, fall: bool)
        requires other { CanMove row.now Wire.BgOut fall self.old }
        ensures { self.new ≡ after_board row.now Wire.BgOut fall self.old }
    {
        let chain = ChainId::of_grant(request_level(row));
        let segment = self.output_of(chain, row.slot);
        self.drive(chain, segment, fall);
    }

    /// The board passes the acknowledge on (`iackout` falls), or its `iackout` rises again. Source:
    /// Std 1014, chapter 4.
    pub fn pass_acknowledge(&mut self, row: &Row, fall: bool)
        requires other { CanMove row.now Wire.IackOut fall self.old }
        ensures { self.new ≡ after_board row.now Wire.IackOut fall self.old }
    {
        let segment = self.output_of(ChainId::Iack, row.slot);
        self.drive(ChainId::Iack, segment, fall);
    }

    /// Takes in an edge of one of the controller's wires.
    #[inline(always)]
    pub fn note_head(&mut self, edge: Edge)
        requires other { CanMoveHead edge.wire edge.fall self.old }
        ensures { self.new ≡ after_controller edge.wire edge.fall self.old }
    {
        match edge.wire {
            Wire::Bg(level) => self.drive(ChainId::of_grant(level), 0, edge.fall),
            Wire::Iack => self.drive(ChainId::Iack, 0, edge.fall),
            _ => {}
        }
    }
}

/// The chains take in an edge of one of the board's wires.
#[inline(always)]
pub fn note_segment(chains: &mut Chains, row: &Row, edge: Edge)
    requires other { CanMove row.now edge.wire edge.fall chains.old }
    ensures { chains.new ≡ after_board row.now edge.wire edge.fall chains.old }
{
    match edge.wire {
        Wire::BgOut => chains.pass_grant(row, edge.fall),
        Wire::IackOut => chains.pass_acknowledge(row, edge.fall),
        _ => {}
    }
}
