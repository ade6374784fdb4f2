//! What a driver can read of a backplane.
ghost use Rattle.std.specs.Prelude.{◌≡◌, false};
ghost use Rattle.std.specs.Option.{option_and_then, option_map_or};
ghost use Rattle.vme_model.specs.Sets.{bus_levels, irq_levels, has_level};
ghost use Rattle.vme_model.specs.History.{line, drive};
ghost use Rattle.vme_model.specs.Views.{pins};

use crate::scans;
use vme_model::{
    BusLevels, ChainId, Cycle, Driver, Edge, InterrupterRow, Levels, Pins, RequesterRow, Row,
    Version, Wire,
};
use vme_slots::Plan;

/// One driver's look at the backplane, just before an edge.
#[derive(Clone, Copy)]
pub struct Look<'a> {
    pub version: Version,
    pub plan: &'a Plan,
    pub edges: &'a [Edge],
    pub driver: Driver,
}

impl Look<'_> {
    ghost use Rattle.vme_backplane.specs.Looks.{history_of, readings_of};

    /// Whether the driver's own wire is low, or its address group on.
    pub fn own(&self, wire: Wire) -> bool
        ensures { result ≡ (readings_of self.now).own wire }
    {
        scans::drive(self.edges, self.driver, wire)
    }

    /// Whether an open-collector line is low.
    pub fn line(&self, wire: Wire) -> bool
        ensures { result ≡ line self.now.plan.now (history_of self.now) wire }
    {
        scans::line(self.plan, self.edges, wire)
    }

    /// Whether a wire of the controller is low.
    pub fn controller(&self, wire: Wire) -> bool
        ensures { result ≡ drive (history_of self.now) Driver.Controller wire }
    {
        scans::drive(self.edges, Driver::Controller, wire)
    }

    /// Whether the bus request line of a level is low.
    pub fn request(&self, level: u8) -> bool
        ensures { result ≡ (readings_of self.now).request level }
    {
        scans::request_line(self.plan, self.edges, level)
    }

    /// Whether the interrupt request line of a level is low.
    pub fn irq(&self, level: u8) -> bool
        ensures { result ≡ (readings_of self.now).irq level }
    {
        scans::interrupt_line(self.plan, self.edges, level)
    }

    /// The level last granted.
    pub fn last_level(&self) -> u8
        ensures { result ≡ (readings_of self.now).last_level }
    {
        scans::last_level(self.edges)
    }

    /// The value of the address group that is on.
    pub fn shown(&self) -> Option<Cycle>
        ensures { result ≡ (readings_of self.now).shown }
    {
        scans::shown(self.plan, self.edges)
    }

    /// The driver's board.
    pub fn board(&self) -> Option<Row>
        ensures { result ≡ (readings_of self.now).board }
    {
        scans::board_of(self.plan, self.driver)
    }

    /// The board's requester.
    pub fn requester(&self) -> Option<RequesterRow>
        ensures { result ≡ option_and_then (λ b. b.requester) (readings_of self.now).board }
    {
        self.board().and_then(|board| board.requester)
    }

    /// The board's interrupter.
    pub fn interrupter(&self) -> Option<InterrupterRow>
        ensures { result ≡ option_and_then (λ b. b.interrupter) (readings_of self.now).board }
    {
        self.board().and_then(|board| board.interrupter)
    }

    /// Whether the board handles the interrupt level.
    pub fn handles(&self, level: u8) -> bool
        ensures { result ≡ option_map_or (λ b. has_level b.handler level) (readings_of self.now).board false }
    {
        self.board().is_some_and(|board| board.handler.has(level))
    }

    /// Whether the input of the board's grant chain is low.
    pub fn grant_in(&self) -> bool
        ensures { result ≡ (readings_of self.now).grant_in }
    {
        match self.board() {
            Some(
                Row {
                    slot,
                    requester: Some(requester),
                    ..
                },
            ) => {
                scans::input(
                    self.plan,
                    self.edges,
                    ChainId::of_grant(requester.level),
                    slot,
                )
            }
            _ => false,
        }
    }

    /// Whether the input of the acknowledge chain is low at the board's interrupter.
    pub fn iack_in(&self) -> bool
        ensures { result ≡ (readings_of self.now).iack_in }
    {
        match self.board() {
            Some(
                Row {
                    slot,
                    interrupter: Some(_),
                    ..
                },
            ) => { scans::input(self.plan, self.edges, ChainId::Iack, slot) }
            _ => false,
        }
    }

    /// Whether the board's interrupter was served since it last requested.
    pub fn is_served(&self) -> bool
        ensures { result ≡ (readings_of self.now).served_since_request }
    {
        match self.board() {
            Some(
                Row {
                    interrupter: Some(interrupter),
                    ..
                },
            ) => {
                scans::served_since_request(self.plan, self.edges, self.driver, interrupter.kind)
            }
            _ => false,
        }
    }

    /// The low bus request lines.
    pub fn requests(&self) -> BusLevels
        ensures { result ≡ bus_levels (readings_of self.now).request }
    {
        BusLevels::of_lines([
            self.request(0),
            self.request(1),
            self.request(2),
            self.request(3),
        ])
    }

    /// The low interrupt request lines.
    pub fn irqs(&self) -> Levels
        ensures { result ≡ irq_levels (readings_of self.now).irq }
    {
        Levels::of_lines([
            self.irq(1),
            self.irq(2),
            self.irq(3),
            self.irq(4),
            self.irq(5),
            self.irq(6),
            self.irq(7),
        ])
    }

    /// What the driver reads on its pins.
    pub fn pins(&self) -> Pins
        ensures { result ≡ pins self.now.plan.now (history_of self.now) self.now.driver }
    {
        Pins {
            requests: self.requests(),
            bbsy: self.line(Wire::Bbsy),
            bclr: self.controller(Wire::Bclr),
            address_strobe: self.line(Wire::AddressStrobe),
            data_strobe: self.line(Wire::DataStrobe),
            dtack: self.line(Wire::Dtack),
            berr: self.controller(Wire::Berr),
            irq: self.irqs(),
            shown: self.shown(),
            grant_in: self.grant_in(),
            iack_in: self.iack_in(),
        }
    }
}
