//! The edges that were made before an edge that is asked for.
ghost use Rattle.std.specs.Prelude.{◌≡◌, true, is_ok, IfOk, OnOk, OnErr};
ghost use Rattle.vme_model.specs.Report.{at_power_up, trace_limit};
ghost use Rattle.vme_model.specs.Signals.{is_well_formed};
ghost use Rattle.vme_model.specs.Verdict.{after, verdict};

use std::alloc::{AllocError, Global};
use std::marker::Model;
use vme_bus::Bus;
use vme_model::{Edge, Refused, Version};
use vme_store::Code;

/// A bus, and the edges that were made on it since power-up. A contract sees it as the bus.
///
/// It stores 4 bytes an edge.
#[derive(Drop)]
pub struct Front {
    pub(crate) bus: Bus,
    pub(crate) edges: Vec<Code>,
}

impl Model for Front {
    ghost use Rattle.vme_model.specs.Verdict.{State};
    ghost use Rattle.vme_shrink_search.specs.Leading.{LeadsTo};

    ghost Value = { State };

    ghost view = { λ f. f.bus };

    ghost invariant = { λ f. LeadsTo f.edges.items f.bus };
}

impl Front {
    /// That of a bus, which is put back to power-up: no edge was made.
    pub fn new(alloc: Global, mut bus: Bus) -> Front
        ensures { result ≡ at_power_up bus.version bus.plan trace_limit }
    {
        bus.restart();
        Front {
            bus,
            edges: Vec::new(alloc),
        }
    }

    /// The version of the bus.
    pub fn version(&self) -> Version
        ensures { result ≡ self.now.version }
    {
        self.bus.version()
    }

    /// The answer to an edge that is about to come, but for what it delivers: the first that
    /// applies of E1 to E5, or none.
    pub fn verdict(&self, edge: Edge) -> Result<(), Refused>
        ensures { result ≡ verdict self.now edge }
    {
        self.bus.verdict(edge)
    }

    /// Makes a well-formed edge if it is accepted, and returns whether it is.
    ///
    /// # Errors
    /// `AllocError` if there is no memory for one more edge; nothing is made then.
    pub fn step(&mut self, edge: Edge) -> Result<bool, AllocError>
        requires formed { is_well_formed edge ≡ true }
        ensures accepted { IfOk result (λ t. t ≡ is_ok (verdict self.old edge)) }
        ensures state { OnOk result (self.new ≡ after self.old edge) }
        ensures stays { OnErr result (self.new ≡ self.old) }
    {
        let made = self.edges.len();
        self.edges.push(Code::of(edge))?;
        let is_accepted = self.bus.step(edge).is_ok();
        if !is_accepted {
            self.edges.truncate(made);
        }
        Ok(is_accepted)
    }
}
