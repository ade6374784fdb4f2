//! Edges taken one by one.
ghost use Rattle.std.specs.Prelude.{◌≡◌, ◌∷◌, Ok, true, false, is_ok};
ghost use Rattle.vme_model.specs.declared.signals.Driver.TheVariants.{Controller, Slot};
ghost use Rattle.vme_model.specs.Deliveries.{delivery};
ghost use Rattle.vme_model.specs.declared.signals.Part.TheVariants as parts;
ghost use Rattle.vme_model.specs.Signals.{is_well_formed, is_of};
ghost use Rattle.vme_model.specs.Verdict.{verdict_but_full};
ghost use Rattle.vme_bus.specs.Answers.{answer_in};
ghost use Rattle.vme_bus.specs.Steps.{answer_but_full, kept_but_full};

use crate::answers::{NO_DELIVERY, NO_DRIVER, accepted_number, answer_in, refusal_number};
use crate::arms::wire_number;
use crate::states::BusState;
use vme_model::{Delivery, Driver, Edge, Refused, Wire};

/// The arm of a wire's fall or that of its rise.
macro_rules! by_fall {
    ($state:expr, $step:ident, $edge:ident $(, $at:expr)* => $delivery:expr) => {
        if $edge.fall {
            $state.$step($edge, $($at,)* true, $delivery)
        } else {
            $state.$step($edge, $($at,)* false, $delivery)
        }
    };
}

impl BusState {
    ghost use Rattle.vme_bus.specs.States.{IsStateOf, OfHistory};

    /// Takes an edge if the rules allow it, and returns what it delivers.
    ///
    /// A refusal is the first that applies of E1 to E4, and leaves everything as it was. No edge is
    /// stored, so that no trace ends.
    #[inline(always)]
    pub fn step(&mut self, edge: Edge) -> Result<Option<Delivery>, Refused>
        ensures answer { OfHistory self.old (λ version p h.
            result ≡ answer_but_full version p h edge) }
        ensures state { OfHistory self.old (λ version p h.
            IsStateOf version p (kept_but_full version p h edge) self.new) }
        ensures refused { is_ok result ≡ false → self.new ≡ self.old }
    {
        if !edge.is_well_formed() {
            return Err(Refused::NoSuchDriver);
        }
        let mut delivery = NO_DELIVERY;
        let number = self.step_one(edge, &mut delivery);
        answer_in(number, delivery)
    }

    /// Takes a well-formed edge that stands alone if the rules allow it. Gives the number of the
    /// answer, and what is delivered.
    ///
    /// All steps of single edges share this machine code, which is large. `step_formed` is put in
    /// place only here and in the one loop over edges.
    #[inline(never)]
    fn step_one(&mut self, edge: Edge, delivery: &mut Delivery) -> u8
        requires formed { is_well_formed edge ≡ true }
        ensures answer { OfHistory self.old (λ version p h.
            answer_in result delivery.new ≡ answer_but_full version p h edge) }
        ensures state { OfHistory self.old (λ version p h.
            IsStateOf version p (kept_but_full version p h edge) self.new) }
        ensures refused { is_ok (answer_in result delivery.new) ≡ false → self.new ≡ self.old }
    {
        self.step_formed(edge, delivery)
    }

    /// Takes a well-formed edge if the rules allow it, in an arm for each wire and direction.
    /// Gives the number of the answer, and what is delivered.
    ///
    /// Comparisons lead to the arm, since a processor foretells most of them, and may not foretell
    /// where a jump by a table goes. No more than three in a row single out one wire, as the
    /// compiler makes such a jump of four. None asks who drives the edge: of a well-formed one the
    /// wire says whether the controller does. No board stands in a slot beyond 21, which the
    /// compiler does not know: by the first test it drops the later ones.
    #[inline(always)]
    pub(crate) fn step_formed(&mut self, edge: Edge, delivery: &mut Delivery) -> u8
        requires formed { is_well_formed edge ≡ true }
        ensures answer { OfHistory self.old (λ version p h.
            answer_in result delivery.new ≡ answer_but_full version p h edge) }
        ensures state { OfHistory self.old (λ version p h.
            IsStateOf version p (kept_but_full version p h edge) self.new) }
        ensures refused { is_ok (answer_in result delivery.new) ≡ false → self.new ≡ self.old }
    {
        let slot = edge.driver.number();
        let number = wire_number(edge.wire);
        if slot >= 22 {
            NO_DRIVER
        } else if number < 4 {
            if number < 1 {
                by_fall!(self, step_controller, edge, Wire::Bg(edge.wire.grant_level()) => delivery)
            } else if number < 2 {
                by_fall!(self, step_controller, edge, Wire::Bclr => delivery)
            } else if number < 3 {
                by_fall!(self, step_controller, edge, Wire::Iack => delivery)
            } else {
                by_fall!(self, step_controller, edge, Wire::Berr => delivery)
            }
        } else if number < 7 {
            if number < 5 {
                by_fall!(self, step_requester, edge, slot, Wire::Br => delivery)
            } else if number < 6 {
                by_fall!(self, step_requester, edge, slot, Wire::BgOut => delivery)
            } else {
                by_fall!(self, step_requester, edge, slot, Wire::Bbsy => delivery)
            }
        } else if number < 10 {
            if number < 8 {
                by_fall!(self, step_master, edge, slot, Wire::Addr => delivery)
            } else if number < 9 {
                by_fall!(self, step_master, edge, slot, Wire::AddressStrobe => delivery)
            } else {
                by_fall!(self, step_master, edge, slot, Wire::DataStrobe => delivery)
            }
        } else if number < 11 {
            by_fall!(self, step_interrupter, edge, slot, Wire::Irq => delivery)
        } else if number < 12 {
            by_fall!(self, step_interrupter, edge, slot, Wire::IackOut => delivery)
        } else {
            by_fall!(self, step_interrupter, edge, slot, Wire::Dtack => delivery)
        }
    }

    /// Takes an edge of the controller if the rules allow it, in an arm whose wire and direction
    /// are constants, so that the compiler leaves out what other edges need.
    #[inline(always)]
    pub(crate) fn step_controller(
        &mut self,
        edge: Edge,
        wire: Wire,
        fall: bool,
        delivery: &mut Delivery,
    ) -> u8
        requires formed { is_well_formed edge ≡ true }
        requires driver { Controller ≡ edge.driver }
        requires wire { wire ≡ edge.wire }
        requires fall { fall ≡ edge.fall }
        requires part { is_of parts.Controller wire ≡ true }
        ensures answer { OfHistory self.old (λ version p h.
            answer_in result delivery.new ≡ answer_but_full version p h edge) }
        ensures state { OfHistory self.old (λ version p h.
            IsStateOf version p (kept_but_full version p h edge) self.new) }
        ensures refused { is_ok (answer_in result delivery.new) ≡ false → self.new ≡ self.old }
    {
        let mut edge = edge;
        edge.driver = Driver::Controller;
        edge.wire = wire;
        edge.fall = fall;
        match self.judge_controller(edge) {
            Ok(()) => accepted_number(self.take_controller(edge), delivery),
            Err(refused) => refusal_number(refused),
        }
    }

    /// Takes an edge of a board's requester if the rules allow it, in an arm whose wire and
    /// direction are constants, so that the compiler leaves out what other edges need.
    #[inline(always)]
    pub(crate) fn step_requester(
        &mut self,
        edge: Edge,
        slot: u8,
        wire: Wire,
        fall: bool,
        delivery: &mut Delivery,
    ) -> u8
        requires formed { is_well_formed edge ≡ true }
        requires slot { Slot slot ≡ edge.driver }
        requires wire { wire ≡ edge.wire }
        requires fall { fall ≡ edge.fall }
        requires part { is_of parts.Requester wire ≡ true }
        ensures answer { OfHistory self.old (λ version p h.
            answer_in result delivery.new ≡ answer_but_full version p h edge) }
        ensures state { OfHistory self.old (λ version p h.
            IsStateOf version p (kept_but_full version p h edge) self.new) }
        ensures refused { is_ok (answer_in result delivery.new) ≡ false → self.new ≡ self.old }
    {
        let mut edge = edge;
        edge.driver = Driver::Slot(slot);
        edge.wire = wire;
        edge.fall = fall;
        match self.judge_requester(edge) {
            Ok(()) => accepted_number(self.take_requester(edge), delivery),
            Err(refused) => refusal_number(refused),
        }
    }

    /// Takes an edge of a board's master if the rules allow it, in an arm whose wire and direction
    /// are constants, so that the compiler leaves out what other edges need.
    #[inline(always)]
    pub(crate) fn step_master(
        &mut self,
        edge: Edge,
        slot: u8,
        wire: Wire,
        fall: bool,
        delivery: &mut Delivery,
    ) -> u8
        requires formed { is_well_formed edge ≡ true }
        requires slot { Slot slot ≡ edge.driver }
        requires wire { wire ≡ edge.wire }
        requires fall { fall ≡ edge.fall }
        requires part { is_of parts.Master wire ≡ true }
        ensures answer { OfHistory self.old (λ version p h.
            answer_in result delivery.new ≡ answer_but_full version p h edge) }
        ensures state { OfHistory self.old (λ version p h.
            IsStateOf version p (kept_but_full version p h edge) self.new) }
        ensures refused { is_ok (answer_in result delivery.new) ≡ false → self.new ≡ self.old }
    {
        let mut edge = edge;
        edge.driver = Driver::Slot(slot);
        edge.wire = wire;
        edge.fall = fall;
        match self.judge_master(edge) {
            Ok(()) => accepted_number(self.take_master(edge), delivery),
            Err(refused) => refusal_number(refused),
        }
    }

    /// Takes an edge of a board's interrupter, or its answer, if the rules allow it, in an arm
    /// whose wire and direction are constants, so that the compiler leaves out what other edges
    /// need.
    #[inline(always)]
    pub(crate) fn step_interrupter(
        &mut self,
        edge: Edge,
        slot: u8,
        wire: Wire,
        fall: bool,
        delivery: &mut Delivery,
    ) -> u8
        requires formed { is_well_formed edge ≡ true }
        requires slot { Slot slot ≡ edge.driver }
        requires wire { wire ≡ edge.wire }
        requires fall { fall ≡ edge.fall }
        requires part { is_of parts.Interrupter wire ≡ true }
        ensures answer { OfHistory self.old (λ version p h.
            answer_in result delivery.new ≡ answer_but_full version p h edge) }
        ensures state { OfHistory self.old (λ version p h.
            IsStateOf version p (kept_but_full version p h edge) self.new) }
        ensures refused { is_ok (answer_in result delivery.new) ≡ false → self.new ≡ self.old }
    {
        let mut edge = edge;
        edge.driver = Driver::Slot(slot);
        edge.wire = wire;
        edge.fall = fall;
        match self.judge_interrupter(edge) {
            Ok(()) => accepted_number(self.take_interrupter(edge), delivery),
            Err(refused) => refusal_number(refused),
        }
    }

    /// Takes an edge of the controller that the rules allow, which delivers nothing.
    #[inline(always)]
    fn take_controller(&mut self, edge: Edge) -> Option<Delivery>
        requires { is_of parts.Controller edge.wire ≡ true }
        ensures delivery { OfHistory self.old (λ _ p h. result ≡ delivery p h edge) }
        ensures state { OfHistory self.old (λ version p h. verdict_but_full version p h edge ≡ Ok tt
            → IsStateOf version p (edge ∷ h) self.new) }
    {
        self.note_controller(edge);
        None
    }

    /// Takes an edge of a board's requester that the rules allow, which delivers nothing.
    #[inline(always)]
    fn take_requester(&mut self, edge: Edge) -> Option<Delivery>
        requires { is_of parts.Requester edge.wire ≡ true }
        ensures delivery { OfHistory self.old (λ _ p h. result ≡ delivery p h edge) }
        ensures state { OfHistory self.old (λ version p h. verdict_but_full version p h edge ≡ Ok tt
            → IsStateOf version p (edge ∷ h) self.new) }
    {
        self.note_requester(edge);
        None
    }

    /// Takes an edge of a board's master that the rules allow, which delivers nothing.
    #[inline(always)]
    fn take_master(&mut self, edge: Edge) -> Option<Delivery>
        requires { is_of parts.Master edge.wire ≡ true }
        ensures delivery { OfHistory self.old (λ _ p h. result ≡ delivery p h edge) }
        ensures state { OfHistory self.old (λ version p h. verdict_but_full version p h edge ≡ Ok tt
            → IsStateOf version p (edge ∷ h) self.new) }
    {
        self.note_master(edge);
        None
    }

    /// Takes an edge of a board's interrupter, or an answer, that the rules allow, and returns what
    /// it delivers.
    #[inline(always)]
    fn take_interrupter(&mut self, edge: Edge) -> Option<Delivery>
        requires { is_of parts.Interrupter edge.wire ≡ true }
        ensures delivery { OfHistory self.old (λ _ p h. result ≡ delivery p h edge) }
        ensures state { OfHistory self.old (λ version p h. verdict_but_full version p h edge ≡ Ok tt
            → IsStateOf version p (edge ∷ h) self.new) }
    {
        let delivery = self.delivery(edge);
        self.note_interrupter(edge);
        delivery
    }
}
