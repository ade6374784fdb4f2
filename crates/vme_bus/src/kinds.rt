//! What of a state the answers to later edges may depend on, apart from the plan and the version.
ghost use Rattle.std.specs.Prelude.{◌≡◌, List};
ghost use Rattle.vme_model.specs.declared.signals.Version.{Version};
ghost use Rattle.vme_model.specs.declared.signals.Edge.{Edge};
ghost use Rattle.vme_model.specs.Plan.{Plan};
ghost use Rattle.vme_bus.specs.declared.states.BusState.{BusState as BusStateValue};

use crate::records::CycleRecord;
use crate::sets::SlotSet;
use crate::states::BusState;

/// What the edges so far lead to, without what the plan and the version say.
///
/// Two states of one plan and one version that have it alike are of the same histories.
#[derive(Clone, Copy, PartialEq, Eq)]
pub struct BusKind {
    br: SlotSet,
    bbsy: SlotSet,
    addr: SlotSet,
    address_strobe: SlotSet,
    data_strobe: SlotSet,
    irq: SlotSet,
    dtack: SlotSet,
    grants: SlotSet,
    acknowledges: SlotSet,
    granted: SlotSet,
    acknowledged: SlotSet,
    served: SlotSet,
    strobed: SlotSet,
    controls: SlotSet,
    cycles: [u8; 22],
    shown: CycleRecord,
    addressing: u8,
    last_level: u8,
}

impl BusState {
    ghost use Rattle.vme_bus.specs.Kinds.{kind_of};
    ghost use Rattle.vme_bus.specs.States.{IsStateOf};

    /// What of it the answers to later edges may depend on.
    #[inline(always)]
    pub fn to_kind(&self) -> BusKind
        ensures { result ≡ kind_of self.now }
    {
        BusKind {
            br: self.br,
            bbsy: self.bbsy,
            addr: self.addr,
            address_strobe: self.address_strobe,
            data_strobe: self.data_strobe,
            irq: self.irq,
            dtack: self.dtack,
            grants: self.grants,
            acknowledges: self.acknowledges,
            granted: self.granted,
            acknowledged: self.acknowledged,
            served: self.served,
            strobed: self.strobed,
            controls: self.controls,
            cycles: self.cycles,
            shown: self.shown,
            addressing: self.addressing,
            last_level: self.last_level,
        }
    }

    /// Takes this in place of its own, and is then of the histories of its plan and version that
    /// lead to this.
    #[inline(always)]
    pub fn set_kind(&mut self, kind: &BusKind)
        ensures { (version : Version) (p : Plan) (h k : List Edge) (b : BusStateValue)
            → IsStateOf version p h self.old → IsStateOf version p k b → kind_of b ≡ kind.now
            → IsStateOf version p k self.new }
    {
        self.br = kind.br;
        self.bbsy = kind.bbsy;
        self.addr = kind.addr;
        self.address_strobe = kind.address_strobe;
        self.data_strobe = kind.data_strobe;
        self.irq = kind.irq;
        self.dtack = kind.dtack;
        self.grants = kind.grants;
        self.acknowledges = kind.acknowledges;
        self.granted = kind.granted;
        self.acknowledged = kind.acknowledged;
        self.served = kind.served;
        self.strobed = kind.strobed;
        self.controls = kind.controls;
        self.cycles = kind.cycles;
        self.shown = kind.shown;
        self.addressing = kind.addressing;
        self.last_level = kind.last_level;
    }
}
