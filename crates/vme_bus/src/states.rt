//! What the edges so far lead to, as numbers.
ghost use Rattle.std.specs.Prelude.{[]};

use crate::layouts::Layout;
use crate::records::{CycleRecord, NO_SLOT, number_of_kind, number_of_version};
use crate::sets::SlotSet;
use vme_model::Version;
use vme_slots::Plan;

/// Where BCLR* stands among the controller's lines.
pub(crate) const BUS_CLEAR: u8 = 0;

/// Where BERR* stands among them.
pub(crate) const BUS_ERROR: u8 = 1;

/// What the edges so far lead to: of each wire the set of the slots that drive it low, of each
/// kind of chain the set of the slots whose input is low, and a few numbers.
///
/// It holds no history and no memory but its own, so that it may be copied and kept; and it holds
/// numbers alone, so that a program in C may keep it too.
#[repr(C)]
#[derive(Clone, Copy)]
pub struct BusState {
    pub(crate) layout: Layout,
    pub(crate) br: SlotSet,
    pub(crate) bbsy: SlotSet,
    pub(crate) addr: SlotSet,
    pub(crate) address_strobe: SlotSet,
    pub(crate) data_strobe: SlotSet,
    pub(crate) irq: SlotSet,
    pub(crate) dtack: SlotSet,
    // the low segments of the grant chains: the boards' outputs, and the controller's behind them
    pub(crate) grants: SlotSet,
    // those of the acknowledge chain
    pub(crate) acknowledges: SlotSet,
    // the boards whose grant chain's input is low
    pub(crate) granted: SlotSet,
    // those whose acknowledge chain's is
    pub(crate) acknowledged: SlotSet,
    // the boards whose interrupt request was served
    pub(crate) served: SlotSet,
    // the boards whose cycle had its data strobe
    pub(crate) strobed: SlotSet,
    // the controller's lines that are low, at `BUS_CLEAR` and `BUS_ERROR`
    pub(crate) controls: SlotSet,
    // the cycles of each board's tenure, as far as they count
    pub(crate) cycles: [u8; 22],
    pub(crate) shown: CycleRecord,
    // the slot whose address group is on
    pub(crate) addressing: u8,
    // the level last granted
    pub(crate) last_level: u8,
    // the arbiter's policy
    pub(crate) kind: u8,
    pub(crate) version: u8,
}

impl BusState {
    ghost use Rattle.vme_bus.specs.States.{IsStateOf};

    /// The bus of a plan at power-up, before any edge.
    pub fn new(plan: &Plan, version: Version) -> BusState
        ensures { IsStateOf version plan.now [] result }
    {
        plan.accepted();
        BusState {
            layout: Layout::new(plan),
            br: SlotSet::NONE,
            bbsy: SlotSet::NONE,
            addr: SlotSet::NONE,
            address_strobe: SlotSet::NONE,
            data_strobe: SlotSet::NONE,
            irq: SlotSet::NONE,
            dtack: SlotSet::NONE,
            grants: SlotSet::NONE,
            acknowledges: SlotSet::NONE,
            granted: SlotSet::NONE,
            acknowledged: SlotSet::NONE,
            served: SlotSet::NONE,
            strobed: SlotSet::NONE,
            controls: SlotSet::NONE,
            cycles: [0; 22],
            shown: CycleRecord::of(None),
            addressing: NO_SLOT,
            last_level: 0,
            kind: number_of_kind(plan.arbiter()),
            version: number_of_version(version),
        }
    }
}
