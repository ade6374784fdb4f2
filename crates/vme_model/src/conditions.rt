//! The conditions that make up the guards of the rules.
ghost use Rattle.std.specs.Prelude.{◌≡◌, ◌≤◌, length, IfSome, option_map};
ghost use Rattle.vme_model.specs.Guards.{fixed_text, own_text};

/// One condition of a guard, named by what it asks for just before an edge.
///
/// A wire or a line is low or high; the address group is on or off. Source: profile (the names).
#[derive(Clone, Copy, PartialEq, Eq, Debug, Default)]
pub enum Condition {
    /// All four grants of the controller are high.
    #[default]
    GrantsHigh,
    /// The arbiter's policy picks the level of the grant from the requested levels.
    Picked,
    /// The arbiter's policy is priority.
    ArbiterIsPri,
    /// A bus request above the level last granted is low.
    HigherAsked,
    /// Bus clear is not due: one of the conditions of a falling bus clear fails.
    ClearNotDue,
    /// BBSY* is high.
    BusyHigh,
    /// BBSY* is low.
    BusyLow,
    /// AS* is high.
    AddressStrobeHigh,
    /// AS* is low.
    AddressStrobeLow,
    /// DS0* is high.
    DataStrobeHigh,
    /// DS0* is low.
    DataStrobeLow,
    /// DTACK* is high.
    DtackHigh,
    /// BERR* is high.
    BerrHigh,
    /// DTACK* or BERR* is low.
    Answered,
    /// The address lines show an acknowledge, of any level.
    AcknowledgeShown,
    /// The address lines show an acknowledge or an access.
    CycleShown,
    /// The address lines show an access to the board's own slot.
    OwnSlotShown,
    /// The input of the board's grant chain is high.
    GrantInHigh,
    /// The input of the board's grant chain is low.
    GrantInLow,
    /// The input of the acknowledge chain is low at the board.
    AcknowledgeInLow,
    /// The board's bus request is high.
    OwnRequestHigh,
    /// The board's bus request is low.
    OwnRequestLow,
    /// The board's bus grant out is high.
    OwnGrantOutHigh,
    /// The board's bus busy is high.
    OwnBusyHigh,
    /// The board's bus busy is low.
    OwnBusyLow,
    /// The board's address group is on.
    OwnAddressOn,
    /// The board's address group is off.
    OwnAddressOff,
    /// The board's address group is off, or its address strobe low.
    AddressFree,
    /// The board's address strobe is low.
    OwnAddressStrobeLow,
    /// The board's data strobe is high.
    OwnDataStrobeHigh,
    /// The board's acknowledge out is high.
    OwnAcknowledgeOutHigh,
    /// The board's data transfer acknowledge is high.
    OwnDtackHigh,
    /// One of BR0* to BR3* is low.
    Asked,
    /// The board has begun fewer cycles in this tenure than its burst.
    WithinBurst,
    /// The board handles the level of the acknowledge that it is about to show.
    Handled,
    /// The interrupt request line of the acknowledge's level is low.
    InterruptLow,
    /// The board's data strobe has fallen in this cycle.
    Strobed,
    /// The board's data strobe has not fallen in this cycle.
    NotStrobed,
    /// The board's interrupt request was served in its own way: ROAK by an acknowledge, RORA by a
    /// register access.
    Served,
    /// The board's interrupter is pending at the level that is shown.
    Pending,
    /// The board's interrupter is not pending at the level that is shown.
    NotPending,
    /// Every segment of the acknowledge chain is high.
    ChainHigh,
    /// No board can answer what is shown: the acknowledge has passed the last board, or the
    /// accessed slot is empty.
    NobodyCanAnswer,
    /// Every board that works the grant's chain has passed the grant on.
    PassedTheLastBoard,
    /// Every board's bus grant out is high.
    GrantsThrough,
    /// The edge is well formed, and the plan has the board and the part that drives its wire.
    HasDriver,
    /// The wire is in the state that the edge leaves: high before a fall, low before a rise.
    OtherState,
    /// The trace can hold one more edge.
    HasRoom,
}

/// A condition of a guard, and whether it holds just before an edge. Source: profile.
#[derive(Clone, Copy, PartialEq, Eq, Debug, Default)]
pub struct Tested {
    /// The condition.
    pub condition: Condition,
    /// Whether it holds.
    pub holds: bool,
}

impl Condition {
    /// The condition's text, or none if the text depends on the edge, its board or what is shown.
    /// docs/COMMANDS.md lists the texts.
    pub(crate) fn fixed_text(self) -> Option<&'static str>
        ensures text { option_map (λ text. text.now) result ≡ fixed_text self }
        ensures short { IfSome result (λ text. length text.now ≤ 48) }
    {
        let text = match self {
            Condition::GrantsHigh => "all four grants are high",
            Condition::ArbiterIsPri => "the arbiter is PRI",
            Condition::HigherAsked => "a request above the level last granted is low",
            Condition::ClearNotDue => "bus clear is not due",
            Condition::BusyHigh => "BBSY* is high",
            Condition::BusyLow => "BBSY* is low",
            Condition::AddressStrobeHigh => "AS* is high",
            Condition::AddressStrobeLow => "AS* is low",
            Condition::DataStrobeHigh => "DS0* is high",
            Condition::DataStrobeLow => "DS0* is low",
            Condition::DtackHigh => "DTACK* is high",
            Condition::BerrHigh => "BERR* is high",
            Condition::Answered => "DTACK* or BERR* is low",
            Condition::AcknowledgeShown => "an acknowledge is shown",
            Condition::CycleShown => "a cycle is shown",
            Condition::OwnSlotShown => "the own slot is shown",
            Condition::Asked => "some BR line is low",
            Condition::WithinBurst => "fewer cycles than the burst",
            Condition::ChainHigh => "iack and every iackout are high",
            Condition::NobodyCanAnswer => "nobody can answer",
            Condition::PassedTheLastBoard => "the grant has passed the last board",
            Condition::GrantsThrough => "every bgout is high",
            Condition::HasRoom => "the trace has room",
            _ => return self.own_text(),
        };
        Some(text)
    }

    /// The text of a condition on the board's own wires; none for any other condition.
    fn own_text(self) -> Option<&'static str>
        ensures text { option_map (λ text. text.now) result ≡ own_text self }
        ensures short { IfSome result (λ text. length text.now ≤ 48) }
    {
        let text = match self {
            Condition::GrantInHigh => "own grant-in is high",
            Condition::GrantInLow => "own grant-in is low",
            Condition::AcknowledgeInLow => "own iackin is low",
            Condition::OwnRequestHigh => "own br is high",
            Condition::OwnRequestLow => "own br is low",
            Condition::OwnGrantOutHigh => "own bgout is high",
            Condition::OwnBusyHigh => "own bbsy is high",
            Condition::OwnBusyLow => "own bbsy is low",
            Condition::OwnAddressOn => "own addr is on",
            Condition::OwnAddressOff => "own addr is off",
            Condition::AddressFree => "own addr is off or own as is low",
            Condition::OwnAddressStrobeLow => "own as is low",
            Condition::OwnDataStrobeHigh => "own ds is high",
            Condition::OwnAcknowledgeOutHigh => "own iackout is high",
            Condition::OwnDtackHigh => "own dtack is high",
            Condition::Strobed => "an own ds- in this cycle",
            Condition::NotStrobed => "no own ds- in this cycle",
            _ => return None,
        };
        Some(text)
    }
}
