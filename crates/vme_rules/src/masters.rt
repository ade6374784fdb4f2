//! The guards of a master's wires, G15 to G20.
ghost use Rattle.std.specs.Prelude.{Bool, not};
ghost use Rattle.vme_model.specs.declared.conditions.Condition.TheVariants.{OwnBusyLow, AddressStrobeHigh};
ghost use Rattle.vme_model.specs.Guards.{Guard, asks, ◌⊓◌};
ghost use Rattle.vme_model.specs.Sets.{has_level};
ghost use Rattle.vme_model.specs.Rules.{below_burst, shows, addr_goes_on, as_falls, ds_falls, ds_rises, addr_goes_off, as_rises};

use crate::outcomes::Outcome;
use vme_model::{Condition, Cycle, Levels, Release};

/// Part of G15: an RWD requester's master began fewer cycles in this tenure than its burst; ROR has
/// no bound. Source: profile.
pub fn below_burst<A: Outcome>(cycles: u8, release: Release) -> A
    ensures { A.reports result (below_burst cycles release) }
{
    match release {
        Release::Done { burst } => A::asks(Condition::WithinBurst, cycles < burst),
        Release::Request => A::free(),
    }
}

/// Part of G15: an acknowledge is of a level that the board handles and that is requested; an
/// access is always allowed. Source: Std 1014, chapter 4, for the handler; the requested level is
/// profile.
pub fn shows<A: Outcome>(handler: Levels, irq: Levels, value: Option<Cycle>) -> A
    ensures { A.reports result (shows (has_level handler) (has_level irq) value) }
{
    match value {
        Some(Cycle::Acknowledge(level)) => A::asks(Condition::Handled, handler.has(level)).and(
            A::asks(Condition::InterruptLow, irq.has(level)),
        ),
        _ => A::free(),
    }
}

/// Part of G15: the board holds the bus, and AS* is high, so the last cycle has ended. Source: Std
/// 1014, chapter 2.
pub fn addr_is_free<A: Outcome>(bbsy: bool, address_strobe: bool) -> A
    ensures { A.reports result
        (asks OwnBusyLow bbsy ⊓ asks AddressStrobeHigh (not address_strobe)) }
{
    A::asks(Condition::OwnBusyLow, bbsy).and(A::asks(Condition::AddressStrobeHigh, !address_strobe))
}

/// G15, the address group goes on: `free`, `bursting` and `showing` hold. Source: Std 1014,
/// chapters 2 and 4; the burst and the requested level are profile.
pub fn addr_goes_on<A: Outcome>(free: A, bursting: A, showing: A) -> A
    ensures { (bbsy address_strobe : Bool) (g k : Guard)
        → A.reports free (asks OwnBusyLow bbsy ⊓ asks AddressStrobeHigh (not address_strobe))
        → A.reports bursting g → A.reports showing k
        → A.reports result (addr_goes_on bbsy address_strobe g k) }
{
    free.and(bursting).and(showing)
}

/// G16, the address strobe falls: the board's address group is on, and AS* is high. S1 is tested
/// afterwards. Source: Std 1014, chapter 2.
pub fn as_falls<A: Outcome>(addr: bool, address_strobe: bool) -> A
    ensures { A.reports result (as_falls addr address_strobe) }
{
    A::asks(Condition::OwnAddressOn, addr).and(A::asks(
        Condition::AddressStrobeHigh,
        !address_strobe,
    ))
}

/// G17, the data strobe falls: the board's address strobe is low and its address group is on,
/// DTACK* and BERR* are high, and the strobe has not fallen in this cycle. Source: Std 1014,
/// chapter 2; one strobe a cycle is profile.
pub fn ds_falls<A: Outcome>(
    own_strobe: bool,
    addr: bool,
    dtack: bool,
    berr: bool,
    has_strobed: bool,
) -> A
    ensures { A.reports result (ds_falls own_strobe addr dtack berr has_strobed) }
{
    A::asks(Condition::OwnAddressStrobeLow, own_strobe)
        .and(A::asks(Condition::OwnAddressOn, addr))
        .and(A::asks(Condition::DtackHigh, !dtack))
        .and(A::asks(Condition::BerrHigh, !berr))
        .and(A::asks(Condition::NotStrobed, !has_strobed))
}

/// G18, the data strobe rises: DTACK* or BERR* is low. Source: Std 1014, chapter 2.
pub fn ds_rises<A: Outcome>(dtack: bool, berr: bool) -> A
    ensures { A.reports result (ds_rises dtack berr) }
{
    A::asks(Condition::Answered, dtack || berr)
}

/// G19, the address group goes off: the board's address strobe is low, its data strobe is high, and
/// the data strobe has fallen in this cycle. Source: profile.
pub fn addr_goes_off<A: Outcome>(own_strobe: bool, own_data_strobe: bool, has_strobed: bool) -> A
    ensures { A.reports result (addr_goes_off own_strobe own_data_strobe has_strobed) }
{
    A::asks(Condition::OwnAddressStrobeLow, own_strobe)
        .and(A::asks(Condition::OwnDataStrobeHigh, !own_data_strobe))
        .and(A::asks(Condition::Strobed, has_strobed))
}

/// G20, the address strobe rises: the board's address group is off. Source: profile.
pub fn as_rises<A: Outcome>(addr: bool) -> A
    ensures { A.reports result (as_rises addr) }
{
    A::asks(Condition::OwnAddressOff, !addr)
}
