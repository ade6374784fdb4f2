//! The code of each fault, which `vmebus rule CODE` explains.
ghost use Rattle.std.specs.Prelude.{◌≡◌};
ghost use Rattle.vme_program.specs.FaultCodes as said;

use crate::arguments::WordsFault;
use crate::faults::ProgramFault;
use vme_captures::CaptureFault;
use vme_model::PlanError;
use vme_moments::MomentsFault;
use vme_order::OrderingFault;
use vme_probe::ProbeFault;
use vme_reading::EngineFault;
use vme_rulebook::Code;
use vme_run::RunFault;
use vme_scenario::ScenarioError;
use vme_trace::Fault;

/// The code of a fault of a backplane.
fn code_of_plan(fault: PlanError) -> Code
    ensures { result ≡ said.code_of_plan fault }
{
    match fault {
        PlanError::NoController => Code::P1,
        PlanError::TooManySlots { .. } => Code::P2,
        PlanError::SlotTwice { .. } => Code::P3,
        PlanError::ChainBroken { .. } => Code::P4,
        PlanError::LevelNotServed { .. } => Code::P5,
        PlanError::HandlerTwice { .. } => Code::P6,
        PlanError::HandlerWithoutRequester { .. } => Code::P7,
        PlanError::OutOfRange { .. } => Code::P8,
        PlanError::Memory => Code::P9,
    }
}

/// The code of a fault of a scenario.
fn code_of_scenario(fault: &ScenarioError) -> Code
    ensures { result ≡ said.code_of_scenario fault.now }
{
    match fault {
        ScenarioError::NotToml => Code::Q1,
        ScenarioError::UnknownKey { .. } => Code::Q2,
        ScenarioError::Missing { .. } => Code::Q3,
        ScenarioError::BadValue { .. } => Code::Q4,
        ScenarioError::Plan(fault) => code_of_plan(*fault),
        ScenarioError::Memory => Code::Q6,
    }
}

/// The code of a fault of a trace or of the output. X7 is none: no reader is used after its end.
fn code_of_trace(fault: Fault) -> Option<Code>
    ensures { result ≡ said.code_of_trace fault }
{
    match fault {
        Fault::Header => Some(Code::X1),
        Fault::Line { .. } => Some(Code::X2),
        Fault::TooLong { .. } => Some(Code::X3),
        Fault::CutOff => Some(Code::X4),
        Fault::Read => Some(Code::X5),
        Fault::Memory => Some(Code::X6),
        Fault::Failed => None,
        Fault::Write => Some(Code::X8),
    }
}

/// The code of a fault of an engine.
fn code_of_engine(fault: &EngineFault) -> Option<Code>
    ensures { result ≡ said.code_of_engine fault.now }
{
    match fault {
        EngineFault::Scenario(fault) => Some(code_of_scenario(fault)),
        EngineFault::Trace(fault) => code_of_trace(*fault),
        EngineFault::CannotRead => Some(Code::F1),
        EngineFault::TooLong => Some(Code::F2),
        EngineFault::NoMemory => Some(Code::F3),
        EngineFault::Beyond(_) => Some(Code::X9),
    }
}

/// The code of a fault of moments.
fn code_of_moments(fault: MomentsFault) -> Option<Code>
    ensures { result ≡ said.code_of_moments fault }
{
    match fault {
        MomentsFault::Trace(fault) => code_of_trace(fault),
        MomentsFault::Earlier { .. } => Some(Code::X10),
        MomentsFault::Momentless { .. } => Some(Code::X17),
        MomentsFault::TooMany => Some(Code::F6),
    }
}

/// The code of a fault of `order`. A slack of a slot that has no board is a usage error.
fn code_of_order(fault: &OrderingFault) -> Option<Code>
    ensures { result ≡ said.code_of_order fault.now }
{
    match fault {
        OrderingFault::Engine(fault) => code_of_engine(fault),
        OrderingFault::Moments(fault) => code_of_moments(*fault),
        OrderingFault::NoBoard(_) => None,
        OrderingFault::TooManyOrders => Some(Code::F5),
    }
}

/// The code of a fault of a capture.
fn code_of_capture(fault: CaptureFault) -> Option<Code>
    ensures { result ≡ said.code_of_capture fault }
{
    match fault {
        CaptureFault::Trace(fault) => code_of_trace(fault),
        CaptureFault::Earlier { .. } => Some(Code::X10),
        CaptureFault::NoPin { .. } => Some(Code::X12),
        CaptureFault::SameWire { .. } => Some(Code::X13),
        CaptureFault::NotProbed { .. } => Some(Code::X14),
        CaptureFault::NoChange { .. } => Some(Code::X15),
        CaptureFault::NoLine { .. } => Some(Code::X16),
    }
}

/// The code of a fault of `probe`.
fn code_of_probe(fault: &ProbeFault) -> Option<Code>
    ensures { result ≡ said.code_of_probe fault.now }
{
    match fault {
        ProbeFault::Engine(fault) => code_of_engine(fault),
        ProbeFault::Capture(fault) => code_of_capture(*fault),
        ProbeFault::TooManyOrders => Some(Code::F5),
    }
}

/// The code of a fault of `run`.
fn code_of_run(fault: &RunFault) -> Option<Code>
    ensures { result ≡ said.code_of_run fault.now }
{
    match fault {
        RunFault::Engine(fault) => code_of_engine(fault),
        RunFault::NotStarted => Some(Code::L3),
        RunFault::LogDiffers { .. } => Some(Code::L4),
        RunFault::NotReplayed { .. } => Some(Code::L6),
    }
}

impl ProgramFault<'_> {
    /// The code with which the text of the fault begins; none if it begins with no code.
    pub fn code(&self) -> Option<Code>
        ensures { result ≡ said.code_of self.now }
    {
        match self {
            ProgramFault::CannotRead(_) => Some(Code::F1),
            ProgramFault::TooLong(_) => Some(Code::F2),
            ProgramFault::Engine(fault) => code_of_engine(fault),
            ProgramFault::InTrace { fault, .. } => code_of_trace(*fault),
            ProgramFault::NoRace(_) => Some(Code::X11),
            ProgramFault::Boards(fault) => code_of_run(fault),
            ProgramFault::Ordering(fault) => code_of_order(fault),
            ProgramFault::Probing(fault) => code_of_probe(fault),
            ProgramFault::SomeTraces | ProgramFault::NeverComes(_) => None,
        }
    }
}

impl WordsFault {
    /// The code with which the text of the fault begins.
    pub fn code(&self) -> Code
        ensures { result ≡ said.code_of_words self.now }
    {
        match self {
            WordsFault::NotText(_) => Code::F4,
            WordsFault::NoMemory => Code::F3,
        }
    }
}
