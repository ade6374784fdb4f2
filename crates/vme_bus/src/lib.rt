//! The state of a bus without its history, as a plain record of numbers.
#![tactic(auto)]

mod answers;
mod arms;
mod buses;
mod choices;
mod conditions;
mod judging;
mod kinds;
mod layouts;
mod moves;
mod past;
mod records;
mod rules;
mod sets;
mod sights;
mod stands;
mod states;
mod steps;
mod turns;
mod verdicts;

pub use answers::AnswerRecord;
pub use buses::Bus;
pub use choices::Turns;
pub use kinds::BusKind;
pub use sets::SlotSet;
pub use stands::Grant;
pub use states::BusState;
