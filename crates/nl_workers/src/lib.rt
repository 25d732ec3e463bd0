//! The workers of a script: threads that take turns at one lock for its lines, beside a cleaner and a handler of callbacks.
#![tactic(auto)]

mod answers;
mod beside;
mod crew;
mod desk;
mod duty;
mod epoch;
mod gate;
mod kit;
mod outbox;
mod placing;
mod rounds;
pub mod rows;
mod station;
mod stop;
mod turn;
mod worker;

pub use answers::AnswerTable;
pub use desk::LineAnswer;
pub use gate::{Gate, GatePlace, NoGate};
pub use kit::DutyKit;
pub use rounds::run_rounds;
