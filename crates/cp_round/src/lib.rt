//! A round of a crew: its workers in threads, each until it stands parked and no other is at work.
#![tactic(auto)]

mod bells;
mod ringing;
mod round;
mod worker;

pub use bells::Bells;
pub use ringing::Ringing;
pub use round::run_round;
pub use worker::Worker;
