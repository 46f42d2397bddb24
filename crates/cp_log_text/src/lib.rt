//! The log of a run as text: what every shared object was asked and replied, what was written on the output port, and what
//! each engine did.
#![tactic(auto)]

mod call;
mod engine;
mod history;
mod item;
mod line;
mod log;
mod object;
mod outcome;
mod piece;
mod port;
mod remote;
mod reply;

pub use outcome::log_text;
