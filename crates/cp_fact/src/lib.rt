//! One shared object, kept as a list of facts and a list of parked callers.
#![tactic(auto)]

mod contents;
mod effect;
mod limits;
mod look;
mod plan;
mod pred;
mod waking;

pub use cp_call::Refused;
pub use pred::Pred;
