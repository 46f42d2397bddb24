//! One shared object, whose facts are found by place and by key, and whose parked callers are found by key.
#![tactic(auto)]

mod contents;
mod effect;
mod limits;
mod look;
mod numbers;
mod plan;
mod pred;
mod waiter;
mod waiting;
mod waking;

pub use cp_call::Refused;
pub use pred::Pred;
