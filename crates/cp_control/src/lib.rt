//! What terms of the heap mean in the place of goals.
#![tactic(auto)]

mod control;
mod seen;

pub use control::Control;
pub use seen::Seen;
