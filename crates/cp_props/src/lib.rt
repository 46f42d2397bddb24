//! Properties of terms on the heap, and the tests that assertions demand.
#![tactic(auto)]

mod asserted;
mod attempt;
mod body;
mod broken;
mod check;
mod clause;
mod demand;
mod formula;
mod goal;
mod language;
mod looks;
mod pattern;
mod place;
mod property;
mod search;
mod stack;
mod tested;

pub use asserted::checks_of;
pub use broken::{broken_call, broken_exit, held};
pub use check::{Check, Checks, copy_checks};
pub use formula::holds;
pub use property::has;
pub use tested::Tested;
