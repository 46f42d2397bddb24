//! Backtracking, and balls on their way to a catch.
#![tactic(auto)]

mod backtracking;
mod catching;
mod gathering;
mod throwing;
mod undoing;
mod unifying;

pub use backtracking::back;
pub use throwing::throw_back;
