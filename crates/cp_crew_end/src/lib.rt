//! The end of a crew: that it is sound.
#![tactic(auto)]

mod laws;

pub use laws::{crews_go_on, resting_crews_are_sound};
