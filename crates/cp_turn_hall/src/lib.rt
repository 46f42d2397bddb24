//! The shared objects of a run, each behind a turnstile of its own.
#![tactic(auto)]

mod closing;
mod grown;
mod hall;
mod opening;
mod pass;
mod seat;
mod turn;

pub use grown::GrownRow;
pub use hall::TurnHall;
pub use opening::turn_hall;
pub use pass::{HallPass, HallPasses, ObjectPass};
pub use seat::HallSeat;
