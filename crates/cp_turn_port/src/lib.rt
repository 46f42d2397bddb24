//! The output port behind a turnstile: each caller has a seat, which writes in turns for the caller's own number.
#![tactic(auto)]

mod seat;
mod setup;
mod turned_port;
mod turnstile;

pub use seat::PortSeat;
pub use setup::turn_port;
pub use turned_port::TurnedPort;
pub use turnstile::{PortPass, PortPasses, TurnPort};
