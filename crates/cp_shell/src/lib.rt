//! An engine's life: its shell asks what its goal asks, one event after another, and keeps what was answered.
#![tactic(auto)]

mod advance;
mod ask;
mod ask_goal;
mod copy;
mod driven;
mod due;
mod end_goal;
mod event;
mod look;
mod no_dialer;
mod put_goal;
mod remote_goal;
mod shell;
mod stage;
mod turn;
mod whole_turn;

pub use ask::ItemRoom;
pub use driven::Driven;
pub use no_dialer::NoDialer;
pub use shell::Shell;
pub use stage::Stage;
pub use turn::Turn;
pub use whole_turn::make_turn;
