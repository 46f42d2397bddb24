//! What a run is told, and what it asks.
#![tactic(auto)]

mod drops;
mod inputs;
mod questions;
mod replies;

pub use inputs::tell;
pub use questions::ready;
