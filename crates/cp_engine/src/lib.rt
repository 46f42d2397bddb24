//! The engine of a goal: the machine that walks the goal's tree.
#![tactic(auto)]

mod advance;
mod answering;
mod due;
mod engine;
mod functor;
mod moves;
mod started;
mod walks;

pub use engine::Engine;
