//! Unification with the occurs check, and the standard order, on terms of a heap.
#![tactic(auto)]

mod binding;
mod comparison;
mod horizon;
mod order;
mod pair;
mod unification;
mod words;

pub use comparison::compare;
pub use unification::{unify, unify_since};
