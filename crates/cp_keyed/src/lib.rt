//! Rows that are kept by number and found by key.
#![tactic(auto)]

mod index;
mod keyed;
mod maps;
mod search;

pub use index::Index;
pub use keyed::{Keyed, Spot};
