//! The program that the files of a program and the prelude make, or the first refusal in the files.
#![tactic(auto)]

mod active;
mod assembling;
mod imports;
mod index;
mod kinds;
mod linking;
mod mark_table;
mod marks;
mod modules;
mod objects;
mod places;
mod preds;
mod remote;
mod types;

pub use assembling::assemble;
pub use linking::{LinkError, ModuleParts, link};
pub use places::Places;
