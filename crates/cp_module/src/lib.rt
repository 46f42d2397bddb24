//! One file of a program: its text as clauses, and what is refused in it.
#![tactic(auto)]

mod above;
mod cause;
mod clause;
mod goals;
mod header;
mod judge;
mod judged;
mod known;
mod module;
mod noted;
mod operators;
mod part;
mod paths;
mod preds;
mod refusal;
mod text;
mod to_come;
mod why;
mod words;

pub use cause::{Cause, soonest};
pub use module::{Loaded, module_of};
pub use part::{ModulePart, ReadClauses};
pub use paths::{base_of, imported_file};
pub use refusal::Refusal;
pub use why::Why;
