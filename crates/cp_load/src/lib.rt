//! Loading: from files to a program that every engine may run.
#![tactic(auto)]

mod asserted;
mod assertions;
mod clauses;
mod completed;
mod error;
mod gathering;
mod known;
mod loading;
mod main_goal;
mod operators;
mod prelude;
mod step;
mod type_names;
mod type_order;
mod type_rows;
mod types;

pub use error::LoadError;
pub use loading::{Need, load};
