//! The goals of the language that are no control, on a run.
#![tactic(auto)]

mod arguments;
mod ask;
mod language_goal;
mod on_terms;
mod output;
mod property;
mod questions;
mod running;
mod style;

pub use arguments::arguments_of;
pub use ask::ask_or_raise;
pub use language_goal::LanguageGoal;
pub use running::run_builtin;
pub use style::Style;
