//! The words of the command line: which lists of words are commands, and what their options are.
#![tactic(auto)]

mod check;
mod command;
mod flag;
mod generated;
mod grammar;
mod number;
mod option;
mod positional;
mod reader;
mod sim;
mod text;
mod threads;

pub use command::{Command, Words, WordsError};
pub use grammar::command_of;
pub use threads::wants_threads;
