//! Writes terms as text: in one pass over the cells, with a stack of what is still to be written behind them.
#![tactic(auto)]

mod frame;
mod names;
mod output;
mod place;
mod shape;
mod style;
mod write;
mod writer;

pub use write::{write_text, writeq_text};
