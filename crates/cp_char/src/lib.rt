//! The characters of a text by what they begin.
#![tactic(auto)]

mod characters;

pub use characters::{is_alphanumeric, is_layout, is_symbol};
