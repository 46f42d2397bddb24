//! The builtin goals on the heap.
#![tactic(auto)]

mod argument;
mod atom_codes;
mod atom_length;
mod ball;
mod call;
mod compound;
mod copy;
mod ended;
mod errors;
mod evaluate;
mod functor;
mod name_text;
mod number_codes;
mod order;
mod outcome;
mod parts;
mod text_errors;
mod type_tests;
mod unified;
mod univ;

pub use ball::{context_of, error_ball};
pub use call::call_builtin;
pub use compound::{atom, with_one, with_two};
pub use outcome::Outcome1;
