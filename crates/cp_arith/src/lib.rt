//! The values of arithmetic expressions on the heap.
#![tactic(auto)]

mod enter;
mod evaluation;
mod frame;
mod leave;
mod now;
mod stop;

pub use evaluation::{EvalError, eval};
