//! Goals that are made at run time: `call`, `catch`, `throw` and `findall`.
#![tactic(auto)]

mod calling;
mod entering;
mod extended;
mod finding;
mod raising;

pub use calling::{run_call, run_catch, run_throw};
pub use entering::enter;
pub use finding::{run_copy, run_find_all};
