//! Calls of predicates, and their exits.
#![tactic(auto)]

mod calling;
mod check_ball;
mod exits;
mod giving;
mod qualifying;
mod remote;
mod rules;

pub use calling::run_pred;
pub use exits::run_exit;
pub use giving::give;
