//! A loaded program, run by the simulator: its shared objects as they begin, and its engines under the schedule of a seed.
#![tactic(auto)]

mod fact;
mod hall;
mod laws;
mod main_goal;
mod run;

pub use hall::plain_hall;
pub use laws::{a_seed_has_one_outcome, simulated_runs_are_sound, the_main_goal_is_taken};
pub use run::{simulate, simulate_on};
