//! The simulator: the engines of a run on one thread, one turn at a time, in the order of a list or of a seed.
#![tactic(auto)]

mod awake;
mod by_picks;
mod end;
mod laws;
mod picks;
mod seat;
mod seed;

pub use by_picks::simulate_on;
pub use end::{PickEnd, Picked, SimEnd, end_record};
pub use laws::{a_list_of_picks_has_one_outcome, a_seed_has_one_outcome, the_first_goal_is_taken};
pub use picks::drive_picks;
pub use seed::simulate;
