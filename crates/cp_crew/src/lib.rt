//! A crew: the worker engines of a run, each on a thread of its own, in rounds until all stand parked.
#![tactic(auto)]

mod crew;
mod lend;
mod parked;
mod rounds;
mod run;
mod staff;

pub use crew::{CallerList, Crew, Shells};
pub use run::run_crew;
