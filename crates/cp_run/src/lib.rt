//! A goal that is run: its goals in hand, its frames, and the moves of control and of clauses.
#![tactic(auto)]

mod clause_parts;
mod clauses;
mod frame;
mod gaining;
mod goal;
mod goals;
mod item;
mod moment;
mod next;
mod parts;
mod point;
mod program_clauses;
mod rows;
mod run;
mod run_control;
mod selection;
mod started;
mod throwing;
mod undo;

pub use clause_parts::ClauseParts;
pub use frame::Frame;
pub use goal::Goal;
pub use goals::Goals;
pub use item::Item;
pub use moment::Moment;
pub use next::Next;
pub use point::{Catchers, Point};
pub use run::Run;
pub use started::Started;
