//! Programs, and what their goals do.
#![tactic(auto)]

mod assertion;
mod by_tree;
mod clause;
mod import;
mod kind;
mod laws;
mod peer;
mod pred_info;
mod pred_kind;
mod program;
mod prop;
mod status;
mod type_row;

pub use assertion::{Assertion, Assertions};
pub use by_tree::{ByTree, ProgramCode};
pub use clause::{Clause, Clauses};
pub use import::{Import, Imports};
pub use kind::Kind;
pub use laws::{
    a_tree_is_its_row, candidates_are_enough, done_is_failure, ends_are_named, goals_ask_in_form,
    instrumenting_keeps_what_is_asked, more_units_change_nothing, properties_are_the_least,
    the_machine_asks_as_the_tree, the_machine_comes_to_an_answer, the_machine_keeps_its_meaning,
};
pub use peer::{Peer, Peers};
pub use pred_info::{GoalMarks, PredInfo, PredNames, Preds};
pub use pred_kind::PredKind;
pub use program::{Names, OpTables, Program};
pub use prop::Prop;
pub use status::Status;
pub use type_row::{TypeRow, Types};
