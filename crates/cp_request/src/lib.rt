//! What goals ask of the shared objects, made from terms of the heap.
#![tactic(auto)]

mod asking;
mod bodies;
mod engines;
mod error_kind;
mod fact_goal;
mod facts;
mod follows;
mod kinds;
mod looks;
mod manner;
mod parts;
mod post;
mod refusal;
mod remote;
mod seen_goal;

pub use asking::Asking;
pub use bodies::is_body;
pub use engines::{post_goal, posted, wait_goal};
pub use error_kind::ErrorKind;
pub use fact_goal::FactGoal;
pub use facts::{fact_asking, pred_asking};
pub use follows::Follows;
pub use kinds::{
    domain_error_of, existence_error, full_error, instantiation_error_of, pred_indicator,
    resource_error_of, system_error, type_error_of,
};
pub use looks::{has_name, is_atom, is_qualified, is_unbound, qualified};
pub use manner::Manner;
pub use post::PostGoal;
pub use refusal::Refusal;
pub use remote::{RemoteAnswer, RemoteError, RemoteFollows};
pub use seen_goal::SeenGoal;
