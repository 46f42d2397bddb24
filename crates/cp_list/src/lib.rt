//! Growable lists with at most `u32::MAX` items: one that contracts see as the list of its items, and one with room
//! that is taken ahead.
#![tactic(auto)]

mod list_of;
mod reserved_list;

pub use list_of::ListOf;
pub use reserved_list::ReservedList;
