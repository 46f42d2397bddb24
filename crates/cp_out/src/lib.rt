//! The output port: it puts the engines' pieces on a sink, one after another, and keeps an entry for each.
#![tactic(auto)]

mod port;

pub use port::Port;
