//! Tests of what engines share and of a run: copies of calls and replies, one shared object, the hall of all of them, the
//! output port, counted attempts at unification, rows found by key, and a loaded program under a list of picks. They stand
//! in a crate of their own, since a crate that has tests is proved twice.
#![tactic(auto)]

#[cfg(test)]
mod building;
#[cfg(test)]
mod calls;
#[cfg(test)]
mod counted;
#[cfg(test)]
mod facts;
#[cfg(test)]
mod hall;
#[cfg(test)]
mod keyed;
#[cfg(test)]
mod out;
#[cfg(test)]
mod schedule;
