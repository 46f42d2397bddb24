//! Tests of what threads share: a value, the output port and the shared objects, each behind a turnstile. They stand in a
//! crate of their own, since a crate that has tests is proved twice.
#![tactic(auto)]

#[cfg(test)]
mod turn;
#[cfg(test)]
mod turn_hall;
#[cfg(test)]
mod turn_port;
