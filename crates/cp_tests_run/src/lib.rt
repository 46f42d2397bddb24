//! Tests of what runs goals: terms on the heap, unification, arithmetic, lists, builtins, what goals ask of the shared
//! objects, properties of terms, and the engine over a program without predicates. They stand in a crate of their own,
//! since a crate that has tests is proved twice.
#![tactic(auto)]

#[cfg(test)]
mod arith;
#[cfg(test)]
mod building;
#[cfg(test)]
mod builtins;
#[cfg(test)]
mod engine;
#[cfg(test)]
mod goals;
#[cfg(test)]
mod heap;
#[cfg(test)]
mod lists;
#[cfg(test)]
mod props;
#[cfg(test)]
mod requests;
#[cfg(test)]
mod unify;
