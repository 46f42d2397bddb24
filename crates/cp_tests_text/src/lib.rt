//! Tests of what texts and terms are made of: lists, the outside, characters, names, terms, tokens, operators, writing and
//! reading. They stand in a crate of their own, since a crate that has tests is proved twice.
#![tactic(auto)]

#[cfg(test)]
mod building;
#[cfg(test)]
mod characters;
#[cfg(test)]
mod io;
#[cfg(test)]
mod lexing;
#[cfg(test)]
mod lists;
#[cfg(test)]
mod names;
#[cfg(test)]
mod operators;
#[cfg(test)]
mod reading;
#[cfg(test)]
mod terms;
#[cfg(test)]
mod writing;
