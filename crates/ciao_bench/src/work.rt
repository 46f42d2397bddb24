use crate::append::append;
use crate::export::export;
use crate::facts::{facts_indexed, facts_listed, waiters_indexed, waiters_listed};
use crate::nested::nested;
use crate::operators::operators;
use crate::read::read;
use crate::tokens::tokens;
use crate::undo::undo;
use crate::unify::unify;
use crate::write::write;
use std::alloc::{AllocError, Global};

/// A piece of work.
#[derive(Clone, Copy)]
pub(crate) enum Work {
    Append,
    Export,
    Facts,
    FactsListed,
    Nested,
    Operators,
    Read,
    Tokens,
    Undo,
    Unify,
    Waiters,
    WaitersListed,
    Write,
}

/// The names of all pieces of work.
pub(crate) const NAMES: &str =
    "append, export, facts, facts_listed, nested, operators, read, tokens, undo, unify, waiters, waiters_listed or write";

impl Work {
    /// The piece of work with this name.
    pub(crate) fn named(name: &str) -> Option<Work> {
        if name == "append" {
            Some(Work::Append)
        } else if name == "export" {
            Some(Work::Export)
        } else if name == "facts" {
            Some(Work::Facts)
        } else if name == "facts_listed" {
            Some(Work::FactsListed)
        } else if name == "nested" {
            Some(Work::Nested)
        } else if name == "operators" {
            Some(Work::Operators)
        } else if name == "read" {
            Some(Work::Read)
        } else if name == "tokens" {
            Some(Work::Tokens)
        } else if name == "undo" {
            Some(Work::Undo)
        } else if name == "unify" {
            Some(Work::Unify)
        } else if name == "waiters" {
            Some(Work::Waiters)
        } else if name == "waiters_listed" {
            Some(Work::WaitersListed)
        } else if name == "write" {
            Some(Work::Write)
        } else {
            None
        }
    }

    pub(crate) fn name(self) -> &'static str {
        match self {
            Work::Append => "append",
            Work::Export => "export",
            Work::Facts => "facts",
            Work::FactsListed => "facts_listed",
            Work::Nested => "nested",
            Work::Operators => "operators",
            Work::Read => "read",
            Work::Tokens => "tokens",
            Work::Undo => "undo",
            Work::Unify => "unify",
            Work::Waiters => "waiters",
            Work::WaitersListed => "waiters_listed",
            Work::Write => "write",
        }
    }

    /// Does the work so many times, and answers a number that depends on all of them.
    pub(crate) fn done(self, alloc: Global, count: u32) -> Result<u64, AllocError> {
        match self {
            Work::Append => append(alloc, count),
            Work::Export => export(alloc, count),
            Work::Facts => facts_indexed(alloc, count),
            Work::FactsListed => facts_listed(alloc, count),
            Work::Nested => nested(alloc, count),
            Work::Operators => operators(alloc, count),
            Work::Read => read(alloc, count),
            Work::Tokens => tokens(alloc, count),
            Work::Undo => undo(alloc, count),
            Work::Unify => unify(alloc, count),
            Work::Waiters => waiters_indexed(alloc, count),
            Work::WaitersListed => waiters_listed(alloc, count),
            Work::Write => write(alloc, count),
        }
    }
}
