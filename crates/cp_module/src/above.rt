ghost use Rattle.std.specs.Prelude.{◌≡◌, [], IfOk, OnOk, if◌then◌else◌};
ghost use Rattle.cp_declaration.specs.declared.indicator.Indicator.{Indicator};
ghost use Rattle.cp_module.specs.Causes.{same};
ghost use Rattle.cp_module.specs.Above.{known_in, known_or, with_clause, with_sharing};

use crate::known::Known;
use cp_term::Name;
use indexmap::IndexMap;
use std::alloc::{AllocError, Global};
use std::marker::Model;

/// The name of a predicate and its number of arguments.
#[derive(PartialEq, Eq, Hash, Drop)]
struct Key {
    name: Name,
    arity: u16,
}

/// What the clauses so far say of predicates. Contracts see its rows.
#[derive(Drop)]
pub(crate) struct Above {
    rows: IndexMap<Key, Known>,
}

impl Model for Above {
    ghost use Rattle.std.specs.Prelude.{List};
    ghost use Rattle.cp_module.specs.Above.{Row};
    ghost use Rattle.cp_module.specs.Rows.{rows_in};

    ghost Value = { List Row };

    ghost view = { rows_in };
}

impl Above {
    pub(crate) fn new(alloc: Global) -> Self
        ensures { result ≡ [] }
    {
        Above {
            rows: IndexMap::new(alloc),
        }
    }

    /// What is known of a predicate.
    pub(crate) fn find(&self, name: &Name, arity: u16) -> Result<Known, AllocError>
        ensures { IfOk result (λ known. known ≡ known_in self.now (record { name = name.now; arity = arity })) }
    {
        let key = Key {
            name: name.clone()?,
            arity,
        };
        Ok(known_or(self.rows.get(&key).copied()))
    }

    /// Makes this what is known of a predicate.
    fn put(&mut self, name: &Name, arity: u16, known: Known) -> Result<(), AllocError>
        ensures { OnOk result ((p : Indicator) → known_in self.new p ≡ (if same p (record { name = name.now; arity = arity }) then known else known_in self.old p)) }
    {
        let key = Key {
            name: name.clone()?,
            arity,
        };
        self.rows.insert(key, known)?;
        Ok(())
    }

    /// Counts one clause more of a predicate.
    pub(crate) fn add_clause(&mut self, name: &Name, arity: u16) -> Result<(), AllocError>
        ensures { OnOk result ((p : Indicator) → known_in self.new p ≡ (if same p (record { name = name.now; arity = arity }) then with_clause (known_in self.old p) else known_in self.old p)) }
    {
        let known = self.find(name, arity)?;
        let clauses = if known.clauses < 4096 {
            known.clauses + 1
        } else {
            known.clauses
        };
        self.put(
            name,
            arity,
            Known {
                clauses,
                shared: known.shared,
            },
        )
    }

    /// Notes that a predicate is declared to be shared.
    pub(crate) fn add_shared(&mut self, name: &Name, arity: u16) -> Result<(), AllocError>
        ensures { OnOk result ((p : Indicator) → known_in self.new p ≡ with_sharing (same p (record { name = name.now; arity = arity })) (known_in self.old p)) }
    {
        let known = self.find(name, arity)?;
        self.put(
            name,
            arity,
            Known {
                clauses: known.clauses,
                shared: true,
            },
        )
    }
}

/// Of a predicate that is not in the table nothing is known.
fn known_or(known: Option<Known>) -> Known
    ensures { result ≡ known_or known }
{
    match known {
        Some(known) => known,
        None => Known {
            clauses: 0,
            shared: false,
        },
    }
}
