ghost use Rattle.std.specs.Prelude.{◌≡◌, ◌+◌, ◌^◌, ◌<◌, [], map, length, slice_get, IfOk, Some};
ghost use Rattle.std.specs.Option.{option_copied, option_map};
ghost use Rattle.cp_code.specs.declared.clause.Clause.{Clause as ClauseOf};
ghost use Rattle.cp_code.specs.Programs.{type_of};
ghost use Rattle.cp_props.specs.Search.{clauses_at};

use crate::demand::{Demand, Demands};
use cp_code::{Clause, Clauses, Types};
use cp_heap::Ref;
use cp_list::ListOf;
use std::alloc::{AllocError, Global};

/// An attempt at a type: whether the term at a place fits one of its clauses, where what a clause demands is tested at
/// most `depth` steps down.
#[derive(Debug, Drop)]
pub struct Attempt {
    pub depth: u64,
    pub at: Ref,
    /// The number of the type, from 0.
    pub row: u32,
    /// The number of the next of its clauses, from 0.
    pub next: u32,
    /// What the clause at hand demands.
    pub demands: Demands,
    /// How many of these demands are met, or tested now.
    pub met: u32,
}

/// Attempts, each for a demand of the one before it.
pub type Attempts = ListOf<Attempt>;

impl Attempt {
    /// An attempt at a type that begins at its first clause.
    pub(crate) fn new(alloc: Global, depth: u64, at: Ref, row: u32) -> Attempt
        ensures { result ≡ record { depth = depth; at = at; row = row; next = 0; demands = []; met = 0 } }
    {
        Attempt {
            depth,
            at,
            row,
            next: 0,
            demands: Demands::new(alloc),
            met: 0,
        }
    }

    /// The next clause of the type.
    pub(crate) fn clause<'a>(&self, types: &'a Types) -> Option<&'a Clause>
        ensures clause { option_map (λ (c : ClauseOf). c.whole) (option_copied result) ≡ slice_get (clauses_at (map type_of types.now) self.now.row) self.now.next }
        ensures few { length (clauses_at (map type_of types.now) self.now.row) < 2 ^ 32 }
    {
        match types.get(self.row) {
            Some(row) => clause_in(&row.clauses, self.next),
            None => None,
        }
    }

    /// The next demand of the clause at hand.
    pub(crate) fn demand(&self) -> Result<Option<Demand>, AllocError>
        ensures demand { IfOk result (λ demand. demand ≡ slice_get self.now.demands self.now.met) }
        ensures few { length self.now.demands < 2 ^ 32 }
    {
        let _len = self.demands.len();
        match self.demands.get(self.met) {
            Some(demand) => copied(demand),
            None => Ok(None),
        }
    }

    /// The attempt with one demand less.
    pub(crate) fn past_demand(self) -> Attempt
        requires { self.met + 1 < 2 ^ 32 }
        ensures { result ≡ record self { met = self.met + 1 } }
    {
        Attempt {
            depth: self.depth,
            at: self.at,
            row: self.row,
            next: self.next,
            demands: self.demands,
            met: self.met + 1,
        }
    }

    /// The attempt with one clause less, which demands this.
    pub(crate) fn past_clause(self, demands: Demands) -> Attempt
        requires { self.next + 1 < 2 ^ 32 }
        ensures { result ≡ record { depth = self.depth; at = self.at; row = self.row; next = self.next + 1; demands = demands; met = 0 } }
    {
        Attempt {
            depth: self.depth,
            at: self.at,
            row: self.row,
            next: self.next + 1,
            demands,
            met: 0,
        }
    }
}

fn clause_in(clauses: &Clauses, at: u32) -> Option<&Clause>
    ensures clause { option_copied result ≡ slice_get clauses.now at }
    ensures few { length clauses.now < 2 ^ 32 }
{
    let _len = clauses.len();
    clauses.get(at)
}

fn copied(demand: &Demand) -> Result<Option<Demand>, AllocError>
    ensures { IfOk result (λ copy. copy ≡ Some demand.now) }
{
    Ok(Some(Demand {
        name: demand.name.clone()?,
        at: demand.at,
    }))
}
