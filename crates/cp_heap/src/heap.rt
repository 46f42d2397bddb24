ghost use Rattle.std.specs.Prelude.{◌≡◌, ◌-◌, [], length};
ghost use Rattle.cp_heap.specs.State.{State, Extends, IsLive, IsWellFormed, state_at};

mod bindings;
mod copy;
mod export;
mod ground;
mod import;
mod instance;
mod looking;
mod making;
mod walk;

use crate::bound::Bound;
use crate::mark::Mark;
use crate::word::Word;
use cp_term::Name;
use indexmap::IndexSet;
use std::alloc::Global;
use std::marker::Model;

/// Terms over variables that can be bound. Contracts see the list of all terms that were made, each without the
/// bindings; the bindings in the order in which they were made; and the number of variables.
#[derive(Debug, Drop)]
pub struct Heap {
    alloc: Global,
    words: Vec<Word>,
    names: IndexSet<Name>,
    trail: Vec<Bound>,
    /// For each variable, the place of the term to which it is bound.
    values: Vec<Option<u32>>,
}

impl Model for Heap {
    ghost use Rattle.cp_heap.specs.State.{State};

    ghost Value = { State };

    ghost use Rattle.cp_heap.specs.Layout.{state_of, IsLaidOut};

    ghost view = { state_of };

    ghost invariant = { IsLaidOut };
}

impl Heap {
    /// The empty heap. It takes no memory.
    pub fn new(alloc: Global) -> Heap
        ensures { result ≡ record { terms = []; trail = []; variables = 0; names = [] } }
    {
        Heap {
            alloc,
            words: Vec::new(alloc),
            names: IndexSet::new(alloc),
            trail: Vec::new(alloc),
            values: Vec::new(alloc),
        }
    }

    /// How far the heap has grown. As long as it only grows it can be taken back to what it is now.
    pub fn mark(&self) -> Mark
        ensures live { IsLive result self.now }
        ensures whole { state_at result self.now ≡ self.now }
        ensures later { (h : State) → Extends self.now h → IsLive result h × (state_at result h ≡ record self.now { names = h.names }) }
        ensures well_formed { IsWellFormed self.now }
    {
        Mark {
            terms: self.words.len() as u32,
            bindings: self.trail.len() as u32,
            variables: self.values.len() as u32,
        }
    }

    /// How many terms there are.
    pub(super) fn len(&self) -> u32
        ensures { result ≡ length self.now.terms }
    {
        self.words.len() as u32
    }

    /// How many variables there are.
    pub(super) fn variables_len(&self) -> u32
        ensures { result ≡ self.now.variables }
    {
        self.values.len() as u32
    }

    /// How many bindings there are.
    pub(super) fn bindings_len(&self) -> u32
        ensures { result ≡ length self.now.trail }
    {
        self.trail.len() as u32
    }
}
