ghost use Rattle.std.specs.Prelude.{◌≡◌, ◌<◌, ◌≤◌, false, IsTrue, ◌⊎◌};
ghost use Rattle.cp_heap.specs.State.{IsLive};
ghost use Rattle.cp_unify.specs.Words.{count_of};
ghost use Rattle.cp_unify.specs.Steps.{IsHorizon};

use crate::words::argument_count;
use cp_heap::{Heap, Mark, Ref, Word};

/// How far a heap had grown at a mark, and whether a binding has brought a later variable into a term from before it.
#[derive(Debug, Clone, Copy, Drop)]
pub(crate) struct Horizon {
    pub(crate) terms: u32,
    pub(crate) variables: u32,
    pub(crate) crossed: bool,
}

impl Horizon {
    /// Whether the variable is a later one and the term is from before, where no binding has crossed over.
    pub(crate) fn parts(&self, variable: u32, term: Ref) -> bool
        ensures uncrossed { IsTrue result → self.now.crossed ≡ false }
        ensures variable { IsTrue result → self.now.variables ≤ variable }
        ensures term { IsTrue result → term.at < self.now.terms }
    {
        if self.crossed {
            return false;
        }
        variable >= self.variables && term.at < self.terms
    }

    /// Notes a binding of the variable to the term, which begins with this word.
    pub(crate) fn note(&mut self, variable: u32, term: Ref, word: Word)
        ensures kept { self.new ≡ record self.old { crossed = self.new.crossed } }
        ensures before { self.new.crossed ≡ false → self.old.crossed ≡ false }
        ensures apart { self.new.crossed ≡ false → (self.old.variables ≤ variable) ⊎ ((term.at < self.old.terms) ⊎ (count_of word ≡ 0)) }
    {
        if variable >= self.variables {
            return;
        }
        if term.at < self.terms {
            return;
        }
        if argument_count(word) == 0 {
            return;
        }
        self.crossed = true;
    }
}

/// The mark as a horizon. Bindings that were made since may have crossed it.
pub(crate) fn horizon_of(heap: &Heap, mark: Mark) -> Horizon
    requires { IsLive mark heap.now }
    ensures { IsHorizon result heap.now }
{
    let now = heap.mark();
    Horizon {
        terms: mark.terms,
        variables: mark.variables,
        crossed: now.bindings != mark.bindings,
    }
}
