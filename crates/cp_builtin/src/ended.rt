ghost use Rattle.cp_goal.specs.Builtins.{where_true};
ghost use Rattle.cp_heap.specs.State.{State, substitution};
ghost use Rattle.cp_builtin.specs.Ends.{HasEnded};

use cp_heap::Ref;

/// How a goal has ended on the heap: the kind of an error is a term of the heap.
#[derive(Debug, Clone, Copy, Drop)]
pub(crate) enum Ended {
    Succeeds,
    Fails,
    Raises(Ref),
}

impl Ended {
    /// The end of a test, which binds nothing.
    pub(crate) fn where_true(holds: bool) -> Ended
        ensures { (h : State) → HasEnded h result (where_true holds (substitution h) h.variables) }
    {
        if holds { Ended::Succeeds } else { Ended::Fails }
    }
}
