ghost use Rattle.std.specs.Prelude.{◌≡◌, ◌+◌, IfOk};
ghost use Rattle.cp_term.specs.Unification.{unifiable_apart};

use crate::steps::Steps;
use cp_term::{Term, unifiable};
use std::alloc::{AllocError, Global};
use std::sync::ledger::Ledger;

/// Whether the two terms unify with the variables of the two renamed apart. It counts one step.
pub fn unifiable_counted<L: Ledger>(
    alloc: Global,
    a: &Term,
    b: &Term,
    steps: &mut Steps<L>,
) -> Result<bool, AllocError>
    ensures value { IfOk result (λ unify. unify ≡ unifiable_apart a.now b.now) }
    ensures steps { steps.new ≡ steps.old + 1 }
{
    steps.add_one();
    unifiable(alloc, a, b)
}
