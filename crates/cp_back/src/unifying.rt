ghost use Rattle.std.specs.Prelude.{◌≡◌, ◌+◌, ◌<◌, [], cond, None, Some, length, get_or, IfOk, OnOk};
ghost use Rattle.cp_term.specs.Numbering.{fresh, next_variable};
ghost use Rattle.cp_term.specs.Unification.{unify as unify_by};
ghost use Rattle.cp_code.specs.Code.{Code};
ghost use Rattle.cp_run.specs.Shown.{bound, here_of, shown, moved};
ghost use Rattle.cp_run.specs.Stands.{Holds, Stands};
ghost use Rattle.cp_run.specs.Entering.{IsExtended};
ghost use Rattle.cp_back.specs.Rows.{unify_row};

use cp_heap::Ref;
use cp_run::{Point, Run};
use cp_term::Term;
use std::alloc::AllocError;

/// Makes two terms one, where they unify, as they stand without the bindings.
pub(crate) fn unify_terms(run: &mut Run, a: Ref, b: Ref) -> Result<bool, AllocError>
    requires holds { Holds run.old }
    requires a { a.at < length run.old.heap.terms }
    requires b { b.at < length run.old.heap.terms }
    ensures unified { IfOk result (λ unified. unify_by (bound (here_of run.old)) (get_or run.old.heap.terms a.at []) (get_or run.old.heap.terms b.at []) ≡ cond unified (Some (bound (here_of run.new))) None) }
    ensures extended { OnOk result (IsExtended run.old run.new) }
    ensures variables { OnOk result (run.new.heap.variables ≡ run.old.heap.variables) }
{
    let _mark = run.heap.mark();
    let unified = run.unify(a, b)?;
    Ok(unified)
}

/// Runs the goals behind, where two terms unify.
pub(crate) fn unify_or_fail(
    run: &mut Run,
    a: Ref,
    b: Ref,
    rest: u32,
    level: u64,
) -> Result<(), AllocError>
    requires holds { Holds run.old }
    requires a { a.at < length run.old.heap.terms }
    requires b { b.at < length run.old.heap.terms }
    requires rest { rest < length run.old.goals }
    ensures moved { OnOk result ((code : Code) → shown code run.new ≡ moved code run.old rest level (unify_row (get_or run.old.heap.terms a.at []) (get_or run.old.heap.terms b.at []))) }
    ensures stands { OnOk result (Stands run.new) }
{
    let unified = unify_terms(run, a, b)?;
    if unified {
        run.go(Point::Runs { goals: rest, level });
        return Ok(());
    }
    run.go(Point::Fails);
    Ok(())
}

/// Makes a term one with a ball, where they unify. The variables of the ball are new ones.
pub(crate) fn unify_ball(run: &mut Run, pattern: Ref, ball: &Term) -> Result<bool, AllocError>
    requires holds { Holds run.old }
    requires pattern { pattern.at < length run.old.heap.terms }
    ensures unified { IfOk result (λ unified. unify_by (bound (here_of run.old)) (get_or run.old.heap.terms pattern.at []) (fresh run.old.heap.variables ball.now) ≡ cond unified (Some (bound (here_of run.new))) None) }
    ensures extended { OnOk result (IsExtended run.old run.new) }
    ensures variables { OnOk result (run.new.heap.variables ≡ run.old.heap.variables + next_variable ball.now) }
{
    let thrown = run.heap.import(ball)?;
    let unified = unify_terms(run, pattern, thrown)?;
    Ok(unified)
}
