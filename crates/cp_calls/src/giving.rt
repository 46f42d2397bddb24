ghost use Rattle.std.specs.Prelude.{◌≡◌, ◌+◌, ℕ, ◌<◌, [], Some, None, cond, length, drop, get_or, IfOk, OnOk};
ghost use Rattle.cp_term.specs.Numbering.{fresh, next_variable};
ghost use Rattle.cp_term.specs.Unification.{unify};
ghost use Rattle.cp_code.specs.Code.{Code};
ghost use Rattle.cp_code.specs.Requests.{full_name};
ghost use Rattle.cp_request.specs.Told.{remote_kind, remote_shown};
ghost use Rattle.cp_run.specs.Entering.{IsExtended};
ghost use Rattle.cp_run.specs.Gaining.{raise_row, throw_copy_row};
ghost use Rattle.cp_run.specs.Shown.{here_of, bound, instance_in, shown, moved};
ghost use Rattle.cp_run.specs.Stands.{Holds, Stands};
ghost use Rattle.cp_calls.specs.Rows.{gives_row, behind_row};

use cp_heap::Ref;
use cp_request::{RemoteAnswer, RemoteError, RemoteFollows};
use cp_run::{Point, Run};
use cp_term::{PredName, Term};
use std::alloc::AllocError;

/// Gives the answers of a remote call of a predicate from this one on: the first that unifies with the goal, or what stands
/// behind them where none is left.
pub fn give(
    run: &mut Run,
    pred: PredName,
    answer: RemoteAnswer,
    from: u32,
    goal: Ref,
    rest: u32,
    level: u64,
) -> Result<(), AllocError>
    requires holds { Holds run.old }
    requires goal { goal.at < length run.old.heap.terms }
    requires rest { rest < length run.old.goals }
    ensures moved { OnOk result ((code : Code) → shown code run.new ≡ moved code run.old rest level (gives_row (drop from answer.answers) (remote_shown pred answer.behind) (instance_in (here_of run.old) goal.at) (full_name pred))) }
    ensures stands { OnOk result (Stands run.new) }
{
    if from < answer.answers.len() {
        try_answer(run, pred, answer, from, goal, rest, level)?;
        return Ok(());
    }
    follow(run, &pred, &answer.behind, rest)?;
    Ok(())
}

/// Unifies an answer with the goal.
fn try_answer(
    run: &mut Run,
    pred: PredName,
    answer: RemoteAnswer,
    from: u32,
    goal: Ref,
    rest: u32,
    level: u64,
) -> Result<(), AllocError>
    requires holds { Holds run.old }
    requires goal { goal.at < length run.old.heap.terms }
    requires rest { rest < length run.old.goals }
    requires from { from < length answer.answers }
    ensures moved { OnOk result ((code : Code) → shown code run.new ≡ moved code run.old rest level (gives_row (drop from answer.answers) (remote_shown pred answer.behind) (instance_in (here_of run.old) goal.at) (full_name pred))) }
    ensures stands { OnOk result (Stands run.new) }
{
    let moment = run.moment();
    let unified = unify_answer(run, &answer, from, goal)?;
    let next = from + 1;
    if unified {
        run.push_answering(moment, pred, answer, next, goal, rest, level)?;
        run.go(Point::Runs { goals: rest, level });
        return Ok(());
    }
    run.undo_to(moment);
    run.go(Point::Gives {
        pred,
        answer,
        from: next,
        goal,
        rest,
        level,
    });
    Ok(())
}

/// Whether an answer, with new variables, unifies with the goal.
fn unify_answer(
    run: &mut Run,
    answer: &RemoteAnswer,
    from: u32,
    goal: Ref,
) -> Result<bool, AllocError>
    requires holds { Holds run.old }
    requires goal { goal.at < length run.old.heap.terms }
    requires from { from < length answer.now.answers }
    ensures unified { IfOk result (λ unified. unify (bound (here_of run.old)) (instance_in (here_of run.old) goal.at) (fresh run.old.heap.variables (get_or answer.now.answers from [])) ≡ cond unified (Some (bound (here_of run.new))) None) }
    ensures variables { OnOk result (run.new.heap.variables ≡ run.old.heap.variables + next_variable (get_or answer.now.answers from [])) }
    ensures extended { OnOk result (IsExtended run.old run.new) }
{
    let Some(found) = answer.answers.get(from) else {
        unreachable!()
    };
    let at = run.heap.import(found)?;
    let unified = run.unify(goal, at)?;
    Ok(unified)
}

/// What stands behind the answers of a remote call of a predicate.
fn follow(
    run: &mut Run,
    pred: &PredName,
    behind: &RemoteFollows,
    rest: u32,
) -> Result<(), AllocError>
    requires holds { Holds run.old }
    requires rest { rest < length run.old.goals }
    ensures moved { OnOk result ((code : Code) (level : ℕ) → shown code run.new ≡ moved code run.old rest level (behind_row (remote_shown pred.now behind.now) (full_name pred.now))) }
    ensures stands { OnOk result (Stands run.new) }
{
    match behind {
        RemoteFollows::Fails => {
            run.go(Point::Fails);
            Ok(())
        }
        RemoteFollows::Throws(ball) => {
            throw_remote(run, ball, pred, rest)?;
            Ok(())
        }
        RemoteFollows::Breaks(error) => {
            raise_remote(run, error, pred, rest)?;
            Ok(())
        }
    }
}

/// The ball of a remote call is thrown, or an error raised where it has more than 4,096 cells.
fn throw_remote(run: &mut Run, ball: &Term, pred: &PredName, rest: u32) -> Result<(), AllocError>
    requires holds { Holds run.old }
    requires rest { rest < length run.old.goals }
    ensures moved { OnOk result ((code : Code) (level : ℕ) → shown code run.new ≡ moved code run.old rest level (throw_copy_row ball.now (full_name pred.now))) }
    ensures stands { OnOk result (Stands run.new) }
{
    let _mark = run.heap.mark();
    let at = run.heap.import(ball)?;
    run.throw_copy(at, pred, rest)?;
    Ok(())
}

/// A remote call is broken off by an error.
fn raise_remote(
    run: &mut Run,
    error: &RemoteError,
    pred: &PredName,
    rest: u32,
) -> Result<(), AllocError>
    requires holds { Holds run.old }
    requires rest { rest < length run.old.goals }
    ensures moved { OnOk result ((code : Code) (level : ℕ) → shown code run.new ≡ moved code run.old rest level (raise_row (remote_kind pred.now error.now) (full_name pred.now))) }
    ensures stands { OnOk result (Stands run.new) }
{
    let kind = error.put(run.alloc, &mut run.heap, pred)?;
    run.raise(kind, pred, rest)?;
    Ok(())
}
