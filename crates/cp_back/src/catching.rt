ghost use Rattle.std.specs.Prelude.{◌≡◌, ◌<◌, suc, [], length, get_or, codes, IfOk, OnOk};
ghost use Rattle.cp_goal.specs.Builtins.{context as context_term};
ghost use Rattle.cp_code.specs.Code.{Code};
ghost use Rattle.cp_code.specs.Machine.{throw_move};
ghost use Rattle.cp_code.specs.Requests.{full_name};
ghost use Rattle.cp_code.specs.Tree.{is_among};
ghost use Rattle.cp_run.specs.declared.frame.Frame.TheVariants as frame;
ghost use Rattle.cp_run.specs.Shown.{shown, moved};
ghost use Rattle.cp_run.specs.Stands.{Holds, Stands};
ghost use Rattle.cp_enter.specs.Rows.{enter_row};
ghost use Rattle.cp_back.specs.Rows.{catch_row};
ghost use Rattle.cp_back.specs.Undoing.{HoldsUnder, frames_under};

use crate::backtracking::drop_name;
use crate::undoing::take_back;
use crate::unifying::unify_ball;
use cp_enter::enter;
use cp_heap::{Ref, Refs};
use cp_run::{Catchers, Moment, Point, Run};
use cp_term::{Name, PredName, Term};
use std::alloc::{AllocError, Global};

/// Throws a ball to a `catch`, which has the number of the level behind `level`.
pub(crate) fn throw_to_catch(
    run: &mut Run,
    moment: Moment,
    seer: Name,
    pattern: Ref,
    recovery: Ref,
    rest: u32,
    level: u64,
    ball: Term,
    catchers: Catchers,
) -> Result<(), AllocError>
    requires { HoldsUnder run.old (frame.Catching moment seer pattern recovery rest level) }
    ensures moved { OnOk result ((code : Code) → shown code run.new ≡ throw_move (frames_under code run.old (frame.Catching moment seer pattern recovery rest level)) ball catchers run.old.units run.old.copies) }
    ensures stands { OnOk result (Stands run.new) }
{
    if may_catch(level, &catchers) {
        take_back(run, moment);
        catch(run, seer, pattern, recovery, rest, level, ball, catchers)?;
        return Ok(());
    }
    drop_name(seer);
    run.go(Point::Throws { ball, catchers });
    Ok(())
}

/// Whether the `catch` behind this level is among the catchers.
fn may_catch(level: u64, catchers: &Catchers) -> bool
    ensures { result ≡ is_among (suc level) catchers.now }
{
    for number in catchers.as_slice() {
        if *number > 0 && *number - 1 == level {
            return true;
        }
    }
    false
}

/// A ball meets a `catch` that may catch it, as things were when the `catch` was called.
fn catch(
    run: &mut Run,
    seer: Name,
    pattern: Ref,
    recovery: Ref,
    rest: u32,
    level: u64,
    ball: Term,
    catchers: Catchers,
) -> Result<(), AllocError>
    requires holds { Holds run.old }
    requires pattern { pattern.at < length run.old.heap.terms }
    requires recovery { recovery.at < length run.old.heap.terms }
    requires rest { rest < length run.old.goals }
    ensures moved { OnOk result ((code : Code) → shown code run.new ≡ moved code run.old rest level (catch_row seer (get_or run.old.heap.terms pattern.at []) (get_or run.old.heap.terms recovery.at []) ball catchers)) }
    ensures stands { OnOk result (Stands run.new) }
{
    let caught = unify_ball(run, pattern, &ball)?;
    if caught {
        drop_thrown(ball, catchers);
        recover(run, seer, recovery, rest, level)?;
        return Ok(());
    }
    drop_name(seer);
    run.go(Point::Throws { ball, catchers });
    Ok(())
}

/// Runs the recovery of a `catch`.
fn recover(
    run: &mut Run,
    seer: Name,
    recovery: Ref,
    rest: u32,
    level: u64,
) -> Result<(), AllocError>
    requires holds { Holds run.old }
    requires recovery { recovery.at < length run.old.heap.terms }
    requires rest { rest < length run.old.goals }
    ensures moved { OnOk result ((code : Code) → shown code run.new ≡ moved code run.old rest level (enter_row seer (get_or run.old.heap.terms recovery.at []) [] (context_term seer (codes "catch") 3))) }
    ensures stands { OnOk result (Stands run.new) }
{
    let extra = Refs::new(run.alloc);
    let context = catch_of(run.alloc, &seer)?;
    enter(run, &seer, recovery, &extra, &context, rest, level)?;
    Ok(())
}

/// `catch/3`, as a module sees it.
fn catch_of(alloc: Global, seer: &Name) -> Result<PredName, AllocError>
    ensures { IfOk result (λ pred. full_name pred ≡ context_term seer.now (codes "catch") 3) }
{
    let module = seer.clone()?;
    let name = Name::known(alloc, b"catch")?;
    Ok(PredName {
        module,
        name,
        arity: 3,
    })
}

fn drop_thrown(_ball: Term, _catchers: Catchers) {}
