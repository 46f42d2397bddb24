ghost use Rattle.std.specs.Prelude.{◌≡◌, ℕ, ◌<◌, List, [], length, map, get_or, IfOk, OnOk};
ghost use Rattle.cp_term.specs.declared.cell.Cell.{Cell};
ghost use Rattle.cp_term.specs.Preorder.{arguments};
ghost use Rattle.cp_heap.specs.State.{instance_at};
ghost use Rattle.cp_code.specs.Checks as tests;
ghost use Rattle.cp_code.specs.Programs.{code_of, type_of};
ghost use Rattle.cp_props.specs.Arguments.{HaveArguments};
ghost use Rattle.cp_props.specs.Checks.{check_shown};
ghost use Rattle.cp_run.specs.declared.item.Item.TheVariants as item;
ghost use Rattle.cp_run.specs.Shown.{shown, moved};
ghost use Rattle.cp_run.specs.Stands.{HasItem, Holds, Stands};
ghost use Rattle.cp_calls.specs.Rows.{exit_row};

use crate::check_ball::throw_check;
use crate::rules::drop_checks;
use cp_code::Program;
use cp_goals::arguments_of;
use cp_heap::Ref;
use cp_props::{Checks, broken_exit};
use cp_run::{Point, Run};
use cp_term::PredName;
use std::alloc::AllocError;

/// A call of a predicate whose success these checks test has come to an exit: the ball of the first one that does not hold
/// is thrown, or the goals behind the call are run.
pub fn run_exit(
    program: &Program,
    run: &mut Run,
    pred: PredName,
    checks: Checks,
    goal: Ref,
    rest: u32,
    level: u64,
) -> Result<(), AllocError>
    requires holds { Holds run.old }
    requires item { HasItem run.old.heap.terms (item.Exit pred checks goal) }
    requires rest { rest < length run.old.goals }
    ensures moved { OnOk result ((budget : ℕ) (first : List Cell) → shown (code_of program.now budget) run.new ≡ moved (code_of program.now budget) run.old rest level (exit_row (code_of program.now budget) first pred (map check_shown checks) (get_or run.old.heap.terms goal.at []))) }
    ensures stands { OnOk result (Stands run.new) }
{
    let broken = broken_at(program, run, &checks, goal)?;
    drop_checks(checks);
    match broken {
        Some(number) => {
            throw_check(run, b"success", &pred, number, rest)?;
            Ok(())
        }
        None => {
            run.go(Point::Runs { goals: rest, level });
            Ok(())
        }
    }
}

/// The number of the first check that does not hold at an exit.
fn broken_at(
    program: &Program,
    run: &Run,
    checks: &Checks,
    goal: Ref,
) -> Result<Option<u32>, AllocError>
    requires goal { goal.at < length run.now.heap.terms }
    requires named { HaveArguments (length (arguments (get_or run.now.heap.terms goal.at []))) (map check_shown checks.now) }
    ensures { IfOk result (λ number. number ≡ tests.broken_exit (map type_of program.now.types) (map check_shown checks.now) (arguments (instance_at run.now.heap goal.at))) }
{
    let args = arguments_of(run.alloc, &run.heap, goal)?;
    let broken = broken_exit(run.alloc, &program.types, &run.heap, checks, &args)?;
    Ok(broken)
}
