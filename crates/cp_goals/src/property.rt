ghost use Rattle.std.specs.Prelude.{◌≡◌, ℕ, ◌<◌, length, OnOk};
ghost use Rattle.cp_heap.specs.State.{instance_at};
ghost use Rattle.cp_code.specs.Code.{Code};
ghost use Rattle.cp_code.specs.Goals as goals;
ghost use Rattle.cp_code.specs.Programs.{code_of};
ghost use Rattle.cp_run.specs.Shown.{shown, moved};
ghost use Rattle.cp_run.specs.Stands.{Holds, Stands};
ghost use Rattle.cp_goals.specs.Rows.{builtin_row, passes_row, IsGoalOf};

use crate::arguments::first_argument;
use cp_code::Program;
use cp_heap::Ref;
use cp_props::has;
use cp_run::{Point, Run};
use cp_term::PredName;
use std::alloc::AllocError;

/// A property as a goal: a test of its argument.
pub(crate) fn test_property(
    program: &Program,
    run: &mut Run,
    context: &PredName,
    goal: Ref,
    rest: u32,
    level: u64,
) -> Result<(), AllocError>
    requires holds { Holds run.old }
    requires goal { IsGoalOf run.old.heap context.now goal.at }
    requires arity { context.now.arity ≡ 1 }
    requires rest { rest < length run.old.goals }
    ensures moved { OnOk result ((budget : ℕ) → shown (code_of program.now budget) run.new ≡ moved (code_of program.now budget) run.old rest level (builtin_row (code_of program.now budget) (goals.Property context.now.name) context.now (instance_at run.old.heap goal.at))) }
    ensures stands { OnOk result (Stands run.new) }
{
    let at = first_argument(&run.heap, goal);
    let passed = has(run.alloc, &program.types, &run.heap, &context.name, at)?;
    pass_if(run, passed, rest, level);
    Ok(())
}

/// Goes on where a test has passed.
fn pass_if(run: &mut Run, passed: bool, rest: u32, level: u64)
    requires holds { Holds run.old }
    requires rest { rest < length run.old.goals }
    ensures moved { (code : Code) → shown code run.new ≡ moved code run.old rest level (passes_row passed) }
    ensures stands { Stands run.new }
{
    if passed {
        run.go(Point::Runs { goals: rest, level });
    } else {
        run.go(Point::Fails);
    }
}
