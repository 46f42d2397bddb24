ghost use Rattle.std.specs.Prelude.{◌≡◌, List, [], ◌∷◌, IfOk, OnOk};
ghost use Rattle.cp_call.specs.declared.item.Input.{Input};
ghost use Rattle.cp_call.specs.Machine.{IsInForm, IsDue};
ghost use Rattle.cp_code.specs.Machine.{meaning, ready};
ghost use Rattle.cp_code.specs.Programs.{objects_of};
ghost use Rattle.cp_code.specs.Tree.{tree, asks};
ghost use Rattle.cp_run.specs.Shown.{shown};
ghost use Rattle.cp_engine.specs.Good.{IsGood};
ghost use Rattle.cp_engine.specs.Walking.{code as code_of, IsStarted, IsWalking, IsReady};

use crate::advance::advance;
use crate::functor::call_of;
use crate::started::Started;
use cp_call::{Input, Next};
use cp_code::{ProgramCode, goals_ask_in_form, the_machine_keeps_its_meaning};
use cp_enter::enter;
use cp_heap::Refs;
use cp_run::Run;
use cp_told::tell;
use std::alloc::{AllocError, Global};

/// Begins a run of a goal that was started, and tells what it asks first.
pub fn begin(
    alloc: Global,
    code: &ProgramCode,
    started: &Started,
    run: &mut Run,
) -> Result<Next, AllocError>
    requires good { IsGood code.now.program }
    requires started { IsStarted code.now.program started.now }
    ensures ready { IfOk result (λ next. IsReady (code_of code.now) started.now.goal run.new) }
    ensures left { OnOk result ((inputs : List Input) → meaning (tree (code_of code.now) started.now.goal) (shown (code_of code.now) run.new) inputs ≡ asks (code_of code.now) started.now.goal inputs) }
    ensures next { IfOk result (λ next. next ≡ asks (code_of code.now) started.now.goal []) }
    ensures form { IfOk result (IsInForm (objects_of code.now.program)) }
{
    the_machine_keeps_its_meaning();
    goals_ask_in_form();
    *run = first_run(alloc, code, started)?;
    let next = advance(code, started, run)?;
    Ok(next)
}

/// The run of a goal before its first move.
fn first_run(alloc: Global, code: &ProgramCode, started: &Started) -> Result<Run, AllocError>
    ensures { IfOk result (λ run. IsWalking (code_of code.now) started.now.goal [] run) }
{
    the_machine_keeps_its_meaning();
    let mut run = Run::new(alloc, code.steps);
    let goal = run.heap.import(&started.goal)?;
    let context = call_of(alloc, &code.program.first)?;
    let none = Refs::new(alloc);
    enter(&mut run, &code.program.first, goal, &none, &context, 0, 0)?;
    Ok(run)
}

/// Hands a run what it asked for, and tells what it asks next.
pub fn go_on(
    code: &ProgramCode,
    started: &Started,
    run: &mut Run,
    input: Input,
) -> Result<Next, AllocError>
    requires good { IsGood code.now.program }
    requires started { IsStarted code.now.program started.now }
    requires ready { IsReady (code_of code.now) started.now.goal run.old }
    ensures ready { IfOk result (λ next. IsReady (code_of code.now) started.now.goal run.new) }
    ensures continues { OnOk result ((inputs : List Input) → meaning (tree (code_of code.now) started.now.goal) (shown (code_of code.now) run.new) inputs ≡ meaning (tree (code_of code.now) started.now.goal) (shown (code_of code.now) run.old) (input ∷ inputs)) }
    ensures next { IfOk result (λ next. next ≡ meaning (tree (code_of code.now) started.now.goal) (shown (code_of code.now) run.old) (input ∷ [])) }
    ensures form { IfOk result (IsInForm (objects_of code.now.program)) }
{
    the_machine_keeps_its_meaning();
    goals_ask_in_form();
    tell(run, input)?;
    let next = advance(code, started, run)?;
    Ok(next)
}
