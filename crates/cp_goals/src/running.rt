ghost use Rattle.std.specs.Prelude.{◌≡◌, ℕ, ◌<◌, Some, true, false, length, is_some, IfOk, OnOk};
ghost use Rattle.cp_heap.specs.State.{instance_at};
ghost use Rattle.cp_code.specs.Goals.{builtin_goal};
ghost use Rattle.cp_code.specs.Programs.{code_of};
ghost use Rattle.cp_code.specs.Requests.{functor_of};
ghost use Rattle.cp_run.specs.Shown.{here_of, instance_in, shown, moved};
ghost use Rattle.cp_run.specs.Stands.{Holds, Stands};
ghost use Rattle.cp_goals.specs.Kinds.{language_shown, HasArity};
ghost use Rattle.cp_goals.specs.Rows.{plain_row, builtin_row, IsGoalOf};

use crate::language_goal::LanguageGoal;
use crate::on_terms::on_terms;
use crate::output::{new_line, write};
use crate::property::test_property;
use crate::questions::{on_facts, post, wait};
use cp_code::Program;
use cp_heap::Ref;
use cp_run::Run;
use cp_term::{Name, PredName};
use std::alloc::AllocError;

/// Runs a charged goal, if it is a goal of the language that is no control, and answers whether it is. Its name and its
/// arguments are those that it has with the bindings, and the module `seer` sees it.
pub fn run_builtin(
    program: &Program,
    run: &mut Run,
    seer: &Name,
    name: &Name,
    arity: u16,
    goal: Ref,
    rest: u32,
    level: u64,
) -> Result<bool, AllocError>
    requires holds { Holds run.old }
    requires goal { goal.at < length run.old.heap.terms }
    requires rest { rest < length run.old.goals }
    requires functor { functor_of (instance_in (here_of run.old) goal.at) ≡ Some (name.now, arity) }
    ensures answer { IfOk result (λ ran. ran ≡ is_some (builtin_goal name.now arity)) }
    ensures moved { IfOk result (λ ran. ran ≡ true → (budget : ℕ) → shown (code_of program.now budget) run.new ≡ moved (code_of program.now budget) run.old rest level (plain_row (code_of program.now budget) seer.now (instance_in (here_of run.old) goal.at))) }
    ensures stands { IfOk result (λ ran. ran ≡ true → Stands run.new) }
    ensures kept { IfOk result (λ ran. ran ≡ false → run.new ≡ run.old) }
{
    let Some(language_goal) = LanguageGoal::named(name.bytes(), arity) else {
        return Ok(false);
    };
    let context = PredName {
        module: seer.clone()?,
        name: name.clone()?,
        arity,
    };
    run_language_goal(program, run, language_goal, &context, goal, rest, level)?;
    Ok(true)
}

/// Runs a goal of the language whose module, name and number of arguments are given.
fn run_language_goal(
    program: &Program,
    run: &mut Run,
    language_goal: LanguageGoal,
    context: &PredName,
    goal: Ref,
    rest: u32,
    level: u64,
) -> Result<(), AllocError>
    requires holds { Holds run.old }
    requires goal { IsGoalOf run.old.heap context.now goal.at }
    requires arity { HasArity context.now.name context.now.arity language_goal }
    requires rest { rest < length run.old.goals }
    ensures moved { OnOk result ((budget : ℕ) → shown (code_of program.now budget) run.new ≡ moved (code_of program.now budget) run.old rest level (builtin_row (code_of program.now budget) (language_shown context.now.name language_goal) context.now (instance_at run.old.heap goal.at))) }
    ensures stands { OnOk result (Stands run.new) }
{
    match language_goal {
        LanguageGoal::OnTerms(_) => on_terms(run, context, goal, rest, level),
        LanguageGoal::Property => test_property(program, run, context, goal, rest, level),
        LanguageGoal::Write(style) => write(program, run, style, context, goal, rest, level),
        LanguageGoal::NewLine => new_line(run, context, rest, level),
        LanguageGoal::OnFacts(fact) => on_facts(program, run, fact, context, goal, rest, level),
        LanguageGoal::Post => post(run, context, goal, rest, level),
        LanguageGoal::Wait => wait(run, context, goal, rest, level),
    }
}
