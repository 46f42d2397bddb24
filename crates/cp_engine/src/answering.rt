ghost use Rattle.std.specs.Prelude.{◌≡◌, ℕ, ◌<◌, [], length, IfOk, OnOk};
ghost use Rattle.cp_term.specs.Numbering.{next_variable};
ghost use Rattle.cp_term.specs.Substitution.{apply};
ghost use Rattle.cp_code.specs.declared.program.Program.{Program};
ghost use Rattle.cp_code.specs.Programs.{code_of};
ghost use Rattle.cp_run.specs.Shown.{here_of, bound, instance_in, goals_shown, shown, moved};
ghost use Rattle.cp_run.specs.Gaining.{IsGained};
ghost use Rattle.cp_run.specs.Stands.{Holds, Stands};
ghost use Rattle.cp_engine.specs.Walking.{IsStarted, answer_row};

use crate::started::Started;
use cp_heap::{ExportError, Ref};
use cp_run::{Point, Run};
use cp_term::{Cell, Term};
use std::alloc::AllocError;

/// The goal has an answer, which is handed out, or an error is raised where it has more than 4,096 cells.
pub fn run_answer(started: &Started, run: &mut Run, goals: u32) -> Result<(), AllocError>
    requires holds { Holds run.old }
    requires goals { goals < length run.old.goals }
    requires none { goals_shown (here_of run.old) goals ≡ [] }
    ensures moved { OnOk result ((p : Program) → IsStarted p started.now → (budget level : ℕ) → shown (code_of p budget) run.new ≡ moved (code_of p budget) run.old goals level (answer_row (code_of p budget) started.now.goal)) }
    ensures stands { OnOk result (Stands run.new) }
{
    let answer = put_answer(run, &started.answer)?;
    match run.heap.export(answer) {
        Ok(answer) => {
            run.go(Point::Answers { answer });
            Ok(())
        }
        Err(ExportError::TooLarge) => {
            run.raise_too_large(&started.context, goals)?;
            Ok(())
        }
        Err(ExportError::NoMemory) => Err(AllocError),
    }
}

/// The term whose variables are those of the goal that was started.
fn put_answer(run: &mut Run, answer: &Term) -> Result<Ref, AllocError>
    requires { Holds run.old }
    ensures place { IfOk result (λ r. r.at < length run.new.heap.terms) }
    ensures instance { IfOk result (λ r. instance_in (here_of run.new) r.at ≡ apply (bound (here_of run.old)) answer.now) }
    ensures gained { OnOk result (IsGained run.old run.new) }
{
    if next_number(answer.cells()) > run.heap.mark().variables as u64 {
        return Err(AllocError);
    }
    let put = run.heap.import_over(answer, 0)?;
    Ok(put)
}

/// One more than the greatest number of a variable of the cells; 0 where they have none.
fn next_number(cells: &[Cell]) -> u64
    ensures { result ≡ next_variable cells.now }
{
    let mut next = 0;
    'cells: for cell in cells {
        if let Cell::Var(variable) = cell {
            next = next.max(*variable as u64 + 1);
        }
    }
    next
}
