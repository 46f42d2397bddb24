ghost use Rattle.std.specs.Prelude.{◌≡◌, List, Some, IfOk, OnOk};
ghost use Rattle.cp_call.specs.declared.item.Input.{Input};
ghost use Rattle.cp_code.specs.Machine.{ready};
ghost use Rattle.cp_run.specs.Shown.{shown};
ghost use Rattle.cp_engine.specs.Good.{IsGood};
ghost use Rattle.cp_engine.specs.Walking.{code as code_of, IsStarted, IsWalking};

use crate::moves::one_move;
use crate::started::Started;
use cp_call::Next;
use cp_code::{ProgramCode, the_machine_keeps_its_meaning};
use cp_run::Run;
use cp_told::ready;
use std::alloc::AllocError;

/// Moves until an input is due or the goal has ended, and tells what is asked. A run of more than 2^64 moves is given up.
pub fn advance(code: &ProgramCode, started: &Started, run: &mut Run) -> Result<Next, AllocError>
    requires good { IsGood code.now.program }
    requires started { IsStarted code.now.program started.now }
    requires walks { (past : List Input) × IsWalking (code_of code.now) started.now.goal past run.old }
    ensures walks { OnOk result ((past : List Input) → IsWalking (code_of code.now) started.now.goal past run.old → IsWalking (code_of code.now) started.now.goal past run.new) }
    ensures next { IfOk result (λ next. ready (shown (code_of code.now) run.new) ≡ Some next) }
{
    the_machine_keeps_its_meaning();
    'moves: for _ in 0..u64::MAX {
        if let Some(next) = ready(run)? {
            return Ok(next);
        }
        one_move(&code.program, started, run)?;
    }
    Err(AllocError)
}
