ghost use Rattle.std.specs.Prelude.{◌≡◌, ◌≤◌, ℕ, List};
ghost use Rattle.cp_list.specs.Lists.{IsPrefix};
ghost use Rattle.cp_call.specs.declared.item.PutReply.{PutReply};
ghost use Rattle.cp_call.specs.declared.outcome.Outcome.{Outcome};
ghost use Rattle.cp_call.specs.Setup.{IsSoundRun, main_of};
ghost use Rattle.cp_call.specs.Sound.{history_at};
ghost use Rattle.cp_code.specs.declared.program.Program.{Program};
ghost use Rattle.cp_code.specs.Programs.{parts_of};
ghost use Rattle.cp_schedule.specs.First.{IsFirstTaken};
ghost use Rattle.cp_schedule.specs.Turns.{puts_of};
ghost use Rattle.cp_simulate.specs.Runs.{rule, IsRunOf};

/// A program has one outcome under a seed: two of the same steps and engines, whose writes were replied alike, are equal.
pub fn a_seed_has_one_outcome()
    ensures { (p : Program) (seed : ℕ) (steps : ℕ) (engines : ℕ) (puts : List PutReply) (a : Outcome) (b : Outcome) → IsRunOf p seed steps engines a → IsRunOf p seed steps engines b → IsPrefix (puts_of a) puts → IsPrefix (puts_of b) puts → a ≡ b }
{
    cp_schedule::a_seed_has_one_outcome();
}

/// At the end of a run on at least one engine the goal `M:main` has been taken, and was the first one to be.
pub fn the_main_goal_is_taken()
    ensures { (p : Program) (seed : ℕ) (steps : ℕ) (engines : ℕ) (o : Outcome) → IsRunOf p seed steps engines o → 1 ≤ engines → IsFirstTaken (main_of p.first) (history_at o.preds 0) }
{
    cp_schedule::the_first_goal_is_taken();
}

/// A simulated run is sound for its program, with the step budget that its outcome names: none of its engines is a lane.
pub fn simulated_runs_are_sound()
    ensures { (p : Program) (seed steps engines : ℕ) (o : Outcome) → IsRunOf p seed steps engines o → IsSoundRun (rule p) (parts_of p) o }
{}
