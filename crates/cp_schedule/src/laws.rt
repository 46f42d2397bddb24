ghost use Rattle.std.specs.Prelude.{◌≡◌, ◌≤◌, true, ℕ, List, ◌∷◌};
ghost use Rattle.cp_list.specs.Lists.{IsPrefix};
ghost use Rattle.cp_term.specs.declared.cell.Cell.{Cell};
ghost use Rattle.cp_term.specs.Unification.{unifiable_apart};
ghost use Rattle.cp_call.specs.declared.call.ObjectKind.TheVariants as kind;
ghost use Rattle.cp_call.specs.declared.item.PutReply.{PutReply};
ghost use Rattle.cp_call.specs.declared.outcome.Outcome.{Outcome};
ghost use Rattle.cp_call.specs.Sound.{Object, Setup, Sound, history_at};
ghost use Rattle.cp_schedule.specs.declared.end.Picked.TheVariants as picked;
ghost use Rattle.cp_schedule.specs.Ended.{IsOfWorkers};
ghost use Rattle.cp_schedule.specs.First.{IsFirstTaken, any_goal};
ghost use Rattle.cp_schedule.specs.Picked.{IsRunOfPicks};
ghost use Rattle.cp_schedule.specs.Turns.{IsRunOfSeed, puts_of};

/// A seed has one outcome: two runs of it by as many workers, whose writes were replied alike, end with the same one.
pub fn a_seed_has_one_outcome()
    ensures { (s : Setup) (seed : ℕ) (steps : ℕ) (workers : ℕ) (puts : List PutReply) (a : Outcome) (b : Outcome) → IsRunOfSeed s seed steps workers a → IsRunOfSeed s seed steps workers b → IsPrefix (puts_of a) puts → IsPrefix (puts_of b) puts → a ≡ b }
{}

/// A list of picks has one outcome, where its run ends and the writes were replied alike.
pub fn a_list_of_picks_has_one_outcome()
    ensures { (s : Setup) (picks : List ℕ) (steps : ℕ) (workers : ℕ) (puts : List PutReply) (a : Outcome) (b : Outcome) (last_a : Outcome) (last_b : Outcome) → IsRunOfPicks s picks steps workers (picked.Ended a) last_a → IsRunOfPicks s picks steps workers (picked.Ended b) last_b → IsPrefix (puts_of a) puts → IsPrefix (puts_of b) puts → a ≡ b }
{}

/// At the end of a run of at least one worker the first goal of the list of goals has been taken: the first call of that
/// list is the one that takes it. The goal has to unify with a variable, as every term does.
pub fn the_first_goal_is_taken()
    ensures { (s : Setup) (steps : ℕ) (workers : ℕ) (end : Outcome) (o : Object) (objects : List Object) (goal : List Cell) (goals : List (List Cell)) → Sound s end → IsOfWorkers steps workers end → 1 ≤ workers → s.objects ≡ o ∷ objects → o.kind ≡ kind.Goals → o.opening ≡ goal ∷ goals → unifiable_apart any_goal goal ≡ true → IsFirstTaken goal (history_at end.preds 0) }
{}
