ghost use Rattle.std.specs.Prelude.{◌≡◌, ◌+◌, ◌∷◌, ℕ, MatchOption, IfSome};
ghost use Rattle.std.specs.Option.{option_copied};
ghost use Rattle.cp_code.specs.Programs.{clause_of, code_of};
ghost use Rattle.cp_run.specs.Shown.{rules_from};
ghost use Rattle.cp_run.specs.Programs.{IsRest, HasGoodBodies};
ghost use Rattle.cp_run.specs.Entering.{HasGoodBody};

use cp_code::{Clause, PredKind, Program};

/// The clause with this number of a predicate with rules, both counted from 0.
pub fn clause_at(program: &Program, pred: u32, from: u32) -> Option<&Clause>
    ensures rest { (steps : ℕ) → IsRest (code_of program.now steps) pred from (option_copied result) }
    ensures good { HasGoodBodies program.now → IfSome result (λ c. HasGoodBody c.now) }
{
    let info = program.preds.get(pred)?;
    match info.kind {
        PredKind::Rules => info.clauses.get(from),
        PredKind::Concurrent(_) => None,
        PredKind::Plain(_) => None,
        PredKind::Remote(_) => None,
    }
}
