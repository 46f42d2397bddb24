ghost use Rattle.std.specs.Prelude.{◌≡◌};
ghost use Rattle.std.specs.List.{list_any};
ghost use Rattle.cp_module.specs.Causes.{same, is_in, repeats, is_goal_of_the_language};

use crate::words::is_language;
use cp_declaration::Indicator;

/// Whether one of the predicates is a goal of the language.
pub(crate) fn are_of_language(preds: &[Indicator]) -> bool
    ensures { result ≡ list_any is_goal_of_the_language preds.now }
{
    preds
        .iter()
        .any(|pred| is_language(pred.name.bytes(), pred.arity))
}

/// Whether a predicate stands twice among these.
pub(crate) fn repeat(preds: &[Indicator]) -> bool
    ensures { result ≡ repeats preds.now }
{
    let mut rest = preds;
    'preds: while let [first, behind @ ..] = rest {
        if is_in(behind, first) {
            return true;
        }
        rest = behind;
    }
    false
}

fn is_in(preds: &[Indicator], pred: &Indicator) -> bool
    ensures { result ≡ is_in preds.now pred.now }
{
    preds.iter().any(|other| same(pred, other))
}

fn same(pred: &Indicator, other: &Indicator) -> bool
    ensures { result ≡ same pred.now other.now }
{
    pred.name.bytes() == other.name.bytes() && pred.arity == other.arity
}
