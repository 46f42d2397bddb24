ghost use Rattle.std.specs.Prelude.{◌≡◌, ◌<◌, length, IfSome};
ghost use Rattle.cp_code.specs.Programs.{is_named, own_pred};

use crate::clause::Clauses;
use crate::pred_kind::PredKind;
use cp_list::ListOf;
use cp_term::PredName;

/// Which arguments of a predicate are goal arguments, from the first one on; those behind the list's end are none.
pub type GoalMarks = ListOf<bool>;

/// A predicate of a program.
#[derive(Debug, Drop)]
pub struct PredInfo {
    pub name: PredName,
    /// Its clauses in textual order. Those of a shared predicate are its opening facts.
    pub clauses: Clauses,
    pub kind: PredKind,
    /// What `meta_predicate` declares of it.
    pub goals: GoalMarks,
}

/// The predicates of a program, in loading order.
pub type Preds = ListOf<PredInfo>;

/// Names of predicates.
pub type PredNames = ListOf<PredName>;

impl PredInfo {
    fn is_named(&self, owner: &[u8], name: &[u8], arity: u16) -> bool
        ensures { result ≡ is_named owner.now name.now arity self.now.name }
    {
        self.name.module.bytes() == owner
            && self.name.name.bytes() == name
            && self.name.arity == arity
    }
}

/// The place of the predicate with this name among others, from 0.
pub(crate) fn place_of(preds: &Preds, owner: &[u8], name: &[u8], arity: u16) -> Option<u32>
    ensures { result ≡ own_pred preds.now owner.now name.now arity }
{
    let _len = preds.len();
    match position_of(preds.as_slice(), owner, name, arity) {
        Some(at) => Some(at as u32),
        None => None,
    }
}

fn position_of(preds: &[PredInfo], owner: &[u8], name: &[u8], arity: u16) -> Option<usize>
    ensures place { result ≡ own_pred preds.now owner.now name.now arity }
    ensures within { IfSome result (λ at. at < length preds.now) }
{
    preds
        .iter()
        .position(|pred| pred.is_named(owner, name, arity))
}
