ghost use Rattle.std.specs.Prelude.{◌≡◌, find};
ghost use Rattle.std.specs.Option.{option_copied};
ghost use Rattle.cp_code.specs.Programs.{is_named};
ghost use Rattle.cp_code.specs.declared.pred_info.PredInfo.{PredInfo as InfoOf};
ghost use Rattle.cp_assertion.specs.Assertions.{standing_of_kind, standing_in};

use cp_code::{Clauses, PredInfo, PredKind, Preds};
use cp_term::Name;

/// What a predicate is to a module.
#[derive(Debug, Clone, Copy, PartialEq, Eq, Drop)]
pub enum Standing {
    /// It has no clause in the module, and is not declared shared there.
    NotDefined,
    /// The module has a clause of it.
    Defined,
    /// The module declares it `concurrent` or `data`.
    Shared,
}

/// What a predicate of this kind with these clauses is to its module.
fn of_kind(kind: PredKind, clauses: &Clauses) -> Standing
    ensures { result ≡ standing_of_kind kind clauses.now }
{
    match kind {
        PredKind::Rules => {
            if clauses.is_empty() {
                Standing::NotDefined
            } else {
                Standing::Defined
            }
        }
        PredKind::Concurrent(_) => Standing::Shared,
        PredKind::Plain(_) => Standing::Shared,
        PredKind::Remote(_) => Standing::NotDefined,
    }
}

/// What the predicate with this name and arity is to a module, by the predicates of its program.
pub(crate) fn standing_in(preds: &Preds, module: &Name, name: &Name, arity: u16) -> Standing
    ensures { result ≡ standing_in preds.now «module».now name.now arity }
{
    match named(preds.as_slice(), module.bytes(), name.bytes(), arity) {
        Some(pred) => of_kind(pred.kind, &pred.clauses),
        None => Standing::NotDefined,
    }
}

fn named<'a>(preds: &'a [PredInfo], module: &[u8], name: &[u8], arity: u16) -> Option<&'a PredInfo>
    ensures { option_copied result ≡ find (λ (p : InfoOf). is_named «module».now name.now arity p.name) preds.now }
{
    preds
        .iter()
        .find(|pred| is_named(pred, module, name, arity))
}

fn is_named(pred: &PredInfo, module: &[u8], name: &[u8], arity: u16) -> bool
    ensures { result ≡ is_named «module».now name.now arity pred.now.name }
{
    pred.name.module.bytes() == module && pred.name.name.bytes() == name && pred.name.arity == arity
}
