ghost use Rattle.std.specs.Prelude.{◌≡◌, IfOk};
ghost use Rattle.cp_module.specs.Causes.{is_shared};
ghost use Rattle.cp_link.specs.Modules.{said, shared_in};
ghost use Rattle.cp_link.specs.Linked.{kind_in, shared_kind, suspends, suspends_by};

use crate::objects::Objects;
use cp_code::PredKind;
use cp_declaration::{Declaration, Indicator};
use cp_link::{in_module, is_in, name_of, said};
use cp_module::ModulePart;
use cp_read::ReadClause;
use std::alloc::{AllocError, Global};

/// What kind of predicate a file makes of one of its own, where these are the shared predicates of the program, and these those
/// of the file.
pub(crate) fn kind_in(
    alloc: Global,
    shared: &Objects,
    part: &ModulePart,
    own: &[Indicator],
    pred: &Indicator,
) -> Result<PredKind, AllocError>
    requires { own.now ≡ shared_in part.now.clauses }
    ensures { IfOk result (λ kind. kind ≡ kind_in shared.now part.now pred.now) }
{
    if !is_shared(part, own, pred) {
        return Ok(PredKind::Rules);
    }
    let waits = suspends(alloc, part.clauses().as_slice(), pred)?;
    let name = name_of(alloc, part)?;
    let object = shared.object_of(&in_module(&name, pred)?);
    Ok(shared_kind(waits, object))
}

/// Whether a predicate is among those that a file declares to be shared.
fn is_shared(part: &ModulePart, own: &[Indicator], pred: &Indicator) -> bool
    requires { own.now ≡ shared_in part.now.clauses }
    ensures { result ≡ is_shared part.now.clauses pred.now }
{
    let _part = part;
    is_in(own, pred)
}

fn shared_kind(waits: bool, object: u32) -> PredKind
    ensures { result ≡ shared_kind waits object }
{
    if waits {
        PredKind::Concurrent(object)
    } else {
        PredKind::Plain(object)
    }
}

/// Whether one of the clauses declares a predicate `concurrent`.
fn suspends(alloc: Global, clauses: &[ReadClause], pred: &Indicator) -> Result<bool, AllocError>
    ensures { IfOk result (λ found. found ≡ suspends clauses.now pred.now) }
{
    for clause in clauses {
        if suspends_by(alloc, clause, pred)? {
            return Ok(true);
        }
    }
    Ok(false)
}

fn suspends_by(alloc: Global, clause: &ReadClause, pred: &Indicator) -> Result<bool, AllocError>
    ensures { IfOk result (λ found. found ≡ suspends_by pred.now (said clause.now)) }
{
    match said(alloc, clause)? {
        Some(Declaration::Shared { suspends, preds }) => {
            Ok(suspends && is_in(preds.as_slice(), pred))
        }
        _ => Ok(false),
    }
}
