ghost use Rattle.std.specs.Prelude.{◌≡◌, ℕ, ◌<◌, ◌^◌, ◌||◌, nat_lt, true, List, length, IfOk};
ghost use Rattle.cp_term.specs.Preorder.{is_terms};
ghost use Rattle.cp_code.specs.Clauses.{body_term};
ghost use Rattle.cp_module.specs.Causes.{is_body, is_fact};
ghost use Rattle.cp_module.specs.Judging.{IsDefinedness, AreDefined, IsOneUndefined, IsUndefined, IsDeclarationCause, IsSharingCause, operators_cause, IsPredCause, IsRuleCause, IsClauseCause};

use crate::above::Above;
use crate::clause::{Pred, body_term, is_true, pred_of_head};
use crate::goals::is_goal;
use crate::known::Known;
use crate::operators::are_accepted;
use crate::preds::{are_of_language, repeat};
use crate::why::Why;
use crate::words::is_language;
use cp_declaration::{Declaration, Indicator, Indicators, declaration_of, is_declaration};
use cp_read::ReadClause;
use cp_term::{Cell, Name, Term};
use std::alloc::{AllocError, Global};

/// What is refused in a clause that is not the first.
pub(crate) fn later_cause(
    alloc: Global,
    above: &Above,
    clause: &ReadClause,
) -> Result<Option<Why>, AllocError>
    ensures { IfOk result (λ cause. IsClauseCause above.now clause.now cause) }
{
    if is_declaration(&clause.term) {
        let said = declaration_of(alloc, &clause.term)?;
        declaration_cause(above, said)
    } else {
        rule_cause(above, &clause.term)
    }
}

fn declaration_cause(above: &Above, said: Option<Declaration>) -> Result<Option<Why>, AllocError>
    ensures { IfOk result (λ cause. IsDeclarationCause above.now said cause) }
{
    match said {
        None => Ok(Some(Why::BadDeclaration)),
        Some(
            Declaration::Module {
                name: _,
                exports: _,
            },
        ) => Ok(Some(Why::BadDeclaration)),
        Some(
            Declaration::Operators {
                priority,
                kind,
                names,
            },
        ) => Ok(operators_cause(priority, &kind, names.as_slice())),
        Some(
            Declaration::Shared {
                suspends: _suspends,
                preds,
            },
        ) => {
            let cause = sharing_cause(above, preds.as_slice())?;
            Ok(cause)
        }
        _ => Ok(None),
    }
}

/// What is refused in a declaration of these names as such operators.
fn operators_cause(priority: i64, kind: &Name, names: &[Name]) -> Option<Why>
    ensures { result ≡ operators_cause priority kind.now names.now }
{
    if are_accepted(priority, kind, names) {
        None
    } else {
        Some(Why::BadDeclaration)
    }
}

/// What is refused in a declaration of these predicates as shared.
fn sharing_cause(above: &Above, preds: &[Indicator]) -> Result<Option<Why>, AllocError>
    ensures { IfOk result (λ cause. IsSharingCause above.now preds.now cause) }
{
    if are_of_language(preds) {
        return Ok(Some(Why::ClauseOfBuiltin));
    }
    if repeat(preds) {
        return Ok(Some(Why::SharedTwice));
    }
    if are_defined(above, preds)? {
        Ok(Some(Why::SharedTwice))
    } else {
        Ok(None)
    }
}

/// Whether one of the predicates is defined.
fn are_defined(above: &Above, preds: &[Indicator]) -> Result<bool, AllocError>
    ensures { IfOk result (λ found. AreDefined above.now preds.now found) }
{
    for pred in preds {
        if is_defined(above, pred)? {
            return Ok(true);
        }
    }
    Ok(false)
}

/// Whether one of the predicates that a header exports is not defined.
pub(crate) fn are_undefined(above: &Above, exports: &Option<Indicators>) -> Result<bool, AllocError>
    ensures { IfOk result (λ found. IsUndefined above.now exports.now found) }
{
    match exports {
        Some(preds) => is_one_undefined(above, preds.as_slice()),
        None => Ok(false),
    }
}

fn is_one_undefined(above: &Above, preds: &[Indicator]) -> Result<bool, AllocError>
    ensures { IfOk result (λ found. IsOneUndefined above.now preds.now found) }
{
    for pred in preds {
        if !is_defined(above, pred)? {
            return Ok(true);
        }
    }
    Ok(false)
}

fn is_defined(above: &Above, pred: &Indicator) -> Result<bool, AllocError>
    ensures { IfOk result (λ found. IsDefinedness above.now pred.now found) }
{
    let known = above.find(&pred.name, pred.arity)?;
    Ok(defines(known))
}

/// Whether a predicate of which this is known is defined.
fn defines(known: Known) -> bool
    ensures { result ≡ (nat_lt 0 known.clauses || known.shared) }
{
    known.clauses > 0 || known.shared
}

fn rule_cause(above: &Above, clause: &Term) -> Result<Option<Why>, AllocError>
    ensures { IfOk result (λ cause. IsRuleCause above.now clause.now cause) }
{
    let cells = clause.cells();
    if !is_body(cells) {
        return Ok(Some(Why::BadBody));
    }
    match pred_of_head(cells) {
        Some(pred) => pred_cause(above, pred, is_fact(cells)),
        None => Ok(Some(Why::BadBody)),
    }
}

/// What is refused in a clause of a predicate, which is a fact or not.
fn pred_cause(above: &Above, pred: Pred<'_>, fact: bool) -> Result<Option<Why>, AllocError>
    ensures { IfOk result (λ cause. IsPredCause above.now (record { name = pred.entry.name.now; arity = pred.entry.arity }) fact cause) }
{
    if is_language(pred.name.bytes(), pred.arity) {
        return Ok(Some(Why::ClauseOfBuiltin));
    }
    let known = above.find(pred.name, pred.arity)?;
    if known.shared && !fact {
        return Ok(Some(Why::RuleOfShared));
    }
    if known.clauses >= 4096 {
        return Ok(Some(Why::TooManyClauses));
    }
    Ok(None)
}

/// Whether the body of a clause is a goal. A fact has none.
fn is_body(cells: &[Cell]) -> bool
    requires len { length cells.now < 2 ^ 32 }
    requires term { is_terms 1 cells.now ≡ true }
    ensures { (m : List ℕ) → result ≡ is_body m (body_term cells.now) }
{
    match body_term(cells) {
        Some(body) => is_goal(body),
        None => true,
    }
}

/// Whether a clause is a fact, or a rule with the body `true`.
fn is_fact(cells: &[Cell]) -> bool
    requires len { length cells.now < 2 ^ 32 }
    requires term { is_terms 1 cells.now ≡ true }
    ensures { result ≡ is_fact (body_term cells.now) }
{
    match body_term(cells) {
        Some(body) => is_true(body),
        None => true,
    }
}
