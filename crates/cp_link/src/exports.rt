ghost use Rattle.std.specs.Prelude.{◌≡◌, ◌∷◌, ◌++◌, [], List, IfOk};
ghost use Rattle.cp_declaration.specs.declared.indicator.Indicator.{Indicator as Pred};
ghost use Rattle.cp_declaration.specs.Declarations.{declaration};
ghost use Rattle.cp_module.specs.Causes.{exported_by, header_exports};
ghost use Rattle.cp_link.specs.Modules.{one, distinct, mentions, own_preds, exports_of};

use crate::clauses::{pred_of, shares};
use crate::pred_list::PredList;
use cp_declaration::{Declaration, Indicator, Indicators, declaration_of};
use cp_module::ModulePart;
use cp_read::ReadClause;
use std::alloc::{AllocError, Global};

/// The predicates that the clauses of a file define, in the order in which they first name them.
pub fn own_preds(alloc: Global, clauses: &[ReadClause]) -> Result<Indicators, AllocError>
    ensures { IfOk result (λ preds. preds ≡ own_preds clauses.now) }
{
    let all = own_list(alloc, clauses)?;
    Ok(all.into_preds())
}

fn own_list(alloc: Global, clauses: &[ReadClause]) -> Result<PredList, AllocError>
    ensures { IfOk result (λ preds. preds ≡ own_preds clauses.now) }
{
    let mut all = PredList::new(alloc);
    for clause in clauses {
        let longer = with_mentions(alloc, all, clause)?;
        all = longer;
    }
    Ok(all)
}

/// Adds what a clause makes the module's own.
fn with_mentions(alloc: Global, all: PredList, clause: &ReadClause) -> Result<PredList, AllocError>
    ensures { IfOk result (λ longer. (before : List Pred) → all ≡ distinct before → longer ≡ distinct (before ++ mentions clause.now)) }
{
    let preds = shares(alloc, clause)?;
    let more = with_each(all, preds)?;
    let found = pred_of(clause)?;
    let longer = with_one(more, found)?;
    Ok(longer)
}

fn with_one(all: PredList, found: Option<Indicator>) -> Result<PredList, AllocError>
    ensures { IfOk result (λ longer. (before : List Pred) → all ≡ distinct before → longer ≡ distinct (before ++ one found)) }
{
    match found {
        Some(pred) => {
            let longer = with_new(all, pred)?;
            Ok(longer)
        }
        None => Ok(all),
    }
}

fn with_each(all: PredList, preds: Indicators) -> Result<PredList, AllocError>
    ensures { IfOk result (λ longer. (before : List Pred) → all ≡ distinct before → longer ≡ distinct (before ++ preds)) }
{
    let mut list = all;
    for pred in preds.into_vec() {
        let longer = with_new(list, pred)?;
        list = longer;
    }
    Ok(list)
}

/// Adds a predicate, unless it is there.
fn with_new(all: PredList, pred: Indicator) -> Result<PredList, AllocError>
    ensures { IfOk result (λ longer. (before : List Pred) → all ≡ distinct before → longer ≡ distinct (before ++ pred ∷ [])) }
{
    let there = all.has(&pred)?;
    if there {
        return Ok(all);
    }
    let longer = all.with(pred)?;
    Ok(longer)
}

/// What a file exports: what its header names, or else every predicate that it defines.
pub fn exports_of(alloc: Global, part: &ModulePart) -> Result<Indicators, AllocError>
    ensures { IfOk result (λ preds. preds ≡ exports_of part.now) }
{
    match header_exports(alloc, part.clauses().as_slice())? {
        Some(preds) => Ok(preds),
        None => own_preds(alloc, part.clauses().as_slice()),
    }
}

/// What a file exports, with a table that finds it.
pub(crate) fn export_list(alloc: Global, part: &ModulePart) -> Result<PredList, AllocError>
    ensures { IfOk result (λ preds. preds ≡ exports_of part.now) }
{
    match header_exports(alloc, part.clauses().as_slice())? {
        Some(preds) => PredList::of(alloc, preds.as_slice()),
        None => own_list(alloc, part.clauses().as_slice()),
    }
}

fn header_exports(alloc: Global, clauses: &[ReadClause]) -> Result<Option<Indicators>, AllocError>
    ensures { IfOk result (λ exports. exports ≡ header_exports clauses.now) }
{
    match clauses {
        [header, ..] => exported_by(alloc, header),
        [] => Ok(None),
    }
}

fn exported_by(alloc: Global, header: &ReadClause) -> Result<Option<Indicators>, AllocError>
    ensures { IfOk result (λ exports. exports ≡ exported_by (declaration header.now.term)) }
{
    match declaration_of(alloc, &header.term)? {
        Some(
            Declaration::Module {
                name: _name,
                exports,
            },
        ) => Ok(exports),
        _ => Ok(None),
    }
}
