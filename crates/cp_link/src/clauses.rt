ghost use Rattle.std.specs.Prelude.{◌≡◌, ◌≤◌, ◌∷◌, ◌++◌, [], None, Some, length, IfOk, OnOk, MatchOption};
ghost use Rattle.cp_code.specs.Clauses.{is_neck, head_of};
ghost use Rattle.cp_declaration.specs.Declarations.{declaration};
ghost use Rattle.cp_module.specs.Causes.{same, is_in, headed, pred_of, shares, shares_by, is_clause_of, is_shared};
ghost use Rattle.cp_link.specs.Modules.{said, shared_in, rules_in};

use cp_declaration::{Declaration, Indicator, Indicators, declaration_of, is_declaration};
use cp_read::ReadClause;
use cp_term::{Cell, Name};
use std::alloc::{AllocError, Global};

/// The predicate of a head: its name and its number of arguments.
#[derive(Clone, Copy, Drop)]
struct Head<'a> {
    name: &'a Name,
    arity: u16,
}

pub(crate) fn same(pred: &Indicator, other: &Indicator) -> bool
    ensures { result ≡ same pred.now other.now }
{
    pred.name.bytes() == other.name.bytes() && pred.arity == other.arity
}

pub fn is_in(preds: &[Indicator], pred: &Indicator) -> bool
    ensures { result ≡ is_in preds.now pred.now }
{
    preds.iter().any(|other| same(pred, other))
}

/// What a clause says, if it is a declaration.
pub fn said(alloc: Global, clause: &ReadClause) -> Result<Option<Declaration>, AllocError>
    ensures { IfOk result (λ found. found ≡ said clause.now) }
{
    if is_declaration(&clause.term) {
        declaration_of(alloc, &clause.term)
    } else {
        Ok(None)
    }
}

/// The predicates that a clause declares to be shared.
pub(crate) fn shares(alloc: Global, clause: &ReadClause) -> Result<Indicators, AllocError>
    ensures { IfOk result (λ preds. preds ≡ shares clause.now) }
{
    if is_declaration(&clause.term) {
        shares_by(alloc, clause)
    } else {
        Ok(Indicators::new(alloc))
    }
}

fn shares_by(alloc: Global, clause: &ReadClause) -> Result<Indicators, AllocError>
    ensures { IfOk result (λ preds. preds ≡ shares_by (declaration clause.now.term)) }
{
    match declaration_of(alloc, &clause.term)? {
        Some(
            Declaration::Shared {
                suspends: _suspends,
                preds,
            },
        ) => Ok(preds),
        _ => Ok(Indicators::new(alloc)),
    }
}

/// The predicate of a term that begins with this cell and has its arguments behind it.
pub(crate) fn headed(cell: &Cell) -> Result<Option<Indicator>, AllocError>
    ensures { IfOk result (λ pred. pred ≡ headed (cell.now ∷ [])) }
{
    match cell {
        Cell::Atom(name) => Ok(Some(Indicator {
            name: name.clone()?,
            arity: 0,
        })),
        Cell::Func(name, arity) => Ok(Some(Indicator {
            name: name.clone()?,
            arity: *arity,
        })),
        Cell::Var(_) => Ok(None),
        Cell::Int(_) => Ok(None),
    }
}

/// The predicate that a clause is of. A declaration is of none.
pub(crate) fn pred_of(clause: &ReadClause) -> Result<Option<Indicator>, AllocError>
    ensures { IfOk result (λ pred. pred ≡ pred_of clause.now) }
{
    if is_declaration(&clause.term) {
        return Ok(None);
    }
    match head_of(clause.term.cells()) {
        Some(head) => Ok(Some(Indicator {
            name: head.name.clone()?,
            arity: head.arity,
        })),
        None => Ok(None),
    }
}

pub fn is_clause_of(clause: &ReadClause, pred: &Indicator) -> bool
    ensures { result ≡ is_clause_of pred.now clause.now }
{
    if is_declaration(&clause.term) {
        return false;
    }
    match head_of(clause.term.cells()) {
        Some(head) => pred.name.bytes() == head.name.bytes() && pred.arity == head.arity,
        None => false,
    }
}

fn head_of(cells: &[Cell]) -> Option<Head<'_>>
    ensures { MatchOption result (headed (head_of cells.now) ≡ None) (λ p. headed (head_of cells.now) ≡ Some (record { name = p.name.now; arity = p.arity })) }
{
    match cells {
        [first, behind @ ..] => {
            if is_neck(first) {
                first_of(behind)
            } else {
                first_of(cells)
            }
        }
        [] => None,
    }
}

fn first_of(cells: &[Cell]) -> Option<Head<'_>>
    ensures { MatchOption result (headed cells.now ≡ None) (λ p. headed cells.now ≡ Some (record { name = p.name.now; arity = p.arity })) }
{
    match cells {
        [Cell::Atom(name), ..] => Some(Head { name, arity: 0 }),
        [Cell::Func(name, arity), ..] => Some(Head {
            name,
            arity: *arity,
        }),
        _ => None,
    }
}

/// `:-` with two arguments.
fn is_neck(cell: &Cell) -> bool
    ensures { result ≡ is_neck cell.now }
{
    match cell {
        Cell::Func(name, arity) => name.bytes() == b":-".as_slice() && *arity == 2,
        Cell::Var(_) => false,
        Cell::Int(_) => false,
        Cell::Atom(_) => false,
    }
}

/// Whether one of the clauses declares a predicate to be shared.
pub fn is_shared(
    alloc: Global,
    clauses: &[ReadClause],
    pred: &Indicator,
) -> Result<bool, AllocError>
    ensures { IfOk result (λ found. found ≡ is_shared clauses.now pred.now) }
{
    for clause in clauses {
        let preds = shares(alloc, clause)?;
        if is_in(preds.as_slice(), pred) {
            return Ok(true);
        }
    }
    Ok(false)
}

/// The predicates that clauses declare to be shared, in the order of their declarations.
pub fn shared_in(alloc: Global, clauses: &[ReadClause]) -> Result<Indicators, AllocError>
    ensures { IfOk result (λ preds. preds ≡ shared_in clauses.now) }
{
    let mut all = Indicators::new(alloc);
    for clause in clauses {
        let preds = shares(alloc, clause)?;
        push_all(&mut all, preds)?;
    }
    Ok(all)
}

fn push_all(all: &mut Indicators, preds: Indicators) -> Result<(), AllocError>
    ensures { OnOk result (all.new ≡ all.old ++ preds) }
{
    for pred in preds.into_vec() {
        all.push(pred)?;
    }
    Ok(())
}

/// How many of the clauses are no declarations.
pub(crate) fn count_rules(clauses: &[ReadClause]) -> usize
    ensures { result ≡ length (rules_in clauses.now) }
{
    let mut count: usize = 0;
    for clause in clauses {
        count += rule_count(clause);
    }
    count
}

fn rule_count(clause: &ReadClause) -> usize
    ensures count { result ≡ length (rules_in (clause.now ∷ [])) }
    ensures most { result ≤ 1 }
{
    if is_declaration(&clause.term) { 0 } else { 1 }
}
